//! The accesses to a page so far, thread by thread.

ghost use Rattle.std.specs.Prelude.{◌≡◌, ◌<◌, ◌≤◌, ◌+◌, ◌^◌, ◌==◌, ◌&&◌, not, nat_lt, nat_le, ℕ, Bool, List, [], ◌∷◌, ◌++◌, All, length, drop, count_by, IfSome, OnOk, if◌then◌else◌};
ghost use Rattle.std.specs.List.{HoldsAt, filter};
ghost use Rattle.std.specs.List.Sorted.{IsNonDecreasingBy};
ghost use Rattle.guest_call.specs.declared.thread_number.TheConstants.{THREADS};
ghost use Rattle.memo_reports.specs.declared.races.past.ThreadPast.{ThreadPast as Past};
ghost use Rattle.memo_reports.specs.Past.{IsThreadPast, IsPagePast, accesses_of, races_with, IsAfter, is_misplaced};

use super::steps::Step;
use std::alloc::{AllocError, Global};

/// A step's use of a page.
#[derive(Clone, Copy)]
pub struct Access {
    /// The place of the step.
    pub place: usize,
    /// Its thread.
    pub thread: u8,
    /// How many steps of its thread come before it.
    pub number: u32,
    /// Whether it writes the page; if not, its own thunk reads it.
    pub writes: bool,
}

impl Access {
    /// The access of the step at a place, by whether it writes the page.
    pub fn of(step: &Step, place: usize, writes: bool) -> Access
        ensures { result
            ≡ record {
              place = place;
              thread = step.now.thread;
              number = step.now.number;
              writes = writes;
            } }
    {
        Access {
            place,
            thread: step.thread,
            number: step.number,
            writes,
        }
    }
}

/// The accesses of one thread to a page so far, in order.
#[derive(Drop)]
pub struct ThreadPast {
    /// The thread.
    thread: u8,
    /// All of them.
    all: Vec<Access>,
    /// Those that write the page.
    writing: Vec<Access>,
}

/// The place of the first access whose step's number isn't below this one. Mostly that holds for all, or for none.
fn first_from(accesses: &[Access], number: u32) -> usize
    requires { IsNonDecreasingBy (λ (a : Access). a.number) accesses.now }
    ensures within { result ≤ length accesses.now }
    ensures rest { drop result accesses.now
        ≡ filter (λ (a : Access). not (nat_lt a.number number)) accesses.now }
{
    let count = accesses.len();
    if count == 0 || number <= accesses[0].number {
        return 0;
    }
    if accesses[count - 1].number < number {
        return count;
    }
    accesses.partition_point(|access| access.number < number)
}

impl ThreadPast {
    /// No access of a thread so far. Allocates no memory.
    fn new(alloc: Global, thread: u8) -> ThreadPast
        requires { thread < THREADS }
        ensures past { IsThreadPast result }
        ensures all { result.all.items ≡ [] }
        ensures thread { result.thread ≡ thread }
    {
        ThreadPast {
            thread,
            all: Vec::new(alloc),
            writing: Vec::new(alloc),
        }
    }

    /// The accesses that race with one of a later step, by whether the later one writes. The later step's thunk has
    /// seen the first steps of the thread, so these are the last accesses.
    pub fn racing(&self, step: &Step, writes: bool) -> &[Access]
        requires { IsThreadPast self.now }
        ensures { result.now ≡ filter (races_with step.now writes) self.now.all.items }
    {
        let accesses = if writes { &self.all } else { &self.writing };
        let first = if self.thread == step.thread {
            accesses.len()
        } else {
            first_from(accesses, step.seen.count(self.thread))
        };
        &accesses[first..]
    }

    /// Adds an access.
    fn add(&mut self, access: Access) -> Result<(), AllocError>
        requires thread { access.thread ≡ self.old.thread }
        requires past { IsThreadPast self.old }
        requires after { All (IsAfter access) self.old.all.items }
        ensures past { OnOk result (IsThreadPast self.new) }
        ensures all { OnOk result (self.new.all.items ≡ self.old.all.items ++ access ∷ []) }
        ensures thread { self.new.thread ≡ self.old.thread }
    {
        if access.writes {
            self.writing.push(access)?;
        }
        self.all.push(access)?;
        Ok(())
    }
}

/// The accesses to a page so far.
#[derive(Drop)]
pub struct PagePast {
    /// Those of each thread that has any.
    pub threads: Vec<ThreadPast>,
}

impl PagePast {
    /// No access so far. Allocates no memory.
    pub fn new(alloc: Global) -> PagePast
        ensures { result.threads.items ≡ [] }
    {
        PagePast {
            threads: Vec::new(alloc),
        }
    }

    /// The place of a thread's accesses, if it has any.
    fn place(&self, thread: u8) -> Option<usize>
        ensures within { IfSome result (λ place. place < length self.now.threads.items) }
        ensures thread { IfSome result
            (HoldsAt (λ (p : Past). p.thread ≡ thread) self.now.threads.items) }
    {
        self.threads.iter().position(|past| past.thread == thread)
    }

    /// Adds an access, after all of its thread.
    pub fn add(&mut self, alloc: Global, access: Access) -> Result<(), AllocError>
        requires known { access.thread < THREADS }
        requires past { IsPagePast self.old }
        requires after { count_by (is_misplaced access) (accesses_of self.old) ≡ 0 }
        ensures past { OnOk result (IsPagePast self.new) }
        ensures counts { (q : Access → Bool) → OnOk result (count_by q (accesses_of self.new)
            ≡ count_by q (accesses_of self.old) + (if q access then 1 else 0)) }
    {
        match self.place(access.thread) {
            Some(place) => self.threads[place].add(access)?,
            None => {
                let mut past = ThreadPast::new(alloc, access.thread);
                past.add(access)?;
                self.threads.push(past)?;
            }
        }
        Ok(())
    }
}
