//! The threads of a guest: which have ended, with which value, and which joins which. No call allocates memory.

ghost use Rattle.std.specs.Prelude.{◌≡◌, ◌<◌, ◌≤◌, ◌∷◌, [], None, is_some, length};
ghost use Rattle.guest_call.specs.Queues.{waits};
ghost use Rattle.guest_call.specs.Threads.{fresh, joins, ended_with, joined_by, member_queue, create_row, thread_exit_row, join_row};

use super::effect::Effect;
use super::queue::Queue;
use arrayvec::ArrayVec;
use guest_call::{EAGAIN, EDEADLK, EINVAL, ESRCH, Fate, THREADS, Thread};
use std::marker::Model;

/// One thread: the thread that joins it or has joined it, and its value once it has ended.
#[derive(Clone, Copy)]
struct Seat {
    joiner: Option<Thread>,
    value: Option<u32>,
}

impl Model for Seat {
    ghost use Rattle.guest_call.specs.Threads.{Member};

    ghost Value = { Member };

    ghost view = { λ s. record { joiner = s.joiner; value = s.value } };

    ghost inverse = { λ m. record { joiner = m.joiner; value = m.value } };
}

impl Default for Seat {
    fn default() -> Seat
        ensures { result ≡ fresh }
    {
        Seat {
            joiner: None,
            value: None,
        }
    }
}

impl Seat {
    /// Whether the thread has or had a joiner.
    fn is_joined(&self) -> bool
        ensures { result ≡ is_some self.now.joiner }
    {
        self.joiner.is_some()
    }

    /// The thread that waits for this one to end, if any.
    fn waiting(&self) -> Queue
        ensures { result ≡ member_queue self.now }
    {
        let mut waiting = Queue::empty();
        if let (None, Some(joiner)) = (self.value, self.joiner) {
            waiting.push(joiner);
        }
        waiting
    }

    /// The thread ends with this value. Returns the thread that waited for its end, if any.
    fn end(&mut self, value: u32) -> Queue
        ensures waiting { result ≡ member_queue self.old }
        ensures ended { self.new ≡ ended_with value self.old }
    {
        let waiting = self.waiting();
        self.value = Some(value);
        waiting
    }

    /// Thread `t` becomes the joiner of this one.
    fn take_joiner(&mut self, t: Thread) -> Effect
        ensures effect { result ≡ joins self.old.value }
        ensures joined { self.new ≡ joined_by t self.old }
    {
        self.joiner = Some(t);
        match self.value {
            Some(value) => Effect::wakes(Fate::Returns(0, Some(value)), Queue::empty()),
            None => Effect::blocks(),
        }
    }
}

/// A thread is created at `pc` with an argument.
fn create_in(seats: &mut ArrayVec<Seat, THREADS>, pc: u32, argument: u32) -> Effect
    ensures { (result, seats.new.items) ≡ create_row pc argument seats.old.items }
{
    if pc % 4 != 0 {
        return Effect::answers(EINVAL);
    }
    let number = seats.len();
    if number >= THREADS {
        return Effect::answers(EAGAIN);
    }
    seats.push(Seat::default());
    Effect::creates(number as u32, pc, argument)
}

/// Thread `t` ends with a value.
fn thread_exit_in(seats: &mut ArrayVec<Seat, THREADS>, t: Thread, value: u32) -> Effect
    requires { t < length seats.old.items }
    ensures { (result, seats.new.items) ≡ thread_exit_row t value seats.old.items }
{
    let seat = &mut seats[usize::from(t.number())];
    let woken = seat.end(value);
    Effect::ends(value, woken)
}

/// Thread `t` joins thread `u`.
fn join_in(seats: &mut ArrayVec<Seat, THREADS>, t: Thread, u: u32) -> Effect
    ensures { (result, seats.new.items) ≡ join_row t u seats.old.items }
{
    if u as usize >= seats.len() {
        return Effect::answers(ESRCH);
    }
    if u == u32::from(t.number()) {
        return Effect::answers(EDEADLK);
    }
    if seats[u as usize].is_joined() {
        return Effect::answers(EINVAL);
    }
    let seat = &mut seats[u as usize];
    seat.take_joiner(t)
}

/// The threads of a guest, numbered from 0 in the order in which they were created; thread 0 is there from the start.
/// No thread waits to join more than one.
#[derive(Drop)]
pub struct Threads {
    seats: ArrayVec<Seat, THREADS>,
}

impl Model for Threads {
    ghost use Rattle.std.specs.Prelude.{List};
    ghost use Rattle.guest_call.specs.Threads.{Member};
    ghost use Rattle.sync_objects.specs.ThreadTable.{IsThreadTable};

    ghost Value = { List Member };

    ghost view = { λ s. s.seats.items };

    ghost invariant = { λ s. IsThreadTable s.seats.items };
}

impl Threads {
    /// Thread 0 alone.
    pub fn new() -> Threads
        ensures { result ≡ fresh ∷ [] }
    {
        let mut seats = ArrayVec::new();
        seats.push(Seat::default());
        Threads { seats }
    }

    /// How many threads exist, ended ones included.
    pub fn len(&self) -> usize
        ensures count { result ≡ length self.now }
        ensures fits { result ≤ THREADS }
    {
        self.seats.len()
    }

    /// `create(pc, argument)`, called by a thread: the answer is the new thread's number, the least that is unused. A
    /// pc that isn't a multiple of 4 is EINVAL; if 32 threads exist, the answer is EAGAIN (POSIX.1-2017,
    /// pthread_create).
    pub fn create(&mut self, _t: Thread, pc: u32, argument: u32) -> Effect
        ensures { (result, self.new) ≡ create_row pc argument self.old }
    {
        create_in(&mut self.seats, pc, argument)
    }

    /// `thread_exit(value)`, called by thread `t`, which ends: the thread that waits to join it is woken and receives
    /// the value (POSIX.1-2017, pthread_exit).
    pub fn thread_exit(&mut self, t: Thread, value: u32) -> Effect
        requires exists { t < length self.old }
        ensures { (result, self.new) ≡ thread_exit_row t value self.old }
    {
        thread_exit_in(&mut self.seats, t, value)
    }

    /// `join(u)`, called by thread `t`: if thread `u` has ended, the answer is 0 with its value; else `t` waits for its
    /// end. ESRCH: there is no thread `u`; EDEADLK: it is `t`; EINVAL: it has or had a joiner (POSIX.1-2017,
    /// pthread_join).
    pub fn join(&mut self, t: Thread, u: u32) -> Effect
        requires exists { t < length self.old }
        requires free { waits member_queue self.old t ≡ 0 }
        ensures { (result, self.new) ≡ join_row t u self.old }
    {
        join_in(&mut self.seats, t, u)
    }
}
