//! Which thread owns each mutex, which threads hold each reader-writer lock, and what each thread waits for, by the
//! calls so far.

use guest_call::{Call, Fate, OBJECTS, THREADS};
use std::fmt;
use sync_objects::Effect;

/// What a thread waits for.
#[derive(Clone, Copy, PartialEq, Eq)]
pub enum Wait {
    /// That it gets a mutex.
    Mutex(u32),
    /// That a semaphore is posted.
    Semaphore(u32),
    /// That others come to a barrier.
    Barrier(u32),
    /// That a condition is signalled; after it, the mutex; and how many waits began before this one.
    Condition(u32, u32, u32),
    /// That a thread ends.
    Thread(u32),
    /// That it may read under a reader-writer lock.
    Read(u32),
    /// That it gets a reader-writer lock to write.
    Write(u32),
}

impl fmt::Display for Wait {
    fn fmt<W: fmt::Write>(&self, f: &mut fmt::Formatter<W>) -> fmt::Result {
        match self {
            Wait::Mutex(mutex) => write!(f, "mutex {mutex}"),
            Wait::Semaphore(semaphore) => write!(f, "semaphore {semaphore}"),
            Wait::Barrier(barrier) => write!(f, "barrier {barrier}"),
            Wait::Condition(condition, mutex, _) => {
                write!(f, "condition {condition}, with mutex {mutex}")
            }
            Wait::Thread(thread) => write!(f, "the end of thread {thread}"),
            Wait::Read(lock) => write!(f, "rwlock {lock} to read"),
            Wait::Write(lock) => write!(f, "rwlock {lock} to write"),
        }
    }
}

/// Which threads hold a reader-writer lock, by their numbers.
type Holders = [bool; THREADS];

/// The owner of each mutex, the holders of each reader-writer lock, and what each thread waits for.
#[derive(Drop)]
pub struct Waits {
    owners: [Option<u8>; OBJECTS],
    holders: [Holders; OBJECTS],
    waits: [Option<Wait>; THREADS],
    begun: u32,
}

impl Waits {
    /// No thread owns a mutex, holds a lock or waits.
    pub fn none() -> Waits {
        Waits {
            owners: [None; OBJECTS],
            holders: [[false; THREADS]; OBJECTS],
            waits: [None; THREADS],
            begun: 0,
        }
    }

    /// What a thread waits for.
    pub fn wait_of(&self, thread: u8) -> Option<Wait> {
        let place = usize::from(thread);
        if place < THREADS {
            self.waits[place]
        } else {
            None
        }
    }

    /// The owner of a mutex, if it has one.
    pub fn owner(&self, mutex: u32) -> Option<u8> {
        let place = mutex as usize;
        if place < OBJECTS {
            self.owners[place]
        } else {
            None
        }
    }

    /// Sets the owner of a mutex, or that it has none.
    fn set_owner(&mut self, mutex: u32, owner: Option<u8>) {
        let place = mutex as usize;
        if place < OBJECTS {
            self.owners[place] = owner;
        }
    }

    /// Whether a thread holds a reader-writer lock.
    pub fn holds(&self, lock: u32, thread: u8) -> bool {
        let (place, holder) = (lock as usize, usize::from(thread));
        place < OBJECTS && holder < THREADS && self.holders[place][holder]
    }

    /// Sets whether a thread holds a reader-writer lock.
    fn set_holder(&mut self, lock: u32, thread: u8, holds: bool) {
        let (place, holder) = (lock as usize, usize::from(thread));
        if place < OBJECTS && holder < THREADS {
            self.holders[place][holder] = holds;
        }
    }

    /// Sets what a thread waits for, or that it waits for nothing.
    fn set_wait(&mut self, thread: u8, wait: Option<Wait>) {
        let place = usize::from(thread);
        if place < THREADS {
            self.waits[place] = wait;
        }
    }

    /// The thread that has waited longest for a condition, with its mutex.
    fn longest(&self, condition: u32) -> Option<(usize, u32)> {
        let mut found: Option<(usize, u32, u32)> = None;
        for place in 0..THREADS {
            if let Some(Wait::Condition(here, mutex, begun)) = self.waits[place] {
                if here == condition && found.is_none_or(|(_, _, first)| begun < first) {
                    found = Some((place, mutex, begun));
                }
            }
        }
        match found {
            Some((place, mutex, _)) => Some((place, mutex)),
            None => None,
        }
    }

    /// Makes the thread that has waited longest for a condition wait for its mutex.
    fn signal(&mut self, condition: u32) {
        if let Some((place, mutex)) = self.longest(condition) {
            if place < THREADS {
                self.waits[place] = Some(Wait::Mutex(mutex));
            }
        }
    }

    /// Makes all threads that wait for a condition wait for their mutexes.
    fn broadcast(&mut self, condition: u32) {
        for place in 0..THREADS {
            if let Some(Wait::Condition(here, mutex, _)) = self.waits[place] {
                if here == condition {
                    self.waits[place] = Some(Wait::Mutex(mutex));
                }
            }
        }
    }

    /// What a thread waits for if this call blocks.
    fn begin(&mut self, call: Call) -> Option<Wait> {
        match call {
            Call::Lock(mutex) => Some(Wait::Mutex(mutex)),
            Call::SemWait(semaphore) => Some(Wait::Semaphore(semaphore)),
            Call::BarrierWait(barrier) => Some(Wait::Barrier(barrier)),
            Call::Join(thread) => Some(Wait::Thread(thread)),
            Call::RdLock(lock) => Some(Wait::Read(lock)),
            Call::WrLock(lock) => Some(Wait::Write(lock)),
            Call::CondWait(condition, mutex) => {
                self.set_owner(mutex, None);
                let begun = self.begun;
                self.begun = begun.saturating_add(1);
                Some(Wait::Condition(condition, mutex, begun))
            }
            _ => None,
        }
    }

    /// Notes that a call returned 0 to its caller.
    fn done(&mut self, thread: u8, call: Call) {
        match call {
            Call::Lock(mutex) | Call::TryLock(mutex) => self.set_owner(mutex, Some(thread)),
            Call::Unlock(mutex) => self.set_owner(mutex, None),
            Call::Signal(condition) => self.signal(condition),
            Call::Broadcast(condition) => self.broadcast(condition),
            Call::RdLock(lock) | Call::WrLock(lock) | Call::TryWrLock(lock) => {
                self.set_holder(lock, thread, true)
            }
            Call::RwUnlock(lock) => self.set_holder(lock, thread, false),
            _ => {}
        }
    }

    /// Wakes a thread: it owns the mutex that it waited for, or holds the lock.
    fn wake(&mut self, thread: u8) {
        match self.wait_of(thread) {
            Some(Wait::Mutex(mutex)) => self.set_owner(mutex, Some(thread)),
            Some(Wait::Read(lock) | Wait::Write(lock)) => self.set_holder(lock, thread, true),
            _ => {}
        }
        self.set_wait(thread, None);
    }

    /// Notes the effect of a thread's call.
    pub fn note(&mut self, thread: u8, call: Call, effect: &Effect) {
        match effect.fate() {
            Fate::Returns(0, _) => self.done(thread, call),
            Fate::Blocks => {
                let wait = self.begin(call);
                self.set_wait(thread, wait);
            }
            Fate::Returns(_, _) | Fate::Ends(_) | Fate::Exits(_) => {}
        }
        let woken = effect.woken();
        for i in 0..woken.len() {
            self.wake(woken.at(i).number());
        }
    }
}
