//! A queue of threads, first in first out, which allocates no memory.

ghost use Rattle.std.specs.Prelude.{◌≡◌, ◌==◌, ◌<◌, ◌≤◌, [], ◌∷◌, ◌++◌, length, slice_index};
ghost use Rattle.sync_objects.specs.Queue.{popped, AreThreads};

use arrayvec::ArrayVec;
use guest_call::{THREADS, Thread, threads_are_few};
use std::marker::Model;

/// How many threads a queue has room for.
pub const ROOM: usize = THREADS;

/// A queue of threads, the first to come first.
#[derive(Drop)]
pub struct Queue {
    threads: ArrayVec<Thread, ROOM>,
}

impl Model for Queue {
    ghost use Rattle.std.specs.Prelude.{ℕ, List};
    ghost use Rattle.sync_objects.specs.Queue.{AreThreads};

    ghost Value = { List ℕ };

    ghost view = { λ q. q.threads.items };

    ghost invariant = { λ q. AreThreads q.threads.items };
}

impl Queue {
    /// An empty queue.
    pub fn empty() -> Queue
        ensures { result ≡ [] }
    {
        Queue {
            threads: ArrayVec::new(),
        }
    }

    /// How many threads are in the queue.
    pub fn len(&self) -> usize
        ensures count { result ≡ length self.now }
        ensures fits { result ≤ ROOM }
    {
        self.threads.len()
    }

    /// Whether the queue is empty.
    pub fn is_empty(&self) -> bool
        ensures { result ≡ (length self.now == 0) }
    {
        self.threads.is_empty()
    }

    /// The thread at place `i`, counted from the front from 0.
    pub fn at(&self, i: usize) -> Thread
        requires { i < length self.now }
        ensures { result ≡ slice_index self.now i }
    {
        self.threads.as_slice()[i]
    }

    /// The threads, the first in front.
    pub fn threads(&self) -> &[Thread]
        ensures same { result.now ≡ self.now }
        ensures threads { AreThreads self.now }
    {
        self.threads.as_slice()
    }

    /// Puts a thread at the end.
    pub fn push(&mut self, thread: Thread)
        requires { length self.old < ROOM }
        ensures { self.new ≡ self.old ++ thread ∷ [] }
    {
        threads_are_few(thread);
        self.threads.push(thread);
    }

    /// Takes the first thread out. None exactly if the queue is empty.
    pub fn pop_first(&mut self) -> Option<Thread>
        ensures { (result, self.new) ≡ popped self.old }
    {
        self.threads.pop_at(0)
    }
}
