//! The 64 conditions of a guest: which threads wait for each, with which mutex, and which leave it. The caller updates
//! the mutex. No call allocates memory.

ghost use Rattle.std.specs.Prelude.{◌≡◌, ℕ, ◌<◌, ◌≤◌, length, slice_index_or};
ghost use Rattle.std.specs.Option.{IfSome};
ghost use Rattle.guest_call.specs.Queues.{places, waits};
ghost use Rattle.guest_call.specs.Conditions.{unawaited, condition_queue, signal_leaving, broadcast_leaving};
ghost use Rattle.guest_call.specs.Objects.{all_unawaited};
ghost use Rattle.sync_objects.specs.ConditionTable.{wait_row, wait_at, awaited_with};
ghost use Rattle.sync_objects.specs.Leaving.{leaving_of, leaving_at};

use super::queue::Queue;
use super::table::{all_of, row_at};
use guest_call::{OBJECTS, THREADS, Thread, threads_are_few};
use std::marker::Model;
use std::mem;

/// The threads that leave a condition, in order, and the number of the mutex to which they come.
#[derive(Drop)]
pub struct Leaving {
    /// The mutex with which they waited.
    pub mutex: u32,
    /// The threads; the one that has waited longest is first.
    pub threads: Queue,
}

/// One condition: the mutex with which threads wait for it, or last did, and the waiting threads.
#[derive(Drop)]
struct Cell {
    mutex: u32,
    queue: Queue,
}

impl Model for Cell {
    ghost use Rattle.guest_call.specs.Conditions.{Condition};

    ghost Value = { Condition };

    ghost view = { λ c. record { mutex = c.mutex; queue = c.queue } };
}

impl Cell {
    /// A condition for which no thread waits.
    fn unawaited() -> Cell
        ensures { result ≡ unawaited }
    {
        Cell {
            mutex: 0,
            queue: Queue::empty(),
        }
    }

    /// Thread `t`, which owns mutex `m`, wants to wait. Returns whether it does.
    fn wait(&mut self, t: Thread, m: u32) -> bool
        requires { length self.old.queue < THREADS }
        ensures { (result, self.new) ≡ wait_row t m self.old }
    {
        if !self.queue.is_empty() && self.mutex != m {
            return false;
        }
        self.mutex = m;
        self.queue.push(t);
        true
    }

    /// The first waiting thread leaves, if there is one.
    fn signal(&mut self) -> Leaving
        ensures { (result, self.new) ≡ leaving_of signal_leaving self.old }
    {
        let mut threads = Queue::empty();
        if let Some(u) = self.queue.pop_first() {
            threads.push(u);
        }
        Leaving {
            mutex: self.mutex,
            threads,
        }
    }

    /// All waiting threads leave.
    fn broadcast(&mut self) -> Leaving
        ensures { (result, self.new) ≡ leaving_of broadcast_leaving self.old }
    {
        let threads = mem::replace(&mut self.queue, Queue::empty());
        Leaving {
            mutex: self.mutex,
            threads,
        }
    }
}

/// The conditions of a guest, numbered from 0 to 63. No thread waits in more than one place of them, and each names a
/// mutex from 0 to 63.
#[derive(Drop)]
pub struct Conditions {
    cells: [Cell; OBJECTS],
}

impl Model for Conditions {
    ghost use Rattle.std.specs.Prelude.{List};
    ghost use Rattle.guest_call.specs.Conditions.{Condition};
    ghost use Rattle.sync_objects.specs.ConditionTable.{IsConditionTable};

    ghost Value = { List Condition };

    ghost view = { λ s. s.cells };

    ghost invariant = { λ s. IsConditionTable s.cells };
}

impl Conditions {
    /// 64 conditions for which no thread waits.
    pub fn new() -> Conditions
        ensures { result ≡ all_unawaited }
    {
        Conditions {
            cells: all_of(Cell::unawaited),
        }
    }

    /// The condition's part of `cond_wait(c, m)`, called by thread `t`, the owner of mutex `m`: it waits at the end of
    /// the queue, with that mutex. It doesn't, and nothing changes, exactly if others wait with another mutex, which is
    /// EINVAL. Returns whether it waits (POSIX.1-2017, pthread_cond_wait).
    pub fn wait(&mut self, t: Thread, c: u32, m: u32) -> bool
        requires free { waits condition_queue self.old t ≡ 0 }
        requires condition { c < OBJECTS }
        requires mutex { m < OBJECTS }
        ensures { (result, self.new) ≡ wait_at t m self.old c }
    {
        threads_are_few(t);
        let cell = &mut self.cells[c as usize];
        cell.wait(t, m)
    }

    /// The condition's part of `signal(c)`: the thread that has waited longest leaves, if any waits. None exactly if
    /// `c` is above 63, which is EINVAL (POSIX.1-2017, pthread_cond_signal).
    pub fn signal(&mut self, c: u32) -> Option<Leaving>
        ensures does { (result, self.new) ≡ leaving_at signal_leaving self.old c }
        ensures mutex { IfSome result (λ l. l.mutex < OBJECTS) }
        ensures waited { IfSome result (λ l. (u : ℕ)
            → places u l.threads ≤ waits condition_queue self.old u) }
    {
        row_at(&mut self.cells, c, Cell::signal)
    }

    /// The condition's part of `broadcast(c)`: all waiting threads leave, in order. None exactly if `c` is above 63,
    /// which is EINVAL (POSIX.1-2017, pthread_cond_broadcast).
    pub fn broadcast(&mut self, c: u32) -> Option<Leaving>
        ensures does { (result, self.new) ≡ leaving_at broadcast_leaving self.old c }
        ensures mutex { IfSome result (λ l. l.mutex < OBJECTS) }
        ensures waited { IfSome result (λ l. (u : ℕ)
            → places u l.threads ≤ waits condition_queue self.old u) }
    {
        row_at(&mut self.cells, c, Cell::broadcast)
    }

    /// The mutex with which threads wait for the condition of number `c`. None exactly if no thread waits for it.
    pub fn awaited_with(&self, c: u32) -> Option<u32>
        requires { c < OBJECTS }
        ensures { result ≡ awaited_with (slice_index_or self.now c unawaited) }
    {
        let cell = &self.cells[c as usize];
        if cell.queue.is_empty() {
            None
        } else {
            Some(cell.mutex)
        }
    }
}
