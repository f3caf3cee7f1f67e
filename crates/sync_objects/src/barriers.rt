//! The 64 barriers of a guest, at which threads wait until as many threads have come as the barrier counts. No call
//! allocates memory.

ghost use Rattle.std.specs.Prelude.{◌≡◌, ◌<◌, length};
ghost use Rattle.guest_call.specs.Queues.{waits};
ghost use Rattle.guest_call.specs.Tables as tables;
ghost use Rattle.guest_call.specs.Barriers.{uninitialised, barrier_queue, barrier_init_row, barrier_init_at, barrier_wait_row};
ghost use Rattle.guest_call.specs.Objects.{all_uninitialised};

use super::effect::Effect;
use super::queue::Queue;
use super::table::{all_of, at_cell};
use guest_call::{EBUSY, EINVAL, Fate, OBJECTS, THREADS, Thread, threads_are_few};
use std::marker::Model;
use std::mem;

/// The answer to the thread that releases the others (POSIX.1-2017, pthread_barrier_wait,
/// PTHREAD_BARRIER_SERIAL_THREAD).
const SERIAL_THREAD: u32 = 1;

/// The largest count of a barrier: as many as there can be threads.
pub const LARGEST_COUNT: u32 = THREADS as u32;

/// One barrier: how many threads it releases together, once it is initialised, and which threads wait at it.
#[derive(Drop)]
struct Cell {
    count: Option<u32>,
    queue: Queue,
}

impl Model for Cell {
    ghost use Rattle.guest_call.specs.Barriers.{Barrier};

    ghost Value = { Barrier };

    ghost view = { λ c. record { count = c.count; queue = c.queue } };
}

impl Cell {
    /// A barrier that isn't initialised, with no thread waiting.
    fn uninitialised() -> Cell
        ensures { result ≡ uninitialised }
    {
        Cell {
            count: None,
            queue: Queue::empty(),
        }
    }

    /// The count becomes `n`, unless a thread waits.
    fn init(&mut self, n: u32) -> Effect
        ensures { (result, self.new) ≡ barrier_init_row n self.old }
    {
        if !self.queue.is_empty() {
            return Effect::answers(EBUSY);
        }
        self.count = Some(n);
        Effect::answers(0)
    }

    /// Thread `t` comes to the barrier.
    fn wait(&mut self, t: Thread) -> Effect
        requires { length self.old.queue < THREADS }
        ensures { (result, self.new) ≡ barrier_wait_row t self.old }
    {
        match self.count {
            None => Effect::answers(EINVAL),
            Some(n) if self.queue.len() as u32 + 1 == n => {
                let woken = mem::replace(&mut self.queue, Queue::empty());
                Effect::wakes(Fate::Returns(SERIAL_THREAD, None), woken)
            }
            Some(_) => {
                self.queue.push(t);
                Effect::blocks()
            }
        }
    }
}

/// The barriers of a guest, numbered from 0 to 63. No thread waits in more than one place of them.
#[derive(Drop)]
pub struct Barriers {
    cells: [Cell; OBJECTS],
}

impl Model for Barriers {
    ghost use Rattle.std.specs.Prelude.{List};
    ghost use Rattle.guest_call.specs.Barriers.{Barrier, barrier_queue};
    ghost use Rattle.guest_call.specs.Tables.{IsTable};

    ghost Value = { List Barrier };

    ghost view = { λ s. s.cells };

    ghost invariant = { λ s. IsTable barrier_queue s.cells };
}

impl Barriers {
    /// 64 barriers that aren't initialised, with no thread waiting.
    pub fn new() -> Barriers
        ensures { result ≡ all_uninitialised }
    {
        Barriers {
            cells: all_of(Cell::uninitialised),
        }
    }

    /// `barrier_init(b, n)`, called by a thread: the count becomes `n`, and the answer is 0. EINVAL: the number is
    /// above 63, or `n` is 0 or above 32; EBUSY: a thread waits (POSIX.1-2017, pthread_barrier_init).
    pub fn init(&mut self, _t: Thread, b: u32, n: u32) -> Effect
        ensures { (result, self.new) ≡ barrier_init_at n self.old b }
    {
        if n == 0 || n > LARGEST_COUNT {
            return Effect::answers(EINVAL);
        }
        at_cell(&mut self.cells, b, |cell: &mut Cell| cell.init(n))
    }

    /// `barrier_wait(b)`, called by thread `t`: if `t` is the last of those that the barrier counts, its answer is 1
    /// (PTHREAD_BARRIER_SERIAL_THREAD), and all waiting threads are woken, each with the answer 0; else `t` waits at
    /// the end of the queue. EINVAL: the number is above 63, or the barrier isn't initialised (POSIX.1-2017,
    /// pthread_barrier_wait).
    pub fn wait(&mut self, t: Thread, b: u32) -> Effect
        requires free { waits barrier_queue self.old t ≡ 0 }
        ensures { (result, self.new)
            ≡ tables.at_cell uninitialised (barrier_wait_row t) self.old b }
    {
        threads_are_few(t);
        at_cell(
            &mut self.cells,
            b,
            |cell: &mut Cell| -> Effect
                requires { length cell.old.queue < THREADS }
                ensures { (result, cell.new) ≡ barrier_wait_row t cell.old }
            { cell.wait(t) },
        )
    }
}
