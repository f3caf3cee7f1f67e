//! The 64 semaphores of a guest, each of which gives a post to the thread that has waited longest. No call allocates
//! memory.

ghost use Rattle.std.specs.Prelude.{◌≡◌, ◌<◌, ◌≤◌, length};
ghost use Rattle.guest_call.specs.Queues.{waits};
ghost use Rattle.guest_call.specs.Tables as tables;
ghost use Rattle.guest_call.specs.Semaphores.{unposted, semaphore_queue, largest_value, sem_wait_row, sem_trywait_row, sem_post_row, sem_init_row, sem_init_at};
ghost use Rattle.guest_call.specs.Objects.{all_unposted};

use super::effect::Effect;
use super::queue::Queue;
use super::table::{all_of, at_cell};
use guest_call::{
    EAGAIN, EBUSY, EINVAL, EOVERFLOW, Fate, OBJECTS, THREADS, Thread, threads_are_few,
};
use std::marker::Model;

/// The largest value of a semaphore (POSIX.1-2017, `<limits.h>`, SEM_VALUE_MAX; the number is Linux's).
pub const LARGEST_VALUE: u32 = 2_147_483_647;

/// One semaphore: its value, which is at most the largest, and the threads that wait for a post.
#[derive(Drop)]
struct Cell {
    value: u32,
    queue: Queue,
}

impl Model for Cell {
    ghost use Rattle.std.specs.Prelude.{◌≤◌};
    ghost use Rattle.guest_call.specs.Semaphores.{Semaphore, largest_value};

    ghost Value = { Semaphore };

    ghost view = { λ c. record { value = c.value; queue = c.queue } };

    ghost invariant = { λ c. c.value ≤ largest_value };
}

impl Cell {
    /// A semaphore of value 0, with no thread waiting.
    fn unposted() -> Cell
        ensures { result ≡ unposted }
    {
        Cell {
            value: 0,
            queue: Queue::empty(),
        }
    }

    /// Thread `t` lowers the value by one, or waits.
    fn wait(&mut self, t: Thread) -> Effect
        requires { length self.old.queue < THREADS }
        ensures { (result, self.new) ≡ sem_wait_row t self.old }
    {
        if self.value == 0 {
            self.queue.push(t);
            return Effect::blocks();
        }
        self.value -= 1;
        Effect::answers(0)
    }

    /// A thread lowers the value by one, or is refused.
    fn trywait(&mut self) -> Effect
        ensures { (result, self.new) ≡ sem_trywait_row self.old }
    {
        if self.value == 0 {
            return Effect::answers(EAGAIN);
        }
        self.value -= 1;
        Effect::answers(0)
    }

    /// A post goes to the first waiting thread, or else raises the value by one.
    fn post(&mut self) -> Effect
        ensures { (result, self.new) ≡ sem_post_row self.old }
    {
        if let Some(first) = self.queue.pop_first() {
            let mut woken = Queue::empty();
            woken.push(first);
            return Effect::wakes(Fate::Returns(0, None), woken);
        }
        if self.value == LARGEST_VALUE {
            return Effect::answers(EOVERFLOW);
        }
        self.value += 1;
        Effect::answers(0)
    }

    /// The value becomes `n`, unless a thread waits.
    fn init(&mut self, n: u32) -> Effect
        requires { n ≤ largest_value }
        ensures { (result, self.new) ≡ sem_init_row n self.old }
    {
        if !self.queue.is_empty() {
            return Effect::answers(EBUSY);
        }
        self.value = n;
        Effect::answers(0)
    }
}

/// The semaphores of a guest, numbered from 0 to 63. No thread waits in more than one place of them.
#[derive(Drop)]
pub struct Semaphores {
    cells: [Cell; OBJECTS],
}

impl Model for Semaphores {
    ghost use Rattle.std.specs.Prelude.{List};
    ghost use Rattle.guest_call.specs.Semaphores.{Semaphore, semaphore_queue};
    ghost use Rattle.guest_call.specs.Tables.{IsTable};

    ghost Value = { List Semaphore };

    ghost view = { λ s. s.cells };

    ghost invariant = { λ s. IsTable semaphore_queue s.cells };
}

impl Semaphores {
    /// 64 semaphores of value 0, with no thread waiting.
    pub fn new() -> Semaphores
        ensures { result ≡ all_unposted }
    {
        Semaphores {
            cells: all_of(Cell::unposted),
        }
    }

    /// `sem_wait(s)`, called by thread `t`: a value above 0 is lowered by one, and the answer is 0; else `t` waits at
    /// the end of the queue, until a post answers it with 0. A number above 63 is EINVAL (POSIX.1-2017, sem_wait).
    pub fn wait(&mut self, t: Thread, s: u32) -> Effect
        requires free { waits semaphore_queue self.old t ≡ 0 }
        ensures { (result, self.new) ≡ tables.at_cell unposted (sem_wait_row t) self.old s }
    {
        threads_are_few(t);
        at_cell(
            &mut self.cells,
            s,
            |cell: &mut Cell| -> Effect
                requires { length cell.old.queue < THREADS }
                ensures { (result, cell.new) ≡ sem_wait_row t cell.old }
            { cell.wait(t) },
        )
    }

    /// `sem_trywait(s)`, called by a thread: a value above 0 is lowered by one, and the answer is 0; else EAGAIN. A
    /// number above 63 is EINVAL (POSIX.1-2017, sem_trywait).
    pub fn trywait(&mut self, _t: Thread, s: u32) -> Effect
        ensures { (result, self.new) ≡ tables.at_cell unposted sem_trywait_row self.old s }
    {
        at_cell(&mut self.cells, s, Cell::trywait)
    }

    /// `sem_post(s)`, called by a thread: the answer is 0. The first waiting thread is woken, and the value stays; if
    /// no thread waits, the value rises by one. EINVAL: the number is above 63; EOVERFLOW: no thread waits, and the
    /// value is 2,147,483,647, the largest (POSIX.1-2017, sem_post).
    pub fn post(&mut self, _t: Thread, s: u32) -> Effect
        ensures { (result, self.new) ≡ tables.at_cell unposted sem_post_row self.old s }
    {
        at_cell(&mut self.cells, s, Cell::post)
    }

    /// `sem_init(s, n)`, called by a thread: the value becomes `n`, and the answer is 0. EINVAL: the number is above
    /// 63, or `n` above 2,147,483,647; EBUSY: a thread waits (POSIX.1-2017, sem_init).
    pub fn init(&mut self, _t: Thread, s: u32, n: u32) -> Effect
        ensures { (result, self.new) ≡ sem_init_at n self.old s }
    {
        if n > LARGEST_VALUE {
            return Effect::answers(EINVAL);
        }
        at_cell(
            &mut self.cells,
            s,
            |cell: &mut Cell| -> Effect
                requires { n ≤ largest_value }
                ensures { (result, cell.new) ≡ sem_init_row n cell.old }
            { cell.init(n) },
        )
    }
}
