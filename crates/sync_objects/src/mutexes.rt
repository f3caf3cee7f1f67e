//! The 64 mutexes of a guest, which check for errors. An unlocked mutex goes to the thread that has waited longest. No
//! call allocates memory.

ghost use Rattle.std.specs.Prelude.{◌≡◌, ℕ, ◌+◌, ◌<◌, ◌≤◌, ◌++◌, length, slice_index_or};
ghost use Rattle.guest_call.specs.Queues.{places, waits};
ghost use Rattle.guest_call.specs.Tables as tables;
ghost use Rattle.guest_call.specs.Mutexes.{unlocked, mutex_queue, lock_row, trylock_row, unlock_row};
ghost use Rattle.guest_call.specs.Conditions.{admit, admit_each};
ghost use Rattle.guest_call.specs.Objects.{all_unlocked};
ghost use Rattle.sync_objects.specs.Admitting.{admit_each_at};

use super::effect::Effect;
use super::queue::Queue;
use super::table::{all_of, at_cell};
use guest_call::{EBUSY, EDEADLK, EPERM, Fate, OBJECTS, THREADS, Thread, threads_are_few};
use std::marker::Model;

/// One mutex: its owner, if it has one, and the threads that wait for it.
#[derive(Drop)]
struct Cell {
    owner: Option<Thread>,
    queue: Queue,
}

impl Model for Cell {
    ghost use Rattle.guest_call.specs.Mutexes.{Mutex};

    ghost Value = { Mutex };

    ghost view = { λ c. record { owner = c.owner; queue = c.queue } };
}

impl Cell {
    /// A mutex that is free, with no thread waiting.
    fn free() -> Cell
        ensures { result ≡ unlocked }
    {
        Cell {
            owner: None,
            queue: Queue::empty(),
        }
    }

    /// Thread `t` wants the mutex.
    fn lock(&mut self, t: Thread) -> Effect
        requires { length self.old.queue < THREADS }
        ensures { (result, self.new) ≡ lock_row t self.old }
    {
        if self.owner == Some(t) {
            return Effect::answers(EDEADLK);
        }
        if self.owner.is_some() {
            self.queue.push(t);
            return Effect::blocks();
        }
        self.owner = Some(t);
        Effect::answers(0)
    }

    /// Thread `t` wants the mutex, and doesn't wait for it.
    fn trylock(&mut self, t: Thread) -> Effect
        ensures { (result, self.new) ≡ trylock_row t self.old }
    {
        if self.owner.is_some() {
            return Effect::answers(EBUSY);
        }
        self.owner = Some(t);
        Effect::answers(0)
    }

    /// Thread `t` unlocks the mutex.
    fn unlock(&mut self, t: Thread) -> Effect
        ensures { (result, self.new) ≡ unlock_row t self.old }
    {
        if self.owner != Some(t) {
            return Effect::answers(EPERM);
        }
        let mut woken = Queue::empty();
        self.owner = self.queue.pop_first();
        if let Some(u) = self.owner {
            woken.push(u);
        }
        Effect::wakes(Fate::Returns(0, None), woken)
    }

    /// Thread `u`, which left a condition, comes to the mutex: it becomes the owner of a free one, and is appended to
    /// `admitted`; else it waits at the end of the queue.
    fn admit(&mut self, u: Thread, admitted: &mut Queue)
        requires room { length self.old.queue < THREADS }
        requires few { length admitted.old < THREADS }
        ensures admitted { admitted.new ≡ admitted.old ++ (admit u self.old).0 }
        ensures mutex { self.new ≡ (admit u self.old).1 }
    {
        if self.owner.is_some() {
            self.queue.push(u);
        } else {
            self.owner = Some(u);
            admitted.push(u);
        }
    }

    /// These threads come to the mutex, one after the other. Returns which of them owns it now, if any.
    fn admit_each(&mut self, threads: &[Thread]) -> Queue
        requires { length self.old.queue + length threads.now ≤ THREADS }
        ensures { (result, self.new) ≡ admit_each threads.now self.old }
    {
        let mut admitted = Queue::empty();
        for thread in threads {
            self.admit(*thread, &mut admitted);
        }
        admitted
    }
}

/// The mutexes of a guest, numbered from 0 to 63. No thread waits in more than one place of them.
#[derive(Drop)]
pub struct Mutexes {
    cells: [Cell; OBJECTS],
}

impl Model for Mutexes {
    ghost use Rattle.std.specs.Prelude.{List};
    ghost use Rattle.guest_call.specs.Mutexes.{Mutex, mutex_queue};
    ghost use Rattle.guest_call.specs.Tables.{IsTable};

    ghost Value = { List Mutex };

    ghost view = { λ s. s.cells };

    ghost invariant = { λ s. IsTable mutex_queue s.cells };
}

impl Mutexes {
    /// 64 free mutexes.
    pub fn new() -> Mutexes
        ensures { result ≡ all_unlocked }
    {
        Mutexes {
            cells: all_of(Cell::free),
        }
    }

    /// `lock(m)`, called by thread `t`: if the mutex is free, `t` becomes its owner, and the answer is 0; if `t` owns
    /// it, EDEADLK; else `t` waits at the end of the queue. A number above 63 is EINVAL (POSIX.1-2017,
    /// pthread_mutex_lock).
    pub fn lock(&mut self, t: Thread, m: u32) -> Effect
        requires free { waits mutex_queue self.old t ≡ 0 }
        ensures { (result, self.new) ≡ tables.at_cell unlocked (lock_row t) self.old m }
    {
        threads_are_few(t);
        at_cell(
            &mut self.cells,
            m,
            |cell: &mut Cell| -> Effect
                requires { length cell.old.queue < THREADS }
                ensures { (result, cell.new) ≡ lock_row t cell.old }
            { cell.lock(t) },
        )
    }

    /// `trylock(m)`, called by thread `t`: if the mutex is free, `t` becomes its owner, and the answer is 0; else
    /// EBUSY, also if `t` owns it. A number above 63 is EINVAL (POSIX.1-2017, pthread_mutex_trylock).
    pub fn trylock(&mut self, t: Thread, m: u32) -> Effect
        ensures { (result, self.new) ≡ tables.at_cell unlocked (trylock_row t) self.old m }
    {
        at_cell(&mut self.cells, m, |cell: &mut Cell| cell.trylock(t))
    }

    /// `unlock(m)`, called by thread `t`: if `t` owns the mutex, the answer is 0, and the mutex goes to the first
    /// waiting thread, which is woken, or becomes free if none waits; else EPERM. A number above 63 is EINVAL
    /// (POSIX.1-2017, pthread_mutex_unlock).
    pub fn unlock(&mut self, t: Thread, m: u32) -> Effect
        ensures { (result, self.new) ≡ tables.at_cell unlocked (unlock_row t) self.old m }
    {
        at_cell(&mut self.cells, m, |cell: &mut Cell| cell.unlock(t))
    }

    /// The threads that left a condition come to its mutex, of number `m`, one after the other: the first becomes the
    /// owner of a free mutex, and each other waits at the end of the queue. Returns which of them owns the mutex now,
    /// if any: its wait for the condition is finished (POSIX.1-2017, pthread_cond_broadcast).
    pub fn admit_each(&mut self, m: u32, threads: &Queue) -> Queue
        requires mutex { m < OBJECTS }
        requires once { (u : ℕ) → waits mutex_queue self.old u + places u threads.now ≤ 1 }
        ensures { (result, self.new) ≡ admit_each_at self.old m threads.now }
    {
        let threads = threads.threads();
        let cell = &mut self.cells[m as usize];
        cell.admit_each(threads)
    }

    /// The thread that owns the mutex of number `m`. None exactly if the mutex is free.
    pub fn owner(&self, m: u32) -> Option<Thread>
        requires { m < OBJECTS }
        ensures { result ≡ (slice_index_or self.now m unlocked).owner }
    {
        let cell = &self.cells[m as usize];
        cell.owner
    }
}
