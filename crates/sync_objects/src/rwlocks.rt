//! The 64 reader-writer locks of a guest, each held by one writer or by several readers, and handed over in the order
//! in which threads came. No call allocates memory.

ghost use Rattle.std.specs.Prelude.{◌≡◌, ℕ, ◌+◌, ◌<◌, ◌≤◌, ◌++◌, length, is_some, Bool, false};
ghost use Rattle.guest_call.specs.Queues.{waits};
ghost use Rattle.guest_call.specs.Tables as tables;
ghost use Rattle.guest_call.specs.RwLocks.{unheld, rwlock_queue, reads, is_read, holds, is_held, read_by, let_go, rdlock_row, wrlock_row, rwunlock_row, trywrlock_row, readers_admitted, writer_admitted};
ghost use Rattle.guest_call.specs.Objects.{all_unheld};
ghost use Rattle.sync_objects.specs.AdmittingReaders.{first_admitted};

use super::effect::Effect;
use super::queue::Queue;
use super::table::{all_of, at_cell};
use arrayvec::ArrayVec;
use guest_call::{EAGAIN, EBUSY, EDEADLK, EPERM, Fate, OBJECTS, THREADS, Thread, threads_are_few};
use std::marker::Model;

/// A thread that waits for a lock, and whether it wants to write.
#[derive(Clone, Copy)]
struct Waiter {
    thread: Thread,
    writes: bool,
}

impl Model for Waiter {
    ghost use Rattle.guest_call.specs.RwLocks as spec;

    ghost Value = { spec.Waiter };

    ghost view = { λ w. record { thread = w.thread; writes = w.writes } };

    ghost inverse = { λ w. record { thread = w.thread; writes = w.writes } };
}

impl Default for Waiter {
    fn default() -> Waiter
        ensures { result ≡ record { thread = 0; writes = false } }
    {
        Waiter {
            thread: Thread::default(),
            writes: false,
        }
    }
}

/// One lock: its writer, if there is one, whether each thread is a reader, and the waiting threads.
#[derive(Drop)]
struct Cell {
    writer: Option<Thread>,
    readers: [bool; THREADS],
    queue: ArrayVec<Waiter, THREADS>,
}

impl Model for Cell {
    ghost use Rattle.std.specs.Prelude.{◌≤◌, length};
    ghost use Rattle.guest_call.specs.RwLocks.{RwLock};
    ghost use Rattle.guest_call.specs.declared.thread_number.TheConstants.{THREADS};

    ghost Value = { RwLock };

    ghost view = { λ c. record { writer = c.writer; readers = c.readers; queue = c.queue.items } };

    ghost invariant = { λ c. length c.queue.items ≤ THREADS };
}

impl Cell {
    /// A lock that no thread holds or waits for.
    fn unheld() -> Cell
        ensures { result ≡ unheld }
    {
        Cell {
            writer: None,
            readers: [false; THREADS],
            queue: ArrayVec::new(),
        }
    }

    /// Whether thread `t` is a reader.
    fn reads(&self, t: Thread) -> bool
        ensures { result ≡ reads self.now t }
    {
        threads_are_few(t);
        self.readers[usize::from(t.number())]
    }

    /// Whether thread `t` holds the lock.
    fn holds(&self, t: Thread) -> bool
        ensures { result ≡ holds self.now t }
    {
        self.writer == Some(t) || self.reads(t)
    }

    /// Whether any thread is a reader.
    fn is_read(&self) -> bool
        ensures { result ≡ is_read self.now }
    {
        self.readers.iter().any(|reader| *reader)
    }

    /// Whether any thread holds the lock.
    fn is_held(&self) -> bool
        ensures { result ≡ is_held self.now }
    {
        self.writer.is_some() || self.is_read()
    }

    /// Thread `t` becomes a reader.
    fn add_reader(&mut self, t: Thread)
        ensures { self.new ≡ read_by t self.old }
    {
        threads_are_few(t);
        self.readers[usize::from(t.number())] = true;
    }

    /// Thread `t` wants to read.
    fn rdlock(&mut self, t: Thread) -> Effect
        requires { length self.old.queue < THREADS }
        ensures { (result, self.new) ≡ rdlock_row t self.old }
    {
        if self.writer == Some(t) {
            return Effect::answers(EDEADLK);
        }
        if self.reads(t) {
            return Effect::answers(EAGAIN);
        }
        if self.writer.is_some() || !self.queue.is_empty() {
            self.queue.push(Waiter {
                thread: t,
                writes: false,
            });
            return Effect::blocks();
        }
        self.add_reader(t);
        Effect::answers(0)
    }

    /// Thread `t` wants to write.
    fn wrlock(&mut self, t: Thread) -> Effect
        requires { length self.old.queue < THREADS }
        ensures { (result, self.new) ≡ wrlock_row t self.old }
    {
        if self.holds(t) {
            return Effect::answers(EDEADLK);
        }
        if self.is_held() {
            self.queue.push(Waiter {
                thread: t,
                writes: true,
            });
            return Effect::blocks();
        }
        self.writer = Some(t);
        Effect::answers(0)
    }

    /// Thread `t` wants to write, and doesn't wait for it.
    fn trywrlock(&mut self, t: Thread) -> Effect
        ensures { (result, self.new) ≡ trywrlock_row t self.old }
    {
        if self.is_held() {
            return Effect::answers(EBUSY);
        }
        self.writer = Some(t);
        Effect::answers(0)
    }

    /// Thread `t`, which holds the lock, releases it.
    fn let_go(&mut self, t: Thread)
        ensures { self.new ≡ let_go t self.old }
    {
        threads_are_few(t);
        if self.writer == Some(t) {
            self.writer = None;
        }
        self.readers[usize::from(t.number())] = false;
    }

    /// The first waiting thread becomes a reader, if it waits to read. Returns that thread.
    fn admit_first_reader(&mut self) -> Option<Thread>
        ensures { (result, self.new)
            ≡ first_admitted self.old.writer self.old.readers self.old.queue }
    {
        let first = *self.queue.as_slice().first()?;
        if first.writes {
            return None;
        }
        self.queue.remove(0);
        self.add_reader(first.thread);
        Some(first.thread)
    }

    /// If no writer holds the lock, the threads that wait to read, before the first that waits to write, become
    /// readers. Returns these threads.
    fn admit_readers(&mut self) -> Queue
        ensures admitted { (result, self.new) ≡ readers_admitted self.old }
        ensures room { length result + length self.new.queue ≤ THREADS }
    {
        let mut admitted = Queue::empty();
        if self.writer.is_none() {
            while let Some(reader) = self.admit_first_reader() {
                admitted.push(reader);
            }
        }
        admitted
    }

    /// If no thread holds the lock, the first waiting thread becomes the writer, and is appended to `admitted`.
    fn admit_writer(&mut self, admitted: &mut Queue)
        requires { length admitted.old + length self.old.queue ≤ THREADS }
        ensures admitted { admitted.new ≡ admitted.old ++ (writer_admitted self.old).0 }
        ensures lock { self.new ≡ (writer_admitted self.old).1 }
    {
        if self.is_held() {
            return;
        }
        if let Some(first) = self.queue.pop_at(0) {
            self.writer = Some(first.thread);
            admitted.push(first.thread);
        }
    }

    /// Thread `t` unlocks the lock.
    fn rwunlock(&mut self, t: Thread) -> Effect
        ensures { (result, self.new) ≡ rwunlock_row t self.old }
    {
        if !self.holds(t) {
            return Effect::answers(EPERM);
        }
        self.let_go(t);
        let mut woken = self.admit_readers();
        self.admit_writer(&mut woken);
        Effect::wakes(Fate::Returns(0, None), woken)
    }
}

/// The reader-writer locks of a guest, numbered from 0 to 63. No thread waits in more than one place of them.
#[derive(Drop)]
pub struct RwLocks {
    cells: [Cell; OBJECTS],
}

impl Model for RwLocks {
    ghost use Rattle.std.specs.Prelude.{List};
    ghost use Rattle.guest_call.specs.RwLocks.{RwLock, rwlock_queue};
    ghost use Rattle.guest_call.specs.Tables.{IsTable};

    ghost Value = { List RwLock };

    ghost view = { λ s. s.cells };

    ghost invariant = { λ s. IsTable rwlock_queue s.cells };
}

impl RwLocks {
    /// 64 locks that no thread holds.
    pub fn new() -> RwLocks
        ensures { result ≡ all_unheld }
    {
        RwLocks {
            cells: all_of(Cell::unheld),
        }
    }

    /// `rdlock(r)`, called by thread `t`: if there is no writer and no thread waits, `t` becomes a reader, and the
    /// answer is 0; else it waits at the end of the queue, to read. EINVAL: the number is above 63; EDEADLK: `t` is the
    /// writer; EAGAIN: `t` is a reader (POSIX.1-2017, pthread_rwlock_rdlock).
    pub fn rdlock(&mut self, t: Thread, r: u32) -> Effect
        requires free { waits rwlock_queue self.old t ≡ 0 }
        ensures { (result, self.new) ≡ tables.at_cell unheld (rdlock_row t) self.old r }
    {
        threads_are_few(t);
        at_cell(
            &mut self.cells,
            r,
            |cell: &mut Cell| -> Effect
                requires { length cell.old.queue < THREADS }
                ensures { (result, cell.new) ≡ rdlock_row t cell.old }
            { cell.rdlock(t) },
        )
    }

    /// `wrlock(r)`, called by thread `t`: if no thread holds the lock, `t` becomes its writer, and the answer is 0;
    /// else it waits at the end of the queue, to write. EINVAL: the number is above 63; EDEADLK: `t` is the writer or a
    /// reader (POSIX.1-2017, pthread_rwlock_wrlock).
    pub fn wrlock(&mut self, t: Thread, r: u32) -> Effect
        requires free { waits rwlock_queue self.old t ≡ 0 }
        ensures { (result, self.new) ≡ tables.at_cell unheld (wrlock_row t) self.old r }
    {
        threads_are_few(t);
        at_cell(
            &mut self.cells,
            r,
            |cell: &mut Cell| -> Effect
                requires { length cell.old.queue < THREADS }
                ensures { (result, cell.new) ≡ wrlock_row t cell.old }
            { cell.wrlock(t) },
        )
    }

    /// `rwunlock(r)`, called by thread `t`, which holds the lock: `t` releases it, and the answer is 0. If no writer
    /// remains, all threads that wait to read before the first that waits to write become readers, and are woken. If
    /// then no thread holds the lock, the first waiting thread becomes its writer, and is woken. EINVAL: the number is
    /// above 63; EPERM: `t` doesn't hold the lock (POSIX.1-2017, pthread_rwlock_unlock).
    pub fn rwunlock(&mut self, t: Thread, r: u32) -> Effect
        ensures { (result, self.new) ≡ tables.at_cell unheld (rwunlock_row t) self.old r }
    {
        at_cell(&mut self.cells, r, |cell: &mut Cell| cell.rwunlock(t))
    }

    /// `trywrlock(r)`, called by thread `t`: if no thread holds the lock, `t` becomes its writer, and the answer is 0;
    /// else EBUSY. A number above 63 is EINVAL (POSIX.1-2017, pthread_rwlock_trywrlock).
    pub fn trywrlock(&mut self, t: Thread, r: u32) -> Effect
        ensures { (result, self.new) ≡ tables.at_cell unheld (trywrlock_row t) self.old r }
    {
        at_cell(&mut self.cells, r, |cell: &mut Cell| cell.trywrlock(t))
    }
}
