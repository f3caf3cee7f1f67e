//! All synchronisation objects of a guest, and the only access to them: what an environment call answers and changes.
//! Only `Objects::new` allocates memory.
#![tactic(auto)]

ghost use Rattle.std.specs.Prelude.{◌≡◌, ℕ, ◌+◌, ◌<◌, ◌≤◌, Bool, false, nat_lt, Some, None, length, if◌then◌else◌, IfOk};
ghost use Rattle.guest_call.specs.Queues.{places, waits};
ghost use Rattle.guest_call.specs.Effect.{wakes};
ghost use Rattle.guest_call.specs.Mutexes.{mutex_queue};
ghost use Rattle.guest_call.specs.Conditions.{condition_queue, signal_leaving, broadcast_leaving};
ghost use Rattle.guest_call.specs.Objects as spec;
ghost use Rattle.sync_objects.specs.Admitting.{admit_each_at};
ghost use Rattle.sync_objects.specs.Pairs.{objects_of, cond_wait_at, leave_at};
ghost use Rattle.sync_objects.specs.Puts.{is_put};
ghost use Rattle.sync_objects.specs.Acting.{objects_in};

mod acting;
mod barriers;
mod conditions;
mod effect;
mod mutexes;
mod queue;
mod rwlocks;
mod semaphores;
mod table;
mod threads;

pub use acting::ActedOn;
use acting::is_object;
use barriers::Barriers;
use conditions::{Conditions, Leaving};
pub use effect::Effect;
use guest_call::{Call, EINVAL, EPERM, Fate, OBJECTS, Thread};
use mutexes::Mutexes;
pub use queue::Queue;
use rwlocks::RwLocks;
use semaphores::Semaphores;
use std::alloc::{AllocError, Global};
use std::marker::Model;
use threads::Threads;

/// The tables of threads and of the objects of each kind. Each has up to a few KiB, on the heap.
#[derive(Drop)]
struct Tables {
    threads: Box<Threads>,
    mutexes: Box<Mutexes>,
    semaphores: Box<Semaphores>,
    barriers: Box<Barriers>,
    conditions: Box<Conditions>,
    rwlocks: Box<RwLocks>,
}

/// Thread `t` releases mutex `m`, and waits for condition `c`.
fn cond_wait(
    conditions: &mut Conditions,
    mutexes: &mut Mutexes,
    t: Thread,
    c: u32,
    m: u32,
) -> Effect
    requires { waits condition_queue conditions.old t ≡ 0 }
    ensures { (result, (conditions.new, mutexes.new))
        ≡ cond_wait_at t conditions.old mutexes.old c m }
{
    if !is_object(c) || !is_object(m) {
        return Effect::answers(EINVAL);
    }
    if mutexes.owner(m) != Some(t) {
        return Effect::answers(EPERM);
    }
    if !conditions.wait(t, c, m) {
        return Effect::answers(EINVAL);
    }
    let released = mutexes.unlock(t, m);
    Effect::wakes(Fate::Blocks, released.into_woken())
}

/// The threads that left a condition come to its mutex: the one that owns it now, if any, is woken, and the caller gets
/// 0.
fn come_back(mutexes: &mut Mutexes, leaving: &Leaving) -> Effect
    requires mutex { leaving.now.mutex < OBJECTS }
    requires once { (u : ℕ) → waits mutex_queue mutexes.old u + places u leaving.now.threads ≤ 1 }
    ensures effect { result
        ≡ wakes (Fate.Returns 0 None)
        (admit_each_at mutexes.old leaving.now.mutex leaving.now.threads).0 }
    ensures mutexes { mutexes.new
        ≡ (admit_each_at mutexes.old leaving.now.mutex leaving.now.threads).1 }
{
    let woken = mutexes.admit_each(leaving.mutex, &leaving.threads);
    Effect::wakes(Fate::Returns(0, None), woken)
}

/// The first thread that waits for condition `c` comes to its mutex.
fn signal(conditions: &mut Conditions, mutexes: &mut Mutexes, c: u32) -> Effect
    requires { (u : ℕ)
        → waits mutex_queue mutexes.old u + waits condition_queue conditions.old u ≤ 1 }
    ensures { (result, (conditions.new, mutexes.new))
        ≡ leave_at signal_leaving conditions.old mutexes.old c }
{
    match conditions.signal(c) {
        None => Effect::answers(EINVAL),
        Some(leaving) => come_back(mutexes, &leaving),
    }
}

/// All threads that wait for condition `c` come to its mutex.
fn broadcast(conditions: &mut Conditions, mutexes: &mut Mutexes, c: u32) -> Effect
    requires { (u : ℕ)
        → waits mutex_queue mutexes.old u + waits condition_queue conditions.old u ≤ 1 }
    ensures { (result, (conditions.new, mutexes.new))
        ≡ leave_at broadcast_leaving conditions.old mutexes.old c }
{
    match conditions.broadcast(c) {
        None => Effect::answers(EINVAL),
        Some(leaving) => come_back(mutexes, &leaving),
    }
}

/// What a call of thread `t` does to the tables.
fn act_on(tables: &mut Tables, t: Thread, call: Call) -> Effect
    requires kept { spec.IsKept (objects_of tables.old) }
    requires exists { t < length tables.old.threads.value }
    requires free { spec.waits_at (objects_of tables.old) t ≡ 0 }
    requires no_put { is_put call ≡ false }
    ensures { (readable : ℕ → ℕ → Bool)
        → (result, objects_of tables.new) ≡ spec.act readable (objects_of tables.old) t call }
{
    match call {
        Call::Exit(code) => Effect::exits(code),
        Call::Put(_, _) => unreachable!(),
        Call::Create(pc, argument) => tables.threads.create(t, pc, argument),
        Call::ThreadExit(value) => tables.threads.thread_exit(t, value),
        Call::Join(thread) => tables.threads.join(t, thread),
        Call::Yield => Effect::answers(0),
        Call::Lock(mutex) => tables.mutexes.lock(t, mutex),
        Call::TryLock(mutex) => tables.mutexes.trylock(t, mutex),
        Call::Unlock(mutex) => tables.mutexes.unlock(t, mutex),
        Call::SemWait(semaphore) => tables.semaphores.wait(t, semaphore),
        Call::SemTryWait(semaphore) => tables.semaphores.trywait(t, semaphore),
        Call::SemPost(semaphore) => tables.semaphores.post(t, semaphore),
        Call::SemInit(semaphore, value) => tables.semaphores.init(t, semaphore, value),
        Call::BarrierInit(barrier, count) => tables.barriers.init(t, barrier, count),
        Call::BarrierWait(barrier) => tables.barriers.wait(t, barrier),
        Call::CondWait(condition, mutex) => cond_wait(
            &mut *tables.conditions,
            &mut *tables.mutexes,
            t,
            condition,
            mutex,
        ),
        Call::Signal(condition) => {
            signal(&mut *tables.conditions, &mut *tables.mutexes, condition)
        }
        Call::Broadcast(condition) => {
            broadcast(&mut *tables.conditions, &mut *tables.mutexes, condition)
        }
        Call::RdLock(lock) => tables.rwlocks.rdlock(t, lock),
        Call::WrLock(lock) => tables.rwlocks.wrlock(t, lock),
        Call::RwUnlock(lock) => tables.rwlocks.rwunlock(t, lock),
        Call::TryWrLock(lock) => tables.rwlocks.trywrlock(t, lock),
    }
}

/// The threads and the objects of each kind. No thread waits in more than one place, and only threads that exist wait.
#[derive(Drop)]
pub struct Objects {
    tables: Tables,
}

impl Model for Objects {
    ghost use Rattle.guest_call.specs.Objects as spec;
    ghost use Rattle.sync_objects.specs.Pairs.{objects_of};

    ghost Value = { spec.Objects };

    ghost view = { λ o. objects_of o.tables };

    ghost invariant = { λ o. spec.IsKept (objects_of o.tables) };
}

impl Objects {
    /// The objects at the start: thread 0 alone exists, and nothing is in use.
    ///
    /// # Errors
    ///
    /// An error if the host's memory ran out.
    pub fn new(alloc: Global) -> Result<Objects, AllocError>
        ensures { IfOk result (λ objects. objects ≡ spec.opening) }
    {
        guest_call::opening_is_kept();
        Ok(Objects {
            tables: Tables {
                threads: Box::new(alloc, Threads::new())?,
                mutexes: Box::new(alloc, Mutexes::new())?,
                semaphores: Box::new(alloc, Semaphores::new())?,
                barriers: Box::new(alloc, Barriers::new())?,
                conditions: Box::new(alloc, Conditions::new())?,
                rwlocks: Box::new(alloc, RwLocks::new())?,
            },
        })
    }

    /// The thread of this number. None exactly if no thread has it, running or ended.
    pub fn thread(&self, number: u8) -> Option<Thread>
        ensures { result ≡ if nat_lt number (length self.now.threads) then Some number else None }
    {
        if usize::from(number) < self.tables.threads.len() {
            Thread::new(number)
        } else {
            None
        }
    }

    /// What a call of thread `t`, which is ready, answers and changes. Puts, whose row needs the pages, aren't handled
    /// here.
    pub fn act(&mut self, t: Thread, call: Call) -> Effect
        requires exists { t < length self.old.threads }
        requires free { spec.waits_at self.old t ≡ 0 }
        requires no_put { is_put call ≡ false }
        ensures { (readable : ℕ → ℕ → Bool)
            → (result, self.new) ≡ spec.act readable self.old t call }
    {
        act_on(&mut self.tables, t, call)
    }

    /// Exactly the objects on which a call would act: all that it reads and changes. Puts, which act on the output,
    /// aren't handled here.
    pub fn acts_on(&self, call: Call) -> ActedOn
        requires { is_put call ≡ false }
        ensures { (readable : ℕ → ℕ → Bool)
            → objects_in result ≡ spec.acts_on readable self.now call }
    {
        acting::acts_on(&*self.tables.conditions, call)
    }
}
