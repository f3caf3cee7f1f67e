//! The environment calls of the guest machine: what a call is, which objects it acts on, and what each
//! call answers and changes, stated as one pure row on the objects of synchronisation. The laws are
//! functions with an empty body, whose contract is the law.
#![tactic(auto)]

ghost use Rattle.std.specs.Prelude.{◌≡◌, ℕ, ◌+◌, ◌<◌, Bool, true, length};
ghost use Rattle.guest_call.specs.declared.Call.{Call};
ghost use Rattle.guest_call.specs.Effect.{ended_after};
ghost use Rattle.guest_call.specs.Queues.{Keeps};
ghost use Rattle.guest_call.specs.Objects.{Objects, opening, act, acts_on, put_answer, appends, waits_at, ended_at, created_count, IsKept};
ghost use Rattle.guest_call.specs.Locality.{IsLocalBy};
ghost use Rattle.guest_call.specs.Numbers.{call_of};
ghost use Rattle.guest_call.specs.Answers.{answer_eperm, answer_esrch, answer_eagain, answer_efault, answer_ebusy, answer_einval, answer_eoverflow, answer_edeadlk};

mod thread_number;

pub use thread_number::{THREADS, Thread, threads_are_few};

/// How many objects there are of each kind.
pub const OBJECTS: usize = 64;

/// The answer for EPERM (POSIX.1-2017, `<errno.h>`): the caller isn't the owner.
pub const EPERM: u32 = 0xFFFF_FFFF;
/// The answer for ESRCH (POSIX.1-2017, `<errno.h>`): there is no such thread.
pub const ESRCH: u32 = 0xFFFF_FFFD;
/// The answer for EAGAIN (POSIX.1-2017, `<errno.h>`): there is no room for one more.
pub const EAGAIN: u32 = 0xFFFF_FFF5;
/// The answer for EFAULT (POSIX.1-2017, `<errno.h>`): a range can't be read.
pub const EFAULT: u32 = 0xFFFF_FFF2;
/// The answer for EBUSY (POSIX.1-2017, `<errno.h>`): the object is in use.
pub const EBUSY: u32 = 0xFFFF_FFF0;
/// The answer for EINVAL (POSIX.1-2017, `<errno.h>`): an argument is out of its range.
pub const EINVAL: u32 = 0xFFFF_FFEA;
/// The answer for EOVERFLOW (POSIX.1-2017, `<errno.h>`): a number would pass its largest value.
pub const EOVERFLOW: u32 = 0xFFFF_FFB5;
/// The answer for EDEADLK (POSIX.1-2017, `<errno.h>`): the caller would wait for itself.
pub const EDEADLK: u32 = 0xFFFF_FFDD;

/// An environment call with its arguments, as the guest makes it by ECALL: the number is in a7, the first argument in
/// a0 and the second in a1.
#[derive(Clone, Copy)]
pub enum Call {
    /// 0, `exit(code)`: ends the run, as `exit` of POSIX ends a process, with the whole of a0.
    Exit(u32),
    /// 1, `put(address, length)`: appends the bytes of a range to the output, as `write` of POSIX does.
    Put(u32, u32),
    /// 2, `create(pc, argument)`: makes a thread, as `pthread_create`.
    Create(u32, u32),
    /// 3, `thread_exit(value)`: ends the calling thread, as `pthread_exit`.
    ThreadExit(u32),
    /// 4, `join(thread)`: waits until a thread has ended and returns its value, as `pthread_join`.
    Join(u32),
    /// 5, `yield()`: does nothing, as `sched_yield` may.
    Yield,
    /// 6, `lock(mutex)`: as `pthread_mutex_lock` at a mutex that checks for errors.
    Lock(u32),
    /// 7, `trylock(mutex)`: as `pthread_mutex_trylock`.
    TryLock(u32),
    /// 8, `unlock(mutex)`: as `pthread_mutex_unlock` at a mutex that checks for errors.
    Unlock(u32),
    /// 9, `sem_wait(semaphore)`: as `sem_wait`.
    SemWait(u32),
    /// 10, `sem_trywait(semaphore)`: as `sem_trywait`.
    SemTryWait(u32),
    /// 11, `sem_post(semaphore)`: as `sem_post`.
    SemPost(u32),
    /// 12, `sem_init(semaphore, value)`: as `sem_init`, of a semaphore that is there from the start with the value 0.
    SemInit(u32, u32),
    /// 13, `barrier_init(barrier, count)`: as `pthread_barrier_init`.
    BarrierInit(u32, u32),
    /// 14, `barrier_wait(barrier)`: as `pthread_barrier_wait`; the thread that comes last gets 1, the others 0.
    BarrierWait(u32),
    /// 15, `cond_wait(condition, mutex)`: as `pthread_cond_wait`, without spurious wake-ups.
    CondWait(u32, u32),
    /// 16, `signal(condition)`: as `pthread_cond_signal`, for the thread that has waited longest.
    Signal(u32),
    /// 17, `broadcast(condition)`: as `pthread_cond_broadcast`, in the order in which they came.
    Broadcast(u32),
    /// 18, `rdlock(lock)`: as `pthread_rwlock_rdlock`, behind all waiters; a thread has one read lock of it at most.
    RdLock(u32),
    /// 19, `wrlock(lock)`: as `pthread_rwlock_wrlock`.
    WrLock(u32),
    /// 20, `rwunlock(lock)`: as `pthread_rwlock_unlock`, by a thread that holds the lock.
    RwUnlock(u32),
    /// 21, `trywrlock(lock)`: as `pthread_rwlock_trywrlock`.
    TryWrLock(u32),
}

impl Call {
    /// The call that an ECALL makes with this number in a7 and these words in a0 and a1. None exactly if the number is
    /// above 21: a bad call, which is a trap of the guest.
    pub fn of(a7: u32, a0: u32, a1: u32) -> Option<Call>
        ensures { result ≡ call_of a7 a0 a1 }
    {
        match a7 {
            0 => Some(Call::Exit(a0)),
            1 => Some(Call::Put(a0, a1)),
            2 => Some(Call::Create(a0, a1)),
            3 => Some(Call::ThreadExit(a0)),
            4 => Some(Call::Join(a0)),
            5 => Some(Call::Yield),
            6 => Some(Call::Lock(a0)),
            7 => Some(Call::TryLock(a0)),
            8 => Some(Call::Unlock(a0)),
            9 => Some(Call::SemWait(a0)),
            10 => Some(Call::SemTryWait(a0)),
            11 => Some(Call::SemPost(a0)),
            12 => Some(Call::SemInit(a0, a1)),
            13 => Some(Call::BarrierInit(a0, a1)),
            14 => Some(Call::BarrierWait(a0)),
            15 => Some(Call::CondWait(a0, a1)),
            16 => Some(Call::Signal(a0)),
            17 => Some(Call::Broadcast(a0)),
            18 => Some(Call::RdLock(a0)),
            19 => Some(Call::WrLock(a0)),
            20 => Some(Call::RwUnlock(a0)),
            21 => Some(Call::TryWrLock(a0)),
            _ => None,
        }
    }
}

/// What a call can act on, as the dependence of steps sees it.
#[derive(Clone, Copy, PartialEq, Eq)]
pub enum Object {
    /// The output so far.
    Output,
    /// The table of threads, with which thread joins which.
    ThreadTable,
    /// The mutex of this number.
    Mutex(u32),
    /// The semaphore of this number.
    Semaphore(u32),
    /// The barrier of this number.
    Barrier(u32),
    /// The condition of this number.
    Condition(u32),
    /// The reader-writer lock of this number.
    RwLock(u32),
}

/// What becomes of the thread that makes a call.
#[derive(Clone, Copy, PartialEq, Eq)]
pub enum Fate {
    /// The call returns at once, with this value in a0, and this one in a1 if it changes a1 too.
    Returns(u32, Option<u32>),
    /// The thread waits in a queue.
    Blocks,
    /// The thread has ended with this value.
    Ends(u32),
    /// The whole run has ended with this code.
    Exits(u32),
}

/// No thread is lost or doubled by a call: each that waits after it or was woken by it waited before or began to wait.
pub fn act_keeps()
    ensures { (readable : ℕ → ℕ → Bool) (o : Objects) (t : ℕ) (call : Call) → IsKept o →
        t < length o.threads →
        Keeps (waits_at o) t (act readable o t call).0 (waits_at (act readable o t call).1) }
{}

/// A call keeps what holds of the objects, if its caller is a thread that waits nowhere.
pub fn act_kept()
    ensures { (readable : ℕ → ℕ → Bool) (o : Objects) (t : ℕ) (call : Call) → IsKept o →
        t < length o.threads → waits_at o t ≡ 0 → IsKept (act readable o t call).1 }
{}

/// A call makes one thread more if its effect creates one, else none.
pub fn act_creates()
    ensures { (readable : ℕ → ℕ → Bool) (o : Objects) (t : ℕ) (call : Call) →
        length (act readable o t call).1.threads
        ≡ length o.threads + created_count (act readable o t call).0.created }
{}

/// The threads that have ended after a call, and their values: those that had ended before, and the caller if the call
/// ends it.
pub fn act_ended()
    ensures { (readable : ℕ → ℕ → Bool) (o : Objects) (t : ℕ) (call : Call) → t < length o.threads →
        (u : ℕ) →
        ended_at (act readable o t call).1 u
        ≡ ended_after t (act readable o t call).0.fate u (ended_at o u) }
{}

/// A call reads and changes nothing but the objects on which it acts: all others stay as they are; and the objects that
/// it acts on, its effect, and the new state of these objects depend on these alone.
pub fn act_is_local()
    ensures { (readable : ℕ → ℕ → Bool) (o : Objects) (t : ℕ) (call : Call) → IsKept o →
        IsLocalBy (λ x. act readable x t call) (λ x. acts_on readable x call) o }
{}

/// If put appends its bytes, it returns how many they are.
pub fn put_appends()
    ensures { (readable : ℕ → ℕ → Bool) (p n : ℕ) → appends readable p n ≡ true →
        put_answer readable p n ≡ n }
{}

/// What holds of the objects holds of those at the start.
pub fn opening_is_kept()
    ensures { IsKept opening }
{}

/// Each answer constant is the negative answer of its name.
pub fn answers_are_negated()
    ensures eperm { EPERM ≡ answer_eperm }
    ensures esrch { ESRCH ≡ answer_esrch }
    ensures eagain { EAGAIN ≡ answer_eagain }
    ensures efault { EFAULT ≡ answer_efault }
    ensures ebusy { EBUSY ≡ answer_ebusy }
    ensures einval { EINVAL ≡ answer_einval }
    ensures eoverflow { EOVERFLOW ≡ answer_eoverflow }
    ensures edeadlk { EDEADLK ≡ answer_edeadlk }
{}
