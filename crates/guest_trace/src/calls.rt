//! Calls, answers and causes as text.

use guest_call::{Call, EAGAIN, EBUSY, EDEADLK, EFAULT, EINVAL, EOVERFLOW, EPERM, ESRCH};
use rv_step::Cause;
use std::fmt;

/// A call by its name, with the arguments that it has.
#[derive(Clone, Copy)]
pub struct Named(pub Call);

impl fmt::Display for Named {
    fn fmt<W: fmt::Write>(&self, f: &mut fmt::Formatter<W>) -> fmt::Result {
        match self.0 {
            Call::Exit(code) => write!(f, "exit({code})"),
            Call::Put(address, count) => write!(f, "put({address:08x}, {count})"),
            Call::Create(pc, argument) => write!(f, "create({pc:08x}, {argument})"),
            Call::ThreadExit(value) => write!(f, "thread_exit({value})"),
            Call::Join(thread) => write!(f, "join({thread})"),
            Call::Yield => f.write_str("yield()"),
            Call::Lock(mutex) => write!(f, "lock({mutex})"),
            Call::TryLock(mutex) => write!(f, "trylock({mutex})"),
            Call::Unlock(mutex) => write!(f, "unlock({mutex})"),
            Call::SemWait(semaphore) => write!(f, "sem_wait({semaphore})"),
            Call::SemTryWait(semaphore) => write!(f, "sem_trywait({semaphore})"),
            Call::SemPost(semaphore) => write!(f, "sem_post({semaphore})"),
            Call::SemInit(semaphore, value) => write!(f, "sem_init({semaphore}, {value})"),
            Call::BarrierInit(barrier, count) => write!(f, "barrier_init({barrier}, {count})"),
            Call::BarrierWait(barrier) => write!(f, "barrier_wait({barrier})"),
            Call::CondWait(condition, mutex) => write!(f, "cond_wait({condition}, {mutex})"),
            Call::Signal(condition) => write!(f, "signal({condition})"),
            Call::Broadcast(condition) => write!(f, "broadcast({condition})"),
            Call::RdLock(lock) => write!(f, "rdlock({lock})"),
            Call::WrLock(lock) => write!(f, "wrlock({lock})"),
            Call::RwUnlock(lock) => write!(f, "rwunlock({lock})"),
            Call::TryWrLock(lock) => write!(f, "trywrlock({lock})"),
        }
    }
}

/// An answer: a number, or the name of an error.
#[derive(Clone, Copy)]
pub struct Answer(pub u32);

impl fmt::Display for Answer {
    fn fmt<W: fmt::Write>(&self, f: &mut fmt::Formatter<W>) -> fmt::Result {
        match self.0 {
            EPERM => f.write_str("-1 EPERM"),
            ESRCH => f.write_str("-3 ESRCH"),
            EAGAIN => f.write_str("-11 EAGAIN"),
            EFAULT => f.write_str("-14 EFAULT"),
            EBUSY => f.write_str("-16 EBUSY"),
            EINVAL => f.write_str("-22 EINVAL"),
            EDEADLK => f.write_str("-35 EDEADLK"),
            EOVERFLOW => f.write_str("-75 EOVERFLOW"),
            value => write!(f, "{value}"),
        }
    }
}

/// A trap's cause, in words.
pub fn cause_name(cause: Cause) -> &'static str {
    match cause {
        Cause::InstructionMisaligned => "instruction misaligned",
        Cause::InstructionAccess => "instruction access",
        Cause::IllegalInstruction => "illegal instruction",
        Cause::Breakpoint => "breakpoint",
        Cause::LoadMisaligned => "load misaligned",
        Cause::LoadAccess => "load access",
        Cause::StoreMisaligned => "store misaligned",
        Cause::StoreAccess => "store access",
        Cause::BadCall => "no such call",
    }
}
