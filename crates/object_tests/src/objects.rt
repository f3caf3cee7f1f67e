//! Each call once, made by thread 0 at the start, with its answer as POSIX.1-2017 and the numbers of Linux have it.

ghost use Rattle.std.specs.Prelude.{◌≡◌, false};
ghost use Rattle.sync_objects.specs.Puts.{is_put};

use super::fixtures::{assert_returns, negated};
use guest_call::{Call, Fate, Object};
use std::alloc::{AllocError, Global};
use sync_objects::{ActedOn, Effect, Objects};

/// The effect of a call that thread 0 makes at the start.
fn first(alloc: Global, call: Call) -> Result<Effect, AllocError>
    requires { is_put call ≡ false }
{
    let mut objects = Objects::new(alloc)?;
    match objects.thread(0) {
        Some(thread) => Ok(objects.act(thread, call)),
        None => unreachable!(),
    }
}

#[test]
fn threads_answer_by_their_numbers(rt: HostRuntime) -> Result<(), AllocError> {
    let alloc = rt.alloc();
    assert_returns(&rt, first(alloc, Call::Create(0x1_0000, 7))?, 1, &[]);
    assert!(rt; first(alloc, Call::Create(0x1_0000, 7))?.created() == Some((0x1_0000, 7)));
    // EINVAL is 22, ESRCH 3, EDEADLK 35
    assert_returns(
        &rt,
        first(alloc, Call::Create(0x1_0002, 0))?,
        negated(22),
        &[],
    );
    assert_returns(&rt, first(alloc, Call::Join(1))?, negated(3), &[]);
    assert_returns(&rt, first(alloc, Call::Join(0))?, negated(35), &[]);
    assert_returns(&rt, first(alloc, Call::Yield)?, 0, &[]);
    assert!(rt; first(alloc, Call::ThreadExit(5))?.fate() == Fate::Ends(5));
    assert!(rt; first(alloc, Call::Exit(5))?.fate() == Fate::Exits(5));
    Ok(())
}

#[test]
fn objects_answer_by_their_numbers(rt: HostRuntime) -> Result<(), AllocError> {
    let alloc = rt.alloc();
    assert_returns(&rt, first(alloc, Call::Lock(63))?, 0, &[]);
    assert_returns(&rt, first(alloc, Call::TryLock(63))?, 0, &[]);
    // EPERM is 1, EINVAL 22, EAGAIN 11
    assert_returns(&rt, first(alloc, Call::Unlock(63))?, negated(1), &[]);
    assert_returns(&rt, first(alloc, Call::Lock(64))?, negated(22), &[]);
    assert_returns(&rt, first(alloc, Call::SemPost(63))?, 0, &[]);
    assert_returns(&rt, first(alloc, Call::SemTryWait(63))?, negated(11), &[]);
    assert_returns(&rt, first(alloc, Call::SemInit(63, 2_147_483_647))?, 0, &[]);
    assert_returns(
        &rt,
        first(alloc, Call::SemInit(63, 2_147_483_648))?,
        negated(22),
        &[],
    );
    assert!(rt; first(alloc, Call::SemWait(63))?.fate() == Fate::Blocks);
    assert_returns(&rt, first(alloc, Call::BarrierInit(63, 32))?, 0, &[]);
    assert_returns(
        &rt,
        first(alloc, Call::BarrierInit(63, 33))?,
        negated(22),
        &[],
    );
    assert_returns(&rt, first(alloc, Call::BarrierWait(63))?, negated(22), &[]);
    assert_returns(&rt, first(alloc, Call::CondWait(63, 63))?, negated(1), &[]);
    assert_returns(&rt, first(alloc, Call::CondWait(63, 64))?, negated(22), &[]);
    assert_returns(&rt, first(alloc, Call::Signal(63))?, 0, &[]);
    assert_returns(&rt, first(alloc, Call::Broadcast(64))?, negated(22), &[]);
    assert_returns(&rt, first(alloc, Call::RdLock(63))?, 0, &[]);
    assert_returns(&rt, first(alloc, Call::WrLock(63))?, 0, &[]);
    assert_returns(&rt, first(alloc, Call::RwUnlock(63))?, negated(1), &[]);
    assert_returns(&rt, first(alloc, Call::TryWrLock(64))?, negated(22), &[]);
    Ok(())
}

#[test]
fn calls_name_the_objects_that_they_act_on(rt: HostRuntime) -> Result<(), AllocError> {
    let alloc = rt.alloc();
    let objects = Objects::new(alloc)?;
    assert!(rt; objects.acts_on(Call::Yield) == ActedOn::Nothing);
    assert!(rt; objects.acts_on(Call::Lock(5)) == ActedOn::One(Object::Mutex(5)));
    assert!(rt;
        objects.acts_on(Call::CondWait(4, 5))
            == ActedOn::Two(Object::Condition(4), Object::Mutex(5))
    );
    assert!(rt; objects.acts_on(Call::RwUnlock(5)) == ActedOn::One(Object::RwLock(5)));
    Ok(())
}
