//! Calls of threads at reader-writer locks, with their answers as POSIX.1-2017 and the numbers of Linux have them.

use super::fixtures::{Crowd, assert_blocks, assert_returns, negated};
use guest_call::Call;
use std::alloc::AllocError;

#[test]
fn readers_and_writers_take_turns(rt: HostRuntime) -> Result<(), AllocError> {
    let mut crowd = Crowd::new(&rt, rt.alloc())?;
    assert_returns(&rt, crowd.act(&rt, 1, Call::RdLock(0)), 0, &[]);
    assert_returns(&rt, crowd.act(&rt, 2, Call::RdLock(0)), 0, &[]);
    // a writer waits, and a reader after it: the unlock of the last reader admits the writer alone
    assert_blocks(&rt, crowd.act(&rt, 3, Call::WrLock(0)));
    assert_blocks(&rt, crowd.act(&rt, 4, Call::RdLock(0)));
    assert_returns(&rt, crowd.act(&rt, 1, Call::RwUnlock(0)), 0, &[]);
    assert_returns(&rt, crowd.act(&rt, 2, Call::RwUnlock(0)), 0, &[3]);
    // EBUSY is 16
    assert_returns(&rt, crowd.act(&rt, 1, Call::TryWrLock(0)), negated(16), &[]);
    assert_returns(&rt, crowd.act(&rt, 3, Call::RwUnlock(0)), 0, &[4]);
    // one read lock for each thread: EAGAIN is 11, EDEADLK 35; no thread can unlock a lock that it lacks: EPERM is 1
    assert_returns(&rt, crowd.act(&rt, 4, Call::RdLock(0)), negated(11), &[]);
    assert_returns(&rt, crowd.act(&rt, 4, Call::WrLock(0)), negated(35), &[]);
    assert_returns(&rt, crowd.act(&rt, 1, Call::RwUnlock(0)), negated(1), &[]);
    Ok(())
}

#[test]
fn a_writer_lets_all_readers_in(rt: HostRuntime) -> Result<(), AllocError> {
    let mut crowd = Crowd::new(&rt, rt.alloc())?;
    // out of range: EINVAL is 22
    assert_returns(&rt, crowd.act(&rt, 0, Call::RdLock(64)), negated(22), &[]);
    assert_returns(&rt, crowd.act(&rt, 0, Call::WrLock(64)), negated(22), &[]);
    assert_returns(&rt, crowd.act(&rt, 0, Call::RwUnlock(64)), negated(22), &[]);
    assert_returns(
        &rt,
        crowd.act(&rt, 0, Call::TryWrLock(64)),
        negated(22),
        &[],
    );
    // the writer can't lock it again: EDEADLK is 35, EBUSY 16
    assert_returns(&rt, crowd.act(&rt, 0, Call::TryWrLock(63)), 0, &[]);
    assert_returns(&rt, crowd.act(&rt, 0, Call::WrLock(63)), negated(35), &[]);
    assert_returns(&rt, crowd.act(&rt, 0, Call::RdLock(63)), negated(35), &[]);
    assert_returns(
        &rt,
        crowd.act(&rt, 0, Call::TryWrLock(63)),
        negated(16),
        &[],
    );
    // three come to read, then one to write, then one more to read: those before the writer are admitted
    assert_blocks(&rt, crowd.act(&rt, 3, Call::RdLock(63)));
    assert_blocks(&rt, crowd.act(&rt, 1, Call::RdLock(63)));
    assert_blocks(&rt, crowd.act(&rt, 2, Call::RdLock(63)));
    assert_blocks(&rt, crowd.act(&rt, 5, Call::WrLock(63)));
    assert_blocks(&rt, crowd.act(&rt, 4, Call::RdLock(63)));
    assert_returns(&rt, crowd.act(&rt, 0, Call::RwUnlock(63)), 0, &[3, 1, 2]);
    assert_returns(
        &rt,
        crowd.act(&rt, 0, Call::TryWrLock(63)),
        negated(16),
        &[],
    );
    assert_returns(&rt, crowd.act(&rt, 2, Call::RwUnlock(63)), 0, &[]);
    assert_returns(&rt, crowd.act(&rt, 3, Call::RwUnlock(63)), 0, &[]);
    assert_returns(&rt, crowd.act(&rt, 1, Call::RwUnlock(63)), 0, &[5]);
    assert_returns(&rt, crowd.act(&rt, 5, Call::RwUnlock(63)), 0, &[4]);
    assert_returns(&rt, crowd.act(&rt, 4, Call::RwUnlock(63)), 0, &[]);
    assert_returns(&rt, crowd.act(&rt, 31, Call::WrLock(63)), 0, &[]);
    Ok(())
}

#[test]
fn all_others_wait_in_one_queue(rt: HostRuntime) -> Result<(), AllocError> {
    let mut crowd = Crowd::new(&rt, rt.alloc())?;
    assert_returns(&rt, crowd.act(&rt, 0, Call::WrLock(5)), 0, &[]);
    for number in 1..32u8 {
        assert_blocks(&rt, crowd.act(&rt, number, Call::RdLock(5)));
    }
    let effect = crowd.act(&rt, 0, Call::RwUnlock(5));
    assert!(rt; effect.woken().len() == 31);
    Ok(())
}
