//! Calls of threads at semaphores, with their answers as POSIX.1-2017 and the numbers of Linux have them.

use super::fixtures::{Crowd, assert_blocks, assert_returns, negated};
use guest_call::Call;
use std::alloc::AllocError;

#[test]
fn calls_answer_as_worked_out(rt: HostRuntime) -> Result<(), AllocError> {
    let mut crowd = Crowd::new(&rt, rt.alloc())?;
    // out of range: EINVAL is 22
    assert_returns(&rt, crowd.act(&rt, 31, Call::SemWait(64)), negated(22), &[]);
    assert_returns(
        &rt,
        crowd.act(&rt, 30, Call::SemTryWait(64)),
        negated(22),
        &[],
    );
    assert_returns(&rt, crowd.act(&rt, 29, Call::SemPost(64)), negated(22), &[]);
    assert_returns(
        &rt,
        crowd.act(&rt, 28, Call::SemInit(64, 0)),
        negated(22),
        &[],
    );
    assert_returns(
        &rt,
        crowd.act(&rt, 27, Call::SemInit(63, 2_147_483_648)),
        negated(22),
        &[],
    );
    // the largest value: EOVERFLOW is 75
    assert_returns(
        &rt,
        crowd.act(&rt, 26, Call::SemInit(63, 2_147_483_647)),
        0,
        &[],
    );
    assert_returns(&rt, crowd.act(&rt, 25, Call::SemPost(63)), negated(75), &[]);
    assert_returns(&rt, crowd.act(&rt, 24, Call::SemTryWait(63)), 0, &[]);
    assert_returns(&rt, crowd.act(&rt, 23, Call::SemPost(63)), 0, &[]);
    assert_returns(&rt, crowd.act(&rt, 22, Call::SemPost(63)), negated(75), &[]);
    // threads 21 and 20 wait, in this order: EBUSY is 16, EAGAIN is 11, and posts keep the value 0
    assert_blocks(&rt, crowd.act(&rt, 21, Call::SemWait(0)));
    assert_blocks(&rt, crowd.act(&rt, 20, Call::SemWait(0)));
    assert_returns(
        &rt,
        crowd.act(&rt, 19, Call::SemInit(0, 5)),
        negated(16),
        &[],
    );
    assert_returns(&rt, crowd.act(&rt, 18, Call::SemPost(0)), 0, &[21]);
    assert_returns(
        &rt,
        crowd.act(&rt, 17, Call::SemTryWait(0)),
        negated(11),
        &[],
    );
    assert_returns(&rt, crowd.act(&rt, 16, Call::SemPost(0)), 0, &[20]);
    assert_returns(
        &rt,
        crowd.act(&rt, 15, Call::SemTryWait(0)),
        negated(11),
        &[],
    );
    // no thread waits: a post counts
    assert_returns(&rt, crowd.act(&rt, 14, Call::SemPost(0)), 0, &[]);
    assert_returns(&rt, crowd.act(&rt, 13, Call::SemWait(0)), 0, &[]);
    assert_blocks(&rt, crowd.act(&rt, 12, Call::SemWait(0)));
    Ok(())
}
