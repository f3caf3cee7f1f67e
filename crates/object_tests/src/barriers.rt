//! Calls of threads at barriers, with their answers as POSIX.1-2017 and the numbers of Linux have them.

use super::fixtures::{Crowd, assert_blocks, assert_returns, negated};
use guest_call::Call;
use std::alloc::AllocError;

#[test]
fn calls_answer_as_worked_out(rt: HostRuntime) -> Result<(), AllocError> {
    let mut crowd = Crowd::new(&rt, rt.alloc())?;
    // out of range, and not initialised: EINVAL is 22
    assert_returns(
        &rt,
        crowd.act(&rt, 31, Call::BarrierInit(64, 3)),
        negated(22),
        &[],
    );
    assert_returns(
        &rt,
        crowd.act(&rt, 30, Call::BarrierInit(1, 0)),
        negated(22),
        &[],
    );
    assert_returns(
        &rt,
        crowd.act(&rt, 29, Call::BarrierInit(1, 33)),
        negated(22),
        &[],
    );
    assert_returns(
        &rt,
        crowd.act(&rt, 28, Call::BarrierWait(64)),
        negated(22),
        &[],
    );
    assert_returns(
        &rt,
        crowd.act(&rt, 27, Call::BarrierWait(2)),
        negated(22),
        &[],
    );
    // the last of three wakes the others, which are answered 0 in the order in which they came
    assert_returns(&rt, crowd.act(&rt, 26, Call::BarrierInit(0, 3)), 0, &[]);
    assert_blocks(&rt, crowd.act(&rt, 25, Call::BarrierWait(0)));
    assert_blocks(&rt, crowd.act(&rt, 24, Call::BarrierWait(0)));
    assert_returns(&rt, crowd.act(&rt, 23, Call::BarrierWait(0)), 1, &[25, 24]);
    assert_blocks(&rt, crowd.act(&rt, 22, Call::BarrierWait(0)));
    assert_blocks(&rt, crowd.act(&rt, 21, Call::BarrierWait(0)));
    // threads wait: EBUSY is 16
    assert_returns(
        &rt,
        crowd.act(&rt, 20, Call::BarrierInit(0, 3)),
        negated(16),
        &[],
    );
    assert_returns(&rt, crowd.act(&rt, 19, Call::BarrierWait(0)), 1, &[22, 21]);
    // with a count of one no thread waits, and 32 is the largest count
    assert_returns(&rt, crowd.act(&rt, 18, Call::BarrierInit(0, 1)), 0, &[]);
    assert_returns(&rt, crowd.act(&rt, 17, Call::BarrierWait(0)), 1, &[]);
    assert_returns(&rt, crowd.act(&rt, 16, Call::BarrierInit(63, 32)), 0, &[]);
    assert_blocks(&rt, crowd.act(&rt, 15, Call::BarrierWait(63)));
    Ok(())
}
