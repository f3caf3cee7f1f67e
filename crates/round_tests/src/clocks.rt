//! Each call once.

use depend_graph::*;
use guest_call::THREADS;
use std::test::Fail;

#[test]
fn clocks_tick_join_and_cover(rt: HostRuntime) -> Result<(), Fail> {
    let mut clock = Clock::zero();
    clock.tick(3);
    let mut other = Clock::new([2; THREADS]);
    assert!(rt; other.covers(&clock));
    assert!(rt; !clock.covers(&other));
    other.tick(31);
    clock.join(&other);
    assert!(rt; clock == other);
    assert!(rt; clock.count(0) == 2);
    assert!(rt; clock.count(31) == 3);
    Ok(())
}
