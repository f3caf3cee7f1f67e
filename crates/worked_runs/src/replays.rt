//! Replays from scratch that no command line requests: of the generated guest, whose output is the sum of its input's
//! bytes, and of a thread that no schedule can name.

ghost use Rattle.std.specs.Prelude.{◌≡◌, ◌<◌};

use super::rounds::setup_of;
use guest_gen::{Generated, inputs_have_one_length, make};
use machine_spec::{End, Limits};
use plain_machine::{Outcome, ReplayError, replay};
use run_history::Setup;
use rv_isa::Turns;
use std::alloc::{AllocError, Global};
use std::test::Fail;
use std::thread::Threads;
use worked_guests::guests::CROSS;

/// The outcome of a setup under a schedule.
fn outcome_of<R: Threads>(
    rt: &R,
    alloc: Global,
    setup: &Setup,
    schedule: &[u8],
) -> Result<Outcome, ReplayError> {
    replay(alloc, setup, schedule, &mut Turns::new(rt))
}

#[test]
fn a_thread_that_cannot_be_is_not_permitted(rt: HostRuntime) -> Result<(), Fail> {
    let Some(setup) = setup_of(rt.alloc(), CROSS, b"")? else {
        return Err(Fail::new("the guest isn't taken"));
    };
    let refused = match outcome_of(&rt, rt.alloc(), &setup, &[0, 255]) {
        Ok(_outcome) => false,
        Err(error) => error == ReplayError::Forbidden(1),
    };
    assert!(rt; refused);
    Ok(())
}

/// The schedule in which the first thread waits for each other one, which makes all its steps meanwhile.
fn one_after_the_other(alloc: Global) -> Result<Vec<u8>, AllocError> {
    let mut schedule = Vec::new(alloc);
    schedule.resize(8, 0)?;
    for thread in 1..9 {
        schedule.push(0)?;
        for _ in 0..17 {
            schedule.push(thread)?;
        }
    }
    schedule.push(0)?;
    schedule.push(0)?;
    Ok(schedule)
}

/// The schedule in which all eight threads request the mutex before the first of them unlocks it, block for block, and
/// are joined after their ends.
fn side_by_side(alloc: Global) -> Result<Vec<u8>, AllocError> {
    let mut schedule = Vec::new(alloc);
    schedule.resize(8, 0)?;
    for _ in 0..17 {
        for thread in 1..9 {
            schedule.push(thread)?;
        }
    }
    for _ in 0..10 {
        schedule.push(0)?;
    }
    Ok(schedule)
}

/// The setup that is generated from a number, or none if it is refused.
fn generated(alloc: Global, number: u32) -> Result<Option<Setup>, AllocError> {
    let Generated { elf, input, .. } = make(alloc, number)?;
    inputs_have_one_length();
    match Limits::new(1_000_000, 4096) {
        Some(limits) => Ok(Setup::new(alloc, elf, input, limits).ok()),
        None => Ok(None),
    }
}

/// The sum of bytes, modulo 2^32.
fn sum_of(bytes: &[u8]) -> u32 {
    bytes
        .iter()
        .fold(0, |sum: u32, byte| sum.wrapping_add(u32::from(*byte)))
}

/// Whether the guest of a number makes its 154 steps under a schedule, and outputs the sum of its input's bytes.
fn outputs_the_sum<R: Threads>(
    rt: &R,
    alloc: Global,
    number: u32,
    schedule: &[u8],
) -> Result<bool, Fail> {
    let Some(setup) = generated(alloc, number)? else {
        return Err(Fail::new("the guest isn't taken"));
    };
    match outcome_of(rt, alloc, &setup, schedule) {
        Ok(outcome) => Ok(
            outcome.ending == End::Exit(0)
                && outcome.steps == 154
                && outcome.output.as_slice() == sum_of(setup.input()).to_le_bytes().as_slice(),
        ),
        Err(_) => Ok(false),
    }
}

#[test]
fn the_output_is_the_sum_of_the_input(rt: HostRuntime) -> Result<(), Fail> {
    let alloc = rt.alloc();
    let schedules = [one_after_the_other(alloc)?, side_by_side(alloc)?];
    for schedule in schedules.iter() {
        assert!(rt; outputs_the_sum(&rt, alloc, 7, schedule.as_slice())?);
    }
    Ok(())
}
