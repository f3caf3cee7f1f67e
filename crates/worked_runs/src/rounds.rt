//! Rounds of small guests after given events, and their histories.

ghost use Rattle.std.specs.Prelude.{◌≡◌, ◌<◌};

use machine_spec::{Limits, MOST_INPUT_BYTES};
use propagate::Round;
use round_driver::drive;
use round_spec::Event;
use run_history::{History, Setup};
use rv_isa::Turns;
use std::alloc::{AllocError, Global};
use std::sync::Arc;
use std::test::Fail;
use std::thread::Threads;
use thunk_record::Compared;
use worked_guests::{Guest, file_of};

/// The setup of a guest and an input, or none if either is too long or it is refused.
pub(super) fn setup_of(
    alloc: Global,
    guest: Guest,
    input: &[u8],
) -> Result<Option<Setup>, AllocError> {
    let Some(file) = file_of(alloc, guest)? else {
        return Ok(None);
    };
    if file.len() > 4096 || input.len() > MOST_INPUT_BYTES {
        return Ok(None);
    }
    match Limits::new(1_000_000, 4096) {
        Some(limits) => Ok(Setup::new(alloc, file, Vec::from_slice(alloc, input)?, limits).ok()),
        None => Ok(None),
    }
}

/// The round of a guest after these events, based on a history if there is one.
pub(super) fn driven<R: Threads>(
    rt: &R,
    alloc: Global,
    guest: Guest,
    input: &[u8],
    past: Option<Arc<History>>,
    events: &[Event],
) -> Result<Round, Fail> {
    match setup_of(alloc, guest, input)? {
        Some(setup) => Ok(drive(
            alloc,
            setup,
            past,
            events,
            &mut Turns::new(rt),
            &mut Compared::new(rt),
        )?),
        None => Err(Fail::new("the guest isn't taken")),
    }
}

/// Events that execute the steps of a schedule, each of which is committed before the next is taken.
fn executes(alloc: Global, schedule: &[u8]) -> Result<Vec<Event>, AllocError> {
    let mut events = Vec::new(alloc);
    for &thread in schedule {
        events.push(Event::Take(thread))?;
        events.push(Event::Commit(thread))?;
    }
    Ok(events)
}

/// The round of a guest without a history, under a schedule.
pub(super) fn scheduled<R: Threads>(
    rt: &R,
    alloc: Global,
    guest: Guest,
    input: &[u8],
    schedule: &[u8],
) -> Result<Round, Fail> {
    let events = executes(alloc, schedule)?;
    driven(rt, alloc, guest, input, None, &events)
}

/// The history that is made of a round.
pub(super) fn history_of(alloc: Global, round: Round) -> Result<Arc<History>, Fail> {
    match round.into_history() {
        Some(history) => Ok(Arc::new(alloc, history)?),
        None => Err(Fail::new("nothing is left")),
    }
}
