//! Rounds of a guest of two steps, `hi`. The expected results are worked out by hand.

ghost use Rattle.std.specs.Prelude.{◌≡◌, ◌<◌};

use super::fixtures::{is_round, setup};
use propagate::{Committed, Round, run_alone};
use round_driver::drive;
use round_spec::{Event, Pick};
use run_history::History;
use rv_isa::Turns;
use std::alloc::Global;
use std::sync::Arc;
use std::test::Fail;
use std::thread::Threads;
use thunk_record::Compared;
use thunk_run::{Run, execute};

/// What makes a round: one worker, or given events.
#[derive(Clone, Copy)]
enum By {
    Worker,
    Events(&'static [Event]),
}

/// The round of the guest; no watch reads the counters.
fn made<R: Threads>(
    rt: &R,
    alloc: Global,
    past: Option<Arc<History>>,
    by: By,
) -> Result<Round, Fail> {
    let setup = setup(alloc, 1_000_000)?;
    let mut turns = Turns::new(rt);
    let mut compared = Compared::new(rt);
    let round = match by {
        By::Worker => run_alone(alloc, setup, past, &mut turns, &mut compared),
        By::Events(events) => drive(alloc, setup, past, events, &mut turns, &mut compared),
    };
    Ok(round?)
}

#[test]
fn without_an_edit_all_is_reused(rt: HostRuntime) -> Result<(), Fail> {
    let alloc = rt.alloc();
    let mut past = None;
    for (marks, instructions) in [([false, false], 8), ([true, true], 0), ([true, true], 0)] {
        let round = made(&rt, alloc, past, By::Worker)?;
        assert!(rt; is_round(&round, &marks, instructions, 0));
        past = match round.into_history() {
            Some(left) => Some(Arc::new(alloc, left)?),
            None => return Err(Fail::new("nothing is left")),
        };
    }
    Ok(())
}

/// Two steps by events: one is discarded, one event changes nothing, and one comes after the end.
const EVENTS: [Event; 8] = [
    Event::Take(0),
    Event::GiveBack(0),
    Event::Reuse(0),
    Event::Take(0),
    Event::Commit(0),
    Event::Take(0),
    Event::Commit(0),
    Event::Stop,
];

#[test]
fn events_make_a_round(rt: HostRuntime) -> Result<(), Fail> {
    let round = made(&rt, rt.alloc(), None, By::Events(&EVENTS))?;
    assert!(rt; is_round(&round, &[false, false], 8, 1));
    assert!(rt; round.stopped());
    assert!(rt; round.pick(&mut Compared::new(&rt)) == Pick::Over);
    Ok(())
}

/// Takes the step that is picked to be executed, and returns its run.
fn taken<R: Threads>(rt: &R, alloc: Global, round: &mut Round) -> Result<Run, Fail> {
    match round.pick(&mut Compared::new(rt)) {
        Pick::Run(t) => {
            let job = round.take(t)?;
            Ok(execute(alloc, &job, &mut Turns::new(rt))?)
        }
        _ => Err(Fail::new("there is no step to execute")),
    }
}

/// The run of the first step of a round with this fuel.
fn first_run<R: Threads>(rt: &R, alloc: Global, fuel: u32) -> Result<Run, Fail> {
    let mut round = Round::new(alloc, setup(alloc, fuel)?, None)?;
    taken(rt, alloc, &mut round)
}

/// Commits a foreign run while its thread is in flight. Returns the number of turns of the run that is returned.
fn commit_foreign<R: Threads>(
    rt: &R,
    alloc: Global,
    round: &mut Round,
    foreign: Run,
) -> Result<u32, Fail> {
    let _own = taken(rt, alloc, round)?;
    match round.commit(foreign) {
        Committed::Stale(back) => Ok(back.rec.count()),
        _ => Err(Fail::new("the run isn't stale")),
    }
}

/// Commits the step that comes next.
fn commit_next<R: Threads>(rt: &R, alloc: Global, round: &mut Round) -> Result<(), Fail> {
    let own = taken(rt, alloc, round)?;
    match round.commit(own) {
        Committed::Done => Ok(()),
        _ => Err(Fail::new("the run isn't committed")),
    }
}

#[test]
fn a_run_of_another_setup_is_stale(rt: HostRuntime) -> Result<(), Fail> {
    let alloc = rt.alloc();
    let foreign = first_run(&rt, alloc, 999_999)?;
    let mut round = Round::new(alloc, setup(alloc, 1_000_000)?, None)?;
    let count = commit_foreign(&rt, alloc, &mut round, foreign)?;
    commit_next(&rt, alloc, &mut round)?;
    assert!(rt; count == 5);
    assert!(rt; round.schedule().len() == 1);
    assert!(rt; round.instructions() == 5);
    assert!(rt; round.discarded() == 1);
    Ok(())
}
