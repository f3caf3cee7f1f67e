//! A round to which given events happen, one after the other: for tests, and for the law that old steps may be reused
//! in any order that respects their dependences.
#![tactic(auto)]

ghost use Rattle.std.specs.Prelude.{◌≡◌, ℕ, ◌+◌, ◌≤◌, true, List, Some, option_map, IfOk, OnOk};
ghost use Rattle.std.specs.Arc.{arc_value};
ghost use Rattle.machine_spec.specs.Setup.{IsSetup};
ghost use Rattle.history_spec.specs.History.{History as OldHistory, IsSound};
ghost use Rattle.history_spec.specs.Facts.{facts};
ghost use Rattle.history_spec.specs.Orders.{is_order};
ghost use Rattle.round_spec.specs.declared.events.Event.TheVariants as event;
ghost use Rattle.round_spec.specs.Rounds.{none_in_flight, opening, is_in_flight, happens, round_after};
ghost use Rattle.round_spec.specs.Keeping.{IsFromScratch};
ghost use Rattle.round_spec.specs.Unedited.{IsUnedited};
ghost use Rattle.round_spec.specs.Reordering.{reuses_of, ReusesInOrder};
ghost use Rattle.round_driver.specs.Jobs.{HaveJobs};
ghost use Rattle.propagate.specs.Executing.{executed_by, Costs};
ghost use Rattle.propagate.specs.Consistency.{IsValid};

use guest_call::THREADS;
use propagate::{Committed, Round};
use round_spec::Event;
use run_history::{History, Setup};
use rv_isa::Turns;
use std::alloc::{AllocError, Global};
use std::array;
use std::sync::Arc;
use thunk_record::{Compared, Job};
use thunk_run::execute;

/// A round, and the job of each thread that is in flight.
#[derive(Drop)]
struct Driven {
    round: Round,
    jobs: [Option<Job>; THREADS],
    ghost held: { HaveJobs round jobs },
}

impl Driven {
    /// A round before its first step.
    fn new(alloc: Global, setup: Setup, past: Option<Arc<History>>) -> Result<Driven, AllocError>
        ensures round { IfOk result
            (λ driven. driven.round ≡ opening setup (option_map arc_value past)) }
        ensures sound { IfOk result (λ _. IsSetup setup) }
    {
        let round = Round::new(alloc, setup, past)?;
        Ok(Driven {
            round,
            jobs: array::from_fn(|_| None),
        })
    }

    /// Takes the next step of thread `t`, if it can be taken.
    fn on_take(&mut self, t: u8, compared: &mut Compared) -> Result<(), AllocError>
        ensures round { OnOk result (self.new.round ≡ happens self.old.round (event.Take t)) }
        ensures valid { IsValid self.old.round }
    {
        let Driven { round, jobs, .. } = self;
        if !round.can_take(t, compared) {
            return Ok(());
        }
        let job = round.take(t)?;
        jobs[usize::from(t)] = Some(job);
        Ok(())
    }

    /// Reuses the record of the next step of thread `t`, if it can be reused.
    fn on_reuse(&mut self, t: u8, compared: &mut Compared) -> Result<(), AllocError>
        ensures round { OnOk result (self.new.round ≡ happens self.old.round (event.Reuse t)) }
        ensures valid { IsValid self.old.round }
    {
        if !self.round.can_reuse(t, compared) {
            return Ok(());
        }
        self.round.reuse(t)
    }

    /// Executes and commits the job that is in flight for thread `t`, if one is. If the round is finished, the job is
    /// discarded. The counter rises by the instructions that it made.
    fn on_commit(&mut self, alloc: Global, t: u8, turns: &mut Turns) -> Result<(), AllocError>
        ensures round { OnOk result (self.new.round ≡ happens self.old.round (event.Commit t)) }
        ensures cost { OnOk result (Costs turns.old self.old.round turns.new self.new.round) }
        ensures never_lower { turns.old ≤ turns.new }
    {
        if !self.round.is_in_flight(t) {
            return Ok(());
        }
        if self.round.is_finished() {
            self.round.give_back(t);
            return Ok(());
        }
        let run = match &self.jobs[usize::from(t)] {
            Some(job) => execute(alloc, job, turns)?,
            None => unreachable!(),
        };
        match self.round.commit(run) {
            Committed::Done => Ok(()),
            Committed::Stale(_) => unreachable!(),
            Committed::NoMemory(_) => Err(AllocError),
        }
    }

    /// Discards the job that is in flight for thread `t`, if one is.
    fn on_give_back(&mut self, t: u8)
        ensures round { self.new.round ≡ happens self.old.round (event.GiveBack t) }
        ensures valid { IsValid self.old.round }
    {
        if self.round.is_in_flight(t) {
            self.round.give_back(t);
        }
    }

    /// Stops the round.
    fn on_stop(&mut self)
        ensures round { self.new.round ≡ happens self.old.round event.Stop }
        ensures valid { IsValid self.old.round }
    {
        self.round.stop();
    }

    /// Does an event; one whose condition doesn't hold changes nothing.
    fn happen(
        &mut self,
        alloc: Global,
        event: Event,
        turns: &mut Turns,
        compared: &mut Compared,
    ) -> Result<(), AllocError>
        ensures round { OnOk result (self.new.round ≡ happens self.old.round event) }
        ensures cost { OnOk result (Costs turns.old self.old.round turns.new self.new.round) }
        ensures never_lower { turns.old ≤ turns.new }
    {
        match event {
            Event::Take(t) => self.on_take(t, compared),
            Event::Reuse(t) => self.on_reuse(t, compared),
            Event::Commit(t) => self.on_commit(alloc, t, turns),
            Event::GiveBack(t) => {
                self.on_give_back(t);
                Ok(())
            }
            Event::Stop => {
                self.on_stop();
                Ok(())
            }
        }
    }
}

/// The round of a setup, based on a history if there is one, after some events, one after the other. A step is executed
/// when it is committed, by the job that was taken. An event whose condition doesn't hold changes nothing. The counter
/// of turns rises by the instructions of the executed steps. If the history is sound, the round's machine is the one
/// from scratch, and its marks are exact. If the setup is also the history's own, and the events reuse its steps in any
/// order in which each comes after all that must come before it, all of them are reused, and come to the same end,
/// output and memory.
///
/// # Errors
///
/// An error if the host's memory ran out; the counters may have risen, and are never lower.
pub fn drive(
    alloc: Global,
    setup: Setup,
    past: Option<Arc<History>>,
    events: &[Event],
    turns: &mut Turns,
    compared: &mut Compared,
) -> Result<Round, AllocError>
    ensures round { IfOk result (λ round. round
        ≡ round_after setup (option_map arc_value past) events.now) }
    ensures cost { IfOk result (λ round. turns.new ≡ turns.old + executed_by round) }
    ensures never_lower { turns.old ≤ turns.new }
    ensures scratch { IfOk result (λ round. IsSound (option_map arc_value past) setup
        → IsFromScratch round) }
    ensures every_order { IfOk result (λ round. (h : OldHistory) (places : List ℕ)
        → option_map arc_value past ≡ Some h
        → IsUnedited h setup
        → is_order (facts h) places ≡ true
        → events.now ≡ reuses_of h places
        → ReusesInOrder h places round) }
{
    let mut driven = Driven::new(alloc, setup, past)?;
    for event in events {
        driven.happen(alloc, *event, turns, compared)?;
    }
    Ok(driven.round)
}
