//! The workers that make the rounds of a command line. The rounds and the turns that are executed for them are counted.

ghost use Rattle.std.specs.Prelude.{◌≡◌, ◌+◌, ◌≤◌, true, length, option_map, IfOk, OnErr};
ghost use Rattle.std.specs.Arc.{arc_value};
ghost use Rattle.round_spec.specs.Schedules.{IsBySchedule};
ghost use Rattle.round_spec.specs.Workers.{IsMadeBy};
ghost use Rattle.round_spec.specs.Watching.{IsProgress};
ghost use Rattle.propagate.specs.Executing.{IsCostOf};
ghost use Rattle.rerun_workers.specs.Making.{IsRoundBy};
ghost use Rattle.ith_commands.specs.Counting.{Spends};

use ith_host::Gate;
use propagate::Round;
use rerun_workers::{ClosedRound, Effort, run_round, run_round_watched};
use run_history::{History, Setup};
use rv_isa::{Tally, Turns};
use std::alloc::{AllocError, Global};
use std::marker::Model;
use std::sync::{Arc, Wait};
use std::thread::Threads;

/// How many rounds were made, and how many turns were executed for these. It has no bytes: only clauses can read it.
#[derive(Drop)]
struct Work {
    rounds: Tally,
    turns: Turns,
}

impl Model for Work {
    ghost use Rattle.ith_commands.specs.Counting as spec;

    ghost Value = { spec.Work };

    ghost view = { λ w. record { rounds = w.rounds.number; turns = w.turns } };
}

/// A round that the crew made.
#[derive(Drop)]
pub struct MadeRound {
    /// The round, which has an end.
    pub round: Round,
    /// How many of its steps each worker made.
    pub worker_steps: Vec<u64>,
    /// The numbers of made steps that were read meanwhile; none if the round wasn't watched.
    pub progress: Vec<u64>,
}

/// Makes a round by this many workers, without watching it.
fn run_unwatched<R: Threads + Wait + Sync, G: Gate + Sync>(
    rt: &R,
    alloc: Global,
    setup: Setup,
    past: Option<Arc<History>>,
    workers: u32,
    gate: &G,
) -> Result<(ClosedRound, Vec<u64>), AllocError>
    requires { 1 ≤ workers }
    ensures round { IfOk result (λ r.
        IsRoundBy workers setup (option_map arc_value past) r.0.round r.0.worker_steps.items) }
    ensures cost { IfOk result (λ r. IsCostOf workers setup (option_map arc_value past)
        r.0.round r.0.effort.turns) }
{
    let worked = run_round(rt, alloc, setup, past, workers, gate)?;
    Ok((worked, Vec::new(alloc)))
}

/// Makes the rounds of a `run`, `rerun` or `gen` command. Nothing else borrows the runtime for such a command, so that
/// nothing else can make a round or execute a turn. It counts the rounds, and the turns of those that were made.
#[derive(Drop)]
pub struct Crew<'a, R, G> {
    rt: &'a R,
    workers: u32,
    gate: &'a G,
    work: Work,
    ghost some: { 1 ≤ workers },
}

impl<'a, R: Threads + Wait + Sync, G: Gate + Sync> Crew<'a, R, G> {
    /// This many workers, which made no round so far. Each of several calls the gate before it executes a thunk.
    pub fn new(rt: &'a R, workers: u32, gate: &'a G) -> Self
        requires { 1 ≤ workers }
        ensures workers { result.workers ≡ workers }
        ensures none { (result.work.rounds ≡ 0) × (result.work.turns ≡ 0) }
    {
        Crew {
            rt,
            workers,
            gate,
            work: Work {
                rounds: Tally::none(),
                turns: Turns::new(rt),
            },
        }
    }

    /// Makes the round of this number. The gate is called before and after it, and it is watched if `watched` is true.
    /// The round is counted even if the host's memory ran out, its turns only if it was made.
    ///
    /// # Errors
    ///
    /// An error if the host's memory ran out.
    pub fn make(
        &mut self,
        alloc: Global,
        number: u64,
        setup: Setup,
        past: Option<Arc<History>>,
        watched: bool,
    ) -> Result<MadeRound, AllocError>
        ensures setup { IfOk result (λ r. r.round.setup ≡ setup) }
        ensures past { IfOk result (λ r. r.round.past ≡ option_map arc_value past) }
        ensures stands { IfOk result (λ r. IsBySchedule r.round) }
        ensures made { IfOk result (λ r.
            IsMadeBy self.old.workers setup (option_map arc_value past)
            r.round.schedule r.worker_steps.items) }
        ensures watched { IfOk result (λ r. watched ≡ true
            → IsProgress self.old.workers (length r.round.schedule) r.progress.items) }
        ensures cost { IfOk result (λ r. Spends self.old.workers setup (option_map arc_value past)
            r.round
            self.old.work.turns self.new.work.turns) }
        ensures unmade { OnErr result (self.new.work.turns ≡ self.old.work.turns) }
        ensures counted { self.new.work.rounds ≡ self.old.work.rounds + 1 }
        ensures workers { self.new.workers ≡ self.old.workers }
    {
        self.work.rounds.raise(1);
        self.gate.begin(number);
        let made = if watched {
            run_round_watched(self.rt, alloc, setup, past, self.workers, self.gate)
        } else {
            run_unwatched(self.rt, alloc, setup, past, self.workers, self.gate)
        };
        self.gate.end();
        let (worked, progress) = made?;
        let ClosedRound {
            round,
            worker_steps,
            effort: Effort { turns, .. },
        } = worked;
        self.work.turns.merge(turns);
        Ok(MadeRound {
            round,
            worker_steps,
            progress,
        })
    }
}
