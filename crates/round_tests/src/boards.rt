//! Boards of a guest of two steps, `hi`. The expected results are worked out by hand.

ghost use Rattle.std.specs.Prelude.{◌≡◌, ◌<◌, IfOk};
ghost use Rattle.std.specs.Arc.{arc_value};
ghost use Rattle.machine_spec.specs.Setup.{first};
ghost use Rattle.round_spec.specs.Rounds.{opening};
ghost use Rattle.thunk_run.specs.Running.{IsRunOf};
ghost use Rattle.rerun_workers.specs.Tickets.{IsTicketOf, IsRunOfTicket};

use super::fixtures::{is_round, setup};
use ith_host::{Gate, OpenGate};
use propagate::Round;
use rerun_workers::{Blanks, Board, ClosedRound, CommitOutcome, Naming, Pass, Task, run_round};
use rv_isa::Turns;
use std::alloc::{AllocError, Global};
use std::marker::Brand;
use std::process::Abort;
use std::sync::atomic::{AtomicU64, Ordering};
use std::sync::{Arc, Wait};
use std::test::Fail;
use std::thread::Threads;
use thunk_record::Job;
use thunk_run::{Run, execute};

/// A round of the guest before its first step, with so much fuel.
fn opened(alloc: Global, fuel: u32) -> Result<Round, Fail>
    ensures { IfOk result (λ round. round ≡ opening round.setup round.past) }
{
    Ok(Round::new(alloc, setup(alloc, fuel)?, None)?)
}

/// The step that a worker is assigned. Its pass holds the ticket afterwards, if there is one.
fn begun<J: Naming, R: Wait>(rt: &R, board: &Board<J>, pass: &mut Pass<J>) -> Result<Job, Fail>
    ensures frame { IfOk result (λ job. arc_value job.frame ≡ (first J.setup).frame) }
    ensures ticket { IfOk result (λ job. IsTicketOf pass.new.ticket job) }
{
    match board.next(rt, pass) {
        Task::Begin(job) => Ok(job),
        _ => Err(Fail::new("there is no step to execute")),
    }
}

/// The run of a job, without a watch.
fn run_of<R: Threads>(rt: &R, alloc: Global, job: &Job) -> Result<Run, AllocError>
    ensures { IfOk result (λ run. IsRunOf job.now run) }
{
    execute(alloc, job, &mut Turns::new(rt))
}

/// Submits a run of the step that a worker was assigned, which can be committed.
fn hand_in<J: Naming, R: Wait>(
    rt: &R,
    board: &Board<J>,
    pass: &mut Pass<J>,
    run: Run,
) -> Result<(), Fail>
    requires own { arc_value run.frame ≡ (first J.setup).frame }
    requires ticketed { IsRunOfTicket pass.old.ticket run }
{
    match board.commit_taken(rt, pass, run) {
        CommitOutcome::Done => Ok(()),
        _ => Err(Fail::new("the run isn't committed")),
    }
}

/// Executes the step that a worker is assigned.
pub(super) fn make_next<J: Naming, R: Threads + Wait>(
    rt: &R,
    alloc: Global,
    board: &Board<J>,
    pass: &mut Pass<J>,
) -> Result<(), Fail> {
    let job = begun(rt, board, pass)?;
    let run = run_of(rt, alloc, &job)?;
    hand_in(rt, board, pass, run)
}

/// The round of one worker that submits its first step twice, and the run that was returned.
fn handed_in_twice<J: Naming, R: Threads + Wait>(
    rt: &R,
    alloc: Global,
    round: Round,
    blanks: Blanks,
) -> Result<(Round, Run), Fail>
    requires name { (blanks.ledger.name ≡ J.name) × (blanks.issuer.book ≡ J.tickets) }
    requires parts { (blanks.ledger.parts ≡ J.parts) × (J.parts ≡ 1) }
    requires workers { (J.workers ≡ 1) × (J.watches ≡ 0) }
    requires opening { round ≡ opening J.setup J.past }
{
    let (board, mut passes) = Board::<J>::new(rt, alloc, round, 1, blanks)?;
    let job = begun(rt, &board, &mut passes[0])?;
    let run = run_of(rt, alloc, &job)?;
    let again = run_of(rt, alloc, &job)?;
    hand_in(rt, &board, &mut passes[0], run)?;
    let CommitOutcome::Stale(back) = board.commit(rt, &mut passes[0], again) else {
        return Err(Fail::new("the run isn't stale"));
    };
    Ok((board.close(passes).round, back))
}

#[test]
fn a_run_that_is_handed_in_twice_is_stale(rt: HostRuntime) -> Result<(), Fail> {
    let alloc = rt.alloc();
    let (round, back) = handed_in_twice::<Brand, _>(
        &rt,
        alloc,
        opened(alloc, 1_000_000)?,
        Blanks::new(1),
    )?;
    assert!(&rt; back.rec.count() == 5);
    assert!(&rt; round.schedule().len() == 1);
    assert!(&rt; round.discarded() == 0);
    Ok(())
}

/// The round of two workers, of which one can't execute the second step.
fn failed<J: Naming, R: Threads + Wait>(
    rt: &R,
    alloc: Global,
    round: Round,
    blanks: Blanks,
) -> Result<ClosedRound, Fail>
    requires name { (blanks.ledger.name ≡ J.name) × (blanks.issuer.book ≡ J.tickets) }
    requires parts { (blanks.ledger.parts ≡ J.parts) × (J.parts ≡ 2) }
    requires workers { (J.workers ≡ 2) × (J.watches ≡ 0) }
    requires opening { round ≡ opening J.setup J.past }
{
    let (board, mut passes) = Board::<J>::new(rt, alloc, round, 2, blanks)?;
    make_next(rt, alloc, &board, &mut passes[1])?;
    let job = begun(rt, &board, &mut passes[0])?;
    board.fail(rt, &mut passes[0], job);
    for pass in passes.as_mut_slice() {
        match board.next(rt, pass) {
            Task::Over => {}
            _ => return Err(Fail::new("the round isn't over")),
        }
    }
    Ok(board.close(passes))
}

#[test]
fn a_job_that_fails_ends_the_round(rt: HostRuntime) -> Result<(), Fail> {
    let alloc = rt.alloc();
    let ClosedRound {
        round,
        worker_steps,
        ..
    } = failed::<Brand, _>(&rt, alloc, opened(alloc, 1_000_000)?, Blanks::new(2))?;
    assert!(&rt; round.schedule().len() == 1);
    assert!(&rt; round.discarded() == 1);
    assert!(&rt; round.stopped() && round.end() == None);
    assert!(&rt; worker_steps.as_slice() == [0, 1].as_slice());
    Ok(())
}

/// How many steps workers made.
fn steps_of(worker_steps: &[u64]) -> u64 {
    let mut steps: u64 = 0;
    for steps_of_one in worker_steps {
        steps = steps.saturating_add(*steps_of_one);
    }
    steps
}

/// Compares a round of two steps, which are both reused or both executed, and what its workers made.
fn compare<R: Abort>(rt: &R, round: &Round, worker_steps: &[u64], workers: usize, reused: bool) {
    let instructions = if reused { 0 } else { 8 };
    assert!(rt; is_round(round, &[reused, reused], instructions, 0));
    assert!(rt; worker_steps.len() == workers);
    assert!(rt; steps_of(worker_steps) == 2);
}

#[test]
fn four_workers_make_a_round(rt: HostRuntime) -> Result<(), Fail> {
    let alloc = rt.alloc();
    let ClosedRound {
        round,
        worker_steps,
        ..
    } = run_round(&rt, alloc, setup(alloc, 1_000_000)?, None, 4, &OpenGate)?;
    compare(&rt, &round, worker_steps.as_slice(), 4, false);
    Ok(())
}

/// A gate that counts how often it is entered.
#[derive(Drop)]
struct Counter {
    passed: AtomicU64,
}

impl Gate for Counter {
    fn enter(&self, _thread: u8, _number: u32) {
        self.passed.fetch_add(1, Ordering::SeqCst);
    }
}

#[test]
fn without_an_edit_nobody_passes_the_gate(rt: HostRuntime) -> Result<(), Fail> {
    let alloc = rt.alloc();
    let gate = Counter {
        passed: AtomicU64::new(0),
    };
    let mut past = None;
    for (passed, reused) in [(2, false), (2, true), (2, true)] {
        let ClosedRound {
            round,
            worker_steps,
            ..
        } = run_round(&rt, alloc, setup(alloc, 1_000_000)?, past, 2, &gate)?;
        compare(&rt, &round, worker_steps.as_slice(), 2, reused);
        assert!(&rt; gate.passed.load(Ordering::SeqCst) == passed);
        past = match round.into_history() {
            Some(left) => Some(Arc::new(alloc, left)?),
            None => return Err(Fail::new("nothing is left")),
        };
    }
    Ok(())
}
