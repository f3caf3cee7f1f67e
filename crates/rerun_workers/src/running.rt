//! A round that several workers make.

ghost use Rattle.std.specs.Prelude.{◌≡◌, ◌-◌, ◌<◌, ◌≤◌, ◌∷◌, [], Some, length, vec_len, set, replicate, option_map, IfOk};
ghost use Rattle.std.specs.Arc.{arc_value};
ghost use Rattle.history_spec.specs.History.{History as OldHistory};
ghost use Rattle.round_spec.specs.Rounds.{opening};
ghost use Rattle.round_spec.specs.Unedited.{IsUnedited};
ghost use Rattle.round_spec.specs.Watching.{IsProgress};
ghost use Rattle.propagate.specs.Executing.{IsCostOf};
ghost use Rattle.rerun_workers.specs.Making.{IsRoundBy, IsClosed, ComparesNone};

use super::board::{Board, ClosedRound};
use super::effort::Effort;
use super::naming::{Blanks, Naming};
use super::watched::run_watched;
use super::watching::WatchedRound;
use super::working::work_together;
use ith_host::Gate;
use propagate::{Round, run_alone_shown};
use run_history::{History, Setup};
use std::alloc::{AllocError, Global};
use std::marker::Brand;
use std::sync::{Arc, Wait};
use std::thread::Threads;

/// Lists these steps as the first worker's.
fn list_first(worker_steps: &mut Vec<u64>, steps: u64)
    requires { 0 < vec_len worker_steps.old }
    ensures { worker_steps.new.items ≡ set worker_steps.old.items 0 steps }
{
    worker_steps[0] = steps;
}

/// A round of which the first of `workers` workers makes all steps. Its turns and compared pages are added to `effort`,
/// which has no turns before if there is one worker or no edit.
fn run_by_first<G: Gate>(
    alloc: Global,
    setup: Setup,
    past: Option<Arc<History>>,
    workers: u32,
    gate: &G,
    mut effort: Effort,
) -> Result<ClosedRound, AllocError>
    requires some { 1 ≤ workers }
    requires unused { workers ≡ 1 → effort.turns ≡ 0 }
    requires idle { (h : OldHistory) → option_map arc_value past ≡ Some h → IsUnedited h setup
        → effort.turns ≡ 0 }
    requires spares { ComparesNone setup (option_map arc_value past) effort.compared }
    ensures round { IfOk result (λ r.
        IsRoundBy workers setup (option_map arc_value past) r.round r.worker_steps.items) }
    ensures worker_steps { IfOk result (λ r. r.worker_steps.items
        ≡ length r.round.schedule ∷ replicate (workers - 1) 0) }
    ensures cost { IfOk result
        (λ r. IsCostOf workers setup (option_map arc_value past) r.round r.effort.turns) }
    ensures spares { IfOk result
        (λ r. ComparesNone setup (option_map arc_value past) r.effort.compared) }
{
    let mut worker_steps = vec![in alloc; 0; workers as usize]?;
    let Effort { turns, compared } = &mut effort;
    let round = run_alone_shown(alloc, setup, past, turns, compared, gate)?;
    list_first(&mut worker_steps, round.schedule().len() as u64);
    Ok(ClosedRound {
        round,
        worker_steps,
        effort,
    })
}

/// A finished round, and how many steps it has. No other number of steps is read of it.
fn with_last(alloc: Global, worked: ClosedRound) -> Result<(ClosedRound, Vec<u64>), AllocError>
    ensures same { IfOk result (λ r. r.0 ≡ worked) }
    ensures last { IfOk result (λ r. r.1.items ≡ length worked.round.schedule ∷ []) }
{
    let mut numbers = Vec::new(alloc);
    numbers.push(worked.round.schedule().len() as u64)?;
    Ok((worked, numbers))
}

/// The round of an unfinished one's setup and history, of which the first worker makes all steps. If the unfinished one
/// was stopped, the host's memory ran out, which is an error.
fn run_anew<G: Gate>(
    alloc: Global,
    unfinished: ClosedRound,
    workers: u32,
    gate: &G,
) -> Result<ClosedRound, AllocError>
    requires several { 1 < workers }
    requires idle { (h : OldHistory) → unfinished.round.past ≡ Some h
        → IsUnedited h unfinished.round.setup → unfinished.effort.turns ≡ 0 }
    requires spares { ComparesNone unfinished.round.setup unfinished.round.past
        unfinished.effort.compared }
    ensures round { IfOk result (λ r.
        IsRoundBy workers unfinished.round.setup unfinished.round.past r.round
        r.worker_steps.items) }
    ensures cost { IfOk result
        (λ r. IsCostOf workers unfinished.round.setup unfinished.round.past r.round
        r.effort.turns) }
    ensures spares { IfOk result
        (λ r. ComparesNone unfinished.round.setup unfinished.round.past r.effort.compared) }
{
    let ClosedRound { round, effort, .. } = unfinished;
    let stopped = round.stopped();
    let (setup, past) = round.into_setup();
    if stopped {
        return Err(AllocError);
    }
    run_by_first(alloc, setup, past, workers, gate, effort)
}

/// A round that `workers` workers made together until it was finished, or until the host's memory ran out.
// Not inlined, since its frame holds rounds by value, and would be added to its caller's.
#[inline(never)]
fn run_together<J: Naming + Send + Sync, R: Threads + Wait + Sync, G: Gate + Sync>(
    rt: &R,
    alloc: Global,
    round: Round,
    workers: u32,
    gate: &G,
    blanks: Blanks,
) -> Result<ClosedRound, AllocError>
    requires name { (blanks.ledger.name ≡ J.name) × (blanks.issuer.book ≡ J.tickets) }
    requires parts { (blanks.ledger.parts ≡ J.parts) × (J.parts ≡ workers) }
    requires workers { (workers ≡ J.workers) × (1 ≤ workers) }
    requires unwatched { J.watches ≡ 0 }
    requires opening { round ≡ opening J.setup J.past }
    ensures closed { IfOk result
        (λ r. IsClosed J.setup J.past r.round r.worker_steps.items
        r.effort.turns r.effort.compared) }
    ensures each { IfOk result (λ r. length r.worker_steps.items ≡ workers) }
{
    let (board, mut passes) = Board::<J>::new(rt, alloc, round, workers, blanks)?;
    work_together(rt, alloc, &board, passes.as_mut_slice(), gate);
    Ok(board.close(passes))
}

/// A round that `workers` workers make, and how many of its steps each of them made, in their order. It has an end. One
/// worker makes it without a lock, doesn't enter the gate, and discards nothing. If the history is sound, each entry
/// was chosen by the rule: its thread was due, or no thread was. With any number of workers, a round that works as its
/// history did executes no more than its setup reaches. Without an edit it only reuses the history, and nothing is
/// discarded. The returned effort has the turns of the executed steps if there is one worker, and 0 turns without an
/// edit. Without an edit since a coherent history, honest or not, no page was compared.
///
/// # Errors
///
/// An error if the host's memory ran out, or a shared part has as many holders as can be counted.
// Not inlined, since its frame holds rounds by value, and would be added to its caller's.
#[inline(never)]
pub fn run_round<R: Threads + Wait + Sync, G: Gate + Sync>(
    rt: &R,
    alloc: Global,
    setup: Setup,
    past: Option<Arc<History>>,
    workers: u32,
    gate: &G,
) -> Result<ClosedRound, AllocError>
    requires { 1 ≤ workers }
    ensures round { IfOk result (λ r.
        IsRoundBy workers setup (option_map arc_value past) r.round r.worker_steps.items) }
    ensures cost { IfOk result
        (λ r. IsCostOf workers setup (option_map arc_value past) r.round r.effort.turns) }
    ensures spares { IfOk result
        (λ r. ComparesNone setup (option_map arc_value past) r.effort.compared) }
{
    if workers == 1 {
        return run_by_first(alloc, setup, past, workers, gate, Effort::new(rt));
    }
    let opened = Round::new(alloc, setup, past)?;
    let worked = run_together::<Brand, R, G>(
        rt,
        alloc,
        opened,
        workers,
        gate,
        Blanks::new(workers),
    )?;
    if worked.round.end().is_some() {
        return Ok(worked);
    }
    run_anew(alloc, worked, workers, gate)
}

/// A round as `run_round` makes it, and the numbers of steps that were read meanwhile. They ascend, and the last is how
/// many steps the round has. If there is one worker, only that number is read.
///
/// # Errors
///
/// An error if the host's memory ran out, or a shared part has as many holders as can be counted.
// Not inlined, since its frame holds rounds by value, and would be added to its caller's.
#[inline(never)]
pub fn run_round_watched<R: Threads + Wait + Sync, G: Gate + Sync>(
    rt: &R,
    alloc: Global,
    setup: Setup,
    past: Option<Arc<History>>,
    workers: u32,
    gate: &G,
) -> Result<(ClosedRound, Vec<u64>), AllocError>
    requires { 1 ≤ workers }
    ensures round { IfOk result (λ r.
        IsRoundBy workers setup (option_map arc_value past) r.0.round r.0.worker_steps.items) }
    ensures cost { IfOk result
        (λ r. IsCostOf workers setup (option_map arc_value past) r.0.round r.0.effort.turns) }
    ensures spares { IfOk result
        (λ r. ComparesNone setup (option_map arc_value past) r.0.effort.compared) }
    ensures progress { IfOk result (λ r. IsProgress workers (length r.0.round.schedule) r.1.items) }
{
    if workers == 1 {
        let alone = run_by_first(alloc, setup, past, workers, gate, Effort::new(rt))?;
        return with_last(alloc, alone);
    }
    let watched = WatchedRound::new(alloc, setup, past)?;
    let (worked, numbers) = run_watched::<Brand, R, G>(
        rt,
        alloc,
        watched,
        workers,
        gate,
        Blanks::new(workers),
    )?;
    if worked.round.end().is_some() {
        return Ok((worked, numbers));
    }
    let anew = run_anew(alloc, worked, workers, gate)?;
    with_last(alloc, anew)
}
