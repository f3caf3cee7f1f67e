//! A round that workers make while a watcher reads how many steps it has.

ghost use Rattle.std.specs.Prelude.{◌≡◌, ◌<◌, ◌≤◌, ◌+◌, All, [], length, vec_len, vec_capacity, Some, None, IfOk};
ghost use Rattle.std.specs.Thread.{IsSync};
ghost use Rattle.std.specs.List.{last_or};
ghost use Rattle.std.specs.List.Sorted.{IsStrictlyIncreasing};
ghost use Rattle.round_spec.specs.declared.TheConstants.{MOST_LOOKS};
ghost use Rattle.round_spec.specs.Rounds.{opening};
ghost use Rattle.rerun_workers.specs.Making.{IsClosed};

use super::board::{Board, ClosedRound};
use super::naming::{Blanks, Naming, Pass};
use super::watching::{Watch, WatchedRound, note, watch_round};
use super::working::work_together;
use ith_host::Gate;
use round_spec::MOST_LOOKS;
use std::alloc::{AllocError, Global};
use std::sync::Wait;
use std::sync::atomic::{AtomicBool, Ordering};
use std::thread::{Threads, join};

/// Workers make the round on the board, each with one of the passes. Meanwhile a watcher reads how many steps it has.
/// Returns the watch, the numbers that were read, and the passes.
fn work_watched<J: Naming + Send + Sync, R: Threads + Wait + Sync, G: Gate + Sync>(
    rt: &R,
    board: &Board<J>,
    mut passes: Vec<Pass<J>>,
    gate: &G,
    seat: Watch<J>,
    numbers: Vec<u64>,
) -> (Watch<J>, Vec<u64>, Vec<Pass<J>>)
    requires some { 0 < vec_len passes }
    requires none { numbers.items ≡ [] }
    requires room { MOST_LOOKS < vec_capacity numbers }
    ensures ascends { IsStrictlyIncreasing result.1.items }
    ensures few { vec_len result.1 ≤ MOST_LOOKS }
    ensures room { vec_capacity result.1 ≡ vec_capacity numbers }
    ensures seen { All (λ n. n ≤ result.0.reader.seen) result.1.items }
    ensures count { vec_len result.2 ≡ vec_len passes }
{
    let alloc = *numbers.allocator();
    let over = AtomicBool::new(false);
    let ((seat, numbers), passes) = join(
        rt,
        || -> (Watch<J>, Vec<u64>)
            requires { numbers.items ≡ [] × (MOST_LOOKS < vec_capacity numbers) }
            ensures ascends { IsStrictlyIncreasing result.1.items }
            ensures few { vec_len result.1 ≤ MOST_LOOKS }
            ensures room { vec_capacity result.1 ≡ vec_capacity numbers }
            ensures seen { All (λ n. n ≤ result.0.reader.seen) result.1.items }
        { watch_round(board, seat, numbers, &over) },
        || -> Vec<Pass<J>>
            requires { IsSync R.row × (0 < vec_len passes) }
            ensures { vec_len result ≡ vec_len passes }
        {
            work_together(rt, alloc, board, passes.as_mut_slice(), gate);
            over.store(true, Ordering::Relaxed);
            passes
        },
    );
    (seat, numbers, passes)
}

/// A round that `workers` workers made together until it was finished, or until the host's memory ran out, and the
/// numbers of steps that a watcher read meanwhile. The last is how many steps the round has.
// Not inlined, since its frame holds rounds by value, and would be added to its caller's.
#[inline(never)]
pub(super) fn run_watched<J: Naming + Send + Sync, R: Threads + Wait + Sync, G: Gate + Sync>(
    rt: &R,
    alloc: Global,
    watched: WatchedRound,
    workers: u32,
    gate: &G,
    blanks: Blanks,
) -> Result<(ClosedRound, Vec<u64>), AllocError>
    requires name { (blanks.ledger.name ≡ J.name) × (blanks.issuer.book ≡ J.tickets) }
    requires parts { (blanks.ledger.parts ≡ J.parts) × (J.parts ≡ workers) }
    requires workers { (workers ≡ J.workers) × (1 ≤ workers) }
    requires watches { J.watches ≡ 1 }
    requires table { (watched.counter.writer.table ≡ J.table) × (watched.counter.writer.added ≡ 0) }
    requires opening { watched.round ≡ opening J.setup J.past }
    ensures closed { IfOk result
        (λ r. IsClosed J.setup J.past r.0.round r.0.worker_steps.items
        r.0.effort.turns r.0.effort.compared) }
    ensures each { IfOk result (λ r. length r.0.worker_steps.items ≡ workers) }
    ensures ascends { IfOk result (λ r. IsStrictlyIncreasing r.1.items) }
    ensures few { IfOk result (λ r. length r.1.items ≤ MOST_LOOKS + 1) }
    ensures last { IfOk result (λ r. last_or None r.1.items ≡ Some (length r.0.round.schedule)) }
{
    let (board, passes, mut seats) = Board::<J>::with_watches(
        rt, alloc, watched, workers, 1, blanks,
    )?;
    let numbers = Vec::with_capacity(alloc, MOST_LOOKS + 1)?;
    let seat = seats.remove(0);
    let (seat, mut numbers, passes) = work_watched(rt, &board, passes, gate, seat, numbers);
    seats.push_reserved(seat);
    let (worked, last) = board.close_watched(passes, seats);
    note(&mut numbers, last);
    Ok((worked, numbers))
}
