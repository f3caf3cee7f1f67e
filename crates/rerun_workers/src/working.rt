//! A worker: it asks what to do, executes a step, and submits the run.

ghost use Rattle.std.specs.Prelude.{◌≡◌, ◌≢◌, ◌+◌, ◌<◌, ◌≤◌, Some, length, IfOk};
ghost use Rattle.std.specs.Arc.{arc_value};
ghost use Rattle.std.specs.Bool.{OnTrue};
ghost use Rattle.machine_spec.specs.Setup.{first};
ghost use Rattle.history_spec.specs.History.{History};
ghost use Rattle.round_spec.specs.Unedited.{IsUnedited};
ghost use Rattle.thunk_run.specs.Running.{IsRunOf};
ghost use Rattle.rerun_workers.specs.declared.locked.Task.TheVariants as task;
ghost use Rattle.rerun_workers.specs.Passes.{held};
ghost use Rattle.rerun_workers.specs.Tickets.{IsTicketFor, IsTicketOf};
ghost use Rattle.rerun_workers.specs.Locking.{BeginsIn, BeginsNothing, IsReady};

use super::begun::Begun;
use super::board::Board;
use super::locked::{CommitOutcome, Task};
use super::naming::{Naming, Pass};
use ith_host::Gate;
use std::alloc::{AllocError, Global};
use std::sync::Wait;
use std::thread;
use std::thread::Threads;
use thunk_record::Job;
use thunk_run::{Run, Watch, execute_watched};

/// Looks, when a worker's step runs long, whether there is something for another worker, and wakes one.
#[derive(Drop)]
struct Sharing<'a, J: Naming, R: Wait> {
    rt: &'a R,
    board: &'a Board<J>,
}

impl<'a, J: Naming, R: Wait> Watch for Sharing<'a, J, R> {
    fn runs_long(&self) {
        self.board.wake_another(self.rt);
    }
}

/// Runs the thunk of a job, under a watch, for a worker that has executed fewer steps than it was assigned. The counter
/// of its pass counts the turns.
fn run_job<J: Naming, W: Watch>(
    alloc: Global,
    job: &Job,
    pass: &mut Pass<J>,
    watch: &W,
) -> Result<Run, AllocError>
    requires edited { (h : History) → J.past ≡ Some h → IsUnedited h J.setup → ⊥ }
    requires ready { pass.old.ran.number + held pass.old.begun < pass.old.taken.number }
    ensures run { IfOk result (λ run. IsRunOf job.now run) }
    ensures cost { IfOk result (λ run. pass.new.effort.turns
        ≡ pass.old.effort.turns + (arc_value run.rec).kept.count) }
    ensures same { pass.new.steps ≡ pass.old.steps }
    ensures ticket { pass.new.ticket ≡ pass.old.ticket }
{
    let Pass { effort, ran, .. } = pass;
    ran.raise(1);
    execute_watched(alloc, job, &mut effort.turns, watch)
}

/// Passes the gate, executes a job of the round, and submits the run. Returns whether the worker continues.
fn make_step<J: Naming, R: Wait, G: Gate>(
    rt: &R,
    alloc: Global,
    board: &Board<J>,
    pass: &mut Pass<J>,
    gate: &G,
    job: Job,
) -> bool
    requires own { arc_value job.frame ≡ (first J.setup).frame }
    requires edited { (h : History) → J.past ≡ Some h → IsUnedited h J.setup → ⊥ }
    requires ready { pass.old.ran.number + held pass.old.begun < pass.old.taken.number }
    requires ticket { IsTicketOf pass.old.ticket job }
    ensures never_lower { pass.old.steps ≤ pass.new.steps }
{
    gate.enter(job.thread, job.number);
    match run_job(alloc, &job, pass, &Sharing { rt, board }) {
        Ok(run) => {
            match board.commit_taken(rt, pass, run) {
                CommitOutcome::Done => {
                    gate.made(1, false);
                    true
                }
                CommitOutcome::Stale(_) => true,
                CommitOutcome::NoMemory(_) => false,
            }
        }
        Err(_) => {
            board.fail(rt, pass, job);
            false
        }
    }
}

/// What a worker is to do next. The gate is shown how many steps it reused meanwhile.
fn next_task<J: Naming, R: Wait, G: Gate>(
    rt: &R,
    board: &Board<J>,
    pass: &mut Pass<J>,
    gate: &G,
) -> Task
    ensures assigned { result ≢ task.Hold }
    ensures own { BeginsIn (first J.setup).frame result }
    ensures never_lower { pass.old.steps ≤ pass.new.steps }
    ensures unedited { (h : History) → J.past ≡ Some h → IsUnedited h J.setup
        → BeginsNothing result }
    ensures ready { IsReady result
        (pass.new.ran.number + held pass.new.begun) pass.new.taken.number }
    ensures ticket { IsTicketFor pass.new.ticket result }
{
    let before = pass.steps();
    let task = board.next(rt, pass);
    let reused = pass.steps() - before;
    if reused > 0 {
        gate.made(reused, true);
    }
    task
}

/// Makes steps of the round on the board as long as there is nothing to share. Returns whether there is: then the pass
/// holds the step that its worker is to execute first, and another worker has something to do meanwhile. If the round
/// is finished or the host's memory ran out, there is nothing to share.
pub(super) fn make_unshared<J: Naming, R: Wait, G: Gate>(
    rt: &R,
    alloc: Global,
    board: &Board<J>,
    pass: &mut Pass<J>,
    gate: &G,
) -> bool
    ensures holds { OnTrue result (held pass.new.begun ≡ 1) }
    ensures never_lower { pass.old.steps ≤ pass.new.steps }
{
    for _ in rt.forever() {
        let Task::Begin(job) = next_task(rt, board, pass, gate) else {
            return false;
        };
        if board.has_more(rt) {
            let ticket = pass.ticket.take();
            pass.begun = Some(Begun { job, ticket });
            return true;
        }
        if !make_step(rt, alloc, board, pass, gate, job) {
            return false;
        }
    }
    false
}

/// Makes steps of the round on the board until it is finished or the host's memory runs out: asks for a step, passes
/// the gate, executes the step with no lock held, and submits it. A step that its pass already holds comes first. The
/// pass counts the steps that the worker makes, never fewer than before, and the turns that it executes. The worker
/// can't create another counter.
pub fn work<J: Naming, R: Wait, G: Gate>(
    rt: &R,
    alloc: Global,
    board: &Board<J>,
    pass: &mut Pass<J>,
    gate: &G,
)
    ensures never_lower { pass.old.steps ≤ pass.new.steps }
{
    if let Some(Begun { job, ticket }) = pass.begun.take() {
        pass.ticket = ticket;
        if !make_step(rt, alloc, board, pass, gate, job) {
            return;
        }
    }
    for _ in rt.forever() {
        let Task::Begin(job) = next_task(rt, board, pass, gate) else {
            return;
        };
        if !make_step(rt, alloc, board, pass, gate, job) {
            return;
        }
    }
}

/// Workers make the round on the board together, each with one of the passes. No thread is started as long as there is
/// nothing to share: none at all, if the round only reuses.
pub(super) fn work_together<J: Naming + Send + Sync, R: Threads + Wait + Sync, G: Gate + Sync>(
    rt: &R,
    alloc: Global,
    board: &Board<J>,
    passes: &mut [Pass<J>],
    gate: &G,
)
    requires { 0 < length passes.old }
    ensures { length passes.new ≡ length passes.old }
{
    if make_unshared(rt, alloc, board, &mut passes[0], gate) {
        let workers = passes.len();
        thread::for_each_mut(
            rt,
            passes,
            workers,
            &|_, pass| { work(rt, alloc, board, pass, gate) },
        );
    }
}
