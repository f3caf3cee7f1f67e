//! A thunk run on a view.

ghost use Rattle.std.specs.Prelude.{◌≡◌, ◌+◌, ◌≤◌, IfOk};
ghost use Rattle.std.specs.Arc.{arc_value};
ghost use Rattle.memory_spec.specs.Pages.{IsMemory};
ghost use Rattle.thunk_spec.specs.Record.{kept_thunk};
ghost use Rattle.thunk_run.specs.Running.{IsRunOf, IsWithinFuel};

use super::run::Run;
use super::turns::make_thunk;
use super::watch::{Unwatched, Watch};
use priv_space::Space;
use rv_isa::Turns;
use std::alloc::{AllocError, Global};
use std::sync::Arc;
use thunk_record::{Job, Kept, Record};

/// Runs the thunk of a job, and returns what is kept of it. The watch is called if it runs long.
///
/// # Errors
///
/// An error if the host's memory ran out, or a shared part has as many holders as can be counted.
fn run_thunk<W: Watch>(
    alloc: Global,
    job: &Job,
    turns: &mut Turns,
    watch: &W,
) -> Result<Kept, AllocError>
    ensures cost { IfOk result (λ kept. turns.new ≡ turns.old + kept.count) }
    ensures never_lower { turns.old ≤ turns.new }
    ensures kept { IfOk result (λ kept.
        kept ≡ kept_thunk (arc_value job.now.frame) (arc_value job.now.view) job.now.regs) }
    ensures whole { IsMemory (arc_value job.now.frame).map (arc_value job.now.view) }
{
    let mut space = Space::new(alloc, &job.view, job.frame.shared_map())?;
    let mut regs = job.regs;
    let turned = make_thunk(alloc, &job.frame, &mut regs, &mut space, turns, watch)?;
    let reads = space.reads()?;
    let delta = space.into_delta()?;
    Ok(Kept {
        reads,
        delta,
        finish: regs,
        end: turned.end,
        count: turned.count,
    })
}

/// Runs the thunk of a job on its view: turns until an ECALL, a trap or the end of the fuel, and the bytes that a put
/// takes. The view doesn't change; what was stored is in the record. The counter rises by the number of turns: at least
/// one, if there is any fuel, and no more than the fuel.
///
/// # Errors
///
/// An error if the host's memory ran out, or a shared part has as many holders as can be counted; the counter may have
/// risen, and is never lower.
pub fn execute(alloc: Global, job: &Job, turns: &mut Turns) -> Result<Run, AllocError>
    ensures run { IfOk result (λ run. IsRunOf job.now run) }
    ensures within { IfOk result
        (λ run. IsWithinFuel (arc_value job.now.frame).fuel (arc_value run.rec).kept.count) }
    ensures cost { IfOk result (λ run. turns.new ≡ turns.old + (arc_value run.rec).kept.count) }
    ensures never_lower { turns.old ≤ turns.new }
{
    execute_watched(alloc, job, turns, &Unwatched)
}

/// Runs the thunk of a job as `execute` does, and calls a watch if it runs long.
///
/// # Errors
///
/// An error if the host's memory ran out, or a shared part has as many holders as can be counted; the counter may have
/// risen, and is never lower.
#[tactic(auto, using(crate::proofs::Counting::kept_within))]
pub fn execute_watched<W: Watch>(
    alloc: Global,
    job: &Job,
    turns: &mut Turns,
    watch: &W,
) -> Result<Run, AllocError>
    ensures run { IfOk result (λ run. IsRunOf job.now run) }
    ensures within { IfOk result
        (λ run. IsWithinFuel (arc_value job.now.frame).fuel (arc_value run.rec).kept.count) }
    ensures cost { IfOk result (λ run. turns.new ≡ turns.old + (arc_value run.rec).kept.count) }
    ensures never_lower { turns.old ≤ turns.new }
{
    let kept = run_thunk(alloc, job, turns, watch)?;
    let rec = Record::new(job.thread, job.number, job.regs, kept);
    let rec = Arc::new(alloc, rec)?;
    let frame = Arc::try_clone(&job.frame)?;
    thunk_spec::kept_is_true();
    Ok(Run { frame, rec })
}
