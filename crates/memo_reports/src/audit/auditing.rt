//! The audit of a history.

ghost use Rattle.std.specs.Prelude.{◌≡◌, None, IfOk};
ghost use Rattle.machine_spec.specs.Setup.{IsSetup};
ghost use Rattle.history_spec.specs.History.{IsHonest};
ghost use Rattle.history_spec.specs.Audit.{IsFirstFalse, IsFirstFalseFrom, turns_of, turns_from};

use super::claims::claims_from;
use super::executing::audit_together;
use super::verdict::Verdict;
use release_core::Core;
use run_history::{History, Records};
use std::alloc::{AllocError, Global};
use std::thread::Threads;

/// The verdict of some records, which are applied from a machine on: the first false one, and how many turns their
/// thunks make.
fn verdict_from<R: Threads + Sync>(
    rt: &R,
    alloc: Global,
    core: &mut Core,
    records: &Records,
    workers: u32,
) -> Result<Verdict, AllocError>
    ensures first { IfOk result (λ verdict. IsFirstFalseFrom core.old records.now verdict.first) }
    ensures instructions { IfOk result (λ verdict. verdict.instructions
        ≡ turns_from core.old records.now) }
{
    let mut found = Verdict::of_none();
    let mut place = 0;
    while place < records.len() {
        let claims = claims_from(alloc, core, records, place)?;
        if claims.is_empty() {
            return Ok(found.closed(place as u32, true));
        }
        let more = audit_together(rt, alloc, claims.as_slice(), workers)?;
        found = found.and(place as u32, more);
        place += claims.len();
    }
    Ok(found.closed(place as u32, core.ended().is_none()))
}

/// Whether a history is honest. Its records are applied one after the other; `workers` workers execute the thunk of
/// each again, side by side, on what the record was applied to, and compare the result with the record. The verdict
/// depends on the history alone, and not on the number of workers or on what they do first. It takes the memory of a
/// run of the history, and of the views of 4,096 steps.
///
/// # Errors
///
/// An error if the host's memory ran out, or a shared part has as many holders as can be counted.
pub fn audit<R: Threads + Sync>(
    rt: &R,
    alloc: Global,
    history: &History,
    workers: u32,
) -> Result<Verdict, AllocError>
    ensures honest { IfOk result (λ verdict. verdict.first ≡ None → IsHonest history.now) }
    ensures untrue { IfOk result (λ verdict. IsHonest history.now → verdict.first ≡ None) }
    ensures first { IfOk result (λ verdict. IsFirstFalse history.now verdict.first) }
    ensures instructions { IfOk result (λ verdict. verdict.instructions ≡ turns_of history.now) }
    ensures sound { IfOk result (λ _. IsSetup history.now.setup) }
{
    history_spec::honest_has_no_false_record();
    history_spec::audits_agree();
    let mut core = Core::new(alloc, history.setup())?;
    verdict_from(rt, alloc, &mut core, history.records(), workers)
}
