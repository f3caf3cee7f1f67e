//! Records that are applied, with what their thunks are executed on.

ghost use Rattle.std.specs.Prelude.{◌≡◌, ◌≤◌, ◌+◌, true, false, [], length, drop, slice_get, Some, IfOk, OnOk};
ghost use Rattle.std.specs.Arc.{arc_value};
ghost use Rattle.thunk_spec.specs.Record.{Record as Recorded};
ghost use Rattle.machine_spec.specs.Step as step;
ghost use Rattle.release_core.specs.Applying.{can_apply};
ghost use Rattle.memo_reports.specs.Claims.{IsClaimOf, AreClaims};

use release_core::Core;
use run_history::Records;
use std::alloc::{AllocError, Global};
use std::sync::Arc;
use thunk_record::{Job, Record};

/// The most claims at once: enough for each worker to have work for longer than it takes to start it, and few enough to
/// hold their views.
const MOST_CLAIMS: usize = 4_096;

/// The claim of a record: that this job makes it.
#[derive(Drop)]
pub struct Claim {
    /// The next thunk of the record's thread, at the machine to which the record was applied.
    pub job: Job,
    /// The record.
    pub rec: Arc<Record>,
}

/// Applies a record that can be applied, and returns its claim.
#[tactic(auto, using(crate::proofs::Following::apply_ready, crate::proofs::Following::apply_can))]
fn claim_of(core: &mut Core, rec: &Arc<Record>) -> Result<Claim, AllocError>
    requires { can_apply core.old (arc_value rec.now) ≡ true }
    ensures claim { IfOk result (IsClaimOf core.old (arc_value rec.now)) }
    ensures applied { OnOk result (core.new ≡ step.apply core.old (arc_value rec.now)) }
{
    let job = core.start_of(rec.thread())?;
    let rec = Arc::try_clone(rec)?;
    core.apply(&rec)?;
    Ok(Claim { job, rec })
}

/// Applies the records from a place on, as far as they can be applied, and returns their claims, at most `MOST_CLAIMS`.
/// There is none only if there is no record at the place, or it can't be applied.
///
/// # Errors
///
/// An error if the host's memory ran out, or a shared part has as many holders as can be counted.
pub(super) fn claims_from(
    alloc: Global,
    core: &mut Core,
    records: &Records,
    from: usize,
) -> Result<Vec<Claim>, AllocError>
    requires { from ≤ length records.now }
    ensures claims { IfOk result
        (λ claims. AreClaims core.old (drop from records.now) claims.items core.new) }
    ensures few { IfOk result (λ claims. from + length claims.items ≤ length records.now) }
    ensures none { IfOk result (λ claims. claims.items ≡ [] → (r : Recorded)
        → slice_get records.now from ≡ Some r → can_apply core.old r ≡ false) }
{
    let mut claims = Vec::new(alloc);
    for place in from..records.len() {
        if claims.len() == MOST_CLAIMS {
            return Ok(claims);
        }
        let rec = records.at(place);
        if core.ended().is_some() || !core.fits(rec) {
            return Ok(claims);
        }
        claims.push(claim_of(core, rec)?)?;
    }
    Ok(claims)
}
