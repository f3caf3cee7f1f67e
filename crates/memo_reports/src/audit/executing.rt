//! Claims whose thunks are executed again, side by side.

ghost use Rattle.std.specs.Thread.{IsSync};
ghost use Rattle.std.specs.Prelude.{◌≡◌, ◌<◌, ◌≤◌, [], ◌∷◌, length, IfOk};
ghost use Rattle.machine_spec.specs.declared.TheConstants.{MOST_STEPS};
ghost use Rattle.memo_reports.specs.Claims.{IsFoundIn};

use super::claims::Claim;
use super::same::is_same;
use super::verdict::Verdict;
use rv_isa::Turns;
use std::alloc::{AllocError, Global};
use std::thread::{Threads, join};
use thunk_run::execute;

/// Executes the thunk of a claim, and returns the verdict.
fn audit_one<R: Threads>(rt: &R, alloc: Global, claim: &Claim) -> Result<Verdict, AllocError>
    ensures { IfOk result (IsFoundIn (claim.now ∷ [])) }
{
    let run = execute(alloc, &claim.job, &mut Turns::new(rt))?;
    let first = if is_same(&claim.rec, &run.rec) {
        None
    } else {
        Some(0)
    };
    Ok(Verdict {
        instructions: u64::from(run.rec.count()),
        first,
    })
}

/// Executes the thunks of claims one after the other, and returns the verdict.
fn audit_in_turn<R: Threads>(rt: &R, alloc: Global, claims: &[Claim]) -> Result<Verdict, AllocError>
    requires { length claims.now ≤ MOST_STEPS }
    ensures { IfOk result (IsFoundIn claims.now) }
{
    let mut found = Verdict::of_none();
    for place in 0..claims.len() {
        let one = audit_one(rt, alloc, &claims[place])?;
        found = found.and(place as u32, one);
    }
    Ok(found)
}

/// How many turns some claims state, or the most that can be counted.
fn turns_claimed(claims: &[Claim]) -> u64 {
    let mut turns = 0u64;
    for claim in claims {
        turns = turns.saturating_add(u64::from(claim.rec.count()));
    }
    turns
}

/// The place at which claims are cut in two, so that the first ones state as large a part of all turns as `few` workers
/// are of `all`. What they state may be false: then some worker has more to do.
fn cut_of(claims: &[Claim], few: u32, all: u32) -> usize
    requires some { 2 ≤ length claims.now }
    requires workers { 1 ≤ all }
    ensures front { 1 ≤ result }
    ensures back { result < length claims.now }
{
    let share = (turns_claimed(claims) / u64::from(all)).saturating_mul(u64::from(few));
    let mut turns = 0u64;
    for cut in 1..claims.len() {
        turns = turns.saturating_add(u64::from(claims[cut - 1].rec.count()));
        if turns >= share {
            return cut;
        }
    }
    claims.len() - 1
}

/// Executes the thunks of claims by `workers` workers, each of which has some that follow one another, and returns the
/// verdict. If a worker can't be started, the one that would start it does its part.
///
/// # Errors
///
/// An error if the host's memory ran out, or a shared part has as many holders as can be counted.
pub(super) fn audit_together<R: Threads + Sync>(
    rt: &R,
    alloc: Global,
    claims: &[Claim],
    workers: u32,
) -> Result<Verdict, AllocError>
    requires few { length claims.now ≤ MOST_STEPS }
    ensures { IfOk result (IsFoundIn claims.now) }
{
    if workers < 2 || claims.len() < 2 {
        return audit_in_turn(rt, alloc, claims);
    }
    let some = workers / 2;
    let others = workers - some;
    let cut = cut_of(claims, some, workers);
    let (front, back) = claims.split_at(cut);
    let (first, second) = join(
        rt,
        || -> Result<Verdict, AllocError>
            requires { IsSync R.row × (length front.now ≤ MOST_STEPS) }
            ensures { IfOk result (IsFoundIn front.entry.now) }
        { audit_together(rt, alloc, front, some) },
        || -> Result<Verdict, AllocError>
            requires { IsSync R.row × (length back.now ≤ MOST_STEPS) }
            ensures { IfOk result (IsFoundIn back.entry.now) }
        { audit_together(rt, alloc, back, others) },
    );
    Ok(first?.and(cut as u32, second?))
}
