//! The facts of a history: what each of its steps does, as far as other steps can depend on it; which of its steps depend
//! on which; and how many of them a change of its setup reaches.
#![tactic(auto)]

ghost use Rattle.std.specs.Prelude.{◌≡◌, ◌&&◌, true, if◌then◌else◌, is_some, IfOk, OnOk};
ghost use Rattle.history_spec.specs.History.{applied_from, can_apply_from, is_coherent};
ghost use Rattle.machine_spec.specs.Step as step;
ghost use Rattle.history_spec.specs.Facts as order;
ghost use Rattle.release_core.specs.Applying.{can_apply};
ghost use Rattle.run_history.specs.Records.{AreOfRun};

mod asking;
mod outline;
mod reaching;
mod replay;
mod serving;
mod slots;

use depend_graph::{Fact, Graph};
use outline::Outline;
pub use reaching::steps_reached;
use replay::Replay;
use run_history::{History, Records};
use std::alloc::{AllocError, Global};
use sync_objects::ActedOn;
use thunk_record::Record;

/// The facts of a history's records, in order, and whether the history is coherent.
#[derive(Drop)]
pub struct HistoryFacts {
    /// The facts.
    pub facts: Vec<Fact>,
    /// Whether each record fits where it is applied, and an end comes after the last one and no earlier.
    pub coherent: bool,
}

/// The fact of a record that doesn't fit, or that follows an end.
fn bare_fact(alloc: Global, rec: &Record) -> Result<Fact, AllocError>
    ensures { IfOk result (λ fact. fact ≡ order.bare_fact rec.now) }
{
    Ok(Fact {
        thread: rec.thread(),
        objects: ActedOn::Nothing,
        given: Vec::new(alloc),
        written: slots::written(alloc, rec)?,
        opened: Vec::new(alloc),
        last: false,
    })
}

/// The fact of the next record, which is applied if it fits and all records before it did.
fn next_fact(
    alloc: Global,
    replay: &mut Replay,
    fits: &mut bool,
    records: &Records,
    rec: &Record,
) -> Result<Fact, AllocError>
    ensures fits { fits.new ≡ (fits.old && can_apply replay.old rec.now) }
    ensures says { IfOk result (λ fact. fact ≡ (if fits.new
        then order.fact_of (order.reads_in records.now) replay.old rec.now
        else order.bare_fact rec.now)) }
    ensures applied { OnOk result (replay.new
        ≡ (if fits.new then step.apply replay.old rec.now else replay.old)) }
{
    *fits = *fits && replay.fits(rec);
    if *fits {
        replay.apply(alloc, records, rec)
    } else {
        bare_fact(alloc, rec)
    }
}

/// The facts of records, which are applied to a machine as far as they fit, and whether all fit and lead to an end.
fn facts_on(
    alloc: Global,
    replay: &mut Replay,
    records: &Records,
) -> Result<HistoryFacts, AllocError>
    ensures facts { IfOk result (λ found. found.facts.items
        ≡ order.facts_from (order.reads_in records.now) replay.old records.now) }
    ensures coherent { IfOk result (λ found. found.coherent
        ≡ (can_apply_from replay.old records.now
        && is_some (applied_from replay.old records.now).ending)) }
    ensures of_run { IfOk result (λ _. AreOfRun records.now) }
{
    let mut facts = Vec::with_capacity(alloc, records.len())?;
    let mut fits = true;
    for place in 0..records.len() {
        let fact = next_fact(alloc, replay, &mut fits, records, records.at(place))?;
        facts.push(fact)?;
    }
    let coherent = fits && replay.has_ended();
    Ok(HistoryFacts { facts, coherent })
}

/// The facts of a history that isn't known to be coherent: each record is applied, as far as they fit.
fn by_applying(alloc: Global, history: &History) -> Result<HistoryFacts, AllocError>
    ensures facts { IfOk result (λ found. found.facts.items ≡ order.facts history.now) }
    ensures coherent { IfOk result (λ found. found.coherent ≡ is_coherent history.now) }
    ensures of_run { IfOk result (λ _. AreOfRun history.now.records) }
{
    let records = history.records();
    let mut replay = Replay::new(alloc, history.setup())?;
    facts_on(alloc, &mut replay, records)
}

/// The facts of a coherent history: no record is compared, and no page is written.
fn known(alloc: Global, history: &History) -> Result<Vec<Fact>, AllocError>
    requires { is_coherent history.now ≡ true }
    ensures facts { IfOk result (λ facts. facts.items ≡ order.facts history.now) }
    ensures of_run { IfOk result (λ _. AreOfRun history.now.records) }
{
    let records = history.records();
    let mut outline = Outline::new(alloc, history.setup())?;
    let mut facts = Vec::with_capacity(alloc, records.len())?;
    for place in 0..records.len() {
        let last = place + 1 == records.len();
        let fact = outline.next(alloc, records, records.at(place), last)?;
        facts.push(fact)?;
    }
    Ok(facts)
}

/// The facts of a history, and whether it is coherent. From the first record on that doesn't fit, or that follows an
/// end, the facts name thread and written pages alone. No page is compared if the history is known to be coherent.
///
/// # Errors
///
/// An error if the host's memory ran out.
pub fn facts(alloc: Global, history: &History) -> Result<HistoryFacts, AllocError>
    ensures facts { IfOk result (λ found. found.facts.items ≡ order.facts history.now) }
    ensures coherent { IfOk result (λ found. found.coherent ≡ is_coherent history.now) }
    ensures of_run { IfOk result (λ _. AreOfRun history.now.records) }
{
    if !history.is_known_coherent() {
        return by_applying(alloc, history);
    }
    let facts = known(alloc, history)?;
    Ok(HistoryFacts {
        facts,
        coherent: true,
    })
}

/// Which steps of a history depend on which.
///
/// # Errors
///
/// An error if the host's memory ran out.
pub fn graph_of(alloc: Global, history: &History) -> Result<Graph, AllocError>
    ensures graph { IfOk result (λ graph. graph ≡ order.facts history.now) }
    ensures of_run { IfOk result (λ _. AreOfRun history.now.records) }
{
    Graph::of(alloc, facts(alloc, history)?.facts)
}
