//! How many steps of a history a change of its setup reaches.

ghost use Rattle.std.specs.Prelude.{◌≡◌, ◌<◌, ◌≤◌, Bool, not, length, count_by, option_map, Some, IfOk};
ghost use Rattle.std.specs.Arc.{arc_value};
ghost use Rattle.std.specs.Str.{bytes_eq};
ghost use Rattle.memory_spec.specs.Pages.{page_of};
ghost use Rattle.history_spec.specs.Facts.{read_slots as slots_read};
ghost use Rattle.round_spec.specs.Reach.{reads_of, changed_slots, changed, reached_count};
ghost use Rattle.run_history.specs.Records.{AreOfRun};
ghost use Rattle.depend_graph.specs.Reaching.{slots_of_each};

use super::graph_of;
use depend_graph::MOST_FACTS;
use page_store::PageTable;
use release_core::Core;
use run_history::{History, Setup};
use std::alloc::{AllocError, Global};
use std::sync::Arc;
use thunk_record::Record;

/// The slots of the pages that a step read.
fn read_slots(alloc: Global, rec: &Record) -> Result<Vec<usize>, AllocError>
    ensures { IfOk result (λ slots. slots.items ≡ slots_read rec.now) }
{
    rec.reads()
        .pages()
        .iter()
        .map(|page| page.slot())
        .collect(alloc)
}

/// The slots of the pages that each step of a history read.
fn all_read_slots(alloc: Global, history: &History) -> Result<Vec<Vec<usize>>, AllocError>
    ensures slots { IfOk result (λ reads. slots_of_each reads.items ≡ reads_of history.now) }
    ensures of_run { IfOk result (λ _. AreOfRun history.now.records) }
{
    let records = history.records();
    let mut reads = Vec::with_capacity(alloc, records.len())?;
    for i in 0..records.len() {
        reads.push(read_slots(alloc, records.at(i))?)?;
    }
    Ok(reads)
}

/// Whether a page of a memory differs in a second one, which may be shorter.
fn differs(old: &PageTable, new: &PageTable, slot: usize) -> bool
    requires { slot < length old.now }
    ensures { result ≡ not (bytes_eq (page_of old.now slot) (page_of new.now slot)) }
{
    let page = old.page(slot);
    slot >= new.len() || *page != *new.page(slot)
}

/// The slots of a memory's pages that differ in a second one.
fn slots_that_differ(
    alloc: Global,
    old: &PageTable,
    new: &PageTable,
) -> Result<Vec<usize>, AllocError>
    ensures { IfOk result (λ slots. slots.items ≡ changed_slots old.now new.now) }
{
    (0..old.len())
        .filter(|slot| differs(old, new, *slot))
        .collect(alloc)
}

/// The slots of the pages where the start memories of two setups differ.
#[tactic(auto, unfolding(round_spec::specs::Reach::changed, machine_spec::specs::Setup::first))]
fn slots_changed(alloc: Global, old: &Setup, new: &Setup) -> Result<Vec<usize>, AllocError>
    ensures { IfOk result (λ slots. slots.items ≡ changed old.now new.now) }
{
    let before = Core::new(alloc, old)?;
    let after = Core::new(alloc, new)?;
    slots_that_differ(alloc, before.memory(), after.memory())
}

/// How many of some flags are set.
fn count_set(flags: &[bool]) -> u32
    requires { length flags.now ≤ MOST_FACTS }
    ensures { result ≡ count_by (λ (flag : Bool). flag) flags.now }
{
    flags.iter().filter(|flag| **flag).count() as u32
}

/// How many steps of this history are reached by a setup in place of its own.
fn reached_in(alloc: Global, history: &History, setup: &Setup) -> Result<u32, AllocError>
    ensures { IfOk result (λ steps. steps ≡ reached_count (Some history.now) setup.now) }
{
    let graph = graph_of(alloc, history)?;
    let reads = all_read_slots(alloc, history)?;
    let changed = slots_changed(alloc, history.setup(), setup)?;
    let flags = graph.reach(&reads, &changed)?;
    Ok(count_set(&flags))
}

/// How many steps of a history are reached by a setup in place of its own, and 0 if there is no history.
///
/// # Errors
///
/// An error if the host's memory ran out.
pub fn steps_reached(
    alloc: Global,
    past: Option<&Arc<History>>,
    setup: &Setup,
) -> Result<u32, AllocError>
    ensures { IfOk result (λ steps. steps
        ≡ reached_count (option_map (λ h. arc_value h.now) past.entry) setup.now) }
{
    match past {
        Some(history) => reached_in(alloc, history, setup),
        None => Ok(0),
    }
}
