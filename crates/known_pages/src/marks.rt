//! Marks on the pages that may differ from the history's, while a round continues as its history did.

ghost use Rattle.std.specs.Prelude.{◌≡◌, ◌<◌, ◌≤◌, ◌+◌, ℕ, true, false, is_some, Some, None, option_map, length, slice_get, slice_set, if◌then◌else◌, IfOk};
ghost use Rattle.std.specs.Arc.{arc_value};
ghost use Rattle.thunk_spec.specs.Put.{call_at};
ghost use Rattle.thunk_spec.specs.Record.{Record as OldRecord};
ghost use Rattle.machine_spec.specs.Setup.{IsSetup, first, input_page};
ghost use Rattle.history_spec.specs.History.{History as OldHistory, IsSameProgram, is_coherent};
ghost use Rattle.history_spec.specs.Facts.{written_slots};
ghost use Rattle.history_spec.specs.Facts as facts;
ghost use Rattle.round_spec.specs.Rounds.{opening};
ghost use Rattle.known_pages.specs.Alike.{is_marked, IsAsBefore, IsClean, AreMarksOn, IsInPlace, MayBeMarks, marked};
ghost use Rattle.known_pages.specs.Alike as alike;

use super::inputs::mark_parts;
use guest_call::Call;
use machine_spec::INPUT_PAGES;
use page_store::{PageTable, ReadPage};
use run_history::{History, Setup};
use rv_isa::Regs;
use std::alloc::{AllocError, Global};
use std::sync::Arc;
use thunk_record::Record;
use thunk_spec::ThunkEnd;

/// Marks the page in a slot, if there is one.
pub fn mark(marks: &mut [bool], slot: usize)
    ensures { marks.new ≡ slice_set marks.old slot true }
{
    if slot < marks.len() {
        marks[slot] = true;
    }
}

/// Marks the pages that a record writes.
fn mark_written(marks: &mut [bool], rec: &Record)
    ensures { marks.new ≡ marked marks.old (written_slots rec.now) }
{
    let pages = rec.delta().pages();
    for page in pages {
        mark(marks, page.slot());
    }
}

/// Whether the page in a slot is marked.
fn is_set(marks: &[bool], slot: usize) -> bool
    ensures { result ≡ is_marked marks.now slot }
{
    match marks.get(slot) {
        Some(mark) => *mark,
        None => false,
    }
}

/// Whether none of some read pages is marked.
pub fn all_unmarked(marks: &[bool], reads: &[ReadPage]) -> bool
    ensures { result ≡ alike.all_unmarked marks.now reads.now }
{
    for read in reads {
        if is_set(marks, read.slot()) {
            return false;
        }
    }
    true
}

/// The marks with more pages marked: that of the input's header, which has the slot `header`, if a second input has
/// another length, and each page of the input, behind it, that differs in the second input.
fn with_input(marks: Vec<bool>, header: usize, old: &[u8], new: &[u8]) -> Vec<bool>
    requires { header + 1 + INPUT_PAGES ≤ length marks.items }
    ensures count { length result.items ≡ length marks.items }
    ensures header { is_marked result.items header ≡ false → length old.now ≡ length new.now }
    ensures same { (k : ℕ) → k < INPUT_PAGES → is_marked result.items (header + 1 + k) ≡ false
        → input_page new.now k ≡ input_page old.now k }
{
    let mut marks = marks;
    if old.len() != new.len() {
        mark(&mut marks, header);
    }
    mark_parts(&mut marks, header + 1, old, new);
    marks
}

/// Marks on the pages that differ between the start memories of two setups of one program: on the input's header and
/// pages, whose bytes are compared only if the inputs differ.
fn marks_between(
    alloc: Global,
    old: &Setup,
    new: &Setup,
    memory: &PageTable,
) -> Result<Vec<bool>, AllocError>
    requires same { IsSameProgram old.now new.now }
    requires memory { memory.now ≡ (first new.now).memory }
    ensures marks { IfOk result
        (λ marks. AreMarksOn (first old.now).memory (first new.now).memory marks.items) }
    ensures clean { old.now ≡ new.now → IfOk result (λ marks. IsClean marks.items) }
    ensures valid { IfOk result (λ _. IsSetup old.now) }
{
    let marks = vec![in alloc; false; memory.len()]?;
    if old.input() == new.input() {
        return Ok(marks);
    }
    let header = new.image().pages.len();
    Ok(with_input(marks, header, old.input(), new.input()))
}

/// Whether two setups are of one executable and one fuel.
fn is_same_program(old: &Setup, new: &Setup) -> bool
    ensures program { result ≡ true → IsSameProgram old.now new.now }
    ensures fuel { result ≡ true → old.now.fuel ≡ new.now.fuel }
    ensures same { old.now ≡ new.now → result ≡ true }
{
    old.fuel() == new.fuel() && old.elf() == new.elf()
}

/// Marks for a round of a setup that starts with this memory and is based on a history, if there is one; `coherent`
/// says whether that is coherent. There are no marks if the round can't continue as a history did: there is none, it
/// isn't coherent, or it is of another program or fuel.
///
/// # Errors
///
/// An error if the host's memory ran out.
pub fn marks_at_start(
    alloc: Global,
    past: &Option<Arc<History>>,
    coherent: bool,
    setup: &Setup,
    memory: &PageTable,
) -> Result<Option<Vec<bool>>, AllocError>
    requires memory { memory.now ≡ (first setup.now).memory }
    requires coherent { (h : OldHistory) → option_map arc_value past.now ≡ Some h
        → coherent ≡ is_coherent h }
    ensures { IfOk result (IsAsBefore (opening setup.now (option_map arc_value past.now))) }
{
    match past {
        Some(history) if coherent && is_same_program(history.setup(), setup) => {
            let marks = marks_between(alloc, history.setup(), setup, memory)?;
            Ok(Some(marks))
        }
        _ => Ok(None),
    }
}

/// Whether the ECALLs at these registers make the same call, with the same arguments.
fn is_same_call(old: &Regs, new: &Regs) -> bool
    ensures call { result ≡ true → call_at new.now ≡ call_at old.now }
    ensures some { result ≡ true → is_some (call_at old.now) ≡ true }
{
    new.get(17) == old.get(17)
        && new.get(10) == old.get(10)
        && new.get(11) == old.get(11)
        && Call::of(old.get(17), old.get(10), old.get(11)).is_some()
}

/// Whether two records are of the same thread, and end with the same call.
#[tactic(auto, using(crate::proofs::Alike::same_ask))]
fn is_alike(old: &Record, new: &Record) -> bool
    ensures thread { result ≡ true → new.now.thread ≡ old.now.thread }
    ensures ask { result ≡ true → facts.ask_of new.now ≡ facts.ask_of old.now }
{
    match (old.end(), new.end()) {
        (ThunkEnd::Call, ThunkEnd::Call) => {
            old.thread() == new.thread() && is_same_call(old.finish(), new.finish())
        }
        _ => false,
    }
}

/// The marks, if a condition holds, and else none.
pub fn marks_if(marks: Option<Vec<bool>>, holds: bool) -> Option<Vec<bool>>
    ensures { result ≡ (if holds then marks else None) }
{
    if holds { marks } else { None }
}

/// Whether a round that keeps marks continues as its history did with an executed step: the record in the step's place
/// is of the same thread, and ends with the same call.
pub fn is_in_place(
    marks: &Option<Vec<bool>>,
    past: &Option<Arc<History>>,
    place: usize,
    rec: &Record,
) -> bool
    ensures place { result ≡ true → IsInPlace (option_map arc_value past.now) place rec.now }
    ensures marks { result ≡ true → is_some marks.now ≡ true }
{
    match past {
        Some(history) if place < history.records().len() => {
            marks.is_some() && is_alike(history.records().at(place), rec)
        }
        _ => false,
    }
}

/// The marks with the pages that a record writes marked too.
fn with_written(marks: Vec<bool>, rec: &Record) -> Vec<bool>
    ensures { result.items ≡ marked marks.items (written_slots rec.now) }
{
    let mut marks = marks;
    mark_written(&mut marks, rec);
    marks
}

/// The marks with the pages marked too that the record in a place of a history writes, if there is one.
fn with_old(marks: Vec<bool>, past: &Option<Arc<History>>, place: usize) -> Vec<bool>
    ensures { (h : OldHistory) → (r : OldRecord) → option_map arc_value past.now ≡ Some h
        → slice_get h.records place ≡ Some r → result.items ≡ marked marks.items (written_slots r) }
{
    match past {
        Some(history) if place < history.records().len() => {
            with_written(marks, history.records().at(place))
        }
        _ => marks,
    }
}

/// The marks after an executed step. If it is in the place of a history's record, the pages that either writes are
/// marked too; else there are none.
pub fn marks_after(
    marks: Option<Vec<bool>>,
    past: &Option<Arc<History>>,
    place: usize,
    rec: &Record,
    in_place: bool,
) -> Option<Vec<bool>>
    requires { in_place ≡ true → IsInPlace (option_map arc_value past.now) place rec.now }
    ensures marks { MayBeMarks (option_map arc_value past.now) place rec.now marks result }
    ensures kept { in_place ≡ true → is_some marks ≡ true → is_some result ≡ true }
{
    match marks_if(marks, in_place) {
        Some(marks) => Some(with_written(with_old(marks, past, place), rec)),
        None => None,
    }
}
