//! The pages that a step touches.

ghost use Rattle.std.specs.Prelude.{◌≡◌, ◌<◌, All, map, get_or, true, IfOk};
ghost use Rattle.thunk_spec.specs.Delta.{PageDelta as Stored};
ghost use Rattle.thunk_spec.specs.Reads.{ReadPage as Read};
ghost use Rattle.history_spec.specs.History.{IsMappedIn};
ghost use Rattle.history_spec.specs.Facts as order;
ghost use Rattle.memo_reports.specs.Touches.{ascends, touches_in};

use page_store::{PageDelta, ReadPage};
use std::alloc::{AllocError, Global};
use thunk_record::Record;

/// A page that a step touches.
#[derive(Clone, Copy)]
pub struct Touch {
    /// The slot of the page.
    pub slot: usize,
    /// Whether the step writes the page; if not, its own thunk reads it.
    pub writes: bool,
}

/// The slot at a place, or `pages` if there is none.
fn slot_at(slots: &[usize], place: usize, pages: usize) -> usize
    ensures { result ≡ get_or slots.now place pages }
{
    match slots.get(place) {
        Some(slot) => *slot,
        None => pages,
    }
}

/// The slots of read pages.
fn read_slots(alloc: Global, pages: &[ReadPage]) -> Result<Vec<usize>, AllocError>
    ensures { IfOk result (λ slots. slots.items ≡ map (λ (p : Read). p.slot) pages.now) }
{
    pages.iter().map(|page| page.slot()).collect(alloc)
}

/// The slots of pages that were stored to.
fn written_slots(alloc: Global, pages: &[PageDelta]) -> Result<Vec<usize>, AllocError>
    ensures { IfOk result (λ slots. slots.items ≡ map (λ (d : Stored). d.slot) pages.now) }
{
    pages.iter().map(|page| page.slot()).collect(alloc)
}

/// The pages in slots that are read, and in slots that are written, in ascending order and each once.
fn merged(
    alloc: Global,
    reads: &[usize],
    written: &[usize],
    pages: usize,
) -> Result<Vec<Touch>, AllocError>
    requires reads { ascends 0 reads.now ≡ true }
    requires written { ascends 0 written.now ≡ true }
    requires reads_mapped { All (λ p. p < pages) reads.now }
    requires written_mapped { All (λ p. p < pages) written.now }
    ensures { IfOk result (λ touches. touches.items ≡ touches_in pages reads.now written.now) }
{
    let mut touches = Vec::new(alloc);
    let mut next_read = 0;
    let mut next_written = 0;
    while next_read < reads.len() || next_written < written.len() {
        let read = slot_at(reads, next_read, pages);
        let write = slot_at(written, next_written, pages);
        let slot = read.min(write);
        touches.push(Touch {
            slot,
            writes: write == slot,
        })?;
        next_read += usize::from(read == slot);
        next_written += usize::from(write == slot);
    }
    Ok(touches)
}

/// The pages that the step of a record touches: it writes them, or its own thunk has read them. They ascend, and each
/// is there once.
///
/// # Errors
///
/// An error if the host's memory ran out.
pub fn touches_of(alloc: Global, rec: &Record, pages: usize) -> Result<Vec<Touch>, AllocError>
    requires { IsMappedIn pages rec.now }
    ensures { IfOk result (λ touches. touches.items
        ≡ touches_in pages (order.read_slots rec.now) (order.written_slots rec.now)) }
{
    let reads = read_slots(alloc, rec.reads().pages())?;
    let written = written_slots(alloc, rec.delta().pages())?;
    let touches = merged(alloc, &reads, &written, pages)?;
    Ok(touches)
}
