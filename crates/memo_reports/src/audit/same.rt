//! Whether two records are the same.

ghost use Rattle.std.specs.Prelude.{◌≡◌, Decides, length};
ghost use Rattle.memory_spec.specs.declared.TheConstants.{PAGE_SIZE};

use page_store::{MASK_WORDS, Mask, PageDelta, ReadPage};
use thunk_record::Record;

/// Whether two pages were read in the same slot, with the same bytes.
fn is_same_read(a: &ReadPage, b: &ReadPage) -> bool
    ensures { Decides result (a.now ≡ b.now) }
{
    a.slot() == b.slot() && a.page() == b.page()
}

/// Whether the same pages were read.
fn are_same_reads(a: &[ReadPage], b: &[ReadPage]) -> bool
    ensures { Decides result (a.now ≡ b.now) }
{
    if a.len() != b.len() {
        return false;
    }
    for place in 0..a.len() {
        if !is_same_read(&a[place], &b[place]) {
            return false;
        }
    }
    true
}

/// Whether two masks mark the same places, 64 places at a time.
fn is_same_mask(a: &Mask, b: &Mask) -> bool
    ensures same { Decides result (a.now ≡ b.now) }
    ensures whole { length a.now ≡ PAGE_SIZE }
{
    for number in 0..MASK_WORDS {
        if a.word(number) != b.word(number) {
            return false;
        }
    }
    true
}

/// Whether the same bytes were stored to a page: in the same slot, at the same places, and the one's bytes, written
/// over the other's, change none.
fn is_same_delta(a: &PageDelta, b: &PageDelta) -> bool
    ensures { Decides result (a.now ≡ b.now) }
{
    let mine = a.stored();
    let theirs = b.stored();
    if a.slot() != b.slot() || !is_same_mask(mine.mask, theirs.mask) {
        return false;
    }
    let mut merged = *theirs.page.bytes();
    mine.mask.merge(&mut merged, mine.page.bytes());
    merged == *theirs.page.bytes()
}

/// Whether the same bytes were stored.
fn are_same_deltas(a: &[PageDelta], b: &[PageDelta]) -> bool
    ensures { Decides result (a.now ≡ b.now) }
{
    if a.len() != b.len() {
        return false;
    }
    for place in 0..a.len() {
        if !is_same_delta(&a[place], &b[place]) {
            return false;
        }
    }
    true
}

/// Whether two thunks read and stored the same.
fn has_same_pages(a: &Record, b: &Record) -> bool
    ensures { Decides result ((a.now.kept.reads ≡ b.now.kept.reads)
        × (a.now.kept.delta ≡ b.now.kept.delta)) }
{
    are_same_reads(a.reads().pages(), b.reads().pages())
        && are_same_deltas(a.delta().pages(), b.delta().pages())
}

/// Whether two thunks ended with the same registers, in the same way, and after as many turns.
fn has_same_end(a: &Record, b: &Record) -> bool
    ensures { Decides result ((a.now.kept.finish ≡ b.now.kept.finish)
        × ((a.now.kept.end ≡ b.now.kept.end) × (a.now.kept.count ≡ b.now.kept.count))) }
{
    a.finish() == b.finish() && a.end() == b.end() && a.count() == b.count()
}

/// Whether two thunks are the same step of the same thread, and began with the same registers.
fn has_same_start(a: &Record, b: &Record) -> bool
    ensures { Decides result ((a.now.thread ≡ b.now.thread)
        × ((a.now.number ≡ b.now.number) × (a.now.start ≡ b.now.start))) }
{
    a.thread() == b.thread() && a.number() == b.number() && a.start() == b.start()
}

/// Whether two records are the same: the thread, its number of steps, the first registers, the read pages, the stored
/// bytes, the last registers, the end, and the count of turns. Allocates no memory.
pub(super) fn is_same(a: &Record, b: &Record) -> bool
    ensures { Decides result (a.now ≡ b.now) }
{
    has_same_start(a, b) && has_same_end(a, b) && has_same_pages(a, b)
}
