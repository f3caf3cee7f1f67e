//! The stored pages of a record.

ghost use Rattle.std.specs.Prelude.{◌≡◌, ◌==◌, ◌+◌, ◌*◌, ◌^◌, ◌<◌, true, not, suc, length, IfOk};
ghost use Rattle.std.specs.List.{count_by, list_any};
ghost use Rattle.memory_spec.specs.Pages.{zero_page, AreAddressable};
ghost use Rattle.memory_spec.specs.Workspace.{no_marks};
ghost use Rattle.thunk_spec.specs.Delta.{chosen, is_stored};
ghost use Rattle.thunk_spec.specs.Ascending.{deltas_ascend};
ghost use Rattle.memo_spec.specs.Reader.{onward, done, chain};
ghost use Rattle.memo_spec.specs.Reading.{marks_of, mask_at, stored_page_at};
ghost use Rattle.memo_file.specs.Filling.{Filled};
ghost use Rattle.memo_file.specs.Gives.{Gives};

use crate::error::ReadError;
use crate::fields::run;
use crate::pages::slot;
use ith_text::Cursor;
use memo_spec::Refusal;
use memory_spec::PAGE_SIZE;
use page_store::{Mask, Page, PageDelta, PageMap, StoredPage};
use std::alloc::Global;

/// How many bytes hold the marks of a page.
const MARK_BYTES: usize = PAGE_SIZE / 8;

/// How many places are marked.
fn count_marks(marks: &[u8]) -> usize
    requires { length marks.now ≡ MARK_BYTES }
    ensures { result ≡ count_by (λ mark. mark) (marks_of marks.now) }
{
    let mut count = 0;
    for byte in marks {
        count += byte.count_ones() as usize;
    }
    count
}

/// Writes bytes, in order, at those of eight places that a byte of marks marks, and marks these. Returns the place of
/// the first byte that wasn't written.
fn fill_eight(
    stored: &mut StoredPage,
    marks: &[u8],
    group: usize,
    bytes: &[u8],
    first: usize,
) -> usize
    requires size { length marks.now ≡ MARK_BYTES }
    requires group { group < MARK_BYTES }
    requires count { length bytes.now ≡ count_by (λ mark. mark) (marks_of marks.now) }
    requires filled { Filled (marks_of marks.now) bytes.now
        (8 * group) stored.old.mask stored.old.page first }
    ensures { Filled (marks_of marks.now) bytes.now
        (8 * group + 8) stored.new.mask stored.new.page result }
{
    let byte = marks[group];
    let mut next = first;
    for bit in 0..8 {
        if (byte >> bit) & 1 == 1 {
            let place = 8 * group + bit;
            stored.mask.set(place);
            stored.page.set(place, bytes[next]);
            next += 1;
        }
    }
    next
}

/// Writes bytes, in order, at the places of a blank page that are marked, and marks these. Eight places without a mark,
/// as most are, are skipped at once.
fn fill(stored: &mut StoredPage, marks: &[u8], bytes: &[u8])
    requires blank { stored.old ≡ record { page = zero_page; mask = no_marks } }
    requires size { length marks.now ≡ MARK_BYTES }
    requires some { list_any (λ byte. not (byte == 0)) marks.now ≡ true }
    requires count { length bytes.now ≡ count_by (λ mark. mark) (marks_of marks.now) }
    ensures some { is_stored stored.new.mask ≡ true }
    ensures mask { stored.new.mask ≡ marks_of marks.now }
    ensures bytes { chosen (marks_of marks.now) stored.new.page ≡ bytes.now }
{
    let mut next = 0;
    for group in 0..MARK_BYTES {
        if marks[group] != 0 {
            next = fill_eight(stored, marks, group, bytes, next);
        }
    }
}

/// Whether any place is marked.
fn has_mark(marks: &[u8]) -> bool
    ensures { result ≡ list_any (λ byte. not (byte == 0)) marks.now }
{
    marks.iter().any(|byte| *byte != 0)
}

/// The marks of a stored page. A page without a mark breaks the rule.
#[tactic(auto, unfolding(memo_spec::specs::Reading::mask_at))]
fn marks<'a>(cursor: &mut Cursor<'a>) -> Result<&'a [u8], ReadError>
    ensures size { IfOk result (λ marks. length marks.now ≡ MARK_BYTES) }
    ensures some { IfOk result (λ marks. list_any (λ byte. not (byte == 0)) marks.now ≡ true) }
    ensures given { Gives (λ marks. (marks_of marks.now, cursor.new)) result (mask_at cursor.old) }
{
    let at = cursor.position();
    let marks = run(cursor, MARK_BYTES)?;
    if has_mark(marks) {
        Ok(marks)
    } else {
        Err(ReadError::Refused(Refusal::Field(at)))
    }
}

/// A stored page, from a slot on.
#[tactic(auto, unfolding(memo_spec::specs::Reading::stored_page_at))]
fn stored_page(
    alloc: Global,
    cursor: &mut Cursor,
    slots: &PageMap,
    low: usize,
) -> Result<PageDelta, ReadError>
    requires small { AreAddressable slots.now }
    ensures mapped { IfOk result (λ d. d.slot < length slots.now) }
    ensures bounded { IfOk result (λ d. length slots.now < 2 ^ 64) }
    ensures given { Gives (λ d. ((d, suc d.slot), cursor.new)) result
        (stored_page_at slots.now low cursor.old) }
{
    let slot = slot(cursor, slots, low)?;
    let marks = marks(cursor)?;
    let bytes = run(cursor, count_marks(marks))?;
    let blank = StoredPage {
        page: Page::zero(),
        mask: Mask::new(),
    };
    let mut stored = Box::new(alloc, blank)?;
    fill(&mut stored, marks, bytes);
    Ok(PageDelta::new(alloc, slot, stored)?)
}

/// The next `count` stored pages, whose slots ascend.
pub fn stored_pages(
    alloc: Global,
    cursor: &mut Cursor,
    slots: &PageMap,
    count: u16,
) -> Result<Vec<PageDelta>, ReadError>
    requires small { AreAddressable slots.now }
    ensures ascend { IfOk result (λ v. deltas_ascend 0 v.items ≡ true) }
    ensures given { Gives (λ v. (v.items, cursor.new)) result
        (onward (chain (stored_page_at slots.now) count 0 cursor.old) (λ x. done x.0)) }
{
    let mut pages = Vec::new(alloc);
    let mut low = 0;
    for _ in 0..count {
        let page = stored_page(alloc, cursor, slots, low)?;
        low = page.slot() + 1;
        pages.push(page)?;
    }
    Ok(pages)
}
