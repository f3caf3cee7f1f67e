//! The pool of a memo: the different read pages of a history, and the place of each read page among them.

ghost use Rattle.std.specs.Prelude.{◌≡◌, ◌<◌, ◌≤◌, ◌+◌, ◌*◌, ◌^◌, ◌++◌, [], true, false, map, length, slice_index_or, IfOk, OnOk};
ghost use Rattle.std.specs.List.{fold};
ghost use Rattle.memo_spec.specs.Encoding.{IsEncodable, has_page, with_page, index_in};
ghost use Rattle.memo_file.specs.WritingPool.{pages_lent, bytes_read, places_from, StandsAt, IsIndexed, IsPoolOf};

use page_store::ReadPage;
use run_history::History;
use std::alloc::{AllocError, AllocFailed, Global};
use std::collections::BTreeMap;

/// The different pages so far, in the order in which they came, and how each is found again.
#[derive(Drop)]
struct Known<'a> {
    /// The pages.
    pool: Vec<&'a [u8]>,
    /// The place of each page among them.
    indices: BTreeMap<&'a [u8], u32>,
    /// For each slot the place of the page that was last found there, or any number: most read pages are the same as
    /// before, and one comparison is enough for these.
    hints: Vec<u32>,
}

/// The different read pages of a history in the order of their first use, and the place of each read page among them.
#[derive(Drop)]
pub struct Pool<'a> {
    /// The pages.
    pub pages: Vec<&'a [u8]>,
    /// The places, for all read pages of all records in order.
    pub places: Vec<u32>,
}

/// The place that a page in a slot may have.
fn hint_at(hints: &[u32], slot: usize) -> u32 {
    match hints.get(slot) {
        Some(hint) => *hint,
        None => 0,
    }
}

/// Notes the place of the page that was last found in a slot.
fn note_hint(hints: &mut [u32], slot: usize, place: u32) {
    if slot < hints.len() {
        hints[slot] = place;
    }
}

/// Whether a page is at a place of a pool.
fn stands_at(pool: &[&[u8]], place: u32, page: &[u8]) -> bool
    ensures { result ≡ true → StandsAt (pages_lent pool.now) place page.now }
{
    match pool.get(place as usize) {
        Some(other) => *other == page,
        None => false,
    }
}

/// Appends a page that isn't known yet, and returns its place.
fn push_page<'a>(known: &mut Known<'a>, page: &'a [u8]) -> Result<u32, AllocError>
    requires indexed { IsIndexed known.old.indices (pages_lent known.old.pool.items) }
    requires few { length known.old.pool.items < 2 ^ 32 }
    requires fresh { has_page (pages_lent known.old.pool.items) page.now ≡ false }
    ensures indexed { OnOk result (IsIndexed known.new.indices (pages_lent known.new.pool.items)) }
    ensures pool { OnOk result (pages_lent known.new.pool.items
        ≡ with_page (pages_lent known.old.pool.items) page.now) }
    ensures place { IfOk result (λ place. place
        ≡ index_in (with_page (pages_lent known.old.pool.items) page.now) page.now) }
{
    let place = known.pool.len() as u32;
    known.indices.insert(page, place)?;
    known.pool.push(page)?;
    Ok(place)
}

/// Adds a page to those that are known, and returns its place among them.
fn add_page<'a>(known: &mut Known<'a>, page: &'a [u8]) -> Result<u32, AllocError>
    requires indexed { IsIndexed known.old.indices (pages_lent known.old.pool.items) }
    requires few { length known.old.pool.items < 2 ^ 32 }
    ensures indexed { OnOk result (IsIndexed known.new.indices (pages_lent known.new.pool.items)) }
    ensures pool { OnOk result (pages_lent known.new.pool.items
        ≡ with_page (pages_lent known.old.pool.items) page.now) }
    ensures place { IfOk result (λ place. place
        ≡ index_in (with_page (pages_lent known.old.pool.items) page.now) page.now) }
{
    match known.indices.get(page).copied() {
        Some(place) => Ok(place),
        None => push_page(known, page),
    }
}

/// Adds a read page to those that are known, and returns the place of its bytes among them.
fn add_read<'a>(known: &mut Known<'a>, read: &'a ReadPage) -> Result<u32, AllocError>
    requires indexed { IsIndexed known.old.indices (pages_lent known.old.pool.items) }
    requires few { length known.old.pool.items < 2 ^ 32 }
    ensures indexed { OnOk result (IsIndexed known.new.indices (pages_lent known.new.pool.items)) }
    ensures pool { OnOk result (pages_lent known.new.pool.items
        ≡ with_page (pages_lent known.old.pool.items) read.now.bytes) }
    ensures place { IfOk result (λ place. place
        ≡ index_in (with_page (pages_lent known.old.pool.items) read.now.bytes) read.now.bytes) }
{
    let bytes = read.page().bytes().as_slice();
    let hint = hint_at(&known.hints, read.slot());
    if stands_at(&known.pool, hint, bytes) {
        return Ok(hint);
    }
    let place = add_page(known, bytes)?;
    note_hint(&mut known.hints, read.slot(), place);
    Ok(place)
}

/// Adds the read pages of a record, and notes the place of each.
fn add_reads<'a>(
    known: &mut Known<'a>,
    places: &mut Vec<u32>,
    reads: &'a [ReadPage],
) -> Result<(), AllocError>
    requires indexed { IsIndexed known.old.indices (pages_lent known.old.pool.items) }
    requires few { length known.old.pool.items + length reads.now < 2 ^ 32 }
    ensures indexed { OnOk result (IsIndexed known.new.indices (pages_lent known.new.pool.items)) }
    ensures pool { OnOk result (pages_lent known.new.pool.items
        ≡ fold with_page (pages_lent known.old.pool.items) (bytes_read reads.now)) }
    ensures places { OnOk result (places.new.items
        ≡ places.old.items
        ++ places_from (pages_lent known.old.pool.items) (bytes_read reads.now)) }
    ensures few { OnOk result (length known.new.pool.items
        ≤ length known.old.pool.items + length reads.now) }
{
    for read in reads {
        let place = add_read(known, read)?;
        places.push(place)?;
    }
    Ok(())
}

/// The pool of a history whose page map has this many slots.
pub fn pool_of_history<'a>(
    alloc: Global,
    history: &'a History,
    slots: usize,
) -> Result<Pool<'a>, AllocError>
    requires { IsEncodable history.now }
    ensures { IfOk result
        (λ pool. IsPoolOf history.now (pages_lent pool.pages.items) pool.places.items) }
{
    let mut places = Vec::new(alloc);
    let mut known = Known {
        pool: Vec::new(alloc),
        indices: BTreeMap::new(alloc),
        hints: vec![in alloc; 0; slots]?,
    };
    let records = history.records();
    for place in 0..records.len() {
        add_reads(&mut known, &mut places, records.at(place).reads().pages())?;
    }
    Ok(Pool {
        pages: known.pool,
        places,
    })
}
