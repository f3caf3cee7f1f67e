//! How many bytes a memo has, before any is written.

ghost use Rattle.std.specs.Prelude.{◌≡◌, ◌<◌, ◌≤◌, ◌+◌, ◌*◌, ◌^◌, length, sum_by};
ghost use Rattle.memo_spec.specs.Encoding.{IsEncodable};
ghost use Rattle.memo_file.specs.WritingMasks.{marks_in};
ghost use Rattle.memo_file.specs.WritingSizes.{stored_size, record_size, memo_size, HasFewPages};

use page_store::{MASK_WORDS, Mask, PAGE_SIZE, PageDelta};
use run_history::History;
use thunk_record::Record;

/// How many places are marked.
fn marked_count(mask: &Mask) -> usize
    ensures count { result ≡ marks_in mask.now }
    ensures most { result ≤ PAGE_SIZE }
    ensures whole { length mask.now ≡ PAGE_SIZE }
{
    let mut count = 0;
    for number in 0..MASK_WORDS {
        count += mask.word(number).count_ones() as usize;
    }
    count
}

/// How many bytes encode a stored page.
fn size_of_stored(delta: &PageDelta) -> u64
    ensures size { result ≡ stored_size delta.now }
    ensures most { result ≤ 4612 }
{
    let kept = delta.stored();
    kept.page.bytes();
    516 + marked_count(kept.mask) as u64
}

/// How many bytes encode a record.
fn size_of_record(rec: &Record) -> u64
    requires { HasFewPages rec.now }
    ensures size { result ≡ record_size rec.now }
    ensures most { result < 2 ^ 29 }
{
    let mut size = 266 + 8 * rec.reads().pages().len() as u64;
    for stored in rec.delta().pages() {
        size += size_of_stored(stored);
    }
    size
}

/// How many bytes encode a history whose pool has this many pages.
pub fn size_of_memo(history: &History, pool: usize) -> u64
    requires encodable { IsEncodable history.now }
    requires few { pool < 2 ^ 32 }
    ensures { result ≡ memo_size history.now pool }
{
    let setup = history.setup();
    let records = history.records();
    let mut size = 68 + setup.elf().len() as u64 + setup.input().len() as u64 + 4096 * pool as u64;
    for place in 0..records.len() {
        size += size_of_record(records.at(place));
    }
    size
}
