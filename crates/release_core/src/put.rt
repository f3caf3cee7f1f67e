//! The bytes that a put appends to the output.

ghost use Rattle.std.specs.Prelude.{◌≡◌, ◌+◌, ◌/◌, ◌%◌, ◌≤◌, ◌^◌, ◌<◌, ◌++◌, ℕ, true, length, slice_index, IfOk, OnOk};
ghost use Rattle.std.specs.List.{range_with_len};
ghost use Rattle.thunk_spec.specs.Put.{byte_at, bytes_at, is_readable};
ghost use Rattle.thunk_spec.specs.Delta.{masked};
ghost use Rattle.thunk_spec.specs.Record.{put_of};

use page_store::{Page, PageMap, PageTable, Range, committed_page};
use std::alloc::{AllocError, Global};
use thunk_record::{Record, put_range};

/// The page of an address, in a thread's view with the stored bytes of a thunk applied; a page of zeros if there is
/// none. No other page is read.
#[inline(never)]
#[tactic(auto, using(crate::proofs::Putting::same_page, crate::proofs::Putting::no_page))]
fn page_at(map: &PageMap, view: &PageTable, rec: &Record, address: u32) -> Page
    requires { length view.now ≡ length map.now }
    ensures { (a : ℕ) → a / 4096 ≡ address / 4096
        → slice_index result (a % 4096) ≡ byte_at map.now (masked view.now rec.now.kept.delta) a }
{
    match map.slot_of(address) {
        Some(slot) => committed_page(view, rec.delta(), slot),
        None => Page::zero(),
    }
}

/// Appends the bytes of a part of one page.
#[inline(never)]
fn push_part(
    bytes: &mut Vec<u8>,
    map: &PageMap,
    view: &PageTable,
    rec: &Record,
    part: Range,
) -> Result<(), AllocError>
    requires within { part.start % 4096 + part.len ≤ 4096 }
    requires pages { length view.now ≡ length map.now }
    ensures { OnOk result (bytes.new.items ≡ bytes.old.items
        ++ bytes_at map.now (masked view.now rec.now.kept.delta)
        (range_with_len part.start part.len)) }
{
    let offset = (part.start % 4096) as usize;
    let page = page_at(map, view, rec, part.start);
    bytes.extend_from_slice(&page.bytes()[offset..offset + part.len as usize])?;
    Ok(())
}

/// The bytes of a range that has no more than a page: each is in the page of the first or in that of the last.
fn bytes_of(
    alloc: Global,
    map: &PageMap,
    view: &PageTable,
    rec: &Record,
    range: Range,
) -> Result<Vec<u8>, AllocError>
    requires few { range.len ≤ 4096 }
    requires in_range { range.start + range.len ≤ 2 ^ 32 }
    requires pages { length view.now ≡ length map.now }
    ensures { IfOk result (λ bytes. bytes.items
        ≡ bytes_at map.now (masked view.now rec.now.kept.delta)
        (range_with_len range.start range.len)) }
{
    let Range { start, len } = range;
    let first = len.min(4096 - start % 4096);
    let mut bytes = Vec::with_capacity(alloc, len as usize)?;
    push_part(&mut bytes, map, view, rec, Range { start, len: first })?;
    if first < len {
        let rest = Range {
            start: start + first,
            len: len - first,
        };
        push_part(&mut bytes, map, view, rec, rest)?;
    }
    Ok(bytes)
}

/// The bytes that the put which ends a kept thunk appends, read in the thread's view with the thunk's stored bytes
/// applied; none if no put ends it. At most two pages are made for it.
#[tactic(auto, unfolding(thunk_spec::specs::Record::put_of))]
pub fn put_bytes(
    alloc: Global,
    map: &PageMap,
    view: &PageTable,
    rec: &Record,
) -> Result<Vec<u8>, AllocError>
    requires { length view.now ≡ length map.now }
    ensures { IfOk result (λ bytes. bytes.items ≡ put_of map.now view.now rec.now.kept) }
{
    let range = put_range(map, rec.end(), rec.finish());
    if range.len == 0 {
        return Ok(Vec::new(alloc));
    }
    bytes_of(alloc, map, view, rec, range)
}
