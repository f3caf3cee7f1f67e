//! Ranges of addresses, and whether their bytes may be read.

ghost use Rattle.std.specs.Prelude.{◌≡◌, ◌+◌, ◌<◌, ◌≤◌, ◌^◌};
ghost use Rattle.memory_spec.specs.Pages.{allows, read_right, permission_at};
ghost use Rattle.thunk_spec.specs.Put.{is_readable};
ghost use Rattle.guest_call.specs.Objects.{appends};

use super::pages::PageMap;

/// Bytes from an address on.
#[derive(Clone, Copy)]
pub struct Range {
    /// The address of the first.
    pub start: u32,
    /// How many.
    pub len: u32,
}

impl Range {
    /// The address of the last byte of a range that has some.
    pub fn last(self) -> u32
        requires some { 0 < self.len }
        requires in_range { self.start + self.len ≤ 2 ^ 32 }
        ensures { self.start + self.len ≡ result + 1 }
    {
        self.start + (self.len - 1)
    }
}

/// Whether the byte at an address may be read.
#[tactic(auto, unfolding(memory_spec::specs::Pages::permission_at))]
fn may_read(map: &PageMap, address: u32) -> bool
    ensures { result ≡ allows read_right (permission_at map.now address) }
{
    match map.slot_of(address) {
        Some(slot) => map.perm(slot).reads(),
        None => false,
    }
}

/// Whether each byte of a range may be read. The range has some bytes, and no more than a page, so
/// that each lies in the page of the first or in that of the last.
#[tactic(auto, using(crate::proofs::Ends::readable_ends))]
fn all_readable(map: &PageMap, range: Range) -> bool
    requires some { 0 < range.len }
    requires few { range.len ≤ 4096 }
    requires in_range { range.start + range.len ≤ 2 ^ 32 }
    ensures { result ≡ is_readable map.now range.start range.len }
{
    let last = range.last();
    let first_is_readable = may_read(map, range.start);
    let last_is_readable = may_read(map, last);
    first_is_readable && last_is_readable
}

/// Whether a put appends its bytes: there are some, no more than 4,096, and all may be read.
pub fn appends_all(map: &PageMap, range: Range) -> bool
    ensures { result ≡ appends (is_readable map.now) range.start range.len }
{
    range.len != 0
        && range.len <= 4096
        && u64::from(range.start) + u64::from(range.len) <= 1 << 32
        && all_readable(map, range)
}
