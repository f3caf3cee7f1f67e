//! The segments of a file, and the bytes that they give a page.

ghost use Rattle.std.specs.Prelude.{◌≡◌, ◌<◌, ◌≤◌, ◌*◌, ◌+◌, ◌-◌, ℕ, [], ◌∷◌, ◌++◌, if◌then◌else◌, true, map, filter, length, slice_index, IfOk, OnOk, Some};
ghost use Rattle.elf_spec.specs.Header.{segments};
ghost use Rattle.elf_spec.specs.Header as segment_header;
ghost use Rattle.elf_spec.specs.Segments as segment;
ghost use Rattle.elf_spec.specs.Image.{segment_byte, image_page};
ghost use Rattle.memory_spec.specs.Pages.{zero_page};
ghost use Rattle.elf_load.specs.Header.{header_of};
ghost use Rattle.elf_load.specs.Place as place;

use crate::header::{Header, header_at, header_count, is_segment};
use crate::pages::touches;
use page_store::PAGE_SIZE;
use std::alloc::{AllocError, Global};

/// The headers of the segments, in their order.
pub fn segments_of(alloc: Global, bytes: &[u8]) -> Result<Vec<Header>, AllocError>
    ensures { IfOk result (λ found. map header_of found.items ≡ segments bytes.now) }
{
    let mut found = Vec::new(alloc);
    for i in 0..header_count(bytes) {
        push_segment(&mut found, header_at(bytes, i))?;
    }
    Ok(found)
}

/// Appends a header, if it is a segment's.
fn push_segment(found: &mut Vec<Header>, header: Header) -> Result<(), AllocError>
    ensures { OnOk result (found.new.items
        ≡ (if segment_header.is_segment (header_of header) then found.old.items ++ header ∷ []
        else found.old.items)) }
{
    if is_segment(header) {
        found.push(header)?;
    }
    Ok(())
}

/// The headers of the segments that touch the page of a number, in their order.
pub fn segments_on(
    alloc: Global,
    headers: &[Header],
    number: u32,
) -> Result<Vec<Header>, AllocError>
    ensures { IfOk result (λ found. found.items
        ≡ filter (λ header. segment.touches number (header_of header)) headers.now) }
{
    let mut found = Vec::new(alloc);
    for header in headers {
        push_touching(&mut found, *header, number)?;
    }
    Ok(found)
}

/// Appends a header, if it touches the page of a number.
fn push_touching(found: &mut Vec<Header>, header: Header, number: u32) -> Result<(), AllocError>
    ensures { OnOk result (found.new.items
        ≡ (if segment.touches number (header_of header) then found.old.items ++ header ∷ []
        else found.old.items)) }
{
    if touches(number, header) {
        found.push(header)?;
    }
    Ok(())
}

/// The offset of an address on the page of a number; for one that isn't there, the nearer end of the page.
fn offset_on(number: u32, address: u64) -> usize
    ensures { result ≡ place.offset_on number address }
{
    let start = u64::from(number) * PAGE_SIZE as u64;
    address.saturating_sub(start).min(PAGE_SIZE as u64) as usize
}

/// Where in the file a segment's byte at an address is; for an address without one, the nearer end of its bytes.
fn place_in_file(bytes: &[u8], header: Header, address: u64) -> usize
    ensures { result ≡ place.place_in_file bytes.now (header_of header) address }
{
    let count = u64::from(header.filesz.min(header.memsz));
    let before = count.min(address.saturating_sub(u64::from(header.vaddr)));
    bytes
        .len()
        .min((u64::from(header.offset) + before) as usize)
}

/// The bytes of the file that a segment has on the page of a number.
fn part_on(bytes: &[u8], header: Header, number: u32) -> &[u8]
    ensures within { place.offset_on number header.vaddr + length result.now
        ≤ place.offset_on number (header.vaddr + header.memsz) }
    ensures each { (k : ℕ) → k < segment.page_size
        → segment.has_address (header_of header) (segment.page_size * number + k) ≡ true
        → slice_index result.now (k - place.offset_on number header.vaddr)
        ≡ segment_byte bytes.now (Some (header_of header)) (segment.page_size * number + k) }
{
    let start = u64::from(number) * PAGE_SIZE as u64;
    let first = place_in_file(bytes, header, start);
    let end = place_in_file(bytes, header, start + PAGE_SIZE as u64);
    &bytes[first..end]
}

/// Whether no segment has bytes of the file on the page of a number: the page is then one of zeros.
pub fn is_blank(bytes: &[u8], near: &[Header], number: u32) -> bool
    requires { map header_of near.now ≡ filter (segment.touches number) (segments bytes.now) }
    ensures { result ≡ true → image_page bytes.now number ≡ zero_page }
{
    near.iter()
        .all(|header| part_on(bytes, *header, number).is_empty())
}

/// Writes a segment into the page of a number: its bytes of the file there, and zeros after them.
fn write_segment(page: &mut [u8; PAGE_SIZE], bytes: &[u8], header: Header, number: u32)
    ensures { (k : ℕ) → k < segment.page_size
        → slice_index page.new k
        ≡ (if segment.has_address (header_of header) (segment.page_size * number + k)
        then segment_byte bytes.now (Some (header_of header)) (segment.page_size * number + k)
        else slice_index page.old k) }
{
    let part = part_on(bytes, header, number);
    let start = offset_on(number, u64::from(header.vaddr));
    let end = offset_on(number, u64::from(header.vaddr) + u64::from(header.memsz));
    page[start..start + part.len()].copy_from_slice(part);
    page[start + part.len()..end].fill(0);
}

/// The bytes of the image on the page of a number, from the segments that touch it.
pub fn page_bytes(bytes: &[u8], near: &[Header], number: u32) -> [u8; PAGE_SIZE]
    requires { map header_of near.now ≡ filter (segment.touches number) (segments bytes.now) }
    ensures { result ≡ image_page bytes.now number }
{
    let mut page = [0; PAGE_SIZE];
    // An address has the byte of the first segment that has it, so the first is written last.
    for header in near.iter().rev() {
        write_segment(&mut page, bytes, *header, number);
    }
    page
}
