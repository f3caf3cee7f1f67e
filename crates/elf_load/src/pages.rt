//! The pages that segments touch, and their access rights.

ghost use Rattle.std.specs.Prelude.{ℕ, ◌≡◌, ◌<◌, ◌≤◌, ◌+◌, ◌^◌, ◌&&◌, ◌||◌, nat_le, false, get_or, max, length, map, fold, bit_or, if◌then◌else◌, IfOk};
ghost use Rattle.std.specs.List.{list_any};
ghost use Rattle.elf_spec.specs.Header.{segments, is_segment as is_segment_of};
ghost use Rattle.elf_spec.specs.Segments as segment;
ghost use Rattle.elf_spec.specs.Refusals as row;
ghost use Rattle.elf_load.specs.Header.{header_of};
ghost use Rattle.elf_load.specs.Touched.{MarksTouched};

use crate::header::{Header, header_at, header_count, is_segment};
use page_store::PAGE_SIZE;
use std::alloc::{AllocError, Global};

/// The number of the page on which a segment's last byte lies.
fn last_page(header: Header) -> u32
    ensures page { result ≡ segment.last_page (header_of header) }
    ensures small { result < 2 ^ 21 }
{
    ((u64::from(header.vaddr) + u64::from(header.memsz)).saturating_sub(1)
        / PAGE_SIZE as u64) as u32
}

/// Whether a segment touches the page of a number.
pub fn touches(number: u32, header: Header) -> bool
    ensures { result ≡ segment.touches number (header_of header) }
{
    (header.vaddr / PAGE_SIZE as u32 <= number) & (number <= last_page(header))
}

/// The higher of a page and the last page of a header, if that is a segment's.
fn higher(page: u32, header: Header) -> u32
    requires { page < 2 ^ 21 }
    ensures page { result ≡
        (if is_segment_of (header_of header) then max page (segment.last_page (header_of header))
        else page) }
    ensures small { result < 2 ^ 21 }
{
    if is_segment(header) {
        page.max(last_page(header))
    } else {
        page
    }
}

/// The number of the highest page that a segment touches.
pub fn highest_page(bytes: &[u8]) -> u32
    ensures page { result ≡ segment.highest_page (segments bytes.now) }
    ensures small { result < 2 ^ 21 }
{
    let mut highest = 0;
    for i in 0..header_count(bytes) {
        highest = higher(highest, header_at(bytes, i));
    }
    highest
}

/// Marks the pages from one to another, as far as there are marks.
fn mark_pages(marks: &mut [bool], first: usize, last: usize)
    requires { last < 2 ^ 21 }
    ensures same { length marks.new ≡ length marks.old }
    ensures each { (k : ℕ) → k < length marks.old
        → get_or marks.new k false
        ≡ (get_or marks.old k false || (nat_le first k && nat_le k last)) }
{
    for number in first..(last + 1).min(marks.len()) {
        marks[number] = true;
    }
}

/// Marks the pages that a header touches, if it is a segment's.
fn mark_segment(marks: &mut [bool], header: Header)
    ensures same { length marks.new ≡ length marks.old }
    ensures each { (k : ℕ) → k < length marks.old → get_or marks.new k false
        ≡ (get_or marks.old k false
        || (is_segment_of (header_of header) && segment.touches k (header_of header))) }
{
    if is_segment(header) {
        mark_pages(
            marks,
            header.vaddr as usize / PAGE_SIZE,
            last_page(header) as usize,
        );
    }
}

/// Marks the pages that the segments touch. No page has a mark before.
fn mark_all(marks: &mut [bool], bytes: &[u8])
    requires { (k : ℕ) → k < length marks.old → get_or marks.old k false ≡ false }
    ensures same { length marks.new ≡ length marks.old }
    ensures each { (k : ℕ) → k < length marks.old
        → get_or marks.new k false ≡ list_any (segment.touches k) (segments bytes.now) }
{
    for i in 0..header_count(bytes) {
        mark_segment(marks, header_at(bytes, i));
    }
}

/// For each page up to the highest that a segment touches, whether one touches it, or an error if the host's memory ran
/// out.
pub fn touched_pages(alloc: Global, bytes: &[u8]) -> Result<Vec<bool>, AllocError>
    ensures { IfOk result (λ marks. MarksTouched bytes.now marks.items) }
{
    let mut marks = vec![in alloc; false; highest_page(bytes) as usize + 1]?;
    mark_all(&mut marks, bytes);
    Ok(marks)
}

/// The access rights of segments together.
pub fn rights_of(headers: &[Header]) -> u8
    ensures { result ≡ fold bit_or 0 (map segment.segment_permission (map header_of headers.now)) }
{
    let mut rights = 0;
    for header in headers {
        rights = rights | (header.flags % 8) as u8;
    }
    rights
}

/// The number of pages that the segments touch, of which each is marked.
pub fn page_count(bytes: &[u8], marks: &[bool]) -> u32
    requires { MarksTouched bytes.now marks.now }
    ensures { result ≡ row.page_count bytes.now }
{
    let mut count = 0;
    for number in 0..highest_page(bytes) + 1 {
        count = count_with(count, marks[number as usize]);
    }
    count
}

/// One more than a count if a test holds.
fn count_with(count: u32, test: bool) -> u32
    requires { count < 2 ^ 22 }
    ensures { result ≡ (if test then count + 1 else count) }
{
    if test { count + 1 } else { count }
}
