//! The refusals of a file, row by row.

ghost use Rattle.std.specs.Prelude.{◌≡◌, ◌<◌, ◌≤◌, ◌-◌, ◌/◌, filter, find, map, IfOk};
ghost use Rattle.std.specs.List.{range_with_len};
ghost use Rattle.elf_spec.specs.Header.{e_entry, e_phnum, program_header, program_headers, segments};
ghost use Rattle.elf_spec.specs.Segments as segment;
ghost use Rattle.elf_load.specs.Header.{header_of};
ghost use Rattle.elf_load.specs.Questions.{test_of};
ghost use Rattle.elf_load.specs.Rows.{header_rows, table_rows, page_rows};
ghost use Rattle.elf_load.specs.Touched.{MarksTouched};
ghost use Rattle.elf_spec.specs.Refusals as row;

use crate::fields::{byte_at, half_word_at, word_at};
use crate::header::{Header, header_at, header_count, header_read, headers_of, is_segment};
use crate::image::{segments_of, segments_on};
use crate::pages::{page_count, rights_of, touched_pages};
use elf_spec::{IMAGE_END, IMAGE_START, Refusal};
use page_store::PAGE_SIZE;
use std::alloc::{AllocError, Global};

/// ELF's magic number.
const MAGIC: [u8; 4] = [0x7f, b'E', b'L', b'F'];

/// This refusal if the test holds.
fn refuse_if(test: bool, refusal: Refusal) -> Option<Refusal>
    ensures { result ≡ row.refuse_if test refusal }
{
    if test { Some(refusal) } else { None }
}

/// Whether the file is too short for a header, or has another magic number.
fn not_elf(bytes: &[u8]) -> Option<Refusal>
    ensures { result ≡ row.not_elf bytes.now }
{
    if bytes.len() < 52 {
        return Some(Refusal::NotElf);
    }
    refuse_if(&bytes[..4] != MAGIC.as_slice(), Refusal::NotElf)
}

/// Whether the file isn't of 32 bits, with the lowest byte first, and of ELF version 1.
fn not_elf32(bytes: &[u8]) -> Option<Refusal>
    ensures { result ≡ row.not_elf32 bytes.now }
{
    let sound = (byte_at(bytes, 4) == 1) & (byte_at(bytes, 5) == 1) & (byte_at(bytes, 6) == 1);
    refuse_if(!sound, Refusal::NotElf32)
}

/// Whether the file isn't an executable.
fn not_exec(bytes: &[u8]) -> Option<Refusal>
    ensures { result ≡ row.not_exec bytes.now }
{
    refuse_if(half_word_at(bytes, 16) != 2, Refusal::NotExec)
}

/// Whether the file isn't for RISC-V.
fn not_riscv(bytes: &[u8]) -> Option<Refusal>
    ensures { result ≡ row.not_riscv bytes.now }
{
    refuse_if(half_word_at(bytes, 18) != 243, Refusal::NotRiscv)
}

/// Whether the file requires compressed instructions.
fn compressed(bytes: &[u8]) -> Option<Refusal>
    ensures { result ≡ row.compressed bytes.now }
{
    refuse_if(word_at(bytes, 36) % 2 == 1, Refusal::Compressed)
}

/// Whether there are program headers of another size.
fn entry_size(bytes: &[u8]) -> Option<Refusal>
    ensures { result ≡ row.entry_size bytes.now }
{
    refuse_if(
        (half_word_at(bytes, 44) != 0) & (half_word_at(bytes, 42) != 32),
        Refusal::EntrySize,
    )
}

/// A question about each program header in turn.
#[derive(Clone, Copy)]
pub enum Question {
    /// Whether the file ends before the header's end.
    ShortTable,
    /// Whether it is one of dynamic linking.
    Dynamic,
    /// Whether it is loadable, and its bytes aren't all there.
    ShortSegment,
    /// Whether it is of a segment that isn't inside the addresses for images.
    Outside,
}

/// Whether a question holds of the header of a number.
fn holds(bytes: &[u8], question: Question, number: u32) -> bool
    requires { number < 65536 }
    ensures { result ≡ test_of question bytes.now number }
{
    let header = header_at(bytes, number);
    match question {
        Question::ShortTable => is_past_end(bytes, number),
        Question::Dynamic => (header.kind == 2) | (header.kind == 3),
        Question::ShortSegment => (header.kind == 1) & is_short(bytes, header),
        Question::Outside => is_segment(header) & is_outside(header),
    }
}

/// Whether the file ends before the end of the header of a number.
fn is_past_end(bytes: &[u8], number: u32) -> bool
    requires { number < 65536 }
    ensures { result ≡ test_of Question.ShortTable bytes.now number }
{
    (bytes.len() as u64) < u64::from(word_at(bytes, 28)) + 32 * (u64::from(number) + 1)
}

/// Whether the bytes of a header reach past the end of the file, or are more than its memory.
fn is_short(bytes: &[u8], header: Header) -> bool
    ensures { result ≡ row.is_short bytes.now (header_of header) }
{
    ((bytes.len() as u64) < u64::from(header.offset) + u64::from(header.filesz))
        | (header.memsz < header.filesz)
}

/// Whether a segment isn't inside the addresses for images.
fn is_outside(header: Header) -> bool
    ensures { result ≡ row.is_outside (header_of header) }
{
    (header.vaddr < IMAGE_START)
        | (u64::from(header.vaddr) + u64::from(header.memsz) > u64::from(IMAGE_END))
}

/// The first header of which a question holds.
fn first_header(bytes: &[u8], question: Question) -> Option<u32>
    ensures { result ≡ row.first_header bytes.now (test_of question bytes.now) }
{
    for number in 0..header_count(bytes) {
        if holds(bytes, question, number) {
            return Some(number);
        }
    }
    None
}

/// The first header before whose end the file ends.
fn short_table(bytes: &[u8]) -> Option<Refusal>
    ensures { result ≡ row.short_table bytes.now }
{
    match first_header(bytes, Question::ShortTable) {
        Some(number) => Some(Refusal::ShortTable(number)),
        None => None,
    }
}

/// The first header of dynamic linking.
fn dynamic(bytes: &[u8]) -> Option<Refusal>
    ensures { result ≡ row.dynamic bytes.now }
{
    match first_header(bytes, Question::Dynamic) {
        Some(number) => Some(Refusal::Dynamic(number)),
        None => None,
    }
}

/// The first loadable header whose bytes aren't all there.
fn short_segment(bytes: &[u8]) -> Option<Refusal>
    ensures { result ≡ row.short_segment bytes.now }
{
    match first_header(bytes, Question::ShortSegment) {
        Some(number) => Some(Refusal::ShortSegment(number)),
        None => None,
    }
}

/// The first segment that isn't inside the addresses for images.
fn outside(bytes: &[u8]) -> Option<Refusal>
    ensures { result ≡ row.outside bytes.now }
{
    match first_header(bytes, Question::Outside) {
        Some(number) => Some(Refusal::Outside(number)),
        None => None,
    }
}

/// Whether two headers are of segments that share an address.
fn overlaps(one: Header, other: Header) -> bool
    ensures { result ≡ row.overlaps (header_of one) (header_of other) }
{
    let starts_before_end = u64::from(one.vaddr) < u64::from(other.vaddr) + u64::from(other.memsz);
    let ends_after_start = u64::from(other.vaddr) < u64::from(one.vaddr) + u64::from(one.memsz);
    is_segment(one) & is_segment(other) & (starts_before_end & ends_after_start)
}

/// The first header from a number on whose segment shares an address with that of the header `earlier`.
fn overlap_from(bytes: &[u8], headers: &[Header], earlier: u32, from: u32) -> Option<u32>
    requires headers { map header_of headers.now ≡ program_headers bytes.now }
    requires earlier { earlier < e_phnum bytes.now }
    requires from { from ≤ e_phnum bytes.now }
    ensures { result
        ≡ find (λ j. row.overlaps (program_header bytes.now earlier) (program_header bytes.now j))
        (range_with_len from (e_phnum bytes.now - from)) }
{
    let one = header_read(bytes, headers, earlier);
    for number in from..header_count(bytes) {
        if overlaps(one, header_read(bytes, headers, number)) {
            return Some(number);
        }
    }
    None
}

/// The first two segments that share an address.
fn overlap(bytes: &[u8], headers: &[Header]) -> Option<Refusal>
    requires { map header_of headers.now ≡ program_headers bytes.now }
    ensures { result ≡ row.overlap bytes.now }
{
    for earlier in 0..header_count(bytes) {
        match overlap_from(bytes, headers, earlier, earlier + 1) {
            Some(later) => return Some(Refusal::Overlap(earlier, later)),
            None => {}
        }
    }
    None
}

/// Whether the segments touch more pages than 1,024.
fn too_many_pages(bytes: &[u8], marks: &[bool]) -> Option<Refusal>
    requires { MarksTouched bytes.now marks.now }
    ensures { result ≡ row.too_many_pages bytes.now }
{
    let count = page_count(bytes, marks);
    refuse_if(count > 1024, Refusal::TooManyPages(count))
}

/// The number of the page of the entry point.
fn entry_page(bytes: &[u8]) -> u32
    ensures { result ≡ e_entry bytes.now / segment.page_size }
{
    word_at(bytes, 24) / PAGE_SIZE as u32
}

/// Whether no instruction can be at the entry point, whose page these segments touch.
fn entry_refusal(bytes: &[u8], near: &[Header]) -> Option<Refusal>
    requires { map header_of near.now
        ≡ filter (segment.touches (e_entry bytes.now / segment.page_size)) (segments bytes.now) }
    ensures { result ≡ row.entry_refusal bytes.now }
{
    let start = word_at(bytes, 24);
    let executable = rights_of(near) % 2 == 1;
    refuse_if(!((start % 4 == 0) & executable), Refusal::Entry)
}

/// The first refusal of the header's rows.
fn header_refusal(bytes: &[u8]) -> Option<Refusal>
    ensures { result ≡ row.first_given (header_rows bytes.now) }
{
    match not_elf(bytes) {
        Some(refusal) => return Some(refusal),
        None => {}
    }
    match not_elf32(bytes) {
        Some(refusal) => return Some(refusal),
        None => {}
    }
    match not_exec(bytes) {
        Some(refusal) => return Some(refusal),
        None => {}
    }
    match not_riscv(bytes) {
        Some(refusal) => return Some(refusal),
        None => {}
    }
    match compressed(bytes) {
        Some(refusal) => return Some(refusal),
        None => {}
    }
    entry_size(bytes)
}

/// The first refusal of the program headers' rows.
fn table_refusal(bytes: &[u8], headers: &[Header]) -> Option<Refusal>
    requires { map header_of headers.now ≡ program_headers bytes.now }
    ensures { result ≡ row.first_given (table_rows bytes.now) }
{
    match short_table(bytes) {
        Some(refusal) => return Some(refusal),
        None => {}
    }
    match dynamic(bytes) {
        Some(refusal) => return Some(refusal),
        None => {}
    }
    match short_segment(bytes) {
        Some(refusal) => return Some(refusal),
        None => {}
    }
    match outside(bytes) {
        Some(refusal) => return Some(refusal),
        None => {}
    }
    overlap(bytes, headers)
}

/// The first refusal of the pages' rows, or an error if the host's memory ran out.
fn page_refusal(alloc: Global, bytes: &[u8]) -> Result<Option<Refusal>, AllocError>
    ensures { IfOk result (λ refusal. refusal ≡ row.first_given (page_rows bytes.now)) }
{
    let marks = touched_pages(alloc, bytes)?;
    match too_many_pages(bytes, marks.as_slice()) {
        Some(refusal) => return Ok(Some(refusal)),
        None => {}
    }
    let segments = segments_of(alloc, bytes)?;
    let page = entry_page(bytes);
    let near = segments_on(alloc, segments.as_slice(), page)?;
    Ok(entry_refusal(bytes, near.as_slice()))
}

/// The first refusal of a file, or none if it is accepted. An error if the host's memory ran out.
pub fn refusal(alloc: Global, bytes: &[u8]) -> Result<Option<Refusal>, AllocError>
    ensures { IfOk result (λ refusal. refusal ≡ row.refusal_of bytes.now) }
{
    match header_refusal(bytes) {
        Some(refusal) => return Ok(Some(refusal)),
        None => {}
    }
    let headers = headers_of(alloc, bytes)?;
    match table_refusal(bytes, headers.as_slice()) {
        Some(refusal) => return Ok(Some(refusal)),
        None => {}
    }
    page_refusal(alloc, bytes)
}
