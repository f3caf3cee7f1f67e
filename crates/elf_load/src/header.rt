//! The program headers of a file.

ghost use Rattle.std.specs.Prelude.{◌≡◌, ◌<◌, map, IfOk};
ghost use Rattle.elf_spec.specs.Header as segment;
ghost use Rattle.elf_spec.specs.Header.{e_phnum, program_header, program_headers};
ghost use Rattle.elf_load.specs.Header.{header_of};

use crate::fields::{half_word_at, word_at};
use std::alloc::{AllocError, Global};

/// A program header, without its physical address and its alignment.
#[derive(Clone, Copy)]
pub struct Header {
    pub kind: u32,
    pub offset: u32,
    pub vaddr: u32,
    pub filesz: u32,
    pub memsz: u32,
    pub flags: u32,
}

/// The number of program headers.
pub fn header_count(bytes: &[u8]) -> u32
    ensures count { result ≡ e_phnum bytes.now }
    ensures few { result < 65536 }
{
    u32::from(half_word_at(bytes, 44))
}

/// The program header of a number.
pub fn header_at(bytes: &[u8], number: u32) -> Header
    requires { number < 65536 }
    ensures { header_of result ≡ program_header bytes.now number }
{
    let at = u64::from(word_at(bytes, 28)) + 32 * u64::from(number);
    Header {
        kind: word_at(bytes, at),
        offset: word_at(bytes, at + 4),
        vaddr: word_at(bytes, at + 8),
        filesz: word_at(bytes, at + 16),
        memsz: word_at(bytes, at + 20),
        flags: word_at(bytes, at + 24),
    }
}

/// All program headers, in their order, or an error if the host's memory ran out.
pub fn headers_of(alloc: Global, bytes: &[u8]) -> Result<Vec<Header>, AllocError>
    ensures { IfOk result (λ headers. map header_of headers.items ≡ program_headers bytes.now) }
{
    let mut headers = Vec::new(alloc);
    for number in 0..header_count(bytes) {
        headers.push(header_at(bytes, number))?;
    }
    Ok(headers)
}

/// The program header of a number, from all that were read.
pub fn header_read(bytes: &[u8], headers: &[Header], number: u32) -> Header
    requires headers { map header_of headers.now ≡ program_headers bytes.now }
    requires number { number < e_phnum bytes.now }
    ensures { header_of result ≡ program_header bytes.now number }
{
    headers[number as usize]
}

/// Whether a header is of a loadable segment that takes memory.
pub fn is_segment(header: Header) -> bool
    ensures { result ≡ segment.is_segment (header_of header) }
{
    (header.kind == 1) & (header.memsz > 0)
}
