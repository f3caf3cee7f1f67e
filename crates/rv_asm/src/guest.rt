//! The executable of a guest.

ghost use Rattle.std.specs.Prelude.{◌≡◌, ◌≤◌, ◌<◌, ◌+◌, ◌^◌, ◌%◌, ◌++◌, All, length, IfOk, OnOk};
ghost use Rattle.rv_asm.specs.Items.{items_bytes, memory_size, IsWritable};
ghost use Rattle.rv_asm.specs.File.{halves, words, file_header, segment_header, guest_file};
ghost use Rattle.rv_asm.specs.Guest.{pages_taken, IsGuest};

use crate::item::{Item, written};
use ith_text::Out;
use std::alloc::{AllocError, Global};

/// The identification of an ELF32 file with the lowest byte first (System V gABI, ch. 4, ELF Identification).
const IDENTIFICATION: [u8; 16] = [0x7f, 0x45, 0x4c, 0x46, 1, 1, 1, 0, 0, 0, 0, 0, 0, 0, 0, 0];

/// Appends numbers of two bytes each.
fn write_halves(out: &mut Out, numbers: &[u16]) -> Result<(), AllocError>
    ensures { OnOk result (out.new ≡ out.old ++ halves numbers.now) }
{
    for number in numbers {
        out.u16(*number)?;
    }
    Ok(())
}

/// Appends numbers of four bytes each.
fn write_words(out: &mut Out, numbers: &[u32]) -> Result<(), AllocError>
    ensures { OnOk result (out.new ≡ out.old ++ words numbers.now) }
{
    for number in numbers {
        out.u32(*number)?;
    }
    Ok(())
}

/// The header of a RISC-V executable with one program header (System V gABI, ch. 4, ELF Header).
fn header(alloc: Global, start: u32) -> Result<Out, AllocError>
    ensures { IfOk result (λ out. out ≡ file_header start) }
{
    let mut out = Out::new(alloc);
    out.bytes(&IDENTIFICATION)?;
    write_halves(&mut out, &[2, 243])?;
    write_words(&mut out, &[1, start, 52, 0, 0])?;
    write_halves(&mut out, &[52, 32, 1, 0, 0, 0])?;
    Ok(out)
}

/// The executable of a guest that the loader takes: the items at the base, and `bss` bytes of zeros after them, all of
/// it readable, writable and executable, and the start at the base (System V gABI, ch. 4 and 5).
///
/// The base is a page's first address, at least 0x1000; the memory has at least one byte and at most 1,024 pages, and
/// ends at 0xC0000000 at the latest. The only error is that memory ran out.
pub fn elf(alloc: Global, base: u32, items: &[Item], bss: u32) -> Result<Vec<u8>, AllocError>
    requires writable { All IsWritable items.now }
    requires page { base % 4096 ≡ 0 }
    requires low { 0x1000 ≤ base }
    requires high { base + memory_size items.now bss ≤ 0xC0000000 }
    requires some { 0 < memory_size items.now bss }
    requires few { pages_taken (memory_size items.now bss) ≤ 1024 }
    ensures guest { IfOk result (λ file. IsGuest base (items_bytes items.now) bss file.items) }
    ensures file { IfOk result (λ file. file.items ≡ guest_file base (items_bytes items.now) bss) }
{
    let body = written(alloc, items)?;
    let filesz = body.len() as u32;
    let mut out = header(alloc, base)?;
    write_words(&mut out, &[1, 84, base, base, filesz, filesz + bss, 7, 4])?;
    out.bytes(body.as_slice())?;
    Ok(out.into_vec())
}
