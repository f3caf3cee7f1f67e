//! The executables that the runtime takes: ELF32 files for RISC-V, of the type that has its addresses fixed.
//!
//! This crate holds definitions alone. `Refusal` is the answer to a file that isn't taken; `specs/` says which
//! refusal a file gets, and of an accepted file which pages it maps and what they hold. Each public function is
//! a law: its contract is the statement, and its body does nothing.
#![tactic(auto)]

ghost use Rattle.std.specs.Prelude.{ℕ, ◌≡◌, ◌≤◌, ◌<◌, ◌↔◌, ◌%◌, ◌/◌, length, map, true, All, Contains};
ghost use Rattle.std.specs.List.Sorted.{IsStrictlyIncreasing};
ghost use Rattle.memory_spec.specs.Pages.{ascends_above, IsMemory};
ghost use Rattle.elf_spec.specs.Header.{segments};
ghost use Rattle.elf_spec.specs.Segments.{page_numbers, IsTouched, page_permission};
ghost use Rattle.elf_spec.specs.Image.{image_pages, image_memory, entry_of, is_image, HasPageWith};

/// The most bytes of an executable file.
pub const MOST_ELF_BYTES: usize = 16_777_216;
/// The first address that an image may have: page 0 is never mapped.
pub const IMAGE_START: u32 = 0x1000;
/// The end of the addresses for images.
pub const IMAGE_END: u32 = 0xC000_0000;

/// Why a file isn't taken as an executable.
///
/// Program headers are numbered from 0, and sums are exact. If several conditions hold, the first in the order below is
/// the answer, at its least number (of a pair the least first number, then the least second).
#[derive(Clone, Copy, Debug, PartialEq, Eq)]
pub enum Refusal {
    /// The file has fewer than 52 bytes, or doesn't begin with ELF's magic number.
    NotElf,
    /// The class, the byte order or the identification's version isn't 1.
    NotElf32,
    /// The file's type isn't 2, an executable.
    NotExec,
    /// The machine isn't 243, RISC-V.
    NotRiscv,
    /// The flags request compressed instructions.
    Compressed,
    /// There are program headers, and their size isn't 32.
    EntrySize,
    /// The file ends before the end of this program header.
    ShortTable(u32),
    /// This program header is one of dynamic linking: of type 2 or 3.
    Dynamic(u32),
    /// The file ends before the bytes of this loadable header, or they are more than its size in memory.
    ShortSegment(u32),
    /// This segment lies below `IMAGE_START` or reaches above `IMAGE_END`.
    Outside(u32),
    /// These two segments share an address.
    Overlap(u32, u32),
    /// The segments touch this number of pages, more than 1,024.
    TooManyPages(u32),
    /// The entry point isn't a multiple of 4, or doesn't lie on a page that may be executed.
    Entry,
}

/// The pages of an image ascend.
pub fn pages_ascend(bytes: &[u8])
    ensures { IsStrictlyIncreasing (map (λ p. p.number) (image_pages bytes.now)) }
{}

/// A page is there exactly if a segment has an address on it.
pub fn pages_are_the_touched(bytes: &[u8])
    ensures { (n : ℕ)
        → (Contains (map (λ p. p.number) (image_pages bytes.now)) n
        ↔ IsTouched (segments bytes.now) n) }
{}

/// There are as many pages of bytes as pages, and each has 4,096 bytes.
pub fn memory_is_of_pages(bytes: &[u8])
    ensures { IsMemory (image_pages bytes.now) (image_memory bytes.now) }
{}

/// An accepted file maps at most 1,024 pages, and it starts at a multiple of 4 on a page that may be executed.
pub fn accepted_is_small(bytes: &[u8])
    requires { is_image bytes.now ≡ true }
    ensures few { length (image_pages bytes.now) ≤ 1024 }
    ensures aligned { entry_of bytes.now % 4 ≡ 0 }
    ensures executable { HasPageWith 0 (entry_of bytes.now / 4096) (image_pages bytes.now) }
{}

/// An accepted file's pages lie at the addresses for images, from 0x1000 up to 0xC0000000, and are a map's.
pub fn accepted_is_inside(bytes: &[u8])
    requires { is_image bytes.now ≡ true }
    ensures map { ascends_above 0 (image_pages bytes.now) ≡ true }
    ensures inside { All (λ page. (1 ≤ page.number) × (page.number < 0xC0000))
        (image_pages bytes.now) }
{}
