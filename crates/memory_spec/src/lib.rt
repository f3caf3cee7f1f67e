//! Memory of the guest machine, as definitions: pages, the page map and its permissions, stores in
//! order, and what the memory that a thread works on means to the layers above. No code but two
//! plain types, the size of a page and how many pages there can be.
#![tactic(auto)]

ghost use Rattle.std.specs.Prelude.{List};
ghost use Rattle.memory_spec.specs.Pages.{Mapped, Memory, IsMemory};
ghost use Rattle.memory_spec.specs.Stores.{StoredByte, with_stores};

/// How many bytes a page has.
pub const PAGE_SIZE: usize = 4096;

/// How many pages addresses of 32 bits reach.
pub const PAGE_NUMBERS: u32 = 1 << 20;

/// How many bytes a load or a store moves. (RISC-V unprivileged ISA 20191213, 2.6)
#[derive(Clone, Copy)]
pub enum Size {
    /// One byte.
    One,
    /// A halfword, two bytes.
    Two,
    /// A word, four bytes.
    Four,
}

/// Why a fetch, a load or a store failed.
#[derive(Clone, Copy, PartialEq, Eq)]
pub enum MemoryError {
    /// The page isn't mapped, or it lacks the permission.
    Access,
    /// The host's memory ran out.
    NoMemory,
}

/// A memory of a map is still one after any stores: as many pages, each of 4,096 bytes.
pub fn stores_keep_the_shape()
    ensures { (map : List Mapped) (memory : Memory) (stores : List StoredByte)
        → IsMemory map memory
        → IsMemory map (with_stores map memory stores) }
{}
