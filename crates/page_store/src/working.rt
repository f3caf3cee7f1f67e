//! The memory that a thread works on.

ghost use Rattle.std.specs.Prelude.{◌≡◌, ℕ, ◌<◌, ◌*◌, ◌%◌, ◌^◌, length, IfOk, IfSome, IfNone};
ghost use Rattle.std.specs.Str.{bytes_eq};
ghost use Rattle.memory_spec.specs.Access.{byte_count, loaded, fetched};
ghost use Rattle.memory_spec.specs.Pages.{page_of};
ghost use Rattle.memory_spec.specs.Workspace.{Workspace, Takes, Stores};
ghost use Rattle.page_store.specs.Entering.{Enters};

use super::pages::Slot;
use memory_spec::{MemoryError, PAGE_SIZE, Size};

/// A memory that a thread works on: a view with the thread's own stores applied.
///
/// It notes from which pages a byte was taken, and at which places a byte was stored.
pub trait Mem {
    ghost workspace: { Self → Workspace };

    /// The word at an address that is a multiple of 4, from a page that may be executed
    /// (RISC-V unprivileged ISA 20191213, 1.5).
    ///
    /// # Errors
    ///
    /// `Access` exactly if the page isn't mapped or may not be executed; `NoMemory` if the host has no memory left.
    /// Nothing changes then.
    fn fetch(&mut self, address: u32) -> Result<u32, MemoryError>
        requires { address % 4 ≡ 0 }
        ensures { Takes (workspace self.old) address
            (fetched (workspace self.old).map (workspace self.old).memory address) result
            (workspace self.new) };

    /// The number of 1, 2 or 4 bytes at an address that is a multiple of their count, from a page
    /// that may be read, without sign (RISC-V unprivileged ISA 20191213, 2.6).
    ///
    /// # Errors
    ///
    /// `Access` exactly if the page isn't mapped or may not be read; `NoMemory` if the host has no memory left. Nothing
    /// changes then.
    fn load(&mut self, address: u32, size: Size) -> Result<u32, MemoryError>
        requires { address % byte_count size ≡ 0 }
        ensures found { Takes (workspace self.old) address
            (loaded (workspace self.old).map (workspace self.old).memory address size) result
            (workspace self.new) }
        ensures fits { IfOk result (λ value. value < 2 ^ (8 * byte_count size)) };

    /// Stores the lowest 1, 2 or 4 bytes of a value at an address that is a multiple of their
    /// count, into a page that may be written (RISC-V unprivileged ISA 20191213, 2.6).
    ///
    /// # Errors
    ///
    /// `Access` exactly if the page isn't mapped or may not be written; `NoMemory` if the host has no memory left.
    /// Nothing changes then.
    fn store(&mut self, address: u32, size: Size, value: u32) -> Result<(), MemoryError>
        requires { address % byte_count size ≡ 0 }
        ensures { Stores (workspace self.old) address size value result (workspace self.new) };

    /// Enters the page of an address, to run its instructions: a byte of it is taken. Returns the slot of the page,
    /// which may be executed, and in which the memory has the view's bytes. None says nothing about the page; nothing
    /// changes then.
    fn enter(&mut self, address: u32) -> Option<Slot>
        ensures entered { IfSome result
            (λ slot. Enters (workspace self.old) address slot (workspace self.new)) }
        ensures stays { IfNone result (workspace self.new ≡ workspace self.old) };

    /// Whether the view has these bytes in a slot.
    fn shows(&self, slot: Slot, bytes: &[u8; PAGE_SIZE]) -> bool
        requires { slot < length (workspace self.now).view }
        ensures { result ≡ bytes_eq (page_of (workspace self.now).view slot) bytes.now };
}
