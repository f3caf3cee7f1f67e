//! The bytes that a put takes (POSIX.1-2017, write).

ghost use Rattle.std.specs.Prelude.{◌≡◌, ◌+◌, ◌≤◌, ◌^◌, true, [], ◌∷◌, IfOk};
ghost use Rattle.std.specs.List.{range_with_len};
ghost use Rattle.memory_spec.specs.Pages.{allows, read_right, permission_at};
ghost use Rattle.memory_spec.specs.Workspace.{after_taking};
ghost use Rattle.thunk_spec.specs.Put.{is_readable};

use memory_spec::{MemoryError, Size};
use page_store::{Mem, Range};
use std::alloc::AllocError;

/// Takes the byte at an address that may be read.
///
/// # Errors
///
/// An error if the host's memory ran out.
#[tactic(auto, unfolding(memory_spec::specs::Access::loaded))]
fn take_byte<M: Mem>(mem: &mut M, address: u32) -> Result<(), AllocError>
    requires { allows read_right (permission_at (M.workspace mem.old).map address) ≡ true }
    ensures { IfOk result (λ done. M.workspace mem.new
        ≡ after_taking (M.workspace mem.old) (address ∷ [])) }
{
    match mem.load(address, Size::One) {
        Ok(_) | Err(MemoryError::Access) => Ok(()),
        Err(MemoryError::NoMemory) => Err(AllocError),
    }
}

/// Takes the bytes of a range that may be read, which are no more than a page's: a byte of each page is taken for them
/// all.
///
/// # Errors
///
/// An error if the host's memory ran out.
#[tactic(auto, using(page_store::proofs::Ends::readable_first, page_store::proofs::Ends::readable_last, page_store::proofs::Ends::taking_ends))]
pub(super) fn take_range<M: Mem>(mem: &mut M, range: Range) -> Result<(), AllocError>
    requires few { range.len ≤ 4096 }
    requires in_range { range.start + range.len ≤ 2 ^ 32 }
    requires readable { is_readable (M.workspace mem.old).map range.start range.len ≡ true }
    ensures { IfOk result (λ done.
        M.workspace mem.new
        ≡ after_taking (M.workspace mem.old) (range_with_len range.start range.len)) }
{
    if range.len == 0 {
        return Ok(());
    }
    let last = range.last();
    take_byte(mem, range.start)?;
    take_byte(mem, last)?;
    Ok(())
}
