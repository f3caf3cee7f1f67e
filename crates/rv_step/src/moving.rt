//! Loads and stores, executed in a page.

ghost use Rattle.std.specs.Prelude.{◌≡◌, false, IfOk, OnErr, Some};
ghost use Rattle.isa_spec.specs.declared.Instr.TheVariants as instr;
ghost use Rattle.rv_code.specs.Meaning.{may_have_zero};
ghost use Rattle.rv_step.specs.Paging.{Leads, instr_placed, word_at};

use super::access::{extended, is_aligned, size_loaded, size_stored};
use super::placed::{Flow, Placed};
use isa_spec::{Load, Store};
use memory_spec::MemoryError;
use page_store::Mem;
use rv_isa::Regs;
use std::alloc::AllocError;

/// A load. One that traps is left to a turn of its own.
///
/// # Errors
///
/// An error if the host's memory ran out; nothing changes then.
#[inline(always)]
pub(super) fn load<M: Mem>(
    placed: Placed,
    regs: &mut Regs,
    mem: &mut M,
    kind: Load,
) -> Result<Flow, AllocError>
    requires writes { may_have_zero placed.kind ≡ false }
    requires stands { instr_placed placed
        ≡ Some (instr.Load kind placed.rd placed.rs1 placed.imm) }
    ensures ok { IfOk result (λ flow.
        Leads flow placed (M.workspace mem.old) regs.old (M.workspace mem.new) regs.new) }
    ensures err { OnErr result ((regs.new ≡ regs.old)
        × (M.workspace mem.new ≡ M.workspace mem.old)) }
{
    let address = regs.get(placed.rs1).wrapping_add(placed.imm);
    let size = size_loaded(kind);
    if !is_aligned(address, size) {
        return Ok(Flow::Other);
    }
    match mem.load(address, size) {
        Ok(value) => {
            regs.write(placed.rd, extended(kind, value));
            Ok(Flow::Next)
        }
        Err(MemoryError::Access) => Ok(Flow::Other),
        Err(MemoryError::NoMemory) => Err(AllocError),
    }
}

/// A store. One that traps is left to a turn of its own.
///
/// # Errors
///
/// An error if the host's memory ran out; nothing changes then.
#[inline(always)]
pub(super) fn store<M: Mem>(
    placed: Placed,
    regs: &Regs,
    mem: &mut M,
    kind: Store,
) -> Result<Flow, AllocError>
    requires { instr_placed placed
        ≡ Some (instr.Store kind placed.rs1 placed.rs2 placed.imm) }
    ensures ok { IfOk result (λ flow.
        Leads flow placed (M.workspace mem.old) regs.now (M.workspace mem.new) regs.now) }
    ensures err { OnErr result (M.workspace mem.new ≡ M.workspace mem.old) }
{
    let address = regs.get(placed.rs1).wrapping_add(placed.imm);
    let value = regs.get(placed.rs2);
    let size = size_stored(kind);
    if !is_aligned(address, size) {
        return Ok(Flow::Other);
    }
    match mem.store(address, size, value) {
        Ok(()) => {
            if address / 4096 == placed.number {
                Ok(Flow::Changed)
            } else {
                Ok(Flow::Next)
            }
        }
        Err(MemoryError::Access) => Ok(Flow::Other),
        Err(MemoryError::NoMemory) => Err(AllocError),
    }
}
