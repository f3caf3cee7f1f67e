//! Turns that load and store (RISC-V unprivileged ISA 20191213, 2.6).

ghost use Rattle.std.specs.Prelude.{◌≡◌, ◌<◌, ◌%◌, ◌*◌, ◌^◌, ◌==◌, IfOk, OnErr};
ghost use Rattle.isa_spec.specs.Registers.{register};
ghost use Rattle.isa_spec.specs.Words.{sum_of};
ghost use Rattle.memory_spec.specs.Access.{byte_count};
ghost use Rattle.thunk_spec.specs.Turn.{load_size, load_result, load_turn, store_size, store_turn};
ghost use Rattle.rv_step.specs.Step.{Makes};

use super::control::advance;
use isa_spec::{Cause, Load, Store};
use memory_spec::{MemoryError, Size};
use page_store::Mem;
use rv_isa::Regs;
use std::alloc::AllocError;
use thunk_spec::Outcome;

/// How many bytes a load moves.
#[inline(always)]
pub(super) fn size_loaded(kind: Load) -> Size
    ensures { result ≡ load_size kind }
{
    match kind {
        Load::Byte | Load::ByteUnsigned => Size::One,
        Load::Half | Load::HalfUnsigned => Size::Two,
        Load::Word => Size::Four,
    }
}

/// How many bytes a store moves.
#[inline(always)]
pub(super) fn size_stored(kind: Store) -> Size
    ensures { result ≡ store_size kind }
{
    match kind {
        Store::Byte => Size::One,
        Store::Half => Size::Two,
        Store::Word => Size::Four,
    }
}

/// Whether an address is a multiple of the number of bytes.
#[inline(always)]
pub(super) fn is_aligned(address: u32, size: Size) -> bool
    ensures { result ≡ (address % byte_count size == 0) }
{
    match size {
        Size::One => true,
        Size::Two => address % 2 == 0,
        Size::Four => address % 4 == 0,
    }
}

/// The word that a load puts into its register: LB and LH copy the sign upwards.
#[inline(always)]
pub(super) fn extended(kind: Load, value: u32) -> u32
    requires { value < 2 ^ (8 * byte_count (load_size kind)) }
    ensures { result ≡ load_result kind value }
{
    match kind {
        Load::Byte => value.wrapping_sub((value >> 7) << 8),
        Load::Half => value.wrapping_sub((value >> 15) << 16),
        Load::Word | Load::ByteUnsigned | Load::HalfUnsigned => value,
    }
}

/// A load of a kind. Alignment is checked before the access.
#[inline(always)]
fn load_kind<M: Mem>(
    regs: &mut Regs,
    mem: &mut M,
    kind: Load,
    rd: u8,
    address: u32,
) -> Result<Outcome, AllocError>
    requires { rd < 32 }
    ensures ok { IfOk result (λ outcome.
        Makes
        (load_turn (M.workspace mem.old).map (M.workspace mem.old).memory regs.old kind rd address)
        (M.workspace mem.old) outcome regs.new (M.workspace mem.new)) }
    ensures err { OnErr result ((regs.new ≡ regs.old)
        × (M.workspace mem.new ≡ M.workspace mem.old)) }
{
    let size = size_loaded(kind);
    if !is_aligned(address, size) {
        return Ok(Outcome::Trap(Cause::LoadMisaligned));
    }
    match mem.load(address, size) {
        Ok(value) => {
            regs.set(rd, extended(kind, value));
            advance(regs);
            Ok(Outcome::Next)
        }
        Err(MemoryError::Access) => Ok(Outcome::Trap(Cause::LoadAccess)),
        Err(MemoryError::NoMemory) => Err(AllocError),
    }
}

/// A load, by its kind: so the number of bytes is known in each of the arms.
#[inline(always)]
pub(super) fn execute_load<M: Mem>(
    regs: &mut Regs,
    mem: &mut M,
    kind: Load,
    rd: u8,
    rs1: u8,
    offset: u32,
) -> Result<Outcome, AllocError>
    requires rd { rd < 32 }
    requires rs1 { rs1 < 32 }
    ensures ok { IfOk result (λ outcome.
        Makes (load_turn (M.workspace mem.old).map (M.workspace mem.old).memory regs.old kind rd
        (sum_of (register regs.old rs1) offset))
        (M.workspace mem.old) outcome regs.new (M.workspace mem.new)) }
    ensures err { OnErr result ((regs.new ≡ regs.old)
        × (M.workspace mem.new ≡ M.workspace mem.old)) }
{
    let address = regs.get(rs1).wrapping_add(offset);
    match kind {
        Load::Byte => load_kind(regs, mem, Load::Byte, rd, address),
        Load::Half => load_kind(regs, mem, Load::Half, rd, address),
        Load::Word => load_kind(regs, mem, Load::Word, rd, address),
        Load::ByteUnsigned => load_kind(regs, mem, Load::ByteUnsigned, rd, address),
        Load::HalfUnsigned => load_kind(regs, mem, Load::HalfUnsigned, rd, address),
    }
}

/// A store of a kind. Alignment is checked before the access.
#[inline(always)]
fn store_kind<M: Mem>(
    regs: &mut Regs,
    mem: &mut M,
    kind: Store,
    address: u32,
    value: u32,
) -> Result<Outcome, AllocError>
    ensures ok { IfOk result (λ outcome.
        Makes (store_turn (M.workspace mem.old).map regs.old kind address value)
        (M.workspace mem.old) outcome regs.new (M.workspace mem.new)) }
    ensures err { OnErr result ((regs.new ≡ regs.old)
        × (M.workspace mem.new ≡ M.workspace mem.old)) }
{
    let size = size_stored(kind);
    if !is_aligned(address, size) {
        return Ok(Outcome::Trap(Cause::StoreMisaligned));
    }
    match mem.store(address, size, value) {
        Ok(()) => {
            advance(regs);
            Ok(Outcome::Next)
        }
        Err(MemoryError::Access) => Ok(Outcome::Trap(Cause::StoreAccess)),
        Err(MemoryError::NoMemory) => Err(AllocError),
    }
}

/// A store, by its kind: so the number of bytes is known in each of the arms.
#[inline(always)]
pub(super) fn execute_store<M: Mem>(
    regs: &mut Regs,
    mem: &mut M,
    kind: Store,
    rs1: u8,
    rs2: u8,
    offset: u32,
) -> Result<Outcome, AllocError>
    requires rs1 { rs1 < 32 }
    requires rs2 { rs2 < 32 }
    ensures ok { IfOk result (λ outcome.
        Makes (store_turn (M.workspace mem.old).map regs.old kind
        (sum_of (register regs.old rs1) offset) (register regs.old rs2))
        (M.workspace mem.old) outcome regs.new (M.workspace mem.new)) }
    ensures err { OnErr result ((regs.new ≡ regs.old)
        × (M.workspace mem.new ≡ M.workspace mem.old)) }
{
    let address = regs.get(rs1).wrapping_add(offset);
    let value = regs.get(rs2);
    match kind {
        Store::Byte => store_kind(regs, mem, Store::Byte, address, value),
        Store::Half => store_kind(regs, mem, Store::Half, address, value),
        Store::Word => store_kind(regs, mem, Store::Word, address, value),
    }
}
