//! Operations that compute, executed in a page.

ghost use Rattle.std.specs.Prelude.{◌≡◌, false, Some};
ghost use Rattle.isa_spec.specs.declared.Instr.TheVariants as instr;
ghost use Rattle.memory_spec.specs.Workspace.{Workspace};
ghost use Rattle.rv_code.specs.Meaning.{may_have_zero};
ghost use Rattle.rv_step.specs.Paging.{Leads, instr_placed, word_at};

use super::placed::{Flow, Placed};
use isa_spec::{ImmediateOperation, RegisterOperation, ShiftOperation};
use rv_isa::{Regs, immediate, register, shift};

/// An operation whose result is its immediate.
#[inline(always)]
pub(super) fn put_constant(placed: Placed, regs: &mut Regs) -> Flow
    requires writes { may_have_zero placed.kind ≡ false }
    requires stands { instr_placed placed
        ≡ Some (instr.Lui placed.rd placed.imm) }
    ensures { (w : Workspace) → Leads result placed w regs.old w regs.new }
{
    regs.write(placed.rd, placed.imm);
    Flow::Next
}

/// An operation with an immediate.
#[inline(always)]
pub(super) fn operate_immediate(
    placed: Placed,
    regs: &mut Regs,
    operation: ImmediateOperation,
) -> Flow
    requires writes { may_have_zero placed.kind ≡ false }
    requires stands { instr_placed placed
        ≡ Some (instr.Immediate operation placed.rd placed.rs1 placed.imm) }
    ensures { (w : Workspace) → Leads result placed w regs.old w regs.new }
{
    let value = immediate(operation, regs.get(placed.rs1), placed.imm);
    regs.write(placed.rd, value);
    Flow::Next
}

/// A shift by a constant, which is below 32.
#[inline(always)]
pub(super) fn operate_shift(placed: Placed, regs: &mut Regs, operation: ShiftOperation) -> Flow
    requires writes { may_have_zero placed.kind ≡ false }
    requires stands { instr_placed placed
        ≡ Some (instr.Shift operation placed.rd placed.rs1 placed.imm) }
    ensures { (w : Workspace) → Leads result placed w regs.old w regs.new }
{
    let amount = (placed.imm % 32) as u8;
    let value = shift(operation, regs.get(placed.rs1), amount);
    regs.write(placed.rd, value);
    Flow::Next
}

/// An operation on two registers.
#[inline(always)]
pub(super) fn operate_register(
    placed: Placed,
    regs: &mut Regs,
    operation: RegisterOperation,
) -> Flow
    requires writes { may_have_zero placed.kind ≡ false }
    requires stands { instr_placed placed
        ≡ Some (instr.Register operation placed.rd placed.rs1 placed.rs2) }
    ensures { (w : Workspace) → Leads result placed w regs.old w regs.new }
{
    let first = regs.get(placed.rs1);
    let second = regs.get(placed.rs2);
    regs.write(placed.rd, register(operation, first, second));
    Flow::Next
}
