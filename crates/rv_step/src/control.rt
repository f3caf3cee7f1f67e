//! Turns that don't access memory: results into registers, jumps and branches.

ghost use Rattle.std.specs.Prelude.{◌≡◌, ◌<◌, ◌*◌, ◌/◌};
ghost use Rattle.isa_spec.specs.Registers.{register, with_register};
ghost use Rattle.isa_spec.specs.Operations.{immediate_result, shift_result, register_result};
ghost use Rattle.isa_spec.specs.Words.{sum_of};
ghost use Rattle.thunk_spec.specs.Turn.{advanced, linked, jumped, branched};
ghost use Rattle.rv_step.specs.Step.{untouched};

use isa_spec::{BranchTest, Cause, ImmediateOperation, RegisterOperation, ShiftOperation};
use rv_isa::{Regs, immediate, is_taken, register, shift};
use thunk_spec::Outcome;

/// Continues at the next instruction (RISC-V unprivileged ISA 20191213, 2.1).
#[inline(always)]
pub(super) fn advance(regs: &mut Regs)
    ensures { regs.new ≡ advanced regs.old }
{
    let pc = regs.pc();
    regs.set_pc(pc.wrapping_add(4));
}

/// An instruction that does nothing: FENCE, since a hart has one view of memory (RISC-V unprivileged ISA 20191213,
/// 2.7).
#[inline(always)]
pub(super) fn go_on(regs: &mut Regs) -> Outcome
    ensures next { result ≡ Outcome.Next }
    ensures registers { regs.new ≡ advanced regs.old }
{
    advance(regs);
    Outcome::Next
}

/// Writes the result of an instruction, and continues at the next one (RISC-V unprivileged ISA 20191213, 2.4).
#[inline(always)]
pub(super) fn compute(regs: &mut Regs, rd: u8, value: u32) -> Outcome
    requires { rd < 32 }
    ensures next { result ≡ Outcome.Next }
    ensures registers { regs.new ≡ advanced (with_register regs.old rd value) }
{
    regs.set(rd, value);
    advance(regs);
    Outcome::Next
}

/// AUIPC: pc plus an immediate (RISC-V unprivileged ISA 20191213, 2.4).
#[inline(always)]
pub(super) fn add_to_pc(regs: &mut Regs, rd: u8, imm: u32) -> Outcome
    requires { rd < 32 }
    ensures next { result ≡ Outcome.Next }
    ensures registers { regs.new ≡ advanced (with_register regs.old rd (sum_of regs.old.pc imm)) }
{
    let value = regs.pc().wrapping_add(imm);
    compute(regs, rd, value)
}

/// An operation with an immediate (RISC-V unprivileged ISA 20191213, 2.4).
#[inline(always)]
pub(super) fn operate_immediate(
    regs: &mut Regs,
    operation: ImmediateOperation,
    rd: u8,
    rs1: u8,
    imm: u32,
) -> Outcome
    requires rd { rd < 32 }
    requires rs1 { rs1 < 32 }
    ensures next { result ≡ Outcome.Next }
    ensures registers { regs.new
        ≡ advanced
        (with_register regs.old rd (immediate_result operation (register regs.old rs1) imm)) }
{
    let value = immediate(operation, regs.get(rs1), imm);
    compute(regs, rd, value)
}

/// A shift by a constant (RISC-V unprivileged ISA 20191213, 2.4).
#[inline(always)]
pub(super) fn operate_shift(
    regs: &mut Regs,
    kind: ShiftOperation,
    rd: u8,
    rs1: u8,
    amount: u8,
) -> Outcome
    requires rd { rd < 32 }
    requires rs1 { rs1 < 32 }
    ensures next { result ≡ Outcome.Next }
    ensures registers { regs.new
        ≡ advanced (with_register regs.old rd (shift_result kind (register regs.old rs1) amount)) }
{
    let value = shift(kind, regs.get(rs1), amount);
    compute(regs, rd, value)
}

/// An operation on two registers (RISC-V unprivileged ISA 20191213, 2.4, 7.1 and 7.2).
#[inline(always)]
pub(super) fn operate_register(
    regs: &mut Regs,
    operation: RegisterOperation,
    rd: u8,
    rs1: u8,
    rs2: u8,
) -> Outcome
    requires rd { rd < 32 }
    requires rs1 { rs1 < 32 }
    requires rs2 { rs2 < 32 }
    ensures next { result ≡ Outcome.Next }
    ensures registers { regs.new
        ≡ advanced (with_register regs.old rd
        (register_result operation (register regs.old rs1) (register regs.old rs2))) }
{
    let value = register(operation, regs.get(rs1), regs.get(rs2));
    compute(regs, rd, value)
}

/// Jumps to a target, and writes the address of the next instruction into rd. A target that isn't
/// a multiple of 4 traps, and nothing is written then (RISC-V unprivileged ISA 20191213, 2.5, Unconditional Jumps).
#[inline(always)]
pub(super) fn jump(regs: &mut Regs, rd: u8, target: u32) -> Outcome
    requires { rd < 32 }
    ensures { untouched result regs.new ≡ jumped regs.old (linked regs.old rd) target }
{
    if target % 4 == 0 {
        let after = regs.pc().wrapping_add(4);
        regs.set(rd, after);
        regs.set_pc(target);
        Outcome::Next
    } else {
        Outcome::Trap(Cause::InstructionMisaligned)
    }
}

/// Jumps to a target. One that isn't a multiple of 4 traps
/// (RISC-V unprivileged ISA 20191213, 2.5, Conditional Branches).
#[inline(always)]
fn jump_alone(regs: &mut Regs, target: u32) -> Outcome
    ensures { untouched result regs.new ≡ jumped regs.old regs.old target }
{
    if target % 4 == 0 {
        regs.set_pc(target);
        Outcome::Next
    } else {
        Outcome::Trap(Cause::InstructionMisaligned)
    }
}

/// JAL: jumps to pc plus an offset (RISC-V unprivileged ISA 20191213, 2.5, Unconditional Jumps).
#[inline(always)]
pub(super) fn jump_by(regs: &mut Regs, rd: u8, offset: u32) -> Outcome
    requires { rd < 32 }
    ensures { untouched result regs.new
        ≡ jumped regs.old (linked regs.old rd) (sum_of regs.old.pc offset) }
{
    let target = regs.pc().wrapping_add(offset);
    jump(regs, rd, target)
}

/// JALR: jumps to a register plus an offset, without its lowest bit
/// (RISC-V unprivileged ISA 20191213, 2.5, Unconditional Jumps).
#[inline(always)]
pub(super) fn jump_to(regs: &mut Regs, rd: u8, rs1: u8, offset: u32) -> Outcome
    requires rd { rd < 32 }
    requires rs1 { rs1 < 32 }
    ensures { untouched result regs.new
        ≡ jumped regs.old (linked regs.old rd) (sum_of (register regs.old rs1) offset / 2 * 2) }
{
    let target = regs.get(rs1).wrapping_add(offset) & 0xffff_fffe;
    jump(regs, rd, target)
}

/// Jumps to pc plus the offset if the operands meet the test, else continues at the next instruction (RISC-V
/// unprivileged ISA 20191213, 2.5, Conditional Branches).
#[inline(always)]
pub(super) fn branch(regs: &mut Regs, test: BranchTest, rs1: u8, rs2: u8, offset: u32) -> Outcome
    requires rs1 { rs1 < 32 }
    requires rs2 { rs2 < 32 }
    ensures { untouched result regs.new
        ≡ branched regs.old test (register regs.old rs1) (register regs.old rs2) offset }
{
    if is_taken(test, regs.get(rs1), regs.get(rs2)) {
        let target = regs.pc().wrapping_add(offset);
        jump_alone(regs, target)
    } else {
        go_on(regs)
    }
}
