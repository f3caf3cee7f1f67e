//! One turn.

ghost use Rattle.std.specs.Prelude.{◌≡◌, ◌+◌, IfOk, OnErr};
ghost use Rattle.isa_spec.specs.Encoding.{InRange};
ghost use Rattle.memory_spec.specs.Workspace.{TookAtMost};
ghost use Rattle.thunk_spec.specs.Turn.{executed, turn};
ghost use Rattle.rv_step.specs.Step.{Makes};

use super::access::{execute_load, execute_store};
use super::control::{
    add_to_pc, branch, compute, go_on, jump_by, jump_to, operate_immediate, operate_register,
    operate_shift,
};
use isa_spec::{Cause, Instr};
use memory_spec::MemoryError;
use page_store::Mem;
use rv_isa::{Regs, Turns, decode};
use std::alloc::AllocError;
use thunk_spec::Outcome;

/// Executes an instruction (RISC-V unprivileged ISA 20191213, chapters 2 and 7).
#[inline(always)]
fn execute<M: Mem>(regs: &mut Regs, mem: &mut M, instr: Instr) -> Result<Outcome, AllocError>
    requires { InRange instr }
    ensures ok { IfOk result (λ outcome.
        Makes (executed (M.workspace mem.old).map (M.workspace mem.old).memory regs.old instr)
        (M.workspace mem.old) outcome regs.new (M.workspace mem.new)) }
    ensures err { OnErr result ((regs.new ≡ regs.old)
        × (M.workspace mem.new ≡ M.workspace mem.old)) }
{
    match instr {
        Instr::Lui { rd, imm } => Ok(compute(regs, rd, imm)),
        Instr::Auipc { rd, imm } => Ok(add_to_pc(regs, rd, imm)),
        Instr::Jal { rd, imm } => Ok(jump_by(regs, rd, imm)),
        Instr::Jalr { rd, rs1, imm } => Ok(jump_to(regs, rd, rs1, imm)),
        Instr::Branch {
            test,
            rs1,
            rs2,
            imm,
        } => Ok(branch(regs, test, rs1, rs2, imm)),
        Instr::Load { load, rd, rs1, imm } => execute_load(regs, mem, load, rd, rs1, imm),
        Instr::Store {
            store,
            rs1,
            rs2,
            imm,
        } => execute_store(regs, mem, store, rs1, rs2, imm),
        Instr::Immediate {
            operation,
            rd,
            rs1,
            imm,
        } => Ok(operate_immediate(regs, operation, rd, rs1, imm)),
        Instr::Shift {
            shift,
            rd,
            rs1,
            amount,
        } => Ok(operate_shift(regs, shift, rd, rs1, amount)),
        Instr::Register {
            operation,
            rd,
            rs1,
            rs2,
        } => Ok(operate_register(regs, operation, rd, rs1, rs2)),
        Instr::Fence => Ok(go_on(regs)),
        Instr::Ecall => Ok(Outcome::Call),
        Instr::Ebreak => Ok(Outcome::Trap(Cause::Breakpoint)),
    }
}

/// Makes one turn: fetches the word at the pc, decodes it and executes it
/// (RISC-V unprivileged ISA 20191213, chapter 2).
///
/// At `Call` the instruction is an ECALL. At `Call` and at `Trap` the registers are as before, so the pc is that of the
/// ECALL or of the instruction that trapped, and nothing was stored. The counter rises by one, whatever the result.
///
/// # Errors
///
/// An error if the host's memory ran out. Registers and stores are as before then; the page of the pc may have been
/// noted as read.
#[inline(always)]
#[tactic(auto, unfolding(thunk_spec::specs::Turn::turn))]
pub fn step<M: Mem>(regs: &mut Regs, mem: &mut M, turns: &mut Turns) -> Result<Outcome, AllocError>
    ensures count { turns.new ≡ turns.old + 1 }
    ensures ok { IfOk result (λ outcome.
        Makes (turn (M.workspace mem.old).map (M.workspace mem.old).memory regs.old)
        (M.workspace mem.old) outcome regs.new (M.workspace mem.new)) }
    ensures err { OnErr result ((regs.new ≡ regs.old)
        × TookAtMost regs.old.pc (M.workspace mem.old) (M.workspace mem.new)) }
{
    turns.count(1);
    let pc = regs.pc();
    if pc % 4 != 0 {
        return Ok(Outcome::Trap(Cause::InstructionMisaligned));
    }
    match mem.fetch(pc) {
        Ok(word) => match decode(word) {
            Some(instr) => execute(regs, mem, instr),
            None => Ok(Outcome::Trap(Cause::IllegalInstruction)),
        },
        Err(MemoryError::Access) => Ok(Outcome::Trap(Cause::InstructionAccess)),
        Err(MemoryError::NoMemory) => Err(AllocError),
    }
}
