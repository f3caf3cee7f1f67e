//! Instructions as text: a mnemonic, then `NAME=VALUE` for each operand.

use rv_isa::{
    BranchTest, ImmediateOperation, Instr, Load, RegisterOperation, ShiftOperation, Store,
};
use std::fmt;

/// The mnemonic of a branch.
fn branch_name(test: BranchTest) -> &'static str {
    match test {
        BranchTest::Equal => "beq",
        BranchTest::NotEqual => "bne",
        BranchTest::Less => "blt",
        BranchTest::GreaterOrEqual => "bge",
        BranchTest::LessUnsigned => "bltu",
        BranchTest::GreaterOrEqualUnsigned => "bgeu",
    }
}

/// The mnemonic of a load.
fn load_name(load: Load) -> &'static str {
    match load {
        Load::Byte => "lb",
        Load::Half => "lh",
        Load::Word => "lw",
        Load::ByteUnsigned => "lbu",
        Load::HalfUnsigned => "lhu",
    }
}

/// The mnemonic of a store.
fn store_name(store: Store) -> &'static str {
    match store {
        Store::Byte => "sb",
        Store::Half => "sh",
        Store::Word => "sw",
    }
}

/// The mnemonic of an operation with an immediate.
fn immediate_name(operation: ImmediateOperation) -> &'static str {
    match operation {
        ImmediateOperation::Add => "addi",
        ImmediateOperation::Less => "slti",
        ImmediateOperation::LessUnsigned => "sltiu",
        ImmediateOperation::Xor => "xori",
        ImmediateOperation::Or => "ori",
        ImmediateOperation::And => "andi",
    }
}

/// The mnemonic of a shift by a constant.
fn shift_name(shift: ShiftOperation) -> &'static str {
    match shift {
        ShiftOperation::LeftLogical => "slli",
        ShiftOperation::RightLogical => "srli",
        ShiftOperation::RightArithmetic => "srai",
    }
}

/// The mnemonic of an operation on two registers.
fn register_name(operation: RegisterOperation) -> &'static str {
    match operation {
        RegisterOperation::Add => "add",
        RegisterOperation::Subtract => "sub",
        RegisterOperation::ShiftLeftLogical => "sll",
        RegisterOperation::Less => "slt",
        RegisterOperation::LessUnsigned => "sltu",
        RegisterOperation::Xor => "xor",
        RegisterOperation::ShiftRightLogical => "srl",
        RegisterOperation::ShiftRightArithmetic => "sra",
        RegisterOperation::Or => "or",
        RegisterOperation::And => "and",
        RegisterOperation::Multiply => "mul",
        RegisterOperation::MultiplyHigh => "mulh",
        RegisterOperation::MultiplyHighSignedUnsigned => "mulhsu",
        RegisterOperation::MultiplyHighUnsigned => "mulhu",
        RegisterOperation::Divide => "div",
        RegisterOperation::DivideUnsigned => "divu",
        RegisterOperation::Remainder => "rem",
        RegisterOperation::RemainderUnsigned => "remu",
    }
}

/// The mnemonic of an instruction.
fn mnemonic(instr: Instr) -> &'static str {
    match instr {
        Instr::Lui { .. } => "lui",
        Instr::Auipc { .. } => "auipc",
        Instr::Jal { .. } => "jal",
        Instr::Jalr { .. } => "jalr",
        Instr::Branch { test, .. } => branch_name(test),
        Instr::Load { load, .. } => load_name(load),
        Instr::Store { store, .. } => store_name(store),
        Instr::Immediate { operation, .. } => immediate_name(operation),
        Instr::Shift { shift, .. } => shift_name(shift),
        Instr::Register { operation, .. } => register_name(operation),
        Instr::Fence => "fence",
        Instr::Ecall => "ecall",
        Instr::Ebreak => "ebreak",
    }
}

/// Writes the operands of an instruction, each after a space.
fn write_operands<W: fmt::Write>(f: &mut fmt::Formatter<W>, instr: Instr) -> fmt::Result {
    match instr {
        Instr::Lui { rd, imm } | Instr::Auipc { rd, imm } | Instr::Jal { rd, imm } => {
            write!(f, " rd={rd} imm={imm:08x}")
        }
        Instr::Jalr { rd, rs1, imm }
        | Instr::Load { rd, rs1, imm, .. }
        | Instr::Immediate { rd, rs1, imm, .. } => write!(f, " rd={rd} rs1={rs1} imm={imm:08x}"),
        Instr::Branch { rs1, rs2, imm, .. } | Instr::Store { rs1, rs2, imm, .. } => {
            write!(f, " rs1={rs1} rs2={rs2} imm={imm:08x}")
        }
        Instr::Shift {
            rd,
            rs1,
            amount,
            ..
        } => write!(f, " rd={rd} rs1={rs1} shamt={amount}"),
        Instr::Register { rd, rs1, rs2, .. } => write!(f, " rd={rd} rs1={rs1} rs2={rs2}"),
        Instr::Fence | Instr::Ecall | Instr::Ebreak => Ok(()),
    }
}

/// An instruction, to be shown as its mnemonic and its operands.
#[derive(Clone, Copy)]
pub struct Assembly(pub Instr);

impl fmt::Display for Assembly {
    fn fmt<W: fmt::Write>(&self, f: &mut fmt::Formatter<W>) -> fmt::Result {
        let name = mnemonic(self.0);
        write!(f, "{name}")?;
        write_operands(f, self.0)
    }
}
