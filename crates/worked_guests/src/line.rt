//! Lines of assembly.

ghost use Rattle.std.specs.Prelude.{◌≡◌, ◌<◌, All, OnOk};
ghost use Rattle.isa_spec.specs.Encoding.{InRange, IsUpper};
ghost use Rattle.rv_asm.specs.Items.{IsWritable};

use isa_spec::{BranchTest, ImmediateOperation, Load, RegisterOperation, ShiftOperation, Store};
use rv_asm::{Instr, Item};
use std::alloc::AllocError;

/// A register by its name in the RISC-V ELF psABI, Integer Register Convention.
#[derive(Clone, Copy, Debug, PartialEq, Eq)]
pub enum Register {
    /// x0, which is always zero.
    Zero,
    /// x5.
    T0,
    /// x6.
    T1,
    /// x8.
    S0,
    /// x9.
    S1,
    /// x10.
    A0,
    /// x11.
    A1,
    /// x17, which has a call's number.
    A7,
}

/// The number of a register.
fn number(register: Register) -> u8
    ensures { result < 32 }
{
    match register {
        Register::Zero => 0,
        Register::T0 => 5,
        Register::T1 => 6,
        Register::S0 => 8,
        Register::S1 => 9,
        Register::A0 => 10,
        Register::A1 => 11,
        Register::A7 => 17,
    }
}

/// A line of a guest. Its operands are in the order in which assemblers take them (RISC-V unprivileged ISA 20191213,
/// chapter 25).
#[derive(Clone, Copy)]
pub enum Line {
    /// `lui rd, imm`: only the low 20 bits of the immediate count.
    Lui(Register, u32),
    /// `addi rd, rs1, imm`.
    Addi(Register, Register, u8),
    /// `slli rd, rs1, amount`: only the low five bits of the amount count.
    Slli(Register, Register, u8),
    /// `add rd, rs1, rs2`.
    Add(Register, Register, Register),
    /// `mul rd, rs1, rs2`.
    Mul(Register, Register, Register),
    /// `divu rd, rs1, rs2`.
    Divu(Register, Register, Register),
    /// `rem rd, rs1, rs2`.
    Rem(Register, Register, Register),
    /// `lw rd, imm(rs1)`.
    Lw(Register, u8, Register),
    /// `lbu rd, imm(rs1)`.
    Lbu(Register, u8, Register),
    /// `sw rs2, imm(rs1)`.
    Sw(Register, u8, Register),
    /// `sb rs2, imm(rs1)`.
    Sb(Register, u8, Register),
    /// `beq rs1, rs2, imm`: branches forwards by this number of instructions.
    Beq(Register, Register, u8),
    /// `ecall`.
    Ecall,
    /// `addi a7, x0, number` and `ecall`.
    Call(u8),
    /// A word.
    Word(u32),
    /// Bytes.
    Bytes(&'static [u8]),
}

/// An upper immediate from its 20 bits.
fn upper(imm: u32) -> u32
    ensures { IsUpper result }
{
    (imm % 0x10_0000) * 4096
}

/// `addi rd, rs1, imm`.
fn add_immediate(rd: Register, rs1: Register, imm: u8) -> Instr
    ensures { InRange result }
{
    Instr::Immediate {
        operation: ImmediateOperation::Add,
        rd: number(rd),
        rs1: number(rs1),
        imm: u32::from(imm),
    }
}

/// A load at an offset from a register.
fn load(load: Load, rd: Register, imm: u8, rs1: Register) -> Instr
    ensures { InRange result }
{
    Instr::Load {
        load,
        rd: number(rd),
        rs1: number(rs1),
        imm: u32::from(imm),
    }
}

/// A store at an offset from a register.
fn store(store: Store, rs2: Register, imm: u8, rs1: Register) -> Instr
    ensures { InRange result }
{
    Instr::Store {
        store,
        rs1: number(rs1),
        rs2: number(rs2),
        imm: u32::from(imm),
    }
}

/// `beq rs1, rs2, imm`: branches forwards by a number of instructions.
fn branch(rs1: Register, rs2: Register, count: u8) -> Instr
    ensures { InRange result }
{
    Instr::Branch {
        test: BranchTest::Equal,
        rs1: number(rs1),
        rs2: number(rs2),
        imm: u32::from(count) * 4,
    }
}

/// `slli rd, rs1, amount`.
fn shift_left(rd: Register, rs1: Register, amount: u8) -> Instr
    ensures { InRange result }
{
    Instr::Shift {
        shift: ShiftOperation::LeftLogical,
        rd: number(rd),
        rs1: number(rs1),
        amount: amount % 32,
    }
}

/// An operation on two registers.
fn operate(operation: RegisterOperation, rd: Register, rs1: Register, rs2: Register) -> Instr
    ensures { InRange result }
{
    Instr::Register {
        operation,
        rd: number(rd),
        rs1: number(rs1),
        rs2: number(rs2),
    }
}

/// `add rd, rs1, rs2`.
fn add(rd: Register, rs1: Register, rs2: Register) -> Instr
    ensures { InRange result }
{
    operate(RegisterOperation::Add, rd, rs1, rs2)
}

/// `mul rd, rs1, rs2`.
fn multiply(rd: Register, rs1: Register, rs2: Register) -> Instr
    ensures { InRange result }
{
    operate(RegisterOperation::Multiply, rd, rs1, rs2)
}

/// `divu rd, rs1, rs2`.
fn divide_unsigned(rd: Register, rs1: Register, rs2: Register) -> Instr
    ensures { InRange result }
{
    operate(RegisterOperation::DivideUnsigned, rd, rs1, rs2)
}

/// `rem rd, rs1, rs2`.
fn remainder(rd: Register, rs1: Register, rs2: Register) -> Instr
    ensures { InRange result }
{
    operate(RegisterOperation::Remainder, rd, rs1, rs2)
}

/// Appends an instruction to the items.
fn push_instruction(items: &mut Vec<Item>, instr: Instr) -> Result<(), AllocError>
    requires writable { All IsWritable items.old.items }
    requires in_range { InRange instr }
    ensures { OnOk result (All IsWritable items.new.items) }
{
    items.push(Item::Instruction(instr))?;
    Ok(())
}

/// Appends a word to the items.
fn push_word(items: &mut Vec<Item>, word: u32) -> Result<(), AllocError>
    requires { All IsWritable items.old.items }
    ensures { OnOk result (All IsWritable items.new.items) }
{
    items.push(Item::Word(word))?;
    Ok(())
}

/// Appends bytes to the items.
fn push_bytes(items: &mut Vec<Item>, bytes: &[u8]) -> Result<(), AllocError>
    requires { All IsWritable items.old.items }
    ensures { OnOk result (All IsWritable items.new.items) }
{
    for byte in bytes {
        items.push(Item::Byte(*byte))?;
    }
    Ok(())
}

/// Appends the items of a line.
pub(crate) fn push_line(items: &mut Vec<Item>, line: Line) -> Result<(), AllocError>
    requires { All IsWritable items.old.items }
    ensures { OnOk result (All IsWritable items.new.items) }
{
    match line {
        Line::Lui(rd, imm) => push_instruction(
            items,
            Instr::Lui {
                rd: number(rd),
                imm: upper(imm),
            },
        ),
        Line::Addi(rd, rs1, imm) => push_instruction(items, add_immediate(rd, rs1, imm)),
        Line::Slli(rd, rs1, amount) => push_instruction(items, shift_left(rd, rs1, amount)),
        Line::Add(rd, rs1, rs2) => push_instruction(items, add(rd, rs1, rs2)),
        Line::Mul(rd, rs1, rs2) => push_instruction(items, multiply(rd, rs1, rs2)),
        Line::Divu(rd, rs1, rs2) => push_instruction(items, divide_unsigned(rd, rs1, rs2)),
        Line::Rem(rd, rs1, rs2) => push_instruction(items, remainder(rd, rs1, rs2)),
        Line::Lw(rd, imm, rs1) => push_instruction(items, load(Load::Word, rd, imm, rs1)),
        Line::Lbu(rd, imm, rs1) => push_instruction(items, load(Load::ByteUnsigned, rd, imm, rs1)),
        Line::Sw(rs2, imm, rs1) => push_instruction(items, store(Store::Word, rs2, imm, rs1)),
        Line::Sb(rs2, imm, rs1) => push_instruction(items, store(Store::Byte, rs2, imm, rs1)),
        Line::Beq(rs1, rs2, count) => push_instruction(items, branch(rs1, rs2, count)),
        Line::Ecall => push_instruction(items, Instr::Ecall),
        Line::Call(call) => {
            push_instruction(items, add_immediate(Register::A7, Register::Zero, call))?;
            push_instruction(items, Instr::Ecall)
        }
        Line::Word(word) => push_word(items, word),
        Line::Bytes(bytes) => push_bytes(items, bytes),
    }
}
