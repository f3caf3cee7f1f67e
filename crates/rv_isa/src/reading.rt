//! A word read by its opcode, then by funct3 and funct7 (RISC-V unprivileged ISA 20191213, chapter 24).

ghost use Rattle.std.specs.Prelude.{◌≡◌, ◌⊎◌, IfSome};
ghost use Rattle.isa_spec.specs.Fields.{opcode_of, funct3_of};
ghost use Rattle.isa_spec.specs.Table.{decoded};
ghost use Rattle.isa_spec.specs.Encoding.{InRange};

use crate::fields::{
    funct3, funct7, immediate_b, immediate_i, immediate_j, immediate_s, immediate_u, opcode, rd,
    rs1, rs2,
};
use isa_spec::{
    BranchTest, ImmediateOperation, Instr, Load, RegisterOperation, ShiftOperation, Store,
};

/// LUI.
#[inline(always)]
#[tactic(auto, unfolding(isa_spec::specs::Table::decoded, isa_spec::specs::Table::reading_of))]
fn upper(w: u32) -> Option<Instr>
    requires { opcode_of w ≡ 0b0110111 }
    ensures { result ≡ decoded w }
{
    Some(Instr::Lui {
        rd: rd(w),
        imm: immediate_u(w),
    })
}

/// AUIPC.
#[inline(always)]
#[tactic(auto, unfolding(isa_spec::specs::Table::decoded, isa_spec::specs::Table::reading_of))]
fn upper_from_pc(w: u32) -> Option<Instr>
    requires { opcode_of w ≡ 0b0010111 }
    ensures { result ≡ decoded w }
{
    Some(Instr::Auipc {
        rd: rd(w),
        imm: immediate_u(w),
    })
}

/// JAL.
#[inline(always)]
#[tactic(auto, unfolding(isa_spec::specs::Table::decoded, isa_spec::specs::Table::reading_of))]
fn jump(w: u32) -> Option<Instr>
    requires { opcode_of w ≡ 0b1101111 }
    ensures { result ≡ decoded w }
{
    Some(Instr::Jal {
        rd: rd(w),
        imm: immediate_j(w),
    })
}

/// JALR, which has one funct3.
#[inline(always)]
#[tactic(auto, unfolding(isa_spec::specs::Table::decoded, isa_spec::specs::Table::reading_of))]
fn jump_to_register(w: u32) -> Option<Instr>
    requires { opcode_of w ≡ 0b1100111 }
    ensures { result ≡ decoded w }
{
    if funct3(w) == 0b000 {
        Some(Instr::Jalr {
            rd: rd(w),
            rs1: rs1(w),
            imm: immediate_i(w),
        })
    } else {
        None
    }
}

/// A branch, by its test.
#[inline(always)]
#[tactic(auto, unfolding(isa_spec::specs::Table::decoded, isa_spec::specs::Table::reading_of))]
fn branch(w: u32) -> Option<Instr>
    requires { opcode_of w ≡ 0b1100011 }
    ensures { result ≡ decoded w }
{
    let test = match funct3(w) {
        0b000 => BranchTest::Equal,
        0b001 => BranchTest::NotEqual,
        0b100 => BranchTest::Less,
        0b101 => BranchTest::GreaterOrEqual,
        0b110 => BranchTest::LessUnsigned,
        0b111 => BranchTest::GreaterOrEqualUnsigned,
        _ => return None,
    };
    Some(Instr::Branch {
        test,
        rs1: rs1(w),
        rs2: rs2(w),
        imm: immediate_b(w),
    })
}

/// A load, by its size and extension.
#[inline(always)]
#[tactic(auto, unfolding(isa_spec::specs::Table::decoded, isa_spec::specs::Table::reading_of))]
fn load(w: u32) -> Option<Instr>
    requires { opcode_of w ≡ 0b0000011 }
    ensures { result ≡ decoded w }
{
    let load = match funct3(w) {
        0b000 => Load::Byte,
        0b001 => Load::Half,
        0b010 => Load::Word,
        0b100 => Load::ByteUnsigned,
        0b101 => Load::HalfUnsigned,
        _ => return None,
    };
    Some(Instr::Load {
        load,
        rd: rd(w),
        rs1: rs1(w),
        imm: immediate_i(w),
    })
}

/// A store, by its size.
#[inline(always)]
#[tactic(auto, unfolding(isa_spec::specs::Table::decoded, isa_spec::specs::Table::reading_of))]
fn store(w: u32) -> Option<Instr>
    requires { opcode_of w ≡ 0b0100011 }
    ensures { result ≡ decoded w }
{
    let store = match funct3(w) {
        0b000 => Store::Byte,
        0b001 => Store::Half,
        0b010 => Store::Word,
        _ => return None,
    };
    Some(Instr::Store {
        store,
        rs1: rs1(w),
        rs2: rs2(w),
        imm: immediate_s(w),
    })
}

/// A shift by a constant, whose amount is the rs2 field. A word with any other bit of funct7 than
/// bit 30 is no instruction.
#[inline(always)]
#[tactic(auto, unfolding(isa_spec::specs::Table::decoded, isa_spec::specs::Table::reading_of))]
fn shift(w: u32) -> Option<Instr>
    requires opcode { opcode_of w ≡ 0b0010011 }
    requires shifts { (funct3_of w ≡ 0b001) ⊎ (funct3_of w ≡ 0b101) }
    ensures { result ≡ decoded w }
{
    let shift = match (funct7(w), funct3(w)) {
        (0b0000000, 0b001) => ShiftOperation::LeftLogical,
        (0b0000000, 0b101) => ShiftOperation::RightLogical,
        (0b0100000, 0b101) => ShiftOperation::RightArithmetic,
        _ => return None,
    };
    Some(Instr::Shift {
        shift,
        rd: rd(w),
        rs1: rs1(w),
        amount: rs2(w),
    })
}

/// An operation with an immediate, or a shift by a constant.
#[inline(always)]
#[tactic(auto, unfolding(isa_spec::specs::Table::decoded, isa_spec::specs::Table::reading_of))]
fn immediate(w: u32) -> Option<Instr>
    requires { opcode_of w ≡ 0b0010011 }
    ensures { result ≡ decoded w }
{
    let operation = match funct3(w) {
        0b000 => ImmediateOperation::Add,
        0b001 | 0b101 => return shift(w),
        0b010 => ImmediateOperation::Less,
        0b011 => ImmediateOperation::LessUnsigned,
        0b100 => ImmediateOperation::Xor,
        0b110 => ImmediateOperation::Or,
        _ => ImmediateOperation::And,
    };
    Some(Instr::Immediate {
        operation,
        rd: rd(w),
        rs1: rs1(w),
        imm: immediate_i(w),
    })
}

/// An operation on two registers, by funct7 and funct3; those of the standard extension M have bit 25 alone in funct7.
#[inline(always)]
#[tactic(auto, unfolding(isa_spec::specs::Table::decoded, isa_spec::specs::Table::reading_of))]
fn register(w: u32) -> Option<Instr>
    requires { opcode_of w ≡ 0b0110011 }
    ensures { result ≡ decoded w }
{
    let operation = match (funct7(w), funct3(w)) {
        (0b0000000, 0b000) => RegisterOperation::Add,
        (0b0100000, 0b000) => RegisterOperation::Subtract,
        (0b0000000, 0b001) => RegisterOperation::ShiftLeftLogical,
        (0b0000000, 0b010) => RegisterOperation::Less,
        (0b0000000, 0b011) => RegisterOperation::LessUnsigned,
        (0b0000000, 0b100) => RegisterOperation::Xor,
        (0b0000000, 0b101) => RegisterOperation::ShiftRightLogical,
        (0b0100000, 0b101) => RegisterOperation::ShiftRightArithmetic,
        (0b0000000, 0b110) => RegisterOperation::Or,
        (0b0000000, 0b111) => RegisterOperation::And,
        (0b0000001, 0b000) => RegisterOperation::Multiply,
        (0b0000001, 0b001) => RegisterOperation::MultiplyHigh,
        (0b0000001, 0b010) => RegisterOperation::MultiplyHighSignedUnsigned,
        (0b0000001, 0b011) => RegisterOperation::MultiplyHighUnsigned,
        (0b0000001, 0b100) => RegisterOperation::Divide,
        (0b0000001, 0b101) => RegisterOperation::DivideUnsigned,
        (0b0000001, 0b110) => RegisterOperation::Remainder,
        (0b0000001, 0b111) => RegisterOperation::RemainderUnsigned,
        _ => return None,
    };
    Some(Instr::Register {
        operation,
        rd: rd(w),
        rs1: rs1(w),
        rs2: rs2(w),
    })
}

/// FENCE, whose other fields are free. FENCE.I, of another funct3, is no instruction of RV32IM.
#[inline(always)]
#[tactic(auto, unfolding(isa_spec::specs::Table::decoded, isa_spec::specs::Table::reading_of))]
fn fence(w: u32) -> Option<Instr>
    requires { opcode_of w ≡ 0b0001111 }
    ensures { result ≡ decoded w }
{
    if funct3(w) == 0b000 {
        Some(Instr::Fence)
    } else {
        None
    }
}

/// ECALL and EBREAK, a word each.
#[inline(always)]
#[tactic(auto, unfolding(isa_spec::specs::Table::decoded, isa_spec::specs::Table::reading_of))]
fn system(w: u32) -> Option<Instr>
    requires { opcode_of w ≡ 0b1110011 }
    ensures { result ≡ decoded w }
{
    match w {
        0x0000_0073 => Some(Instr::Ecall),
        0x0010_0073 => Some(Instr::Ebreak),
        _ => None,
    }
}

/// The instruction that a word is, or `None` if RV32IM has none (RISC-V unprivileged ISA 20191213, chapter 24, RV32I
/// Base Instruction Set and RV32M Standard Extension).
///
/// Words of other extensions are `None`: FENCE.I, the CSR instructions, a shift whose word has bit 25, and words of
/// 16 bits.
#[inline(always)]
pub fn decode(w: u32) -> Option<Instr>
    ensures word { result ≡ decoded w }
    ensures in_range { IfSome result InRange }
{
    match opcode(w) {
        0b0110111 => upper(w),
        0b0010111 => upper_from_pc(w),
        0b1101111 => jump(w),
        0b1100111 => jump_to_register(w),
        0b1100011 => branch(w),
        0b0000011 => load(w),
        0b0100011 => store(w),
        0b0010011 => immediate(w),
        0b0110011 => register(w),
        0b0001111 => fence(w),
        0b1110011 => system(w),
        _ => None,
    }
}
