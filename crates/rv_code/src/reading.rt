//! Words read as operations, form by form.

ghost use Rattle.std.specs.Prelude.{◌≡◌, ℕ, ◌<◌, ◌≢◌, IfSome, IfNone};
ghost use Rattle.isa_spec.specs.declared.Instr.{Instr};
ghost use Rattle.isa_spec.specs.Encoding.{InRange};
ghost use Rattle.rv_code.specs.Meaning.{StandsFor, word_address};
ghost use Rattle.rv_code.specs.Reading.{ReadAs, PutsConstant};

use super::kinds::{branch_kind, immediate_kind, load_kind, register_kind, shift_kind, store_kind};
use super::operation::{Kind, NOTHING, OTHER, Operation};
use isa_spec::{
    BranchTest, ImmediateOperation, Instr, Load, RegisterOperation, ShiftOperation, Store,
};
use memory_spec::PAGE_SIZE;
use rv_isa::decode;

/// The index of a target's word in the page of an address; none if the page has no word there.
fn index_in_page(target: u32, address: u32) -> Option<u32>
    ensures found { IfSome result (λ index. (index < 1024)
        × (word_address address index ≡ target)) }
    ensures missing { IfNone result ((index : ℕ) → index < 1024
        → word_address address index ≢ target) }
{
    let page = PAGE_SIZE as u32;
    if target % 4 == 0 && target / page == address / page {
        Some(target % page / 4)
    } else {
        None
    }
}

/// A value put into rd, whatever the registers.
fn constant(rd: u8, value: u32) -> Operation
    requires { rd < 32 }
    ensures { (address : ℕ) (i : Instr) → PutsConstant address i rd value
        → ReadAs address i result }
{
    if rd == 0 {
        return NOTHING;
    }
    Operation {
        kind: Kind::Constant,
        rd,
        rs1: 0,
        rs2: 0,
        imm: value,
    }
}

/// JAL: to a word of the page by its index, to another page by the address.
fn jump(rd: u8, offset: u32, address: u32) -> Operation
    requires { rd < 32 }
    ensures { ReadAs address (Instr.Jal rd offset) result }
{
    let target = address.wrapping_add(offset);
    let (kind, imm) = match index_in_page(target, address) {
        Some(index) if rd == 0 => (Kind::Jump, index),
        Some(index) => (Kind::JumpAndLink, index),
        None if target % 4 == 0 => (Kind::JumpFar, target),
        None => return OTHER,
    };
    Operation {
        kind,
        rd,
        rs1: 0,
        rs2: 0,
        imm,
    }
}

/// A branch, to a word of the page by its index.
fn branch(test: BranchTest, rs1: u8, rs2: u8, offset: u32, address: u32) -> Operation
    requires rs1 { rs1 < 32 }
    requires rs2 { rs2 < 32 }
    ensures { ReadAs address (Instr.Branch test rs1 rs2 offset) result }
{
    match index_in_page(address.wrapping_add(offset), address) {
        Some(index) => Operation {
            kind: branch_kind(test),
            rd: 0,
            rs1,
            rs2,
            imm: index,
        },
        None => OTHER,
    }
}

/// A load. One to x0 is left to a turn of its own.
fn load_from(load: Load, rd: u8, rs1: u8, offset: u32) -> Operation
    requires rd { rd < 32 }
    requires rs1 { rs1 < 32 }
    ensures { (address : ℕ) → ReadAs address (Instr.Load load rd rs1 offset) result }
{
    if rd == 0 {
        return OTHER;
    }
    Operation {
        kind: load_kind(load),
        rd,
        rs1,
        rs2: 0,
        imm: offset,
    }
}

/// A store.
fn store_to(store: Store, rs1: u8, rs2: u8, offset: u32) -> Operation
    requires rs1 { rs1 < 32 }
    requires rs2 { rs2 < 32 }
    ensures { (address : ℕ) → ReadAs address (Instr.Store store rs1 rs2 offset) result }
{
    Operation {
        kind: store_kind(store),
        rd: 0,
        rs1,
        rs2,
        imm: offset,
    }
}

/// An operation on a register and an immediate.
fn immediate(operation: ImmediateOperation, rd: u8, rs1: u8, imm: u32) -> Operation
    requires rd { rd < 32 }
    requires rs1 { rs1 < 32 }
    ensures { (address : ℕ) → ReadAs address (Instr.Immediate operation rd rs1 imm) result }
{
    if rd == 0 {
        return NOTHING;
    }
    if operation == ImmediateOperation::Add && rs1 == 0 {
        return constant(rd, imm);
    }
    Operation {
        kind: immediate_kind(operation),
        rd,
        rs1,
        rs2: 0,
        imm,
    }
}

/// A shift by a constant.
fn shift_by(shift: ShiftOperation, rd: u8, rs1: u8, amount: u8) -> Operation
    requires rd { rd < 32 }
    requires rs1 { rs1 < 32 }
    ensures { (address : ℕ) → ReadAs address (Instr.Shift shift rd rs1 amount) result }
{
    if rd == 0 {
        return NOTHING;
    }
    Operation {
        kind: shift_kind(shift),
        rd,
        rs1,
        rs2: 0,
        imm: u32::from(amount),
    }
}

/// An operation on two registers.
fn register(operation: RegisterOperation, rd: u8, rs1: u8, rs2: u8) -> Operation
    requires rd { rd < 32 }
    requires rs1 { rs1 < 32 }
    requires rs2 { rs2 < 32 }
    ensures { (address : ℕ) → ReadAs address (Instr.Register operation rd rs1 rs2) result }
{
    if rd == 0 {
        return NOTHING;
    }
    Operation {
        kind: register_kind(operation),
        rd,
        rs1,
        rs2,
        imm: 0,
    }
}

/// JALR.
fn jump_to_register(rd: u8, rs1: u8, offset: u32) -> Operation
    requires rd { rd < 32 }
    requires rs1 { rs1 < 32 }
    ensures { (address : ℕ) → ReadAs address (Instr.Jalr rd rs1 offset) result }
{
    Operation {
        kind: Kind::JumpToRegister,
        rd,
        rs1,
        rs2: 0,
        imm: offset,
    }
}

/// The operation of an instruction that does the same at each address. The others are left to a turn of their own.
fn operation_anywhere(instr: Instr) -> Operation
    requires { InRange instr }
    ensures { (address : ℕ) → ReadAs address instr result }
{
    match instr {
        Instr::Lui { rd, imm } => constant(rd, imm),
        Instr::Jalr { rd, rs1, imm } => jump_to_register(rd, rs1, imm),
        Instr::Load { load, rd, rs1, imm } => load_from(load, rd, rs1, imm),
        Instr::Store {
            store,
            rs1,
            rs2,
            imm,
        } => store_to(store, rs1, rs2, imm),
        Instr::Immediate {
            operation,
            rd,
            rs1,
            imm,
        } => immediate(operation, rd, rs1, imm),
        Instr::Shift {
            shift,
            rd,
            rs1,
            amount,
        } => shift_by(shift, rd, rs1, amount),
        Instr::Register {
            operation,
            rd,
            rs1,
            rs2,
        } => register(operation, rd, rs1, rs2),
        Instr::Fence => NOTHING,
        _ => OTHER,
    }
}

/// The operation that stands for an instruction at an address.
fn operation_from(instr: Instr, address: u32) -> Operation
    requires { InRange instr }
    ensures { ReadAs address instr result }
{
    match instr {
        Instr::Auipc { rd, imm } => constant(rd, address.wrapping_add(imm)),
        Instr::Jal { rd, imm } => jump(rd, imm, address),
        Instr::Branch {
            test,
            rs1,
            rs2,
            imm,
        } => branch(test, rs1, rs2, imm, address),
        _ => operation_anywhere(instr),
    }
}

/// The operation that stands for a word at an address.
pub(super) fn operation_of(word: u32, address: u32) -> Operation
    ensures { StandsFor address word result }
{
    match decode(word) {
        Some(instr) => operation_from(instr, address),
        None => OTHER,
    }
}
