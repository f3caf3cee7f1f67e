//! The guest that adds up the bytes of its input.

use isa_spec::{
    BranchTest, ImmediateOperation, Instr, Load, RegisterOperation, ShiftOperation, Store,
};
use rv_asm::Item;

/// The address of the guest.
pub const BASE: u32 = 0x1_0000;

/// How many bytes of zeros follow the guest's items, up to the end of its second page. The total is on that page, at
/// 0x11000.
pub const ZEROS: u32 = 8192 - 228;

// Registers by their names in the RISC-V ELF psABI, Integer Register Convention.
const ZERO: u8 = 0;

const T0: u8 = 5;

const T1: u8 = 6;

const T2: u8 = 7;

const S0: u8 = 8;

const S1: u8 = 9;

const A0: u8 = 10;

const A1: u8 = 11;

const A2: u8 = 12;

const A7: u8 = 17;

/// `lui rd, imm`.
macro_rules! lui {
    ($rd:ident, $imm:literal) => {
        Item::Instruction(Instr::Lui {
            rd: $rd,
            imm: $imm * 4096,
        })
    };
}

/// `addi rd, rs1, imm`.
macro_rules! addi {
    ($rd:ident, $rs1:ident, $imm:expr) => {
        Item::Instruction(Instr::Immediate {
            operation: ImmediateOperation::Add,
            rd: $rd,
            rs1: $rs1,
            imm: $imm,
        })
    };
}

/// `slli rd, rs1, amount`.
macro_rules! slli {
    ($rd:ident, $rs1:ident, $amount:literal) => {
        Item::Instruction(Instr::Shift {
            shift: ShiftOperation::LeftLogical,
            rd: $rd,
            rs1: $rs1,
            amount: $amount,
        })
    };
}

/// `add rd, rs1, rs2`.
macro_rules! add {
    ($rd:ident, $rs1:ident, $rs2:ident) => {
        Item::Instruction(Instr::Register {
            operation: RegisterOperation::Add,
            rd: $rd,
            rs1: $rs1,
            rs2: $rs2,
        })
    };
}

/// `lw` or `lbu rd, imm(rs1)`.
macro_rules! load {
    ($load:ident, $rd:ident, $imm:literal, $rs1:ident) => {
        Item::Instruction(Instr::Load {
            load: Load::$load,
            rd: $rd,
            rs1: $rs1,
            imm: $imm,
        })
    };
}

/// `sw rs2, 0(rs1)`.
macro_rules! store {
    ($rs2:ident, $rs1:ident) => {
        Item::Instruction(Instr::Store {
            store: Store::Word,
            rs1: $rs1,
            rs2: $rs2,
            imm: 0,
        })
    };
}

/// `bne rs1, rs2, imm`: branches back by this number of instructions.
macro_rules! back_where_not_equal {
    ($rs1:ident, $rs2:ident, $count:literal) => {
        Item::Instruction(Instr::Branch {
            test: BranchTest::NotEqual,
            rs1: $rs1,
            rs2: $rs2,
            imm: u32::MAX - 4 * $count + 1,
        })
    };
}

/// `ecall`.
macro_rules! ecall {
    () => {
        Item::Instruction(Instr::Ecall)
    };
}

/// The guest, instruction by instruction. Its first thread begins at the first of them, and creates the others at the
/// offset 0x5c.
pub const ITEMS: [Item; 57] = [
    // Eight threads are created: create(base + 0x5c, s0), for s0 from 0 to 7.
    addi!(S0, ZERO, 0),
    lui!(A0, 0x10),
    addi!(A0, A0, 0x5c),
    addi!(A1, S0, 0),
    addi!(A7, ZERO, 2),
    ecall!(),
    addi!(S0, S0, 1),
    addi!(T0, ZERO, 8),
    back_where_not_equal!(S0, T0, 7),
    // They are joined: join(s0), for s0 from 1 to 8.
    addi!(S0, ZERO, 1),
    addi!(A0, S0, 0),
    addi!(A7, ZERO, 4),
    ecall!(),
    addi!(S0, S0, 1),
    addi!(T0, ZERO, 9),
    back_where_not_equal!(S0, T0, 5),
    // The total is output: put(0x11000, 4).
    lui!(A0, 0x11),
    addi!(A1, ZERO, 4),
    addi!(A7, ZERO, 1),
    ecall!(),
    // exit(0)
    addi!(A0, ZERO, 0),
    addi!(A7, ZERO, 0),
    ecall!(),
    // At 0x5c each of the eight threads begins: s0 is the address of its first block, s1 counts its blocks.
    slli!(S0, A0, 12),
    lui!(T0, 0xc0001),
    add!(S0, S0, T0),
    addi!(S1, ZERO, 8),
    // A block, whose end is t2, is added up in t1.
    addi!(T1, ZERO, 0),
    lui!(T2, 1),
    add!(T2, S0, T2),
    // Four bytes of the block.
    load!(ByteUnsigned, A2, 0, S0),
    add!(T1, T1, A2),
    load!(ByteUnsigned, A2, 1, S0),
    add!(T1, T1, A2),
    load!(ByteUnsigned, A2, 2, S0),
    add!(T1, T1, A2),
    load!(ByteUnsigned, A2, 3, S0),
    add!(T1, T1, A2),
    addi!(S0, S0, 4),
    back_where_not_equal!(S0, T2, 9),
    // lock(0)
    addi!(A0, ZERO, 0),
    addi!(A7, ZERO, 6),
    ecall!(),
    // The block's sum is added to the total.
    lui!(T0, 0x11),
    load!(Word, T2, 0, T0),
    add!(T2, T2, T1),
    store!(T2, T0),
    // unlock(0)
    addi!(A0, ZERO, 0),
    addi!(A7, ZERO, 8),
    ecall!(),
    // The next block of the thread is seven blocks further; s1 is one less.
    lui!(T0, 7),
    add!(S0, S0, T0),
    addi!(S1, S1, u32::MAX),
    back_where_not_equal!(S1, ZERO, 26),
    // thread_exit(0)
    addi!(A0, ZERO, 0),
    addi!(A7, ZERO, 3),
    ecall!(),
];
