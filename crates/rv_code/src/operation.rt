//! Operations: instructions as a decoded page has them.

use std::mem::size_of;

/// What an operation does. The names are those of the instructions of `isa_spec`, and the sections its own.
#[derive(Clone, Copy, PartialEq, Eq)]
pub enum Kind {
    /// Left to a turn of its own: ECALL, EBREAK, a word that is no instruction, JAL to an address that is no multiple
    /// of 4, a branch to an address that is no word of the page, a load to x0, and the operation after the last word of
    /// a page.
    Other,
    /// Only continues: FENCE, and instructions that compute on registers and immediates alone and have x0 in rd.
    Nothing,
    /// rd takes imm: LUI, AUIPC at its own address, and ADDI of x0.
    Constant,
    /// ADDI.
    AddImmediate,
    /// SLTI.
    LessImmediate,
    /// SLTIU.
    LessUnsignedImmediate,
    /// XORI.
    XorImmediate,
    /// ORI.
    OrImmediate,
    /// ANDI.
    AndImmediate,
    /// SLLI: imm is the amount.
    ShiftLeftImmediate,
    /// SRLI.
    ShiftRightImmediate,
    /// SRAI.
    ShiftRightArithmeticImmediate,
    /// ADD.
    Add,
    /// SUB.
    Subtract,
    /// SLL.
    ShiftLeft,
    /// SLT.
    Less,
    /// SLTU.
    LessUnsigned,
    /// XOR.
    Xor,
    /// SRL.
    ShiftRight,
    /// SRA.
    ShiftRightArithmetic,
    /// OR.
    Or,
    /// AND.
    And,
    /// MUL.
    Multiply,
    /// MULH.
    MultiplyHigh,
    /// MULHSU.
    MultiplyHighSignedUnsigned,
    /// MULHU.
    MultiplyHighUnsigned,
    /// DIV.
    Divide,
    /// DIVU.
    DivideUnsigned,
    /// REM.
    Remainder,
    /// REMU.
    RemainderUnsigned,
    /// LB.
    LoadByte,
    /// LH.
    LoadHalf,
    /// LW.
    LoadWord,
    /// LBU.
    LoadByteUnsigned,
    /// LHU.
    LoadHalfUnsigned,
    /// SB.
    StoreByte,
    /// SH.
    StoreHalf,
    /// SW.
    StoreWord,
    /// BEQ inside the page: imm is the index of the target's word.
    BranchEqual,
    /// BNE, in the same way.
    BranchNotEqual,
    /// BLT.
    BranchLess,
    /// BGE.
    BranchGreaterOrEqual,
    /// BLTU.
    BranchLessUnsigned,
    /// BGEU.
    BranchGreaterOrEqualUnsigned,
    /// JAL inside the page without a link: imm is the index of the target's word.
    Jump,
    /// JAL inside the page: rd takes the address after it.
    JumpAndLink,
    /// JAL out of the page: imm is the target's address.
    JumpFar,
    /// JALR.
    JumpToRegister,
}

/// An operation: what it does, its registers, and its immediate or its target. It takes 8 bytes.
#[derive(Clone, Copy, PartialEq, Eq)]
pub struct Operation {
    /// What it does.
    pub kind: Kind,
    /// The register that takes the result.
    pub rd: u8,
    /// The first operand.
    pub rs1: u8,
    /// The second operand.
    pub rs2: u8,
    /// The immediate, a target's index in the page, or a target's address.
    pub imm: u32,
}

// A page of code has 1,025 of them.
const _: () = prove!(size_of::<Operation>() == 8);

/// An operation that is left to a turn of its own.
pub(super) const OTHER: Operation = Operation {
    kind: Kind::Other,
    rd: 0,
    rs1: 0,
    rs2: 0,
    imm: 0,
};

/// An operation that only continues.
pub(super) const NOTHING: Operation = Operation {
    kind: Kind::Nothing,
    rd: 0,
    rs1: 0,
    rs2: 0,
    imm: 0,
};
