//! What the instructions of RV32IM mean: their types, words and registers, the table of their encodings, the two laws
//! that tie the table to the encoding, and that registers compare as equal exactly if they are.
//!
//! The definitions are in `specs/`. This crate has no code beside the types and the numbers of causes.
#![tactic(auto)]

ghost use Rattle.std.specs.Prelude.{◌≡◌, ℕ, ◌<◌, ◌^◌, Some};
ghost use Rattle.std.specs.Bool.{Decides};
ghost use Rattle.isa_spec.specs.Registers.{Registers, same_registers};
ghost use Rattle.isa_spec.specs.Table.{decoded};
ghost use Rattle.isa_spec.specs.Encoding.{encoding, InRange, IsWordOf};

/// When a conditional branch is taken (RISC-V unprivileged ISA 20191213, 2.5).
#[derive(Clone, Copy)]
pub enum BranchTest {
    /// BEQ: the operands are equal.
    Equal,
    /// BNE: the operands differ.
    NotEqual,
    /// BLT: the first is less, both read as signed numbers.
    Less,
    /// BGE: the first is not less, both read as signed numbers.
    GreaterOrEqual,
    /// BLTU: the first is less, both read as unsigned numbers.
    LessUnsigned,
    /// BGEU: the first is not less, both read as unsigned numbers.
    GreaterOrEqualUnsigned,
}

/// What a load reads, and how it fills the register (RISC-V unprivileged ISA 20191213, 2.6).
#[derive(Clone, Copy)]
pub enum Load {
    /// LB: a byte, sign-extended.
    Byte,
    /// LH: two bytes, sign-extended.
    Half,
    /// LW: four bytes.
    Word,
    /// LBU: a byte, zero-extended.
    ByteUnsigned,
    /// LHU: two bytes, zero-extended.
    HalfUnsigned,
}

/// How many bytes a store writes (RISC-V unprivileged ISA 20191213, 2.6).
#[derive(Clone, Copy)]
pub enum Store {
    /// SB: the low byte of the register.
    Byte,
    /// SH: its low two bytes.
    Half,
    /// SW: all four bytes.
    Word,
}

/// An operation on a register and an immediate, other than a shift
/// (RISC-V unprivileged ISA 20191213, 2.4, Integer Register-Immediate Instructions).
#[derive(Clone, Copy, PartialEq, Eq)]
pub enum ImmediateOperation {
    /// ADDI.
    Add,
    /// SLTI: 1 if the register is less as a signed number, else 0.
    Less,
    /// SLTIU: the same for unsigned numbers; the extended immediate is read unsigned.
    LessUnsigned,
    /// XORI.
    Xor,
    /// ORI.
    Or,
    /// ANDI.
    And,
}

/// A shift by a constant (RISC-V unprivileged ISA 20191213, 2.4, Integer Register-Immediate Instructions).
#[derive(Clone, Copy)]
pub enum ShiftOperation {
    /// SLLI: zeros come in at the bottom.
    LeftLogical,
    /// SRLI: zeros come in at the top.
    RightLogical,
    /// SRAI: copies of the sign bit come in at the top.
    RightArithmetic,
}

/// An operation on two registers (RISC-V unprivileged ISA 20191213, 2.4, Integer Register-Register Operations; the last
/// eight 7.1 and 7.2, the standard extension M).
#[derive(Clone, Copy)]
pub enum RegisterOperation {
    /// ADD.
    Add,
    /// SUB.
    Subtract,
    /// SLL: by the low five bits of the second register.
    ShiftLeftLogical,
    /// SLT: 1 if the first is less as a signed number, else 0.
    Less,
    /// SLTU: the same for unsigned numbers.
    LessUnsigned,
    /// XOR.
    Xor,
    /// SRL: by the low five bits of the second register.
    ShiftRightLogical,
    /// SRA: by the low five bits of the second register.
    ShiftRightArithmetic,
    /// OR.
    Or,
    /// AND.
    And,
    /// MUL: the low word of the product.
    Multiply,
    /// MULH: the high word of the product of signed numbers.
    MultiplyHigh,
    /// MULHSU: the high word of the product of a signed number and an unsigned one.
    MultiplyHighSignedUnsigned,
    /// MULHU: the high word of the product of unsigned numbers.
    MultiplyHighUnsigned,
    /// DIV: the quotient of signed numbers, rounded toward zero.
    Divide,
    /// DIVU: the quotient of unsigned numbers.
    DivideUnsigned,
    /// REM: the remainder of signed numbers, with the sign of the first.
    Remainder,
    /// REMU: the remainder of unsigned numbers.
    RemainderUnsigned,
}

/// An instruction of RV32IM, grouped by its form (RISC-V unprivileged ISA 20191213, chapters 2 and 7).
///
/// Registers are numbers below 32. `imm` is the immediate as the word that the hart adds or
/// compares: sign-extended to 32 bits, and with its twelve zeros for LUI and AUIPC.
#[derive(Clone, Copy)]
pub enum Instr {
    /// LUI: rd takes the immediate.
    Lui {
        rd: u8,
        imm: u32,
    },
    /// AUIPC: rd takes pc plus the immediate.
    Auipc {
        rd: u8,
        imm: u32,
    },
    /// JAL: a jump to pc plus the immediate; rd takes the address after this instruction.
    Jal {
        rd: u8,
        imm: u32,
    },
    /// JALR: a jump to rs1 plus the immediate with bit 0 cleared; rd as in JAL.
    Jalr {
        rd: u8,
        rs1: u8,
        imm: u32,
    },
    /// A jump to pc plus the immediate if rs1 and rs2 meet the test.
    Branch {
        test: BranchTest,
        rs1: u8,
        rs2: u8,
        imm: u32,
    },
    /// rd takes what memory has at rs1 plus the immediate.
    Load {
        load: Load,
        rd: u8,
        rs1: u8,
        imm: u32,
    },
    /// rs2 goes to memory at rs1 plus the immediate.
    Store {
        store: Store,
        rs1: u8,
        rs2: u8,
        imm: u32,
    },
    /// rd takes the operation's result on rs1 and the immediate.
    Immediate {
        operation: ImmediateOperation,
        rd: u8,
        rs1: u8,
        imm: u32,
    },
    /// rd takes rs1 shifted by an amount below 32.
    Shift {
        shift: ShiftOperation,
        rd: u8,
        rs1: u8,
        amount: u8,
    },
    /// rd takes the operation's result on rs1 and rs2.
    Register {
        operation: RegisterOperation,
        rd: u8,
        rs1: u8,
        rs2: u8,
    },
    /// FENCE: no operation for a hart whose memory is its own.
    Fence,
    /// ECALL: a call of the environment.
    Ecall,
    /// EBREAK: a breakpoint.
    Ebreak,
}

/// Why a hart traps.
///
/// The first eight are exception codes of `mcause`
/// (RISC-V privileged ISA 20211203, 3.1.15); the last is a call that doesn't exist.
#[derive(Clone, Copy, PartialEq, Eq)]
pub enum Cause {
    /// 0: an instruction address that is not a multiple of four.
    InstructionMisaligned,
    /// 1: a fetch from an address that cannot be executed.
    InstructionAccess,
    /// 2: a word that is no instruction.
    IllegalInstruction,
    /// 3: EBREAK.
    Breakpoint,
    /// 4: a load from an address that is not a multiple of its size.
    LoadMisaligned,
    /// 5: a load from an address that cannot be read.
    LoadAccess,
    /// 6: a store to an address that is not a multiple of its size.
    StoreMisaligned,
    /// 7: a store to an address that cannot be written.
    StoreAccess,
    /// 8: an ECALL with a number that is no call.
    BadCall,
}

impl Cause {
    ghost use Rattle.isa_spec.specs.Causes.{number_of};

    /// Its number: the exception code (RISC-V privileged ISA 20211203, 3.1.15), and 8 for a call that doesn't exist.
    pub fn number(self) -> u8
        ensures { result ≡ number_of self }
    {
        match self {
            Cause::InstructionMisaligned => 0,
            Cause::InstructionAccess => 1,
            Cause::IllegalInstruction => 2,
            Cause::Breakpoint => 3,
            Cause::LoadMisaligned => 4,
            Cause::LoadAccess => 5,
            Cause::StoreMisaligned => 6,
            Cause::StoreAccess => 7,
            Cause::BadCall => 8,
        }
    }
}

/// Decoding returns the instruction whose encoding it reads, for operands in range.
#[inline(always)]
pub fn decoding_inverts_encoding()
    ensures { (i : Instr) → InRange i → decoded (encoding i) ≡ Some i }
{}

/// A word that decodes to an instruction is that instruction's encoding, and its operands are in
/// range. A FENCE alone has several words: its other fields are free.
#[inline(always)]
pub fn decoded_was_encoded()
    ensures { (w : ℕ) (i : Instr) → w < 2 ^ 32 → decoded w ≡ Some i → InRange i × IsWordOf w i }
{}

/// Registers compare as the same exactly if they are equal.
#[inline(always)]
pub fn same_registers_are_equal()
    ensures { (a b : Registers) → Decides (same_registers a b) (a ≡ b) }
{}
