//! Operations by their mnemonics.

ghost use Rattle.std.specs.Prelude.{◌≡◌};
ghost use Rattle.rv_calculate.specs.Results.{result_of};

use rv_isa::{BranchTest, ImmediateOperation, RegisterOperation, ShiftOperation};

/// What an instruction computes on two words.
#[derive(Clone, Copy)]
pub enum Operation {
    /// Whether a branch is taken.
    Branch(BranchTest),
    /// An operation on a register and an immediate.
    Immediate(ImmediateOperation),
    /// A shift by a constant.
    Shift(ShiftOperation),
    /// An operation on two registers.
    Register(RegisterOperation),
}

/// The branch of a mnemonic.
fn branch_named(name: &str) -> Option<Operation> {
    let test = match name {
        "beq" => BranchTest::Equal,
        "bne" => BranchTest::NotEqual,
        "blt" => BranchTest::Less,
        "bge" => BranchTest::GreaterOrEqual,
        "bltu" => BranchTest::LessUnsigned,
        "bgeu" => BranchTest::GreaterOrEqualUnsigned,
        _ => return None,
    };
    Some(Operation::Branch(test))
}

/// The operation with an immediate, or the shift by a constant, of a mnemonic.
fn immediate_named(name: &str) -> Option<Operation> {
    let operation = match name {
        "addi" => Operation::Immediate(ImmediateOperation::Add),
        "slti" => Operation::Immediate(ImmediateOperation::Less),
        "sltiu" => Operation::Immediate(ImmediateOperation::LessUnsigned),
        "xori" => Operation::Immediate(ImmediateOperation::Xor),
        "ori" => Operation::Immediate(ImmediateOperation::Or),
        "andi" => Operation::Immediate(ImmediateOperation::And),
        "slli" => Operation::Shift(ShiftOperation::LeftLogical),
        "srli" => Operation::Shift(ShiftOperation::RightLogical),
        "srai" => Operation::Shift(ShiftOperation::RightArithmetic),
        _ => return None,
    };
    Some(operation)
}

/// The operation on two registers of a mnemonic.
fn register_named(name: &str) -> Option<Operation> {
    let operation = match name {
        "add" => RegisterOperation::Add,
        "sub" => RegisterOperation::Subtract,
        "sll" => RegisterOperation::ShiftLeftLogical,
        "slt" => RegisterOperation::Less,
        "sltu" => RegisterOperation::LessUnsigned,
        "xor" => RegisterOperation::Xor,
        "srl" => RegisterOperation::ShiftRightLogical,
        "sra" => RegisterOperation::ShiftRightArithmetic,
        "or" => RegisterOperation::Or,
        "and" => RegisterOperation::And,
        "mul" => RegisterOperation::Multiply,
        "mulh" => RegisterOperation::MultiplyHigh,
        "mulhsu" => RegisterOperation::MultiplyHighSignedUnsigned,
        "mulhu" => RegisterOperation::MultiplyHighUnsigned,
        "div" => RegisterOperation::Divide,
        "divu" => RegisterOperation::DivideUnsigned,
        "rem" => RegisterOperation::Remainder,
        "remu" => RegisterOperation::RemainderUnsigned,
        _ => return None,
    };
    Some(Operation::Register(operation))
}

impl Operation {
    /// The operation of a mnemonic, or `None` if it is no instruction that computes.
    pub fn named(name: &str) -> Option<Operation> {
        if let Some(operation) = branch_named(name) {
            return Some(operation);
        }
        if let Some(operation) = immediate_named(name) {
            return Some(operation);
        }
        register_named(name)
    }

    /// The result on two words. For a branch it is 1 if the branch is taken, and 0 if it is not.
    pub fn result(self, a: u32, b: u32) -> u32
        ensures { result ≡ result_of self a b }
    {
        match self {
            Operation::Branch(test) => u32::from(rv_isa::is_taken(test, a, b)),
            Operation::Immediate(operation) => rv_isa::immediate(operation, a, b),
            Operation::Shift(shift) => rv_isa::shift(shift, a, (b & 0xff) as u8),
            Operation::Register(operation) => rv_isa::register(operation, a, b),
        }
    }
}
