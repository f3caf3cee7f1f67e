//! The results of the instructions that compute (RISC-V unprivileged ISA 20191213, 2.4, 2.5, 7.1 and 7.2).

ghost use Rattle.std.specs.Prelude.{◌≡◌};
ghost use Rattle.isa_spec.specs.Operations.{branch_taken, immediate_result, shift_result, register_result};

use crate::products::{
    high_of_mixed, high_of_signed, high_of_unsigned, quotient, quotient_of_unsigned, remainder,
    remainder_of_unsigned,
};
use isa_spec::{BranchTest, ImmediateOperation, RegisterOperation, ShiftOperation};

/// Whether a branch on these operands is taken.
#[inline(always)]
#[tactic(auto, unfolding(isa_spec::specs::Operations::branch_taken))]
pub fn is_taken(test: BranchTest, a: u32, b: u32) -> bool
    ensures { result ≡ branch_taken test a b }
{
    match test {
        BranchTest::Equal => a == b,
        BranchTest::NotEqual => a != b,
        BranchTest::Less => a.cast_signed() < b.cast_signed(),
        BranchTest::GreaterOrEqual => a.cast_signed() >= b.cast_signed(),
        BranchTest::LessUnsigned => a < b,
        BranchTest::GreaterOrEqualUnsigned => a >= b,
    }
}

/// The result of an operation on a register and an extended immediate.
#[inline(always)]
#[tactic(auto, unfolding(isa_spec::specs::Operations::immediate_result))]
pub fn immediate(operation: ImmediateOperation, a: u32, b: u32) -> u32
    ensures { result ≡ immediate_result operation a b }
{
    match operation {
        ImmediateOperation::Add => a.wrapping_add(b),
        ImmediateOperation::Less => u32::from(a.cast_signed() < b.cast_signed()),
        ImmediateOperation::LessUnsigned => u32::from(a < b),
        ImmediateOperation::Xor => a ^ b,
        ImmediateOperation::Or => a | b,
        ImmediateOperation::And => a & b,
    }
}

/// The result of a shift by a constant, of which the low five bits count.
#[inline(always)]
#[tactic(auto, unfolding(isa_spec::specs::Operations::shift_result))]
pub fn shift(shift: ShiftOperation, a: u32, amount: u8) -> u32
    ensures { result ≡ shift_result shift a amount }
{
    let amount = u32::from(amount);
    match shift {
        ShiftOperation::LeftLogical => a.wrapping_shl(amount),
        ShiftOperation::RightLogical => a.wrapping_shr(amount),
        ShiftOperation::RightArithmetic => (a.cast_signed() >> (amount % 32)).cast_unsigned(),
    }
}

/// The result of an operation on two registers. Of a shift's amount the low five bits count.
#[inline(always)]
#[tactic(auto, unfolding(isa_spec::specs::Operations::register_result))]
pub fn register(operation: RegisterOperation, a: u32, b: u32) -> u32
    ensures { result ≡ register_result operation a b }
{
    match operation {
        RegisterOperation::Add => a.wrapping_add(b),
        RegisterOperation::Subtract => a.wrapping_sub(b),
        RegisterOperation::ShiftLeftLogical => a.wrapping_shl(b),
        RegisterOperation::Less => u32::from(a.cast_signed() < b.cast_signed()),
        RegisterOperation::LessUnsigned => u32::from(a < b),
        RegisterOperation::Xor => a ^ b,
        RegisterOperation::ShiftRightLogical => a.wrapping_shr(b),
        RegisterOperation::ShiftRightArithmetic => (a.cast_signed() >> (b % 32)).cast_unsigned(),
        RegisterOperation::Or => a | b,
        RegisterOperation::And => a & b,
        RegisterOperation::Multiply => a.wrapping_mul(b),
        RegisterOperation::MultiplyHigh => high_of_signed(a, b),
        RegisterOperation::MultiplyHighSignedUnsigned => high_of_mixed(a, b),
        RegisterOperation::MultiplyHighUnsigned => high_of_unsigned(a, b),
        RegisterOperation::Divide => quotient(a, b),
        RegisterOperation::DivideUnsigned => quotient_of_unsigned(a, b),
        RegisterOperation::Remainder => remainder(a, b),
        RegisterOperation::RemainderUnsigned => remainder_of_unsigned(a, b),
    }
}
