//! The operation of a page, executed in place of a turn.

ghost use Rattle.std.specs.Prelude.{◌≡◌, IfOk, OnErr};
ghost use Rattle.memory_spec.specs.Workspace.{Workspace};
ghost use Rattle.rv_step.specs.Paging.{Leads};

use super::computing::{operate_immediate, operate_register, operate_shift, put_constant};
use super::jumping::{branch, jump, jump_and_link, jump_far, jump_to_register};
use super::moving::{load, store};
use super::placed::{Flow, Placed};
use isa_spec::{BranchTest, ImmediateOperation, Load, RegisterOperation, ShiftOperation, Store};
use page_store::Mem;
use rv_code::Kind;
use rv_isa::Regs;
use std::alloc::AllocError;

/// A match over a kind with one arm for each, so that one jump leads to the code that executes it. Each entry names a
/// function, its arguments, and the kinds that it executes, each with a last argument if there is one; the functions
/// before the semicolon may fail.
macro_rules! by_kind {
    (@call $run:ident ($($given:expr),*) ($($more:expr)?)) => { $run($($given,)* $($more)?) };
    (
        $kind:expr;
        $($tried:ident $try_given:tt { $($try_kind:ident $try_more:tt)* })*;
        $($run:ident $given:tt { $($run_kind:ident $more:tt)* })*
    ) => {
        match $kind {
            $($(Kind::$try_kind => by_kind!(@call $tried $try_given $try_more),)*)*
            $($(Kind::$run_kind => Ok(by_kind!(@call $run $given $more)),)*)*
            Kind::Nothing => Ok(Flow::Next),
            Kind::Other => Ok(Flow::Other),
        }
    };
}

/// Executes an operation in place of a turn, or leaves it to one.
///
/// # Errors
///
/// An error if the host's memory ran out; nothing changes then.
#[inline(always)]
pub(super) fn execute_operation<M: Mem>(
    placed: Placed,
    regs: &mut Regs,
    mem: &mut M,
) -> Result<Flow, AllocError>
    ensures ok { IfOk result (λ flow.
        Leads flow placed (M.workspace mem.old) regs.old (M.workspace mem.new) regs.new) }
    ensures err { OnErr result ((regs.new ≡ regs.old)
        × (M.workspace mem.new ≡ M.workspace mem.old)) }
{
    by_kind!(placed.kind;
        load(placed, regs, mem) {
            LoadByte(Load::Byte) LoadHalf(Load::Half) LoadWord(Load::Word) LoadByteUnsigned(Load::ByteUnsigned)
            LoadHalfUnsigned(Load::HalfUnsigned)
        }
        store(placed, regs, mem) { StoreByte(Store::Byte) StoreHalf(Store::Half) StoreWord(Store::Word) };
        branch(placed, regs) {
            BranchEqual(BranchTest::Equal) BranchNotEqual(BranchTest::NotEqual) BranchLess(BranchTest::Less)
            BranchGreaterOrEqual(BranchTest::GreaterOrEqual) BranchLessUnsigned(BranchTest::LessUnsigned)
            BranchGreaterOrEqualUnsigned(BranchTest::GreaterOrEqualUnsigned)
        }
        jump(placed) { Jump() }
        jump_and_link(placed, regs) { JumpAndLink() }
        jump_far(placed, regs) { JumpFar() }
        jump_to_register(placed, regs) { JumpToRegister() }
        put_constant(placed, regs) { Constant() }
        operate_immediate(placed, regs) {
            AddImmediate(ImmediateOperation::Add) LessImmediate(ImmediateOperation::Less)
            LessUnsignedImmediate(ImmediateOperation::LessUnsigned) XorImmediate(ImmediateOperation::Xor)
            OrImmediate(ImmediateOperation::Or) AndImmediate(ImmediateOperation::And)
        }
        operate_shift(placed, regs) {
            ShiftLeftImmediate(ShiftOperation::LeftLogical) ShiftRightImmediate(ShiftOperation::RightLogical)
            ShiftRightArithmeticImmediate(ShiftOperation::RightArithmetic)
        }
        operate_register(placed, regs) {
            Add(RegisterOperation::Add) Subtract(RegisterOperation::Subtract)
            ShiftLeft(RegisterOperation::ShiftLeftLogical) Less(RegisterOperation::Less)
            LessUnsigned(RegisterOperation::LessUnsigned) Xor(RegisterOperation::Xor)
            ShiftRight(RegisterOperation::ShiftRightLogical) Or(RegisterOperation::Or)
            ShiftRightArithmetic(RegisterOperation::ShiftRightArithmetic) And(RegisterOperation::And)
            Multiply(RegisterOperation::Multiply) MultiplyHigh(RegisterOperation::MultiplyHigh)
            MultiplyHighSignedUnsigned(RegisterOperation::MultiplyHighSignedUnsigned)
            MultiplyHighUnsigned(RegisterOperation::MultiplyHighUnsigned) Divide(RegisterOperation::Divide)
            DivideUnsigned(RegisterOperation::DivideUnsigned) Remainder(RegisterOperation::Remainder)
            RemainderUnsigned(RegisterOperation::RemainderUnsigned)
        }
    )
}
