//! The kinds of operations, form by form.

ghost use Rattle.std.specs.Prelude.{◌≡◌, ℕ, true, false, Some};
ghost use Rattle.isa_spec.specs.declared.Instr.{Instr};
ghost use Rattle.rv_code.specs.Meaning.{instr_by, offset_to, is_inside, may_have_zero};

use super::operation::Kind;
use isa_spec::{BranchTest, ImmediateOperation, Load, RegisterOperation, ShiftOperation, Store};

/// The kind of a branch inside a page, by its test.
pub(super) fn branch_kind(test: BranchTest) -> Kind
    ensures means { (address rd rs1 rs2 imm : ℕ)
        → instr_by result address rd rs1 rs2 imm
        ≡ Some (Instr.Branch test rs1 rs2 (offset_to address imm)) }
    ensures zero { may_have_zero result ≡ true }
{
    match test {
        BranchTest::Equal => Kind::BranchEqual,
        BranchTest::NotEqual => Kind::BranchNotEqual,
        BranchTest::Less => Kind::BranchLess,
        BranchTest::GreaterOrEqual => Kind::BranchGreaterOrEqual,
        BranchTest::LessUnsigned => Kind::BranchLessUnsigned,
        BranchTest::GreaterOrEqualUnsigned => Kind::BranchGreaterOrEqualUnsigned,
    }
}

/// The kind of a load.
pub(super) fn load_kind(load: Load) -> Kind
    ensures means { (address rd rs1 rs2 imm : ℕ)
        → instr_by result address rd rs1 rs2 imm ≡ Some (Instr.Load load rd rs1 imm) }
    ensures inside { is_inside result ≡ false }
{
    match load {
        Load::Byte => Kind::LoadByte,
        Load::Half => Kind::LoadHalf,
        Load::Word => Kind::LoadWord,
        Load::ByteUnsigned => Kind::LoadByteUnsigned,
        Load::HalfUnsigned => Kind::LoadHalfUnsigned,
    }
}

/// The kind of a store.
pub(super) fn store_kind(store: Store) -> Kind
    ensures means { (address rd rs1 rs2 imm : ℕ)
        → instr_by result address rd rs1 rs2 imm ≡ Some (Instr.Store store rs1 rs2 imm) }
    ensures inside { is_inside result ≡ false }
    ensures zero { may_have_zero result ≡ true }
{
    match store {
        Store::Byte => Kind::StoreByte,
        Store::Half => Kind::StoreHalf,
        Store::Word => Kind::StoreWord,
    }
}

/// The kind of an operation on a register and an immediate.
pub(super) fn immediate_kind(operation: ImmediateOperation) -> Kind
    ensures means { (address rd rs1 rs2 imm : ℕ)
        → instr_by result address rd rs1 rs2 imm ≡ Some (Instr.Immediate operation rd rs1 imm) }
    ensures inside { is_inside result ≡ false }
{
    match operation {
        ImmediateOperation::Add => Kind::AddImmediate,
        ImmediateOperation::Less => Kind::LessImmediate,
        ImmediateOperation::LessUnsigned => Kind::LessUnsignedImmediate,
        ImmediateOperation::Xor => Kind::XorImmediate,
        ImmediateOperation::Or => Kind::OrImmediate,
        ImmediateOperation::And => Kind::AndImmediate,
    }
}

/// The kind of a shift by a constant.
pub(super) fn shift_kind(shift: ShiftOperation) -> Kind
    ensures { (address rd rs1 rs2 imm : ℕ)
        → instr_by result address rd rs1 rs2 imm ≡ Some (Instr.Shift shift rd rs1 imm) }
{
    match shift {
        ShiftOperation::LeftLogical => Kind::ShiftLeftImmediate,
        ShiftOperation::RightLogical => Kind::ShiftRightImmediate,
        ShiftOperation::RightArithmetic => Kind::ShiftRightArithmeticImmediate,
    }
}

/// The kind of an operation on two registers.
pub(super) fn register_kind(operation: RegisterOperation) -> Kind
    ensures { (address rd rs1 rs2 imm : ℕ)
        → instr_by result address rd rs1 rs2 imm ≡ Some (Instr.Register operation rd rs1 rs2) }
{
    match operation {
        RegisterOperation::Add => Kind::Add,
        RegisterOperation::Subtract => Kind::Subtract,
        RegisterOperation::ShiftLeftLogical => Kind::ShiftLeft,
        RegisterOperation::Less => Kind::Less,
        RegisterOperation::LessUnsigned => Kind::LessUnsigned,
        RegisterOperation::Xor => Kind::Xor,
        RegisterOperation::ShiftRightLogical => Kind::ShiftRight,
        RegisterOperation::ShiftRightArithmetic => Kind::ShiftRightArithmetic,
        RegisterOperation::Or => Kind::Or,
        RegisterOperation::And => Kind::And,
        RegisterOperation::Multiply => Kind::Multiply,
        RegisterOperation::MultiplyHigh => Kind::MultiplyHigh,
        RegisterOperation::MultiplyHighSignedUnsigned => Kind::MultiplyHighSignedUnsigned,
        RegisterOperation::MultiplyHighUnsigned => Kind::MultiplyHighUnsigned,
        RegisterOperation::Divide => Kind::Divide,
        RegisterOperation::DivideUnsigned => Kind::DivideUnsigned,
        RegisterOperation::Remainder => Kind::Remainder,
        RegisterOperation::RemainderUnsigned => Kind::RemainderUnsigned,
    }
}
