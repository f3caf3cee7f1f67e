//! The word of an instruction (RISC-V unprivileged ISA 20191213, 2.2, 2.3 and chapter 24).

ghost use Rattle.std.specs.Prelude.{◌≡◌, ◌<◌, ◌^◌, Some};
ghost use Rattle.isa_spec.specs.Table.{decoded};
ghost use Rattle.rv_isa.specs.Forms.{IsOperation};
ghost use Rattle.isa_spec.specs.Encoding.{word_of, i_word, s_word, b_word, u_word, j_word, branch_code, load_code, store_code, immediate_code, shift_code, shift_top, register_code, register_top, IsUpper, encoding, InRange};

use isa_spec::{
    BranchTest, ImmediateOperation, Instr, Load, RegisterOperation, ShiftOperation, Store,
};

/// The fields of a word, from its top to its opcode.
#[derive(Clone, Copy)]
struct Fields {
    funct7: u32,
    rs2: u32,
    rs1: u32,
    funct3: u32,
    rd: u32,
    opcode: u32,
}

/// A word put together from its fields.
fn word(fields: Fields) -> u32
    requires funct7 { fields.funct7 < 2 ^ 7 }
    requires rs2 { fields.rs2 < 2 ^ 5 }
    requires rs1 { fields.rs1 < 2 ^ 5 }
    requires funct3 { fields.funct3 < 2 ^ 3 }
    requires rd { fields.rd < 2 ^ 5 }
    requires opcode { fields.opcode < 2 ^ 7 }
    ensures { result
        ≡ word_of fields.funct7 fields.rs2 fields.rs1 fields.funct3 fields.rd fields.opcode }
{
    (fields.funct7 << 25)
        + (fields.rs2 << 20)
        + (fields.rs1 << 15)
        + (fields.funct3 << 12)
        + (fields.rd << 7)
        + fields.opcode
}

/// The I-type, with the immediate's low twelve bits at its top.
fn i_type(imm: u32, rs1: u8, funct3: u32, rd: u8, opcode: u32) -> u32
    requires rs1 { rs1 < 2 ^ 5 }
    requires funct3 { funct3 < 2 ^ 3 }
    requires rd { rd < 2 ^ 5 }
    requires opcode { opcode < 2 ^ 7 }
    ensures { result ≡ i_word imm rs1 funct3 rd opcode }
{
    word(Fields {
        funct7: (imm >> 5) & 0x7f,
        rs2: imm & 0x1f,
        rs1: u32::from(rs1),
        funct3,
        rd: u32::from(rd),
        opcode,
    })
}

/// The S-type, with the immediate's low bits in the place of rd.
fn s_type(imm: u32, rs2: u8, rs1: u8, funct3: u32, opcode: u32) -> u32
    requires rs2 { rs2 < 2 ^ 5 }
    requires rs1 { rs1 < 2 ^ 5 }
    requires funct3 { funct3 < 2 ^ 3 }
    requires opcode { opcode < 2 ^ 7 }
    ensures { result ≡ s_word imm rs2 rs1 funct3 opcode }
{
    word(Fields {
        funct7: (imm >> 5) & 0x7f,
        rs2: u32::from(rs2),
        rs1: u32::from(rs1),
        funct3,
        rd: imm & 0x1f,
        opcode,
    })
}

/// The B-type, with bit 11 of the offset below its bits 4 to 1.
fn b_type(imm: u32, rs2: u8, rs1: u8, funct3: u32, opcode: u32) -> u32
    requires rs2 { rs2 < 2 ^ 5 }
    requires rs1 { rs1 < 2 ^ 5 }
    requires funct3 { funct3 < 2 ^ 3 }
    requires opcode { opcode < 2 ^ 7 }
    ensures { result ≡ b_word imm rs2 rs1 funct3 opcode }
{
    word(Fields {
        funct7: (((imm >> 12) & 1) << 6) + ((imm >> 5) & 0x3f),
        rs2: u32::from(rs2),
        rs1: u32::from(rs1),
        funct3,
        rd: (((imm >> 1) & 0xf) << 1) + ((imm >> 11) & 1),
        opcode,
    })
}

/// The U-type, with the immediate unchanged.
fn u_type(imm: u32, rd: u8, opcode: u32) -> u32
    requires imm { IsUpper imm }
    requires rd { rd < 2 ^ 5 }
    requires opcode { opcode < 2 ^ 7 }
    ensures { result ≡ u_word imm rd opcode }
{
    imm + (u32::from(rd) << 7) + opcode
}

/// The J-type, with bits 20, 10 to 1, 11 and 19 to 12 of the offset from the top down.
fn j_type(imm: u32, rd: u8, opcode: u32) -> u32
    requires rd { rd < 2 ^ 5 }
    requires opcode { opcode < 2 ^ 7 }
    ensures { result ≡ j_word imm rd opcode }
{
    (((imm >> 20) & 1) << 31)
        + (((imm >> 1) & 0x3ff) << 21)
        + (((imm >> 11) & 1) << 20)
        + (((imm >> 12) & 0xff) << 12)
        + (u32::from(rd) << 7)
        + opcode
}

/// funct3 of a branch.
fn branch_funct3(test: BranchTest) -> u32
    ensures value { result ≡ branch_code test }
    ensures fits { result < 2 ^ 3 }
{
    match test {
        BranchTest::Equal => 0b000,
        BranchTest::NotEqual => 0b001,
        BranchTest::Less => 0b100,
        BranchTest::GreaterOrEqual => 0b101,
        BranchTest::LessUnsigned => 0b110,
        BranchTest::GreaterOrEqualUnsigned => 0b111,
    }
}

/// funct3 of a load.
fn load_funct3(load: Load) -> u32
    ensures value { result ≡ load_code load }
    ensures fits { result < 2 ^ 3 }
{
    match load {
        Load::Byte => 0b000,
        Load::Half => 0b001,
        Load::Word => 0b010,
        Load::ByteUnsigned => 0b100,
        Load::HalfUnsigned => 0b101,
    }
}

/// funct3 of a store.
fn store_funct3(store: Store) -> u32
    ensures value { result ≡ store_code store }
    ensures fits { result < 2 ^ 3 }
{
    match store {
        Store::Byte => 0b000,
        Store::Half => 0b001,
        Store::Word => 0b010,
    }
}

/// funct3 of an operation with an immediate.
fn immediate_funct3(operation: ImmediateOperation) -> u32
    ensures value { result ≡ immediate_code operation }
    ensures fits { result < 2 ^ 3 }
{
    match operation {
        ImmediateOperation::Add => 0b000,
        ImmediateOperation::Less => 0b010,
        ImmediateOperation::LessUnsigned => 0b011,
        ImmediateOperation::Xor => 0b100,
        ImmediateOperation::Or => 0b110,
        ImmediateOperation::And => 0b111,
    }
}

/// funct7 and funct3 of a shift by a constant.
fn shift_codes(shift: ShiftOperation) -> (u32, u32)
    ensures value { result ≡ (shift_top shift, shift_code shift) }
    ensures fits { (result.0 < 2 ^ 7) × (result.1 < 2 ^ 3) }
{
    match shift {
        ShiftOperation::LeftLogical => (0b0000000, 0b001),
        ShiftOperation::RightLogical => (0b0000000, 0b101),
        ShiftOperation::RightArithmetic => (0b0100000, 0b101),
    }
}

/// funct7 and funct3 of an operation on two registers.
fn register_codes(operation: RegisterOperation) -> (u32, u32)
    ensures value { result ≡ (register_top operation, register_code operation) }
    ensures fits { (result.0 < 2 ^ 7) × (result.1 < 2 ^ 3) }
{
    match operation {
        RegisterOperation::Add => (0b0000000, 0b000),
        RegisterOperation::Subtract => (0b0100000, 0b000),
        RegisterOperation::ShiftLeftLogical => (0b0000000, 0b001),
        RegisterOperation::Less => (0b0000000, 0b010),
        RegisterOperation::LessUnsigned => (0b0000000, 0b011),
        RegisterOperation::Xor => (0b0000000, 0b100),
        RegisterOperation::ShiftRightLogical => (0b0000000, 0b101),
        RegisterOperation::ShiftRightArithmetic => (0b0100000, 0b101),
        RegisterOperation::Or => (0b0000000, 0b110),
        RegisterOperation::And => (0b0000000, 0b111),
        RegisterOperation::Multiply => (0b0000001, 0b000),
        RegisterOperation::MultiplyHigh => (0b0000001, 0b001),
        RegisterOperation::MultiplyHighSignedUnsigned => (0b0000001, 0b010),
        RegisterOperation::MultiplyHighUnsigned => (0b0000001, 0b011),
        RegisterOperation::Divide => (0b0000001, 0b100),
        RegisterOperation::DivideUnsigned => (0b0000001, 0b101),
        RegisterOperation::Remainder => (0b0000001, 0b110),
        RegisterOperation::RemainderUnsigned => (0b0000001, 0b111),
    }
}

/// The R-type, which shifts by a constant have too.
fn r_type(codes: (u32, u32), rs2: u8, rs1: u8, rd: u8, opcode: u32) -> u32
    requires codes { (codes.0 < 2 ^ 7) × (codes.1 < 2 ^ 3) }
    requires rs2 { rs2 < 2 ^ 5 }
    requires rs1 { rs1 < 2 ^ 5 }
    requires rd { rd < 2 ^ 5 }
    requires opcode { opcode < 2 ^ 7 }
    ensures { result ≡ word_of codes.0 rs2 rs1 codes.1 rd opcode }
{
    let (funct7, funct3) = codes;
    word(Fields {
        funct7,
        rs2: u32::from(rs2),
        rs1: u32::from(rs1),
        funct3,
        rd: u32::from(rd),
        opcode,
    })
}

/// The word of an operation, by its form.
fn operation(instr: Instr) -> u32
    requires in_range { InRange instr }
    requires operation { IsOperation instr }
    ensures { result ≡ encoding instr }
{
    match instr {
        Instr::Immediate {
            operation,
            rd,
            rs1,
            imm,
        } => { i_type(imm, rs1, immediate_funct3(operation), rd, 0b0010011) }
        Instr::Shift {
            shift,
            rd,
            rs1,
            amount,
        } => r_type(shift_codes(shift), amount, rs1, rd, 0b0010011),
        Instr::Register {
            operation,
            rd,
            rs1,
            rs2,
        } => { r_type(register_codes(operation), rs2, rs1, rd, 0b0110011) }
        _ => unreachable!(),
    }
}

/// The word of an instruction, by its form.
fn written(instr: Instr) -> u32
    requires { InRange instr }
    ensures { result ≡ encoding instr }
{
    match instr {
        Instr::Lui { rd, imm } => u_type(imm, rd, 0b0110111),
        Instr::Auipc { rd, imm } => u_type(imm, rd, 0b0010111),
        Instr::Jal { rd, imm } => j_type(imm, rd, 0b1101111),
        Instr::Jalr { rd, rs1, imm } => i_type(imm, rs1, 0b000, rd, 0b1100111),
        Instr::Branch {
            test,
            rs1,
            rs2,
            imm,
        } => b_type(imm, rs2, rs1, branch_funct3(test), 0b1100011),
        Instr::Load { load, rd, rs1, imm } => i_type(imm, rs1, load_funct3(load), rd, 0b0000011),
        Instr::Store {
            store,
            rs1,
            rs2,
            imm,
        } => s_type(imm, rs2, rs1, store_funct3(store), 0b0100011),
        Instr::Immediate { .. } | Instr::Shift { .. } | Instr::Register { .. } => operation(instr),
        Instr::Fence => 0x0ff0_000f,
        Instr::Ecall => 0x0000_0073,
        Instr::Ebreak => 0x0010_0073,
    }
}

/// The word of an instruction whose operands are in range. FENCE is written with all of its
/// predecessor and successor bits set, as assemblers write it.
pub fn encode(instr: Instr) -> u32
    requires { InRange instr }
    ensures word { result ≡ encoding instr }
    ensures again { decoded result ≡ Some instr }
{
    isa_spec::decoding_inverts_encoding();
    written(instr)
}
