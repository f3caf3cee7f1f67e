//! The fields of an instruction's word, and its immediates by form
//! (RISC-V unprivileged ISA 20191213, 2.2 and 2.3).

ghost use Rattle.std.specs.Prelude.{◌≡◌, ◌<◌, ◌^◌};
ghost use Rattle.isa_spec.specs.Words.{sign_extended};
ghost use Rattle.isa_spec.specs.Fields.{opcode_of, rd_of, funct3_of, rs1_of, rs2_of, funct7_of, i_immediate, s_immediate, b_immediate, u_immediate, j_immediate};

/// Which group of instructions it is.
#[inline(always)]
pub fn opcode(w: u32) -> u32
    ensures { result ≡ opcode_of w }
{
    w & 0x7f
}

/// Which of the group.
#[inline(always)]
pub fn funct3(w: u32) -> u32
    ensures { result ≡ funct3_of w }
{
    (w >> 12) & 7
}

/// Which of the group, together with funct3.
#[inline(always)]
pub fn funct7(w: u32) -> u32
    ensures { result ≡ funct7_of w }
{
    w >> 25
}

/// The register written.
#[inline(always)]
pub fn rd(w: u32) -> u8
    ensures { result ≡ rd_of w }
{
    ((w >> 7) & 31) as u8
}

/// The first register read.
#[inline(always)]
pub fn rs1(w: u32) -> u8
    ensures { result ≡ rs1_of w }
{
    ((w >> 15) & 31) as u8
}

/// The second register read, or the amount of a shift.
#[inline(always)]
pub fn rs2(w: u32) -> u8
    ensures { result ≡ rs2_of w }
{
    ((w >> 20) & 31) as u8
}

/// Twelve bits as a word, the topmost copied upwards.
#[inline(always)]
fn extended_12(n: u32) -> u32
    requires { n < 2 ^ 12 }
    ensures { result ≡ sign_extended 12 n }
{
    n.wrapping_sub((n >> 11) << 12)
}

/// Thirteen bits as a word, the topmost copied upwards.
#[inline(always)]
fn extended_13(n: u32) -> u32
    requires { n < 2 ^ 13 }
    ensures { result ≡ sign_extended 13 n }
{
    n.wrapping_sub((n >> 12) << 13)
}

/// Twenty-one bits as a word, the topmost copied upwards.
#[inline(always)]
fn extended_21(n: u32) -> u32
    requires { n < 2 ^ 21 }
    ensures { result ≡ sign_extended 21 n }
{
    n.wrapping_sub((n >> 20) << 21)
}

/// The I-immediate.
#[inline(always)]
#[tactic(auto, unfolding(isa_spec::specs::Fields::i_immediate))]
pub fn immediate_i(w: u32) -> u32
    ensures { result ≡ i_immediate w }
{
    extended_12(w >> 20)
}

/// The S-immediate.
#[inline(always)]
#[tactic(auto, unfolding(isa_spec::specs::Fields::s_immediate))]
pub fn immediate_s(w: u32) -> u32
    ensures { result ≡ s_immediate w }
{
    extended_12(((w >> 25) << 5) + ((w >> 7) & 31))
}

/// The B-immediate: an even offset, its bit 11 in bit 7 of the word.
#[inline(always)]
#[tactic(auto, unfolding(isa_spec::specs::Fields::b_immediate))]
pub fn immediate_b(w: u32) -> u32
    ensures { result ≡ b_immediate w }
{
    extended_13(
        ((w >> 31) << 12)
            + (((w >> 7) & 1) << 11)
            + (((w >> 25) & 63) << 5)
            + (((w >> 8) & 15) << 1),
    )
}

/// The U-immediate, with its twelve zeros.
#[inline(always)]
#[tactic(auto, unfolding(isa_spec::specs::Fields::u_immediate))]
pub fn immediate_u(w: u32) -> u32
    ensures { result ≡ u_immediate w }
{
    w & 0xffff_f000
}

/// The J-immediate: an even offset, its bit 11 in bit 20 of the word.
#[inline(always)]
#[tactic(auto, unfolding(isa_spec::specs::Fields::j_immediate))]
pub fn immediate_j(w: u32) -> u32
    ensures { result ≡ j_immediate w }
{
    extended_21(
        ((w >> 31) << 20)
            + (((w >> 12) & 255) << 12)
            + (((w >> 20) & 1) << 11)
            + (((w >> 21) & 1023) << 1),
    )
}
