//! Products and quotients of words (RISC-V unprivileged ISA 20191213, 7.1 and 7.2).

ghost use Rattle.std.specs.Prelude.{◌≡◌};
ghost use Rattle.isa_spec.specs.Words.{high_product, high_product_signed_unsigned, high_product_unsigned, quotient_of, quotient_unsigned, remainder_of, remainder_unsigned};

/// The high word of the product of signed numbers.
#[inline(always)]
pub fn high_of_signed(a: u32, b: u32) -> u32
    ensures { result ≡ high_product a b }
{
    let product = i64::from(a.cast_signed()) * i64::from(b.cast_signed());
    (product.cast_unsigned() >> 32) as u32
}

/// The high word of the product of a signed number and an unsigned one.
#[inline(always)]
pub fn high_of_mixed(a: u32, b: u32) -> u32
    ensures { result ≡ high_product_signed_unsigned a b }
{
    let product = i64::from(a.cast_signed()) * i64::from(b);
    (product.cast_unsigned() >> 32) as u32
}

/// The high word of the product of unsigned numbers.
#[inline(always)]
pub fn high_of_unsigned(a: u32, b: u32) -> u32
    ensures { result ≡ high_product_unsigned a b }
{
    ((u64::from(a) * u64::from(b)) >> 32) as u32
}

/// The quotient of signed numbers, rounded toward zero. By zero all bits are one; the one that doesn't fit wraps.
#[inline(always)]
pub fn quotient(a: u32, b: u32) -> u32
    ensures { result ≡ quotient_of a b }
{
    if b == 0 {
        u32::MAX
    } else {
        let quotient = a.cast_signed().wrapping_div(b.cast_signed());
        quotient.cast_unsigned()
    }
}

/// The quotient of unsigned numbers. By zero all bits are one.
#[inline(always)]
pub fn quotient_of_unsigned(a: u32, b: u32) -> u32
    ensures { result ≡ quotient_unsigned a b }
{
    if b == 0 { u32::MAX } else { a / b }
}

/// The remainder of signed numbers, with the sign of the first. By zero it is the first.
#[inline(always)]
pub fn remainder(a: u32, b: u32) -> u32
    ensures { result ≡ remainder_of a b }
{
    if b == 0 {
        a
    } else {
        let rest = a.cast_signed().wrapping_rem(b.cast_signed());
        rest.cast_unsigned()
    }
}

/// The remainder of unsigned numbers. By zero it is the first.
#[inline(always)]
pub fn remainder_of_unsigned(a: u32, b: u32) -> u32
    ensures { result ≡ remainder_unsigned a b }
{
    if b == 0 { a } else { a % b }
}
