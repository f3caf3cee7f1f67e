//! Single fields of a memo.

ghost use Rattle.std.specs.Prelude.{◌≡◌, ◌≢◌, ◌<◌, ◌≤◌, ◌==◌, length, nat_lt, IfOk, IfErr};
ghost use Rattle.std.specs.Int.{w8, w16, w32};
ghost use Rattle.memo_spec.specs.Reader.{bytes_at, number_at, limited as limited_at, ruled};
ghost use Rattle.memo_spec.specs.Reading.{is_within, registers_at};
ghost use Rattle.memo_spec.specs.declared.Refusal.TheVariants as refusals;
ghost use Rattle.memo_file.specs.declared.error.ReadError.TheVariants as errors;
ghost use Rattle.memo_file.specs.Gives.{Gives};

use crate::error::ReadError;
use ith_text::Cursor;
use memo_spec::{Limit, Refusal};
use rv_isa::Regs;

/// The next `count` bytes.
#[tactic(auto, using(crate::proofs::Taken::run_taken, crate::proofs::Taken::run_short))]
pub fn run<'a>(cursor: &mut Cursor<'a>, count: usize) -> Result<&'a [u8], ReadError>
    ensures count { IfOk result (λ piece. length piece.now ≡ count) }
    ensures given { Gives (λ piece. (piece.now, cursor.new)) result (bytes_at count cursor.old) }
    ensures no_memory { IfErr result (λ e. e ≢ errors.NoMemory) }
{
    let at = cursor.position();
    match cursor.bytes(count) {
        Ok(piece) => Ok(piece),
        Err(_) => Err(ReadError::Refused(Refusal::Field(at))),
    }
}

/// A number of four bytes.
#[tactic(auto, using(crate::proofs::Taken::word_taken, crate::proofs::Taken::word_short))]
pub fn word(cursor: &mut Cursor) -> Result<u32, ReadError>
    ensures given { Gives (λ v. (v, cursor.new)) result (number_at w32 cursor.old) }
    ensures no_memory { IfErr result (λ e. e ≢ errors.NoMemory) }
{
    let at = cursor.position();
    match cursor.u32() {
        Ok(value) => Ok(value),
        Err(_) => Err(ReadError::Refused(Refusal::Field(at))),
    }
}

/// A number of two bytes.
#[tactic(auto, using(crate::proofs::Taken::half_taken, crate::proofs::Taken::half_short))]
pub fn half(cursor: &mut Cursor) -> Result<u16, ReadError>
    ensures given { Gives (λ v. (v, cursor.new)) result (number_at w16 cursor.old) }
    ensures no_memory { IfErr result (λ e. e ≢ errors.NoMemory) }
{
    let at = cursor.position();
    match cursor.u16() {
        Ok(value) => Ok(value),
        Err(_) => Err(ReadError::Refused(Refusal::Field(at))),
    }
}

/// A number of one byte.
#[tactic(auto, using(crate::proofs::Taken::byte_taken, crate::proofs::Taken::byte_short))]
pub fn byte(cursor: &mut Cursor) -> Result<u8, ReadError>
    ensures given { Gives (λ v. (v, cursor.new)) result (number_at w8 cursor.old) }
    ensures no_memory { IfErr result (λ e. e ≢ errors.NoMemory) }
{
    let at = cursor.position();
    match cursor.u8() {
        Ok(value) => Ok(value),
        Err(_) => Err(ReadError::Refused(Refusal::Field(at))),
    }
}

/// A byte below a bound. Any other breaks its rule.
pub fn byte_below(cursor: &mut Cursor, bound: u8) -> Result<u8, ReadError>
    ensures below { IfOk result (λ v. v < bound) }
    ensures given { Gives (λ v. (v, cursor.new)) result
        (ruled (number_at w8) (λ n. nat_lt n bound) cursor.old) }
    ensures no_memory { IfErr result (λ e. e ≢ errors.NoMemory) }
{
    let at = cursor.position();
    let value = byte(cursor)?;
    if value < bound {
        Ok(value)
    } else {
        Err(ReadError::Refused(Refusal::Field(at)))
    }
}

/// A number within a range. Any other breaks its rule.
pub fn word_within(cursor: &mut Cursor, low: u32, high: u32) -> Result<u32, ReadError>
    ensures given { Gives (λ v. (v, cursor.new)) result
        (ruled (number_at w32) (is_within low high) cursor.old) }
    ensures no_memory { IfErr result (λ e. e ≢ errors.NoMemory) }
{
    let at = cursor.position();
    let value = word(cursor)?;
    if low <= value && value <= high {
        Ok(value)
    } else {
        Err(ReadError::Refused(Refusal::Field(at)))
    }
}

/// This number. Any other breaks its rule.
pub fn word_that_is(cursor: &mut Cursor, number: u32) -> Result<(), ReadError>
    ensures given { Gives (λ _. (number, cursor.new)) result
        (ruled (number_at w32) (λ n. n == number) cursor.old) }
    ensures no_memory { IfErr result (λ e. e ≢ errors.NoMemory) }
{
    let at = cursor.position();
    let value = word(cursor)?;
    if value == number {
        Ok(())
    } else {
        Err(ReadError::Refused(Refusal::Field(at)))
    }
}

/// A number that has a limit: out of its range it is refused for that limit.
pub fn limited(cursor: &mut Cursor, low: u32, high: u32, limit: Limit) -> Result<u32, ReadError>
    ensures within { IfOk result (λ v. (low ≤ v) × (v ≤ high)) }
    ensures given { Gives (λ v. (v, cursor.new)) result
        (limited_at (number_at w32) (is_within low high) (refusals.Limit limit) cursor.old) }
    ensures no_memory { IfErr result (λ e. e ≢ errors.NoMemory) }
{
    let value = word(cursor)?;
    if low <= value && value <= high {
        Ok(value)
    } else {
        Err(ReadError::Refused(Refusal::Limit(limit)))
    }
}

/// The program counter, and the registers from x1 on. x0 is 0.
pub fn registers(cursor: &mut Cursor) -> Result<Regs, ReadError>
    ensures given { Gives (λ r. (r, cursor.new)) result (registers_at cursor.old) }
    ensures no_memory { IfErr result (λ e. e ≢ errors.NoMemory) }
{
    let mut words = [0u32; 32];
    for i in 0..32 {
        words[i] = word(cursor)?;
    }
    Ok(Regs::from_words(&words))
}
