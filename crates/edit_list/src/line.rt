//! One line of a list.

ghost use Rattle.std.specs.Prelude.{ℕ, ◌≡◌, ◌≢◌, ◌<◌, ◌==◌, false, List, ◌∷◌, ◌++◌, length, codes, MatchOption, IfOk, IfErr};
ghost use Rattle.std.specs.List.{All};
ghost use Rattle.edit_spec.specs.Grammar.{EncodeBytes, Encodes};
ghost use Rattle.edit_list.specs.Said.{edit_said};
ghost use Rattle.edit_list.specs.Refusals.{WhyNoBytes, WhyNoEdit};

use super::edits::Edit;
use super::number::number_of;
use hex::FromHexError;
use std::alloc::Global;

/// Why a line gave no edit.
#[derive(Clone, Copy)]
pub enum LineFault {
    /// It encodes none.
    Bad,
    /// The host's memory ran out.
    NoMemory,
}

/// The bytes before the first of this value and those after it, if there is one.
pub fn split_once(bytes: &[u8], byte: u8) -> Option<(&[u8], &[u8])>
    ensures { MatchOption result (All (λ b. (b == byte) ≡ false) bytes.now)
        (λ parts. All (λ b. (b == byte) ≡ false) parts.0.now
        × (bytes.now ≡ parts.0.now ++ byte ∷ parts.1.now)) }
{
    match bytes.iter().position(|b| *b == byte) {
        Some(at) => Some((&bytes[..at], &bytes[at + 1..])),
        None => None,
    }
}

/// The rest of a text that starts with a word.
fn after_word<'a>(text: &'a [u8], word: &[u8]) -> Option<&'a [u8]>
    ensures { MatchOption result ((rest : List ℕ) → text.now ≢ word.now ++ rest)
        (λ rest. text.now ≡ word.now ++ rest.now) }
{
    text.strip_prefix(word)
}

/// The fault of a line, by the error of the decoder of hexadecimal digits.
fn fault_of(error: FromHexError) -> LineFault
    ensures { result ≡ LineFault.Bad → error ≢ FromHexError.OutOfMemory }
{
    match error {
        FromHexError::OutOfMemory => LineFault::NoMemory,
        _ => LineFault::Bad,
    }
}

/// The bytes that hexadecimal digits encode, at least one.
fn bytes_of(alloc: Global, digits: &[u8]) -> Result<Vec<u8>, LineFault>
    ensures encoded { IfOk result (λ bytes. EncodeBytes digits.now bytes.items) }
    ensures some { IfOk result (λ bytes. 0 < length bytes.items) }
    ensures refused { IfErr result (WhyNoBytes digits.now) }
{
    if digits.is_empty() {
        return Err(LineFault::Bad);
    }
    match hex::decode(alloc, digits) {
        Ok(bytes) => Ok(bytes),
        Err(error) => Err(fault_of(error)),
    }
}

/// The edit of a line that begins with `set `, from what follows.
fn set_of(alloc: Global, rest: &[u8]) -> Result<Edit, LineFault>
    ensures encoded { IfOk result (λ edit. Encodes (codes "set " ++ rest.now) (edit_said edit)) }
    ensures refused { IfErr result (WhyNoEdit (codes "set " ++ rest.now)) }
{
    let Some((number, digits)) = split_once(rest, b' ') else {
        return Err(LineFault::Bad);
    };
    let Some(offset) = number_of(number) else {
        return Err(LineFault::Bad);
    };
    let bytes = bytes_of(alloc, digits)?;
    Ok(Edit::Set { offset, bytes })
}

/// The edit of a line that begins with `size `, from what follows.
fn size_of(number: &[u8]) -> Result<Edit, LineFault>
    ensures encoded { IfOk result (λ edit. Encodes (codes "size " ++ number.now) (edit_said edit)) }
    ensures refused { IfErr result (WhyNoEdit (codes "size " ++ number.now)) }
{
    match number_of(number) {
        Some(size) => Ok(Edit::Size(size)),
        None => Err(LineFault::Bad),
    }
}

/// The edit that a line encodes.
pub fn edit_of(alloc: Global, text: &[u8]) -> Result<Edit, LineFault>
    ensures encoded { IfOk result (λ edit. Encodes text.now (edit_said edit)) }
    ensures refused { IfErr result (WhyNoEdit text.now) }
{
    if let Some(rest) = after_word(text, b"set ") {
        return set_of(alloc, rest);
    }
    match after_word(text, b"size ") {
        Some(number) => size_of(number),
        None => Err(LineFault::Bad),
    }
}
