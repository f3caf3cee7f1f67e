//! A schedule read from its bytes.

ghost use Rattle.std.specs.Prelude.{ℕ, ◌≡◌, true, false, ◌∷◌, ◌++◌, length, Ok, IfOk, IfErr, OnOk, MatchOption};
ghost use Rattle.std.specs.List.{All};
ghost use Rattle.schedule_list.specs.Schedule.{is_gap, Says};
ghost use Rattle.schedule_list.specs.Adding.{AddsToken};
ghost use Rattle.schedule_list.specs.Refusals.{WhyNotAdded, WhyNotParsed};

use super::token::thread_of;
use std::alloc::{AllocFailed, Global};

/// Why a text gave no threads.
#[derive(Clone, Copy, PartialEq, Eq)]
pub enum ParseError {
    /// The token of this number, counted from 0, is the first that is no thread.
    BadToken(usize),
    /// The host's memory ran out.
    NoMemory,
}

impl<T: Drop> From<AllocFailed<T>> for ParseError {
    ghost use Rattle.schedule_list.specs.declared.parser.ParseError.TheVariants.{NoMemory};

    ghost from_gives = { λ _ e. e ≡ NoMemory };

    fn from(_failed: AllocFailed<T>) -> ParseError {
        ParseError::NoMemory
    }
}

/// Whether a byte separates tokens.
fn is_gap(byte: u8) -> bool
    ensures { result ≡ is_gap byte }
{
    byte == b' ' || byte == b'\n'
}

/// The bytes before the first gap and those after it, if there is one.
fn split_once(text: &[u8]) -> Option<(&[u8], &[u8])>
    ensures { MatchOption result (All (λ b. is_gap b ≡ false) text.now)
        (λ parts. All (λ b. is_gap b ≡ false) parts.0.now
        × ((gap : ℕ) × (is_gap gap ≡ true) × (text.now ≡ parts.0.now ++ gap ∷ parts.1.now))) }
{
    match text.iter().position(|byte| is_gap(*byte)) {
        Some(at) => Some((&text[..at], &text[at + 1..])),
        None => None,
    }
}

/// Appends the thread of a token. An empty piece is no token.
fn add_token(threads: &mut Vec<u8>, piece: &[u8]) -> Result<(), ParseError>
    ensures added { OnOk result (AddsToken piece.now threads.old.items threads.new.items) }
    ensures refused { IfErr result (WhyNotAdded (length threads.old.items) piece.now) }
{
    if piece.is_empty() {
        return Ok(());
    }
    match thread_of(piece) {
        Some(thread) => {
            threads.push(thread)?;
            Ok(())
        }
        None => Err(ParseError::BadToken(threads.len())),
    }
}

/// The threads that the bytes of a schedule name, in order.
///
/// Spaces and newlines separate tokens. Each is a number from 0 to 31 in decimal, without leading zeros; a mark `=` or
/// `+` may follow, and is ignored. Tokens are counted from 0.
///
/// # Errors
///
/// `BadToken` with the number of the first token that is none of these, or `NoMemory`.
pub fn parse(alloc: Global, text: &[u8]) -> Result<Vec<u8>, ParseError>
    ensures encoded { IfOk result (λ threads. Says text.now (Ok threads.items)) }
    ensures refused { IfErr result (WhyNotParsed text.now) }
{
    let mut threads = Vec::new(alloc);
    let mut rest = text;
    while let Some((piece, after)) = split_once(rest) {
        add_token(&mut threads, piece)?;
        rest = after;
    }
    add_token(&mut threads, rest)?;
    Ok(threads)
}
