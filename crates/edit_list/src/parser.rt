//! A list read from its bytes.

ghost use Rattle.std.specs.Prelude.{◌≡◌, map, Ok, IfOk, IfErr, OnOk};
ghost use Rattle.edit_spec.specs.Grammar.{Says};
ghost use Rattle.edit_list.specs.Said.{line_said};
ghost use Rattle.edit_list.specs.Adding.{AddsLine};
ghost use Rattle.edit_list.specs.Refusals.{WhyNotAdded, WhyNotParsed};

use super::edits::{Edits, LineEdit};
use super::line::{LineFault, edit_of, split_once};
use std::alloc::{AllocFailed, Global};

/// Why the bytes of a list gave no edits.
#[derive(Clone, Copy, PartialEq, Eq)]
pub enum ParseError {
    /// The line of this number, counted from 1, is the first that is no edit.
    BadLine(usize),
    /// The host's memory ran out.
    NoMemory,
}

impl<T: Drop> From<AllocFailed<T>> for ParseError {
    ghost use Rattle.edit_list.specs.declared.parser.ParseError.TheVariants.{NoMemory};

    ghost from_gives = { λ _ e. e ≡ NoMemory };

    fn from(_failed: AllocFailed<T>) -> ParseError {
        ParseError::NoMemory
    }
}

/// Appends the edit of a line. An empty line has none.
fn add_line(
    alloc: Global,
    lines: &mut Vec<LineEdit>,
    number: usize,
    text: &[u8],
) -> Result<(), ParseError>
    ensures added { OnOk result
        (AddsLine number text.now (map line_said lines.old.items) (map line_said lines.new.items)) }
    ensures refused { IfErr result (WhyNotAdded number text.now) }
{
    if text.is_empty() {
        return Ok(());
    }
    let edit = match edit_of(alloc, text) {
        Ok(edit) => edit,
        Err(LineFault::Bad) => return Err(ParseError::BadLine(number)),
        Err(LineFault::NoMemory) => return Err(ParseError::NoMemory),
    };
    lines.push(LineEdit { line: number, edit })?;
    Ok(())
}

/// The edits that the bytes of a list encode, one a line.
///
/// A line is `set D H` or `size D`, with single spaces. `D` is a decimal number of one to seven digits without
/// leading zeros; `H` is an even number, at least two, of hexadecimal digits in either case. Lines are counted
/// from 1, and empty ones are skipped.
///
/// # Errors
///
/// `BadLine` with the number of the first line that is none of these, or `NoMemory`.
pub fn parse(alloc: Global, bytes: &[u8]) -> Result<Edits, ParseError>
    ensures encoded { IfOk result (λ edits. Says bytes.now (Ok edits)) }
    ensures refused { IfErr result (WhyNotParsed bytes.now) }
{
    let mut lines = Vec::new(alloc);
    let mut rest = bytes;
    let mut number = 1;
    while let Some((text, after)) = split_once(rest, b'\n') {
        add_line(alloc, &mut lines, number, text)?;
        rest = after;
        number += 1;
    }
    add_line(alloc, &mut lines, number, rest)?;
    Ok(Edits { lines })
}
