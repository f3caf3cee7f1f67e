//! Numbers in decimal, and lines of them.

ghost use Rattle.std.specs.Prelude.{◌≡◌, ◌++◌, OnOk, decimal};
ghost use Rattle.report_spec.specs.Text.{line};

use ith_text::decimal;
use std::alloc::{AllocError, Global};

/// Appends a text, and a number in decimal.
///
/// # Errors
///
/// An error if the host's memory ran out; a part may have been appended.
pub fn append_number(
    alloc: Global,
    text: &str,
    number: u64,
    into: &mut Vec<u8>,
) -> Result<(), AllocError>
    ensures { OnOk result (into.new.items ≡ into.old.items ++ text.now ++ decimal number) }
{
    into.extend_from_slice(text.as_bytes())?;
    decimal(alloc, number, into)
}

/// Appends a line: a name, a space, and a number in decimal.
///
/// # Errors
///
/// An error if the host's memory ran out; a part may have been appended.
pub fn number_line(
    alloc: Global,
    name: &str,
    number: u64,
    into: &mut Vec<u8>,
) -> Result<(), AllocError>
    ensures { OnOk result (into.new.items ≡ into.old.items ++ line name.now (decimal number)) }
{
    into.extend_from_slice(name.as_bytes())?;
    into.push(b' ')?;
    decimal(alloc, number, into)?;
    into.push(b'\n')?;
    Ok(())
}
