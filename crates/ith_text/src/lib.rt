//! Numbers and lists as the bytes of a text, and fields of a file: little-endian numbers and runs of bytes, read in
//! order and written in order.
//!
//! Each function that appends to a text leaves it as before if memory runs out.
#![tactic(auto)]

ghost use Rattle.std.specs.Prelude.{◌≡◌, ◌++◌, take, length, OnOk, OnErr, decimal};
ghost use Rattle.std.specs.Int.{to_be_bytes, w32};
ghost use Rattle.hex.specs.Hex.{encode_lower};
ghost use Rattle.ith_text.specs.Lines.{list_line, list_item};

mod cursor;
mod out;

pub use cursor::{Cursor, Short};
pub use out::Out;
use std::alloc::{AllocError, Global};

/// Appends a number's decimal digits, without leading zeros.
pub fn decimal(alloc: Global, number: u64, into: &mut Vec<u8>) -> Result<(), AllocError>
    ensures ok { OnOk result (into.new.items ≡ into.old.items ++ decimal number) }
    ensures err { OnErr result (into.new.items ≡ into.old.items) }
{
    let text = number.to_string(alloc)?;
    into.extend_from_slice(text.as_bytes())
}

/// Appends a number's eight hexadecimal digits, in lower case.
pub fn hex8(alloc: Global, number: u32, into: &mut Vec<u8>) -> Result<(), AllocError>
    ensures ok { OnOk result (into.new.items
        ≡ into.old.items ++ encode_lower (to_be_bytes w32 number)) }
    ensures err { OnErr result (into.new.items ≡ into.old.items) }
{
    let text = hex::encode(alloc, number.to_be_bytes().as_slice())?;
    into.extend_from_slice(text.as_bytes())
}

/// Appends a line: a name, and each number in decimal after a space.
pub fn list(
    alloc: Global,
    name: &str,
    numbers: &[u64],
    into: &mut Vec<u8>,
) -> Result<(), AllocError>
    ensures ok { OnOk result (into.new.items ≡ into.old.items ++ list_line name.now numbers.now) }
    ensures err { OnErr result (into.new.items ≡ into.old.items) }
{
    let start = into.len();
    let result = append_list(alloc, name, numbers, into);
    if result.is_err() {
        into.truncate(start);
    }
    result
}

/// Appends the line, or a part of it if memory runs out.
fn append_list(
    alloc: Global,
    name: &str,
    numbers: &[u64],
    into: &mut Vec<u8>,
) -> Result<(), AllocError>
    ensures ok { OnOk result (into.new.items ≡ into.old.items ++ list_line name.now numbers.now) }
    ensures begins { take (length into.old.items) into.new.items ≡ into.old.items }
{
    into.extend_from_slice(name.as_bytes())?;
    for number in numbers {
        append_item(alloc, *number, into)?;
    }
    into.push(b'\n')?;
    Ok(())
}

/// Appends a space and a number in decimal, or at most the space if memory runs out.
fn append_item(alloc: Global, number: u64, into: &mut Vec<u8>) -> Result<(), AllocError>
    ensures ok { OnOk result (into.new.items ≡ into.old.items ++ list_item number) }
    ensures begins { take (length into.old.items) into.new.items ≡ into.old.items }
{
    into.push(b' ')?;
    decimal(alloc, number, into)
}
