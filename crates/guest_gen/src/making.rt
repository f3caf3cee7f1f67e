//! What is generated.

ghost use Rattle.std.specs.Prelude.{◌≡◌, ◌<◌, ◌^◌, IfOk};
ghost use Rattle.hex.specs.Hex.{encode_lower};
ghost use Rattle.guest_gen.specs.Generated.{value_after, input_of, list_of, IsOf};

use super::INPUT_BYTES;
use super::guest::{BASE, ITEMS, ZEROS};
use ith_text::decimal;
use rv_asm::elf;
use std::alloc::{AllocError, Global};

/// A guest's executable, an input, and a list of edits of it.
#[derive(Drop)]
pub struct Generated {
    /// The executable.
    pub elf: Vec<u8>,
    /// The input.
    pub input: Vec<u8>,
    /// The bytes of the list of edits.
    pub edits: Vec<u8>,
}

/// The value after a value.
fn value_after(value: u32) -> u32
    ensures { result ≡ value_after value }
{
    value.wrapping_mul(1_664_525).wrapping_add(1_013_904_223)
}

/// The input of a number.
fn input_of(alloc: Global, number: u32) -> Result<Vec<u8>, AllocError>
    ensures { IfOk result (λ input. input.items ≡ input_of number) }
{
    let mut input = Vec::new(alloc);
    let mut value = number;
    for _made in 0..INPUT_BYTES {
        value = value_after(value);
        input.push((value >> 24) as u8)?;
    }
    Ok(input)
}

/// The list of edits of a number, which has this input.
fn list_of(alloc: Global, number: u32, input: &[u8]) -> Result<Vec<u8>, AllocError>
    requires { input.now ≡ input_of number }
    ensures { IfOk result (λ list. list.items ≡ list_of number) }
{
    let place = number as usize % INPUT_BYTES;
    let byte = input[place].wrapping_add(1);
    let digits = hex::encode(alloc, [byte].as_slice())?;
    let mut list = Vec::from_slice(alloc, b"set ".as_slice())?;
    decimal(alloc, place as u64, &mut list)?;
    list.push(b' ')?;
    list.extend_from_slice(digits.as_bytes())?;
    Ok(list)
}

/// What is generated from a number.
///
/// # Errors
///
/// An error if the host's memory ran out.
pub fn make(alloc: Global, number: u32) -> Result<Generated, AllocError>
    ensures { IfOk result (λ g. IsOf number g) }
{
    let elf = elf(alloc, BASE, &ITEMS, ZEROS)?;
    let input = input_of(alloc, number)?;
    let edits = list_of(alloc, number, input.as_slice())?;
    Ok(Generated { elf, input, edits })
}
