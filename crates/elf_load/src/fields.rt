//! Bytes, half words and words of a file.

ghost use Rattle.std.specs.Prelude.{◌≡◌, ◌<◌, ◌^◌, slice_index};
ghost use Rattle.elf_spec.specs.Fields.{u16_at, u32_at};

use byteorder::{ByteOrder, LittleEndian};

/// The byte at an offset, or 0 past the end.
pub fn byte_at(bytes: &[u8], offset: u64) -> u8
    requires { offset < 2 ^ 40 }
    ensures { result ≡ slice_index bytes.now offset }
{
    match bytes.get(offset as usize) {
        Some(byte) => *byte,
        None => 0,
    }
}

/// The half-word at an offset, with zeros for bytes past the end.
pub fn half_word_at(bytes: &[u8], offset: u64) -> u16
    requires { offset < 2 ^ 39 }
    ensures { result ≡ u16_at bytes.now offset }
{
    LittleEndian::read_u16(&[byte_at(bytes, offset), byte_at(bytes, offset + 1)])
}

/// The word at an offset, with zeros for bytes past the end.
pub fn word_at(bytes: &[u8], offset: u64) -> u32
    requires { offset < 2 ^ 39 }
    ensures { result ≡ u32_at bytes.now offset }
{
    LittleEndian::read_u32(&[
        byte_at(bytes, offset),
        byte_at(bytes, offset + 1),
        byte_at(bytes, offset + 2),
        byte_at(bytes, offset + 3),
    ])
}
