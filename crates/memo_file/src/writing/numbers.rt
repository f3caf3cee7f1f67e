//! Numbers as bytes, the lowest first.

ghost use Rattle.std.specs.Prelude.{◌≡◌, ◌++◌, OnOk};
ghost use Rattle.memo_spec.specs.Encoding.{half, word};

use std::alloc::AllocError;

/// Appends a number as two bytes.
pub fn put_half(out: &mut Vec<u8>, number: u16) -> Result<(), AllocError>
    ensures { OnOk result (out.new.items ≡ out.old.items ++ half number) }
{
    out.extend_from_slice(&number.to_le_bytes())
}

/// Appends a number as four bytes.
pub fn put_word(out: &mut Vec<u8>, number: u32) -> Result<(), AllocError>
    ensures { OnOk result (out.new.items ≡ out.old.items ++ word number) }
{
    out.extend_from_slice(&number.to_le_bytes())
}
