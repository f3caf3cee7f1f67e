//! What no clause says: that fields are written with ample memory, and read again as they were.

use ith_text::*;
use std::alloc::{AllocError, Global};

/// Two bytes, and a number of each width, as fields.
fn written(alloc: Global) -> Result<Vec<u8>, AllocError> {
    let mut out = Out::new(alloc);
    out.bytes(b"ab")?;
    out.u8(1)?;
    out.u16(0x0302)?;
    out.u32(0x07060504)?;
    out.u64(0x0f0e0d0c0b0a0908)?;
    Ok(out.into_vec())
}

/// The numbers after two bytes.
fn read(bytes: &[u8]) -> Result<(u8, u16, u32, u64), Short> {
    let mut cursor = Cursor::new(bytes);
    cursor.bytes(2)?;
    let first = cursor.u8()?;
    let second = cursor.u16()?;
    let third = cursor.u32()?;
    Ok((first, second, third, cursor.u64()?))
}

#[test]
fn fields_are_read_as_they_were_written(rt: HostRuntime) -> Result<(), AllocError> {
    let bytes = written(rt.alloc())?;
    let wanted = b"ab\x01\x02\x03\x04\x05\x06\x07\x08\x09\x0a\x0b\x0c\x0d\x0e\x0f".as_slice();
    assert!(rt; bytes.as_slice() == wanted);
    assert!(rt; read(wanted) == Ok((1, 0x0302, 0x07060504, 0x0f0e0d0c0b0a0908)));
    assert!(rt; read(b"ab\x01\x02\x03\x04\x05\x06\x07\x08".as_slice()) == Err(Short));
    Ok(())
}
