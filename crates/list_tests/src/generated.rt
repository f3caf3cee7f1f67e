//! What no clause says: that all is generated with ample memory, and how it begins.
use guest_gen::*;
use std::alloc::AllocError;

// The bytes are worked out by hand: x(1) is 0x3c6ef35f, x(2) 0x47502932 (Numerical Recipes, 2nd edition, 7.1).
#[test]
fn the_input_of_0_begins_as_known(rt: HostRuntime) -> Result<(), AllocError> {
    let made = make(rt.alloc(), 0)?;
    assert!(rt; made.input.as_slice().starts_with(&[0x3c, 0x47, 0xd1, 0xaa]));
    assert!(rt; made.input.len() == INPUT_BYTES);
    assert!(rt; made.edits.as_slice() == b"set 0 3d".as_slice());
    Ok(())
}

#[test]
fn the_edit_is_at_the_number_modulo_the_length(rt: HostRuntime) -> Result<(), AllocError> {
    let made = make(rt.alloc(), u32::MAX)?;
    assert!(rt; made.edits.as_slice().starts_with(b"set 262143 "));
    Ok(())
}
