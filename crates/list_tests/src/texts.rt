//! Numbers and lists as text.

use ith_text::*;
use std::test::Fail;

#[test]
fn numbers_and_lists_are_appended(rt: HostRuntime) -> Result<(), Fail> {
    let alloc = rt.alloc();
    let mut text = Vec::new(alloc);
    decimal(alloc, 0, &mut text)?;
    text.push(b' ')?;
    decimal(alloc, u64::MAX, &mut text)?;
    text.push(b' ')?;
    hex8(alloc, 0x1000c, &mut text)?;
    text.push(b' ')?;
    list(alloc, "by", &[5, 0, 17], &mut text)?;
    list(alloc, "reads", &[], &mut text)?;
    assert!(rt;
        text.as_slice() == b"0 18446744073709551615 0001000c by 5 0 17\nreads\n".as_slice()
    );
    Ok(())
}
