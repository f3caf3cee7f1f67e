//! Arguments without even the first, the program's name: no shell starts a program so.

use ith_words::{LineFault, line_of};
use std::test::Fail;

#[test]
fn no_words_are_refused(rt: HostRuntime) -> Result<(), Fail> {
    let refused = match line_of(rt.alloc(), &[]) {
        Ok(_said) => false,
        Err(LineFault::Refused(text)) => text.starts_with(b"words: "),
        Err(LineFault::NoMemory) => false,
    };
    assert!(rt; refused);
    Ok(())
}
