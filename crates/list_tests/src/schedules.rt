//! What no clause says: that schedules are read with ample memory, and which are refused.
use schedule_list::*;
use std::alloc::{AllocError, Global};

/// Whether a text is read as these threads.
fn is_read(alloc: Global, text: &[u8], threads: &[u8]) -> bool {
    match parse(alloc, text) {
        Ok(read) => read.as_slice() == threads,
        Err(_) => false,
    }
}

/// Whether a text is refused for this token.
fn is_refused(alloc: Global, text: &[u8], token: usize) -> bool {
    match parse(alloc, text) {
        Ok(_) => false,
        Err(error) => error == ParseError::BadToken(token),
    }
}

/// A text, and the threads that it encodes.
type Row = (&'static [u8], &'static [u8]);

const ROWS: [Row; 8] = [
    (b"", &[]),
    (b" \n\n ", &[]),
    (b"0 0 1 2 0 0 0 0\n", &[0, 0, 1, 2, 0, 0, 0, 0]),
    (b" 0+ 1= 31\n9=\n\n10+", &[0, 1, 31, 9, 10]),
    (b"19\n20\n29\n30", &[19, 20, 29, 30]),
    // a text that is cut
    (b"0+ 1", &[0, 1]),
    (b"0+ 12", &[0, 12]),
    (b"0+ 12=", &[0, 12]),
];

#[test]
fn schedules_are_read(rt: HostRuntime) {
    for (number, (text, threads)) in ROWS.iter().enumerate() {
        assert!(rt; is_read(rt.alloc(), *text, *threads), "row {number}");
    }
}

/// Tokens that are no thread.
const TOKENS: [&[u8]; 23] = [
    b"x",
    b"32",
    b"40",
    b"99",
    b"00",
    b"01",
    b"100",
    b"256",
    b"=",
    b"+",
    b"+1",
    b"-1",
    b"1==",
    b"1+=",
    b"1-",
    b"1\t",
    b"1\r",
    b"1,2",
    b"3:",
    b"/1",
    b"\x00",
    b"\xd9\xa1",
    b"schedule",
];

/// A text of three threads, this token, and another that is no thread.
fn text_with(alloc: Global, token: &[u8]) -> Result<Vec<u8>, AllocError> {
    let mut text = Vec::from_slice(alloc, b"0 1+\n 31= ")?;
    text.extend_from_slice(token)?;
    text.extend_from_slice(b" x")?;
    Ok(text)
}

#[test]
fn other_tokens_are_refused(rt: HostRuntime) -> Result<(), AllocError> {
    for (number, token) in TOKENS.iter().enumerate() {
        let text = text_with(rt.alloc(), *token)?;
        assert!(rt; is_refused(rt.alloc(), *token, 0), "token {number}");
        assert!(rt;
            is_refused(rt.alloc(), text.as_slice(), 3),
            "token {number}"
        );
    }
    Ok(())
}
