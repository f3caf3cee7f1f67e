//! What no clause says: that lists are read and applied with ample memory, and which lists are refused.
use edit_list::*;
use machine_spec::MOST_INPUT_BYTES;
use std::alloc::{AllocError, Global};

/// The outcome of a list.
#[derive(Clone, Copy, PartialEq, Eq)]
enum Outcome {
    Unread(ParseError),
    Undone(ApplyError),
    Done,
}

use self::Outcome::{Done, Undone, Unread};
use edit_list::ApplyError::OutOfRange;
use edit_list::ParseError::BadLine;

/// Reads a list, and applies it to an input. A list that isn't read doesn't change the input.
fn tried(alloc: Global, list: &[u8], input: &mut Vec<u8>) -> Outcome {
    match parse(alloc, list) {
        Ok(edits) => match edits.apply(input) {
            Ok(()) => Outcome::Done,
            Err(error) => Outcome::Undone(error),
        },
        Err(error) => Outcome::Unread(error),
    }
}

/// An input of five bytes, 1 to 5.
const FIVE: &[u8] = &[1, 2, 3, 4, 5];

/// A list, its outcome, and the five bytes after it.
type Row = (&'static [u8], Outcome, &'static [u8]);

const ROWS: [Row; 24] = [
    (b"size 01", Unread(BadLine(1)), FIVE),
    (b"set 0", Unread(BadLine(1)), FIVE),
    (b" size 1", Unread(BadLine(1)), FIVE),
    (b"size 10000000", Unread(BadLine(1)), FIVE),
    (b"set 0 abc", Unread(BadLine(1)), FIVE),
    (b"set 4 0", Unread(BadLine(1)), FIVE),
    (b"\n\nset 0 0g", Unread(BadLine(3)), FIVE),
    (b"set 9 00\nsize x", Unread(BadLine(2)), FIVE),
    (b"set 5 00", Undone(OutOfRange(1)), FIVE),
    (b"size 3\nset 3 00", Undone(OutOfRange(2)), FIVE),
    (b"size 1048577", Undone(OutOfRange(1)), FIVE),
    (b"", Done, FIVE),
    (b"size 3\nset 2 fF", Done, &[1, 2, 0xff]),
    (b"set 3 0aB0\n", Done, &[1, 2, 3, 0x0a, 0xb0]),
    (b"size 2\n\nsize 4\nset 3 09", Done, &[1, 2, 0, 9]),
    (b"size 0", Done, &[]),
    (
        b"set 3 0607\nsize 8\nset 6 0a0b\nsize 4\nset 2 0c\nsize 6",
        Done,
        &[1, 2, 12, 6, 0, 0],
    ),
    // a list that is cut is a list or is refused
    (b"s", Unread(BadLine(1)), FIVE),
    (b"size", Unread(BadLine(1)), FIVE),
    (b"size ", Unread(BadLine(1)), FIVE),
    (b"size 3", Done, &[1, 2, 3]),
    (b"size 3\ns", Unread(BadLine(2)), FIVE),
    (b"size 3\nset 2 ", Unread(BadLine(2)), FIVE),
    (b"size 3\nset 2 f", Unread(BadLine(2)), FIVE),
];

/// Whether a list has its outcome.
fn is_known(alloc: Global, row: &Row) -> Result<bool, AllocError> {
    let (list, known, after) = *row;
    let mut input = Vec::from_slice(alloc, FIVE)?;
    let found = tried(alloc, list, &mut input);
    Ok(found == known && input.as_slice() == after)
}

#[test]
fn lists_are_done_or_refused(rt: HostRuntime) -> Result<(), AllocError> {
    for (number, row) in ROWS.iter().enumerate() {
        assert!(rt; is_known(rt.alloc(), row)?, "row {number}");
    }
    Ok(())
}

#[test]
fn an_input_grows_to_the_bound(rt: HostRuntime) {
    let mut input = Vec::new(rt.alloc());
    let found = tried(rt.alloc(), b"size 1048576\nset 1048575 07", &mut input);
    assert!(rt; found == Done);
    assert!(rt; input.len() == MOST_INPUT_BYTES);
    assert!(rt; input.last() == Some(&7));
}
