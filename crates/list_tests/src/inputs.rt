//! What no clause says: that lists are applied with ample memory. The expected inputs are written down by hand.
use edit_list::*;
use std::alloc::{AllocError, Global};

/// Lists of these texts.
fn lists_of(alloc: Global, texts: &[&[u8]]) -> Result<Vec<Vec<u8>>, AllocError> {
    let mut lists = Vec::new(alloc);
    for text in texts {
        lists.push(Vec::from_slice(alloc, text)?)?;
    }
    Ok(lists)
}

/// The inputs that these lists make of five bytes, 1 to 5.
fn made_of_five(alloc: Global, texts: &[&[u8]]) -> Result<Result<Inputs, InputsError>, AllocError> {
    let first = Vec::from_slice(alloc, FIVE)?;
    let lists = lists_of(alloc, texts)?;
    Ok(inputs_of(alloc, first, lists.as_slice()))
}

/// Whether the next input is this one, and `left` more are to come.
fn is_next(inputs: &mut Inputs, wanted: &[u8], left: usize) -> Result<bool, AllocError> {
    match inputs.take_next()? {
        Some(input) => Ok(input.as_slice() == wanted && inputs.len() == left),
        None => Ok(false),
    }
}

/// Whether the inputs are these.
fn are_these(mut inputs: Inputs, wanted: &[&[u8]]) -> Result<bool, AllocError> {
    for (number, bytes) in wanted.iter().enumerate() {
        if !is_next(&mut inputs, bytes, wanted.len() - number - 1)? {
            return Ok(false);
        }
    }
    Ok(inputs.take_next()?.is_none())
}

/// Whether the inputs of these lists are these.
fn makes(alloc: Global, texts: &[&[u8]], wanted: &[&[u8]]) -> Result<bool, AllocError> {
    match made_of_five(alloc, texts)? {
        Ok(inputs) => are_these(inputs, wanted),
        Err(_) => Ok(false),
    }
}

/// Why the inputs of these lists aren't made, if they aren't.
fn refusal(alloc: Global, texts: &[&[u8]]) -> Result<Option<InputsError>, AllocError> {
    match made_of_five(alloc, texts)? {
        Ok(_) => Ok(None),
        Err(error) => Ok(Some(error)),
    }
}

/// The first input.
const FIVE: &[u8] = &[1, 2, 3, 4, 5];

/// Lists, and the inputs that they make.
type Row = (&'static [&'static [u8]], &'static [&'static [u8]]);

const ROWS: [Row; 5] = [
    (&[], &[FIVE]),
    (&[b"", b"set 1 02\n"], &[FIVE, FIVE, FIVE]),
    (&[b"size 0", b"size 2"], &[FIVE, &[], &[0, 0]]),
    (
        &[b"set 4 0a", b"size 6\nset 4 0B0c"],
        &[FIVE, &[1, 2, 3, 4, 10], &[1, 2, 3, 4, 11, 12]],
    ),
    (
        &[b"set 0 ff", b"size 2", b"size 4\nset 3 07", b"set 1 0809"],
        &[
            FIVE,
            &[255, 2, 3, 4, 5],
            &[255, 2],
            &[255, 2, 0, 7],
            &[255, 8, 9, 7],
        ],
    ),
];

#[test]
fn each_list_is_done_to_the_input_before(rt: HostRuntime) -> Result<(), AllocError> {
    for (number, (texts, wanted)) in ROWS.iter().enumerate() {
        assert!(rt; makes(rt.alloc(), *texts, *wanted)?, "row {number}");
    }
    Ok(())
}

/// Lists, of which one is refused: its place, its line, and why.
type Refused = (&'static [&'static [u8]], usize, usize, Why);

const REFUSED: [Refused; 4] = [
    (&[b"size 3", b"set 0 07\nset 2 0000"], 1, 2, Why::OutOfRange),
    (&[b"size 3", b"\nset 4 0"], 1, 2, Why::BadLine),
    (&[b"set 5 00", b"x"], 0, 1, Why::OutOfRange),
    (&[b"set 9 00\nsize 01", b"x"], 0, 2, Why::BadLine),
];

#[test]
fn the_first_refused_list_is_reported(rt: HostRuntime) -> Result<(), AllocError> {
    for (texts, list, line, why) in REFUSED {
        let wanted = Some(InputsError::Refused { list, line, why });
        assert!(rt; refusal(rt.alloc(), texts)? == wanted, "list {list}");
    }
    Ok(())
}
