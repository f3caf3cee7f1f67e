//! The lines that are written to standard error. Nothing depends on them, so a line is cut short if memory runs out.

use edit_list::Why;
use elf_spec::Refusal;
use ith_text::decimal;
use memo_spec::{Limit, Refusal as MemoRefusal};
use std::alloc::{AllocError, Global};

/// The line to write if the host's memory ran out.
pub const NO_MEMORY: &[u8] = b"no memory";

/// The line to write if the run has no end after the last entry of its schedule.
pub const INCOMPLETE: &[u8] = b"schedule: incomplete";

/// A text and a name after it.
pub fn name_line(alloc: Global, text: &str, name: &str) -> Vec<u8> {
    let mut line = Vec::new(alloc);
    let _ = line.extend_from_slice(text.as_bytes());
    let _ = line.extend_from_slice(name.as_bytes());
    line
}

/// Why an executable is refused, with its numbers.
pub fn image_line(alloc: Global, refusal: Refusal) -> Vec<u8> {
    let mut line = name_line(alloc, "image: ", kind(refusal));
    let _ = append_numbers(alloc, refusal, &mut line);
    line
}

/// Why a memo is refused, with its number or name, or with the executable's refusal.
pub fn memo_line(alloc: Global, refusal: MemoRefusal) -> Vec<u8> {
    let mut line = name_line(alloc, "memo: ", memo_kind(refusal));
    let _ = match refusal {
        MemoRefusal::Version(number) | MemoRefusal::Old(number) | MemoRefusal::Incoherent(number) =>
            { append_number(alloc, Some(u64::from(number)), &mut line) }
        MemoRefusal::Field(offset) => append_number(alloc, Some(offset as u64), &mut line),
        MemoRefusal::Limit(limit) => line.extend_from_slice(limit_name(limit)),
        MemoRefusal::Image(refusal) => append_image(alloc, refusal, &mut line),
        _ => Ok(()),
    };
    line
}

/// The length that a memo would have, if it is longer than a memo may be.
pub fn long_memo_line(alloc: Global, length: u64) -> Vec<u8> {
    let mut line = name_line(alloc, "too large ", "memo");
    let _ = append_number(alloc, Some(length), &mut line);
    line
}

/// Why an edit list is refused, with its name, if it has one, and the number of the refused line.
pub fn edits_line(alloc: Global, name: Option<&&str>, line: usize, why: Why) -> Vec<u8> {
    let mut text = match name {
        Some(name) => name_line(alloc, "edits ", name),
        None => name_line(alloc, "edits ", ""),
    };
    let _ = text.extend_from_slice(b" line ");
    let _ = decimal(alloc, line as u64, &mut text);
    let _ = text.extend_from_slice(cause(why));
    text
}

/// Which part of a schedule is refused: a token or an entry, and its number.
pub fn schedule_line(alloc: Global, part: &str, number: usize) -> Vec<u8> {
    let mut line = name_line(alloc, "schedule: ", part);
    let _ = append_number(alloc, Some(number as u64), &mut line);
    line
}

/// Which record of a memo is the first false one.
pub fn false_line(alloc: Global, place: u32) -> Vec<u8> {
    let mut line = name_line(alloc, "false", "");
    let _ = append_number(alloc, Some(u64::from(place)), &mut line);
    line
}

/// The cause for which a line of an edit list is refused.
fn cause(why: Why) -> &'static [u8] {
    match why {
        Why::BadLine => b": BadLine",
        Why::OutOfRange => b": OutOfRange",
    }
}

/// Appends a space and a number, if there is one.
fn append_number(alloc: Global, number: Option<u64>, line: &mut Vec<u8>) -> Result<(), AllocError> {
    match number {
        Some(number) => {
            line.push(b' ')?;
            decimal(alloc, number, line)
        }
        None => Ok(()),
    }
}

/// Appends the numbers of an executable's refusal.
fn append_numbers(alloc: Global, refusal: Refusal, line: &mut Vec<u8>) -> Result<(), AllocError> {
    let (first, second) = numbers(refusal);
    append_number(alloc, first, line)?;
    append_number(alloc, second, line)
}

/// Appends a space and an executable's refusal.
fn append_image(alloc: Global, refusal: Refusal, line: &mut Vec<u8>) -> Result<(), AllocError> {
    line.push(b' ')?;
    line.extend_from_slice(kind(refusal).as_bytes())?;
    append_numbers(alloc, refusal, line)
}

/// The name of a memo's refusal.
fn memo_kind(refusal: MemoRefusal) -> &'static str {
    match refusal {
        MemoRefusal::Short => "Short",
        MemoRefusal::Magic => "Magic",
        MemoRefusal::Version(_) => "Version",
        MemoRefusal::Digest => "Digest",
        MemoRefusal::Limit(_) => "Limit",
        MemoRefusal::Image(_) => "Image",
        MemoRefusal::Field(_) => "Field",
        MemoRefusal::Old(_) => "Old",
        MemoRefusal::Incoherent(_) => "Incoherent",
    }
}

/// A space and the name of a number of a memo that is above its limit.
fn limit_name(limit: Limit) -> &'static [u8] {
    match limit {
        Limit::Elf => b" elf",
        Limit::Input => b" input",
        Limit::Fuel => b" fuel",
        Limit::Steps => b" steps",
        Limit::Entries => b" entries",
    }
}

/// The name of a refusal.
fn kind(refusal: Refusal) -> &'static str {
    match refusal {
        Refusal::NotElf => "NotElf",
        Refusal::NotElf32 => "NotElf32",
        Refusal::NotExec => "NotExec",
        Refusal::NotRiscv => "NotRiscv",
        Refusal::Compressed => "Compressed",
        Refusal::EntrySize => "EntrySize",
        Refusal::ShortTable(_) => "ShortTable",
        Refusal::Dynamic(_) => "Dynamic",
        Refusal::ShortSegment(_) => "ShortSegment",
        Refusal::Outside(_) => "Outside",
        Refusal::Overlap(_, _) => "Overlap",
        Refusal::TooManyPages(_) => "TooManyPages",
        Refusal::Entry => "Entry",
    }
}

/// The numbers of a refusal.
fn numbers(refusal: Refusal) -> (Option<u64>, Option<u64>) {
    match refusal {
        Refusal::ShortTable(i)
        | Refusal::Dynamic(i)
        | Refusal::ShortSegment(i)
        | Refusal::Outside(i)
        | Refusal::TooManyPages(i) => (Some(u64::from(i)), None),
        Refusal::Overlap(i, j) => (Some(u64::from(i)), Some(u64::from(j))),
        _ => (None, None),
    }
}
