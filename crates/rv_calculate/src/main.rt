//! Computes the results of instructions of RV32IM.
//!
//! It reads lines of standard input. A line is a mnemonic and two words, with single spaces: the first operand, then
//! the second one, the extended immediate or the amount of a shift. A word is eight hexadecimal digits with `a` to `f`
//! in lower case. For each line it prints the line and the result, for a branch 1 if it is taken and 0 if it is not. So
//! the answer to `sub 00000000 00000001` is `sub 00000000 00000001 ffffffff`.
//!
//! The answer to any other line is `line N: not an operation` on standard error, with lines counted from 1; the lines
//! after it are read all the same. The status is 0 if each line was an operation, and 1 if one was not or if reading or
//! writing failed.
#![tactic(auto)]

mod operation;

use hex_word::word_in;
use operation::Operation;
use std::alloc::Global;
use std::io;
use std::io::{BufRead, BufReader, BufWriter, Write};
use std::process::ExitCode;

/// The operation and the operands of a line, or `None` if it isn't an operation.
fn parse(line: &str) -> Option<(Operation, u32, u32)> {
    let (name, operands) = line.split_once(' ')?;
    let (a, b) = operands.split_once(' ')?;
    Some((Operation::named(name)?, word_in(a)?, word_in(b)?))
}

/// Answers each line, and returns whether each was an operation.
fn calculate<R>(rt: &R, alloc: Global) -> io::Result<bool>
where
    R: Input + Print + Eprint,
{
    let mut out = BufWriter::new(alloc, io::writer(rt))?;
    let mut all_known = true;
    let mut number = 0u64;
    for line in BufReader::new(alloc, rt.reader())?.lines(alloc) {
        let line = line?;
        number = number.saturating_add(1);
        match parse(line.as_str()) {
            Some((operation, a, b)) => {
                let result = operation.result(a, b);
                writeln!(out, "{line} {result:08x}")?;
            }
            None => {
                all_known = false;
                eprintln!(rt; "line {number}: not an operation")?;
            }
        }
    }
    out.flush()?;
    Ok(all_known)
}

fn main(rt: HostRuntime) -> io::Result<ExitCode> {
    let all_known = calculate(&rt, rt.alloc())?;
    Ok(if all_known {
        ExitCode::SUCCESS
    } else {
        ExitCode::FAILURE
    })
}
