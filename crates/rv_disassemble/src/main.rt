//! Prints which instruction of RV32IM each word of a list is.
//!
//! It reads lines of standard input. A line is a word, in eight hexadecimal digits with `a` to `f` in lower case. For
//! each line it prints the word, then the instruction's mnemonic and its operands, or `none` if the word is illegal. So
//! the answer to `0062a023` is `0062a023 sw rs1=5 rs2=6 imm=00000000`.
//!
//! Registers (`rd`, `rs1`, `rs2`) and the amount of a shift (`shamt`) are decimal. An immediate (`imm`)
//! has eight hexadecimal digits: it is the word that the hart adds or compares, sign-extended, and
//! with its twelve zeros for LUI and AUIPC.
//!
//! The answer to a line that is no word is `line N: not a word` on standard error, with lines counted from 1; the lines
//! after it are read all the same. The status is 0 if each line was a word, and 1 if one was not or if reading or
//! writing failed.
#![tactic(auto)]

mod assembly;

use assembly::Assembly;
use hex_word::word_in;
use rv_isa::decode;
use std::alloc::Global;
use std::io;
use std::io::{BufRead, BufReader, BufWriter, Write};
use std::process::ExitCode;

/// Writes the answer to a word.
fn write_answer<W: Write>(out: &mut W, w: u32) -> io::Result<()> {
    match decode(w) {
        Some(instr) => {
            let assembly = Assembly(instr);
            writeln!(out, "{w:08x} {assembly}")
        }
        None => writeln!(out, "{w:08x} none"),
    }
}

/// Answers each line, and returns whether each was a word.
fn disassemble<R>(rt: &R, alloc: Global) -> io::Result<bool>
where
    R: Input + Print + Eprint,
{
    let mut out = BufWriter::new(alloc, io::writer(rt))?;
    let mut all_words = true;
    let mut number = 0u64;
    for line in BufReader::new(alloc, rt.reader())?.lines(alloc) {
        number = number.saturating_add(1);
        match word_in(line?.as_str()) {
            Some(w) => write_answer(&mut out, w)?,
            None => {
                all_words = false;
                eprintln!(rt; "line {number}: not a word")?;
            }
        }
    }
    out.flush()?;
    Ok(all_words)
}

fn main(rt: HostRuntime) -> io::Result<ExitCode> {
    let all_words = disassemble(&rt, rt.alloc())?;
    Ok(if all_words {
        ExitCode::SUCCESS
    } else {
        ExitCode::FAILURE
    })
}
