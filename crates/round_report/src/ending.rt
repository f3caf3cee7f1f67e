//! An end in words.

ghost use Rattle.std.specs.Prelude.{◌≡◌, ◌++◌, codes, OnOk};
ghost use Rattle.isa_spec.specs.Causes.{number_of};
ghost use Rattle.report_spec.specs.Text.{line};
ghost use Rattle.report_spec.specs.Report.{end_text, ending_text};

use isa_spec::Cause;
use ith_text::{decimal, hex8};
use machine_spec::End;
use std::alloc::{AllocError, Global};

/// Appends the line of the end, which names none if there is none.
pub fn end_line(alloc: Global, ending: Option<End>, into: &mut Vec<u8>) -> Result<(), AllocError>
    ensures { OnOk result (into.new.items
        ≡ into.old.items ++ line (codes "end") (ending_text ending)) }
{
    into.extend_from_slice(b"end ")?;
    append_ending(alloc, ending, into)?;
    into.push(b'\n')?;
    Ok(())
}

/// Appends the end in words, if there is one.
pub fn append_ending(
    alloc: Global,
    ending: Option<End>,
    into: &mut Vec<u8>,
) -> Result<(), AllocError>
    ensures { OnOk result (into.new.items ≡ into.old.items ++ ending_text ending) }
{
    match ending {
        Some(end) => append_end(alloc, end, into),
        None => Ok(()),
    }
}

/// Appends an end in words.
fn append_end(alloc: Global, end: End, into: &mut Vec<u8>) -> Result<(), AllocError>
    ensures { OnOk result (into.new.items ≡ into.old.items ++ end_text end) }
{
    match end {
        End::Exit(code) => {
            into.extend_from_slice(b"exit ")?;
            decimal(alloc, u64::from(code), into)
        }
        End::Trap { thread, pc, cause } => append_trap(alloc, thread, pc, cause, into),
        End::Deadlock => into.extend_from_slice(b"deadlock"),
        End::Spent => into.extend_from_slice(b"spent"),
    }
}

/// Appends a trap: its thread, the pc in hexadecimal, and the cause's number.
fn append_trap(
    alloc: Global,
    thread: u8,
    pc: u32,
    cause: Cause,
    into: &mut Vec<u8>,
) -> Result<(), AllocError>
    ensures { OnOk result (into.new.items ≡ into.old.items ++ end_text (End.Trap thread pc cause)) }
{
    into.extend_from_slice(b"trap ")?;
    decimal(alloc, u64::from(thread), into)?;
    into.push(b' ')?;
    hex8(alloc, pc, into)?;
    into.push(b' ')?;
    decimal(alloc, u64::from(cause.number()), into)
}
