//! Reasons as text.

ghost use Rattle.std.specs.Prelude.{◌≡◌, ◌++◌, codes, IfOk, OnOk, decimal};
ghost use Rattle.report_spec.specs.Text.{hex8};
ghost use Rattle.round_report.specs.WhyText.{storer_text, change_text, cause_text, reason_line, why_text};

use super::reason::{Cause, Reason};
use ith_text::{decimal, hex8};
use memo_reports::append_number;
use std::alloc::{AllocError, Global};

/// Appends what a number is now, and what it was.
fn append_change(alloc: Global, now: u32, was: u32, into: &mut Vec<u8>) -> Result<(), AllocError>
    ensures { OnOk result (into.new.items ≡ into.old.items ++ change_text now was) }
{
    append_number(alloc, " now ", u64::from(now), into)?;
    append_number(alloc, " was ", u64::from(was), into)
}

/// Appends the entry that stored a byte, or that none did.
fn append_storer(alloc: Global, storer: Option<usize>, into: &mut Vec<u8>) -> Result<(), AllocError>
    ensures { OnOk result (into.new.items ≡ into.old.items ++ storer_text storer) }
{
    match storer {
        Some(entry) => decimal(alloc, entry as u64, into),
        None => into.extend_from_slice(b"start"),
    }
}

/// Appends a page and a place on it.
fn append_place(
    alloc: Global,
    page: u32,
    place: usize,
    into: &mut Vec<u8>,
) -> Result<(), AllocError>
    ensures { OnOk result (into.new.items
        ≡ into.old.items ++ codes "page " ++ hex8 page ++ codes " at " ++ decimal place) }
{
    into.extend_from_slice(b"page ")?;
    hex8(alloc, page, into)?;
    append_number(alloc, " at ", place as u64, into)
}

/// Appends a cause in words.
fn append_cause(alloc: Global, cause: Cause, into: &mut Vec<u8>) -> Result<(), AllocError>
    ensures { OnOk result (into.new.items ≡ into.old.items ++ cause_text cause) }
{
    match cause {
        Cause::NoRecord => into.extend_from_slice(b"none"),
        Cause::Register { register, now, was } => {
            append_number(alloc, "register ", u64::from(register), into)?;
            append_change(alloc, now, was, into)
        }
        Cause::Byte {
            page,
            place,
            now,
            was,
            storer,
        } => {
            append_place(alloc, page, place, into)?;
            append_change(alloc, u32::from(now), u32::from(was), into)?;
            into.extend_from_slice(b" by ")?;
            append_storer(alloc, storer, into)
        }
    }
}

/// Appends the line of a reason.
fn reason_line(alloc: Global, reason: &Reason, into: &mut Vec<u8>) -> Result<(), AllocError>
    ensures { OnOk result (into.new.items ≡ into.old.items ++ reason_line reason.now) }
{
    append_number(alloc, "step ", reason.step as u64, into)?;
    append_number(alloc, " thread ", u64::from(reason.thread), into)?;
    append_number(alloc, " number ", u64::from(reason.number), into)?;
    into.push(b' ')?;
    append_cause(alloc, reason.cause, into)?;
    into.push(b'\n')?;
    Ok(())
}

/// The text of reasons: how many there are, and a line for each.
///
/// # Errors
///
/// An error if the host's memory ran out.
pub fn text(alloc: Global, reasons: &[Reason]) -> Result<Vec<u8>, AllocError>
    ensures { IfOk result (λ text. text.items ≡ why_text reasons.now) }
{
    let mut text = Vec::new(alloc);
    append_number(alloc, "why ", reasons.len() as u64, &mut text)?;
    text.push(b'\n')?;
    for reason in reasons {
        reason_line(alloc, reason, &mut text)?;
    }
    Ok(text)
}
