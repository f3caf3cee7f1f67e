//! The line of a record.

ghost use Rattle.std.specs.Prelude.{◌≡◌, ◌++◌, length, OnOk};
ghost use Rattle.isa_spec.specs.Causes.{number_of};
ghost use Rattle.isa_spec.specs.Registers.{register};
ghost use Rattle.history_spec.specs.History.{IsMappedIn};
ghost use Rattle.memo_reports.specs.Listing.{end_text, entry_line};
ghost use Rattle.memo_reports.specs.Parts.{step_part, pages_part};

use super::pages::{append_reads, append_writes};
use crate::lines::append_number;
use isa_spec::Cause;
use std::alloc::{AllocError, Global};
use thunk_record::Record;
use thunk_spec::ThunkEnd;

/// The register that has the number of a call, a7 (RISC-V ELF psABI, Integer Register Convention).
const A7: u8 = 17;

/// Appends the line of the record at a place. If memory runs out, a part of the line may have been appended.
pub(super) fn entry_line(
    alloc: Global,
    addresses: &[u32],
    place: u64,
    rec: &Record,
    into: &mut Vec<u8>,
) -> Result<(), AllocError>
    requires { IsMappedIn (length addresses.now) rec.now }
    ensures { OnOk result (into.new.items
        ≡ into.old.items ++ entry_line addresses.now place rec.now) }
{
    append_step(alloc, place, rec, into)?;
    append_pages(alloc, addresses, rec, into)?;
    into.push(b'\n')?;
    Ok(())
}

/// Appends which step it is, how its thunk ended, and after how many turns.
fn append_step(
    alloc: Global,
    place: u64,
    rec: &Record,
    into: &mut Vec<u8>,
) -> Result<(), AllocError>
    ensures { OnOk result (into.new.items ≡ into.old.items ++ step_part place rec.now) }
{
    append_number(alloc, "entry ", place, into)?;
    append_number(alloc, " thread ", u64::from(rec.thread()), into)?;
    append_number(alloc, " number ", u64::from(rec.number()), into)?;
    into.extend_from_slice(b" end ")?;
    append_end(alloc, rec.end(), rec.finish().get(A7), into)?;
    append_number(alloc, " count ", u64::from(rec.count()), into)
}

/// Appends how a thunk ended; a call by its number, which is in a7.
fn append_end(alloc: Global, end: ThunkEnd, a7: u32, into: &mut Vec<u8>) -> Result<(), AllocError>
    ensures { OnOk result (into.new.items ≡ into.old.items ++ end_text end a7) }
{
    match end {
        ThunkEnd::Call => append_number(alloc, "call ", u64::from(a7), into),
        ThunkEnd::Trap(cause) => append_number(alloc, "trap ", u64::from(cause.number()), into),
        ThunkEnd::Fuel => into.extend_from_slice(b"fuel"),
    }
}

/// Appends the pages that it read, and those that it stored to.
fn append_pages(
    alloc: Global,
    addresses: &[u32],
    rec: &Record,
    into: &mut Vec<u8>,
) -> Result<(), AllocError>
    requires { IsMappedIn (length addresses.now) rec.now }
    ensures { OnOk result (into.new.items ≡ into.old.items ++ pages_part addresses.now rec.now) }
{
    into.extend_from_slice(b" reads ")?;
    append_reads(alloc, addresses, rec.reads().pages(), into)?;
    into.extend_from_slice(b" writes ")?;
    append_writes(alloc, addresses, rec.delta().pages(), into)
}
