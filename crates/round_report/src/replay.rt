//! The text of a replay.

ghost use Rattle.std.specs.Prelude.{◌≡◌, ◌++◌, IfOk, OnOk};
ghost use Rattle.round_report.specs.Parts.{run_part};
ghost use Rattle.round_report.specs.Replay.{replay_text};

use super::data::ReportData;
use super::digest::Digested;
use super::ending::end_line;
use super::report::append_outcome;
use memo_reports::number_line;
use std::alloc::{AllocError, Global};

/// Appends how the run ended, after how many steps, and how many instructions they made.
fn append_run(
    alloc: Global,
    reported: &ReportData<'_>,
    into: &mut Vec<u8>,
) -> Result<(), AllocError>
    ensures { OnOk result (into.new.items ≡ into.old.items ++ run_part reported.now) }
{
    end_line(alloc, reported.ending, into)?;
    number_line(alloc, "steps", reported.schedule.len() as u64, into)?;
    number_line(alloc, "instructions", reported.instructions, into)
}

/// The text of a replay: those lines of a report that neither reuse nor workers change if each step is executed, the
/// output's bytes, and a newline.
///
/// # Errors
///
/// An error if the host's memory ran out.
pub fn replayed(alloc: Global, reported: &ReportData<'_>) -> Result<Vec<u8>, AllocError>
    ensures { IfOk result (λ text. text.items ≡ replay_text reported.now) }
{
    let digested = Digested::of(reported.memory)?;
    replayed_with(alloc, reported, &digested)
}

/// The text, by the memory's digest.
fn replayed_with(
    alloc: Global,
    reported: &ReportData<'_>,
    digested: &Digested,
) -> Result<Vec<u8>, AllocError>
    requires { digested.now ≡ reported.now.memory }
    ensures { IfOk result (λ text. text.items ≡ replay_text reported.now) }
{
    let mut text = Vec::new(alloc);
    text.extend_from_slice(b"replay\n")?;
    append_run(alloc, reported, &mut text)?;
    append_outcome(alloc, reported, digested, &mut text)?;
    Ok(text)
}
