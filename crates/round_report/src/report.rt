//! The whole report.

ghost use Rattle.std.specs.Prelude.{◌≡◌, ◌++◌, Some, IfOk, OnOk, OnErr};
ghost use Rattle.report_spec.specs.Report.{report_text};
ghost use Rattle.round_report.specs.Parts.{steps_part, work_part, outcome_part};

use super::data::ReportData;
use super::digest::{Digested, memory_line};
use super::ending::end_line;
use super::lines::{count_lines, progress_line, reached_line, schedule_line, worker_steps_line};
use memo_reports::number_line;
use std::alloc::{AllocError, Global};

/// The report of a round of this number: its lines, the output's bytes, and a newline. The digest of the memory is kept
/// for the next report, and taken from the last one if memory is the same.
///
/// # Errors
///
/// An error if the host's memory ran out. What was kept is then as before.
pub fn text(
    alloc: Global,
    number: u64,
    reported: &ReportData<'_>,
    last: &mut Option<Digested>,
) -> Result<Vec<u8>, AllocError>
    ensures text { IfOk result (λ text. text.items ≡ report_text number reported.now) }
    ensures kept { OnOk result (last.new ≡ Some reported.now.memory) }
    ensures same { OnErr result (last.new ≡ last.old) }
{
    match last.as_ref() {
        Some(digested) if digested.is_of(reported.memory) => text_with(
            alloc, number, reported, digested,
        ),
        _ => {
            let digested = Digested::of(reported.memory)?;
            let text = text_with(alloc, number, reported, &digested)?;
            *last = Some(digested);
            Ok(text)
        }
    }
}

/// The report, by the memory's digest.
fn text_with(
    alloc: Global,
    number: u64,
    reported: &ReportData<'_>,
    digested: &Digested,
) -> Result<Vec<u8>, AllocError>
    requires { digested.now ≡ reported.now.memory }
    ensures { IfOk result (λ text. text.items ≡ report_text number reported.now) }
{
    let mut text = Vec::new(alloc);
    number_line(alloc, "round", number, &mut text)?;
    append_steps(alloc, reported, &mut text)?;
    append_work(alloc, reported, &mut text)?;
    append_outcome(alloc, reported, digested, &mut text)?;
    Ok(text)
}

/// Appends the end, how many steps there were, and how many old ones are reached.
fn append_steps(
    alloc: Global,
    reported: &ReportData<'_>,
    into: &mut Vec<u8>,
) -> Result<(), AllocError>
    ensures { OnOk result (into.new.items ≡ into.old.items ++ steps_part reported.now) }
{
    end_line(alloc, reported.ending, into)?;
    count_lines(alloc, reported.schedule, into)?;
    reached_line(alloc, reported.reached, into)
}

/// Appends the instructions, how many steps each worker made, the numbers of steps that a watcher read, if they are
/// reported, and the schedule.
fn append_work(
    alloc: Global,
    reported: &ReportData<'_>,
    into: &mut Vec<u8>,
) -> Result<(), AllocError>
    ensures { OnOk result (into.new.items ≡ into.old.items ++ work_part reported.now) }
{
    number_line(alloc, "instructions", reported.instructions, into)?;
    worker_steps_line(alloc, reported.worker_steps, into)?;
    progress_line(alloc, reported.progress, into)?;
    schedule_line(alloc, reported.schedule, into)
}

/// Appends the memory's digest, the output's length, its bytes, and a newline.
pub(super) fn append_outcome(
    alloc: Global,
    reported: &ReportData<'_>,
    digested: &Digested,
    into: &mut Vec<u8>,
) -> Result<(), AllocError>
    requires { digested.now ≡ reported.now.memory }
    ensures { OnOk result (into.new.items ≡ into.old.items ++ outcome_part reported.now) }
{
    memory_line(alloc, digested, into)?;
    number_line(alloc, "output", reported.output.len() as u64, into)?;
    into.extend_from_slice(reported.output)?;
    into.push(b'\n')?;
    Ok(())
}
