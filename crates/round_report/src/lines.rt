//! The lines of a report, each appended to a text.
//!
//! If memory runs out, a part of the line may have been appended: the text is then dropped.

ghost use Rattle.std.specs.Prelude.{◌≡◌, [], ◌∷◌, ◌++◌, codes, option_map, OnOk, decimal};
ghost use Rattle.std.specs.List.{concat};
ghost use Rattle.report_spec.specs.Text.{space, line, list_line};
ghost use Rattle.report_spec.specs.Report.{entry_text, reused_count, executed_count, reached_lines, progress_lines};
ghost use Rattle.round_report.specs.Parts.{counts_part};

use ith_text::decimal;
use memo_reports::number_line;
use report_spec::Entry;
use std::alloc::{AllocError, Global};

/// Appends a line: a name, a space, and a text.
pub fn text_line(name: &str, text: &[u8], into: &mut Vec<u8>) -> Result<(), AllocError>
    ensures { OnOk result (into.new.items ≡ into.old.items ++ line name.now text.now) }
{
    into.extend_from_slice(name.as_bytes())?;
    into.push(b' ')?;
    into.extend_from_slice(text)?;
    into.push(b'\n')?;
    Ok(())
}

/// Appends the lines that count a schedule's entries: all of them, the reused, and the executed.
pub fn count_lines(alloc: Global, schedule: &[Entry], into: &mut Vec<u8>) -> Result<(), AllocError>
    ensures { OnOk result (into.new.items ≡ into.old.items ++ counts_part schedule.now) }
{
    number_line(alloc, "steps", schedule.len() as u64, into)?;
    number_line(alloc, "reused", reused_entries(schedule) as u64, into)?;
    number_line(alloc, "executed", executed_entries(schedule) as u64, into)?;
    Ok(())
}

/// Appends the line of how many old steps are reached, if that is reported.
pub fn reached_line(
    alloc: Global,
    reached: Option<u32>,
    into: &mut Vec<u8>,
) -> Result<(), AllocError>
    ensures { OnOk result (into.new.items ≡ into.old.items ++ concat (reached_lines reached)) }
{
    match reached {
        Some(steps) => number_line(alloc, "reached", u64::from(steps), into),
        None => Ok(()),
    }
}

/// How many entries were reused.
fn reused_entries(schedule: &[Entry]) -> usize
    ensures { result ≡ reused_count schedule.now }
{
    schedule.iter().filter(|entry| entry.reused).count()
}

/// How many entries were executed.
fn executed_entries(schedule: &[Entry]) -> usize
    ensures { result ≡ executed_count schedule.now }
{
    schedule.iter().filter(|entry| !entry.reused).count()
}

/// Appends the line of the workers' steps: each of them after a space.
pub fn worker_steps_line(
    alloc: Global,
    worker_steps: &[u64],
    into: &mut Vec<u8>,
) -> Result<(), AllocError>
    ensures { OnOk result (into.new.items
        ≡ into.old.items ++ list_line (codes "by") decimal worker_steps.now) }
{
    ith_text::list(alloc, "by", worker_steps, into)
}

/// Appends the line of the numbers of steps that a watcher read, if they are reported.
pub fn progress_line(
    alloc: Global,
    progress: Option<&[u64]>,
    into: &mut Vec<u8>,
) -> Result<(), AllocError>
    ensures { OnOk result (into.new.items ≡ into.old.items
        ++ concat (progress_lines (option_map (λ numbers. numbers.now) progress.entry))) }
{
    match progress {
        Some(numbers) => ith_text::list(alloc, "progress", numbers, into),
        None => Ok(()),
    }
}

/// Appends the line of a schedule: each entry's thread and mark after a space.
pub fn schedule_line(
    alloc: Global,
    schedule: &[Entry],
    into: &mut Vec<u8>,
) -> Result<(), AllocError>
    ensures { OnOk result (into.new.items
        ≡ into.old.items ++ list_line (codes "schedule") entry_text schedule.now) }
{
    into.extend_from_slice(b"schedule")?;
    for entry in schedule {
        append_entry(alloc, *entry, into)?;
    }
    into.push(b'\n')?;
    Ok(())
}

/// Appends a space, and an entry's thread and mark.
fn append_entry(alloc: Global, entry: Entry, into: &mut Vec<u8>) -> Result<(), AllocError>
    ensures { OnOk result (into.new.items ≡ into.old.items ++ space ++ entry_text entry) }
{
    into.push(b' ')?;
    decimal(alloc, u64::from(entry.thread), into)?;
    into.push(mark(entry))?;
    Ok(())
}

/// An entry's mark.
fn mark(entry: Entry) -> u8
    ensures { entry_text entry ≡ decimal entry.thread ++ result ∷ [] }
{
    if entry.reused { b'=' } else { b'+' }
}
