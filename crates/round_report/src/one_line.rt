//! A round in one line.

ghost use Rattle.std.specs.Prelude.{◌≡◌, ◌++◌, codes, decimal, IfOk, OnOk};
ghost use Rattle.report_spec.specs.Text.{space, line};
ghost use Rattle.report_spec.specs.Report.{ending_text};
ghost use Rattle.round_report.specs.Short.{short_text};

use super::data::ReportData;
use super::ending::append_ending;
use super::lines::text_line;
use ith_text::decimal;
use machine_spec::End;
use std::alloc::{AllocError, Global};

/// The line of a round of this number: how it ended, and its output in lower-case hexadecimal.
///
/// # Errors
///
/// An error if the host's memory ran out.
#[tactic(auto, unfolding(crate::specs::Short::short_text))]
pub fn short(alloc: Global, number: u64, reported: &ReportData<'_>) -> Result<Vec<u8>, AllocError>
    ensures { IfOk result (λ text. text.items ≡ short_text number reported.now) }
{
    let output = hex::encode(alloc, reported.output)?;
    let mut text = Vec::new(alloc);
    append_short(alloc, number, reported.ending, output.as_bytes(), &mut text)?;
    Ok(text)
}

/// Appends the line of a round of this number, by its end and its output in hexadecimal.
fn append_short(
    alloc: Global,
    number: u64,
    ending: Option<End>,
    output: &[u8],
    into: &mut Vec<u8>,
) -> Result<(), AllocError>
    ensures { OnOk result (into.new.items ≡ into.old.items
        ++ line (codes "round")
        (decimal number ++ space ++ codes "end" ++ space ++ ending_text ending
        ++ space ++ codes "output" ++ space ++ output.now)) }
{
    into.extend_from_slice(b"round ")?;
    decimal(alloc, number, into)?;
    into.extend_from_slice(b" end ")?;
    append_ending(alloc, ending, into)?;
    text_line(" output", output, into)
}
