//! The text of an audit.

ghost use Rattle.std.specs.Prelude.{◌≡◌, IfOk};
ghost use Rattle.memo_reports.specs.AuditText.{audit_text};

use super::verdict::Verdict;
use crate::lines::number_line;
use std::alloc::{AllocError, Global};

/// The lines of an audit: how many records were audited, how many instructions were executed, and `honest`, or `false`
/// with the place of the first false record.
///
/// # Errors
///
/// An error if the host's memory ran out.
pub fn text(alloc: Global, entries: u64, verdict: Verdict) -> Result<Vec<u8>, AllocError>
    ensures { IfOk result (λ text. text.items
        ≡ audit_text entries verdict.instructions verdict.first) }
{
    let mut text = Vec::new(alloc);
    number_line(alloc, "audit", entries, &mut text)?;
    number_line(alloc, "instructions", verdict.instructions, &mut text)?;
    match verdict.first {
        None => text.extend_from_slice(b"honest\n")?,
        Some(place) => number_line(alloc, "false", u64::from(place), &mut text)?,
    }
    Ok(text)
}
