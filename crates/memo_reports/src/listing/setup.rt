//! The lines of a setup, each a name and a number.

ghost use Rattle.std.specs.Prelude.{◌≡◌, ◌++◌, OnOk};
ghost use Rattle.memo_reports.specs.Listing.{setup_lines};

use crate::lines::number_line;
use run_history::Setup;
use std::alloc::{AllocError, Global};

/// Appends the lines of a setup, and of how many records there are.
pub(super) fn setup_lines(
    alloc: Global,
    setup: &Setup,
    entries: u64,
    into: &mut Vec<u8>,
) -> Result<(), AllocError>
    ensures { OnOk result (into.new.items ≡ into.old.items ++ setup_lines setup.now entries) }
{
    number_line(alloc, "elf", setup.elf().len() as u64, into)?;
    number_line(alloc, "input", setup.input().len() as u64, into)?;
    number_line(alloc, "fuel", u64::from(setup.fuel()), into)?;
    number_line(alloc, "limit", u64::from(setup.steps()), into)?;
    number_line(alloc, "entries", entries, into)?;
    Ok(())
}
