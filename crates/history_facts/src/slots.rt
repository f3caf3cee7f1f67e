//! The slots of the pages that a record writes, and of those that it has read.

ghost use Rattle.std.specs.Prelude.{◌≡◌, ◌++◌, IfOk, OnOk};
ghost use Rattle.history_spec.specs.Facts as order;

use std::alloc::{AllocError, Global};
use thunk_record::Record;

/// The slots of the pages that a record writes.
pub fn written(alloc: Global, rec: &Record) -> Result<Vec<usize>, AllocError>
    ensures { IfOk result (λ slots. slots.items ≡ order.written_slots rec.now) }
{
    rec.delta()
        .pages()
        .iter()
        .map(|page| page.slot())
        .collect(alloc)
}

/// The slots of the pages that a record has read, after others.
pub fn push_read(slots: &mut Vec<usize>, rec: &Record) -> Result<(), AllocError>
    ensures { OnOk result (slots.new.items ≡ slots.old.items ++ order.read_slots rec.now) }
{
    let pages = rec.reads().pages();
    for page in pages {
        slots.push(page.slot())?;
    }
    Ok(())
}
