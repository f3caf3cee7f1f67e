//! Writing stored bytes into the shared pages.

ghost use Rattle.std.specs.Prelude.{◌≡◌, ◌<◌, length, IfOk, OnOk, OnErr};
ghost use Rattle.memory_spec.specs.Pages.{page_of};
ghost use Rattle.thunk_spec.specs.Delta.{masked};
ghost use Rattle.page_store.specs.Stores.{WritesStores};

use super::delta::Delta;
use super::page::Page;
use super::table::PageTable;
use std::alloc::AllocError;

/// Returns a table of pages with the stored bytes of a thunk applied: only the bytes at the marked places change. A
/// slot past the table's end has no page, so nothing is written there. Pages that nothing is written to are shared with
/// `table`. If the delta came from stores, the result is as if these were made in order.
///
/// # Errors
///
/// An error if the host's memory ran out, or a shared part has as many holders as can be counted.
pub fn committed(table: &PageTable, delta: &Delta) -> Result<PageTable, AllocError>
    ensures bytes { IfOk result (λ after. after ≡ masked table.now delta.now) }
    ensures stores { IfOk result (WritesStores table.now delta.now) }
{
    let mut after = table.snapshot()?;
    for stored in delta.pages() {
        let slot = stored.slot();
        if slot < after.len() {
            let page = stored.written_shared(after.page(slot))?;
            after.replace_owned(slot, page)?;
        }
    }
    Ok(after)
}

/// Writes the stored bytes of a thunk into a table of pages: only the bytes at the marked places change. A slot past
/// the table's end has no page, so nothing is written there. If the delta came from stores, the result is as if these
/// were made in order. Tables that share pages with this one don't change.
///
/// # Errors
///
/// An error if the host's memory ran out, or a shared part has as many holders as can be counted; the table is then as
/// before.
pub fn commit(table: &mut PageTable, delta: &Delta) -> Result<(), AllocError>
    ensures bytes { OnOk result (table.new ≡ masked table.old delta.now) }
    ensures stores { OnOk result (WritesStores table.old delta.now table.new) }
    ensures err { OnErr result (table.new ≡ table.old) }
{
    *table = committed(table, delta)?;
    Ok(())
}

/// Returns the page that a slot has in the table that `committed` returns, without making the table.
pub fn committed_page(table: &PageTable, delta: &Delta, slot: usize) -> Page
    requires { slot < length table.now }
    ensures { result ≡ page_of (masked table.now delta.now) slot }
{
    for stored in delta.pages() {
        if stored.slot() == slot {
            return stored.written(table.page(slot));
        }
    }
    table.page(slot).copy()
}
