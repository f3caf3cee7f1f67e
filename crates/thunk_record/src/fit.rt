//! Whether a record fits a thread's next thunk.

ghost use Rattle.std.specs.Prelude.{◌≡◌, ◌+◌};
ghost use Rattle.std.specs.Str.{bytes_eq};
ghost use Rattle.memory_spec.specs.Pages.{page_of};
ghost use Rattle.thunk_spec.specs.Reads.{has};
ghost use Rattle.thunk_spec.specs.Record.{fits_at, may_end};
ghost use Rattle.thunk_record.specs.Comparing.{compared_in, compared_for};

use super::compared::Compared;
use super::kept::Record;
use page_store::{PageTable, ReadPage};
use rv_isa::Regs;
use thunk_spec::ThunkEnd;

/// Whether a view has the bytes of a read page. It has none of a page past its end, which counts as compared too.
#[tactic(auto, using(crate::proofs::Past::no_bytes))]
pub fn has_read(table: &PageTable, read: &ReadPage, compared: &mut Compared) -> bool
    ensures has { result ≡ bytes_eq (page_of table.now read.now.slot) read.now.bytes }
    ensures compared { compared.new ≡ compared.old + 1 }
{
    compared.count();
    let bytes = read.page().bytes();
    if read.slot() < table.len() {
        table.page(read.slot()).bytes() == bytes
    } else {
        false
    }
}

/// Whether a view has the bytes of each of these read pages. Those up to the first that differs are compared.
fn has_pages(table: &PageTable, reads: &[ReadPage], compared: &mut Compared) -> bool
    ensures has { result ≡ has table.now reads.now }
    ensures compared { compared.new ≡ compared.old + compared_in table.now reads.now }
{
    for read in reads {
        if !has_read(table, read, compared) {
            return false;
        }
    }
    true
}

/// Whether a thunk of this fuel may have ended in this way after so many turns: they are no more than the fuel, and
/// exactly as many if the fuel ended it.
#[tactic(auto, unfolding(thunk_spec::specs::Record::may_end))]
fn is_within_fuel(fuel: u32, end: ThunkEnd, count: u32) -> bool
    ensures { result ≡ may_end fuel end count }
{
    match end {
        ThunkEnd::Call | ThunkEnd::Trap(_) => count <= fuel,
        ThunkEnd::Fuel => count == fuel,
    }
}

/// Whether a record fits the next thunk of a thread that has made `number` steps, and has these registers and this
/// view, in a run of this fuel: it is of the same number, its first registers are these, the view has the bytes of each
/// of its read pages, and a thunk of this fuel may have ended as it did. Allocates no memory.
pub fn fits(rec: &Record, number: u32, regs: &Regs, table: &PageTable, fuel: u32) -> bool
    ensures { result ≡ fits_at rec.now number regs.now table.now fuel }
{
    fits_counted(rec, number, regs, table, fuel, &mut Compared::unread())
}

/// Like `fits`. The counter rises by the number of read pages that are compared: those up to the first that differs,
/// and none if the number or the registers differ.
#[tactic(auto, unfolding(thunk_spec::specs::Record::fits_at))]
pub fn fits_counted(
    rec: &Record,
    number: u32,
    regs: &Regs,
    table: &PageTable,
    fuel: u32,
    compared: &mut Compared,
) -> bool
    ensures fits { result ≡ fits_at rec.now number regs.now table.now fuel }
    ensures compared { compared.new
        ≡ compared.old + compared_for rec.now number regs.now table.now }
{
    rec.number() == number
        && rec.start() == regs
        && has_pages(table, rec.reads().pages(), compared)
        && is_within_fuel(fuel, rec.end(), rec.count())
}
