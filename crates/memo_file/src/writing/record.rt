//! A record as bytes.

ghost use Rattle.std.specs.Prelude.{◌≡◌, ◌<◌, ◌≤◌, ◌+◌, ◌++◌, All, length, OnOk};
ghost use Rattle.std.specs.List.{flat_map};
ghost use Rattle.isa_spec.specs.Causes.{number_of};
ghost use Rattle.memo_spec.specs.Encoding.{byte, half, word, registers as registers_of, end_number, read_page, stored_page as stored_page_bytes, record_bytes};
ghost use Rattle.memo_file.specs.WritingPool.{pages_lent, ArePlaced};
ghost use Rattle.memo_file.specs.WritingSizes.{HasFewPages};
ghost use Rattle.history_spec.specs.History.{IsMappedIn};

use super::numbers::{put_half, put_word};
use super::pool::Pool;
use super::stored::write_stored;
use isa_spec::Cause;
use page_store::{PageDelta, PageMap, ReadPage};
use rv_isa::Regs;
use std::alloc::AllocError;
use thunk_record::Record;
use thunk_spec::ThunkEnd;

/// Appends registers: the program counter, then x1 to x31.
fn write_registers(out: &mut Vec<u8>, regs: &Regs) -> Result<(), AllocError>
    ensures { OnOk result (out.new.items ≡ out.old.items ++ registers_of regs.now) }
{
    let words = regs.to_words();
    for number in &words {
        put_word(out, *number)?;
    }
    Ok(())
}

/// The number of an end.
fn end_byte(end: ThunkEnd) -> u8
    ensures { result ≡ end_number end }
{
    match end {
        ThunkEnd::Trap(cause) => cause.number(),
        ThunkEnd::Call => 8,
        ThunkEnd::Fuel => 9,
    }
}

/// Appends all of a record before the counts of its pages.
fn write_head(out: &mut Vec<u8>, rec: &Record) -> Result<(), AllocError>
    ensures { OnOk result
        (out.new.items ≡ out.old.items ++ byte rec.now.thread ++ byte (end_number rec.now.kept.end)
        ++ word rec.now.kept.count ++ registers_of rec.now.start
        ++ registers_of rec.now.kept.finish) }
{
    out.push(rec.thread())?;
    out.push(end_byte(rec.end()))?;
    put_word(out, rec.count())?;
    write_registers(out, rec.start())?;
    write_registers(out, rec.finish())
}

/// Appends read pages, whose places in the pool are those of `pool` from `start` on.
fn write_reads(
    out: &mut Vec<u8>,
    slots: &PageMap,
    pool: &Pool,
    start: usize,
    reads: &[ReadPage],
) -> Result<(), AllocError>
    requires mapped { All (λ p. p.slot < length slots.now) reads.now }
    requires placed { ArePlaced
        (pages_lent pool.now.pages.items) pool.now.places.items start reads.now }
    ensures { OnOk result (out.new.items
        ≡ out.old.items
        ++ flat_map (read_page slots.now (pages_lent pool.now.pages.items)) reads.now) }
{
    for (k, read) in reads.iter().enumerate() {
        put_word(out, slots.page(read.slot()).number())?;
        put_word(out, pool.places[start + k])?;
    }
    Ok(())
}

/// Appends stored pages.
fn write_delta(out: &mut Vec<u8>, slots: &PageMap, delta: &[PageDelta]) -> Result<(), AllocError>
    requires { All (λ d. d.slot < length slots.now) delta.now }
    ensures { OnOk result (out.new.items
        ≡ out.old.items ++ flat_map (stored_page_bytes slots.now) delta.now) }
{
    for stored in delta {
        write_stored(out, slots, stored)?;
    }
    Ok(())
}

/// Appends a record. The places of its read pages in the pool are those of `pool` from `start` on.
pub fn write_record(
    out: &mut Vec<u8>,
    slots: &PageMap,
    pool: &Pool,
    start: usize,
    rec: &Record,
) -> Result<(), AllocError>
    requires mapped { IsMappedIn (length slots.now) rec.now }
    requires few { HasFewPages rec.now }
    requires placed { ArePlaced
        (pages_lent pool.now.pages.items) pool.now.places.items start rec.now.kept.reads }
    ensures { OnOk result (out.new.items
        ≡ out.old.items ++ record_bytes slots.now (pages_lent pool.now.pages.items) rec.now) }
{
    let reads = rec.reads().pages();
    let delta = rec.delta().pages();
    write_head(out, rec)?;
    put_half(out, reads.len() as u16)?;
    write_reads(out, slots, pool, start, reads)?;
    put_half(out, delta.len() as u16)?;
    write_delta(out, slots, delta)
}
