//! The records of a memo.

ghost use Rattle.std.specs.Prelude.{◌≡◌, ◌<◌, ◌≤◌, ◌==◌, ◌++◌, ◌∷◌, [], ℕ, List, map, IfOk, IfErr};
ghost use Rattle.std.specs.List.{count_by};
ghost use Rattle.std.specs.Arc.{arc_value};
ghost use Rattle.memory_spec.specs.Pages.{AreAddressable, Mapped};
ghost use Rattle.history_spec.specs.History.{threads_of_records};
ghost use Rattle.memo_spec.specs.Reader.{chain};
ghost use Rattle.memo_spec.specs.Reading.{RecordState, end_of, record_at};
ghost use Rattle.memo_file.specs.Gives.{Fails, Gives};
ghost use Rattle.memo_file.specs.Growth.{state_of};
ghost use Rattle.memo_file.specs.Heads.{behind_head};

use crate::error::ReadError;
use crate::fields::{byte_below, half, registers, word_within};
use crate::growth::{Growing, Sources};
use crate::pages::read_pages;
use crate::stored::stored_pages;
use guest_call::THREADS;
use isa_spec::Cause;
use ith_text::Cursor;
use machine_spec::MOST_STEPS;
use page_store::{Delta, Reads};
use rv_isa::Regs;
use std::alloc::Global;
use thunk_record::{Kept, Record};
use thunk_spec::ThunkEnd;

/// The end that a number encodes.
fn end(number: u8) -> ThunkEnd
    requires { number < 10 }
    ensures { result ≡ end_of number }
{
    match number {
        0 => ThunkEnd::Trap(Cause::InstructionMisaligned),
        1 => ThunkEnd::Trap(Cause::InstructionAccess),
        2 => ThunkEnd::Trap(Cause::IllegalInstruction),
        3 => ThunkEnd::Trap(Cause::Breakpoint),
        4 => ThunkEnd::Trap(Cause::LoadMisaligned),
        5 => ThunkEnd::Trap(Cause::LoadAccess),
        6 => ThunkEnd::Trap(Cause::StoreMisaligned),
        7 => ThunkEnd::Trap(Cause::StoreAccess),
        8 => ThunkEnd::Call,
        _ => ThunkEnd::Fuel,
    }
}

/// What a record says before its pages.
#[derive(Drop)]
struct Head {
    thread: u8,
    end: ThunkEnd,
    count: u32,
    start: Regs,
    finish: Regs,
}

/// All of a record before the counts of its pages. Its thunk made at most `fuel` turns.
fn read_head(cursor: &mut Cursor, fuel: u32) -> Result<Head, ReadError>
    ensures thread { IfOk result (λ head. head.thread < THREADS) }
    ensures behind { (pages : List Mapped) (pool : List (List ℕ)) (s : RecordState)
        → IfOk result (λ head. record_at pages fuel pool s cursor.old
        ≡ behind_head pages pool s head cursor.new) }
    ensures refused { (pages : List Mapped) (pool : List (List ℕ)) (s : RecordState)
        → IfErr result (λ e. Fails e (record_at pages fuel pool s cursor.old)) }
{
    let thread = byte_below(cursor, THREADS as u8)?;
    let number = byte_below(cursor, 10)?;
    let count = word_within(cursor, 1, fuel)?;
    let start = registers(cursor)?;
    let finish = registers(cursor)?;
    Ok(Head {
        thread,
        end: end(number),
        count,
        start,
        finish,
    })
}

/// The record after others, and how many pages of the pool are used after it.
fn record(
    alloc: Global,
    cursor: &mut Cursor,
    sources: &Sources,
    before: &Growing,
) -> Result<(Record, usize), ReadError>
    requires small { AreAddressable sources.now.slots.now }
    ensures thread { IfOk result (λ x. x.0.thread < THREADS) }
    ensures number { IfOk result (λ x. x.0.number
        ≡ count_by (λ t. t == x.0.thread) (threads_of_records before.now.records)) }
    ensures given { Gives
        (λ x. (
          (
            x.0,
            record {
              earlier = threads_of_records before.now.records ++ x.0.thread ∷ [];
              used = x.1;
            },
          ),
          cursor.new,
        ))
        result
        (record_at sources.now.slots.now sources.now.fuel (map arc_value sources.now.pool.now)
        (state_of before.now) cursor.old) }
{
    let head = read_head(cursor, sources.fuel)?;
    let read_count = half(cursor)?;
    let (reads, used) = read_pages(alloc, cursor, sources, read_count, before.used())?;
    let delta_count = half(cursor)?;
    let delta = stored_pages(alloc, cursor, sources.slots, delta_count)?;
    let kept = Kept {
        reads: Reads::new(reads),
        delta: Delta::new(delta),
        finish: head.finish,
        end: head.end,
        count: head.count,
    };
    let number = before.next_number(head.thread);
    let made = Record::new(head.thread, number, head.start, kept);
    Ok((made, used))
}

/// The next `entries` records, in order.
pub fn read_records(
    alloc: Global,
    cursor: &mut Cursor,
    sources: &Sources,
    entries: u32,
) -> Result<Growing, ReadError>
    requires small { AreAddressable sources.now.slots.now }
    requires few { entries ≤ MOST_STEPS }
    ensures { Gives (λ g. ((g.records, state_of g), cursor.new)) result
        (chain
        (record_at sources.now.slots.now sources.now.fuel
        (map arc_value sources.now.pool.now)) entries
        (record { earlier = []; used = 0 }) cursor.old) }
{
    let mut growing = Growing::new(alloc);
    for _ in 0..entries {
        let (made, used) = record(alloc, cursor, sources, &growing)?;
        growing.push(alloc, made, used)?;
    }
    Ok(growing)
}
