//! The reasons of a round's executed entries.

ghost use Rattle.std.specs.Prelude.{◌≡◌, ◌<◌, ◌≤◌, ◌+◌, ◌==◌, ◌&&◌, ◌||◌, ◌++◌, not, true, false, ℕ, All, length, map, slice_get, slice_index, slice_index_or, option_map, is_some, if◌then◌else◌, IfNone, IfOk, IfSome, OnOk, Some};
ghost use Rattle.std.specs.Arc.{arc_value};
ghost use Rattle.std.specs.Option.{option_to_list};
ghost use Rattle.isa_spec.specs.Registers.{same_registers};
ghost use Rattle.thunk_spec.specs.Reads.{ReadPage as Read, has};
ghost use Rattle.machine_spec.specs.Machine.{hart_of, is_ready};
ghost use Rattle.machine_spec.specs.Setup.{first, map_of};
ghost use Rattle.machine_spec.specs.Whole.{IsWhole};
ghost use Rattle.history_spec.specs.History.{IsSound, found};
ghost use Rattle.round_spec.specs.Marks.{record_for, fits_next};
ghost use Rattle.memo_reports.specs.Listing.{addresses_of};
ghost use Rattle.round_report.specs.Differences.{first_other_page, page_cause, cause_of};
ghost use Rattle.round_report.specs.Storing.{last_store};
ghost use Rattle.round_report.specs.Reasons.{made_before, scratch_before, reason_of, reasons_by, reasons_of, is_executed, executed_places, IsBasedOnOldRun};
ghost use Rattle.ith_commands.specs.Walking.{IsBefore};
ghost use Rattle.ith_commands.specs.Searching.{AreOf};

use super::differing::{first_other_byte, first_other_page, register_cause};
use super::storing::{Search, last_store, no_searches};
use guest_call::THREADS;
use memo_reports::listing::addresses_of;
use page_store::{PageTable, ReadPage};
use propagate::Round;
use release_core::Core;
use round_report::why::{Cause, Reason};
use std::alloc::{AllocError, Global};
use std::array;
use std::sync::Arc;
use thunk_record::Record;

/// The addresses of a round's pages, each at its slot, and the remembered searches for stored bytes.
#[derive(Drop)]
struct Pages {
    addresses: Vec<u32>,
    remembered: Vec<Search>,
}

/// The first byte that differs in the first read page that differs, if one does.
fn page_cause(
    round: &Round,
    pages: &mut Pages,
    since: usize,
    view: &PageTable,
    reads: &[ReadPage],
) -> Option<Cause>
    requires inside { since ≤ length round.now.schedule }
    requires pages { AreOf round.now pages.old }
    requires whole { length view.now ≡ length (addresses_of round.now.setup) }
    ensures cause { result
        ≡ page_cause (addresses_of round.now.setup) (last_store round.now.records since) view.now
        (first_other_page view.now reads.now) }
    ensures pages { AreOf round.now pages.new }
    ensures none { IfNone result (All (λ (p : Read). p.slot < length view.now) reads.now
        → has view.now reads.now ≡ true) }
{
    let Some(read) = first_other_page(view, reads) else {
        return None;
    };
    if read.slot() >= view.len() {
        return None;
    }
    let now = view.page(read.slot());
    let was = read.page();
    let Some(place) = first_other_byte(now.bytes(), was.bytes()) else {
        return None;
    };
    let remembered = pages.remembered.as_mut_slice();
    let storer = last_store(round, remembered, since, read.slot(), place);
    Some(Cause::Byte {
        page: pages.addresses[read.slot()],
        place,
        now: now.get(place),
        was: was.get(place),
        storer,
    })
}

/// The record of a thread at a number of steps in the history that a round is based on, if there is one.
fn record_of(round: &Round, thread: u8, number: u32) -> Option<&Arc<Record>>
    ensures found { option_map (λ r. arc_value r.now) result ≡ found round.now.past thread number }
    ensures mapped { IfSome result (λ r. IsBasedOnOldRun round.now.past round.now.setup
        → All (λ (p : Read). p.slot < length (map_of round.now.setup))
        (arc_value r.now).kept.reads) }
{
    round.old_record(thread, number)
}

/// Why a record can't be reused for the next step of a thread, if it can't.
fn record_cause(
    round: &Round,
    core: &Core,
    pages: &mut Pages,
    since: usize,
    thread: u8,
    rec: &Record,
) -> Option<Cause>
    requires ready { is_ready (hart_of core.now thread).status ≡ true }
    requires inside { since ≤ length round.now.schedule }
    requires pages { AreOf round.now pages.old }
    requires whole { length (hart_of core.now thread).view ≡ length (addresses_of round.now.setup) }
    ensures cause { result
        ≡ cause_of (addresses_of round.now.setup) (last_store round.now.records since)
        (hart_of core.now thread) (Some rec.now) }
    ensures pages { AreOf round.now pages.new }
    ensures none { IfNone result
        (All (λ (p : Read). p.slot < length (addresses_of round.now.setup)) rec.now.kept.reads
        → (same_registers rec.now.start (hart_of core.now thread).regs ≡ true)
        × (has (hart_of core.now thread).view rec.now.kept.reads ≡ true)) }
{
    match register_cause(core.regs(thread), rec.start()) {
        Some(cause) => Some(cause),
        None => page_cause(round, pages, since, core.view(thread), rec.reads().pages()),
    }
}

/// Why no record can be reused for the next step of a thread, if none can.
fn cause_at(
    round: &Round,
    core: &Core,
    pages: &mut Pages,
    since: usize,
    thread: u8,
) -> Option<Cause>
    requires ready { is_ready (hart_of core.now thread).status ≡ true }
    requires fuel { core.now.frame.fuel ≡ round.now.setup.fuel }
    requires inside { since ≤ length round.now.schedule }
    requires pages { AreOf round.now pages.old }
    requires whole { length (hart_of core.now thread).view ≡ length (addresses_of round.now.setup) }
    ensures cause { result
        ≡ cause_of (addresses_of round.now.setup) (last_store round.now.records since)
        (hart_of core.now thread) (record_for round.now.past core.now thread) }
    ensures pages { AreOf round.now pages.new }
    ensures none { IfNone result (IsBasedOnOldRun round.now.past round.now.setup
        → fits_next round.now.past core.now thread ≡ true) }
{
    match record_of(round, thread, core.number(thread)) {
        Some(rec) => record_cause(round, core, pages, since, thread, rec),
        None => Some(Cause::NoRecord),
    }
}

/// The reason of an entry, if it was executed; the machine is that before it.
fn reason_at(
    round: &Round,
    core: &Core,
    pages: &mut Pages,
    since: &[usize; THREADS],
    step: usize,
) -> Option<Reason>
    requires inside { step < length round.now.schedule }
    requires before { IsBefore round.now core.now since.now step }
    requires whole { IsWhole core.now }
    requires pages { AreOf round.now pages.old }
    ensures pages { AreOf round.now pages.new }
    ensures reason { result
        ≡ reason_of (made_before round.now) round.now step (slice_get round.now.schedule step) }
    ensures each { IsBasedOnOldRun round.now.past round.now.setup
        → is_some result ≡ is_executed (slice_get round.now.schedule step) }
{
    let entry = round.schedule()[step];
    if entry.reused {
        return None;
    }
    let thread = entry.thread;
    let Some(cause) = cause_at(round, core, pages, since[usize::from(thread)], thread) else {
        return None;
    };
    Some(Reason {
        step,
        thread,
        number: core.number(thread),
        cause,
    })
}

/// Which threads are ready.
fn ready_threads(core: &Core) -> [bool; THREADS]
    ensures { (t : ℕ) → t < THREADS
        → slice_index_or result t false ≡ is_ready (hart_of core.now t).status }
{
    array::from_fn(|t| core.ready(t as u8))
}

/// Notes which threads got a view by a step of a thread, with how many entries there are now.
fn note_views(
    since: &mut [usize; THREADS],
    before: &[bool; THREADS],
    core: &Core,
    thread: u8,
    count: usize,
)
    ensures { (t : ℕ) → t < THREADS → slice_index since.new t
        ≡ (if is_ready (hart_of core.now t).status
        && ((thread == t) || not (slice_index_or before.now t false))
        then count else slice_index since.old t) }
{
    for t in 0..THREADS {
        if core.ready(t as u8) && (usize::from(thread) == t || !before[t]) {
            since[t] = count;
        }
    }
}

/// Applies an entry, and notes which threads got a view by it.
fn walk(
    round: &Round,
    core: &mut Core,
    since: &mut [usize; THREADS],
    step: usize,
) -> Result<(), AllocError>
    requires inside { step < length round.now.schedule }
    requires before { IsBefore round.now core.old since.old step }
    ensures before { OnOk result (IsBefore round.now core.new since.new (step + 1)) }
    ensures whole { OnOk result (IsWhole core.new) }
{
    let before = ready_threads(core);
    let thread = round.schedule()[step].thread;
    core.apply(round.entry(step))?;
    note_views(since, &before, core, thread, step + 1);
    Ok(())
}

/// Appends a reason, if there is one.
fn add_reason(reasons: &mut Vec<Reason>, reason: Option<Reason>) -> Result<(), AllocError>
    ensures { OnOk result (reasons.new.items ≡ reasons.old.items ++ option_to_list reason) }
{
    if let Some(reason) = reason {
        reasons.push(reason)?;
    }
    Ok(())
}

/// The reasons of a round's executed entries, from its first machine on.
fn reasons_from(
    alloc: Global,
    round: &Round,
    core: &mut Core,
    pages: &mut Pages,
) -> Result<Vec<Reason>, AllocError>
    requires first { core.old ≡ first round.now.setup }
    requires whole { IsWhole core.old }
    requires pages { AreOf round.now pages.old }
    ensures reasons { IfOk result (λ rs. rs.items ≡ reasons_of round.now) }
    ensures each { IfOk result (λ rs. IsBasedOnOldRun round.now.past round.now.setup
        → map (λ (r : Reason). r.step) rs.items ≡ executed_places round.now.schedule) }
    ensures scratch { IfOk result (λ rs. IsSound round.now.past round.now.setup
        → rs.items ≡ reasons_by (scratch_before round.now) round.now) }
{
    let mut since = [0; THREADS];
    let mut reasons = Vec::new(alloc);
    for step in 0..round.schedule().len() {
        let reason = reason_at(round, core, pages, &since, step);
        add_reason(&mut reasons, reason)?;
        walk(round, core, &mut since, step)?;
    }
    Ok(reasons)
}

/// Why the executed entries of a round were executed, in order. If the round is based on a coherent history of its
/// program and fuel, each executed entry has a reason; and no other has one.
///
/// # Errors
///
/// An error if the host's memory ran out.
pub fn reasons(alloc: Global, round: &Round) -> Result<Vec<Reason>, AllocError>
    ensures reasons { IfOk result (λ rs. rs.items ≡ reasons_of round.now) }
    ensures each { IfOk result (λ rs. IsBasedOnOldRun round.now.past round.now.setup
        → map (λ (r : Reason). r.step) rs.items ≡ executed_places round.now.schedule) }
    ensures scratch { IfOk result (λ rs. IsSound round.now.past round.now.setup
        → rs.items ≡ reasons_by (scratch_before round.now) round.now) }
{
    let mut pages = Pages {
        addresses: addresses_of(alloc, round.setup())?,
        remembered: no_searches(alloc)?,
    };
    let mut core = Core::new(alloc, round.setup())?;
    reasons_from(alloc, round, &mut core, &mut pages)
}
