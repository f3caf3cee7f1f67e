//! One thunk, from a view to its result.

ghost use Rattle.std.specs.Prelude.{◌≡◌, ◌+◌, ◌≤◌, IfOk};
ghost use Rattle.std.specs.Arc.{arc_value};
ghost use Rattle.memory_spec.specs.Pages.{IsMemory};
ghost use Rattle.plain_machine.specs.Turning.{outcome_after, IsDone};

use super::memory::Memory;
use super::put::put_bytes;
use super::stores::Stored;
use super::work::Work;
use page_store::PageMap;
use rv_isa::{Regs, Turns};
use rv_step::step;
use std::alloc::{AllocError, Global};
use std::sync::Arc;
use thunk_spec::{Outcome, ThunkEnd};

/// How turns ended, and how many they were.
#[derive(Clone, Copy)]
struct Ended {
    end: ThunkEnd,
    count: u32,
}

/// Makes turns, one at a time, up to the first that calls or traps, or as many as the fuel allows. The counter rises by
/// the number of turns.
///
/// It isn't inlined, since its caller's values would take registers from the loop.
///
/// # Errors
///
/// An error if the host's memory ran out.
#[inline(never)]
fn make_turns(
    fuel: u32,
    regs: &mut Regs,
    work: &mut Work,
    turns: &mut Turns,
) -> Result<Ended, AllocError>
    ensures cost { IfOk result (λ e. turns.new ≡ turns.old + e.count) }
    ensures never_lower { turns.old ≤ turns.new }
    ensures most { IfOk result (λ e. e.count ≤ fuel) }
    ensures map { IfOk result (λ e. work.new.map ≡ work.old.map) }
    ensures outcome { IfOk result (λ e. record {
      regs = regs.new;
      end = e.end;
      count = e.count;
      memory = work.new.memory;
      stored = work.new.stored;
    } ≡ outcome_after work.old.map fuel work.old.memory work.old.stored regs.old) }
{
    let mut count = 0;
    while count < fuel {
        count += 1;
        match step(regs, work, turns)? {
            Outcome::Next => {}
            Outcome::Call => {
                return Ok(Ended {
                    end: ThunkEnd::Call,
                    count,
                });
            }
            Outcome::Trap(cause) => {
                return Ok(Ended {
                    end: ThunkEnd::Trap(cause),
                    count,
                });
            }
        }
    }
    Ok(Ended {
        end: ThunkEnd::Fuel,
        count,
    })
}

/// The result of a thunk: its last registers, how it ended, how many turns it made, its stores in order, and the bytes
/// of the put that ends it.
#[derive(Drop)]
pub(super) struct ThunkResult {
    pub(super) regs: Regs,
    pub(super) end: ThunkEnd,
    pub(super) count: u32,
    pub(super) stores: Vec<Stored>,
    pub(super) put: Vec<u8>,
}

/// Runs the thunk that starts with these registers on a view, which doesn't change. The counter rises by the number of
/// turns.
///
/// # Errors
///
/// An error if the host's memory ran out.
pub(super) fn run(
    alloc: Global,
    map: &Arc<PageMap>,
    fuel: u32,
    view: &Memory,
    start: Regs,
    turns: &mut Turns,
) -> Result<ThunkResult, AllocError>
    requires { IsMemory (arc_value map.now) view.now }
    ensures done { IfOk result
        (λ d. IsDone (record { map = arc_value map.now; fuel = fuel }) view.now start d) }
    ensures most { IfOk result (λ d. d.count ≤ fuel) }
    ensures cost { IfOk result (λ d. turns.new ≡ turns.old + d.count) }
    ensures never_lower { turns.old ≤ turns.new }
{
    let mut work = Work::new(alloc, map, view)?;
    let mut regs = start;
    let ended = make_turns(fuel, &mut regs, &mut work, turns)?;
    let put = put_bytes(alloc, map, work.memory(), ended.end, &regs)?;
    Ok(ThunkResult {
        regs,
        end: ended.end,
        count: ended.count,
        stores: work.into_stores(),
        put,
    })
}
