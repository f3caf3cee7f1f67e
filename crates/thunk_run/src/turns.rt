//! The turns of a thunk.

ghost use Rattle.std.specs.Prelude.{◌≡◌, ◌+◌, ◌≤◌, IfOk};
ghost use Rattle.thunk_run.specs.TurnsOutcome.{TurnsOutcome, outcome_after, with_put_taken};

use super::pages::{PAGE_TURNS, Seen, run_pages};
use super::put::take_range;
use super::watch::{LONG_TURNS, Watch};
use page_store::Mem;
use rv_isa::{Regs, Turns};
use rv_step::step;
use std::alloc::{AllocError, Global};
use thunk_record::{Frame, put_range};
use thunk_spec::{Outcome, ThunkEnd};

/// How turns ended, and how many they were.
#[derive(Clone, Copy)]
pub(super) struct Turned {
    /// How the last of them ended the thunk.
    pub end: ThunkEnd,
    /// How many there were, the last one included.
    pub count: u32,
}

/// How many turns may be made from pages before the check whether the thunk runs long: `LONG_TURNS` and the room that a
/// page needs, since no page is run from with less room.
const FIRST_TURNS: u32 = LONG_TURNS + PAGE_TURNS;

/// Makes turns up to the first that calls or traps, or as many as the fuel allows: from decoded pages if they can be
/// run from, else one at a time. The counter rises by the number of turns. The watch is called if there are many.
///
/// # Errors
///
/// An error if the host's memory ran out.
pub(super) fn make_turns<M: Mem, W: Watch>(
    alloc: Global,
    frame: &Frame,
    regs: &mut Regs,
    mem: &mut M,
    turns: &mut Turns,
    watch: &W,
) -> Result<Turned, AllocError>
    ensures cost { IfOk result (λ turned. turns.new ≡ turns.old + turned.count) }
    ensures never_lower { turns.old ≤ turns.new }
    ensures outcome { IfOk result (λ turned.
        record {
          regs = regs.new;
          end = turned.end;
          count = turned.count;
          workspace = M.workspace mem.new;
        }
        ≡ outcome_after frame.now.fuel (M.workspace mem.old) regs.old) }
{
    let fuel = frame.fuel();
    let code = frame.code();
    let mut slots = vec![in alloc; Seen::Nothing; frame.map().len()]?;
    let seen = slots.as_mut_slice();
    let mut until = fuel.min(FIRST_TURNS);
    let mut reported = false;
    let mut count = 0;
    while count < fuel {
        count += run_pages(regs, mem, code, seen, until - count, turns)?;
        if count == fuel {
            break;
        }
        if count >= LONG_TURNS && !reported {
            watch.runs_long();
            reported = true;
            until = fuel;
        }
        count += 1;
        match step(regs, mem, turns)? {
            Outcome::Next => {}
            Outcome::Call => {
                return Ok(Turned {
                    end: ThunkEnd::Call,
                    count,
                });
            }
            Outcome::Trap(cause) => {
                return Ok(Turned {
                    end: ThunkEnd::Trap(cause),
                    count,
                });
            }
        }
    }
    Ok(Turned {
        end: ThunkEnd::Fuel,
        count,
    })
}

/// Makes the turns of a thunk on a memory, and takes the bytes of the put that ends them.
///
/// # Errors
///
/// An error if the host's memory ran out.
pub(super) fn make_thunk<M: Mem, W: Watch>(
    alloc: Global,
    frame: &Frame,
    regs: &mut Regs,
    mem: &mut M,
    turns: &mut Turns,
    watch: &W,
) -> Result<Turned, AllocError>
    requires { (M.workspace mem.old).map ≡ frame.now.map }
    ensures cost { IfOk result (λ turned. turns.new ≡ turns.old + turned.count) }
    ensures never_lower { turns.old ≤ turns.new }
    ensures outcome { IfOk result (λ turned.
        record {
          regs = regs.new;
          end = turned.end;
          count = turned.count;
          workspace = M.workspace mem.new;
        }
        ≡ with_put_taken (outcome_after frame.now.fuel (M.workspace mem.old) regs.old)) }
{
    let turned = make_turns(alloc, frame, regs, mem, turns, watch)?;
    let range = put_range(frame.map(), turned.end, regs);
    take_range(mem, range)?;
    Ok(turned)
}
