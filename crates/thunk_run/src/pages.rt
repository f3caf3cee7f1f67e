//! The turns of a thunk that are made from decoded pages.

ghost use Rattle.std.specs.Prelude.{◌≡◌, ℕ, true, if◌then◌else◌, slice_set, ◌+◌, ◌-◌, ◌/◌, ◌%◌, ◌<◌, ◌≤◌, length, IfOk, IfSome, slice_index_or, Some, None};
ghost use Rattle.memory_spec.specs.Pages.{page_of};
ghost use Rattle.page_store.specs.Entering.{RunsFrom};
ghost use Rattle.thunk_run.specs.TurnsOutcome.{outcome_after, counted};
ghost use Rattle.thunk_run.specs.Seeing.{AreSeen};

use page_store::Mem;
use rv_code::{Code, CodePage};
use rv_isa::{Regs, Turns};
use rv_step::{PageEnd, run_page};
use std::alloc::AllocError;

/// How many turns there must be room for before a page is run from.
pub(super) const PAGE_TURNS: u32 = 1024;

/// What was seen of the view's page in a slot.
#[derive(Clone, Copy)]
pub(super) enum Seen {
    /// Nothing so far.
    Nothing,
    /// It has the bytes of the decoded page.
    Same,
    /// It has other bytes.
    Other,
}

/// Compares the view's page in a slot with a decoded page's bytes, and notes the result.
#[cold]
#[inline(never)]
fn look<M: Mem>(mem: &M, page: &CodePage, seen: &mut [Seen], slot: usize) -> bool
    requires mapped { slot < length (M.workspace mem.now).view }
    requires noted { slot < length seen.old }
    ensures same { result ≡ true → page_of (M.workspace mem.now).view slot ≡ page.now.bytes }
    ensures seen { seen.new ≡ slice_set seen.old slot (if result then Seen.Same else Seen.Other) }
{
    let same = mem.shows(slot, page.bytes());
    seen[slot] = if same { Seen::Same } else { Seen::Other };
    same
}

/// The decoded page of a slot, if the view has its bytes. The bytes are compared once.
#[inline(always)]
fn page_shown<'a, M: Mem>(
    mem: &M,
    code: &'a Code,
    seen: &mut [Seen],
    slot: usize,
) -> Option<&'a CodePage>
    requires mapped { slot < length (M.workspace mem.now).view }
    requires seen { AreSeen code.now (M.workspace mem.now).view seen.old }
    ensures shown { IfSome result (λ page. page_of (M.workspace mem.now).view slot
        ≡ page.now.bytes) }
    ensures seen { AreSeen code.now (M.workspace mem.now).view seen.new }
{
    let page = code.page(slot)?;
    if slot >= seen.len() {
        return None;
    }
    let shown = match seen[slot] {
        Seen::Same => true,
        Seen::Other => false,
        Seen::Nothing => look(mem, page, seen, slot),
    };
    if shown { Some(page) } else { None }
}

/// Enters the page of the pc, and returns its decoded page if it may be run from: it is the page of that number, and
/// the view has its bytes. Entering a page doesn't change the result of turns, since the next turn takes a byte of it
/// anyway.
#[inline(always)]
fn enter_page<'a, M: Mem>(
    regs: &Regs,
    mem: &mut M,
    code: &'a Code,
    seen: &mut [Seen],
) -> Option<&'a CodePage>
    requires { AreSeen code.now (M.workspace mem.old).view seen.old }
    ensures here { IfSome result (λ page. regs.now.pc / 4096 ≡ page.now.number) }
    ensures aligned { IfSome result (λ page. regs.now.pc % 4 ≡ 0) }
    ensures runs { IfSome result
        (λ page. RunsFrom (M.workspace mem.new) page.now.number page.now.bytes) }
    ensures seen { AreSeen code.now (M.workspace mem.new).view seen.new }
    ensures outcome { (n : ℕ) → 1 ≤ n
        → outcome_after n (M.workspace mem.new) regs.now
        ≡ outcome_after n (M.workspace mem.old) regs.now }
{
    let pc = regs.pc();
    if pc % 4 != 0 {
        return None;
    }
    let slot = mem.enter(pc)?;
    let page = page_shown(mem, code, seen, slot)?;
    if page.number() == pc / 4096 {
        Some(page)
    } else {
        None
    }
}

/// Makes turns from decoded pages, while there is room and the next page can be run from. Returns how many they were;
/// the counter rises by their number. They are the first turns with any fuel of at least `room`.
///
/// # Errors
///
/// An error if the host's memory ran out.
#[inline(always)]
pub(super) fn run_pages<M: Mem>(
    regs: &mut Regs,
    mem: &mut M,
    code: &Code,
    seen: &mut [Seen],
    room: u32,
    turns: &mut Turns,
) -> Result<u32, AllocError>
    requires { AreSeen code.now (M.workspace mem.old).view seen.old }
    ensures few { IfOk result (λ count. count ≤ room) }
    ensures cost { IfOk result (λ count. turns.new ≡ turns.old + count) }
    ensures never_lower { turns.old ≤ turns.new }
    ensures seen { IfOk result (λ count. AreSeen code.now (M.workspace mem.new).view seen.new) }
    ensures outcome { IfOk result (λ count. (fuel : ℕ) → room ≤ fuel
        → counted count (outcome_after (fuel - count) (M.workspace mem.new) regs.new)
        ≡ outcome_after fuel (M.workspace mem.old) regs.old) }
{
    let mut count = 0;
    while room - count >= PAGE_TURNS {
        let Some(page) = enter_page(regs, mem, code, seen) else {
            return Ok(count);
        };
        let ran = run_page(regs, mem, page, room - count, turns)?;
        count += ran.count;
        if ran.end == PageEnd::Other {
            return Ok(count);
        }
    }
    Ok(count)
}
