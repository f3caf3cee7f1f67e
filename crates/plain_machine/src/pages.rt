//! The pages of addresses: their slots, what they permit, and the one that instructions are fetched from.

ghost use Rattle.std.specs.Prelude.{◌≡◌, ◌<◌, ◌%◌, List, true, false, length, IfSome, IfNone};
ghost use Rattle.memory_spec.specs.Pages.{Mapped, allows, execute_right, permission_at, slot_of};
ghost use Rattle.plain_machine.specs.Fetching.{IsLast};

use memory_spec::PAGE_SIZE;
use page_store::{PageMap, Perm};

/// The slot of an address, and what its page permits. None exactly if no page has it.
#[inline(always)]
#[tactic(auto, unfolding(memory_spec::specs::Pages::permission_at))]
pub(super) fn permitted(map: &PageMap, address: u32) -> Option<(usize, Perm)>
    ensures slot { IfSome result (λ p. (p.0 ≡ slot_of map.now address) × (p.0 < length map.now)) }
    ensures perm { IfSome result (λ p. p.1.0 ≡ permission_at map.now address) }
    ensures missing { IfNone result (permission_at map.now address ≡ 0) }
{
    match map.slot_of(address) {
        Some(slot) => Some((slot, map.perm(slot))),
        None => None,
    }
}

/// Where an address lies in its page.
#[inline(always)]
pub(super) fn offset_of(address: u32) -> usize
    ensures { result ≡ address % PAGE_SIZE }
{
    (address % PAGE_SIZE as u32) as usize
}

/// The page that an instruction was fetched from last: its number, which at first is that of no page, and its slot.
#[derive(Clone, Copy)]
pub(super) struct LastPage {
    number: u32,
    slot: usize,
}

impl LastPage {
    /// No page was fetched from.
    pub(super) fn none() -> LastPage
        ensures { (map : List Mapped) → IsLast map result }
    {
        LastPage {
            number: u32::MAX,
            slot: 0,
        }
    }
}

/// Looks up the page of an address in the map, and notes it if it may be executed.
#[cold]
#[inline(never)]
fn find_code(map: &PageMap, last: &mut LastPage, address: u32) -> Option<usize>
    requires { IsLast map.now last.old }
    ensures last { IsLast map.now last.new }
    ensures slot { IfSome result (λ slot. (slot ≡ slot_of map.now address)
        × (slot < length map.now)) }
    ensures executes { IfSome result (λ slot. allows execute_right (permission_at map.now address)
        ≡ true) }
    ensures missing { IfNone result (allows execute_right (permission_at map.now address) ≡ false) }
{
    let (slot, perm) = permitted(map, address)?;
    if !perm.executes() {
        return None;
    }
    *last = LastPage {
        number: address / PAGE_SIZE as u32,
        slot,
    };
    Some(slot)
}

/// The slot of an address whose page may be executed; it is then the page that was fetched from last. None exactly if
/// no such page has it.
#[inline(always)]
pub(super) fn code_slot(map: &PageMap, last: &mut LastPage, address: u32) -> Option<usize>
    requires { IsLast map.now last.old }
    ensures last { IsLast map.now last.new }
    ensures slot { IfSome result (λ slot. (slot ≡ slot_of map.now address)
        × (slot < length map.now)) }
    ensures executes { IfSome result (λ slot. allows execute_right (permission_at map.now address)
        ≡ true) }
    ensures missing { IfNone result (allows execute_right (permission_at map.now address) ≡ false) }
{
    if last.number == address / PAGE_SIZE as u32 {
        Some(last.slot)
    } else {
        find_code(map, last, address)
    }
}
