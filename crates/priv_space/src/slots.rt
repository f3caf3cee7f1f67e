//! The pages of a thread's memory, by slot.

ghost use Rattle.std.specs.Prelude.{◌≡◌, ℕ, ◌+◌, ◌*◌, ◌^◌, ◌<◌, ◌≤◌, ◌++◌, true, List, length, map, slice_index, slice_index_or, slice_set, replicate, Decides, IfOk, IfSome, IfNone, OnOk, OnErr, IsTrue, IsFalse, MatchResult};
ghost use Rattle.memory_spec.specs.Access.{byte_count, number_in};
ghost use Rattle.memory_spec.specs.Pages.{Mapped, Memory, page_of, allows, read_right, write_right, unmapped};
ghost use Rattle.memory_spec.specs.Workspace.{mask_of};
ghost use Rattle.priv_space.specs.Written.{with_number, with_marks};
ghost use Rattle.priv_space.specs.Slots.{on_view, untouched, slot_shared, slot_bytes, slot_marks, slot_taken, IsOver};
ghost use Rattle.priv_space.specs.Changes.{IsWithin, any, HasNumber, TakesNumber, EntersPage, StoresNumber, StoresAgain, OnSlot};
ghost use Rattle.priv_space.specs.Parts.{read_part, delta_part};
ghost use Rattle.priv_space.specs.Held.{HoldsSlot, PlacesSlot, FindsNext, FindsLeast};

use super::slot::{Access, Slot};
use memory_spec::PAGE_SIZE;
use page_store::{PageDelta, PageTable, ReadPage};
use std::alloc::{AllocError, Global};
use std::marker::Model;
use std::mem;

/// How many slots are checked at once in the search for a touched one.
const BLOCK: usize = 32;

/// How many touched slots there is room for at first.
const ROOM: usize = 16;

/// How many of the first places have their slot listed.
const LISTED: usize = 16;

/// The slots of a thread's memory. A thread touches few pages, and only what it touched is kept. A clause sees the list
/// of all slots.
#[derive(Drop)]
pub(super) struct Slots {
    /// For each slot its place in `held`, or 0 if it wasn't touched.
    places: Vec<u16>,
    /// The touched slots. At place 0 is an untouched one, which represents all others.
    held: Vec<Slot>,
    /// The slot of each of the first places except place 0, so that not all slots are searched if few were touched.
    listed: [usize; LISTED],
}

impl Model for Slots {
    ghost use Rattle.std.specs.Prelude.{List};
    ghost use Rattle.priv_space.specs.declared.slot.Slot.{Slot};

    ghost Value = { List Slot };

    ghost use Rattle.priv_space.specs.Tables.{slots_of, IsTable};

    ghost view = { slots_of };

    ghost invariant = { IsTable };
}

/// Whether none of the slots of a block was touched.
#[inline(always)]
fn is_clear(places: &[u16], start: usize) -> bool
    requires { start + BLOCK ≤ length places.now }
    ensures { IsTrue result → (k : ℕ) → start ≤ k → k < start + BLOCK
        → slice_index places.now k ≡ 0 }
{
    let mut all = 0;
    for k in 0..BLOCK {
        all |= places[start + k];
    }
    all == 0
}

/// The next slot that was touched, from this one on.
fn next_place(places: &[u16], from: usize) -> Option<usize>
    ensures { FindsNext (λ k. slice_index places.now k ≡ 0) from (length places.now) result }
{
    let mut slot = from;
    while slot < places.len() && places.len() - slot >= BLOCK && is_clear(places, slot) {
        slot += BLOCK;
    }
    while slot < places.len() {
        if places[slot] != 0 {
            return Some(slot);
        }
        slot += 1;
    }
    None
}

/// Whether a slot comes before the one that was found, if any was.
#[inline(always)]
fn is_before(slot: usize, found: Option<usize>) -> bool
    ensures { Decides result (IfSome found (λ other. slot < other)) }
{
    match found {
        Some(other) => slot < other,
        None => true,
    }
}

/// The least slot, from this one on, among the slots of the places from 1 up to a count.
fn least_listed(listed: &[usize; LISTED], count: usize, from: usize) -> Option<usize>
    requires { (0 < count) × (count ≤ LISTED) }
    ensures { FindsLeast listed.now count from result }
{
    let mut least = None;
    for place in 1..count {
        let slot = listed[place];
        if slot >= from && is_before(slot, least) {
            least = Some(slot);
        }
    }
    least
}

/// The place of a slot.
#[inline(always)]
fn place_of(places: &[u16], slot: usize) -> usize
    requires { slot < length places.now }
    ensures { result ≡ slice_index places.now slot }
{
    usize::from(places[slot])
}

/// Lists the slot of a place, if that is one of the first.
#[inline(always)]
fn list(listed: &mut [usize; LISTED], place: usize, slot: usize)
    ensures { listed.new ≡ slice_set listed.old place slot }
{
    if place < LISTED {
        listed[place] = slot;
    }
}

/// Makes a place for a slot that wasn't touched.
///
/// # Errors
///
/// An error if the host's memory ran out, or 65,535 slots were touched.
#[cold]
#[inline(never)]
fn make_place(
    places: &mut [u16],
    listed: &mut [usize; LISTED],
    held: &mut Vec<Slot>,
    slot: usize,
) -> Result<usize, AllocError>
    requires within { HoldsSlot slot listed.old places.old held.old.items }
    requires free { slice_index places.old slot ≡ 0 }
    ensures { PlacesSlot slot listed.new places.old places.new held.old.items held.new.items result }
{
    let place = held.len();
    if place > usize::from(u16::MAX) {
        return Err(AllocError);
    }
    held.push(Slot::new())?;
    places[slot] = place as u16;
    list(listed, place, slot);
    Ok(place)
}

/// The place of a slot that is to be touched. A slot without a place gets one.
///
/// # Errors
///
/// An error if the host's memory ran out, or 65,535 slots were touched.
#[inline(always)]
fn place_for(
    places: &mut [u16],
    listed: &mut [usize; LISTED],
    held: &mut Vec<Slot>,
    slot: usize,
) -> Result<usize, AllocError>
    requires { HoldsSlot slot listed.old places.old held.old.items }
    ensures { PlacesSlot slot listed.new places.old places.new held.old.items held.new.items result }
{
    let place = place_of(places, slot);
    if place != 0 {
        return Ok(place);
    }
    make_place(places, listed, held, slot)
}

impl Slots {
    /// So many slots, all untouched.
    ///
    /// # Errors
    ///
    /// An error if the host's memory ran out.
    pub(super) fn new(alloc: Global, count: usize) -> Result<Slots, AllocError>
        ensures { IfOk result (λ slots. slots ≡ replicate count untouched) }
    {
        let places = vec![in alloc; 0; count]?;
        let mut held = Vec::with_capacity(alloc, ROOM)?;
        held.push(Slot::new())?;
        Ok(Slots {
            places,
            held,
            listed: [0; LISTED],
        })
    }

    /// A slot.
    #[inline(always)]
    fn at(&self, slot: usize) -> &Slot
        requires { slot < length self.now }
        ensures { result.now ≡ slice_index_or self.now slot untouched }
    {
        &self.held[place_of(&self.places, slot)]
    }

    /// The next slot that was touched, from this one on.
    pub(super) fn next_touched(&self, from: usize) -> Option<usize>
        ensures { FindsNext (λ k. slice_index_or self.now k untouched ≡ untouched) from
            (length self.now) result }
    {
        let count = self.held.len();
        if count <= LISTED {
            least_listed(&self.listed, count, from)
        } else {
            next_place(&self.places, from)
        }
    }

    /// Adds the view's page in a slot to the read pages, if a byte was taken.
    #[inline(always)]
    pub(super) fn add_read(
        &self,
        view: &PageTable,
        slot: usize,
        pages: &mut Vec<ReadPage>,
    ) -> Result<(), AllocError>
        requires within { slot < length self.now }
        requires mapped { slot < length view.now }
        ensures { OnOk result (pages.new.items ≡ pages.old.items
            ++ read_part slot (slot_taken (slice_index_or self.now slot untouched))
            (page_of view.now slot)) }
    {
        self.at(slot).add_read(view, slot, pages)
    }

    /// Moves the own copy in a slot to the deltas, if a byte was stored. The slot is then untouched.
    #[inline(always)]
    pub(super) fn give_delta(
        &mut self,
        alloc: Global,
        slot: usize,
        deltas: &mut Vec<PageDelta>,
    ) -> Result<(), AllocError>
        requires { slot < length self.old }
        ensures given { (page : List ℕ) → OnOk result (deltas.new.items
            ≡ deltas.old.items
            ++ delta_part slot (slot_marks (slice_index_or self.old slot untouched))
            (slot_bytes page (slice_index_or self.old slot untouched))) }
        ensures emptied { self.new ≡ slice_set self.old slot untouched }
    {
        let place = place_of(&self.places, slot);
        let given = mem::replace(&mut self.held[place], Slot::new());
        given.give_delta(alloc, slot, deltas)
    }
}

/// The number of an access, if one was loaded from its page before.
#[inline(always)]
pub(super) fn held_number(slots: &Slots, access: Access) -> Option<u32>
    requires { IsWithin access (length slots.now) }
    ensures { IfSome result
        (λ number. HasNumber access number (slice_index_or slots.now access.slot untouched)) }
{
    slots.at(access.slot).held_number(access)
}

/// Takes a number from a page that may be read.
///
/// # Errors
///
/// An error if the host's memory ran out, 65,535 slots were touched, or the view's page has as many holders as can be
/// counted; nothing changes then.
pub(super) fn take(view: &PageTable, slots: &mut Slots, access: Access) -> Result<u32, AllocError>
    requires within { IsWithin access (length slots.old) }
    requires over { IsOver view.now slots.old }
    ensures { MatchResult result
        (λ number. OnSlot access.slot
        (TakesNumber (allows read_right) (page_of view.now access.slot) access number)
        slots.old slots.new)
        (λ error. slots.new ≡ slots.old) }
{
    let place = place_for(
        &mut slots.places,
        &mut slots.listed,
        &mut slots.held,
        access.slot,
    )?;
    slots.held[place].take(view, access)
}

/// Takes the word of a fetch from a page.
///
/// # Errors
///
/// An error if the host's memory ran out, or 65,535 slots were touched; nothing changes then.
pub(super) fn fetch(view: &PageTable, slots: &mut Slots, access: Access) -> Result<u32, AllocError>
    requires within { IsWithin access (length slots.old) }
    requires over { IsOver view.now slots.old }
    ensures { MatchResult result
        (λ number. OnSlot access.slot
        (TakesNumber any (page_of view.now access.slot) access number) slots.old slots.new)
        (λ error. slots.new ≡ slots.old) }
{
    let place = place_for(
        &mut slots.places,
        &mut slots.listed,
        &mut slots.held,
        access.slot,
    )?;
    Ok(slots.held[place].fetch(view, access))
}

/// Stores the lowest bytes of a value into the thread's copy of a page and returns true; without a copy, changes
/// nothing and returns false.
#[inline(always)]
pub(super) fn store_again(slots: &mut Slots, access: Access, value: u32) -> bool
    requires { IsWithin access (length slots.old) }
    ensures stored { IsTrue result
        → OnSlot access.slot (StoresAgain access value) slots.old slots.new }
    ensures stays { IsFalse result → slots.new ≡ slots.old }
{
    let place = place_of(&slots.places, access.slot);
    slots.held[place].store_again(access, value)
}

/// Stores the lowest bytes of a value into a page that may be stored to.
///
/// # Errors
///
/// An error if the host's memory ran out, or 65,535 slots were touched; nothing changes then.
pub(super) fn store(
    alloc: Global,
    view: &PageTable,
    slots: &mut Slots,
    access: Access,
    value: u32,
) -> Result<(), AllocError>
    requires within { IsWithin access (length slots.old) }
    requires over { IsOver view.now slots.old }
    ensures { MatchResult result
        (λ done. OnSlot access.slot
        (StoresNumber (page_of view.now access.slot) access value) slots.old slots.new)
        (λ error. slots.new ≡ slots.old) }
{
    let place = place_for(
        &mut slots.places,
        &mut slots.listed,
        &mut slots.held,
        access.slot,
    )?;
    slots.held[place].store(alloc, view, access, value)
}

/// Takes a byte of a page, to run its instructions, and returns true; changes nothing and returns false if the page has
/// the thread's own stores or the host's memory ran out.
#[inline(always)]
pub(super) fn enter(slots: &mut Slots, slot: usize) -> bool
    requires { slot < length slots.old }
    ensures entered { IsTrue result → OnSlot slot EntersPage slots.old slots.new }
    ensures stays { IsFalse result → slots.new ≡ slots.old }
{
    let Ok(place) = place_for(&mut slots.places, &mut slots.listed, &mut slots.held, slot) else {
        return false;
    };
    slots.held[place].enter()
}
