//! One page of a thread's memory.

ghost use Rattle.std.specs.Prelude.{◌≡◌, ℕ, ◌+◌, ◌*◌, ◌/◌, ◌%◌, ◌^◌, ◌<◌, ◌≤◌, ◌++◌, List, true, length, IfOk, IfSome, IfNone, OnOk, OnErr, IsTrue, IsFalse, MatchResult};
ghost use Rattle.memory_spec.specs.Access.{byte_count, number_in};
ghost use Rattle.memory_spec.specs.Pages.{page_of, allows, read_right, write_right};
ghost use Rattle.memory_spec.specs.Workspace.{no_marks};
ghost use Rattle.priv_space.specs.Written.{byte_of, with_number, with_marks};
ghost use Rattle.priv_space.specs.Parts.{read_part, delta_part};
ghost use Rattle.priv_space.specs.Slots.{untouched, SharesPage, slot_bytes, slot_marks, slot_taken};
ghost use Rattle.priv_space.specs.Changes.{IsWithin, any, HasNumber, TakesByte, TakesNumber, EntersPage, StoresNumber, StoresAgain};

use memory_spec::{PAGE_SIZE, Size};
use page_store::{Mask, Page, PageDelta, PageTable, ReadPage, StoredPage};
use std::alloc::{AllocError, Global};
use std::mem;
use std::sync::Arc;

/// What the thread holds of a page, and whether it took a byte of it.
///
/// An untouched slot has no share, so that a view of many pages costs no count of holders for those that a thread
/// doesn't touch. Loads from a `Shared` or an `Own` slot, and stores to an own copy, don't check the page's rights:
/// they were checked when the slot came to this state.
#[derive(Drop)]
pub(super) enum Slot {
    /// Nothing: its page is the view's. Only instructions were taken from it, if any byte was.
    View {
        /// Whether a byte was taken.
        taken: bool,
    },
    /// A share of the view's page, from which a byte was loaded.
    Shared(Arc<Page>),
    /// The thread's own copy of a page from which a byte was loaded.
    Own(Box<StoredPage>),
    /// The thread's own copy of a page from which no byte was loaded so far, and which may not be readable.
    Hidden {
        /// Whether a byte was taken.
        taken: bool,
        /// The copy.
        own: Box<StoredPage>,
    },
}

/// An aligned access: the slot of its page, where in the page it begins, and how many bytes it moves.
#[derive(Clone, Copy)]
pub(super) struct Access {
    pub(super) slot: usize,
    pub(super) offset: usize,
    pub(super) size: Size,
}

/// One byte of a value, counted from the least.
#[inline(always)]
fn byte_at(value: u32, k: u32) -> u8
    requires { k < 4 }
    ensures { result ≡ byte_of value k }
{
    ((value >> (8 * k)) & 0xff) as u8
}

/// The word in a page from an offset on, least byte first.
///
/// Inlining isn't forced, so that this function is simplified by itself first, and its four reads become one.
#[inline]
#[tactic(auto, unfolding(memory_spec::specs::Access::number_in))]
fn word_at(page: &Page, offset: usize) -> u32
    requires { offset + 4 ≤ PAGE_SIZE }
    ensures { result ≡ number_in page.now offset Size.Four }
{
    let bytes = page.bytes();
    u32::from(bytes[offset])
        + (u32::from(bytes[offset + 1]) << 8)
        + (u32::from(bytes[offset + 2]) << 16)
        + (u32::from(bytes[offset + 3]) << 24)
}

/// The number in a page from an offset on, least byte first.
#[inline(always)]
#[tactic(auto, unfolding(memory_spec::specs::Access::number_in))]
fn number_at(page: &Page, offset: usize, size: Size) -> u32
    requires { offset + byte_count size ≤ PAGE_SIZE }
    ensures value { result ≡ number_in page.now offset size }
    ensures small { result < 2 ^ (8 * byte_count size) }
{
    let bytes = page.bytes();
    match size {
        Size::One => u32::from(bytes[offset]),
        Size::Two => u32::from(bytes[offset]) + (u32::from(bytes[offset + 1]) << 8),
        Size::Four => word_at(page, offset),
    }
}

/// Stores the lowest bytes of a value at an offset.
#[inline(always)]
#[tactic(auto, unfolding(crate::specs::Written::with_number))]
fn write_number(page: &mut Page, offset: usize, size: Size, value: u32)
    requires { offset + byte_count size ≤ PAGE_SIZE }
    ensures { page.new ≡ with_number page.old offset size value }
{
    page.set(offset, byte_at(value, 0));
    match size {
        Size::One => {}
        Size::Two => page.set(offset + 1, byte_at(value, 1)),
        Size::Four => {
            page.set(offset + 1, byte_at(value, 1));
            page.set(offset + 2, byte_at(value, 2));
            page.set(offset + 3, byte_at(value, 3));
        }
    }
}

/// Marks the places of a number at an offset.
#[inline(always)]
#[tactic(auto, unfolding(crate::specs::Written::with_marks))]
fn mark_number(mask: &mut Mask, offset: usize, size: Size)
    requires { offset + byte_count size ≤ PAGE_SIZE }
    ensures { mask.new ≡ with_marks mask.old offset size }
{
    mask.set(offset);
    match size {
        Size::One => {}
        Size::Two => mask.set(offset + 1),
        Size::Four => {
            mask.set(offset + 1);
            mask.set(offset + 2);
            mask.set(offset + 3);
        }
    }
}

/// Stores the lowest bytes of a value at an offset: first all bytes and then all marks, which is faster than to
/// alternate.
#[inline(always)]
fn store_number(stored: &mut StoredPage, offset: usize, size: Size, value: u32)
    requires { offset + byte_count size ≤ PAGE_SIZE }
    ensures page { stored.new.page ≡ with_number stored.old.page offset size value }
    ensures mask { stored.new.mask ≡ with_marks stored.old.mask offset size }
{
    write_number(&mut stored.page, offset, size, value);
    mark_number(&mut stored.mask, offset, size);
}

/// A copy of a page of the view, with the lowest bytes of a value stored at an offset.
///
/// It is separate from the store into an existing copy, which is the common case.
#[cold]
#[inline(never)]
fn own_copy(
    alloc: Global,
    page: &Page,
    access: Access,
    value: u32,
) -> Result<Box<StoredPage>, AllocError>
    requires { access.offset + byte_count access.size ≤ PAGE_SIZE }
    ensures page { IfOk result
        (λ own. own.value.page ≡ with_number page.now access.offset access.size value) }
    ensures mask { IfOk result
        (λ own. own.value.mask ≡ with_marks no_marks access.offset access.size) }
{
    let mut own = Box::new(alloc, StoredPage::of(page))?;
    store_number(&mut own, access.offset, access.size, value);
    Ok(own)
}

/// Adds the view's page in a slot to the read pages.
#[inline(never)]
fn push_read(view: &PageTable, slot: usize, pages: &mut Vec<ReadPage>) -> Result<(), AllocError>
    requires { slot < length view.now }
    ensures { OnOk result
        (pages.new.items ≡ pages.old.items ++ read_part slot true (page_of view.now slot)) }
{
    pages.push(ReadPage::new(slot, view.page_arc(slot)?))?;
    Ok(())
}

/// Moves an own copy to the deltas, if a byte was stored.
#[inline(never)]
fn push_delta(
    alloc: Global,
    own: Box<StoredPage>,
    slot: usize,
    deltas: &mut Vec<PageDelta>,
) -> Result<(), AllocError>
    ensures { OnOk result (deltas.new.items
        ≡ deltas.old.items ++ delta_part slot own.value.mask own.value.page) }
{
    if own.mask.is_empty() {
        return Ok(());
    }
    deltas.push(PageDelta::new(alloc, slot, own)?)?;
    Ok(())
}

impl Slot {
    /// A slot that wasn't touched.
    #[tactic(auto, unfolding(crate::specs::Slots::untouched))]
    pub(super) fn new() -> Slot
        ensures { result ≡ untouched }
    {
        Slot::View { taken: false }
    }

    /// Whether a byte was taken.
    #[inline(always)]
    #[tactic(auto, unfolding(crate::specs::Slots::slot_taken))]
    fn taken(&self) -> bool
        ensures { result ≡ slot_taken self.now }
    {
        match self {
            Slot::View { taken } | Slot::Hidden { taken, .. } => *taken,
            Slot::Shared(_) | Slot::Own(_) => true,
        }
    }

    /// The number of an access to the page, if one was loaded from it before.
    #[inline(always)]
    #[tactic(auto, unfolding(crate::specs::Slots::slot_shared, crate::specs::Slots::slot_bytes, crate::specs::Slots::slot_taken))]
    pub(super) fn held_number(&self, access: Access) -> Option<u32>
        requires { access.offset + byte_count access.size ≤ PAGE_SIZE }
        ensures { IfSome result (λ number. HasNumber access number self.now) }
    {
        // Two tests are faster than a jump by a table of four.
        if let Slot::Own(own) = self {
            return Some(number_at(&own.page, access.offset, access.size));
        }
        if let Slot::Shared(page) = self {
            return Some(number_at(page, access.offset, access.size));
        }
        None
    }

    /// Takes the number of an access to the slot's page, which may be read.
    ///
    /// # Errors
    ///
    /// An error if the page has as many holders as can be counted; nothing changes then.
    #[tactic(auto, unfolding(crate::specs::Slots::slot_shared, crate::specs::Slots::slot_bytes, crate::specs::Slots::slot_marks, crate::specs::Slots::slot_taken))]
    pub(super) fn take(&mut self, view: &PageTable, access: Access) -> Result<u32, AllocError>
        requires within { IsWithin access (length view.now) }
        requires share { SharesPage (page_of view.now access.slot) self.old }
        ensures { MatchResult result
            (λ number. TakesNumber (allows read_right) (page_of view.now access.slot) access number
            self.old self.new)
            (λ error. self.new ≡ self.old) }
    {
        let number = number_at(self.page(view, access.slot), access.offset, access.size);
        self.show(view, access.slot)?;
        Ok(number)
    }

    /// The page with the thread's stores.
    #[tactic(auto, unfolding(crate::specs::Slots::slot_shared, crate::specs::Slots::slot_bytes))]
    fn page<'a>(&'a self, view: &'a PageTable, slot: usize) -> &'a Page
        requires within { slot < length view.now }
        requires share { SharesPage (page_of view.now slot) self.now }
        ensures { result.now ≡ slot_bytes (page_of view.now slot) self.now }
    {
        match self {
            Slot::View { .. } => view.page(slot),
            Slot::Shared(page) => page,
            Slot::Own(own) => &own.page,
            Slot::Hidden { own, .. } => &own.page,
        }
    }

    /// Lets later loads find the page, which may be read: a share of the view's page, or the own copy. A byte counts as
    /// taken.
    ///
    /// # Errors
    ///
    /// An error if the page has as many holders as can be counted; nothing changes then.
    #[tactic(auto, unfolding(crate::specs::Slots::slot_shared, crate::specs::Slots::slot_bytes, crate::specs::Slots::slot_marks, crate::specs::Slots::slot_taken))]
    fn show(&mut self, view: &PageTable, slot: usize) -> Result<(), AllocError>
        requires within { slot < length view.now }
        requires share { SharesPage (page_of view.now slot) self.old }
        ensures { MatchResult result
            (λ done. TakesByte (allows read_right) (page_of view.now slot) self.old self.new)
            (λ error. self.new ≡ self.old) }
    {
        if let Slot::View { .. } = self {
            *self = Slot::Shared(view.page_arc(slot)?);
            return Ok(());
        }
        *self = match mem::replace(self, Slot::new()) {
            Slot::Hidden { own, .. } => Slot::Own(own),
            held => held,
        };
        Ok(())
    }

    /// Marks that a byte was taken.
    #[tactic(auto, unfolding(crate::specs::Slots::slot_shared, crate::specs::Slots::slot_bytes, crate::specs::Slots::slot_marks, crate::specs::Slots::slot_taken))]
    fn mark(&mut self)
        ensures { (page : List ℕ) → TakesByte any page self.old self.new }
    {
        match self {
            Slot::View { taken } => *taken = true,
            Slot::Hidden { taken, .. } => *taken = true,
            Slot::Shared(_) | Slot::Own(_) => {}
        }
    }

    /// Takes the word of a fetch from the slot's page.
    #[tactic(auto, unfolding(crate::specs::Slots::slot_shared, crate::specs::Slots::slot_bytes, crate::specs::Slots::slot_marks, crate::specs::Slots::slot_taken))]
    pub(super) fn fetch(&mut self, view: &PageTable, access: Access) -> u32
        requires within { IsWithin access (length view.now) }
        requires share { SharesPage (page_of view.now access.slot) self.old }
        ensures { TakesNumber any (page_of view.now access.slot) access result self.old self.new }
    {
        let number = number_at(self.page(view, access.slot), access.offset, access.size);
        self.mark();
        number
    }

    /// Stores the lowest bytes of a value into the own copy. Returns whether there is one; if not, nothing changes.
    #[inline(always)]
    #[tactic(auto, unfolding(crate::specs::Slots::slot_shared, crate::specs::Slots::slot_bytes, crate::specs::Slots::slot_marks, crate::specs::Slots::slot_taken))]
    pub(super) fn store_again(&mut self, access: Access, value: u32) -> bool
        requires { access.offset + byte_count access.size ≤ PAGE_SIZE }
        ensures stored { IsTrue result → StoresAgain access value self.old self.new }
        ensures stays { IsFalse result → self.new ≡ self.old }
    {
        match self {
            Slot::Own(own) => {
                store_number(own, access.offset, access.size, value);
                true
            }
            Slot::Hidden { own, .. } => {
                store_number(own, access.offset, access.size, value);
                true
            }
            Slot::View { .. } | Slot::Shared(_) => false,
        }
    }

    /// Stores the lowest bytes of a value by an access to the slot's page, which may be stored to.
    ///
    /// # Errors
    ///
    /// An error if the host's memory ran out; nothing changes then.
    #[tactic(auto, unfolding(crate::specs::Slots::slot_shared, crate::specs::Slots::slot_bytes, crate::specs::Slots::slot_marks, crate::specs::Slots::slot_taken))]
    pub(super) fn store(
        &mut self,
        alloc: Global,
        view: &PageTable,
        access: Access,
        value: u32,
    ) -> Result<(), AllocError>
        requires within { IsWithin access (length view.now) }
        requires share { SharesPage (page_of view.now access.slot) self.old }
        ensures { MatchResult result
            (λ done. StoresNumber (page_of view.now access.slot) access value self.old self.new)
            (λ error. self.new ≡ self.old) }
    {
        match self {
            Slot::Own(own) => {
                store_number(own, access.offset, access.size, value);
            }
            Slot::Hidden { own, .. } => {
                store_number(own, access.offset, access.size, value);
            }
            Slot::Shared(page) => {
                let own = own_copy(alloc, page, access, value)?;
                *self = Slot::Own(own);
            }
            Slot::View { taken } => {
                let taken = *taken;
                let own = own_copy(alloc, view.page(access.slot), access, value)?;
                *self = Slot::Hidden { taken, own };
            }
        }
        Ok(())
    }

    /// Takes a byte of the slot's page, to run its instructions, and returns true; changes nothing and returns false if
    /// the page has the thread's own stores.
    #[inline(always)]
    #[tactic(auto, unfolding(crate::specs::Slots::slot_shared, crate::specs::Slots::slot_bytes, crate::specs::Slots::slot_marks, crate::specs::Slots::slot_taken))]
    pub(super) fn enter(&mut self) -> bool
        ensures entered { IsTrue result → EntersPage self.old self.new }
        ensures stays { IsFalse result → self.new ≡ self.old }
    {
        match self {
            Slot::View { .. } | Slot::Shared(_) => {
                self.mark();
                true
            }
            Slot::Own(_) | Slot::Hidden { .. } => false,
        }
    }

    /// Adds the view's page in this slot to the read pages, if a byte was taken.
    #[inline(always)]
    #[tactic(auto, unfolding(crate::specs::Slots::slot_taken))]
    pub(super) fn add_read(
        &self,
        view: &PageTable,
        slot: usize,
        pages: &mut Vec<ReadPage>,
    ) -> Result<(), AllocError>
        requires { slot < length view.now }
        ensures { OnOk result (pages.new.items
            ≡ pages.old.items ++ read_part slot (slot_taken self.now) (page_of view.now slot)) }
    {
        if self.taken() {
            push_read(view, slot, pages)?;
        }
        Ok(())
    }

    /// Moves the own copy to the deltas, if a byte was stored. The view's page doesn't matter.
    #[inline(always)]
    #[tactic(auto, unfolding(crate::specs::Slots::slot_bytes, crate::specs::Slots::slot_marks))]
    pub(super) fn give_delta(
        self,
        alloc: Global,
        slot: usize,
        deltas: &mut Vec<PageDelta>,
    ) -> Result<(), AllocError>
        ensures { (page : List ℕ) → OnOk result (deltas.new.items
            ≡ deltas.old.items ++ delta_part slot (slot_marks self) (slot_bytes page self)) }
    {
        match self {
            Slot::View { .. } => Ok(()),
            Slot::Shared(_) => Ok(()),
            Slot::Own(own) | Slot::Hidden { own, .. } => push_delta(alloc, own, slot, deltas),
        }
    }
}
