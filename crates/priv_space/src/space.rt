//! The memory that a thread works on.

ghost use Rattle.std.specs.Prelude.{◌≡◌, ◌+◌, ◌*◌, ◌^◌, ◌<◌, ◌≤◌, ◌%◌, All, List, length, map, IfOk, IfSome, IfNone};
ghost use Rattle.std.specs.Arc.{arc_value};
ghost use Rattle.memory_spec.specs.Access.{byte_count, loaded};
ghost use Rattle.memory_spec.specs.Pages.{slot_of, permission_at};
ghost use Rattle.memory_spec.specs.Workspace.{fresh, Takes, Stores};
ghost use Rattle.thunk_spec.specs.Delta.{delta_from};
ghost use Rattle.thunk_spec.specs.Reads.{reads_from};

use super::slot::Access;
use super::slots::{self, Slots};
use memory_spec::{MemoryError, PAGE_SIZE, Size};
use page_store::{Delta, Mem, PageMap, PageTable, Perm, Reads};
use std::alloc::{AllocError, Global};
use std::marker::Model;
use std::sync::Arc;

/// A view that a thread works on, with the thread's own stores applied. It shares the view, takes a share of a page at
/// the first load from it, and copies a page at the first store to it. Untouched pages cost no share. A clause sees a
/// `Workspace` of `memory_spec`.
#[derive(Drop)]
pub struct Space {
    alloc: Global,
    view: Arc<PageTable>,
    pages: Arc<PageMap>,
    slots: Slots,
}

impl Model for Space {
    ghost use Rattle.memory_spec.specs.Workspace.{Workspace};

    ghost Value = { Workspace };

    ghost use Rattle.priv_space.specs.Slots.{Fits};
    ghost use Rattle.priv_space.specs.Spaces.{workspace_of};

    ghost view = { workspace_of };

    ghost invariant = { λ s. Fits (workspace_of s).map (workspace_of s).view s.slots };
}

/// The slot of an address, and what its page permits. None exactly if no page has it.
#[inline(always)]
#[tactic(auto, unfolding(memory_spec::specs::Pages::permission_at))]
fn permitted(pages: &PageMap, address: u32) -> Option<(usize, Perm)>
    ensures slot { IfSome result
        (λ p. (p.0 ≡ slot_of pages.now address) × (p.0 < length pages.now)) }
    ensures perm { IfSome result (λ p. p.1.0 ≡ permission_at pages.now address) }
    ensures missing { IfNone result (permission_at pages.now address ≡ 0) }
{
    match pages.slot_of(address) {
        Some(slot) => Some((slot, pages.perm(slot))),
        None => None,
    }
}

/// The access to an address, whose page is in this slot.
#[inline(always)]
fn access_to(slot: usize, address: u32, size: Size) -> Access
    requires { address % byte_count size ≡ 0 }
    ensures value { result ≡ record { slot = slot; offset = address % PAGE_SIZE; size = size } }
    ensures inside { result.offset + byte_count result.size ≤ PAGE_SIZE }
{
    let offset = (address % PAGE_SIZE as u32) as usize;
    Access { slot, offset, size }
}

impl Mem for Space {
    ghost workspace = { λ s. s };

    #[tactic(auto, unfolding(memory_spec::specs::Access::fetched, memory_spec::specs::Access::number_at))]
    fn fetch(&mut self, address: u32) -> Result<u32, MemoryError> {
        match permitted(&self.pages, address) {
            None => Err(MemoryError::Access),
            Some((slot, perm)) => {
                if !perm.executes() {
                    return Err(MemoryError::Access);
                }
                let access = access_to(slot, address, Size::Four);
                let Ok(word) = slots::fetch(&self.view, &mut self.slots, access) else {
                    return Err(MemoryError::NoMemory);
                };
                Ok(word)
            }
        }
    }

    #[inline(always)]
    #[tactic(auto, unfolding(memory_spec::specs::Access::loaded, memory_spec::specs::Access::number_at))]
    fn load(&mut self, address: u32, size: Size) -> Result<u32, MemoryError> {
        if let Some(slot) = self.pages.listed_slot(address) {
            let access = access_to(slot, address, size);
            if let Some(number) = slots::held_number(&self.slots, access) {
                return Ok(number);
            }
        }
        self.first_load(address, size)
    }

    #[inline(always)]
    #[tactic(auto, unfolding(memory_spec::specs::Access::may_store))]
    fn store(&mut self, address: u32, size: Size, value: u32) -> Result<(), MemoryError> {
        if let Some(slot) = self.pages.listed_slot(address) {
            let access = access_to(slot, address, size);
            if slots::store_again(&mut self.slots, access, value) {
                return Ok(());
            }
        }
        self.first_store(address, size, value)
    }

    #[inline(always)]
    fn enter(&mut self, address: u32) -> Option<usize> {
        let (slot, perm) = permitted(&self.pages, address)?;
        if !perm.executes() {
            return None;
        }
        if slots::enter(&mut self.slots, slot) {
            Some(slot)
        } else {
            None
        }
    }

    fn shows(&self, slot: usize, bytes: &[u8; PAGE_SIZE]) -> bool {
        self.view.page(slot).bytes().as_slice() == bytes.as_slice()
    }
}

impl Space {
    /// Loads if the slot of the page doesn't show that it may be read: the first time, if it may not be read, or if the
    /// map doesn't list it.
    ///
    /// # Errors
    ///
    /// `Access` exactly if the page isn't mapped or may not be read; `NoMemory` if the host has no memory left. Nothing
    /// changes then.
    #[cold]
    #[inline(never)]
    #[tactic(auto, unfolding(memory_spec::specs::Access::loaded, memory_spec::specs::Access::number_at))]
    fn first_load(&mut self, address: u32, size: Size) -> Result<u32, MemoryError>
        requires { address % byte_count size ≡ 0 }
        ensures found { Takes self.old address
            (loaded self.old.map self.old.memory address size) result self.new }
        ensures fits { IfOk result (λ value. value < 2 ^ (8 * byte_count size)) }
    {
        match permitted(&self.pages, address) {
            None => Err(MemoryError::Access),
            Some((slot, perm)) => {
                if !perm.reads() {
                    return Err(MemoryError::Access);
                }
                let access = access_to(slot, address, size);
                let Ok(number) = slots::take(&self.view, &mut self.slots, access) else {
                    return Err(MemoryError::NoMemory);
                };
                Ok(number)
            }
        }
    }

    /// Stores if no own copy of the page is found: the first time, if it may not be stored to, or if the map doesn't
    /// list it.
    ///
    /// # Errors
    ///
    /// `Access` exactly if the page isn't mapped or may not be written; `NoMemory` if the host has no memory left.
    /// Nothing changes then.
    #[cold]
    #[inline(never)]
    #[tactic(auto, unfolding(memory_spec::specs::Access::may_store))]
    fn first_store(&mut self, address: u32, size: Size, value: u32) -> Result<(), MemoryError>
        requires { address % byte_count size ≡ 0 }
        ensures { Stores self.old address size value result self.new }
    {
        match permitted(&self.pages, address) {
            None => Err(MemoryError::Access),
            Some((slot, perm)) => {
                if !perm.writes() {
                    return Err(MemoryError::Access);
                }
                let access = access_to(slot, address, size);
                let Ok(()) = slots::store(self.alloc, &self.view, &mut self.slots, access, value)
                else {
                    return Err(MemoryError::NoMemory);
                };
                Ok(())
            }
        }
    }

    /// A view with nothing stored and nothing taken. It shares the table, and no byte is copied.
    ///
    /// # Errors
    ///
    /// An error if the host's memory ran out, or the table or the map has as many holders as can be counted.
    pub fn new(
        alloc: Global,
        view: &Arc<PageTable>,
        pages: &Arc<PageMap>,
    ) -> Result<Space, AllocError>
        requires { length (arc_value view.now) ≡ length (arc_value pages.now) }
        ensures fresh { IfOk result
            (λ space. space ≡ fresh (arc_value pages.now) (arc_value view.now)) }
        ensures whole { All (λ page. length page ≡ PAGE_SIZE) (arc_value view.now) }
    {
        let slots = Slots::new(alloc, view.len())?;
        Ok(Space {
            alloc,
            view: Arc::try_clone(view)?,
            pages: Arc::try_clone(pages)?,
            slots,
        })
    }

    /// The pages from which a byte was taken, as the view has them. No byte is copied.
    ///
    /// # Errors
    ///
    /// An error if the host's memory ran out, or a page has as many holders as can be counted.
    pub fn reads(&self) -> Result<Reads, AllocError>
        ensures { IfOk result (λ reads. reads ≡ reads_from 0 self.now.taken self.now.view) }
    {
        let mut pages = Vec::new(self.alloc);
        let mut from = 0;
        while let Some(slot) = self.slots.next_touched(from) {
            self.slots.add_read(&self.view, slot, &mut pages)?;
            from = slot + 1;
        }
        Ok(Reads::new(pages))
    }

    /// The stored bytes. The own copies move into them.
    ///
    /// # Errors
    ///
    /// An error if the host's memory ran out.
    pub fn into_delta(self) -> Result<Delta, AllocError>
        ensures { IfOk result (λ delta. delta ≡ delta_from 0 self.stored self.memory) }
    {
        let Space {
            alloc,
            view,
            pages,
            mut slots,
        } = self;
        drop(view);
        drop(pages);
        let mut deltas = Vec::new(alloc);
        let mut from = 0;
        while let Some(slot) = slots.next_touched(from) {
            slots.give_delta(alloc, slot, &mut deltas)?;
            from = slot + 1;
        }
        Ok(Delta::new(deltas))
    }
}
