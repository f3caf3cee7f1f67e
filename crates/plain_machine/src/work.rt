//! The memory that a thunk works on.

ghost use Rattle.std.specs.Prelude.{◌≡◌, ◌+◌, ◌*◌, ◌^◌, ◌<◌, ◌≤◌, [], length, IfOk};
ghost use Rattle.std.specs.Arc.{arc_value};
ghost use Rattle.memory_spec.specs.Access.{byte_count, number_in};
ghost use Rattle.memory_spec.specs.Pages.{Memory, IsMemory, on_each};
ghost use Rattle.memory_spec.specs.Stores.{with_stores};
ghost use Rattle.memory_spec.specs.Workspace.{no_marks};
ghost use Rattle.plain_machine.specs.Merging.{merged};
ghost use Rattle.plain_machine.specs.Stored.{bytes_of};

use super::memory::Memory;
use super::pages::{LastPage, code_slot, offset_of, permitted};
use super::stores::{Stored, apply_store};
use machine_calls::View;
use memory_spec::{MemoryError, PAGE_SIZE, Size};
use page_store::{Mem, Page, PageMap};
use std::alloc::{AllocError, Global};
use std::marker::Model;
use std::sync::Arc;

/// A copy of a view with the thread's own stores applied, the list of the stores, and the page that was fetched from
/// last. A clause sees a `Workspace` of `memory_spec`, without the view and the read pages.
#[derive(Drop)]
pub(super) struct Work {
    map: Arc<PageMap>,
    memory: Memory,
    stores: Vec<Stored>,
    last: LastPage,
}

impl Model for Work {
    ghost use Rattle.memory_spec.specs.Workspace.{Workspace};
    ghost use Rattle.plain_machine.specs.Works.{workspace_of, Keeps};

    ghost Value = { Workspace };

    ghost view = { workspace_of };

    ghost invariant = { Keeps };
}

/// The word in a page from an offset on, least byte first.
///
/// Inlining isn't forced, so that this function is simplified by itself first, and its four reads become one.
#[inline]
#[tactic(auto, unfolding(memory_spec::specs::Access::number_in))]
fn word_at(page: &Page, offset: usize) -> u32
    requires { offset + 4 ≤ PAGE_SIZE }
    ensures { result ≡ number_in page.now offset Size.Four }
{
    let bytes = page.bytes();
    u32::from(bytes[offset])
        + (u32::from(bytes[offset + 1]) << 8)
        + (u32::from(bytes[offset + 2]) << 16)
        + (u32::from(bytes[offset + 3]) << 24)
}

/// The number in a page from an offset on, least byte first.
#[inline(always)]
#[tactic(auto, unfolding(memory_spec::specs::Access::number_in))]
fn number_at(page: &Page, offset: usize, size: Size) -> u32
    requires { offset + byte_count size ≤ PAGE_SIZE }
    ensures value { result ≡ number_in page.now offset size }
    ensures small { result < 2 ^ (8 * byte_count size) }
{
    let bytes = page.bytes();
    match size {
        Size::One => u32::from(bytes[offset]),
        Size::Two => u32::from(bytes[offset]) + (u32::from(bytes[offset + 1]) << 8),
        Size::Four => word_at(page, offset),
    }
}

impl Mem for Work {
    ghost workspace = { λ w. w };

    #[inline(always)]
    #[tactic(auto, unfolding(memory_spec::specs::Access::fetched, memory_spec::specs::Access::number_at))]
    fn fetch(&mut self, address: u32) -> Result<u32, MemoryError> {
        match code_slot(&self.map, &mut self.last, address) {
            None => Err(MemoryError::Access),
            Some(slot) => {
                let offset = offset_of(address);
                Ok(word_at(self.memory.page(slot), offset))
            }
        }
    }

    #[inline(always)]
    #[tactic(auto, unfolding(memory_spec::specs::Access::loaded, memory_spec::specs::Access::number_at), using(crate::proofs::Offsets::inside))]
    fn load(&mut self, address: u32, size: Size) -> Result<u32, MemoryError> {
        match permitted(&self.map, address) {
            None => Err(MemoryError::Access),
            Some((slot, perm)) => {
                if !perm.reads() {
                    return Err(MemoryError::Access);
                }
                let offset = offset_of(address);
                Ok(number_at(self.memory.page(slot), offset, size))
            }
        }
    }

    #[inline(always)]
    #[tactic(auto, unfolding(memory_spec::specs::Access::may_store), using(crate::proofs::Laying::count_kept))]
    fn store(&mut self, address: u32, size: Size, value: u32) -> Result<(), MemoryError> {
        match permitted(&self.map, address) {
            None => Err(MemoryError::Access),
            Some((_slot, perm)) => {
                if !perm.writes() {
                    return Err(MemoryError::Access);
                }
                let stored = Stored::new(address, size, value);
                let Ok(()) = self.stores.push(stored) else {
                    return Err(MemoryError::NoMemory);
                };
                let Ok(()) = apply_store(&self.map, &mut self.memory, stored) else {
                    self.stores.pop();
                    return Err(MemoryError::NoMemory);
                };
                Ok(())
            }
        }
    }

    fn enter(&mut self, _address: u32) -> Option<usize> {
        None
    }

    fn shows(&self, slot: usize, bytes: &[u8; PAGE_SIZE]) -> bool {
        self.memory.page(slot).bytes() == bytes
    }
}

impl Work {
    /// A copy of a view, with nothing stored.
    ///
    /// # Errors
    ///
    /// An error if the host's memory ran out.
    pub(super) fn new(alloc: Global, map: &Arc<PageMap>, view: &Memory) -> Result<Work, AllocError>
        requires { IsMemory (arc_value map.now) view.now }
        ensures { IfOk result (λ work. work ≡ record {
          map = arc_value map.now;
          view = [];
          memory = view.now;
          stored = on_each no_marks (arc_value map.now);
          taken = [];
        }) }
    {
        Ok(Work {
            map: Arc::try_clone(map)?,
            memory: view.share()?,
            stores: Vec::new(alloc),
            last: LastPage::none(),
        })
    }

    /// Its pages, with the stores.
    pub(super) fn memory(&self) -> &Memory
        ensures value { result.now ≡ self.now.memory }
        ensures count { length self.now.memory ≡ length self.now.map }
    {
        &self.memory
    }

    /// The stores, in order.
    pub(super) fn into_stores(self) -> Vec<Stored>
        ensures { (shared : Memory) → IsMemory self.map shared
            → with_stores self.map shared (bytes_of result.items) ≡ merged self.stored self.memory shared }
    {
        self.stores
    }
}
