//! A table of the slots of pages, by blocks of 4,096 page numbers.

ghost use Rattle.std.specs.Prelude.{◌≡◌, ℕ, ◌/◌, ◌<◌, true, length, slice_index, IfOk, IfSome};
ghost use Rattle.memory_spec.specs.Pages.{slot_of, ascends_above};
ghost use Rattle.page_store.specs.MapTables.{IsTable};

use super::lookup::number_at;
use super::pages::MappedPage;
use memory_spec::PAGE_SIZE;
use std::alloc::{AllocError, Global};

/// How many page numbers a block has.
const BLOCK: usize = 4096;

/// How many blocks the page numbers of all addresses have.
const BLOCKS: usize = 256;

/// How many places there are: those of 7 blocks, and one block of zeros, which all other blocks share.
const PLACES: usize = 32_768;

/// The slots of pages, found by two look-ups: of the block of a page number, and of its place there. The places are 64
/// KiB on the heap, so that moving a map moves few bytes.
///
/// The pages of a guest lie in few blocks: the input's in 1, the stacks' in 1, and the 1,024 of an image without gaps
/// in 2 at most. A page isn't listed if there is no room for its block, if its number is in none of the 256 blocks, or
/// if one more than its slot is no `u16`.
#[derive(Drop)]
pub(super) struct Table {
    /// Where the places of each block begin; 0 for a block that isn't listed.
    starts: [u16; BLOCKS],
    /// One more than the slot, or 0.
    places: Vec<u16>,
    /// How many places are used, the block of zeros included.
    used: usize,
}

impl Table {
    /// The table of these pages.
    ///
    /// # Errors
    ///
    /// An error if the host's memory ran out.
    pub(super) fn of(alloc: Global, pages: &[MappedPage]) -> Result<Table, AllocError>
        ensures { IfOk result
            (λ table. IsTable pages.now table.starts table.places.items table.used) }
    {
        let mut table = Table {
            starts: [0; BLOCKS],
            places: vec![in alloc; 0; PLACES]?,
            used: BLOCK,
        };
        for slot in 0..pages.len() {
            table.add(pages, slot);
        }
        Ok(table)
    }

    /// Lists the page in a slot, if there is room.
    fn add(&mut self, pages: &[MappedPage], slot: usize)
        requires table { IsTable pages.now self.old.starts self.old.places.items self.old.used }
        requires slot { slot < length pages.now }
        ensures { IsTable pages.now self.new.starts self.new.places.items self.new.used }
    {
        let number = number_at(pages, slot) as usize;
        if number >= BLOCK * BLOCKS || slot >= usize::from(u16::MAX) {
            return;
        }
        let start = self.start_for(pages, number / BLOCK);
        if start != 0 {
            self.places[start + number % BLOCK] = (slot + 1) as u16;
        }
    }

    /// Where the places of a block begin; a block that had none gets the next unused ones. 0 if there is no room.
    fn start_for(&mut self, pages: &[MappedPage], block: usize) -> usize
        requires table { IsTable pages.now self.old.starts self.old.places.items self.old.used }
        requires block { block < BLOCKS }
        ensures table { IsTable pages.now self.new.starts self.new.places.items self.new.used }
        ensures start { result ≡ slice_index self.new.starts block }
    {
        let start = self.starts[block];
        if start != 0 || self.used + BLOCK > PLACES {
            return usize::from(start);
        }
        let next = self.used;
        self.starts[block] = next as u16;
        self.used += BLOCK;
        next
    }

    /// The slot of an address, if its page is listed. None doesn't mean that no page has the address.
    #[inline(always)]
    pub(super) fn slot_of(&self, pages: &[MappedPage], address: u32) -> Option<usize>
        requires ascends { ascends_above 0 pages.now ≡ true }
        requires table { IsTable pages.now self.now.starts self.now.places.items self.now.used }
        ensures { IfSome result (λ slot. (slot ≡ slot_of pages.now address)
            × (slot < length pages.now)) }
    {
        let number = (address / PAGE_SIZE as u32) as usize;
        let start = usize::from(self.starts[number / BLOCK]);
        let place = usize::from(self.places[start + number % BLOCK]);
        if place == 0 { None } else { Some(place - 1) }
    }
}
