//! The list of a guest's pages, in ascending order.

ghost use Rattle.std.specs.Prelude.{◌≡◌, ◌<◌, ◌*◌, true, Decides, length, slice_index_or, IfOk, IfSome, IfNone};
ghost use Rattle.std.specs.Cmp.{partial_equiv_from_equiv};
ghost use Rattle.memory_spec.specs.Pages.{slot_of, ascends_above, unmapped};
ghost use Rattle.page_store.specs.Equal.{is_same_page, is_same_map, is_same_page-equiv, is_same_map-equiv};

use super::lookup::find;
use super::map_table::Table;
use super::permission::Perm;
use memory_spec::PAGE_SIZE;
use std::alloc::{AllocError, Global};
use std::marker::Model;

/// The place of a page in the page map.
pub type Slot = usize;

/// A mapped page: its number, which is its address divided by 4,096, and what it permits.
///
/// A clause sees a `Mapped` of `memory_spec`.
#[derive(Clone, Copy)]
pub struct MappedPage {
    number: u32,
    permission: Perm,
}

impl Model for MappedPage {
    ghost use Rattle.memory_spec.specs.Pages.{Mapped};

    ghost Value = { Mapped };

    ghost view = { λ p. record { number = p.number; permission = p.permission.0 } };

    ghost inverse = { λ m. record { number = m.number; permission = record { 0 = m.permission } } };
}

impl MappedPage {
    /// A page with this number, which permits this.
    #[inline(always)]
    pub fn new(number: u32, permission: Perm) -> Self
        ensures { result ≡ record { number = number; permission = permission.0 } }
    {
        MappedPage { number, permission }
    }

    /// Its number.
    #[inline(always)]
    pub fn number(&self) -> u32
        ensures { result ≡ self.now.number }
    {
        self.number
    }

    /// What it permits.
    #[inline(always)]
    pub fn permission(&self) -> Perm
        ensures { result.0 ≡ self.now.permission }
    {
        self.permission
    }
}

/// Two mapped pages are equal if they have the same number and permit the same.
impl PartialEq for MappedPage {
    ghost eq = { is_same_page };

    ghost laws = { partial_equiv_from_equiv is_same_page-equiv };

    fn eq(&self, other: &MappedPage) -> bool
        ensures eq { result ≡ is_same_page self.now other.now }
        ensures same { Decides result (self.now ≡ other.now) }
    {
        self.number == other.number && self.permission == other.permission
    }
}

impl Eq for MappedPage {
    ghost laws = { is_same_page-equiv };
}

/// The mapped pages, in ascending order, each in its slot.
///
/// A clause sees the list of them, each a `Mapped` of `memory_spec`. A table with the list finds the slots of most
/// pages.
#[derive(Drop)]
pub struct PageMap {
    pages: Vec<MappedPage>,
    table: Table,
}

impl Model for PageMap {
    ghost use Rattle.std.specs.Prelude.{List};
    ghost use Rattle.memory_spec.specs.Pages.{Mapped};

    ghost Value = { List Mapped };

    ghost use Rattle.page_store.specs.Maps.{pages_of, IsMap};

    ghost view = { pages_of };

    ghost invariant = { IsMap };
}

impl PageMap {
    /// The map of these pages. Each has a larger number than the one before it, and none is page 0.
    ///
    /// # Errors
    ///
    /// An error if the host's memory ran out.
    pub fn new(alloc: Global, pages: Vec<MappedPage>) -> Result<PageMap, AllocError>
        requires { ascends_above 0 pages.items ≡ true }
        ensures { IfOk result (λ map. map ≡ pages.items) }
    {
        let table = Table::of(alloc, &pages)?;
        Ok(PageMap { pages, table })
    }

    /// The slot of an address. None exactly if no page has it.
    #[inline(always)]
    pub fn slot_of(&self, address: u32) -> Option<Slot>
        ensures found { IfSome result (λ slot. (slot ≡ slot_of self.now address)
            × (slot < length self.now)) }
        ensures missing { IfNone result (slot_of self.now address ≡ length self.now) }
    {
        match self.listed_slot(address) {
            Some(slot) => Some(slot),
            None => find(&self.pages, address),
        }
    }

    /// The slot of an address, if the map's table lists its page. This is faster than `slot_of`. None doesn't mean that
    /// no page has the address: `slot_of` decides that.
    #[inline(always)]
    pub fn listed_slot(&self, address: u32) -> Option<Slot>
        ensures { IfSome result (λ slot. (slot ≡ slot_of self.now address)
            × (slot < length self.now)) }
    {
        self.table.slot_of(&self.pages, address)
    }

    /// What the page in a slot permits.
    #[inline(always)]
    pub fn perm(&self, slot: Slot) -> Perm
        requires { slot < length self.now }
        ensures { result.0 ≡ (slice_index_or self.now slot unmapped).permission }
    {
        let page = &self.pages[slot];
        page.permission()
    }

    /// The page in a slot.
    pub fn page(&self, slot: Slot) -> MappedPage
        requires { slot < length self.now }
        ensures { result ≡ slice_index_or self.now slot unmapped }
    {
        let page = &self.pages[slot];
        *page
    }

    /// The address of the first byte of the page in a slot.
    pub fn address(&self, slot: Slot) -> u64
        requires { slot < length self.now }
        ensures { result ≡ (slice_index_or self.now slot unmapped).number * PAGE_SIZE }
    {
        let page = &self.pages[slot];
        u64::from(page.number()) * PAGE_SIZE as u64
    }

    /// How many pages are mapped.
    #[inline(always)]
    pub fn len(&self) -> usize
        ensures count { result ≡ length self.now }
        ensures ascending { ascends_above 0 self.now ≡ true }
    {
        self.pages.len()
    }

    /// The mapped pages, in ascending order.
    pub fn pages(&self) -> &[MappedPage]
        ensures { result.now ≡ self.now }
    {
        &self.pages
    }
}

/// Two page maps are equal if they have the same pages.
impl PartialEq for PageMap {
    ghost eq = { is_same_map };

    ghost laws = { partial_equiv_from_equiv is_same_map-equiv };

    fn eq(&self, other: &PageMap) -> bool
        ensures eq { result ≡ is_same_map self.now other.now }
        ensures same { Decides result (self.now ≡ other.now) }
    {
        self.pages.as_slice() == other.pages.as_slice()
    }
}

impl Eq for PageMap {
    ghost laws = { is_same_map-equiv };
}
