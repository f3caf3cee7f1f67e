//! A table of pages, by slot.

ghost use Rattle.std.specs.Prelude.{◌≡◌, ◌<◌, [], ◌∷◌, ◌++◌, All, Decides, length, map, slice_set, IfOk, OnOk, OnErr};
ghost use Rattle.std.specs.Cmp.{partial_equiv_from_equiv};
ghost use Rattle.std.specs.Cmp.Lexicographic.{lists_equiv, nat_list_eq_equiv, pointwise};
ghost use Rattle.std.specs.Str.{bytes_eq};
ghost use Rattle.std.specs.Arc.{arc_value};
ghost use Rattle.memory_spec.specs.Pages.{page_of};

use super::group::shared;
use super::page::Page;
use super::shelf::{SHELF_SIZE, Shelf};
use memory_spec::PAGE_SIZE;
use std::alloc::{AllocError, Global};
use std::marker::Model;
use std::sync::Arc;

/// Pages by slot, which several tables may share. A clause sees the list of their bytes.
///
/// The pages are in groups of eight, and the groups on shelves of eight, all full except the last. Tables share whole
/// shelves: a snapshot copies one pointer per shelf. A change of a page rebuilds its group and that group's shelf;
/// another page at the end rebuilds the last ones. Each copy of a shared pointer changes a count that several
/// processors see, so both are cheap because they copy few pointers.
#[derive(Drop)]
pub struct PageTable {
    alloc: Global,
    count: usize,
    shelves: Vec<Arc<Shelf>>,
}

impl Model for PageTable {
    ghost use Rattle.memory_spec.specs.Pages.{Memory};

    ghost Value = { Memory };

    ghost use Rattle.page_store.specs.Tables.{pages_of, IsTable};

    ghost view = { pages_of };

    ghost invariant = { IsTable };
}

impl PageTable {
    /// A table with no page.
    pub fn empty(alloc: Global) -> PageTable
        ensures { result ≡ [] }
    {
        PageTable {
            alloc,
            count: 0,
            shelves: Vec::new(alloc),
        }
    }

    /// A table of these pages, by slot. No byte is copied.
    ///
    /// # Errors
    ///
    /// An error if the host's memory ran out, or a shared part has as many holders as can be counted.
    pub fn new(alloc: Global, pages: Vec<Arc<Page>>) -> Result<PageTable, AllocError>
        ensures { IfOk result (λ table. table ≡ map arc_value pages.items) }
    {
        let mut table = PageTable::empty(alloc);
        for page in pages {
            table.push_owned(page)?;
        }
        Ok(table)
    }

    /// How many pages there are.
    #[inline(always)]
    pub fn len(&self) -> usize
        ensures count { result ≡ length self.now }
        ensures whole { All (λ page. length page ≡ PAGE_SIZE) self.now }
    {
        self.count
    }

    /// The page in a slot.
    #[inline(always)]
    pub fn page(&self, slot: usize) -> &Page
        requires { slot < length self.now }
        ensures page { result.now ≡ page_of self.now slot }
        ensures whole { All (λ page. length page ≡ PAGE_SIZE) self.now }
    {
        self.shelves[slot / SHELF_SIZE].page(slot % SHELF_SIZE)
    }

    /// The page in a slot, to be shared with this table. No byte is copied.
    ///
    /// # Errors
    ///
    /// An error if the page has as many holders as can be counted.
    #[inline(always)]
    pub fn page_arc(&self, slot: usize) -> Result<Arc<Page>, AllocError>
        requires { slot < length self.now }
        ensures { IfOk result (λ page. arc_value page ≡ page_of self.now slot) }
    {
        self.shelves[slot / SHELF_SIZE].page_arc(slot % SHELF_SIZE)
    }

    /// Puts a page into the next slot.
    ///
    /// # Errors
    ///
    /// An error if the host's memory ran out, or a shared part has as many holders as can be counted; the table is then
    /// as before.
    pub fn push(&mut self, page: Page) -> Result<(), AllocError>
        ensures ok { OnOk result (self.new ≡ self.old ++ page ∷ []) }
        ensures err { OnErr result (self.new ≡ self.old) }
    {
        let shared = Arc::new(self.alloc, page)?;
        self.push_owned(shared)
    }

    /// Puts a page that others hold too into the next slot. No byte is copied.
    ///
    /// # Errors
    ///
    /// An error if the host's memory ran out, or a shared part has as many holders as can be counted; the table is then
    /// as before.
    pub fn push_shared(&mut self, page: &Arc<Page>) -> Result<(), AllocError>
        ensures ok { OnOk result (self.new ≡ self.old ++ arc_value page.now ∷ []) }
        ensures err { OnErr result (self.new ≡ self.old) }
    {
        let shared = Arc::try_clone(page)?;
        self.push_owned(shared)
    }

    /// A table of the same pages, which later changes of this one don't affect. No byte is copied.
    ///
    /// # Errors
    ///
    /// An error if the host's memory ran out, or a shelf has as many holders as can be counted.
    pub fn snapshot(&self) -> Result<PageTable, AllocError>
        ensures { IfOk result (λ table. table ≡ self.now) }
    {
        let shelves = shared(self.alloc, &self.shelves, self.shelves.len())?;
        Ok(PageTable {
            alloc: self.alloc,
            count: self.count,
            shelves,
        })
    }

    /// Puts a page in the place of the one in a slot.
    ///
    /// # Errors
    ///
    /// An error if the host's memory ran out, or a shared part has as many holders as can be counted; the table is then
    /// as before.
    pub fn replace(&mut self, slot: usize, page: Page) -> Result<(), AllocError>
        requires { slot < length self.old }
        ensures ok { OnOk result (self.new ≡ slice_set self.old slot page) }
        ensures err { OnErr result (self.new ≡ self.old) }
    {
        let shared = Arc::new(self.alloc, page)?;
        self.replace_owned(slot, shared)
    }

    /// Puts a page that others may hold too in the place of the one in a slot. No byte is copied.
    ///
    /// # Errors
    ///
    /// An error if the host's memory ran out, or a shared part has as many holders as can be counted; the table is then
    /// as before.
    pub fn replace_owned(&mut self, slot: usize, page: Arc<Page>) -> Result<(), AllocError>
        requires { slot < length self.old }
        ensures ok { OnOk result (self.new ≡ slice_set self.old slot (arc_value page)) }
        ensures err { OnErr result (self.new ≡ self.old) }
    {
        page.bytes();
        let number = slot / SHELF_SIZE;
        let shelf = self.shelves[number].with_page(self.alloc, slot % SHELF_SIZE, page)?;
        let shelf = Arc::new(self.alloc, shelf)?;
        self.shelves[number] = shelf;
        Ok(())
    }

    /// Puts a page into the next slot: onto the last shelf, or onto a new one.
    fn push_owned(&mut self, page: Arc<Page>) -> Result<(), AllocError>
        ensures ok { OnOk result (self.new ≡ self.old ++ arc_value page ∷ []) }
        ensures err { OnErr result (self.new ≡ self.old) }
    {
        page.bytes();
        // No host has the memory for so many pointers that their number is no `usize`.
        let count = self.count.checked_add(1).ok_or(AllocError)?;
        let place = self.count % SHELF_SIZE;
        if place == 0 {
            let shelf = Arc::new(self.alloc, Shelf::of_one(self.alloc, page)?)?;
            self.shelves.push(shelf)?;
        } else {
            let last = self.count / SHELF_SIZE;
            let shelf = self.shelves[last].with_one_more(self.alloc, place, page)?;
            let shelf = Arc::new(self.alloc, shelf)?;
            self.shelves[last] = shelf;
        }
        self.count = count;
        Ok(())
    }
}

/// Two tables are equal if they have the same pages, slot by slot.
impl PartialEq for PageTable {
    ghost eq = { pointwise bytes_eq };

    ghost laws = { partial_equiv_from_equiv (lists_equiv nat_list_eq_equiv) };

    fn eq(&self, other: &PageTable) -> bool
        ensures eq { result ≡ pointwise bytes_eq self.now other.now }
        ensures same { Decides result (self.now ≡ other.now) }
    {
        if self.len() != other.len() {
            return false;
        }
        for slot in 0..self.len() {
            if self.page(slot) != other.page(slot) {
                return false;
            }
        }
        true
    }
}

impl Eq for PageTable {
    ghost laws = { lists_equiv nat_list_eq_equiv };
}
