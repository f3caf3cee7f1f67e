//! The stored bytes of a thunk, page by page.

ghost use Rattle.std.specs.Prelude.{◌≡◌, true, IfOk};
ghost use Rattle.std.specs.Arc.{arc_value};
ghost use Rattle.thunk_spec.specs.Delta.{is_stored, spread};
ghost use Rattle.thunk_spec.specs.Ascending.{deltas_ascend};
ghost use Rattle.page_store.specs.Stored.{delta_in};

use super::mask::Mask;
use super::page::Page;
use super::stored::StoredPage;
use std::alloc::{AllocError, Global};
use std::marker::Model;
use std::sync::Arc;

/// The places that a thread stored to in a page, and the thread's own copy of the page.
#[derive(Clone, Copy)]
pub struct OwnCopy<'a> {
    /// The page, with the stored bytes at the marked places. The bytes at other places are no part of the stored bytes.
    pub page: &'a Page,
    /// The places that were stored to.
    pub mask: &'a Mask,
}

/// The stored bytes of one page, at least one. A clause sees a `PageDelta` of `thunk_spec`.
///
/// It keeps the thread's own copy of the whole page. If no other thread changed the page, this copy is the page after a
/// commit, which shares it instead of making another.
#[derive(Drop)]
pub struct PageDelta {
    alloc: Global,
    slot: usize,
    page: Arc<Page>,
    mask: Box<Mask>,
}

impl Model for PageDelta {
    ghost use Rattle.std.specs.Prelude.{◌≡◌, true};
    ghost use Rattle.std.specs.Arc.{arc_value};
    ghost use Rattle.thunk_spec.specs.Delta.{PageDelta, chosen, is_stored};

    ghost Value = { PageDelta };

    ghost view = { λ d. record {
      slot = d.slot;
      mask = d.mask.value;
      bytes = chosen d.mask.value (arc_value d.page);
    } };

    ghost invariant = { λ d. is_stored d.mask.value ≡ true };
}

impl PageDelta {
    /// What was stored to the page in a slot, at least one byte.
    ///
    /// # Errors
    ///
    /// An error if the host's memory ran out.
    pub fn new(alloc: Global, slot: usize, stored: Box<StoredPage>) -> Result<PageDelta, AllocError>
        requires { is_stored stored.value.mask ≡ true }
        ensures { IfOk result (λ delta. delta ≡ delta_in slot stored.value) }
    {
        let StoredPage { page, mask } = Box::into_inner(stored);
        let page = Arc::new(alloc, page)?;
        let mask = Box::new(alloc, mask)?;
        Ok(PageDelta {
            alloc,
            slot,
            page,
            mask,
        })
    }

    /// The page's slot.
    #[inline(always)]
    pub fn slot(&self) -> usize
        ensures { result ≡ self.now.slot }
    {
        self.slot
    }

    /// The places that were stored to, and a page with the stored bytes at them.
    #[inline(always)]
    pub fn stored(&self) -> OwnCopy<'_>
        ensures delta { self.now
            ≡ delta_in self.now.slot (record { page = result.page.now; mask = result.mask.now }) }
        ensures some { is_stored result.mask.now ≡ true }
    {
        OwnCopy {
            page: &self.page,
            mask: &self.mask,
        }
    }

    /// A page after the stored bytes were written into it.
    pub fn written(&self, page: &Page) -> Page
        ensures { result ≡ spread self.now.mask self.now.bytes page.now }
    {
        let mut bytes = *page.bytes();
        self.mask.merge(&mut bytes, self.page.bytes());
        Page::new(bytes)
    }

    /// A page after the stored bytes were written into it, to be shared: the own copy itself, if it has the same bytes.
    ///
    /// # Errors
    ///
    /// An error if the host's memory ran out, or the own copy has as many holders as can be counted.
    pub fn written_shared(&self, page: &Page) -> Result<Arc<Page>, AllocError>
        ensures { IfOk result (λ after. arc_value after
            ≡ spread self.now.mask self.now.bytes page.now) }
    {
        if self.mask.gives_written(page.bytes(), self.page.bytes()) {
            return Arc::try_clone(&self.page);
        }
        self.made(page)
    }

    /// A copy of a page with the stored bytes written into it. This is a function of its own, since its caller would
    /// otherwise clear the room for the page even if the own copy is the result.
    #[inline(never)]
    fn made(&self, page: &Page) -> Result<Arc<Page>, AllocError>
        ensures { IfOk result (λ after. arc_value after
            ≡ spread self.now.mask self.now.bytes page.now) }
    {
        let after = Arc::new(self.alloc, self.written(page))?;
        Ok(after)
    }
}

/// The stored bytes of a thunk: for each page with a store, in ascending order of slots.
/// A clause sees the list of them, each a `PageDelta` of `thunk_spec`.
#[derive(Drop)]
pub struct Delta {
    pages: Vec<PageDelta>,
}

impl Model for Delta {
    ghost use Rattle.std.specs.Prelude.{◌≡◌, List, true};
    ghost use Rattle.thunk_spec.specs.Delta.{PageDelta};
    ghost use Rattle.thunk_spec.specs.Ascending.{deltas_ascend};

    ghost Value = { List PageDelta };

    ghost view = { λ d. d.pages.items };

    ghost invariant = { λ d. deltas_ascend 0 d.pages.items ≡ true };
}

impl Delta {
    /// The stored bytes of these pages, whose slots ascend.
    pub fn new(pages: Vec<PageDelta>) -> Delta
        requires { deltas_ascend 0 pages.items ≡ true }
        ensures { result ≡ pages.items }
    {
        Delta { pages }
    }

    /// The pages, in ascending order of slots.
    #[inline(always)]
    pub fn pages(&self) -> &[PageDelta]
        ensures pages { result.now ≡ self.now }
        ensures ascending { deltas_ascend 0 self.now ≡ true }
    {
        &self.pages
    }
}
