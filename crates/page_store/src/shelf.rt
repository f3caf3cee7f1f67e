//! A shelf of groups of pages, which tables share as a whole.

ghost use Rattle.std.specs.Prelude.{◌≡◌, ◌<◌, [], ◌∷◌, ◌++◌, length, slice_set, IfOk};
ghost use Rattle.std.specs.Arc.{arc_value};
ghost use Rattle.memory_spec.specs.Pages.{page_of};

use super::group::{GROUP_SIZE, Group, shared};
use super::page::Page;
use std::alloc::{AllocError, Global};
use std::marker::Model;
use std::sync::Arc;

/// How many pages a full shelf has: eight groups of them.
pub const SHELF_SIZE: usize = 8 * GROUP_SIZE;

/// Some consecutive pages, in groups that are all full except the last. A shelf never changes: another one, which
/// shares all groups but one, replaces it. A clause sees the list of the pages' bytes.
#[derive(Drop)]
pub struct Shelf {
    groups: Vec<Arc<Group>>,
}

impl Model for Shelf {
    ghost use Rattle.memory_spec.specs.Pages.{Memory};

    ghost Value = { Memory };

    ghost use Rattle.page_store.specs.Shelves.{pages_on, IsShelf};

    ghost view = { pages_on };

    ghost invariant = { IsShelf };
}

impl Shelf {
    /// A shelf of one page.
    ///
    /// # Errors
    ///
    /// An error if the host's memory ran out.
    pub fn of_one(alloc: Global, page: Arc<Page>) -> Result<Shelf, AllocError>
        ensures { IfOk result (λ shelf. shelf ≡ arc_value page ∷ []) }
    {
        let group = Arc::new(alloc, Group::of_one(alloc, page)?)?;
        let mut groups = Vec::with_capacity(alloc, 1)?;
        groups.push(group)?;
        Ok(Shelf { groups })
    }

    /// The page in a place.
    #[inline(always)]
    pub fn page(&self, place: usize) -> &Page
        requires { place < length self.now }
        ensures { result.now ≡ page_of self.now place }
    {
        self.groups[place / GROUP_SIZE].page(place % GROUP_SIZE)
    }

    /// The page in a place, to be shared with this shelf.
    ///
    /// # Errors
    ///
    /// An error if the page has as many holders as can be counted.
    #[inline(always)]
    pub fn page_arc(&self, place: usize) -> Result<Arc<Page>, AllocError>
        requires { place < length self.now }
        ensures { IfOk result (λ page. arc_value page ≡ page_of self.now place) }
    {
        self.groups[place / GROUP_SIZE].page_arc(place % GROUP_SIZE)
    }

    /// A shelf of the same pages with another one in a place. No byte is copied.
    ///
    /// # Errors
    ///
    /// An error if the host's memory ran out, or a shared part has as many holders as can be counted.
    pub fn with_page(
        &self,
        alloc: Global,
        place: usize,
        page: Arc<Page>,
    ) -> Result<Shelf, AllocError>
        requires { place < length self.now }
        ensures { IfOk result (λ shelf. shelf ≡ slice_set self.now place (arc_value page)) }
    {
        let number = place / GROUP_SIZE;
        let mut groups = shared(alloc, &self.groups, self.groups.len())?;
        let group = groups[number].with_page(alloc, place % GROUP_SIZE, page)?;
        groups[number] = Arc::new(alloc, group)?;
        Ok(Shelf { groups })
    }

    /// A shelf of the same pages and one more after them, in the next place. No byte is copied.
    ///
    /// # Errors
    ///
    /// An error if the host's memory ran out, or a shared part has as many holders as can be counted.
    pub fn with_one_more(
        &self,
        alloc: Global,
        place: usize,
        page: Arc<Page>,
    ) -> Result<Shelf, AllocError>
        requires { place ≡ length self.now }
        ensures { IfOk result (λ shelf. shelf ≡ self.now ++ arc_value page ∷ []) }
    {
        let mut groups = shared(alloc, &self.groups, self.groups.len() + 1)?;
        if place % GROUP_SIZE == 0 {
            groups.push(Arc::new(alloc, Group::of_one(alloc, page)?)?)?;
        } else {
            let last = place / GROUP_SIZE;
            let group = groups[last].with_one_more(alloc, page)?;
            groups[last] = Arc::new(alloc, group)?;
        }
        Ok(Shelf { groups })
    }
}
