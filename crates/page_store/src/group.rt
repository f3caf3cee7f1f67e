//! A group of pages, which shelves share as a whole.

ghost use Rattle.std.specs.Prelude.{◌≡◌, ◌<◌, [], ◌∷◌, ◌++◌, length, map, slice_set, IfOk};
ghost use Rattle.std.specs.Arc.{arc_value};
ghost use Rattle.memory_spec.specs.Pages.{page_of};

use super::page::Page;
use std::alloc::{AllocError, Global};
use std::marker::Model;
use std::sync::Arc;

/// How many pages a full group has: a power of two, so that a page's group is a shift and its place a mask.
pub const GROUP_SIZE: usize = 8;

/// Some consecutive pages. A group never changes: another one replaces it. A clause sees the list of the pages' bytes.
#[derive(Drop)]
pub struct Group {
    pages: Vec<Arc<Page>>,
}

impl Model for Group {
    ghost use Rattle.std.specs.Prelude.{ℕ, List, map};
    ghost use Rattle.std.specs.Arc.{arc_value};

    ghost Value = { List (List ℕ) };

    ghost view = { λ g. map arc_value g.pages.items };
}

impl Group {
    /// A group of one page.
    ///
    /// # Errors
    ///
    /// An error if the host's memory ran out.
    pub fn of_one(alloc: Global, page: Arc<Page>) -> Result<Group, AllocError>
        ensures { IfOk result (λ group. group ≡ arc_value page ∷ []) }
    {
        let mut pages = Vec::with_capacity(alloc, 1)?;
        pages.push(page)?;
        Ok(Group { pages })
    }

    /// The page in a place.
    #[inline(always)]
    pub fn page(&self, place: usize) -> &Page
        requires { place < length self.now }
        ensures { result.now ≡ page_of self.now place }
    {
        &self.pages[place]
    }

    /// The page in a place, to be shared with this group.
    ///
    /// # Errors
    ///
    /// An error if the page has as many holders as can be counted.
    #[inline(always)]
    pub fn page_arc(&self, place: usize) -> Result<Arc<Page>, AllocError>
        requires { place < length self.now }
        ensures { IfOk result (λ page. arc_value page ≡ page_of self.now place) }
    {
        Arc::try_clone(&self.pages[place])
    }

    /// A group of the same pages with another one in a place. No byte is copied.
    ///
    /// # Errors
    ///
    /// An error if the host's memory ran out, or a page has as many holders as can be counted.
    pub fn with_page(
        &self,
        alloc: Global,
        place: usize,
        page: Arc<Page>,
    ) -> Result<Group, AllocError>
        requires { place < length self.now }
        ensures { IfOk result (λ group. group ≡ slice_set self.now place (arc_value page)) }
    {
        let mut pages = shared(alloc, &self.pages, self.pages.len())?;
        pages[place] = page;
        Ok(Group { pages })
    }

    /// A group of the same pages and one more after them. No byte is copied.
    ///
    /// # Errors
    ///
    /// An error if the host's memory ran out, or a page has as many holders as can be counted.
    pub fn with_one_more(&self, alloc: Global, page: Arc<Page>) -> Result<Group, AllocError>
        ensures { IfOk result (λ group. group ≡ self.now ++ arc_value page ∷ []) }
    {
        let mut pages = shared(alloc, &self.pages, self.pages.len() + 1)?;
        pages.push(page)?;
        Ok(Group { pages })
    }
}

/// Shares these items in a new list with room for `room` of them.
pub(super) fn shared<T: Drop>(
    alloc: Global,
    items: &[Arc<T>],
    room: usize,
) -> Result<Vec<Arc<T>>, AllocError>
    ensures { IfOk result (λ shared. map arc_value shared.items ≡ map arc_value items.now) }
{
    let mut shared = Vec::with_capacity(alloc, room)?;
    for item in items {
        shared.push(Arc::try_clone(item)?)?;
    }
    Ok(shared)
}
