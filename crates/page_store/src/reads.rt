//! The read pages of a thunk.

ghost use Rattle.std.specs.Prelude.{◌≡◌, true};
ghost use Rattle.std.specs.Arc.{arc_value};
ghost use Rattle.thunk_spec.specs.Ascending.{reads_ascend};

use super::page::Page;
use std::marker::Model;
use std::sync::Arc;

/// A page that a byte was taken from, as the view had it. A clause sees a `ReadPage` of `thunk_spec`.
#[derive(Drop)]
pub struct ReadPage {
    slot: usize,
    page: Arc<Page>,
}

impl Model for ReadPage {
    ghost use Rattle.std.specs.Arc.{arc_value};
    ghost use Rattle.thunk_spec.specs.Reads.{ReadPage};

    ghost Value = { ReadPage };

    ghost view = { λ r. record { slot = r.slot; bytes = arc_value r.page } };
}

impl ReadPage {
    /// The page in a slot.
    pub fn new(slot: usize, page: Arc<Page>) -> ReadPage
        ensures { result ≡ record { slot = slot; bytes = arc_value page } }
    {
        ReadPage { slot, page }
    }

    /// Its slot.
    #[inline(always)]
    pub fn slot(&self) -> usize
        ensures { result ≡ self.now.slot }
    {
        self.slot
    }

    /// Its bytes in the view.
    #[inline(always)]
    pub fn page(&self) -> &Page
        ensures { result.now ≡ self.now.bytes }
    {
        &self.page
    }
}

/// The read pages of a thunk, in ascending order of slots.
/// A clause sees the list of them, each a `ReadPage` of `thunk_spec`.
#[derive(Drop)]
pub struct Reads {
    pages: Vec<ReadPage>,
}

impl Model for Reads {
    ghost use Rattle.std.specs.Prelude.{◌≡◌, List, true};
    ghost use Rattle.thunk_spec.specs.Reads.{ReadPage};
    ghost use Rattle.thunk_spec.specs.Ascending.{reads_ascend};

    ghost Value = { List ReadPage };

    ghost view = { λ r. r.pages.items };

    ghost invariant = { λ r. reads_ascend 0 r.pages.items ≡ true };
}

impl Reads {
    /// These read pages, whose slots ascend.
    pub fn new(pages: Vec<ReadPage>) -> Reads
        requires { reads_ascend 0 pages.items ≡ true }
        ensures { result ≡ pages.items }
    {
        Reads { pages }
    }

    /// The read pages, in ascending order of slots.
    #[inline(always)]
    pub fn pages(&self) -> &[ReadPage]
        ensures pages { result.now ≡ self.now }
        ensures ascending { reads_ascend 0 self.now ≡ true }
    {
        &self.pages
    }
}
