//! A page that a thread stored to.

ghost use Rattle.std.specs.Prelude.{◌≡◌};
ghost use Rattle.memory_spec.specs.Workspace.{no_marks};

use super::mask::Mask;
use super::page::Page;

/// A thread's own copy of a page, and at which places it stored.
#[derive(Drop)]
pub struct StoredPage {
    /// The bytes, with the stores in them.
    pub page: Page,
    /// The places that were stored to.
    pub mask: Mask,
}

impl StoredPage {
    /// A copy of a page, with no stores in it.
    pub fn of(page: &Page) -> StoredPage
        ensures page { result.page ≡ page.now }
        ensures mask { result.mask ≡ no_marks }
    {
        StoredPage {
            page: page.copy(),
            mask: Mask::new(),
        }
    }
}
