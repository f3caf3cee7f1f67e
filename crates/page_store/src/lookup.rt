//! The slot of an address in a list of pages, by binary search.

ghost use Rattle.std.specs.Prelude.{◌≡◌, ◌<◌, ◌/◌, true, length, slice_index_or, IfSome, IfNone};
ghost use Rattle.memory_spec.specs.Pages.{slot_of, ascends_above, unmapped};

use super::pages::MappedPage;
use memory_spec::PAGE_SIZE;

/// The number of the page in a slot.
#[inline(always)]
pub(super) fn number_at(pages: &[MappedPage], slot: usize) -> u32
    requires { slot < length pages.now }
    ensures { result ≡ (slice_index_or pages.now slot unmapped).number }
{
    let page = &pages[slot];
    page.number()
}

/// The slot of an address, by binary search. None exactly if no page has it.
#[cold]
pub(super) fn find(pages: &[MappedPage], address: u32) -> Option<usize>
    requires { ascends_above 0 pages.now ≡ true }
    ensures found { IfSome result (λ slot. (slot ≡ slot_of pages.now address)
        × (slot < length pages.now)) }
    ensures missing { IfNone result (slot_of pages.now address ≡ length pages.now) }
{
    let number = address / PAGE_SIZE as u32;
    let mut low = 0;
    let mut high = pages.len();
    while low < high {
        let middle = low + (high - low) / 2;
        let here = number_at(pages, middle);
        if here == number {
            return Some(middle);
        }
        if here < number {
            low = middle + 1;
        } else {
            high = middle;
        }
    }
    None
}
