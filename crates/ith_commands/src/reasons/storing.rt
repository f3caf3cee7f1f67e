//! Which entry of a round stored a byte.

ghost use Rattle.std.specs.Prelude.{◌≡◌, ◌<◌, ◌≤◌, All, List, length, IfOk, None, Some};
ghost use Rattle.memory_spec.specs.declared.TheConstants.{PAGE_SIZE};
ghost use Rattle.thunk_spec.specs.Record.{Record as Recorded};
ghost use Rattle.round_report.specs.Storing.{stores, last_store};
ghost use Rattle.ith_commands.specs.Searching.{IsRight};

use propagate::Round;
use std::alloc::{AllocError, Global};
use thunk_record::Record;

/// How many searches are remembered.
pub const REMEMBERED: usize = 1024;

/// The result of a search: which of the first `count` entries of a round last stored to a place of the page in a slot.
#[derive(Clone, Copy)]
pub struct Search {
    slot: usize,
    place: usize,
    count: usize,
    storer: Option<usize>,
}

impl Search {
    /// A search of no entries.
    fn of_none(slot: usize, place: usize) -> Search
        ensures { result ≡ record { slot = slot; place = place; count = 0; storer = None } }
    {
        Search {
            slot,
            place,
            count: 0,
            storer: None,
        }
    }

    /// The result of the search for the first `count` entries, or for fewer.
    fn within(self, count: usize) -> Search
        ensures few { result.count ≤ count }
        ensures slot { result.slot ≡ self.slot }
        ensures place { result.place ≡ self.place }
        ensures right { (records : List Recorded) → IsRight records self → IsRight records result }
    {
        if self.count <= count {
            return self;
        }
        match self.storer {
            None => Search { count, ..self },
            Some(entry) => {
                if entry < count {
                    Search { count, ..self }
                } else {
                    Search::of_none(self.slot, self.place)
                }
            }
        }
    }
}

/// Whether a record stored to a place of the page in a slot.
fn stores(rec: &Record, slot: usize, place: usize) -> bool
    requires { place < PAGE_SIZE }
    ensures { result ≡ stores slot place (Some rec.now) }
{
    rec.delta().pages().iter().any(|page| page.slot() == slot && page.stored().mask.get(place))
}

/// Continues a search of fewer entries, back from the last one.
fn go_on(round: &Round, search: Search, count: usize) -> Option<usize>
    requires inside { count ≤ length round.now.schedule }
    requires few { search.count ≤ count }
    requires page { search.place < PAGE_SIZE }
    requires right { IsRight round.now.records search }
    ensures { result ≡ last_store round.now.records count search.slot search.place }
{
    let mut left = count;
    while left > search.count {
        left -= 1;
        if stores(round.entry(left), search.slot, search.place) {
            return Some(left);
        }
    }
    search.storer
}

/// The last of the first `count` entries of a round that stored to a place of the page in a slot. The search goes back
/// no further than an earlier one for the same byte, if that is remembered.
pub fn last_store(
    round: &Round,
    remembered: &mut [Search],
    count: usize,
    slot: usize,
    place: usize,
) -> Option<usize>
    requires inside { count ≤ length round.now.schedule }
    requires page { place < PAGE_SIZE }
    requires room { 0 < length remembered.old }
    requires right { All (IsRight round.now.records) remembered.old }
    ensures storer { result ≡ last_store round.now.records count slot place }
    ensures right { All (IsRight round.now.records) remembered.new }
{
    let at = (slot % remembered.len() + place) % remembered.len();
    let earlier = remembered[at];
    let search = if earlier.slot == slot && earlier.place == place {
        earlier.within(count)
    } else {
        Search::of_none(slot, place)
    };
    let storer = go_on(round, search, count);
    remembered[at] = Search {
        slot,
        place,
        count,
        storer,
    };
    storer
}

/// No searches yet.
pub fn no_searches(alloc: Global) -> Result<Vec<Search>, AllocError>
    ensures room { IfOk result (λ searches. 0 < length searches.items) }
    ensures right { (records : List Recorded)
        → IfOk result (λ searches. All (IsRight records) searches.items) }
{
    let mut searches = Vec::new(alloc);
    searches.resize(REMEMBERED, Search::of_none(0, 0))?;
    Ok(searches)
}
