//! The races of a history.

ghost use Rattle.std.specs.Prelude.{◌≡◌, [], All, length, take, IfOk};
ghost use Rattle.round_spec.specs.Races.{races_of};
ghost use Rattle.memo_reports.specs.declared.races.past.PagePast.{PagePast as Past};

use super::list::{RaceList, Races};
use super::past::{Access, PagePast};
use super::rows::FirstRaces;
use super::steps::steps_of;
use run_history::History;
use std::alloc::{AllocError, Global};

/// No access to any of `pages` pages.
fn none_past(alloc: Global, pages: usize) -> Result<Vec<PagePast>, AllocError>
    ensures count { IfOk result (λ past. length past.items ≡ pages) }
    ensures none { IfOk result (λ past. All (λ (p : Past). p.threads.items ≡ []) past.items) }
{
    let mut past = Vec::with_capacity(alloc, pages)?;
    for _page in 0..pages {
        past.push(PagePast::new(alloc))?;
    }
    Ok(past)
}

/// The races of a history: pairs of steps of different threads that touch one page, of which one writes it, and of
/// which the earlier one doesn't come before the later one's thunk by threads and objects. The first `most` of them are
/// listed, by the earlier step, then by the later one, then by the page.
///
/// # Errors
///
/// An error if the host's memory ran out.
pub fn races(alloc: Global, history: &History, most: usize) -> Result<Races, AllocError>
    ensures total { IfOk result (λ races. races.total ≡ length (races_of history.now)) }
    ensures first { IfOk result (λ races. races.first ≡ take most (races_of history.now)) }
{
    let setup = history.setup();
    let map = setup.page_map(alloc)?;
    let pages = map.len();
    drop(map);
    let steps = steps_of(alloc, history, pages)?;
    let mut past = none_past(alloc, pages)?;
    let mut total: u64 = 0;
    let mut first = FirstRaces::new(alloc, most);
    for place in 0..steps.len() {
        let step = &steps[place];
        for touch in &step.touches {
            let page = &mut past[touch.slot];
            total += first.add(page, step, place, *touch)? as u64;
            page.add(alloc, Access::of(step, place, touch.writes))?;
        }
        first.trim();
        first.open(alloc, place)?;
    }
    Ok(Races {
        total,
        first: RaceList::new(first.listed(alloc)?),
    })
}
