//! Clocks by page.

ghost use Rattle.std.specs.Prelude.{◌≡◌, ◌≢◌, ℕ, true, false, max, slice_index, OnOk};
ghost use Rattle.history_spec.specs.Before.{is_in};
ghost use Rattle.depend_graph.specs.Clocks.{page_clock, largest_at, IsLargerOf};

use super::clock::Clock;
use std::alloc::{AllocError, Global};
use std::collections::BTreeMap;

/// A clock for each page, by its slot.
#[derive(Drop)]
pub struct PageClocks {
    clocks: BTreeMap<usize, Clock>,
}

impl PageClocks {
    /// No clock was joined to any. Allocates no memory.
    pub fn new(alloc: Global) -> PageClocks
        ensures { (p u : ℕ) → slice_index (page_clock result p) u ≡ 0 }
    {
        PageClocks {
            clocks: BTreeMap::new(alloc),
        }
    }

    /// Joins the clock of a page into another.
    fn join_one_into(&self, slot: usize, clock: &mut Clock)
        ensures { IsLargerOf clock.new clock.old (page_clock self.now slot) }
    {
        if let Some(own) = self.clocks.get(&slot) {
            clock.join(own);
        }
    }

    /// Joins the clocks of some pages into another.
    #[tactic(auto, using(crate::proofs::Largest::largest_more))]
    pub fn join_into(&self, slots: &[usize], clock: &mut Clock)
        ensures { (u : ℕ) → slice_index clock.new u
            ≡ max (slice_index clock.old u) (largest_at (page_clock self.now) slots.now u) }
    {
        for slot in slots {
            self.join_one_into(*slot, clock);
        }
    }

    /// Joins a clock to that of a page.
    fn add_one(&mut self, slot: usize, clock: &Clock) -> Result<(), AllocError>
        ensures at { OnOk result
            (IsLargerOf (page_clock self.new slot) (page_clock self.old slot) clock.now) }
        ensures others { (p : ℕ)
            → OnOk result (p ≢ slot → page_clock self.new p ≡ page_clock self.old p) }
    {
        match self.clocks.get_mut(&slot) {
            Some(own) => own.join(clock),
            None => {
                self.clocks.insert(slot, *clock)?;
            }
        }
        Ok(())
    }

    /// Joins a clock to those of some pages.
    pub fn add(&mut self, slots: &[usize], clock: &Clock) -> Result<(), AllocError>
        ensures at { (p : ℕ) → OnOk result (is_in p slots.now ≡ true
            → IsLargerOf (page_clock self.new p) (page_clock self.old p) clock.now) }
        ensures others { (p : ℕ) → OnOk result (is_in p slots.now ≡ false
            → page_clock self.new p ≡ page_clock self.old p) }
    {
        for slot in slots {
            self.add_one(*slot, clock)?;
        }
        Ok(())
    }
}
