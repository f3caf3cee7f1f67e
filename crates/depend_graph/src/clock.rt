//! Vector clocks: how many steps of each thread come up to a point. No function allocates memory.

ghost use Rattle.std.specs.Prelude.{◌≡◌, ℕ, ◌+◌, ◌<◌, ◌≤◌, ◌↔◌, max, length, slice_index, slice_set, IsTrue};

use guest_call::THREADS;
use machine_spec::MOST_STEPS;
use std::marker::Model;
use std::simd::prelude::*;

/// A count of steps for each thread. A clause sees the list of the counts.
#[derive(Clone, Copy, PartialEq, Eq)]
pub struct Clock {
    counts: [u32; THREADS],
}

impl Model for Clock {
    ghost use Rattle.std.specs.Prelude.{◌≡◌, ℕ, List, length};
    ghost use Rattle.std.specs.Coded.{coded_ℕ, coded_list};
    ghost use Rattle.guest_call.specs.declared.thread_number.TheConstants.{THREADS};

    ghost Value = { List ℕ };

    ghost coded = { coded_list coded_ℕ };

    ghost view = { λ c. c.counts };

    ghost inverse = { λ counts. record { counts = counts } };

    ghost invariant = { λ c. length c.counts ≡ THREADS };
}

impl Clock {
    /// The clock of these counts.
    pub fn new(counts: [u32; THREADS]) -> Clock
        ensures { result ≡ counts }
    {
        Clock { counts }
    }

    /// The clock that counts no step.
    pub fn zero() -> Clock
        ensures { (t : ℕ) → slice_index result t ≡ 0 }
    {
        Clock {
            counts: [0; THREADS],
        }
    }

    /// The count of thread `t`.
    pub fn count(&self, t: u8) -> u32
        requires { t < THREADS }
        ensures { result ≡ slice_index self.now t }
    {
        self.counts[usize::from(t)]
    }

    /// Raises each thread's count to the other clock's, if that is larger.
    pub fn join(&mut self, other: &Clock)
        ensures count { length self.new ≡ THREADS }
        ensures larger { (t : ℕ)
            → slice_index self.new t ≡ max (slice_index self.old t) (slice_index other.now t) }
    {
        let theirs = u32x32::from_array(other.counts);
        self.counts = u32x32::from_array(self.counts).simd_max(theirs).to_array();
    }

    /// Whether no count of the other is above this clock's.
    pub fn covers(&self, other: &Clock) -> bool
        ensures count { length other.now ≡ THREADS }
        ensures covers { IsTrue result
            ↔ ((t : ℕ) → slice_index other.now t ≤ slice_index self.now t) }
    {
        let theirs = u32x32::from_array(other.counts);
        let mine = u32x32::from_array(self.counts);
        theirs.simd_le(mine).all()
    }

    /// Counts one more step of thread `t`, whose count is below the most steps of a run.
    pub fn tick(&mut self, t: u8)
        requires thread { t < THREADS }
        requires room { slice_index self.old t < MOST_STEPS }
        ensures count { length self.old ≡ THREADS }
        ensures more { self.new ≡ slice_set self.old t (slice_index self.old t + 1) }
    {
        self.counts[usize::from(t)] += 1;
    }
}
