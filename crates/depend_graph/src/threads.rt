//! Clocks by thread.

ghost use Rattle.std.specs.Prelude.{◌≡◌, ◌≢◌, ℕ, ◌<◌, true, false, max, slice_index};
ghost use Rattle.history_spec.specs.Before.{is_in};
ghost use Rattle.depend_graph.specs.Clocks.{thread_clock, largest_below, IsLargerOf};

use super::clock::Clock;
use guest_call::THREADS;

/// A clock for each thread.
#[derive(Drop)]
pub struct ThreadClocks {
    clocks: [Clock; THREADS],
}

impl ThreadClocks {
    /// No clock was joined to any.
    pub fn new() -> ThreadClocks
        ensures { (t u : ℕ) → slice_index (thread_clock result t) u ≡ 0 }
    {
        ThreadClocks {
            clocks: [Clock::zero(); THREADS],
        }
    }

    /// Joins the clock of thread `t` into another.
    pub fn join_into(&self, t: u8, clock: &mut Clock)
        requires { t < THREADS }
        ensures { IsLargerOf clock.new clock.old (thread_clock self.now t) }
    {
        clock.join(&self.clocks[usize::from(t)]);
    }

    /// Joins the clocks of all threads into another.
    pub fn join_all_into(&self, clock: &mut Clock)
        ensures { (u : ℕ) → slice_index clock.new u
            ≡ max (slice_index clock.old u) (largest_below (thread_clock self.now) THREADS u) }
    {
        for t in 0..THREADS {
            self.join_into(t as u8, clock);
        }
    }

    /// Joins a clock to that of thread `t`.
    pub fn add(&mut self, t: u8, clock: &Clock)
        requires { t < THREADS }
        ensures at { IsLargerOf (thread_clock self.new t) (thread_clock self.old t) clock.now }
        ensures others { (u : ℕ) → u ≢ t → thread_clock self.new u ≡ thread_clock self.old u }
    {
        self.clocks[usize::from(t)].join(clock);
    }

    /// Clears the clock of thread `t`: it counts no step.
    pub fn clear(&mut self, t: u8)
        requires { t < THREADS }
        ensures at { (u : ℕ) → slice_index (thread_clock self.new t) u ≡ 0 }
        ensures others { (u : ℕ) → u ≢ t → thread_clock self.new u ≡ thread_clock self.old u }
    {
        self.clocks[usize::from(t)] = Clock::zero();
    }

    /// Joins a clock to those of some threads. Skips a number that no thread has.
    pub fn add_each(&mut self, threads: &[u8], clock: &Clock)
        ensures at { (u : ℕ) → u < THREADS → is_in u threads.now ≡ true
            → IsLargerOf (thread_clock self.new u) (thread_clock self.old u) clock.now }
        ensures others { (u : ℕ) → is_in u threads.now ≡ false
            → thread_clock self.new u ≡ thread_clock self.old u }
    {
        for t in threads {
            if usize::from(*t) < THREADS {
                self.add(*t, clock);
            }
        }
    }
}
