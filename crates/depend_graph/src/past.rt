//! What the clocks of later steps need of the steps so far.

ghost use Rattle.std.specs.Prelude.{◌≡◌, ◌+◌, ◌<◌, ◌≤◌, ℕ, max, List, All, length, slice_index, OnOk, if◌then◌else◌};
ghost use Rattle.history_spec.specs.Facts.{Fact as StepFact};
ghost use Rattle.history_spec.specs.Before.{before_at};
ghost use Rattle.depend_graph.specs.Clocks.{thread_clock, largest_below};
ghost use Rattle.depend_graph.specs.Joins.{IsJoinOf, IsClockOf};
ghost use Rattle.depend_graph.specs.Past.{IsPastOf};

use super::clock::Clock;
use super::fact::Fact;
use super::graph::MOST_FACTS;
use super::objects::ObjectClocks;
use super::pages::PageClocks;
use super::threads::ThreadClocks;
use guest_call::THREADS;
use std::alloc::{AllocError, Global};

/// The clocks of the steps so far, joined by what they did.
#[derive(Drop)]
pub struct Past {
    /// By thread, of its steps.
    threads: ThreadClocks,
    /// By thread, of the steps that gave its next thunk a view.
    givers: ThreadClocks,
    /// By object, of the steps that acted on it.
    objects: ObjectClocks,
    /// By page, of the steps that wrote it.
    writers: PageClocks,
    /// By page, of the steps that opened it.
    openers: PageClocks,
}

impl Past {
    /// No step yet. Allocates no memory.
    pub fn new(alloc: Global) -> Past
        ensures { (facts : List StepFact) → IsPastOf facts 0 result }
    {
        Past {
            threads: ThreadClocks::new(),
            givers: ThreadClocks::new(),
            objects: ObjectClocks::new(alloc),
            writers: PageClocks::new(alloc),
            openers: PageClocks::new(alloc),
        }
    }

    /// Joins the clocks of all steps into another, if it is that of the last step.
    fn join_if_last(&self, last: bool, clock: &mut Clock)
        ensures { (u : ℕ) → slice_index clock.new u ≡ max (slice_index clock.old u)
            (if last then largest_below (thread_clock self.now.threads) THREADS u else 0) }
    {
        if last {
            self.threads.join_all_into(clock);
        }
    }

    /// The joined clocks of the steps that must come directly before the one at place `n`.
    fn joined(&self, facts: &[Fact], n: usize) -> Clock
        requires in_range { n < length facts.now }
        requires threads { All (λ (f : StepFact). f.thread < THREADS) facts.now }
        requires past { IsPastOf facts.now n self.now }
        ensures { IsJoinOf facts.now (λ i. before_at facts.now i n) n result }
    {
        let fact = &facts[n];
        let mut clock = Clock::zero();
        self.threads.join_into(fact.thread, &mut clock);
        self.givers.join_into(fact.thread, &mut clock);
        self.objects.join_into(fact.objects, &mut clock);
        self.writers.join_into(&fact.written, &mut clock);
        self.writers.join_into(&fact.opened, &mut clock);
        self.openers.join_into(&fact.written, &mut clock);
        self.join_if_last(fact.last, &mut clock);
        clock
    }

    /// The clock of the step at place `n`, if this is the past of the steps before it.
    pub fn clock_of(&self, facts: &[Fact], n: usize) -> Clock
        requires in_range { n < length facts.now }
        requires few { length facts.now ≤ MOST_FACTS }
        requires threads { All (λ (f : StepFact). f.thread < THREADS) facts.now }
        requires past { IsPastOf facts.now n self.now }
        ensures { IsClockOf facts.now n result }
    {
        let fact = &facts[n];
        let mut clock = self.joined(facts, n);
        clock.tick(fact.thread);
        clock
    }

    /// Adds the step at place `n`, which has this clock.
    ///
    /// # Errors
    ///
    /// An error if the host's memory ran out.
    pub fn add(&mut self, facts: &[Fact], n: usize, clock: &Clock) -> Result<(), AllocError>
        requires in_range { n < length facts.now }
        requires threads { All (λ (f : StepFact). f.thread < THREADS) facts.now }
        requires past { IsPastOf facts.now n self.old }
        requires clock { IsClockOf facts.now n clock.now }
        ensures { OnOk result (IsPastOf facts.now (n + 1) self.new) }
    {
        let fact = &facts[n];
        self.objects.add(fact.objects, clock)?;
        self.writers.add(&fact.written, clock)?;
        self.openers.add(&fact.opened, clock)?;
        self.threads.add(fact.thread, clock);
        self.givers.clear(fact.thread);
        self.givers.add_each(&fact.given, clock);
        Ok(())
    }
}
