//! The graph of a history's steps.

ghost use Rattle.std.specs.Prelude.{◌≡◌, ℕ, ◌<◌, ◌≤◌, All, Some, length, slice_get, slice_index, IfOk};
ghost use Rattle.history_spec.specs.Facts.{Fact as StepFact};
ghost use Rattle.history_spec.specs.Ancestors.{clock_at, edges_at};
ghost use Rattle.round_spec.specs.Reach.{reach as reached_by};
ghost use Rattle.round_spec.specs.Sync.{sync_facts};
ghost use Rattle.depend_graph.specs.Reaching.{slots_of_each};

use super::before::is_before;
use super::clock::Clock;
use super::fact::Fact;
use super::past::Past;
use super::reaching::reach;
use guest_call::THREADS;
use machine_spec::MOST_STEPS;
use std::alloc::{AllocError, Global};
use std::marker::Model;

/// The most steps that a graph can have.
pub const MOST_FACTS: usize = MOST_STEPS as usize;

/// The facts of a history's steps, and the clock of each step. A clause sees the list of the facts.
#[derive(Drop)]
pub struct Graph {
    alloc: Global,
    facts: Vec<Fact>,
    clocks: Vec<Clock>,
}

impl Model for Graph {
    ghost use Rattle.std.specs.Prelude.{List};
    ghost use Rattle.history_spec.specs.Facts.{Fact};
    ghost use Rattle.depend_graph.specs.Joins.{HaveClocks};

    ghost Value = { List Fact };

    ghost view = { λ g. g.facts.items };

    ghost invariant = { λ g. HaveClocks g.facts.items g.clocks.items };
}

impl Graph {
    /// Builds the graph of these facts, in one pass over them.
    ///
    /// # Errors
    ///
    /// An error if the host's memory ran out.
    pub fn of(alloc: Global, facts: Vec<Fact>) -> Result<Graph, AllocError>
        requires few { length facts.items ≤ MOST_FACTS }
        requires threads { All (λ (f : StepFact). f.thread < THREADS) facts.items }
        ensures { IfOk result (λ graph. graph ≡ facts.items) }
    {
        let mut clocks = Vec::with_capacity(alloc, facts.len())?;
        let mut past = Past::new(alloc);
        for i in 0..facts.len() {
            let clock = past.clock_of(&facts, i);
            past.add(&facts, i, &clock)?;
            clocks.push(clock)?;
        }
        Ok(Graph {
            alloc,
            facts,
            clocks,
        })
    }

    /// Builds the graph of these facts by threads and objects alone, in one pass over them. A step comes directly
    /// before a later one if both are of one thread, if it gave the later one's thunk its view, or if both act on one
    /// object.
    ///
    /// # Errors
    ///
    /// An error if the host's memory ran out.
    pub fn of_sync(alloc: Global, facts: &[Fact]) -> Result<Graph, AllocError>
        requires few { length facts.now ≤ MOST_FACTS }
        requires threads { All (λ (f : StepFact). f.thread < THREADS) facts.now }
        ensures { IfOk result (λ graph. graph ≡ sync_facts facts.now) }
    {
        let mut synced = Vec::with_capacity(alloc, facts.len())?;
        for fact in facts {
            synced.push(fact.without_pages(alloc)?)?;
        }
        Graph::of(alloc, synced)
    }

    /// How many steps there are.
    pub fn len(&self) -> usize
        ensures { result ≡ length self.now }
    {
        self.facts.len()
    }

    /// What the step at place `i` does.
    pub fn fact(&self, i: usize) -> &Fact
        requires { i < length self.now }
        ensures { slice_get self.now i ≡ Some result.now }
    {
        &self.facts[i]
    }

    /// The clock of the step at place `i`: how many steps of each thread are that step or must come before it.
    pub fn clock(&self, i: usize) -> &Clock
        requires { i < length self.now }
        ensures { (t : ℕ) → t < THREADS → slice_index result.now t ≡ clock_at self.now i t }
    {
        &self.clocks[i]
    }

    /// The places of the steps that must come directly before the one at place `i`, in ascending order.
    ///
    /// # Errors
    ///
    /// An error if the host's memory ran out.
    pub fn edges(&self, i: usize) -> Result<Vec<usize>, AllocError>
        requires { i < length self.now }
        ensures { IfOk result (λ places. places.items ≡ edges_at self.now i) }
    {
        let mut places = Vec::new(self.alloc);
        for j in 0..i {
            if is_before(&self.facts, j, i) {
                places.push(j)?;
            }
        }
        Ok(places)
    }

    /// Returns for each step whether changed pages reach it, in one pass over the steps. `reads` has the slots of the
    /// pages that each step reads.
    ///
    /// # Errors
    ///
    /// An error if the host's memory ran out.
    pub fn reach(&self, reads: &[Vec<usize>], changed: &[usize]) -> Result<Vec<bool>, AllocError>
        requires { length reads.now ≡ length self.now }
        ensures { IfOk result (λ flags. flags.items
            ≡ reached_by self.now (slots_of_each reads.now) changed.now) }
    {
        reach(self.alloc, &self.facts, reads, changed)
    }
}
