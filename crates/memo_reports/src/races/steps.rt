//! The part of each step that decides whether it races.

ghost use Rattle.std.specs.Prelude.{◌≡◌, ◌<◌, ◌≤◌, ℕ, length, slice_index, IfOk};
ghost use Rattle.machine_spec.specs.Setup.{map_of};
ghost use Rattle.history_spec.specs.Facts.{Fact as StepFact, facts as facts_of};
ghost use Rattle.history_spec.specs.Before.{is_in};
ghost use Rattle.round_spec.specs.Reach as reach;
ghost use Rattle.run_history.specs.Records.{AreOfRun};
ghost use Rattle.round_spec.specs.Sync.{sync_facts, seen_at};
ghost use Rattle.memo_reports.specs.Steps.{AreSteps};

use super::touches::{Touch, touches_of};
use depend_graph::{Clock, Fact, Graph};
use guest_call::THREADS;
use history_facts::facts;
use run_history::History;
use std::alloc::{AllocError, Global};

/// The part of a step that decides whether it races.
#[derive(Drop)]
pub struct Step {
    /// Its thread.
    pub thread: u8,
    /// How many steps of its thread come before it.
    pub number: u32,
    /// How many steps of each thread come before its thunk, by threads and objects alone.
    pub seen: Clock,
    /// The pages that it touches, in ascending order.
    pub touches: Vec<Touch>,
}

/// Whether a thread is among some.
fn has_thread(threads: &[u8], t: u8) -> bool
    ensures { result ≡ is_in t threads.now }
{
    threads.iter().any(|other| *other == t)
}

/// One more than the place of the step that gave the thunk at place `i` its view, or 0 if no step did. The search goes
/// back no further than the step of the same thread before.
fn giver_end(facts: &[Fact], i: usize) -> usize
    requires { i < length facts.now }
    ensures end { result ≡ reach.giver_end facts.now i }
    ensures within { result ≤ i }
{
    let own = &facts[i];
    let thread = own.thread;
    let mut end = i;
    while end > 0 {
        let fact = &facts[end - 1];
        if has_thread(&fact.given, thread) {
            return end;
        }
        if fact.thread == thread {
            return 0;
        }
        end -= 1;
    }
    0
}

/// How many steps of each thread come before the thunk at place `i`.
fn seen(graph: &Graph, facts: &[Fact], i: usize) -> Clock
    requires graph { graph.now ≡ sync_facts facts.now }
    requires in_range { i < length facts.now }
    ensures { (t : ℕ) → t < THREADS → slice_index result t ≡ seen_at facts.now i t }
{
    let end = giver_end(facts, i);
    if end == 0 {
        Clock::zero()
    } else {
        *graph.clock(end - 1)
    }
}

/// The part of each step that decides whether it races, for a history that has `pages` pages.
///
/// # Errors
///
/// An error if the host's memory ran out.
pub fn steps_of(alloc: Global, history: &History, pages: usize) -> Result<Vec<Step>, AllocError>
    requires { pages ≡ length (map_of history.now.setup) }
    ensures steps { IfOk result (λ steps.
        AreSteps (facts_of history.now) (reach.reads_of history.now) pages steps.items) }
    ensures of_run { IfOk result (λ _. AreOfRun history.now.records) }
{
    let records = history.records();
    let facts = facts(alloc, history)?.facts;
    let graph = Graph::of_sync(alloc, &facts)?;
    let mut numbers = [0; THREADS];
    let mut steps = Vec::with_capacity(alloc, facts.len())?;
    for i in 0..facts.len() {
        let fact = &facts[i];
        let thread = fact.thread;
        steps.push(Step {
            thread,
            number: numbers[usize::from(thread)],
            seen: seen(&graph, &facts, i),
            touches: touches_of(alloc, records.at(i), pages)?,
        })?;
        numbers[usize::from(thread)] += 1;
    }
    Ok(steps)
}
