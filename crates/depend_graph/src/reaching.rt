//! Which steps changed pages reach.

ghost use Rattle.std.specs.Prelude.{◌≡◌, ◌≢◌, ◌<◌, ◌≤◌, ◌||◌, ◌&&◌, ℕ, true, false, suc, nat_lt, nat_le, List, All, length, take, map, slice_index, slice_index_or, IfOk, OnOk};
ghost use Rattle.std.specs.List.{list_any};
ghost use Rattle.history_spec.specs.Facts.{Fact as StepFact};
ghost use Rattle.history_spec.specs.Before.{is_in};
ghost use Rattle.round_spec.specs.Reach.{reach};
ghost use Rattle.depend_graph.specs.Reaching.{slots_of_each, shows, led_of, end_of, IsStepMore};

use super::fact::Fact;
use super::graph::MOST_FACTS;
use guest_call::THREADS;
use std::alloc::{AllocError, Global};
use std::collections::BTreeMap;

/// The changes of pages. For each page that shows a change there is a place: a view shows the change if it was given by
/// the step before this place, or later. The place is 0 for a page that is changed itself, and otherwise one more than
/// the place of the first reached step that writes it.
#[derive(Drop)]
pub struct Changes {
    from: BTreeMap<usize, usize>,
}

impl Changes {
    /// No page shows a change. Allocates no memory.
    fn new(alloc: Global) -> Changes
        ensures { (p e : ℕ) → shows result p e ≡ false }
    {
        Changes {
            from: BTreeMap::new(alloc),
        }
    }

    /// Whether a page shows a change in a view that the step before place `end` gave.
    fn shows(&self, slot: usize, end: usize) -> bool
        ensures { result ≡ shows self.now slot end }
    {
        self.from.get(&slot).is_some_and(|from| *from <= end)
    }

    /// Whether one of some pages shows a change in a view that the step before place `end` gave.
    fn any_shows(&self, slots: &[usize], end: usize) -> bool
        ensures { result ≡ list_any (λ p. shows self.now p end) slots.now }
    {
        slots.iter().any(|slot| self.shows(*slot, end))
    }

    /// Notes that a page shows a change from a place on.
    fn add_one(&mut self, slot: usize, from: usize) -> Result<(), AllocError>
        ensures at { (e : ℕ)
            → OnOk result (shows self.new slot e ≡ (shows self.old slot e || nat_le from e)) }
        ensures others { (p e : ℕ)
            → OnOk result (p ≢ slot → shows self.new p e ≡ shows self.old p e) }
    {
        match self.from.get(&slot) {
            Some(earlier) if *earlier <= from => Ok(()),
            _ => {
                self.from.insert(slot, from)?;
                Ok(())
            }
        }
    }

    /// Notes that some pages show a change from a place on.
    fn add(&mut self, slots: &[usize], from: usize) -> Result<(), AllocError>
        ensures { (p e : ℕ) → OnOk result
            (shows self.new p e ≡ (shows self.old p e || (nat_le from e && is_in p slots.now))) }
    {
        for slot in slots {
            self.add_one(*slot, from)?;
        }
        Ok(())
    }
}

/// What later steps need of the steps so far.
#[derive(Drop)]
pub struct Reached {
    /// The changes that they and the start made.
    changes: Changes,
    /// By thread, one more than the place of the step that gave its next thunk a view, or 0 if no step did.
    ends: [usize; THREADS],
    /// By thread, whether its last step is reached.
    led: [bool; THREADS],
}

impl Reached {
    /// The state before the first step, if some pages are changed.
    fn new(alloc: Global, changed: &[usize]) -> Result<Reached, AllocError>
        ensures led { (t : ℕ) → IfOk result (λ past. led_of past t ≡ false) }
        ensures ends { (t : ℕ) → IfOk result (λ past. end_of past t ≡ 0) }
        ensures changed { (p e : ℕ)
            → IfOk result (λ past. shows past.changes p e ≡ is_in p changed.now) }
    {
        let mut changes = Changes::new(alloc);
        changes.add(changed, 0)?;
        Ok(Reached {
            changes,
            ends: [0; THREADS],
            led: [false; THREADS],
        })
    }

    /// Whether the next step, which reads these pages, is reached.
    fn reaches(&self, fact: &Fact, reads: &[usize]) -> bool
        requires { fact.now.thread < THREADS }
        ensures { result ≡ (led_of self.now fact.now.thread
            || list_any
            (λ p. shows self.now.changes p (end_of self.now fact.now.thread)) reads.now) }
    {
        let thread = usize::from(fact.thread);
        self.led[thread] || self.changes.any_shows(reads, self.ends[thread])
    }

    /// Adds a step at a place, which is reached or not.
    fn add(&mut self, fact: &Fact, place: usize, reached: bool) -> Result<(), AllocError>
        requires thread { fact.now.thread < THREADS }
        requires few { place < MOST_FACTS }
        ensures { OnOk result (IsStepMore self.old self.new fact.now place reached) }
    {
        let thread = usize::from(fact.thread);
        if reached {
            self.changes.add(&fact.written, place + 1)?;
        }
        self.led[thread] = reached;
        self.ends[thread] = 0;
        give(&mut self.ends, &fact.given, place + 1);
        Ok(())
    }
}

/// Notes that the step before place `end` gave a view to the next thunks of some threads. Skips a number that no thread
/// has.
fn give(ends: &mut [usize; THREADS], threads: &[u8], end: usize)
    ensures given { (t : ℕ) → t < THREADS → is_in t threads.now ≡ true
        → slice_index ends.new t ≡ end }
    ensures others { (t : ℕ) → is_in t threads.now ≡ false
        → slice_index ends.new t ≡ slice_index ends.old t }
{
    for t in threads {
        if usize::from(*t) < THREADS {
            ends[usize::from(*t)] = end;
        }
    }
}

/// Returns for each step whether changed pages reach it, by what each step reads, in one pass over the steps.
///
/// # Errors
///
/// An error if the host's memory ran out.
pub fn reach(
    alloc: Global,
    facts: &[Fact],
    reads: &[Vec<usize>],
    changed: &[usize],
) -> Result<Vec<bool>, AllocError>
    requires few { length facts.now ≤ MOST_FACTS }
    requires threads { All (λ (f : StepFact). f.thread < THREADS) facts.now }
    requires same { length reads.now ≡ length facts.now }
    ensures { IfOk result (λ flags. flags.items
        ≡ reach facts.now (slots_of_each reads.now) changed.now) }
{
    let mut flags = Vec::with_capacity(alloc, facts.len())?;
    let mut past = Reached::new(alloc, changed)?;
    for i in 0..facts.len() {
        let reached = past.reaches(&facts[i], &reads[i]);
        past.add(&facts[i], i, reached)?;
        flags.push(reached)?;
    }
    Ok(flags)
}
