//! What the facts of steps need of the machine to which their records are applied: no page, and no register.

ghost use Rattle.std.specs.Prelude.{◌≡◌, ◌<◌, ◌≤◌, ◌+◌, ℕ, if◌then◌else◌, slice_index, slice_set, is_some, IfOk};
ghost use Rattle.sync_objects.specs.Acting.{objects_in};
ghost use Rattle.machine_spec.specs.Machine.{Machine};
ghost use Rattle.machine_spec.specs.Setup.{IsSetup, first};
ghost use Rattle.machine_spec.specs.Step as step;
ghost use Rattle.history_spec.specs.Facts as order;
ghost use Rattle.history_facts.specs.Outlining.{numbered, IsOutlineOf, MayBeApplied};

use super::asking::{CallResult, act, call_of};
use super::serving::served;
use super::slots::{push_read, written};
use depend_graph::Fact;
use guest_call::THREADS;
use machine_spec::MOST_STEPS;
use page_store::PageMap;
use run_history::{Records, Setup};
use std::alloc::{AllocError, Global};
use sync_objects::{ActedOn, Effect, Objects};
use thunk_record::Record;

/// What the facts of steps need of a machine: its page map and its objects, how many threads it has, and how many steps
/// each of them has made.
#[derive(Drop)]
pub struct Outline {
    map: PageMap,
    objects: Objects,
    threads: u8,
    numbers: [u32; THREADS],
}

/// The slots of the pages that the next thunks of some threads have read, as far as there are records of these thunks.
/// `numbers` has how many steps each thread has made.
fn opened(
    alloc: Global,
    records: &Records,
    numbers: &[u32],
    threads: &[u8],
) -> Result<Vec<usize>, AllocError>
    ensures { IfOk result (λ slots. slots.items
        ≡ numbered (order.reads_in records.now) numbers.now threads.now) }
{
    let mut slots = Vec::new(alloc);
    for t in threads {
        let number = numbers.get(usize::from(*t)).copied().unwrap_or(0);
        if let Some(rec) = records.find(*t, number) {
            push_read(&mut slots, rec)?;
        }
    }
    Ok(slots)
}

impl Outline {
    /// The outline of the machine that a setup starts as.
    ///
    /// # Errors
    ///
    /// An error if the host's memory ran out.
    pub fn new(alloc: Global, setup: &Setup) -> Result<Outline, AllocError>
        ensures outline { IfOk result (IsOutlineOf (first setup.now)) }
        ensures sound { IfOk result (λ _. IsSetup setup.now) }
    {
        Ok(Outline {
            map: setup.page_map(alloc)?,
            objects: Objects::new(alloc)?,
            threads: 1,
            numbers: [0; THREADS],
        })
    }

    /// Performs the call of a record that may be applied to a machine with this outline.
    fn call(&mut self, rec: &Record) -> CallResult
        requires { (m : Machine) × MayBeApplied m self.old rec.now }
        ensures stays { (m : Machine) → MayBeApplied m self.old rec.now
            → self.new ≡ record self.old {
              objects = (order.acted m rec.now.thread (order.ask_of rec.now)).1;
            } }
        ensures objects { (m : Machine) → MayBeApplied m self.old rec.now →
            objects_in result.objects ≡ order.objects_of m rec.now }
        ensures created { (m : Machine) → MayBeApplied m self.old rec.now →
            result.effect.created ≡ (order.effect_of m rec.now).created }
        ensures effect { (m : Machine) → MayBeApplied m self.old rec.now → (n : ℕ) →
            order.served result.effect rec.now.thread n
            ≡ order.served (order.effect_of m rec.now) rec.now.thread n }
    {
        match call_of(rec) {
            Some(call) => act(&self.map, &mut self.objects, rec.thread(), call),
            None => CallResult {
                objects: ActedOn::Nothing,
                effect: Effect::exits(0),
            },
        }
    }

    /// Counts a step of a thread, and the thread that begins with it, if one does.
    fn count(&mut self, t: u8, begins: bool)
        requires exists { t < THREADS }
        requires few { slice_index self.old.numbers t ≤ MOST_STEPS }
        requires room { self.old.threads ≤ THREADS }
        ensures { self.new ≡ record self.old {
          threads = self.old.threads + (if begins then 1 else 0);
          numbers = slice_set self.old.numbers t (slice_index self.old.numbers t + 1);
        } }
    {
        self.threads += u8::from(begins);
        self.numbers[usize::from(t)] += 1;
    }

    /// Performs the request of a record that may be applied to a machine with this outline. The outline is then that of
    /// the machine after the record.
    fn perform(&mut self, rec: &Record) -> CallResult
        requires { (m : Machine) × MayBeApplied m self.old rec.now }
        ensures outline { (m : Machine) → MayBeApplied m self.old rec.now
            → IsOutlineOf (step.apply m rec.now) self.new }
        ensures objects { (m : Machine) → MayBeApplied m self.old rec.now →
            objects_in result.objects ≡ order.objects_of m rec.now }
        ensures effect { (m : Machine) → MayBeApplied m self.old rec.now → (n : ℕ) →
            order.served result.effect rec.now.thread n
            ≡ order.served (order.effect_of m rec.now) rec.now.thread n }
    {
        let done = self.call(rec);
        self.count(rec.thread(), done.effect.created().is_some());
        done
    }

    /// The fact of the step of a record that may be applied to a machine with this outline. `records` are those of the
    /// history, and `last` is whether an end comes after the step. The outline is then that of the machine after the
    /// step, also after an error.
    ///
    /// # Errors
    ///
    /// An error if the host's memory ran out.
    pub fn next(
        &mut self,
        alloc: Global,
        records: &Records,
        rec: &Record,
        last: bool,
    ) -> Result<Fact, AllocError>
        requires { (m : Machine) × MayBeApplied m self.old rec.now }
        ensures outline { (m : Machine) → MayBeApplied m self.old rec.now
            → IsOutlineOf (step.apply m rec.now) self.new }
        ensures says { IfOk result (λ fact. (m : Machine) → MayBeApplied m self.old rec.now →
            last ≡ is_some (step.apply m rec.now).ending
            → fact ≡ order.fact_of (order.reads_in records.now) m rec.now) }
    {
        let next = self.threads;
        let done = self.perform(rec);
        let given = served(alloc, &done.effect, rec.thread(), next)?;
        let opened = opened(alloc, records, &self.numbers, given.as_slice())?;
        Ok(Fact {
            thread: rec.thread(),
            objects: done.objects,
            given,
            written: written(alloc, rec)?,
            opened,
            last,
        })
    }
}
