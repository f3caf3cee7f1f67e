//! A round, and what can be read of it.

ghost use Rattle.std.specs.Prelude.{◌≡◌, ◌<◌, true, false, length, is_some, option_map, slice_get, Some, None, Decides, IfOk, OnOk, OnErr};
ghost use Rattle.std.specs.Bool.{OnTrue};
ghost use Rattle.std.specs.Arc.{arc_value};
ghost use Rattle.machine_spec.specs.Setup.{IsSetup, first};
ghost use Rattle.history_spec.specs.History.{History as OldHistory, IsHonest, IsSound, IsMapped, found, is_coherent};
ghost use Rattle.report_spec.specs.Report.{instructions_from};
ghost use Rattle.round_spec.specs.Rounds.{none_in_flight, nothing_taken, opening, is_finished, is_in_flight, history_of};
ghost use Rattle.round_spec.specs.Instructions.{executed_instructions};
ghost use Rattle.propagate.specs.Consistency.{IsOfMap, IsValid, AreFactsOf, IsRight, IsFound};
ghost use Rattle.known_pages.specs.Versions.{AreRight, IsComparable, unboxed};

use depend_graph::Graph;
use guest_call::THREADS;
use history_facts::{HistoryFacts, facts, graph_of};
use known_pages::{Versions, marks_at_start, steps_of};
use machine_spec::End;
use page_store::PageTable;
use release_core::Core;
use report_spec::Entry;
use run_history::{History, Records, Setup};
use std::alloc::{AllocError, Global};
use std::marker::Model;
use std::sync::Arc;
use thunk_record::Record;

/// A round so far: its setup, the history that it is based on, the machine, the steps with their records and with when
/// each was picked, which threads are in flight and since when, and how many steps were discarded. A clause sees a
/// `RoundState` of `round_spec`. While the round continues as the history did, it also has marks, by slot, on the pages
/// that may differ: a record that read no marked page fits without a comparison of pages. After that it has, as far as
/// it is known, which versions of the history's pages its own are. It also has which steps of the history depend on
/// which, unless it continues as the history did and no thread is in flight: then the history's next step is due.
#[derive(Drop)]
pub struct Round {
    pub(super) setup: Setup,
    pub(super) past: Option<Arc<History>>,
    pub(super) graph: Option<Graph>,
    pub(super) core: Core,
    pub(super) schedule: Vec<Entry>,
    pub(super) records: Records,
    pub(super) picked: Vec<u32>,
    pub(super) in_flight: [bool; THREADS],
    pub(super) taken_at: [u32; THREADS],
    pub(super) discarded: u64,
    pub(super) stopped: bool,
    pub(super) instructions: u64,
    pub(super) marks: Option<Vec<bool>>,
    pub(super) versions: Option<Box<Versions>>,
}

impl Model for Round {
    ghost use Rattle.std.specs.Prelude.{option_map};
    ghost use Rattle.std.specs.Arc.{arc_value};
    ghost use Rattle.round_spec.specs.Rounds.{RoundState};
    ghost use Rattle.propagate.specs.Consistency.{IsConsistent};
    ghost use Rattle.known_pages.specs.Versions.{unboxed};

    ghost Value = { RoundState };

    ghost view = { λ r. record {
      setup = r.setup;
      past = option_map arc_value r.past;
      machine = r.core;
      schedule = r.schedule.items;
      records = r.records;
      picked = r.picked.items;
      in_flight = r.in_flight;
      taken_at = r.taken_at;
      discarded = r.discarded;
      stopped = r.stopped;
    } };

    ghost invariant = { λ r. IsConsistent (view r) r.instructions r.graph r.marks (unboxed r.versions) };
}

/// No thread is in flight.
#[tactic(auto, unfolding(round_spec::specs::Rounds::none_in_flight))]
fn none_in_flight() -> [bool; THREADS]
    ensures { result ≡ none_in_flight }
{
    [false; THREADS]
}

/// No length of the schedule is kept for any thread.
#[tactic(auto, unfolding(round_spec::specs::Rounds::nothing_taken))]
fn nothing_taken() -> [u32; THREADS]
    ensures { result ≡ nothing_taken }
{
    [0; THREADS]
}

/// Finds which steps of a history depend on which, if that is needed and not yet known.
pub(super) fn find_facts(
    alloc: Global,
    past: &Option<Arc<History>>,
    graph: &mut Option<Graph>,
    needed: bool,
) -> Result<(), AllocError>
    requires right { IsRight (option_map arc_value past.now) graph.old }
    ensures found { OnOk result (IsFound needed (option_map arc_value past.now) graph.old graph.new) }
    ensures err { OnErr result (graph.new ≡ graph.old) }
{
    if needed && graph.is_none() {
        let found = match past {
            Some(history) => graph_of(alloc, history)?,
            None => Graph::of(alloc, Vec::new(alloc))?,
        };
        *graph = Some(found);
    }
    Ok(())
}

/// Whether a history, if there is one, is coherent, and which of its steps depend on which, unless it is already known
/// to be coherent.
fn first_look(
    alloc: Global,
    past: &Option<Arc<History>>,
) -> Result<(Option<Graph>, bool), AllocError>
    ensures right { IfOk result (λ found. IsRight (option_map arc_value past.now) found.0) }
    ensures coherent { IfOk result (λ found. (h : OldHistory) → option_map arc_value past.now ≡ Some h
        → found.1 ≡ is_coherent h) }
{
    match past {
        Some(history) if history.is_known_coherent() => Ok((None, true)),
        Some(history) => {
            let HistoryFacts { facts, coherent } = facts(alloc, history)?;
            Ok((Some(Graph::of(alloc, facts)?), coherent))
        }
        None => Ok((None, false)),
    }
}

impl Round {
    /// The round of a setup, based on an earlier run's history if there is one, before its first step.
    ///
    /// # Errors
    ///
    /// An error if the host's memory ran out, or a shared part has as many holders as can be counted.
    #[tactic(auto, using(crate::proofs::Keeping::kept_opening))]
    pub fn new(alloc: Global, setup: Setup, past: Option<Arc<History>>) -> Result<Round, AllocError>
        ensures round { IfOk result (λ round. round ≡ opening setup (option_map arc_value past)) }
        ensures sound { IfOk result (λ _. IsSetup setup) }
    {
        let core = Core::new(alloc, &setup)?;
        let (mut graph, coherent) = first_look(alloc, &past)?;
        let marks = marks_at_start(alloc, &past, coherent, &setup, core.memory())?;
        find_facts(alloc, &past, &mut graph, marks.is_none())?;
        Ok(Round {
            setup,
            past,
            graph,
            core,
            schedule: Vec::new(alloc),
            records: Records::new(alloc),
            picked: Vec::new(alloc),
            in_flight: none_in_flight(),
            taken_at: nothing_taken(),
            discarded: 0,
            stopped: false,
            instructions: 0,
            marks,
            versions: None,
        })
    }

    /// Its setup.
    pub fn setup(&self) -> &Setup
        ensures { result.now ≡ self.now.setup }
    {
        &self.setup
    }

    /// The record of thread `t` and this number in the history that it is based on, if there is one. The records of
    /// this history have their pages in its own map.
    pub fn old_record(&self, t: u8, number: u32) -> Option<&Arc<Record>>
        ensures record { option_map (λ r. arc_value r.now) result ≡ found self.now.past t number }
        ensures mapped { (h : OldHistory) → self.now.past ≡ Some h → IsMapped h }
    {
        match &self.past {
            Some(history) => history.find(t, number),
            None => None,
        }
    }

    /// The history that it is based on, if there is one.
    pub fn past(&self) -> Option<&Arc<History>>
        ensures { option_map (λ h. arc_value h.now) result ≡ self.now.past }
    {
        self.past.as_ref()
    }

    /// The steps so far, with their marks.
    #[tactic(auto, using(crate::proofs::Keeping::valid_consistent))]
    pub fn schedule(&self) -> &[Entry]
        ensures schedule { result.now ≡ self.now.schedule }
        ensures valid { IsValid self.now }
    {
        self.schedule.as_slice()
    }

    /// How it ended, if it has.
    #[tactic(auto, using(crate::proofs::Keeping::valid_consistent))]
    pub fn end(&self) -> Option<End>
        ensures ending { result ≡ self.now.machine.ending }
        ensures valid { IsValid self.now }
    {
        self.core.ended()
    }

    /// Whether it was stopped.
    pub fn stopped(&self) -> bool
        ensures { result ≡ self.now.stopped }
    {
        self.stopped
    }

    /// How many instructions the executed steps made. If the round is based on a sound history, its report gives this
    /// number.
    #[tactic(auto, using(crate::proofs::Keeping::reported))]
    pub fn instructions(&self) -> u64
        ensures executed { result ≡ executed_instructions self.now.schedule self.now.records }
        ensures reported { IsSound self.now.past self.now.setup
            → result ≡ instructions_from (first self.now.setup) self.now.schedule }
    {
        self.instructions
    }

    /// How many taken steps were discarded, counted up to 2 ^ 64 - 1.
    pub fn discarded(&self) -> u64
        ensures { result ≡ self.now.discarded }
    {
        self.discarded
    }

    /// The output so far.
    pub fn output(&self) -> &[u8]
        ensures { result.now ≡ self.now.machine.output }
    {
        self.core.output()
    }

    /// Shared memory.
    pub fn memory(&self) -> &PageTable
        ensures { result.now ≡ self.now.machine.memory }
    {
        self.core.memory()
    }

    /// The record of an entry.
    #[tactic(auto, using(crate::proofs::Keeping::record_count))]
    pub fn entry(&self, i: usize) -> &Arc<Record>
        requires { i < length self.now.schedule }
        ensures { slice_get self.now.records i ≡ Some (arc_value result.now) }
    {
        self.records.at(i)
    }

    /// Whether it is finished: the machine has an end, or the round was stopped.
    #[tactic(auto, using(crate::proofs::Keeping::valid_consistent))]
    pub fn is_finished(&self) -> bool
        ensures over { result ≡ is_finished self.now }
        ensures valid { IsValid self.now }
    {
        self.core.ended().is_some() || self.stopped
    }

    /// Whether thread `t` is in flight: its next step was taken.
    #[tactic(auto, using(crate::proofs::Keeping::valid_consistent))]
    pub fn is_in_flight(&self, t: u8) -> bool
        ensures in_flight { result ≡ is_in_flight self.now t }
        ensures valid { IsValid self.now }
    {
        match self.in_flight.get(usize::from(t)) {
            Some(flag) => *flag,
            None => false,
        }
    }

    /// Whether the history that it is based on, if there is one, has the page map of its setup. If so, all its own
    /// records have their slots in that map.
    #[tactic(auto, using(crate::proofs::Mapped::same_image, crate::proofs::Mapped::all_mapped))]
    fn has_same_map(&self) -> bool
        ensures same { Decides result (IsOfMap self.now.past self.now.setup) }
        ensures mapped { OnTrue result (IsMapped (history_of self.now)) }
    {
        match &self.past {
            Some(history) => history.setup().image().map == self.setup.image().map,
            None => true,
        }
    }

    /// Whether versions can be found: the round has continued as its history did, which has the round's page map and
    /// fuel, and none are known.
    fn can_find_versions(&self, history: &History) -> bool
        requires { self.now.past ≡ Some history.now }
        ensures { result ≡ true → IsComparable self.now history.now }
    {
        match &self.marks {
            Some(_) if self.versions.is_none() => {
                history.setup().fuel() == self.setup.fuel() && self.has_same_map()
            }
            _ => false,
        }
    }

    /// Initial versions, all unknown, if they are needed and can be found; else none.
    ///
    /// # Errors
    ///
    /// An error if the host's memory ran out.
    pub(super) fn first_versions(&self, needed: bool) -> Result<Option<Box<Versions>>, AllocError>
        ensures { IfOk result (λ versions. AreRight self.now (unboxed versions)) }
    {
        match (&self.past, &self.graph) {
            (Some(history), Some(graph)) if needed && self.can_find_versions(history) => {
                let alloc = *self.schedule.allocator();
                let pages = self.core.memory().len();
                let steps = steps_of(alloc, history, graph, pages)?;
                let versions = Versions::new(alloc, steps, pages, self.entries())?;
                Ok(Some(Box::new(alloc, versions)?))
            }
            _ => Ok(None),
        }
    }

    /// Its setup, and the records of its steps.
    fn into_steps(self) -> (Setup, Records)
        ensures { history_of self ≡ record { setup = result.0; records = result.1 } }
    {
        let Round { setup, records, .. } = self;
        (setup, records)
    }

    /// The history that the next round is based on: its setup, and the records of its steps. There is none if its own
    /// history has another page map than its setup, which no sound history has. Allocates nothing. If the round is
    /// based on a sound history and has an end, the result is honest.
    #[tactic(auto, using(crate::proofs::Keeping::left_honest, crate::proofs::Mapped::sound_map))]
    pub fn into_history(self) -> Option<History>
        ensures same { IsOfMap self.past self.setup → result ≡ Some (history_of self) }
        ensures other { (IsOfMap self.past self.setup → ⊥) → result ≡ None }
        ensures sound { IsSound self.past self.setup → result ≡ Some (history_of self) }
        ensures honest { IsSound self.past self.setup → is_some self.machine.ending ≡ true
            → IsHonest (history_of self) }
    {
        let same_map = self.has_same_map();
        let has_end = self.core.ended().is_some();
        let (setup, records) = self.into_steps();
        if !same_map {
            return None;
        }
        let history = History::new(setup, records);
        if has_end {
            Some(history.known_coherent())
        } else {
            Some(history)
        }
    }

    /// Its setup and the history that it is based on, to make the round from its start again. Allocates nothing.
    pub fn into_setup(self) -> (Setup, Option<Arc<History>>)
        ensures setup { result.0 ≡ self.setup }
        ensures past { option_map arc_value result.1 ≡ self.past }
    {
        let Round { setup, past, .. } = self;
        (setup, past)
    }
}
