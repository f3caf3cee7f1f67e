//! Rounds, as definitions, with their laws. No code but plain types and one constant.
//!
//! - What happens to a round at each event, which steps are reused, which thread is due, which is chosen. Whatever
//!   happens, the round is at the machine from scratch, its records are those of the steps, its marks are exact, and
//!   its history is honest. Places and clocks determine which threads are due. Every order in which each step comes
//!   after those that it depends on can be reused whole.
//! - The round of one worker and those of many: the schedule is permitted and complete; the executed instructions are
//!   those of the executed entries; each entry is chosen by the rule; without a history one worker makes the same
//!   schedule as in a run with no earlier run; and if a setup is run again, based on its own honest history, each step
//!   is reused, by any number of workers.
//! - Which steps of a history an edit can reach: the least set of steps that has all that read a changed page and all
//!   that one of the set leads to. A round whose executed steps work as the old ones did executes no others.
//! - Races of a history: which pairs of its steps touch a page without an order by threads and objects.
#![tactic(auto)]

ghost use Rattle.std.specs.Prelude.{◌≡◌, ◌≢◌, ◌<◌, ◌≤◌, ◌⊎◌, ◌↔◌, ℕ, List, [], ◌∷◌, ◌++◌, All, length, slice_set, Option, Some, None, true, false, is_some, sum, ◌&&◌, ◌||◌, nat_lt, Bool, ◌==◌};
ghost use Rattle.std.specs.List.{range_with_len};
ghost use Rattle.thunk_spec.specs.Record.{Record, IsTrue};
ghost use Rattle.machine_spec.specs.Step.{apply, fits};
ghost use Rattle.machine_spec.specs.Whole.{IsWhole};
ghost use Rattle.machine_spec.specs.Machine.{Machine, hart_of};
ghost use Rattle.machine_spec.specs.Choice.{choice, alone};
ghost use Rattle.machine_spec.specs.Setup.{Setup, IsSetup, first, map_of, is_permitted, is_complete};
ghost use Rattle.history_spec.specs.History.{History, IsHonest, IsSameProgram, IsSound, CanGoBy, IsMappedIn, IsMapped, past_records, is_numbered, schedule_of, is_coherent};
ghost use Rattle.report_spec.specs.Report.{instructions_from, threads_of};
ghost use Rattle.history_spec.specs.Facts.{Fact, facts};
ghost use Rattle.history_spec.specs.Before.{fact_at, meets, overlap, before_at};
ghost use Rattle.history_spec.specs.Ancestors.{clock_at, number_at, any_below};
ghost use Rattle.history_spec.specs.Orders.{is_order};
ghost use Rattle.report_spec.specs.declared.Entry.{Entry};
ghost use Rattle.round_spec.specs.declared.events.Event.TheVariants.{Commit};
ghost use Rattle.round_spec.specs.declared.events.Event.{Event};
ghost use Rattle.round_spec.specs.Rounds.{RoundState, none_in_flight, happens, is_in_flight, is_finished, taken_when, round_after, history_of, opening};
ghost use Rattle.round_spec.specs.Schedules.{IsBySchedule, round_by};
ghost use Rattle.round_spec.specs.Choice.{choice_by, pick_of};
ghost use Rattle.round_spec.specs.Alone.{one_worker, guided_from, after_picks, lone_round};
ghost use Rattle.round_spec.specs.Instructions.{executed_instructions};
ghost use Rattle.round_spec.specs.Keeping.{IsCounted, IsFromScratch, IsHeld, IsInOrder};
ghost use Rattle.round_spec.specs.Reordering.{reuses_of, ReusesInOrder};
ghost use Rattle.round_spec.specs.Due.{place_in, has_exited, are_passed_before, is_due};
ghost use Rattle.round_spec.specs.declared.events.Pick.TheVariants as pick;
ghost use Rattle.round_spec.specs.Picking.{ArePicked, IsPickedSoFar};
ghost use Rattle.round_spec.specs.Unedited.{IsUnedited, OnlyReuses};
ghost use Rattle.round_spec.specs.OneWorker.{made_by, executed_in, ReusesAll};
ghost use Rattle.round_spec.specs.Workers.{IsMadeBy, MakeFromScratch};
ghost use Rattle.round_spec.specs.Replaying.{Repeats, IsReplaying, IsNextStep, goes_on_by};
ghost use Rattle.round_spec.specs.Reach.{read_at, comes_to, leads_to, giver_end, is_reached, IsClosedSet, gave_at};
ghost use Rattle.round_spec.specs.Working.{IsSameWork, ReexecutesLeast, IsWithinWork, WorksAsBefore, WorksWithin, AreInTime, ExecutesWhatIsReached};
ghost use Rattle.round_spec.specs.Sync.{sync_facts, seen_at, is_ordered};

mod events;

pub use events::{Event, Pick};

/// The most times that a watcher reads how many steps of a round were made.
pub const MOST_LOOKS: usize = 1_024;

/// Two steps that touch a page without an order, of which one writes it.
#[derive(Clone, Copy)]
pub struct Race {
    /// The place of the earlier step.
    pub earlier: usize,
    /// The place of the later step.
    pub later: usize,
    /// The slot of the page.
    pub slot: usize,
    /// Whether the earlier step writes the page.
    pub earlier_writes: bool,
    /// Whether the later step writes it.
    pub later_writes: bool,
}

/// What holds of every round holds at its start, and after each event: in particular, a thread in flight is still
/// ready, and no record of its next step fits. The history that the round is based on doesn't matter.
pub fn rounds_stay_in_order()
    ensures event { (w : RoundState) (e : Event) → IsInOrder w → IsInOrder (happens w e) }
    ensures events { (setup : Setup) (past : Option History) (events : List Event)
        → IsSetup setup
        → IsInOrder (round_after setup past events) }
    ensures held { (setup : Setup) (past : Option History) (events : List Event) (t : ℕ)
        → IsSetup setup
        → is_in_flight (round_after setup past events) t ≡ true
        → IsHeld (round_after setup past events) t }
{}

/// Committing the step of a thread that is in flight, in a round that isn't finished, is the same as applying a true
/// record of it that fits.
pub fn commit_applies_its_record()
    ensures { (w : RoundState) (r : Record)
        → IsWhole w.machine
        → IsTrue w.machine.frame r.start r.kept
        → is_in_flight w r.thread ≡ true
        → is_finished w ≡ false
        → fits w.machine r ≡ true
        → happens w (Commit r.thread)
        ≡ record w {
          machine = apply w.machine r;
          schedule = w.schedule ++ record { thread = r.thread; reused = false } ∷ [];
          records = w.records ++ r ∷ [];
          picked = w.picked ++ taken_when w r.thread ∷ [];
          in_flight = slice_set w.in_flight r.thread false;
          taken_at = slice_set w.taken_at r.thread 0;
        } }
{}

/// Whatever happens, a round counts right: its machine has made as many steps as the schedule has entries, and each
/// thread as many as it has entries; its records are of the entries' threads, numbered by thread; and the record of a
/// reused entry is the history's own. The history that the round is based on doesn't matter.
pub fn rounds_count_right()
    ensures event { (w : RoundState) (e : Event) → IsInOrder w → IsCounted w
        → IsCounted (happens w e) }
    ensures events { (setup : Setup) (past : Option History) (events : List Event)
        → IsSetup setup
        → IsCounted (round_after setup past events) }
{}

/// Whatever happens, a round is where its schedule leads: that schedule, made entry by entry, comes to the same machine
/// and the same records. So the schedule with marks determines the round, whichever workers made its steps. The history
/// that the round is based on doesn't matter.
pub fn rounds_are_by_their_schedules()
    ensures event { (w : RoundState) (e : Event) → IsInOrder w → IsBySchedule w
        → IsBySchedule (happens w e) }
    ensures events { (setup : Setup) (past : Option History) (events : List Event)
        → IsSetup setup
        → IsBySchedule (round_after setup past events) }
{}

/// Whatever happens, a round keeps its setup and the history that it is based on.
pub fn rounds_stay_of_their_setup()
    ensures setup { (setup : Setup) (past : Option History) (events : List Event)
        → (round_after setup past events).setup ≡ setup }
    ensures past { (setup : Setup) (past : Option History) (events : List Event)
        → (round_after setup past events).past ≡ past }
{}

/// Whatever happens, the records of a round have their slots among the pages of its map, if those of the history that
/// it is based on have. So its own history has its slots in its setup's map.
pub fn rounds_stay_mapped()
    ensures event { (pages : ℕ) (w : RoundState) (e : Event)
        → All (IsMappedIn pages) (past_records w.past)
        → length w.machine.frame.map ≡ pages
        → All (IsMappedIn pages) w.records
        → All (IsMappedIn pages) (happens w e).records }
    ensures events { (setup : Setup) (past : Option History) (events : List Event)
        → All (IsMappedIn (length (map_of setup))) (past_records past)
        → IsMapped (history_of (round_after setup past events)) }
{}

/// Whatever happens to a round that is based on a sound history, or on none: its schedule is permitted, and its machine
/// is the one from scratch under it; its records are those of the steps, and the record of a reused entry is the
/// history's own; and exactly the steps whose record fitted are marked as reused.
pub fn rounds_are_from_scratch()
    ensures { (setup : Setup) (past : Option History) (events : List Event)
        → CanGoBy past setup
        → IsFromScratch (round_after setup past events) }
{}

/// If a round is based on a sound history, or on none, and has an end, its own history is honest, and so sound for the
/// next round of the same program.
pub fn rounds_leave_honest_histories()
    ensures honest { (setup : Setup) (past : Option History) (events : List Event)
        → CanGoBy past setup
        → is_some (round_after setup past events).machine.ending ≡ true
        → IsHonest (history_of (round_after setup past events)) }
    ensures sound { (setup edited : Setup) (past : Option History) (events : List Event)
        → CanGoBy past setup
        → is_some (round_after setup past events).machine.ending ≡ true
        → IsSameProgram setup edited
        → IsSound (Some (history_of (round_after setup past events))) edited }
{}

/// The counts of the records of executed entries add up to the number of instructions in the round's report, if the
/// round is based on a sound history or on none.
pub fn rounds_count_instructions()
    ensures { (setup : Setup) (past : Option History) (events : List Event)
        → CanGoBy past setup
        → executed_instructions (round_after setup past events).schedule
        (round_after setup past events).records
        ≡ instructions_from (first setup) (round_after setup past events).schedule }
{}

/// Without a history, the choice is that of a run with no earlier run, and so is the schedule of one worker.
pub fn no_history_changes_nothing()
    ensures choice { (m : Machine) → choice_by None m none_in_flight ≡ choice m }
    ensures schedule { (setup : Setup) → one_worker setup None ≡ alone setup }
{}

/// If the records of a history are numbered, a thread whose next step has no place in it is due. If the next step has a
/// place, that step is at the place, and the thread is due exactly if all steps that must come before it are passed.
pub fn places_determine_who_is_due()
    ensures absent { (h : History) (m : Machine) (t : ℕ)
        → is_numbered h.records ≡ true
        → place_in (Some h) m t ≡ length h.records
        → is_due (Some h) m t ≡ true }
    ensures present { (h : History) (m : Machine) (t : ℕ)
        → is_numbered h.records ≡ true
        → place_in (Some h) m t < length h.records
        → is_due (Some h) m t ≡ are_passed_before (facts h) m (place_in (Some h) m t) }
    ensures thread { (h : History) (m : Machine) (t : ℕ)
        → is_numbered h.records ≡ true
        → place_in (Some h) m t < length h.records
        → (fact_at (facts h) (place_in (Some h) m t)).thread ≡ t }
    ensures number { (h : History) (m : Machine) (t : ℕ)
        → is_numbered h.records ≡ true
        → place_in (Some h) m t < length h.records
        → number_at (facts h) (place_in (Some h) m t) ≡ (hart_of m t).number }
{}

/// All steps that must come before a thread's next step are passed exactly if each other thread has made as many steps
/// as the step's clock has for it, or has exited.
pub fn clocks_determine_who_is_due()
    ensures { (fs : List Fact) (m : Machine) (j : ℕ)
        → (hart_of m (fact_at fs j).thread).number ≡ number_at fs j
        → (are_passed_before fs m j ≡ true)
        ↔ ((u : ℕ) → u ≢ (fact_at fs j).thread
        → (clock_at fs j u ≤ (hart_of m u).number) ⊎ (has_exited m u ≡ true)) }
{}

/// A round of the same setup can reuse the steps of an honest history in any order in which each comes after all that
/// must come before it: it reuses all of them, and comes to the same end, output and memory.
pub fn every_order_is_reused_whole()
    ensures { (h : History) (places : List ℕ)
        → IsHonest h
        → is_order (facts h) places ≡ true
        → ReusesInOrder h places (round_after h.setup (Some h) (reuses_of h places)) }
{}

/// The schedule that follows the choice is permitted, and leads to an end within the step limit. The round of one
/// worker comes to an end, and discards nothing at any time. The history that it is based on doesn't matter.
pub fn one_worker_comes_to_an_end()
    ensures permitted { (setup : Setup) (past : Option History)
        → IsSetup setup
        → is_permitted setup (one_worker setup past) ≡ true }
    ensures complete { (setup : Setup) (past : Option History)
        → IsSetup setup
        → is_complete setup (one_worker setup past) ≡ true }
    ensures ends { (setup : Setup) (past : Option History)
        → IsSetup setup
        → is_some (lone_round setup past).machine.ending ≡ true }
    ensures discarded { (setup : Setup) (past : Option History) (n : ℕ)
        → IsSetup setup
        → (after_picks n (opening setup past)).discarded ≡ 0 }
{}

/// If the round of one worker is based on a sound history, or on none, it is the one that its schedule makes: no thread
/// is in flight, nothing was discarded, it wasn't stopped, its machine and records are those from scratch, and its
/// marks are exact. The same holds after any number of picks.
pub fn one_worker_makes_its_schedule()
    ensures picks { (setup : Setup) (past : Option History) (n : ℕ)
        → CanGoBy past setup
        → after_picks n (opening setup past)
        ≡ made_by setup past (guided_from past n (first setup)) }
    ensures round { (setup : Setup) (past : Option History)
        → CanGoBy past setup
        → lone_round setup past ≡ made_by setup past (one_worker setup past) }
    ensures threads { (setup : Setup) (past : Option History)
        → CanGoBy past setup
        → threads_of (lone_round setup past).schedule ≡ one_worker setup past }
    ensures scratch { (setup : Setup) (past : Option History)
        → CanGoBy past setup
        → IsFromScratch (lone_round setup past) }
{}

/// What one worker does is one event after the other, whatever history its round is based on. So what holds of every
/// round that events reach holds of its round, after each pick.
pub fn one_worker_does_events()
    ensures { (setup : Setup) (past : Option History) (n : ℕ)
        → (events : List Event)
        × (after_picks n (opening setup past) ≡ round_after setup past events) }
{}

/// One worker makes its round entry by entry: it is the round that its schedule makes. So any number of workers can
/// make the round of that schedule, however its steps are divided among them.
pub fn one_worker_makes_its_entries()
    ensures round { (setup : Setup) (past : Option History)
        → round_by setup past (lone_round setup past).schedule ≡ lone_round setup past }
    ensures made { (workers : ℕ) (setup : Setup) (past : Option History) (worker_steps : List ℕ)
        → IsSetup setup
        → length worker_steps ≡ workers
        → sum worker_steps ≡ length (lone_round setup past).schedule
        → IsMadeBy workers setup past (lone_round setup past).schedule worker_steps }
{}

/// Two or more workers whose numbers of steps add up to the steps of a round made it, if it has an end, it is where its
/// schedule leads, its steps were chosen by the rule if its history is sound or none, and it replays its history if
/// there is no edit. One worker must also follow the choice.
pub fn workers_make_what_comes_to_an_end()
    ensures { (workers : ℕ) (w : RoundState) (worker_steps : List ℕ)
        → 1 < workers
        → IsBySchedule w
        → is_some w.machine.ending ≡ true
        → length worker_steps ≡ workers
        → sum worker_steps ≡ length w.schedule
        → ((h : History) → w.past ≡ Some h → IsUnedited h w.setup → IsReplaying h w)
        → (IsSound w.past w.setup → IsPickedSoFar w)
        → IsMadeBy workers w.setup w.past w.schedule worker_steps }
{}

/// A round that workers make, based on a sound history or on none, is the one that their schedule makes from scratch:
/// the schedule is permitted and complete, machine and records are those from scratch, and the marks are exact. Its own
/// history is honest. One worker's round is the one that follows the choice.
pub fn workers_make_rounds_from_scratch()
    ensures rounds { (workers : ℕ) (setup : Setup) (past : Option History) (entries : List Entry)
        (worker_steps : List ℕ)
        → CanGoBy past setup
        → IsMadeBy workers setup past entries worker_steps
        → MakeFromScratch setup past entries }
    ensures alone { (setup : Setup) (past : Option History) (entries : List Entry)
        (worker_steps : List ℕ)
        → IsMadeBy 1 setup past entries worker_steps
        → round_by setup past entries ≡ lone_round setup past }
{}

/// Without an edit, any number of workers make a round that only reuses the history.
pub fn workers_repeat_an_unedited_round()
    ensures threads { (workers : ℕ) (h : History) (setup : Setup) (entries : List Entry)
        (worker_steps : List ℕ)
        → IsUnedited h setup
        → IsMadeBy workers setup (Some h) entries worker_steps
        → threads_of entries ≡ schedule_of h }
    ensures reuses { (workers : ℕ) (h : History) (setup : Setup) (entries : List Entry)
        (worker_steps : List ℕ)
        → IsUnedited h setup
        → IsMadeBy workers setup (Some h) entries worker_steps
        → OnlyReuses h (round_by setup (Some h) entries) }
{}

/// If the round of one worker is based on a sound history, or on none, its own history is honest.
pub fn one_worker_leaves_an_honest_history()
    ensures { (setup : Setup) (past : Option History)
        → CanGoBy past setup
        → IsHonest (history_of (lone_round setup past)) }
{}

/// One worker never has to wait: with no thread in flight there is always a step to make, or the round is finished. The
/// history that the round is based on doesn't matter.
pub fn one_worker_never_waits()
    ensures { (setup : Setup) (past : Option History) (n : ℕ)
        → IsSetup setup
        → pick_of (after_picks n (opening setup past)) ≢ pick.Hold }
{}

/// If the round of one worker is based on a sound history, or on none, each entry was chosen by the rule when the
/// schedule was as long as the entry's place.
pub fn one_worker_picks_by_rule()
    ensures entries { (setup : Setup) (past : Option History)
        → CanGoBy past setup
        → ArePicked setup past (lone_round setup past).schedule (lone_round setup past).picked }
    ensures points { (setup : Setup) (past : Option History)
        → CanGoBy past setup
        → (lone_round setup past).picked
        ≡ range_with_len 0 (length (lone_round setup past).schedule) }
{}

/// If a round is based on a sound history, or on none, and starts only steps that are picked, all that it does is
/// chosen by the rule, whatever else happens in between: its entries, each when the schedule was as long as is kept
/// with it, and the steps in flight. This holds for any number of workers.
pub fn workers_pick_by_rule()
    ensures start { (setup : Setup) (past : Option History)
        → CanGoBy past setup
        → IsPickedSoFar (opening setup past) }
    ensures event { (w : RoundState) (e : Event)
        → CanGoBy w.past w.setup
        → IsInOrder w
        → IsPickedSoFar w
        → goes_on_by (pick_of w) e ≡ true
        → IsPickedSoFar (happens w e) }
{}

/// The instructions that one worker executes, pick by pick, add up to those of the executed entries of its schedule, as
/// the report has them, if its round is based on a sound history or on none. The same holds after any number of picks.
pub fn one_worker_executes_what_is_reported()
    ensures picks { (setup : Setup) (past : Option History) (n : ℕ)
        → CanGoBy past setup
        → executed_in n (opening setup past)
        ≡ instructions_from (first setup) (after_picks n (opening setup past)).schedule }
    ensures round { (setup : Setup) (past : Option History)
        → CanGoBy past setup
        → executed_in setup.limit (opening setup past)
        ≡ instructions_from (first setup) (lone_round setup past).schedule }
{}

/// Without an edit, one worker makes the history's schedule, and its round only reuses the history: no pick starts an
/// execution, no instruction is executed, and nothing is discarded.
pub fn no_edit_reuses_all()
    ensures { (h : History) (setup : Setup) → IsUnedited h setup → ReusesAll h setup }
{}

/// Without an edit, the same holds for any number of workers, at each moment, if the history is coherent, honest or
/// not: as long as only picked steps are started, a round replays its history. No thread is ever in flight; until the
/// round is finished, the history's next step is due, comes first, and is picked to be reused; and no instruction is
/// executed. At its end, a round has only reused the history, if that is honest.
pub fn no_edit_replays_the_history()
    ensures start { (h : History) (setup : Setup)
        → Repeats h setup
        → IsReplaying h (opening setup (Some h)) }
    ensures event { (h : History) (w : RoundState) (e : Event)
        → IsSetup h.setup
        → is_coherent h ≡ true
        → IsReplaying h w
        → goes_on_by (pick_of w) e ≡ true
        → IsReplaying h (happens w e) }
    ensures next { (h : History) (w : RoundState)
        → IsSetup h.setup
        → is_coherent h ≡ true
        → IsReplaying h w
        → is_finished w ≡ false
        → (t : ℕ) × IsNextStep w t }
    ensures instructions { (h : History) (w : RoundState)
        → IsReplaying h w
        → instructions_from (first h.setup) w.schedule ≡ 0 }
    ensures reuses { (h : History) (w : RoundState)
        → IsHonest h
        → IsReplaying h w
        → is_some w.machine.ending ≡ true
        → OnlyReuses h w }
{}

/// The steps that changed pages reach are the least set that has each step that reads a changed page, and each that one
/// of the set leads to. One pass from the front finds them, since only earlier steps lead to a step; and what a step
/// writes comes to those readers whose view was given no earlier.
pub fn reached_is_the_least_closed_set()
    ensures closed { (fs : List Fact) (reads : List (List ℕ)) (pages : List ℕ)
        → IsClosedSet fs reads pages (is_reached fs reads pages) }
    ensures least { (fs : List Fact) (reads : List (List ℕ)) (pages : List ℕ) (among : ℕ → Bool)
        (j : ℕ)
        → IsClosedSet fs reads pages among
        → j < length fs
        → is_reached fs reads pages j ≡ true
        → among j ≡ true }
    ensures pass { (fs : List Fact) (reads : List (List ℕ)) (pages : List ℕ) (j : ℕ)
        → is_reached fs reads pages j
        ≡ (meets pages (read_at reads j)
        || any_below (λ i. is_reached fs reads pages i && leads_to fs reads i j) j) }
    ensures giver { (fs : List Fact) (reads : List (List ℕ)) (w j : ℕ)
        → comes_to fs reads w j
        ≡ (nat_lt w (giver_end fs j) && meets (fact_at fs w).written (read_at reads j)) }
{}

/// Whatever happens to a round whose entries are chosen by the rule: if it works as the history that it is based on
/// did, the old step of each entry that it executes is one that its setup reaches, and it executes no more entries than
/// there are such steps. The same holds for every round that is where its schedule leads.
pub fn executed_entries_are_reached()
    ensures events { (setup : Setup) (past : Option History) (events : List Event) (points : List ℕ)
        → IsSetup setup
        → ArePicked setup past (round_after setup past events).schedule points
        → ReexecutesLeast (round_after setup past events) }
    ensures schedule { (w : RoundState) (points : List ℕ)
        → IsSetup w.setup
        → IsBySchedule w
        → ArePicked w.setup w.past w.schedule points
        → ReexecutesLeast w }
{}

/// Any number of workers, and one alone, execute no more of a round than its setup reaches, if it works as the history
/// that it is based on did.
pub fn workers_reexecute_the_least()
    ensures workers { (workers : ℕ) (setup : Setup) (past : Option History) (entries : List Entry)
        (worker_steps : List ℕ)
        → IsSetup setup
        → IsMadeBy workers setup past entries worker_steps
        → ReexecutesLeast (round_by setup past entries) }
    ensures alone { (setup : Setup) (past : Option History)
        → IsSetup setup
        → ReexecutesLeast (lone_round setup past) }
{}

/// Less suffices: each executed step writes no page that the old one doesn't write, and ends in the same way, whatever
/// it reads; and each entry was in time, whether or not a record of another thread fitted then.
pub fn fewer_premises_suffice()
    ensures work { (old new : Record) → IsSameWork old new → IsWithinWork old new }
    ensures works { (h : History) (setup : Setup) (past : Option History) (events : List Event)
        → WorksAsBefore h (round_after setup past events)
        → WorksWithin h (round_after setup past events) }
    ensures picked { (setup : Setup) (h : History) (events : List Event) (points : List ℕ)
        → ArePicked setup (Some h) (round_after setup (Some h) events).schedule points
        → AreInTime setup (Some h) (round_after setup (Some h) events).schedule points }
    ensures executed { (h : History) (setup : Setup) (events : List Event) (points : List ℕ)
        → IsSetup setup
        → WorksWithin h (round_after setup (Some h) events)
        → AreInTime setup (Some h) (round_after setup (Some h) events).schedule points
        → ExecutesWhatIsReached h (round_after setup (Some h) events) }
{}

/// By threads and objects, a step comes directly before a later one if both are of one thread, if it gave the later
/// one's thunk its view, or if both act on one object; no page orders them, nor does the end.
pub fn threads_and_objects_alone_order()
    ensures { (fs : List Fact) (i j : ℕ)
        → before_at (sync_facts fs) i j
        ≡ (((fact_at fs i).thread == (fact_at fs j).thread)
        || (gave_at fs i j || overlap (fact_at fs i).objects (fact_at fs j).objects)) }
{}

/// The steps of a thread that come before a later thunk are its first ones: as many as the clock of the step that gave
/// the thunk its view has for it.
pub fn first_steps_are_ordered()
    ensures { (fs : List Fact) (i j : ℕ)
        → i < j
        → is_ordered fs i j ≡ nat_lt (number_at fs i) (seen_at fs j (fact_at fs i).thread) }
{}
