//! Histories of finished runs, as definitions, with their laws. No code.
//!
//! - When a history is honest, which of its records is the first false one, when it is coherent, when a new run may be
//!   based on it, and which of its records can replace a step: each record of an honest history is true; applying one
//!   that fits is the step of its thread; an honest history is coherent, and is exactly one without a first false
//!   record; a ready thread's view is fixed until it makes its step; and records have their slots in the page map.
//! - Which steps of a history must come before which: every order of its steps that keeps this leads to the same, and
//!   every beginning of one can be continued to the same: each record fits when it comes, and end, output and final
//!   memory are the history's.
#![tactic(auto)]

ghost use Rattle.std.specs.Prelude.{◌≡◌, ℕ, List, All, length, Option, count_by, Some, true, false, ◌==◌, None};
ghost use Rattle.std.specs.List.{list_any};
ghost use Rattle.thunk_spec.specs.Record.{Record, IsTrue};
ghost use Rattle.machine_spec.specs.Machine.{Machine, hart_of, is_ready};
ghost use Rattle.machine_spec.specs.Step.{step, apply, fits};
ghost use Rattle.machine_spec.specs.Schedule.{scratch_from, is_permitted_from, record_of};
ghost use Rattle.machine_spec.specs.Setup.{Setup, IsSetup, first, map_of, is_permitted, records, scratch};
ghost use Rattle.machine_spec.specs.Whole.{IsWhole};
ghost use Rattle.history_spec.specs.History.{History, IsHonest, IsSameProgram, CanGoBy, IsMappedIn, IsMapped, is_coherent, found, is_numbered, threads_of_records};
ghost use Rattle.history_spec.specs.Audit.{IsFirstFalse, IsVerdict};
ghost use Rattle.history_spec.specs.Facts.{facts};
ghost use Rattle.history_spec.specs.Keeping.{keeps, may_begin, arranged};
ghost use Rattle.history_spec.specs.Orders.{is_order, threads_at, records_at, LeadToTheSame};

/// The record of each step of a permitted schedule is true.
pub fn records_are_true()
    ensures { (setup : Setup) (schedule : List ℕ)
        → IsSetup setup
        → is_permitted setup schedule ≡ true
        → All (λ (r : Record). IsTrue (first setup).frame r.start r.kept) (records setup schedule) }
{}

/// Each record of an honest history is true.
pub fn honest_records_are_true()
    ensures { (h : History) → IsHonest h
        → All (λ (r : Record). IsTrue (first h.setup).frame r.start r.kept) h.records }
{}

/// An honest history is coherent.
pub fn honest_is_coherent()
    ensures { (h : History) → IsHonest h → is_coherent h ≡ true }
{}

/// If a record that is found fits the machine from scratch, it is the record of the step that its thread would make
/// there, and applying it is that step. The history may be of another input and fuel.
pub fn reuse_is_step()
    ensures record { (setup : Setup) (past : Option History) (schedule : List ℕ) (t number : ℕ)
        (r : Record)
        → CanGoBy past setup
        → is_permitted setup schedule ≡ true
        → found past t number ≡ Some r
        → fits (scratch setup schedule) r ≡ true
        → r ≡ record_of (scratch setup schedule) t }
    ensures apply { (setup : Setup) (past : Option History) (schedule : List ℕ) (t number : ℕ)
        (r : Record)
        → CanGoBy past setup
        → is_permitted setup schedule ≡ true
        → found past t number ≡ Some r
        → fits (scratch setup schedule) r ≡ true
        → apply (scratch setup schedule) r ≡ step (scratch setup schedule) t }
{}

/// A thread that is ready, and makes none of the steps of a schedule, keeps its registers, its number of steps, its
/// status and its view. So a record of it fits after them exactly if it fitted before.
pub fn view_is_fixed()
    ensures hart { (m : Machine) (schedule : List ℕ) (t : ℕ)
        → IsWhole m
        → is_permitted_from m schedule ≡ true
        → list_any (λ u. u == t) schedule ≡ false
        → is_ready (hart_of m t).status ≡ true
        → hart_of (scratch_from m schedule) t ≡ hart_of m t }
    ensures fit { (m : Machine) (schedule : List ℕ) (r : Record)
        → IsWhole m
        → is_permitted_from m schedule ≡ true
        → list_any (λ u. u == r.thread) schedule ≡ false
        → is_ready (hart_of m r.thread).status ≡ true
        → fits (scratch_from m schedule) r ≡ fits m r }
{}

/// A thread has made as many steps as the schedule has entries of it; and so each record of an honest
/// history has as its number how many records of its thread come before it.
pub fn numbers_count_steps()
    ensures harts { (setup : Setup) (schedule : List ℕ) (t : ℕ)
        → is_permitted setup schedule ≡ true
        → (hart_of (scratch setup schedule) t).number ≡ count_by (λ u. u == t) schedule }
    ensures records { (h : History) → IsHonest h → is_numbered h.records ≡ true }
{}

/// Two setups of the same program, with the same input, fuel and step limit, are the same.
pub fn same_input_and_limits_is_same_setup()
    ensures { (a b : Setup)
        → IsSameProgram a b → a.input ≡ b.input → a.fuel ≡ b.fuel → a.limit ≡ b.limit → a ≡ b }
{}

/// The slots of a record of a step, those of its read pages and of its stored bytes, are in the map of
/// the machine that made it. So the records from scratch, and those of an honest history, have theirs in
/// their setup's map.
pub fn records_are_mapped()
    ensures step { (m : Machine) (t : ℕ) → IsMappedIn (length m.frame.map) (record_of m t) }
    ensures scratch { (setup : Setup) (schedule : List ℕ)
        → All (IsMappedIn (length (map_of setup))) (records setup schedule) }
    ensures honest { (h : History) → IsHonest h → IsMapped h }
{}

/// A history whose setup may be run is honest exactly if none of its records is the first false one. Nothing else is
/// required of it, not even that it is coherent.
pub fn honest_has_no_false_record()
    ensures only { (h : History) → IsSetup h.setup → IsFirstFalse h None → IsHonest h }
    ensures always { (h : History) → IsHonest h → IsFirstFalse h None }
{}

/// A coherent history is honest if it has no first false record; else it isn't, and this is one of its records.
pub fn first_false_record_is_the_verdict()
    ensures { (h : History) (place : Option ℕ)
        → IsSetup h.setup → is_coherent h ≡ true → IsFirstFalse h place → IsVerdict h place }
{}

/// Two audits of a history find the same.
pub fn audits_agree()
    ensures { (h : History) (a b : Option ℕ) → IsFirstFalse h a → IsFirstFalse h b → a ≡ b }
{}

/// Every order of an honest history's steps in which each comes after all that must come before it: its
/// records, in that order, are of the threads of its schedule, and lead to the same.
pub fn every_order_leads_to_the_same()
    ensures schedule { (h : History) (schedule : List ℕ)
        → IsHonest h
        → keeps (facts h) schedule ≡ true
        → threads_of_records (arranged schedule h.records) ≡ schedule }
    ensures same { (h : History) (schedule : List ℕ)
        → IsHonest h
        → keeps (facts h) schedule ≡ true
        → LeadToTheSame h (arranged schedule h.records) }
{}

/// The same over places: every reordering of an honest history's places in which each comes after all
/// that must come before it. The records at these places, in that order, are of the threads of its
/// schedule, and lead to the same.
pub fn every_reordering_leads_to_the_same()
    ensures threads { (h : History) (places : List ℕ)
        → IsHonest h
        → is_order (facts h) places ≡ true
        → threads_of_records (records_at h.records places) ≡ threads_at (facts h) places }
    ensures same { (h : History) (places : List ℕ)
        → IsHonest h
        → is_order (facts h) places ≡ true
        → LeadToTheSame h (records_at h.records places) }
{}

/// Whatever steps of an honest history came first, each after all that must come before it: the rest can follow in the
/// old order, and all together lead to the same.
pub fn every_beginning_goes_on()
    ensures { (h : History) (schedule : List ℕ)
        → IsHonest h
        → may_begin (facts h) schedule ≡ true
        → LeadToTheSame h (arranged schedule h.records) }
{}
