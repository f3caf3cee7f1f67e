//! What a command line with lists of edits requests, as definitions: the inputs of the rounds, or the first list that
//! is refused; the rounds, from scratch or after a memo that was read, each by the schedule that its workers found and
//! based on the history of the one before; their reports; and whether each ends by exit. The laws: what was proved of
//! one round holds of each of them; a rerun without an edit executes nothing; without lists there is one run from
//! scratch; one worker makes the schedule that follows the choice; and the history of a round can be encoded as the
//! bytes of a memo, which are read again if the history is honest. No code but one plain type.
#![tactic(auto)]

ghost use Rattle.std.specs.Prelude.{◌≡◌, ◌≢◌, ◌≤◌, ◌<◌, ◌+◌, ℕ, suc, min, max, ◌&&◌, List, [], ◌∷◌, ◌++◌, All, length, map, take, drop, sum, slice_get, Some, None, ◌⊎◌, Option, true, false, is_some, Ok};
ghost use Rattle.std.specs.List.{range_with_len};
ghost use Rattle.edit_spec.specs.Editing.{longest_input};
ghost use Rattle.machine_spec.specs.Limits.{Limits, AreLimits};
ghost use Rattle.machine_spec.specs.Setup.{Setup, IsSetup, scratch};
ghost use Rattle.machine_spec.specs.Choice.{alone};
ghost use Rattle.history_spec.specs.History.{History, IsHonest, IsSameProgram, CanGoBy, schedule_of};
ghost use Rattle.report_spec.specs.Report.{threads_of, report};
ghost use Rattle.round_spec.specs.Marks.{marked};
ghost use Rattle.round_spec.specs.Alone.{lone_round};
ghost use Rattle.round_spec.specs.Keeping.{IsCounted};
ghost use Rattle.round_spec.specs.Working.{ReexecutesLeast};
ghost use Rattle.round_spec.specs.declared.events.Event.{Event};
ghost use Rattle.round_spec.specs.Rounds.{round_after, history_of};
ghost use Rattle.memo_spec.specs.Encoding.{IsEncodable, memo};
ghost use Rattle.memo_spec.specs.Reading.{reading};
ghost use Rattle.memo_spec.specs.Old.{is_before_m};
ghost use Rattle.rerun_spec.specs.Inputs.{Makes, AreInputs, AreRerunInputs, AreShort, Refusal, Refuses, IsFirstRefused};
ghost use Rattle.rerun_spec.specs.declared.Asked.{Asked as AskedFor};
ghost use Rattle.rerun_spec.specs.Rounds.{Found, Round, Beginning, limits_of, with_input, with_limits, made, IsMade, resulting_history, from_scratch, after_memo, CanBegin, round_on, after_round, rounds_after, after_rounds, IsOfProgram, last_history, schedule_in, entries_of, IsRepeated, IsUneditedRerun};
ghost use Rattle.rerun_spec.specs.Making.{AreMade, ComesToAnEnd, IsAsReported, FollowsTheChoice, Repeats, RepeatsHistory, PicksNoneToExecute};
ghost use Rattle.rerun_spec.specs.Reports.{all_executed, extras_of, report_of, reports_of, is_exit, exits, all_exit, made_report, made_reports, made_exits, all_made_exit};
ghost use Rattle.rerun_spec.specs.Encoded.{IsEncodedPast, IsEncodedStart};

/// Which lines a report has only if they are requested.
#[derive(Clone, Copy)]
pub struct Asked {
    /// How many steps of the history that a round is based on are reached.
    pub reach: bool,
    /// How many steps were made, as often as a watcher read it while the round was made.
    pub progress: bool,
}

/// A first input and lists of edits determine either the inputs of the rounds or the first list that is refused, and
/// why; never both; and there is one answer. The place of the refused list is one of the lists'.
pub fn inputs_or_a_refusal()
    ensures either { (input : List ℕ) (lists : List (List ℕ))
        → ((inputs : List (List ℕ)) × AreInputs input lists inputs)
        ⊎ ((place : ℕ) × (why : Refusal) × IsFirstRefused input lists place why) }
    ensures not_both { (input : List ℕ) (lists inputs : List (List ℕ)) (place : ℕ) (why : Refusal)
        → AreInputs input lists inputs
        → IsFirstRefused input lists place why
        → ⊥ }
    ensures one_list { (input : List ℕ) (lists inputs others : List (List ℕ))
        → AreInputs input lists inputs
        → AreInputs input lists others
        → inputs ≡ others }
    ensures one_refusal { (input : List ℕ) (lists : List (List ℕ)) (place elsewhere : ℕ)
        (why other : Refusal)
        → IsFirstRefused input lists place why
        → IsFirstRefused input lists elsewhere other
        → (place ≡ elsewhere) × (why ≡ other) }
    ensures place { (input : List ℕ) (lists : List (List ℕ)) (place : ℕ) (why : Refusal)
        → IsFirstRefused input lists place why
        → place < length lists }
{}

/// There is one input more than lists; each is as short as an input may be, if the first is; and without lists there is
/// the first alone.
pub fn inputs_fit_their_lists()
    ensures count { (input : List ℕ) (lists inputs : List (List ℕ))
        → AreInputs input lists inputs
        → length inputs ≡ suc (length lists) }
    ensures short { (input : List ℕ) (lists inputs : List (List ℕ))
        → length input ≤ longest_input
        → AreInputs input lists inputs
        → AreShort inputs }
    ensures none { (input : List ℕ) → AreInputs input [] (input ∷ []) }
{}

/// Applying the lists one after the other, each to the last input, makes all inputs, or comes to the first list that is
/// refused, whatever lists come after it.
pub fn inputs_go_on()
    ensures made { (input : List ℕ) (lists inputs : List (List ℕ)) (current list next : List ℕ)
        → AreInputs input lists inputs
        → slice_get inputs (length lists) ≡ Some current
        → Makes list current next
        → AreInputs input (lists ++ list ∷ []) (inputs ++ next ∷ []) }
    ensures refused { (input : List ℕ) (lists inputs : List (List ℕ)) (current list : List ℕ)
        (why : Refusal)
        (later : List (List ℕ))
        → AreInputs input lists inputs
        → slice_get inputs (length lists) ≡ Some current
        → Refuses list current why
        → IsFirstRefused input (lists ++ list ∷ later) (length lists) why }
{}

/// A rerun has the inputs that its lists make of the first one, or, without lists, the first one itself: so the lists
/// determine either these or the first list that is refused; never both; and there is one answer.
pub fn rerun_inputs_or_a_refusal()
    ensures either { (input : List ℕ) (lists : List (List ℕ))
        → ((inputs : List (List ℕ)) × AreRerunInputs input lists inputs)
        ⊎ ((place : ℕ) × (why : Refusal) × IsFirstRefused input lists place why) }
    ensures not_both { (input : List ℕ) (lists inputs : List (List ℕ)) (place : ℕ) (why : Refusal)
        → AreRerunInputs input lists inputs
        → IsFirstRefused input lists place why
        → ⊥ }
    ensures one_list { (input : List ℕ) (lists inputs others : List (List ℕ))
        → AreRerunInputs input lists inputs
        → AreRerunInputs input lists others
        → inputs ≡ others }
{}

/// The inputs of a rerun are as many as lists, or one if there is none; each is as short as an input may be, if the
/// first is. With lists they are those that come after the first input; without, that alone.
pub fn rerun_inputs_fit_their_lists()
    ensures count { (input : List ℕ) (lists inputs : List (List ℕ))
        → AreRerunInputs input lists inputs
        → length inputs ≡ max 1 (length lists) }
    ensures short { (input : List ℕ) (lists inputs : List (List ℕ))
        → length input ≤ longest_input
        → AreRerunInputs input lists inputs
        → AreShort inputs }
    ensures later { (input start : List ℕ) (lists inputs : List (List ℕ))
        → lists ≢ []
        → AreInputs input lists (start ∷ inputs)
        → AreRerunInputs input lists inputs }
    ensures alone { (input : List ℕ) (inputs : List (List ℕ))
        → AreInputs input [] inputs
        → AreRerunInputs input [] inputs }
    ensures none { (input : List ℕ) → AreRerunInputs input [] (input ∷ []) }
{}

/// There is a round for each thing that was found, as far as there are inputs. The rounds are numbered from the
/// beginning's number on; each is of the same program, on its own input, by what was found of it, and the first is of
/// the setup itself if the inputs start with its own. The first is based on the beginning's history, which is none from
/// scratch, and each other round on the history of the one before it. The same lines are requested in the reports of
/// all.
pub fn rounds_follow_each_other()
    ensures numbers { (b : Beginning) (inputs : List (List ℕ)) (found : List Found)
        → map (λ (r : Round). r.number) (rounds_after b inputs found)
        ≡ range_with_len b.number (min (length inputs) (length found)) }
    ensures setups { (b : Beginning) (inputs : List (List ℕ)) (found : List Found)
        → map (λ (r : Round). r.setup) (rounds_after b inputs found)
        ≡ map (with_input b.setup) (take (length found) inputs) }
    ensures found { (b : Beginning) (inputs : List (List ℕ)) (found : List Found)
        → map (λ (r : Round). r.found) (rounds_after b inputs found) ≡ take (length inputs) found }
    ensures asked { (b : Beginning) (inputs : List (List ℕ)) (found : List Found)
        → All (λ (r : Round). r.asked ≡ b.asked) (rounds_after b inputs found) }
    ensures at { (b : Beginning) (inputs : List (List ℕ)) (found : List Found) (place : ℕ)
        (input : List ℕ) (f : Found)
        → slice_get inputs place ≡ Some input
        → slice_get found place ≡ Some f
        → (r : Round) × (slice_get (rounds_after b inputs found) place ≡ Some r)
        × (r.number ≡ b.number + place)
        × (r.setup ≡ with_input b.setup input) × (r.found ≡ f) }
    ensures start { (b : Beginning) (lists inputs : List (List ℕ)) (found : List Found) (r : Round)
        → AreInputs b.setup.input lists inputs
        → slice_get (rounds_after b inputs found) 0 ≡ Some r
        → r.setup ≡ b.setup }
    ensures past { (b : Beginning) (inputs : List (List ℕ)) (found : List Found) (r : Round)
        → slice_get (rounds_after b inputs found) 0 ≡ Some r
        → r.past ≡ b.past }
    ensures none { (setup : Setup) (asked : AskedFor) (inputs : List (List ℕ)) (found : List Found)
        (r : Round)
        → slice_get (rounds_after (from_scratch setup asked) inputs found) 0 ≡ Some r
        → r.past ≡ None }
    ensures resulting { (b : Beginning) (inputs : List (List ℕ)) (found : List Found) (place : ℕ)
        (before after : Round)
        → slice_get (rounds_after b inputs found) place ≡ Some before
        → slice_get (rounds_after b inputs found) (suc place) ≡ Some after
        → after.past ≡ Some (resulting_history before) }
{}

/// The rounds can be made one after the other, each from the beginning that the ones before it make; and the next would
/// be based on the history of the last one. The rounds so far are those of what was found so far, whatever inputs are
/// still to come.
pub fn rounds_go_on()
    ensures later { (b : Beginning) (inputs : List (List ℕ)) (found more : List Found)
        → rounds_after b inputs (found ++ more)
        ≡ rounds_after b inputs found
        ++ rounds_after (after_rounds b inputs found) (drop (length found) inputs) more }
    ensures after { (b : Beginning) (inputs : List (List ℕ)) (found more : List Found)
        → after_rounds b inputs (found ++ more)
        ≡ after_rounds (after_rounds b inputs found) (drop (length found) inputs) more }
    ensures one { (b : Beginning) (inputs : List (List ℕ)) (found : List Found) (input : List ℕ)
        (f : Found)
        → slice_get inputs (length found) ≡ Some input
        → rounds_after b inputs (found ++ f ∷ [])
        ≡ rounds_after b inputs found ++ round_on (after_rounds b inputs found) input f ∷ [] }
    ensures next { (b : Beginning) (inputs : List (List ℕ)) (found : List Found) (input : List ℕ)
        (f : Found)
        → slice_get inputs (length found) ≡ Some input
        → after_rounds b inputs (found ++ f ∷ [])
        ≡ after_round (after_rounds b inputs found) input f }
    ensures last { (b : Beginning) (inputs : List (List ℕ)) (found : List Found) (input : List ℕ)
        (f : Found)
        → slice_get inputs (length found) ≡ Some input
        → last_history b inputs (found ++ f ∷ [])
        ≡ resulting_history (round_on (after_rounds b inputs found) input f) }
    ensures few { (b : Beginning) (inputs rest : List (List ℕ)) (found : List Found)
        → length found ≤ length inputs
        → rounds_after b (inputs ++ rest) found ≡ rounds_after b inputs found }
    ensures few_after { (b : Beginning) (inputs rest : List (List ℕ)) (found : List Found)
        → length found ≤ length inputs
        → after_rounds b (inputs ++ rest) found ≡ after_rounds b inputs found }
    ensures number { (b : Beginning) (inputs : List (List ℕ)) (found : List Found)
        → (after_rounds b inputs found).number ≡ b.number + min (length inputs) (length found) }
    ensures setup { (b : Beginning) (inputs : List (List ℕ)) (found : List Found)
        → (after_rounds b inputs found).setup ≡ b.setup }
    ensures asked { (b : Beginning) (inputs : List (List ℕ)) (found : List Found)
        → (after_rounds b inputs found).asked ≡ b.asked }
    ensures past { (b : Beginning) (inputs : List (List ℕ)) (found : List Found)
        → inputs ≢ []
        → found ≢ []
        → (after_rounds b inputs found).past ≡ Some (last_history b inputs found) }
{}

/// The rounds can be reported one after the other, each as it was made, which makes the reports of all of them, in
/// order; and all ended by exit exactly if those so far and the last one did.
pub fn made_reports_go_on()
    ensures later { (b : Beginning) (inputs : List (List ℕ)) (found more : List Found)
        → made_reports (rounds_after b inputs (found ++ more))
        ≡ made_reports (rounds_after b inputs found)
        ++ made_reports
        (rounds_after (after_rounds b inputs found) (drop (length found) inputs) more) }
    ensures one { (b : Beginning) (inputs : List (List ℕ)) (found : List Found) (input : List ℕ)
        (f : Found)
        → slice_get inputs (length found) ≡ Some input
        → made_reports (rounds_after b inputs (found ++ f ∷ []))
        ≡ made_reports (rounds_after b inputs found)
        ++ made_report (round_on (after_rounds b inputs found) input f) ∷ [] }
    ensures exits { (b : Beginning) (inputs : List (List ℕ)) (found : List Found) (input : List ℕ)
        (f : Found)
        → slice_get inputs (length found) ≡ Some input
        → all_made_exit (rounds_after b inputs (found ++ f ∷ []))
        ≡ (all_made_exit (rounds_after b inputs found)
        && made_exits (round_on (after_rounds b inputs found) input f)) }
{}

/// Whatever history the first round is based on: each round may be run, and has the records of its own entries. If
/// workers made it, it has an end and at least one step, and its schedule is the one that they found. Its history is of
/// its own setup, and so of the same program. So each round is based on a history of its program or on none, if the
/// first is.
pub fn each_round_comes_to_an_end()
    ensures runs { (b : Beginning) (inputs : List (List ℕ)) (found : List Found)
        → IsSetup b.setup
        → AreShort inputs
        → All (λ (r : Round). IsSetup r.setup) (rounds_after b inputs found) }
    ensures ends { (b : Beginning) (inputs : List (List ℕ)) (found : List Found) (workers : ℕ)
        → All (IsMade workers) (rounds_after b inputs found)
        → All ComesToAnEnd (rounds_after b inputs found) }
    ensures records { (b : Beginning) (inputs : List (List ℕ)) (found : List Found)
        → IsSetup b.setup
        → AreShort inputs
        → All (λ r. IsCounted (made r)) (rounds_after b inputs found) }
    ensures schedule { (b : Beginning) (inputs : List (List ℕ)) (found : List Found) (workers : ℕ)
        → IsSetup b.setup
        → AreShort inputs
        → All (IsMade workers) (rounds_after b inputs found)
        → All (λ r. schedule_of (resulting_history r) ≡ schedule_in r) (rounds_after b inputs found) }
    ensures setup { (b : Beginning) (inputs : List (List ℕ)) (found : List Found)
        → All (λ (r : Round). (resulting_history r).setup ≡ r.setup) (rounds_after b inputs found) }
    ensures program { (b : Beginning) (inputs : List (List ℕ)) (found : List Found)
        → All (λ r. IsSameProgram (resulting_history r).setup b.setup) (rounds_after b inputs found) }
    ensures past { (b : Beginning) (inputs : List (List ℕ)) (found : List Found)
        → IsOfProgram b.past b.setup
        → All (λ (r : Round). IsOfProgram r.past r.setup) (rounds_after b inputs found) }
    ensures later { (b : Beginning) (inputs : List (List ℕ)) (found : List Found)
        → IsOfProgram b.past b.setup
        → IsOfProgram (after_rounds b inputs found).past b.setup }
{}

/// Rounds may begin from scratch with a setup that may be run, and after a memo whose history is honest, with any
/// limits in range. Then each round that workers make is of a setup that may be run, and is based on a sound history or
/// on none. So each law of such a round holds of it. Its own history is honest. Any number of workers, one or more, can
/// make a round of each input.
pub fn each_round_may_be_made()
    ensures scratch { (setup : Setup) (asked : AskedFor) → IsSetup setup
        → CanBegin (from_scratch setup asked) }
    ensures memo { (h : History) (limits : Limits) (asked : AskedFor)
        → IsHonest h
        → AreLimits limits.fuel limits.steps
        → CanBegin (after_memo h limits asked) }
    ensures sound { (b : Beginning) (inputs : List (List ℕ)) (found : List Found) (workers : ℕ)
        → AreMade b inputs found workers
        → All (λ (r : Round). CanGoBy r.past r.setup) (rounds_after b inputs found) }
    ensures later { (b : Beginning) (inputs : List (List ℕ)) (found : List Found) (workers : ℕ)
        → AreMade b inputs found workers
        → CanBegin (after_rounds b inputs found) }
    ensures honest { (b : Beginning) (inputs : List (List ℕ)) (found : List Found) (workers : ℕ)
        → AreMade b inputs found workers
        → All (λ r. IsHonest (resulting_history r)) (rounds_after b inputs found) }
    ensures last { (b : Beginning) (inputs : List (List ℕ)) (found : List Found) (workers : ℕ)
        → AreMade b inputs found workers
        → inputs ≢ []
        → found ≢ []
        → IsHonest (last_history b inputs found) }
    ensures some { (b : Beginning) (inputs : List (List ℕ)) (workers : ℕ)
        → IsSetup b.setup
        → AreShort inputs
        → 1 ≤ workers
        → (found : List Found) × (length found ≡ length inputs)
        × All (IsMade workers) (rounds_after b inputs found) }
{}

/// Each round, as its workers make it, is what its report says: its entries, which they found, have exact marks and
/// were chosen by the rule, and their threads are the schedule, which is permitted and complete; its machine is the one
/// from scratch under it, and has an end; its records are the machine's, entry by entry; and what was executed is what
/// the report says. One worker makes the round that follows the choice, and executes, pick by pick, what its report
/// says.
pub fn each_round_is_from_scratch()
    ensures threads { (r : Round) → threads_of (entries_of r) ≡ schedule_in r }
    ensures rounds { (b : Beginning) (inputs : List (List ℕ)) (found : List Found) (workers : ℕ)
        → AreMade b inputs found workers
        → All IsAsReported (rounds_after b inputs found) }
    ensures lone { (b : Beginning) (inputs : List (List ℕ)) (found : List Found)
        → All (IsMade 1) (rounds_after b inputs found)
        → All (λ r. made r ≡ lone_round r.setup r.past) (rounds_after b inputs found) }
    ensures alone { (b : Beginning) (inputs : List (List ℕ)) (found : List Found)
        → AreMade b inputs found 1
        → All FollowsTheChoice (rounds_after b inputs found) }
{}

/// Each round that workers make, based on any history, executes no more than its setup reaches, if it works as that
/// history did.
pub fn each_round_reexecutes_the_least()
    ensures { (b : Beginning) (inputs : List (List ℕ)) (found : List Found) (workers : ℕ)
        → IsSetup b.setup
        → AreShort inputs
        → All (IsMade workers) (rounds_after b inputs found)
        → All (λ r. ReexecutesLeast (made r)) (rounds_after b inputs found) }
{}

/// The report of a round as it was made is that of the machine from scratch, and both agree on whether it ends by exit,
/// if workers made it, its setup may be run, and its history is sound or none. The same holds for all rounds of a
/// command line.
pub fn made_rounds_are_reported_right()
    ensures report { (r : Round) (workers : ℕ)
        → CanGoBy r.past r.setup
        → IsMade workers r
        → made_report r ≡ report_of r }
    ensures exit { (r : Round) (workers : ℕ)
        → CanGoBy r.past r.setup
        → IsMade workers r
        → made_exits r ≡ exits r }
    ensures reports { (b : Beginning) (inputs : List (List ℕ)) (found : List Found) (workers : ℕ)
        → AreMade b inputs found workers
        → made_reports (rounds_after b inputs found) ≡ reports_of (rounds_after b inputs found) }
    ensures exits { (b : Beginning) (inputs : List (List ℕ)) (found : List Found) (workers : ℕ)
        → AreMade b inputs found workers
        → all_made_exit (rounds_after b inputs found) ≡ all_exit (rounds_after b inputs found) }
{}

/// If the input of a round equals that of the round before, it only reuses the history of that one, for any number of
/// workers: no instruction is executed and nothing is discarded; and schedule and machine (so its end, output and final
/// memory) are those of the round before. One worker would pick no step to be executed.
pub fn repeated_round_executes_nothing()
    ensures repeats { (b : Beginning) (inputs : List (List ℕ)) (found : List Found) (workers : ℕ)
        (before after : Round)
        → AreMade b inputs found workers
        → IsRepeated (rounds_after b inputs found) before after
        → Repeats before after }
    ensures alone { (b : Beginning) (inputs : List (List ℕ)) (found : List Found) (workers : ℕ)
        (before after : Round)
        → AreMade b inputs found workers
        → IsRepeated (rounds_after b inputs found) before after
        → PicksNoneToExecute after }
{}

/// If input and limits of the first round of a rerun are those of the memo's round, and the memo's history is honest,
/// the round only reuses it, for any number of workers: no instruction is executed and nothing is discarded; and
/// schedule and machine (so its end, output and final memory) are those of the memo's round. One worker would pick no
/// step to be executed.
pub fn unedited_rerun_executes_nothing()
    ensures repeats { (h : History) (limits : Limits) (asked : AskedFor) (inputs : List (List ℕ))
        (found : List Found) (workers : ℕ) (r : Round)
        → IsHonest h
        → IsUneditedRerun h limits asked inputs found r
        → IsMade workers r
        → RepeatsHistory h r }
    ensures alone { (h : History) (limits : Limits) (asked : AskedFor) (inputs : List (List ℕ))
        (found : List Found) (r : Round)
        → IsHonest h
        → IsUneditedRerun h limits asked inputs found r
        → PicksNoneToExecute r }
{}

/// Without lists of edits there is one round, a run from scratch: with no history each entry is executed, and report
/// and end are that run's, under the schedule that its workers found; with one worker that is the run that follows the
/// choice. A rerun without lists is one round, round 1, on the memo's input; with the memo's limits it is without
/// an edit.
pub fn no_edit_list_is_one_round()
    ensures marks { (setup : Setup) (schedule : List ℕ)
        → marked None setup schedule ≡ all_executed schedule }
    ensures reports { (setup : Setup) (asked : AskedFor) (inputs : List (List ℕ)) (f : Found)
        → AreInputs setup.input [] inputs
        → reports_of (rounds_after (from_scratch setup asked) inputs (f ∷ []))
        ≡ report 0 setup (all_executed (threads_of f.entries))
        (extras_of asked None setup f.progress) f.worker_steps ∷ [] }
    ensures exits { (setup : Setup) (asked : AskedFor) (inputs : List (List ℕ)) (f : Found)
        → AreInputs setup.input [] inputs
        → all_exit (rounds_after (from_scratch setup asked) inputs (f ∷ []))
        ≡ is_exit (scratch setup (threads_of f.entries)).ending }
    ensures alone { (setup : Setup) (asked : AskedFor) (inputs : List (List ℕ)) (f : Found)
        → IsSetup setup
        → AreInputs setup.input [] inputs
        → All (IsMade 1) (rounds_after (from_scratch setup asked) inputs (f ∷ []))
        → reports_of (rounds_after (from_scratch setup asked) inputs (f ∷ []))
        ≡ report 0 setup (all_executed (alone setup)) (extras_of asked None setup f.progress)
        (length (alone setup) ∷ []) ∷ [] }
    ensures alone_exits { (setup : Setup) (asked : AskedFor) (inputs : List (List ℕ)) (f : Found)
        → IsSetup setup
        → AreInputs setup.input [] inputs
        → All (IsMade 1) (rounds_after (from_scratch setup asked) inputs (f ∷ []))
        → all_exit (rounds_after (from_scratch setup asked) inputs (f ∷ []))
        ≡ is_exit (scratch setup (alone setup)).ending }
    ensures rerun { (h : History) (limits : Limits) (asked : AskedFor) (inputs : List (List ℕ))
        (f : Found)
        → AreRerunInputs h.setup.input [] inputs
        → rounds_after (after_memo h limits asked) inputs (f ∷ [])
        ≡ record {
          number = 1;
          setup = with_limits h.setup limits;
          past = Some h;
          asked = asked;
          found = f;
        } ∷ [] }
    ensures unedited { (h : History) (asked : AskedFor) (inputs : List (List ℕ)) (f : Found)
        → AreRerunInputs h.setup.input [] inputs
        → IsUneditedRerun h (limits_of h.setup) asked inputs (f ∷ [])
        (record { number = 1; setup = h.setup; past = Some h; asked = asked; found = f }) }
{}

/// There is a report for each round, and so for each input for which something was found. The report of a round that
/// workers made has a number of steps for each of them, and these add up to the number of steps.
pub fn reports_count_right()
    ensures reports { (b : Beginning) (inputs : List (List ℕ)) (found : List Found)
        → length (reports_of (rounds_after b inputs found)) ≡ min (length inputs) (length found) }
    ensures made { (b : Beginning) (inputs : List (List ℕ)) (found : List Found)
        → length (made_reports (rounds_after b inputs found)) ≡ min (length inputs) (length found) }
    ensures worker_steps { (r : Round) (workers : ℕ) → IsMade workers r
        → length r.found.worker_steps ≡ workers }
    ensures steps { (r : Round) (workers : ℕ) → IsMade workers r
        → sum r.found.worker_steps ≡ length (entries_of r) }
    ensures steps_made { (r : Round) (workers : ℕ)
        → IsMade workers r
        → sum r.found.worker_steps ≡ length (made r).schedule }
{}

/// The history of a round whose machine has an end can be encoded, whatever happened to the round, if its setup may be
/// run and is of bytes, and the history that it is based on, if there is one, can be encoded and is of the same
/// program. So the next round of the same program may be based on it in the same way. The round of one worker has an
/// end, so both hold of its history.
pub fn what_a_round_leaves_can_be_encoded()
    ensures events { (setup : Setup) (past : Option History) (events : List Event)
        → IsEncodedStart past setup
        → is_some (round_after setup past events).machine.ending ≡ true
        → IsEncodable (history_of (round_after setup past events)) }
    ensures next { (setup edited : Setup) (past : Option History) (events : List Event)
        → IsEncodedStart past setup
        → is_some (round_after setup past events).machine.ending ≡ true
        → IsSameProgram setup edited
        → IsEncodedPast (Some (history_of (round_after setup past events))) edited }
    ensures lone { (setup : Setup) (past : Option History)
        → IsEncodedStart past setup
        → IsEncodable (history_of (lone_round setup past)) }
    ensures lone_next { (setup edited : Setup) (past : Option History)
        → IsEncodedStart past setup
        → IsSameProgram setup edited
        → IsEncodedPast (Some (history_of (lone_round setup past))) edited }
{}

/// An honest history doesn't come from before the standard extension M: if its last thunk ended by an illegal
/// instruction, its record has no word of M there. So no memo of version 1 that encodes such a history is refused for
/// that. The memo of version 2, none of which is refused as old, is read as this history.
pub fn honest_memo_is_of_today()
    ensures todays { (h : History) → IsHonest h → is_before_m h ≡ false }
    ensures read { (h : History) → IsHonest h → IsEncodable h → reading (memo h) ≡ Ok h }
{}
