//! What a `why` command does.

ghost use Rattle.std.specs.Prelude.{◌≡◌, ◌+◌, ◌<◌, ◌∷◌, ℕ, List, length, IfOk, IfErr, Some};
ghost use Rattle.propagate.specs.Executing.{executed_by};
ghost use Rattle.rerun_spec.specs.Inputs.{AreShort};
ghost use Rattle.ith_words.specs.Words.{Explains};
ghost use Rattle.ith_words.specs.Said.{rerun_said, explain_said};
ghost use Rattle.ith_commands.specs.Statuses.{status_in};
ghost use Rattle.ith_commands.specs.Contents.{as_rerun};
ghost use Rattle.ith_commands.specs.Explaining.{explained_round};
ghost use Rattle.ith_commands.specs.Ends.{Ends, EndsEarly};
ghost use Rattle.ith_commands.specs.Counting.{ExplainSpends};
ghost use Rattle.ith_commands.specs.Playing.{plan_said, CanBePlayed, IsPrepared, IsWithNext, IsFirstRound, GivesReasons, ReportsReasons};

use super::outside::print_text;
use super::plan::{Beginning, Plan, prepare_rerun, take_input};
use super::reasons::reasons;
use super::status::Status;
use edit_list::Inputs;
use ith_host::Host;
use ith_words::{ExplainLine, RerunLine};
use propagate::{Round, run_alone};
use round_report::why::text;
use run_history::Setup;
use rv_isa::Turns;
use std::alloc::{AllocError, Global};
use thunk_record::Compared;

/// The rerun that a `why` command explains: one round after the edit list, by one worker and with the memo's limits.
fn as_rerun<'a>(alloc: Global, line: &ExplainLine<'a>) -> Result<RerunLine<'a>, AllocError>
    ensures { IfOk result (λ rerun. rerun_said rerun ≡ as_rerun (explain_said line.now)) }
{
    let mut edits = Vec::new(alloc);
    edits.push(line.edits)?;
    Ok(RerunLine {
        memo: line.memo,
        edits,
        workers: 1,
        fuel: None,
        steps: None,
        new_memo: None,
        reach: false,
        progress: false,
    })
}

/// The plan of the round that a `why` command explains. Its files are read, then the memo is checked, and then the edit
/// list.
fn prepare<H: Host>(alloc: Global, host: &mut H, line: &ExplainLine<'_>) -> Result<Plan, Status>
    ensures plan { IfOk result (λ plan. IsPrepared (Explains (explain_said line.now))
        (H.world host.old) (H.world host.new) (plan_said plan)) }
    ensures refused { IfErr result (λ status. EndsEarly (Explains (explain_said line.now))
        (H.world host.old) (H.world host.new) status) }
{
    let rerun = as_rerun(alloc, line)?;
    prepare_rerun(alloc, host, &rerun)
}

/// A setup with the next input, which is removed from the inputs.
fn with_next(setup: &Setup, inputs: &mut Inputs) -> Result<Setup, AllocError>
    requires some { 0 < length inputs.old }
    requires short { AreShort inputs.old }
    ensures { IfOk result (λ next. IsWithNext setup.now inputs.old inputs.new next) }
{
    let input = take_input(inputs)?;
    setup.with_input(input)
}

/// The first round of a plan, as one worker makes it.
fn first_round(
    alloc: Global,
    plan: Plan,
    turns: &mut Turns,
    compared: &mut Compared,
) -> Result<Round, AllocError>
    requires { CanBePlayed (plan_said plan) }
    ensures round { IfOk result (λ round. IsFirstRound (plan_said plan) round) }
    ensures cost { IfOk result (λ round. turns.new ≡ turns.old + executed_by round) }
{
    let Plan {
        beginning: Beginning { past, setup, .. },
        mut inputs,
    } = plan;
    let edited = with_next(&setup, &mut inputs)?;
    run_alone(alloc, edited, past, turns, compared)
}

/// The text that says why the executed steps of a round were executed.
fn reasons_text(alloc: Global, round: &Round) -> Result<Vec<u8>, AllocError>
    ensures { IfOk result (λ text. GivesReasons round.now text.items) }
{
    let reasons = reasons(alloc, round)?;
    text(alloc, reasons.as_slice())
}

/// The text that says why the executed steps of a plan's round were executed.
fn text_of(
    alloc: Global,
    plan: Plan,
    turns: &mut Turns,
    compared: &mut Compared,
) -> Result<Vec<u8>, AllocError>
    requires { CanBePlayed (plan_said plan) }
    ensures reasons { IfOk result (λ text. ReportsReasons (plan_said plan) text.items) }
    ensures cost { IfOk result (λ _. (input : List ℕ) (later : List (List ℕ)) →
        (plan_said plan).inputs ≡ input ∷ later
        → turns.new ≡ turns.old + executed_by (explained_round (plan_said plan).beginning input)) }
{
    let round = first_round(alloc, plan, turns, compared)?;
    reasons_text(alloc, &round)
}

/// Does all that a `why` command requests, and returns true. Every turn that it executes is counted.
///
/// # Errors
///
/// The status of the call, which is neither `Finished` nor `Unfinished`.
pub fn explain<H: Host>(
    alloc: Global,
    host: &mut H,
    line: &ExplainLine<'_>,
    turns: &mut Turns,
    compared: &mut Compared,
) -> Result<bool, Status>
    ensures ends { Ends (Some (Explains (explain_said line.now)))
        (H.world host.old) (H.world host.new) (status_in result) }
    ensures cost { ExplainSpends (explain_said line.now) (H.world host.old) (H.world host.new)
        turns.old turns.new (status_in result) }
{
    let plan = prepare(alloc, host, line)?;
    let text = text_of(alloc, plan, turns, compared)?;
    print_text(alloc, host, text.as_slice())?;
    Ok(true)
}
