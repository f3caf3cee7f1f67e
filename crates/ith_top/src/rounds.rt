//! The rounds of a command line, one after the other.

ghost use Rattle.std.specs.Prelude.{◌≡◌, ◌+◌, ◌^◌, ◌<◌, ◌≤◌, length, option_map, IfOk, IfErr};
ghost use Rattle.std.specs.Arc.{arc_value};
ghost use Rattle.propagate.specs.Consistency.{IsOfMap};
ghost use Rattle.rerun_spec.specs.Inputs.{AreShort};
ghost use Rattle.ith_host.specs.World.{NoneFell, AsksNothing};
ghost use Rattle.ith_commands.specs.Refusals.{IsPlayedInPart};
ghost use Rattle.ith_commands.specs.Playing.{beginning_said, plan_said, CanBePlayed, IsPlayed};
ghost use Rattle.ith_top.specs.Making.{IsNextMade};

use super::crew::Crew;
use super::report::{Form, ReportedRound, make_round};
use edit_list::Inputs;
use ith_commands::{Beginning, Plan, Status, print_text, take_input};
use ith_host::{Gate, Host};
use round_report::Digested;
use run_history::History;
use std::alloc::{AllocError, Global};
use std::sync::{Arc, Wait};
use std::thread::Threads;

/// Makes a round from this beginning, on the next of some inputs, by the workers of the crew, and its text.
///
/// # Errors
///
/// An error if the host's memory ran out.
pub fn make_next<R: Threads + Wait + Sync, G: Gate + Sync>(
    alloc: Global,
    beginning: Beginning,
    inputs: &mut Inputs,
    crew: &mut Crew<'_, R, G>,
    form: Form,
    last: &mut Option<Digested>,
) -> Result<ReportedRound, AllocError>
    requires some { 0 < length inputs.old }
    requires short { AreShort inputs.old }
    requires same { IsOfMap (option_map arc_value beginning.past) beginning.setup }
    requires few { beginning.number + length inputs.old < 2 ^ 64 }
    ensures played { IfOk result (λ played. IsNextMade crew.old.workers form
        (beginning_said beginning) inputs.old inputs.new crew.old.work.turns crew.new.work.turns
        played.text.items played.exited (beginning_said played.next)) }
    ensures made { IfOk result (λ _. crew.new.work.rounds ≡ crew.old.work.rounds + 1) }
    ensures one { crew.new.work.rounds ≤ crew.old.work.rounds + 1 }
    ensures workers { crew.new.workers ≡ crew.old.workers }
{
    let input = take_input(inputs)?;
    make_round(alloc, beginning, input, crew, form, last)
}

/// The outcome of the rounds of a command line.
#[derive(Drop)]
pub struct Outcome {
    /// Whether each ended by exit.
    pub exits: bool,
    /// The history of the last one.
    pub history: Arc<History>,
}

/// Makes the rounds of a plan, each based on the history of the one before it, and prints the text of each before the
/// next one begins.
pub fn make_rounds<R: Threads + Wait + Sync, H: Host, G: Gate + Sync>(
    alloc: Global,
    host: &mut H,
    plan: Plan,
    crew: &mut Crew<'_, R, G>,
) -> Result<Outcome, Status>
    requires { CanBePlayed (plan_said plan) }
    ensures played { IfOk result (λ outcome. IsPlayed crew.old.workers (plan_said plan)
        (H.world host.old) (H.world host.new) crew.old.work crew.new.work outcome.exits
        (arc_value outcome.history)) }
    ensures refused { IfErr result (λ status. IsPlayedInPart crew.old.workers (plan_said plan)
        (H.world host.old) (H.world host.new) crew.old.work crew.new.work status) }
    ensures asked { AsksNothing (H.world host.old) (H.world host.new) }
    ensures counts { NoneFell (H.world host.old) (H.world host.new) }
{
    let Plan {
        mut beginning,
        mut inputs,
    } = plan;
    let mut last = None;
    let mut exits = true;
    for place in 0..inputs.len() {
        let ReportedRound { text, exited, next } = make_next(
            alloc,
            beginning,
            &mut inputs,
            crew,
            Form::Report,
            &mut last,
        )?;
        print_text(alloc, host, text.as_slice())?;
        beginning = next;
        exits &= exited;
    }
    let Beginning { past, .. } = beginning;
    match past {
        Some(history) => Ok(Outcome { exits, history }),
        None => unreachable!(),
    }
}
