//! A round that a crew makes, and its report.

ghost use Rattle.std.specs.Prelude.{◌≡◌, ◌+◌, ◌^◌, ◌<◌, ◌≤◌, length, option_map, IfOk};
ghost use Rattle.std.specs.Arc.{arc_value};
ghost use Rattle.machine_spec.specs.declared.TheConstants.{MOST_INPUT_BYTES};
ghost use Rattle.round_spec.specs.Rounds.{history_of};
ghost use Rattle.propagate.specs.Consistency.{IsOfMap};
ghost use Rattle.rerun_spec.specs.Reports.{is_exit};
ghost use Rattle.ith_commands.specs.Playing.{beginning_said};
ghost use Rattle.ith_top.specs.Making.{data_of_made, text_by, IsMadeOn};

use super::crew::{Crew, MadeRound};
use history_facts::steps_reached;
use ith_commands::{Beginning, is_exit};
use ith_host::Gate;
use rerun_spec::Asked;
use round_report::{Digested, ReportData, short, text};
use run_history::History;
use std::alloc::{AllocError, Global};
use std::sync::{Arc, Wait};
use std::thread::Threads;

/// A round that was made, with its text.
#[derive(Drop)]
pub struct ReportedRound {
    /// The text that reports it.
    pub text: Vec<u8>,
    /// Whether it ended by exit.
    pub exited: bool,
    /// The beginning of the next round.
    pub next: Beginning,
}

/// The data of the report on a round that was made, with the optional lines that are requested.
fn data_of<'a>(
    alloc: Global,
    made: &'a MadeRound,
    asked: Asked,
) -> Result<ReportData<'a>, AllocError>
    ensures { IfOk result (λ reported. reported ≡ data_of_made asked made.now) }
{
    let round = &made.round;
    let reached = if asked.reach {
        Some(steps_reached(alloc, round.past(), round.setup())?)
    } else {
        None
    };
    let progress = if asked.progress {
        Some(made.progress.as_slice())
    } else {
        None
    };
    Ok(ReportData {
        ending: round.end(),
        schedule: round.schedule(),
        reached,
        progress,
        instructions: round.instructions(),
        worker_steps: made.worker_steps.as_slice(),
        memory: round.memory(),
        output: round.output(),
    })
}

/// How a round is reported.
#[derive(Clone, Copy)]
pub enum Form {
    /// By its full report.
    Report,
    /// By one line.
    Line,
}

/// The text that reports a round that was made. A full report reuses the digest of the last reported memory if the
/// memory is the same.
fn text_of(
    alloc: Global,
    number: usize,
    asked: Asked,
    made: &MadeRound,
    form: Form,
    last: &mut Option<Digested>,
) -> Result<Vec<u8>, AllocError>
    ensures { IfOk result (λ text.
        text.items ≡ text_by form number (data_of_made asked made.now)) }
{
    let reported = data_of(alloc, made, asked)?;
    match form {
        Form::Report => text(alloc, number as u64, &reported, last),
        Form::Line => short(alloc, number as u64, &reported),
    }
}

/// The history that the next round is based on.
fn resulting_history(alloc: Global, made: MadeRound) -> Result<Arc<History>, AllocError>
    requires { IsOfMap made.round.past made.round.setup }
    ensures { IfOk result (λ shared. arc_value shared ≡ history_of made.round) }
{
    let Some(history) = made.round.into_history() else {
        unreachable!()
    };
    let shared = Arc::new(alloc, history)?;
    Ok(shared)
}

/// What is reported of a round, and the history that it leaves.
#[derive(Drop)]
struct Reported {
    /// The text that reports it.
    text: Vec<u8>,
    /// Whether it ended by exit.
    exited: bool,
    /// Its history.
    history: Arc<History>,
}

/// Reports a round that was made, and takes its history.
fn report(
    alloc: Global,
    number: usize,
    asked: Asked,
    made: MadeRound,
    form: Form,
    last: &mut Option<Digested>,
) -> Result<Reported, AllocError>
    requires { IsOfMap made.round.past made.round.setup }
    ensures text { IfOk result (λ reported.
        reported.text.items ≡ text_by form number (data_of_made asked made)) }
    ensures exited { IfOk result (λ reported.
        reported.exited ≡ is_exit made.round.machine.ending) }
    ensures history { IfOk result (λ reported.
        arc_value reported.history ≡ history_of made.round) }
{
    let text = text_of(alloc, number, asked, &made, form, last);
    let exited = is_exit(made.round.end());
    let history = resulting_history(alloc, made);
    Ok(Reported {
        text: text?,
        exited,
        history: history?,
    })
}

/// Makes a round from this beginning, on this input, by the workers of the crew, and its text.
///
/// # Errors
///
/// An error if the host's memory ran out.
pub fn make_round<R: Threads + Wait + Sync, G: Gate + Sync>(
    alloc: Global,
    beginning: Beginning,
    input: Vec<u8>,
    crew: &mut Crew<'_, R, G>,
    form: Form,
    last: &mut Option<Digested>,
) -> Result<ReportedRound, AllocError>
    requires short { length input.items ≤ MOST_INPUT_BYTES }
    requires same { IsOfMap (option_map arc_value beginning.past) beginning.setup }
    requires few { beginning.number + 1 < 2 ^ 64 }
    ensures played { IfOk result (λ played. IsMadeOn crew.old.workers form
        (beginning_said beginning) input.items crew.old.work.turns crew.new.work.turns
        played.text.items played.exited (beginning_said played.next)) }
    ensures made { IfOk result (λ _. crew.new.work.rounds ≡ crew.old.work.rounds + 1) }
    ensures one { crew.new.work.rounds ≤ crew.old.work.rounds + 1 }
    ensures workers { crew.new.workers ≡ crew.old.workers }
{
    let Beginning {
        number,
        past,
        setup,
        asked,
    } = beginning;
    let start = setup.with_input(input)?;
    let made = crew.make(alloc, number as u64, start, past, asked.progress)?;
    let Reported {
        text,
        exited,
        history,
    } = report(alloc, number, asked, made, form, last)?;
    let next = Beginning {
        number: number + 1,
        past: Some(history),
        setup,
        asked,
    };
    Ok(ReportedRound { text, exited, next })
}
