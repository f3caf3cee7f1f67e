//! What a `replay` command does.

ghost use Rattle.std.specs.Prelude.{◌≡◌, ◌+◌, Ok, IfOk, IfErr, Some};
ghost use Rattle.plain_machine.specs.Replaying.{IsOutcomeOf};
ghost use Rattle.rerun_spec.specs.Reports as reports;
ghost use Rattle.schedule_list.specs.Schedule.{Says};
ghost use Rattle.ith_words.specs.Words.{Replays};
ghost use Rattle.ith_words.specs.Said.{replay_said};
ghost use Rattle.ith_commands.specs.Statuses.{status_in};
ghost use Rattle.ith_commands.specs.Files.{Quiet};
ghost use Rattle.ith_commands.specs.Ends.{Ends, EndsEarly};
ghost use Rattle.ith_commands.specs.Counting.{ReplaySpends};
ghost use Rattle.ith_commands.specs.Refusals.{WhyNoThreads, WhyUnreplayed};
ghost use Rattle.ith_commands.specs.Playing.{IsAskedReplay, ReportsReplay, data_of_outcome};

use super::complaints::{INCOMPLETE, schedule_line};
use super::files::{ReplayFiles, read_replay_files};
use super::outside::print_text;
use super::plan::set_up;
use super::status::{Status, is_exit};
use ith_host::Host;
use ith_words::ReplayLine;
use plain_machine::{Outcome, ReplayError, replay as replay_from_scratch};
use report_spec::Entry;
use round_report::{ReportData, replayed};
use run_history::Setup;
use rv_isa::Turns;
use schedule_list::{ParseError, parse};
use std::alloc::{AllocError, Global};

/// The threads that the text of a schedule encodes.
fn threads_of<H: Host>(alloc: Global, host: &mut H, text: &[u8]) -> Result<Vec<u8>, Status>
    ensures threads { IfOk result (λ threads. Says text.now (Ok threads.items)) }
    ensures refused { IfErr result (λ status. WhyNoThreads text.now status) }
    ensures quiet { Quiet (H.world host.old) (H.world host.new) }
{
    match parse(alloc, text) {
        Ok(threads) => Ok(threads),
        Err(ParseError::BadToken(number)) => {
            host.complain(&schedule_line(alloc, "token", number));
            Err(Status::Schedule)
        }
        Err(ParseError::NoMemory) => Err(Status::NoMemory),
    }
}

/// The setup of a `replay` command, and the schedule's text. Its files are read, and then the executable is checked.
fn prepare<H: Host>(
    alloc: Global,
    host: &mut H,
    line: &ReplayLine<'_>,
) -> Result<(Setup, Vec<u8>), Status>
    ensures replay { IfOk result (λ r. IsAskedReplay (replay_said line.now)
        (H.world host.old) (H.world host.new) r.0 r.1.items) }
    ensures refused { IfErr result (λ status. EndsEarly (Replays (replay_said line.now))
        (H.world host.old) (H.world host.new) status) }
{
    let ReplayFiles {
        elf,
        input,
        schedule,
    } = read_replay_files(alloc, host, line)?;
    let setup = set_up(alloc, host, elf, input, line.limits)?;
    Ok((setup, schedule))
}

/// The threads that the text of a schedule encodes, and their outcome from scratch.
fn outcome_of<H: Host>(
    alloc: Global,
    host: &mut H,
    setup: &Setup,
    text: &[u8],
    turns: &mut Turns,
) -> Result<(Vec<u8>, Outcome), Status>
    ensures threads { IfOk result (λ r. Says text.now (Ok r.0.items)) }
    ensures outcome { IfOk result (λ r. IsOutcomeOf setup.now r.0.items r.1) }
    ensures cost { IfOk result (λ r. turns.new ≡ turns.old + r.1.instructions) }
    ensures refused { IfErr result (λ status. WhyUnreplayed setup.now text.now status) }
    ensures quiet { Quiet (H.world host.old) (H.world host.new) }
{
    let threads = threads_of(alloc, host, text)?;
    match replay_from_scratch(alloc, setup, threads.as_slice(), turns) {
        Ok(outcome) => Ok((threads, outcome)),
        Err(ReplayError::Forbidden(number)) => {
            host.complain(&schedule_line(alloc, "entry", number));
            Err(Status::Schedule)
        }
        Err(ReplayError::Incomplete) => {
            host.complain(INCOMPLETE);
            Err(Status::Schedule)
        }
        Err(ReplayError::NoMemory) => Err(Status::NoMemory),
    }
}

/// The entries of a schedule of which each step is executed.
fn all_executed(alloc: Global, threads: &[u8]) -> Result<Vec<Entry>, AllocError>
    ensures { IfOk result (λ entries. entries.items ≡ reports.all_executed threads.now) }
{
    let mut entries = Vec::new(alloc);
    for thread in threads {
        entries.push(Entry {
            thread: *thread,
            reused: false,
        })?;
    }
    Ok(entries)
}

/// The data of the report on a schedule of these entries, by its outcome.
fn data_of<'a>(entries: &'a [Entry], outcome: &'a Outcome) -> ReportData<'a>
    ensures { result ≡ data_of_outcome entries.now outcome.now }
{
    ReportData {
        ending: Some(outcome.ending),
        schedule: entries,
        reached: None,
        progress: None,
        instructions: outcome.instructions,
        worker_steps: &[],
        memory: &outcome.memory,
        output: outcome.output.as_slice(),
    }
}

/// The text that reports the outcome of a schedule.
fn text_of(alloc: Global, threads: &[u8], outcome: &Outcome) -> Result<Vec<u8>, AllocError>
    ensures { IfOk result (λ text. ReportsReplay threads.now outcome.now text.items) }
{
    let entries = all_executed(alloc, threads)?;
    replayed(alloc, &data_of(entries.as_slice(), outcome))
}

/// Does all that a `replay` command requests, and returns whether the replay ended by exit. Every turn that it executes
/// is counted.
///
/// # Errors
///
/// The status of the call, which is neither `Finished` nor `Unfinished`.
pub fn replay<H: Host>(
    alloc: Global,
    host: &mut H,
    line: &ReplayLine<'_>,
    turns: &mut Turns,
) -> Result<bool, Status>
    ensures ends { Ends (Some (Replays (replay_said line.now)))
        (H.world host.old) (H.world host.new) (status_in result) }
    ensures cost { ReplaySpends (replay_said line.now) (H.world host.old) (H.world host.new)
        turns.old turns.new (status_in result) }
{
    let (threads, outcome) = {
        let (setup, schedule) = prepare(alloc, host, line)?;
        outcome_of(alloc, host, &setup, schedule.as_slice(), turns)?
    };
    let text = text_of(alloc, threads.as_slice(), &outcome)?;
    print_text(alloc, host, text.as_slice())?;
    Ok(is_exit(Some(outcome.ending)))
}
