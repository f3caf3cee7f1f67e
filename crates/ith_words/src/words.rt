//! The arguments of the command line.

ghost use Rattle.std.specs.Prelude.{◌≡◌, map, option_and_then, option_map, string_bytes, [], IfOk, IfErr};
ghost use Rattle.clap.specs.Words.{fault_of, found_of, rows_of, subcommand_of, subcommand_rows_of};
ghost use Rattle.ith_words.specs.Words as line;
ghost use Rattle.ith_words.specs.Said.{run_said, rerun_said, replay_said, show_said, explain_said, audit_said, races_said, generate_said, line_said};
ghost use Rattle.ith_words.specs.Refusals.{WhyNoLine, WhyFault};

use super::command::command_line;
use super::given::{
    edits_of, flag_of, fuel_of, generator_of, limits_of, memo_of, operand_of, steps_of, workers_of,
};
use super::line::{
    AuditLine, ExplainLine, GenerateLine, Line, RacesLine, ReplayLine, RerunLine, RunLine, ShowLine,
};
use clap::error::ErrorKind;
use clap::{ArgMatches, Error};
use std::alloc::{AllocError, Global};

/// Why arguments are no command line.
#[derive(Drop)]
pub enum LineFault {
    /// They aren't accepted, or request help: the text to show.
    Refused(Vec<u8>),
    /// The host's memory ran out.
    NoMemory,
}

/// The text to show if arguments are refused: `words: ` and why. It is cut short if the host's memory runs out.
fn refusal(alloc: Global, why: &str) -> Vec<u8> {
    let mut text = Vec::new(alloc);
    let _ = text.extend_from_slice(b"words: ");
    let _ = text.extend_from_slice(why.as_bytes());
    text
}

/// The fault for an error of the parser. Its text is why the arguments are refused, with the usage, or the help that
/// they request.
fn fault_by(alloc: Global, error: Error) -> LineFault
    ensures { WhyFault error result }
{
    if error.kind() == ErrorKind::OutOfMemory {
        return LineFault::NoMemory;
    }
    LineFault::Refused(match error.to_string(alloc) {
        Ok(why) => refusal(alloc, why.as_str().trim_end()),
        Err(_) => refusal(alloc, ""),
    })
}

/// Parses the arguments.
#[inline(never)]
fn matches_given<'a>(alloc: Global, words: &'a [String]) -> Result<ArgMatches<'a>, LineFault>
    ensures faultless { IfOk result
        (λ given. fault_of line.command_line (map string_bytes words.entry.now) ≡ []) }
    ensures rows { IfOk result (λ given. subcommand_rows_of given ≡ subcommand_of line.command_line
        (map string_bytes words.entry.now)) }
    ensures refused { IfErr result (WhyNoLine (map string_bytes words.entry.now)) }
{
    let command = match command_line(alloc) {
        Ok(command) => command,
        Err(_) => return Err(LineFault::NoMemory),
    };
    match command.try_get_matches_from(words) {
        Ok(given) => Ok(given),
        Err(error) => Err(fault_by(alloc, error)),
    }
}

/// The `run` command line of the parsed arguments.
fn run_line<'a>(alloc: Global, given: &ArgMatches<'a>) -> Result<RunLine<'a>, AllocError>
    ensures { IfOk result (λ said. run_said said ≡ line.run_line (rows_of (found_of given.now))) }
{
    let edits = match edits_of(alloc, given) {
        Ok(edits) => edits,
        Err(error) => return Err(error),
    };
    Ok(RunLine {
        elf: operand_of(given, "ELF"),
        input: operand_of(given, "INPUT"),
        edits,
        workers: workers_of(given),
        limits: limits_of(given),
        new_memo: memo_of(given),
        reach: flag_of(given, "reach"),
        progress: flag_of(given, "progress"),
    })
}

/// The `rerun` command line of the parsed arguments.
fn rerun_line<'a>(alloc: Global, given: &ArgMatches<'a>) -> Result<RerunLine<'a>, AllocError>
    ensures { IfOk result (λ said. rerun_said said
        ≡ line.rerun_line (rows_of (found_of given.now))) }
{
    let edits = match edits_of(alloc, given) {
        Ok(edits) => edits,
        Err(error) => return Err(error),
    };
    Ok(RerunLine {
        memo: operand_of(given, "MEMO"),
        edits,
        workers: workers_of(given),
        fuel: fuel_of(given),
        steps: steps_of(given),
        new_memo: memo_of(given),
        reach: flag_of(given, "reach"),
        progress: flag_of(given, "progress"),
    })
}

/// The `replay` command line of the parsed arguments.
fn replay_line<'a>(given: &ArgMatches<'a>) -> ReplayLine<'a>
    ensures { replay_said result ≡ line.replay_line (rows_of (found_of given.now)) }
{
    ReplayLine {
        elf: operand_of(given, "ELF"),
        input: operand_of(given, "INPUT"),
        schedule: operand_of(given, "SCHEDULE"),
        limits: limits_of(given),
    }
}

/// The `show` command line of the parsed arguments.
fn show_line<'a>(given: &ArgMatches<'a>) -> ShowLine<'a>
    ensures { show_said result ≡ line.show_line (rows_of (found_of given.now)) }
{
    ShowLine {
        memo: operand_of(given, "MEMO"),
    }
}

/// The `why` command line of the parsed arguments.
fn explain_line<'a>(given: &ArgMatches<'a>) -> ExplainLine<'a>
    ensures { explain_said result ≡ line.explain_line (rows_of (found_of given.now)) }
{
    ExplainLine {
        memo: operand_of(given, "MEMO"),
        edits: operand_of(given, "EDITS"),
    }
}

/// The `audit` command line of the parsed arguments.
fn audit_line<'a>(given: &ArgMatches<'a>) -> AuditLine<'a>
    ensures { audit_said result ≡ line.audit_line (rows_of (found_of given.now)) }
{
    AuditLine {
        memo: operand_of(given, "MEMO"),
        workers: workers_of(given),
    }
}

/// The `races` command line of the parsed arguments.
fn races_line<'a>(given: &ArgMatches<'a>) -> RacesLine<'a>
    ensures { races_said result ≡ line.races_line (rows_of (found_of given.now)) }
{
    RacesLine {
        memo: operand_of(given, "MEMO"),
    }
}

/// The `gen` command line of the parsed arguments.
fn generate_line(given: &ArgMatches<'_>) -> GenerateLine
    ensures { generate_said result ≡ line.generate_line (rows_of (found_of given.now)) }
{
    GenerateLine {
        number: generator_of(given),
        workers: workers_of(given),
    }
}

/// The command line of a command's name and its parsed arguments, if there is such a command.
fn line_named<'a>(
    alloc: Global,
    name: &str,
    given: &ArgMatches<'a>,
) -> Result<Option<Line<'a>>, AllocError>
    ensures { IfOk result (λ said. line.line_named (name.now, rows_of (found_of given.now))
        ≡ option_map line_said said) }
{
    Ok(Some(match name {
        "run" => Line::Run(run_line(alloc, given)?),
        "rerun" => Line::Rerun(rerun_line(alloc, given)?),
        "replay" => Line::Replay(replay_line(given)),
        "show" => Line::Show(show_line(given)),
        "why" => Line::Explain(explain_line(given)),
        "audit" => Line::Audit(audit_line(given)),
        "races" => Line::FindRaces(races_line(given)),
        "gen" => Line::Generate(generate_line(given)),
        _ => return Ok(None),
    }))
}

/// The command line of the parsed arguments, if there is such a command.
fn line_found<'a>(alloc: Global, given: &ArgMatches<'a>) -> Result<Option<Line<'a>>, AllocError>
    ensures { IfOk result (λ said. option_and_then line.line_named (subcommand_rows_of given.now)
        ≡ option_map line_said said) }
{
    match given.subcommand() {
        Some((name, below)) => line_named(alloc, name, below),
        None => Ok(None),
    }
}

/// The command line of the arguments. The first argument is the program's name.
///
/// # Errors
///
/// `Refused` if the arguments aren't accepted or request help, and `NoMemory` if the host's memory ran out.
#[tactic(auto, unfolding(crate::specs::Words::line_of))]
pub fn line_of<'a>(alloc: Global, words: &'a [String]) -> Result<Line<'a>, LineFault>
    ensures accepted { IfOk result (λ said. line.line_of (map string_bytes words.entry.now)
        ≡ Some (line_said said)) }
    ensures refused { IfErr result (WhyNoLine (map string_bytes words.entry.now)) }
{
    let given = match matches_given(alloc, words) {
        Ok(given) => given,
        Err(fault) => return Err(fault),
    };
    match line_found(alloc, &given) {
        Ok(Some(line)) => Ok(line),
        // the parser accepts no other command
        Ok(None) => Err(LineFault::Refused(refusal(alloc, "no command"))),
        Err(_) => Err(LineFault::NoMemory),
    }
}
