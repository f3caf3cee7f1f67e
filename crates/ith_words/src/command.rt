//! The command line that the program takes, as a command of `clap`. No call that makes a command is inlined: commands
//! are large values, and one stack frame would hold all of them.

ghost use Rattle.std.specs.Prelude.{◌≡◌, ◌++◌, ◌∷◌, [], All, map, IfOk, OnOk, false};
ghost use Rattle.clap.specs.Words.{app_of};
ghost use Rattle.clap.specs.declared.builder.command.Command.TheViews.{out-Command};
ghost use Rattle.ith_words.specs.Arguments.{rule_in};
ghost use Rattle.ith_words.specs.Words as line;

use super::argument::{Argument, add_arguments, fuel, round_options, steps, workers};
use super::line::MOST_NUMBER;
use clap::Command;
use std::alloc::{AllocError, Global};

/// Adds the command of this name with these operands and options, in their order.
#[inline(never)]
fn add_command<'a>(
    alloc: Global,
    name: &'a str,
    about: &'a str,
    operands: &[Argument<'a>],
    options: &[Argument<'a>],
    commands: &mut Vec<Command<'a>>,
) -> Result<(), AllocError>
    requires { All (λ c. (out-Command c).has_globals ≡ false) commands.old.items }
    ensures shapes { OnOk result (map app_of commands.new.items ≡ map app_of commands.old.items
        ++ line.command name.entry.now (map rule_in operands.now ++ map rule_in options.now) ∷ []) }
    ensures local { OnOk result
        (All (λ c. (out-Command c).has_globals ≡ false) commands.new.items) }
{
    let mut args = Vec::new(alloc);
    add_arguments(alloc, operands, &mut args)?;
    add_arguments(alloc, options, &mut args)?;
    commands.push(Command::new(alloc, name).about(about).args(args)?)?;
    Ok(())
}

/// Adds the `run` command.
fn add_run<'a>(alloc: Global, commands: &mut Vec<Command<'a>>) -> Result<(), AllocError>
    requires { All (λ c. (out-Command c).has_globals ≡ false) commands.old.items }
    ensures shapes { OnOk result (map app_of commands.new.items
        ≡ map app_of commands.old.items ++ line.run_command ∷ []) }
    ensures local { OnOk result
        (All (λ c. (out-Command c).has_globals ≡ false) commands.new.items) }
{
    let turns = "The most turns of a thunk, 1 to 16777216 [default: 1000000]";
    let most = "The most steps of a run, 1 to 65536 [default: 4096]";
    let operands = [
        Argument::Operand("ELF", "The name of the executable"),
        Argument::Operand("INPUT", "The name of the input"),
        Argument::Edits,
    ];
    add_command(
        alloc,
        "run",
        "Runs a guest from scratch",
        &operands,
        &round_options(turns, most),
        commands,
    )
}

/// Adds the `rerun` command.
fn add_rerun<'a>(alloc: Global, commands: &mut Vec<Command<'a>>) -> Result<(), AllocError>
    requires { All (λ c. (out-Command c).has_globals ≡ false) commands.old.items }
    ensures shapes { OnOk result (map app_of commands.new.items
        ≡ map app_of commands.old.items ++ line.rerun_command ∷ []) }
    ensures local { OnOk result
        (All (λ c. (out-Command c).has_globals ≡ false) commands.new.items) }
{
    let turns = "The most turns of a thunk, 1 to 16777216 [default: the memo's]";
    let most = "The most steps of a run, 1 to 65536 [default: the memo's]";
    let operands = [
        Argument::Operand("MEMO", "The name of the memo to read"),
        Argument::Edits,
    ];
    add_command(
        alloc,
        "rerun",
        "Runs the guest of a memo again, after edits of its input",
        &operands,
        &round_options(turns, most),
        commands,
    )
}

/// Adds the `replay` command.
fn add_replay<'a>(alloc: Global, commands: &mut Vec<Command<'a>>) -> Result<(), AllocError>
    requires { All (λ c. (out-Command c).has_globals ≡ false) commands.old.items }
    ensures shapes { OnOk result (map app_of commands.new.items
        ≡ map app_of commands.old.items ++ line.replay_command ∷ []) }
    ensures local { OnOk result
        (All (λ c. (out-Command c).has_globals ≡ false) commands.new.items) }
{
    let turns = "The most turns of a thunk, 1 to 16777216 [default: 1000000]";
    let most = "The most steps of a run, 1 to 65536 [default: 4096]";
    let operands = [
        Argument::Operand("ELF", "The name of the executable"),
        Argument::Operand("INPUT", "The name of the input"),
        Argument::Operand("SCHEDULE", "The name of the schedule"),
    ];
    add_command(
        alloc,
        "replay",
        "Executes each instruction of a schedule, from scratch",
        &operands,
        &[fuel(turns), steps(most)],
        commands,
    )
}

/// Adds the `show` command.
fn add_show<'a>(alloc: Global, commands: &mut Vec<Command<'a>>) -> Result<(), AllocError>
    requires { All (λ c. (out-Command c).has_globals ≡ false) commands.old.items }
    ensures shapes { OnOk result (map app_of commands.new.items
        ≡ map app_of commands.old.items ++ line.show_command ∷ []) }
    ensures local { OnOk result
        (All (λ c. (out-Command c).has_globals ≡ false) commands.new.items) }
{
    let operands = [Argument::Operand("MEMO", "The name of the memo to read")];
    add_command(alloc, "show", "Lists a memo", &operands, &[], commands)
}

/// Adds the `why` command.
fn add_explain<'a>(alloc: Global, commands: &mut Vec<Command<'a>>) -> Result<(), AllocError>
    requires { All (λ c. (out-Command c).has_globals ≡ false) commands.old.items }
    ensures shapes { OnOk result (map app_of commands.new.items
        ≡ map app_of commands.old.items ++ line.explain_command ∷ []) }
    ensures local { OnOk result
        (All (λ c. (out-Command c).has_globals ≡ false) commands.new.items) }
{
    let operands = [
        Argument::Operand("MEMO", "The name of the memo to read"),
        Argument::Operand("EDITS", "The name of the edit list"),
    ];
    add_command(
        alloc,
        "why",
        "Explains why steps of a rerun are executed",
        &operands,
        &[],
        commands,
    )
}

/// Adds the `audit` command.
fn add_audit<'a>(alloc: Global, commands: &mut Vec<Command<'a>>) -> Result<(), AllocError>
    requires { All (λ c. (out-Command c).has_globals ≡ false) commands.old.items }
    ensures shapes { OnOk result (map app_of commands.new.items
        ≡ map app_of commands.old.items ++ line.audit_command ∷ []) }
    ensures local { OnOk result
        (All (λ c. (out-Command c).has_globals ≡ false) commands.new.items) }
{
    let operands = [Argument::Operand("MEMO", "The name of the memo to read")];
    add_command(
        alloc,
        "audit",
        "Checks whether a memo is honest",
        &operands,
        &[workers()],
        commands,
    )
}

/// Adds the `races` command.
fn add_races<'a>(alloc: Global, commands: &mut Vec<Command<'a>>) -> Result<(), AllocError>
    requires { All (λ c. (out-Command c).has_globals ≡ false) commands.old.items }
    ensures shapes { OnOk result (map app_of commands.new.items
        ≡ map app_of commands.old.items ++ line.races_command ∷ []) }
    ensures local { OnOk result
        (All (λ c. (out-Command c).has_globals ≡ false) commands.new.items) }
{
    let operands = [Argument::Operand("MEMO", "The name of the memo to read")];
    add_command(
        alloc,
        "races",
        "Lists steps that touch a page without an order",
        &operands,
        &[],
        commands,
    )
}

/// Adds the `gen` command.
fn add_generate<'a>(alloc: Global, commands: &mut Vec<Command<'a>>) -> Result<(), AllocError>
    requires { All (λ c. (out-Command c).has_globals ≡ false) commands.old.items }
    ensures shapes { OnOk result (map app_of commands.new.items
        ≡ map app_of commands.old.items ++ line.generate_command ∷ []) }
    ensures local { OnOk result
        (All (λ c. (out-Command c).has_globals ≡ false) commands.new.items) }
{
    let operands = [Argument::NumberOperand("NUMBER", MOST_NUMBER, "The number, 0 to 4294967295")];
    add_command(
        alloc,
        "gen",
        "Runs a guest on an input and an edit that are generated from a number",
        &operands,
        &[workers()],
        commands,
    )
}

/// The program, which requires one of its commands.
fn program<'a>(alloc: Global) -> Command<'a>
    ensures { app_of result ≡ line.program }
{
    Command::new(alloc, "ithreads")
        .about(
            "Runs a guest, and after an edit of its input what the edit reaches: see ithreads(1)",
        )
        .subcommand_required(true)
}

/// The commands, in the order in which the help lists them.
#[inline(never)]
fn commands<'a>(alloc: Global) -> Result<Vec<Command<'a>>, AllocError>
    ensures shapes { IfOk result (λ commands. map app_of commands.items ≡ line.commands) }
    ensures local { IfOk result
        (λ commands. All (λ c. (out-Command c).has_globals ≡ false) commands.items) }
{
    let mut commands = Vec::new(alloc);
    add_run(alloc, &mut commands)?;
    add_rerun(alloc, &mut commands)?;
    add_replay(alloc, &mut commands)?;
    add_show(alloc, &mut commands)?;
    add_explain(alloc, &mut commands)?;
    add_audit(alloc, &mut commands)?;
    add_races(alloc, &mut commands)?;
    add_generate(alloc, &mut commands)?;
    Ok(commands)
}

/// The program's command line.
///
/// # Errors
///
/// An error if the host's memory ran out.
#[inline(never)]
pub fn command_line<'a>(alloc: Global) -> Result<Command<'a>, AllocError>
    ensures { IfOk result (λ c. app_of c ≡ line.command_line) }
{
    let commands = commands(alloc)?;
    program(alloc).subcommands(commands)
}
