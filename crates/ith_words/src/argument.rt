//! The operands and options of the program's commands, and the arguments of `clap` that they become. No call that makes
//! an argument is inlined: arguments are large values, and one stack frame would hold all of them.

ghost use Rattle.std.specs.Prelude.{◌≡◌, ◌++◌, All, Some, map, OnOk, false};
ghost use Rattle.clap.specs.Words.{new_rule, rule_of};
ghost use Rattle.ith_words.specs.Arguments.{rule_in};
ghost use Rattle.ith_words.specs.Words as line;

use super::line::MOST_WORKERS;
use clap::builder::ValueParser;
use clap::{Arg, ArgAction};
use machine_spec::{MOST_FUEL, MOST_STEPS};
use std::alloc::{AllocError, Global};

/// An operand or option of a command, with its name and its help text.
#[derive(Clone, Copy)]
pub enum Argument<'a> {
    /// An operand, which is required.
    Operand(&'a str, &'a str),
    /// An operand that is a whole number of at most this, which is required.
    NumberOperand(&'a str, u32, &'a str),
    /// The operand for edit lists.
    Edits,
    /// An option whose argument is a whole number from 1 to this.
    Number(&'a str, u32, &'a str),
    /// The option for the memo to write.
    Memo,
    /// An option that has no argument.
    Flag(&'a str, &'a str),
}

/// The option for the number of workers.
pub fn workers<'a>() -> Argument<'a>
    ensures { rule_in result ≡ line.workers_rule }
{
    Argument::Number(
        "workers",
        MOST_WORKERS,
        "How many workers, 1 to 16 [default: 4]",
    )
}

/// The option for the most turns of a thunk.
pub fn fuel<'a>(help: &'a str) -> Argument<'a>
    ensures { rule_in result ≡ line.fuel_rule }
{
    Argument::Number("fuel", MOST_FUEL, help)
}

/// The option for the most steps of a run.
pub fn steps<'a>(help: &'a str) -> Argument<'a>
    ensures { rule_in result ≡ line.steps_rule }
{
    Argument::Number("steps", MOST_STEPS, help)
}

/// The options of a command that makes rounds, with the help texts of the limits.
pub fn round_options<'a>(turns: &'a str, most: &'a str) -> [Argument<'a>; 6]
    ensures { map rule_in result ≡ line.round_options }
{
    [
        workers(),
        fuel(turns),
        steps(most),
        Argument::Memo,
        Argument::Flag("reach", "Reports how many old steps the edit reaches"),
        Argument::Flag("progress", "Reports how many steps were made at each look"),
    ]
}

/// An operand, which is required (POSIX.1-2017, XBD 12.1).
#[inline(never)]
fn operand<'a>(alloc: Global, id: &'a str, help: &'a str) -> Arg<'a>
    ensures rule { rule_of result ≡ line.operand_rule id.entry.now }
    ensures local { result.global ≡ false }
{
    Arg::new(alloc, id).required(true).help(help)
}

/// An operand that is a whole number of at most `most`, which is required (POSIX.1-2017, XBD 12.1).
#[inline(never)]
fn number_operand<'a>(alloc: Global, id: &'a str, most: u32, help: &'a str) -> Arg<'a>
    ensures rule { rule_of result ≡ line.number_operand_rule id.entry.now most }
    ensures local { result.global ≡ false }
{
    operand(alloc, id, help).value_parser(ValueParser::Unsigned(0, u64::from(most)))
}

/// The operand for edit lists, of which there may be any number (POSIX.1-2017, XBD 12.1).
#[inline(never)]
fn edits<'a>(alloc: Global) -> Arg<'a>
    ensures rule { rule_of result ≡ line.edits_rule }
    ensures local { result.global ≡ false }
{
    Arg::new(alloc, "EDITS")
        .action(ArgAction::Append)
        .help("The names of edit lists, for a round each")
}

/// An option.
#[inline(never)]
fn option<'a>(alloc: Global, id: &'a str, action: ArgAction, help: &'a str) -> Arg<'a>
    ensures rule { rule_of result ≡ record (new_rule id.entry.now) {
      long = Some id.entry.now;
      action = Some action;
    } }
    ensures local { result.global ≡ false }
{
    Arg::new(alloc, id).long(id).action(action).help(help)
}

/// An option whose argument is a whole number from 1 to `most`.
#[inline(never)]
fn number<'a>(alloc: Global, id: &'a str, most: u32, help: &'a str) -> Arg<'a>
    ensures rule { rule_of result ≡ line.number_rule id.entry.now most }
    ensures local { result.global ≡ false }
{
    option(alloc, id, ArgAction::Set, help).value_parser(ValueParser::Unsigned(1, u64::from(most)))
}

/// An operand or option as an argument of `clap`.
#[inline(never)]
fn arg_of<'a>(alloc: Global, argument: Argument<'a>) -> Arg<'a>
    ensures rule { rule_of result ≡ rule_in argument.entry }
    ensures local { result.global ≡ false }
{
    match argument {
        Argument::Operand(id, help) => operand(alloc, id, help),
        Argument::NumberOperand(id, most, help) => number_operand(alloc, id, most, help),
        Argument::Edits => edits(alloc),
        Argument::Number(id, most, help) => number(alloc, id, most, help),
        Argument::Memo => option(
            alloc,
            "memo",
            ArgAction::Set,
            "The name of the memo to write",
        ),
        Argument::Flag(name, help) => option(alloc, name, ArgAction::SetTrue, help),
    }
}

/// Adds operands and options to the arguments of a command.
///
/// # Errors
///
/// An error if the host's memory ran out.
#[inline(never)]
pub fn add_arguments<'a>(
    alloc: Global,
    arguments: &[Argument<'a>],
    args: &mut Vec<Arg<'a>>,
) -> Result<(), AllocError>
    requires { All (λ arg. arg.global ≡ false) args.old.items }
    ensures rules { OnOk result (map rule_of args.new.items
        ≡ map rule_of args.old.items ++ map rule_in arguments.now) }
    ensures local { OnOk result (All (λ arg. arg.global ≡ false) args.new.items) }
{
    for argument in arguments {
        args.push(arg_of(alloc, *argument))?;
    }
    Ok(())
}
