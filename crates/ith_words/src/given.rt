//! The values that the parser found for the operands and options of a command.

ghost use Rattle.std.specs.Prelude.{◌≡◌, ◌≤◌, map, codes, unwrap_or, option_map, [], IfOk, IfSome};
ghost use Rattle.clap.specs.Words.{all_of, first_of, found_of, one_of, rows_of};
ghost use Rattle.ith_words.specs.Words as line;

use super::line::{MOST_NUMBER, MOST_WORKERS};
use clap::ArgMatches;
use machine_spec::{Limits, MOST_FUEL, MOST_STEPS};
use std::alloc::{AllocError, Global};

/// The default number of workers.
const DEFAULT_WORKERS: u32 = 4;

/// The default for the most turns of a thunk.
const DEFAULT_FUEL: u32 = 1_000_000;

/// The default for the most steps of a run.
const DEFAULT_STEPS: u32 = 4096;

/// The text of an operand, or the empty text if there is no such operand.
#[tactic(auto, using(crate::proofs::Rows::first_value_of_rows))]
pub fn operand_of<'a>(given: &ArgMatches<'a>, id: &str) -> &'a str
    ensures { result.now ≡ line.operand id.now (rows_of (found_of given.now)) }
{
    match given.get_str(id) {
        Some(text) => text,
        None => "",
    }
}

/// The names of the edit lists, in the order of the command line.
#[tactic(auto, using(crate::proofs::Rows::values_of_rows))]
pub fn edits_of<'a>(alloc: Global, given: &ArgMatches<'a>) -> Result<Vec<&'a str>, AllocError>
    ensures { IfOk result (λ names. map (λ name. name.now) names.items ≡ line.edits_named (rows_of
        (found_of given.now))) }
{
    match given.get_raw("EDITS") {
        Some(names) => Vec::from_slice(alloc, names),
        None => Ok(Vec::new(alloc)),
    }
}

/// The default limits of a run.
pub fn default_limits() -> Limits
    ensures { result ≡ record { fuel = line.default_fuel; steps = line.default_limit } }
{
    match Limits::new(DEFAULT_FUEL, DEFAULT_STEPS) {
        Some(limits) => limits,
        None => unreachable!(),
    }
}

/// The number of an operand or option, if the command line has one from `least` to `most`.
fn number_of(given: &ArgMatches<'_>, id: &str, least: u32, most: u32) -> Option<u32>
    ensures value { result
        ≡ line.number_given least most (one_of id.now (rows_of (found_of given.now))) }
    ensures within { IfSome result (λ number. (least ≤ number) × (number ≤ most)) }
{
    match given.get_one::<u32>(id) {
        Some(number) if least <= number && number <= most => Some(number),
        _ => None,
    }
}

/// The number to generate from.
pub fn generator_of(given: &ArgMatches<'_>) -> u32
    ensures { result ≡ line.number_named (rows_of (found_of given.now)) }
{
    number_of(given, "NUMBER", 0, MOST_NUMBER).unwrap_or(0)
}

/// How many workers there are.
pub fn workers_of(given: &ArgMatches<'_>) -> u32
    ensures value { result ≡ line.workers_named (rows_of (found_of given.now)) }
    ensures least { 1 ≤ result }
    ensures most { result ≤ MOST_WORKERS }
{
    number_of(given, "workers", 1, MOST_WORKERS).unwrap_or(DEFAULT_WORKERS)
}

/// The most turns of a thunk, if `--fuel` is given.
pub fn fuel_of(given: &ArgMatches<'_>) -> Option<u32>
    ensures value { result ≡ line.fuel_given (rows_of (found_of given.now)) }
    ensures within { IfSome result (λ fuel. (1 ≤ fuel) × (fuel ≤ MOST_FUEL)) }
{
    number_of(given, "fuel", 1, MOST_FUEL)
}

/// The most steps of a run, if `--steps` is given.
pub fn steps_of(given: &ArgMatches<'_>) -> Option<u32>
    ensures value { result ≡ line.limit_given (rows_of (found_of given.now)) }
    ensures within { IfSome result (λ steps. (1 ≤ steps) × (steps ≤ MOST_STEPS)) }
{
    number_of(given, "steps", 1, MOST_STEPS)
}

/// The limits of the run.
pub fn limits_of(given: &ArgMatches<'_>) -> Limits
    ensures fuel { result.fuel ≡ line.fuel_named (rows_of (found_of given.now)) }
    ensures steps { result.steps ≡ line.limit_named (rows_of (found_of given.now)) }
{
    let fuel = fuel_of(given).unwrap_or(DEFAULT_FUEL);
    let steps = steps_of(given).unwrap_or(DEFAULT_STEPS);
    match Limits::new(fuel, steps) {
        Some(limits) => limits,
        None => unreachable!(),
    }
}

/// The name of the memo to write, if `--memo` is given.
#[tactic(auto, using(crate::proofs::Rows::first_value_of_rows))]
pub fn memo_of<'a>(given: &ArgMatches<'a>) -> Option<&'a str>
    ensures { option_map (λ name. name.now) result
        ≡ line.memo_named (rows_of (found_of given.now)) }
{
    given.get_str("memo")
}

/// Whether this option, which has no argument, is given.
pub fn flag_of(given: &ArgMatches<'_>, name: &str) -> bool
    ensures { result ≡ line.flag_named name.now (rows_of (found_of given.now)) }
{
    // the contract of `get_flag` says nothing about a text that isn't a `bool`
    given.get_one::<bool>(name).unwrap_or(false)
}
