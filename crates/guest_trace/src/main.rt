//! Runs a guest under a schedule, and prints what each step of its threads does, as `strace` does for a process.
//!
//! Its arguments are `ELF INPUT SCHEDULE`, then optionally `--fuel F` and `--steps S`. SCHEDULE is a file of thread
//! numbers from 0 to 31, separated by spaces and newlines. A mark `=` or `+` may follow each number, and the word
//! `schedule` may precede them all, so that the line of a report can be used as it is. The guest is run from scratch,
//! with these limits or the default limits of `ithreads run`.
//!
//! It prints a line for each step: its place in the schedule, the thread, which step of the thread it is, its count of
//! instructions, the call that ended it with its arguments, and the effect of the call: the answer, or what the thread
//! waits for; which threads are woken with which answer; and where a created thread begins. Then it prints how the run
//! ended, and for a deadlock what each thread waits for and which threads hold it.
//!
//! The status is 0 if the run was traced to its end. Otherwise one line on standard error says what is wrong and where.
//! The status is then 2 for wrong arguments, 3 for an executable that isn't taken, 6 for a file that can't be read, 7
//! for an output that can't be written, 8 if memory ran out, 9 for a file that is too large, and 10 for a schedule with
//! a bad token, with an entry that isn't permitted, or without an end after its last entry.
#![tactic(auto)]

ghost use Rattle.std.specs.Prelude.{◌≡◌, ◌≤◌, ◌<◌, length, IfOk};

mod calls;
mod refusal;
mod schedule;
mod tracing;
mod waits;

use elf_load::LoadError;
use elf_spec::MOST_ELF_BYTES;
use ith_host::{Got, Host, OsHost};
use machine_spec::{Limits, MOST_INPUT_BYTES};
use refusal::Refusal;
use run_history::Setup;
use rv_isa::Turns;
use schedule::tokens_of;
use schedule_list::{MOST_SCHEDULE_BYTES, parse};
use std::alloc::Global;
use std::fs::Files;
use std::io::{BufWriter, Eprint, Print, Write};
use std::process::ExitCode;
use std::thread::Threads;
use std::{env, io};
use tracing::trace;

/// The most turns of a thunk, by default.
const FUEL: u32 = 1_000_000;

/// The most steps of a run, by default.
const STEPS: u32 = 4096;

/// Reads the file that an argument names.
fn read_file<H: Host>(
    alloc: Global,
    host: &mut H,
    words: &[String],
    place: usize,
    limit: u64,
) -> Result<Vec<u8>, Refusal>
    requires { place < length words.now }
    ensures { IfOk result (λ bytes. length bytes.items ≤ limit) }
{
    let mut bytes = Vec::new(alloc);
    match host.read(words[place].as_str(), limit, &mut bytes) {
        Got::Ok => Ok(bytes),
        Got::Failed => Err(Refusal::Unread(place)),
        Got::TooLong => Err(Refusal::TooLarge(place)),
        Got::NoMemory => Err(Refusal::NoMemory),
    }
}

/// The setup of a run, and its schedule.
#[derive(Drop)]
struct Asked {
    setup: Setup,
    schedule: Vec<u8>,
}

/// The fuel and the step limit after the option at a place, unchanged if there is no option; none if it isn't an option
/// with a number.
fn after_option(words: &[String], place: usize, fuel: u32, steps: u32) -> Option<(u32, u32)> {
    if words.len() <= place {
        return Some((fuel, steps));
    }
    if words.len() == place + 1 {
        return None;
    }
    let Ok(number) = u32::from_str_radix(words[place + 1].as_str(), 10) else {
        return None;
    };
    match words[place].as_str() {
        "--fuel" => Some((number, steps)),
        "--steps" => Some((fuel, number)),
        _ => None,
    }
}

/// The limits that the arguments after the three names request.
fn limits_of(words: &[String]) -> Option<Limits> {
    if words.len() > 8 {
        return None;
    }
    let (fuel, steps) = after_option(words, 4, FUEL, STEPS)?;
    let (fuel, steps) = after_option(words, 6, fuel, steps)?;
    Limits::new(fuel, steps)
}

/// Reads what the arguments name. They are the program's name and three more, and then options.
fn wanted<H: Host>(alloc: Global, host: &mut H, words: &[String]) -> Result<Asked, Refusal> {
    if words.len() < 4 {
        return Err(Refusal::Words);
    }
    let Some(limits) = limits_of(words) else {
        return Err(Refusal::Words);
    };
    let elf = read_file(alloc, host, words, 1, MOST_ELF_BYTES as u64)?;
    let input = read_file(alloc, host, words, 2, MOST_INPUT_BYTES as u64)?;
    let text = read_file(alloc, host, words, 3, MOST_SCHEDULE_BYTES as u64)?;
    let setup = match Setup::new(alloc, elf, input, limits) {
        Ok(setup) => setup,
        Err(LoadError::Refused(why)) => return Err(Refusal::Image(why)),
        Err(LoadError::NoMemory) => return Err(Refusal::NoMemory),
    };
    let schedule = parse(alloc, tokens_of(text.as_slice()))?;
    Ok(Asked { setup, schedule })
}

/// Traces the run that the arguments name.
fn answer<R: Threads + Files + Print + Eprint>(
    rt: &R,
    alloc: Global,
    words: &[String],
) -> Result<(), Refusal> {
    let mut host = OsHost::new(rt);
    let asked = wanted(alloc, &mut host, words)?;
    let mut out = BufWriter::new(alloc, io::writer(rt))?;
    let traced = trace(
        alloc,
        &mut out,
        &asked.setup,
        asked.schedule.as_slice(),
        &mut Turns::new(rt),
    );
    out.flush()?;
    traced
}

/// The arguments of the command line, from the program's name on.
fn words_of(alloc: Global, rt: &HostRuntime) -> Result<Vec<String>, Refusal> {
    match env::args(rt) {
        Ok(args) => match args.collect(alloc) {
            Ok(words) => Ok(words),
            Err(_) => Err(Refusal::NoMemory),
        },
        Err(_) => Err(Refusal::Words),
    }
}

fn main(rt: HostRuntime) -> ExitCode {
    let alloc = rt.alloc();
    let words = match words_of(alloc, &rt) {
        Ok(words) => words,
        Err(refusal) => return refusal.reported(&rt, &[]),
    };
    match answer(&rt, alloc, words.as_slice()) {
        Ok(()) => ExitCode::SUCCESS,
        Err(refusal) => refusal.reported(&rt, words.as_slice()),
    }
}
