//! A run, step by step, with a line for each.

use crate::calls::{Answer, Named, cause_name};
use crate::refusal::{Refusal, Why};
use crate::waits::{Wait, Waits};
use guest_call::{Fate, THREADS};
use machine_spec::{Asked, End, Status};
use plain_machine::{PlainMachine, StepResult};
use run_history::Setup;
use rv_isa::Turns;
use std::alloc::Global;
use std::io;
use std::io::Write;
use sync_objects::Effect;

/// Writes which threads hold a reader-writer lock.
fn write_holders<W: Write>(out: &mut W, waits: &Waits, lock: u32) -> io::Result<()> {
    let mut before = ", held by";
    for thread in 0..THREADS as u8 {
        if waits.holds(lock, thread) {
            write!(out, "{before} thread {thread}")?;
            before = " and";
        }
    }
    Ok(())
}

/// Writes what a thread waits for, and which threads hold it.
fn write_wait<W: Write>(out: &mut W, waits: &Waits, thread: u8) -> io::Result<()> {
    let Some(wait) = waits.wait_of(thread) else {
        return Ok(());
    };
    write!(out, "waits for {wait}")?;
    match wait {
        Wait::Mutex(mutex) => match waits.owner(mutex) {
            Some(owner) => write!(out, ", held by thread {owner}"),
            None => Ok(()),
        },
        Wait::Read(lock) | Wait::Write(lock) => write_holders(out, waits, lock),
        _ => Ok(()),
    }
}

/// Writes what became of the caller.
fn write_fate<W: Write>(out: &mut W, waits: &Waits, thread: u8, fate: Fate) -> io::Result<()> {
    match fate {
        Fate::Returns(a0, reported) => {
            write!(out, " = {}", Answer(a0))?;
            match reported {
                Some(value) => write!(out, " and {value}"),
                None => Ok(()),
            }
        }
        Fate::Blocks => {
            write!(out, " ")?;
            write_wait(out, waits, thread)
        }
        Fate::Ends(_) => write!(out, " ends the thread"),
        Fate::Exits(_) => write!(out, " ends the run"),
    }
}

/// Writes which threads are woken with which answer, and where a created thread begins.
fn write_others<W: Write>(out: &mut W, effect: &Effect) -> io::Result<()> {
    let woken = effect.woken();
    for i in 0..woken.len() {
        write!(out, ", wakes thread {} with 0", woken.at(i).number())?;
        if let Some(value) = effect.reported() {
            write!(out, " and {value}")?;
        }
    }
    if let Some((pc, argument)) = effect.created() {
        write!(out, ", begins at {pc:08x} with {argument}")?;
    }
    Ok(())
}

/// Writes how a step's thunk ended, and the effect of its call.
fn write_made<W: Write>(
    out: &mut W,
    waits: &Waits,
    thread: u8,
    made: &StepResult,
) -> io::Result<()> {
    match made.asked {
        Asked::Asks(call) => {
            write!(out, "{}", Named(call))?;
            if let Some(effect) = &made.effect {
                write_fate(out, waits, thread, effect.fate())?;
                write_others(out, effect)?;
            }
        }
        Asked::Stops(End::Trap { pc, cause, .. }) => {
            let number = cause.number();
            write!(
                out,
                "trap at {pc:08x}, cause {number}: {}",
                cause_name(cause)
            )?;
        }
        Asked::Stops(_) => write!(out, "no call within the fuel")?,
    }
    writeln!(out)
}

/// Notes what a step's call does to mutexes, reader-writer locks and waits.
fn note(waits: &mut Waits, thread: u8, made: &StepResult) {
    if let Asked::Asks(call) = made.asked {
        if let Some(effect) = &made.effect {
            waits.note(thread, call, effect);
        }
    }
}

/// Writes how the run ended, as in a report.
fn write_end<W: Write>(out: &mut W, end: End) -> io::Result<()> {
    match end {
        End::Exit(code) => writeln!(out, "end exit {code}"),
        End::Trap { thread, pc, cause } => {
            let number = cause.number();
            writeln!(out, "end trap {thread} {pc:08x} {number}")
        }
        End::Deadlock => writeln!(out, "end deadlock"),
        End::Spent => writeln!(out, "end spent"),
    }
}

/// Writes what each blocked thread waits for.
fn write_waits<W: Write>(out: &mut W, machine: &PlainMachine, waits: &Waits) -> io::Result<()> {
    for place in 0..machine.threads() {
        let thread = place as u8;
        if machine.status(thread) == Status::Blocked {
            write!(out, "thread {thread} ")?;
            write_wait(out, waits, thread)?;
            writeln!(out)?;
        }
    }
    Ok(())
}

/// Why a thread may not make a step, or how many steps it has made.
fn number_of(machine: &PlainMachine, thread: u8) -> Result<u32, Why> {
    if machine.ended().is_some() {
        return Err(Why::Ended);
    }
    if usize::from(thread) >= machine.threads() {
        return Err(Why::Nobody);
    }
    match machine.status(thread) {
        Status::Ready => Ok(machine.number(thread)),
        Status::Blocked => Err(Why::Waits),
        Status::Ended(_) => Err(Why::Exited),
    }
}

/// Runs a setup from scratch under a schedule. Writes a line for each step, then how the run ended, and for a deadlock
/// what each thread waits for.
///
/// # Errors
///
/// The first entry that isn't permitted, or that no end comes after the last one; the lines of the steps before it are
/// written. Or that the output can't be written, or that the host's memory ran out.
pub fn trace<W: Write>(
    alloc: Global,
    out: &mut W,
    setup: &Setup,
    schedule: &[u8],
    turns: &mut Turns,
) -> Result<(), Refusal> {
    let mut machine = PlainMachine::new(alloc, setup)?;
    let mut waits = Waits::none();
    for i in 0..schedule.len() {
        let thread = schedule[i];
        let number = match number_of(&machine, thread) {
            Ok(number) => number,
            Err(why) => return Err(Refusal::Forbidden(i, thread, why)),
        };
        if !machine.can_step(thread) {
            return Err(Refusal::Forbidden(i, thread, Why::Ended));
        }
        let (next, made) = machine.step(thread, turns)?;
        machine = next;
        note(&mut waits, thread, &made);
        let count = made.count;
        write!(
            out,
            "step {i} thread {thread} number {number} count {count} "
        )?;
        write_made(out, &waits, thread, &made)?;
    }
    match machine.ended() {
        None => Err(Refusal::Incomplete),
        Some(end) => {
            write_end(out, end)?;
            if end == End::Deadlock {
                write_waits(out, &machine, &waits)?;
            }
            Ok(())
        }
    }
}
