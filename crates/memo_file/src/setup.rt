//! The setup of a memo.

ghost use Rattle.std.specs.Prelude.{◌≡◌, ◌≤◌, length, IfOk};
ghost use Rattle.machine_spec.specs.Limits.{AreLimits};
ghost use Rattle.memo_spec.specs.Reading.{setup_at};
ghost use Rattle.memo_file.specs.Gives.{Gives};
ghost use Rattle.memo_file.specs.Setups.{elf_at, input_at, limits_at};

use crate::error::ReadError;
use crate::fields::{limited, run};
use elf_load::LoadError;
use elf_spec::MOST_ELF_BYTES;
use ith_text::Cursor;
use machine_spec::{Limits, MOST_FUEL, MOST_INPUT_BYTES, MOST_STEPS};
use memo_spec::{Limit, Refusal};
use run_history::Setup;
use std::alloc::Global;

/// These limits, which are in range.
fn limits(fuel: u32, steps: u32) -> Limits
    requires { AreLimits fuel steps }
    ensures { result ≡ record { fuel = fuel; steps = steps } }
{
    match Limits::new(fuel, steps) {
        Some(limits) => limits,
        None => unreachable!(),
    }
}

/// The executable, as a setup that has no input yet.
fn read_program(alloc: Global, cursor: &mut Cursor) -> Result<Setup, ReadError>
    ensures { Gives (λ s. (s.elf, cursor.new)) result (elf_at cursor.old) }
{
    let length = limited(cursor, 0, MOST_ELF_BYTES as u32, Limit::Elf)?;
    let elf = run(cursor, length as usize)?.to_vec(alloc)?;
    match Setup::new(alloc, elf, Vec::new(alloc), limits(1, 1)) {
        Ok(setup) => Ok(setup),
        Err(LoadError::Refused(refusal)) => Err(ReadError::Refused(Refusal::Image(refusal))),
        Err(LoadError::NoMemory) => Err(ReadError::NoMemory),
    }
}

/// The input.
fn read_input(alloc: Global, cursor: &mut Cursor) -> Result<Vec<u8>, ReadError>
    ensures size { IfOk result (λ input. length input.items ≤ MOST_INPUT_BYTES) }
    ensures given { Gives (λ input. (input.items, cursor.new)) result (input_at cursor.old) }
{
    let length = limited(cursor, 0, MOST_INPUT_BYTES as u32, Limit::Input)?;
    Ok(run(cursor, length as usize)?.to_vec(alloc)?)
}

/// The limits of the run.
fn read_limits(cursor: &mut Cursor) -> Result<Limits, ReadError>
    ensures { Gives (λ l. (l, cursor.new)) result (limits_at cursor.old) }
{
    let fuel = limited(cursor, 1, MOST_FUEL, Limit::Fuel)?;
    let steps = limited(cursor, 1, MOST_STEPS, Limit::Steps)?;
    Ok(limits(fuel, steps))
}

/// The setup: the executable, which is checked before the input is read, the input, and the limits.
pub fn read_setup(alloc: Global, cursor: &mut Cursor) -> Result<Setup, ReadError>
    ensures { Gives (λ s. (s, cursor.new)) result (setup_at cursor.old) }
{
    let program = read_program(alloc, cursor)?;
    let input = read_input(alloc, cursor)?;
    let limits = read_limits(cursor)?;
    Ok(program.with(input, limits)?)
}
