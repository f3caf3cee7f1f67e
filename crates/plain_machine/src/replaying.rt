//! A whole schedule, from scratch.

ghost use Rattle.std.specs.Prelude.{◌≡◌, ◌+◌, ◌≤◌, IfOk, IfErr};
ghost use Rattle.plain_machine.specs.Replaying.{IsReportOf, LacksEnd, IsOutcomeOf, IsCauseOf};

use super::machine::PlainMachine;
use machine_spec::End;
use page_store::PageTable;
use run_history::Setup;
use rv_isa::Turns;
use std::alloc::{AllocError, Global};

/// The outcome of a schedule from scratch.
#[derive(Drop)]
pub struct Outcome {
    /// How the run ended.
    pub ending: End,
    /// How many steps were made.
    pub steps: u32,
    /// How many turns their thunks made.
    pub instructions: u64,
    /// Shared memory at the end.
    pub memory: PageTable,
    /// The output.
    pub output: Vec<u8>,
}

/// Why a schedule has no outcome.
#[derive(PartialEq, Eq, Clone, Copy, Drop)]
pub enum ReplayError {
    /// This entry is the first that isn't permitted: its thread isn't ready, or an end came before it.
    Forbidden(usize),
    /// All entries are permitted, and no end comes after the last.
    Incomplete,
    /// The host's memory ran out.
    NoMemory,
}

impl From<AllocError> for ReplayError {
    ghost use Rattle.plain_machine.specs.declared.replaying.ReplayError.TheVariants.{NoMemory};

    ghost from_gives = { λ _ error. error ≡ NoMemory };

    fn from(_error: AllocError) -> ReplayError {
        ReplayError::NoMemory
    }
}

/// The outcome of a machine that made so many turns.
fn outcome_of(machine: PlainMachine, instructions: u64) -> Result<Outcome, ReplayError>
    ensures outcome { IfOk result (λ o. IsReportOf machine instructions o) }
    ensures cause { IfErr result (λ e. LacksEnd machine e) }
{
    match machine.ended() {
        None => Err(ReplayError::Incomplete),
        Some(ending) => Ok(Outcome {
            ending,
            steps: machine.steps(),
            instructions,
            memory: machine.memory()?,
            output: machine.into_output(),
        }),
    }
}

/// Executes the steps of a schedule from scratch, one after the other, with each instruction of each thunk. The counter
/// rises by the number of the thunks' turns.
///
/// # Errors
///
/// `Forbidden` if an entry isn't permitted, with the first such entry; `Incomplete` if all are permitted and no end
/// comes after the last; `NoMemory` if the host's memory ran out.
pub fn replay(
    alloc: Global,
    setup: &Setup,
    schedule: &[u8],
    turns: &mut Turns,
) -> Result<Outcome, ReplayError>
    ensures outcome { IfOk result (λ o. IsOutcomeOf setup.now schedule.now o) }
    ensures cause { IfErr result (λ e. IsCauseOf setup.now schedule.now e) }
    ensures cost { IfOk result (λ o. turns.new ≡ turns.old + o.instructions) }
    ensures never_lower { turns.old ≤ turns.new }
{
    let mut machine = PlainMachine::new(alloc, setup)?;
    let mut instructions = 0;
    for i in 0..schedule.len() {
        let t = schedule[i];
        if !machine.can_step(t) {
            return Err(ReplayError::Forbidden(i));
        }
        let (next, made) = machine.step(t, turns)?;
        instructions += u64::from(made.count);
        machine = next;
    }
    outcome_of(machine, instructions)
}
