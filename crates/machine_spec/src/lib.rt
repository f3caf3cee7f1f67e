//! The guest machine, as definitions: shared memory, harts with a view each, one step of a thread, and
//! whole schedules from scratch; with the laws that a step leaves every other ready thread as it is,
//! that applying a true record that fits is the step, and that the choice leads to an end. No code but
//! four plain types, and the constants of the limits.
#![tactic(auto)]

ghost use Rattle.std.specs.Prelude.{◌≡◌, ◌≢◌, ℕ, true};
ghost use Rattle.memory_spec.specs.Pages.{ascends_above};
ghost use Rattle.thunk_spec.specs.Record.{Record, IsTrue};
ghost use Rattle.machine_spec.specs.Machine.{Machine, hart_of, is_ready};
ghost use Rattle.machine_spec.specs.Step.{step, apply, fits, can_step};
ghost use Rattle.machine_spec.specs.Setup.{Setup, IsSetup, first, map_of, is_permitted, is_complete};
ghost use Rattle.machine_spec.specs.Choice.{alone};
ghost use Rattle.machine_spec.specs.Whole.{IsWhole};

mod limits;
mod states;

pub use limits::Limits;
pub use states::{Asked, End, Status};

/// The most bytes of an input: those of its pages.
pub const MOST_INPUT_BYTES: usize = 1_048_576;
/// The address of the input's header, whose first word is the input's length.
pub const HEADER: u32 = 0xC000_0000;
/// The number of the page of the input's header.
pub const HEADER_PAGE: u32 = 0xC0000;
/// The number of the input's first page.
pub const INPUT_PAGE: u32 = 0xC0001;
/// How many pages the input has.
pub const INPUT_PAGES: u32 = 256;
/// The address at which the stacks begin: thread 0's is the first.
pub const STACKS: u32 = 0xD000_0000;
/// How many bytes each thread's stack has.
pub const STACK_BYTES: u32 = 0x1_0000;
/// The number of the first page of the stacks.
pub const STACK_PAGE: u32 = 0xD0000;
/// How many pages the stacks have: 16 for each of 32 threads.
pub const STACK_PAGES: u32 = 512;
/// The most bytes that a run can output: one put's, 4,096, at the end of each of the most steps.
pub const MOST_OUTPUT_BYTES: usize = 268_435_456;
/// The most turns that a thunk may be allowed.
pub const MOST_FUEL: u32 = 16_777_216;
/// The most steps that a run may be allowed.
pub const MOST_STEPS: u32 = 65_536;

/// A step of one thread leaves every other ready thread as it is: its registers, its view, its number
/// of steps and its status.
pub fn step_leaves_others()
    ensures { (m : Machine) (t other : ℕ)
        → IsWhole m
        → can_step m t ≡ true
        → other ≢ t
        → is_ready (hart_of m other).status ≡ true
        → hart_of (step m t) other ≡ hart_of m other }
{}

/// What holds of every machine holds of the one that a setup starts as.
pub fn first_is_whole()
    ensures { (setup : Setup) → IsSetup setup → IsWhole (first setup) }
{}

/// The pages of a setup are in ascending order, each once.
pub fn map_ascends()
    ensures { (setup : Setup) → IsSetup setup → ascends_above 0 (map_of setup) ≡ true }
{}

/// What holds of every machine holds after a step.
pub fn step_keeps_whole()
    ensures { (m : Machine) (t : ℕ) → IsWhole m → can_step m t ≡ true → IsWhole (step m t) }
{}

/// Applying a true record that fits is the step of its thread.
pub fn apply_is_step()
    ensures { (m : Machine) (r : Record)
        → IsWhole m
        → IsTrue m.frame r.start r.kept
        → fits m r ≡ true
        → apply m r ≡ step m r.thread }
{}

/// The schedule that follows the choice is permitted, and there is an end after it.
pub fn alone_leads_to_an_end()
    ensures permitted { (setup : Setup) → IsSetup setup → is_permitted setup (alone setup) ≡ true }
    ensures complete { (setup : Setup) → IsSetup setup → is_complete setup (alone setup) ≡ true }
{}
