//! The status of a thread, how a run ends, and what a thunk requests.

use guest_call::Call;
use isa_spec::Cause;

/// Whether a thread can be chosen for the next step.
#[derive(Clone, Copy, PartialEq, Eq)]
pub enum Status {
    /// It can.
    Ready,
    /// It waits in a queue until another thread's call makes its own call return.
    Blocked,
    /// It has ended with this value.
    Ended(u32),
}

/// How a run ends.
#[derive(Clone, Copy, PartialEq, Eq)]
pub enum End {
    /// A thread called `exit` with this code, or all threads have ended, which is code 0.
    Exit(u32),
    /// A thread trapped.
    Trap {
        /// The thread's number.
        thread: u8,
        /// The address of the instruction that trapped.
        pc: u32,
        /// Why it trapped.
        cause: Cause,
    },
    /// No thread is ready, and not all have ended.
    Deadlock,
    /// A thunk used up its fuel, or the schedule is as long as the step limit.
    Spent,
}

/// What the end of a thunk requests of the machine.
#[derive(Clone, Copy)]
pub enum Asked {
    /// To do an environment call.
    Asks(Call),
    /// To end.
    Stops(End),
}
