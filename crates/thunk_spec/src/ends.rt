//! How a turn ends, and how a thunk ends.

use isa_spec::Cause;

/// How a turn ends.
#[derive(Clone, Copy)]
pub enum Outcome {
    /// The instruction was executed; the next one follows.
    Next,
    /// The instruction is an ECALL: it requests an environment call.
    Call,
    /// The instruction trapped, and changed nothing.
    Trap(Cause),
}

/// How a thunk ends.
#[derive(Clone, Copy, PartialEq, Eq)]
pub enum ThunkEnd {
    /// Its last turn requested an environment call.
    Call,
    /// Its last turn trapped.
    Trap(Cause),
    /// It made as many turns as the fuel allows, and neither called nor trapped.
    Fuel,
}
