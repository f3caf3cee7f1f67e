//! The gate that a worker passes before it executes a thunk. It is also shown how far a round is.

/// The gate that a worker passes before it executes a thunk, while it holds no lock. It is also shown how far a round
/// is. It promises nothing.
pub trait Gate {
    /// Called before thunk `number` of `thread` is executed, if several workers make the round.
    fn enter(&self, thread: u8, number: u32);

    /// Called before the round of this number is made.
    fn begin(&self, _round: u64) {}

    /// Called after `_steps` more steps of the round were made: reused ones if `_reused`, else executed ones.
    fn made(&self, _steps: u64, _reused: bool) {}

    /// Called after the round was made, before it is reported.
    fn end(&self) {}
}

/// The gate that lets every worker pass at once, and shows nothing.
#[derive(Clone, Copy)]
pub struct OpenGate;

impl Gate for OpenGate {
    fn enter(&self, _thread: u8, _number: u32) {}
}
