//! What is called when a thunk runs long.

/// How many turns a thunk makes before it counts as long: about as many as take the time to wake a sleeping worker. A
/// shorter thunk is finished before a worker that was woken for the other steps could start.
pub const LONG_TURNS: u32 = 2_048;

/// A hook that is called when a thunk runs long. Nothing is promised of it.
pub trait Watch {
    /// Called when a thunk has made at least `LONG_TURNS` turns and continues, at most once in a thunk.
    fn runs_long(&self);
}

/// A watch that does nothing.
#[derive(Clone, Copy)]
pub struct Unwatched;

impl Watch for Unwatched {
    fn runs_long(&self) {}
}
