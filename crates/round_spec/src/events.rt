//! What can happen to a round, and what a worker may do next.

/// One event of a round. If its condition doesn't hold, nothing changes.
#[derive(Clone, Copy)]
pub enum Event {
    /// A worker takes this thread's next step to execute it. Condition: the round isn't finished, the
    /// thread is ready and not in flight, and no record of it fits.
    Take(u8),
    /// The record of this thread's next step is applied in its place. Condition: the round isn't finished,
    /// the thread is ready and not in flight, and its record fits.
    Reuse(u8),
    /// The step that was taken is committed, or discarded if the round is finished. Condition: the thread is in flight.
    Commit(u8),
    /// The step that was taken is discarded. Condition: the thread is in flight.
    GiveBack(u8),
    /// The round is stopped.
    Stop,
}

/// What a worker may do next.
#[derive(Clone, Copy, PartialEq, Eq)]
pub enum Pick {
    /// Reuse the record of this thread's next step.
    Reuse(u8),
    /// Take and execute this thread's next step.
    Run(u8),
    /// Wait until a step that is in flight is committed or given back.
    Hold,
    /// Nothing: the machine has an end, or the round was stopped.
    Over,
}
