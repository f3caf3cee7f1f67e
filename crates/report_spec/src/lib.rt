//! The report of a round as text, as a definition over the machine from scratch. No code but one plain
//! type.
#![tactic(auto)]

/// One entry of a schedule, with its mark.
#[derive(Clone, Copy)]
pub struct Entry {
    /// The thread that made the step.
    pub thread: u8,
    /// Whether the step was reused from a record of an earlier round, mark `=`, or else executed, mark `+`.
    pub reused: bool,
}
