//! The guest machine in code: the machine at its start, and a record applied in place of a step.
#![tactic(auto)]

mod core_machine;
mod performing;
mod put;

pub use core_machine::{ApplyError, Core};
