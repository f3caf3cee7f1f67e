//! The world outside of the runtime: files, printed bytes, and the gate that a worker passes.
//!
//! `Host` is all that the program does to the outside, as a trait whose contracts speak of one `World`. `MemHost` keeps
//! that world in memory, and fails those of its calls that are named at its start. `OsHost` is the operating system's.
//! `Live` is the gate that shows the progress of a round on a terminal.
#![tactic(auto)]

mod asked;
mod gate;
mod host;
mod live;
mod memory;
mod system;
mod transfer;

pub use gate::{Gate, OpenGate};
pub use host::{Got, Host, Printed, Put};
pub use live::Live;
pub use memory::MemHost;
pub use system::OsHost;
pub use transfer::{FaultCounter, read_to_limit, write_to_end};
