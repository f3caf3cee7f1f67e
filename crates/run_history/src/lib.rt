//! The setup of a run, and the history that it leaves: its records, in order.
#![tactic(auto)]

mod history;
mod records;
mod setup;
mod start;

pub use history::History;
pub use records::Records;
pub use setup::Setup;
