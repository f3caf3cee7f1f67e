//! What the commands that read a memo print: the listing of what it keeps, its audit, and its races.
#![tactic(auto)]

pub mod audit;
mod lines;
pub mod listing;
pub mod races;

pub use lines::{append_number, number_line};
