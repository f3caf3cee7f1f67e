//! Memo files: reads the history that bytes encode, and writes the bytes of a history.
#![tactic(auto)]

mod age;
mod coherence;
mod error;
mod fields;
mod growth;
mod opening;
mod pages;
mod pool;
mod reading;
mod records;
mod setup;
mod stored;
mod writing;

pub use error::ReadError;
pub use reading::read;
pub use writing::{WriteError, write};
