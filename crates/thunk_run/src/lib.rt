//! A thunk run on a view: turns until a call, a trap or the end of the fuel, and what is kept of it.
#![tactic(auto)]

mod pages;
mod put;
mod run;
mod running;
mod turns;
mod watch;

pub use run::Run;
pub use running::{execute, execute_watched};
pub use watch::{LONG_TURNS, Unwatched, Watch};
