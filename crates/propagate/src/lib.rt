//! Rounds: each step is reused from the records of an earlier run if its record fits, and executed if none does. One
//! worker makes a round by itself; any number of them may, by the same events. Whatever happens, the round is the one
//! of its definition. If it is based on a sound history, its machine is the one from scratch, and its marks are exact.
#![tactic(auto)]

mod alone;
mod events;
mod picking;
mod round;

pub use alone::{run_alone, run_alone_shown};
pub use events::Committed;
pub use round::Round;
