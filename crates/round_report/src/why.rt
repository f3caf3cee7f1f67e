//! Why the steps of a round were executed, and not taken from the records of an earlier run.

mod reason;
mod wording;

pub use reason::{Cause, Reason};
pub use wording::text;
