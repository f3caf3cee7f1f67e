//! A thread's next thunk, what is kept of a finished one, and whether that fits the next one.
#![tactic(auto)]

mod compared;
mod fit;
mod frame;
mod job;
mod kept;
mod put;

pub use compared::Compared;
pub use fit::{fits, fits_counted, has_read};
pub use frame::Frame;
pub use job::Job;
pub use kept::{Kept, Record};
pub use put::put_range;
