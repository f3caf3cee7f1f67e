//! Why the steps of a round were executed: the first difference between each and its record, and who stored it.

mod differing;
mod storing;
mod walking;

pub use walking::reasons;
