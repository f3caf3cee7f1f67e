//! The audit of a history: whether its records are those that the machine makes from scratch, and the first one that
//! isn't. Its records are applied one after the other, and their thunks are executed again, side by side.

mod auditing;
mod claims;
mod executing;
mod same;
mod verdict;
mod wording;

pub use auditing::audit;
pub use verdict::Verdict;
pub use wording::text;
