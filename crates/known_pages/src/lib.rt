//! What a round knows of its pages, so that a record's fit shows without a comparison: which may differ from the
//! history's, while the round continues as its history did, and after that which versions of the history's pages its
//! own are.
#![tactic(auto)]

mod inputs;
mod marks;
mod times;
mod versions;

pub use marks::{all_unmarked, is_in_place, marks_after, marks_at_start, marks_if};
pub use times::{PageVersion, Times};
pub use versions::{StepVersions, Versions, after_execution, after_reuse, known_or, steps_of};
