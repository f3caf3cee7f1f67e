//! The commands `replay`, `audit`, `races`, `why` and `show`, and what they share with `run`, `rerun` and `gen`: files
//! are read in the order of the command line, a plan of the rounds is made of them, texts are printed, memos are
//! written, and each way to end has a status.
#![tactic(auto)]

mod auditing;
mod complaints;
mod explaining;
mod files;
mod keeping;
mod outside;
mod plan;
mod racing;
mod reasons;
mod replaying;
mod showing;
mod status;

pub use auditing::audit;
pub use complaints::NO_MEMORY;
pub use explaining::explain;
pub use keeping::write_memo;
pub use outside::print_text;
pub use plan::{Beginning, Plan, from_scratch, prepare, prepare_rerun, take_input};
pub use racing::find_races;
pub use replaying::replay;
pub use showing::show;
pub use status::{Status, is_exit};
