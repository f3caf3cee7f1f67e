//! The command line: what its arguments request.
#![tactic(auto)]

mod argument;
mod command;
mod given;
mod line;
mod words;

pub use given::default_limits;
pub use line::{
    AuditLine, ExplainLine, GenerateLine, Line, MOST_NUMBER, MOST_WORKERS, RacesLine, ReplayLine,
    RerunLine, RunLine, ShowLine, limits_are_as_documented,
};
pub use words::{LineFault, line_of};
