//! The report of a round as text, a round in one line, the text of a replay, and why steps were executed.
#![tactic(auto)]

mod data;
mod digest;
mod ending;
mod lines;
mod one_line;
mod replay;
mod report;
pub mod why;

pub use data::ReportData;
pub use digest::Digested;
pub use one_line::short;
pub use replay::replayed;
pub use report::text;
