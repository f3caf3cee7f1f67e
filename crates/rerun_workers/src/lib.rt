//! A round that several workers make. They share it on a board, under one lock. Each asks there what to do next,
//! executes the step outside the lock, and submits it. The type of the value under the lock ensures that it is the
//! round of the given setup and history, and counts each worker's steps, so no other round can take its place, and no
//! step can be dropped. A watcher reads a word that counts the round's steps, without the lock. Each worker has one
//! counter of turns and one of compared pages, and can't create others.
#![tactic(auto)]

mod begun;
mod board;
mod effort;
mod locked;
mod naming;
mod running;
mod watched;
mod watching;
mod working;

pub use board::{Board, ClosedRound};
pub use effort::Effort;
pub use locked::{CommitOutcome, Locked, Task};
pub use naming::{Blanks, Naming, Pass};
pub use running::{run_round, run_round_watched};
pub use watching::{Counter, Watch, WatchedRound};
pub use working::work;
