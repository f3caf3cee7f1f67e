//! The guest machine run from scratch under a schedule, on whole memories.
//!
//! It shares with the runtime the decoder and the operations, one turn of a hart, the synchronisation objects, the
//! harts with what a call does to them, the loader with its setup and the memory that it starts with, and the page map.
//! It does everything else by itself, in the plainest way. A view is a copy of shared memory, made when a call returns.
//! A thunk works on a copy of its view; each store is applied to the copy and listed. When the thunk has ended, the
//! list is applied to shared memory in order. A memory is a list of pages; copies of it share each page up to the first
//! store to it. The machine has no records and no reuse, no read pages and no masks, no rounds and no workers.
#![tactic(auto)]

mod machine;
mod memory;
mod pages;
mod put;
mod replaying;
mod stores;
mod thunk;
mod work;

pub use machine::{PlainMachine, StepResult};
pub use replaying::{Outcome, ReplayError, replay};
