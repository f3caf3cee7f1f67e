//! Which steps of a history must come before which, as a graph: the clock of each step determines which steps come
//! before it, directly or through others.
#![tactic(auto)]

mod before;
mod clock;
mod fact;
mod graph;
mod objects;
mod pages;
mod past;
mod reaching;
mod threads;

pub use clock::Clock;
pub use fact::Fact;
pub use graph::{Graph, MOST_FACTS};
