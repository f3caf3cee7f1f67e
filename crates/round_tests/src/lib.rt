//! Clocks, graphs, facts, rounds and boards, tried through the public calls of their crates.
#![tactic(auto)]

#[cfg(test)]
mod boards;
#[cfg(test)]
mod clocks;
#[cfg(test)]
mod fixtures;
#[cfg(test)]
mod graphs;
#[cfg(test)]
mod histories;
#[cfg(test)]
mod picks;
#[cfg(test)]
mod watches;
