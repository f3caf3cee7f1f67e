//! The loader, decoded pages, the loop of turns and tickets, tried through their public calls.
#![tactic(auto)]

#[cfg(test)]
mod executables;
#[cfg(test)]
mod fixtures;
#[cfg(test)]
mod issuers;
#[cfg(test)]
mod operations;
#[cfg(test)]
mod thunks;
