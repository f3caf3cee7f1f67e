//! The crates of pages, masks and memories, tried through their public calls.
#![tactic(auto)]

#[cfg(test)]
mod commits;
#[cfg(test)]
mod maps;
#[cfg(test)]
mod masks;
#[cfg(test)]
mod pages;
#[cfg(test)]
mod spaces;
