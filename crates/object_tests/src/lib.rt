//! The tables of objects, tried through their public calls.
#![tactic(auto)]

#[cfg(test)]
mod barriers;
#[cfg(test)]
mod fixtures;
#[cfg(test)]
mod objects;
#[cfg(test)]
mod rwlocks;
#[cfg(test)]
mod semaphores;
