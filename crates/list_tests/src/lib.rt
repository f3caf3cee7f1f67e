//! Hosts, edit lists, inputs, schedules, fields, texts and written executables, tried through the public calls of
//! their crates.
#![tactic(auto)]

#[cfg(test)]
mod assembly;
#[cfg(test)]
mod edits;
#[cfg(test)]
mod fields;
#[cfg(test)]
mod generated;
#[cfg(test)]
mod hosts;
#[cfg(test)]
mod inputs;
#[cfg(test)]
mod schedules;
#[cfg(test)]
mod texts;
