//! Worked runs: small guests whose runs follow from the rules by hand, in cases that no command line shows: under given
//! orders and schedules, by workers whose steps are counted or held, and with hosts of which a call fails.
#![tactic(auto)]

#[cfg(test)]
mod faults;
#[cfg(test)]
mod lines;
#[cfg(test)]
mod orders;
#[cfg(test)]
mod reaching;
#[cfg(test)]
mod replays;
#[cfg(test)]
mod report_text;
#[cfg(test)]
mod rounds;
#[cfg(test)]
mod schedules;
#[cfg(test)]
mod words;
#[cfg(test)]
mod workers;
