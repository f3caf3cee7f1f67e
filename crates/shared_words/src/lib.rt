//! What workers and watchers share of a round besides its lock: a word that counts its steps, and tickets for steps in
//! flight.
//!
//! The word's one writer adds each step as it is committed, under a lock. Readers load it without a lock, and never
//! wait. The number that a reader finds never falls, and is never above what the writer has added.
//!
//! An [`Issuer`] issues a ticket for each step that is taken. If a returned ticket has the number of its thread's last
//! one, its job is that one's, and no job is compared.
#![tactic(auto)]

mod issuer;
mod log;
mod reader;
mod rule;
mod view;
mod word;
mod writer;

pub use issuer::Issuer;
pub use log::Ticket;
pub use reader::Reader;
pub use word::Word;
pub use writer::Writer;
