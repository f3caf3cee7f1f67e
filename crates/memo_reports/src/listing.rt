//! The listing of what is kept of a run: its setup in numbers, and a line for each of its records.

mod entry;
mod pages;
mod setup;
mod whole;

pub use pages::addresses_of;
pub use whole::listing;
