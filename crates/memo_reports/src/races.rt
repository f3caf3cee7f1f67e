//! Which pairs of a history's steps touch a page without an order by threads and objects: how many, and the first of
//! them.

mod finding;
mod list;
mod past;
mod rows;
mod steps;
mod touches;
mod wording;

pub use finding::races;
pub use list::{RaceList, Races};
pub use wording::listing;
