//! The loader: from the bytes of an executable to its image, or the first refusal.
#![tactic(auto)]

mod fields;
mod header;
mod image;
mod loader;
mod pages;
mod refusals;

pub use loader::{Image, LoadError, load};
pub use refusals::refusal;
