//! Small guests whose runs follow from the rules by hand, in assembly, and their executables.
//!
//! `guests` has them, each with what it does. `file_of` returns the executable that `rv_asm` writes for one.
#![tactic(auto)]

mod file;
pub mod guests;
mod line;

pub use file::{Guest, file_of};
pub use line::{Line, Register};
