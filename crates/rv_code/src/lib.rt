//! Pages of code, decoded once: for each word an operation that stands for its instruction at its address, in a form
//! that a loop executes fast.
#![tactic(auto)]

mod code;
mod kinds;
mod operation;
mod page;
mod reading;

pub use code::Code;
pub use operation::{Kind, Operation};
pub use page::{CodePage, WORDS};
