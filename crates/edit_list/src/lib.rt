//! Lists of edits of an input, read from their bytes, and applied; and the inputs of a command line's rounds: each list
//! is applied to the input of the round before.
#![tactic(auto)]

mod apply;
mod edits;
mod inputs;
mod line;
mod number;
mod parser;
mod pending;
mod refusal;

pub use apply::ApplyError;
pub use edits::Edits;
pub use inputs::inputs_of;
pub use number::number_of;
pub use parser::{ParseError, parse};
pub use pending::Inputs;
pub use refusal::{InputsError, Why};
