//! Turns of a hart: an instruction fetched, decoded and executed, one at a time or from decoded pages
//! (RISC-V unprivileged ISA 20191213, chapter 2).
#![tactic(auto)]

mod access;
mod computing;
mod control;
mod executing;
mod jumping;
mod moving;
mod page;
mod placed;
mod turn;

pub use isa_spec::Cause;
pub use page::{PageEnd, Ran, run_page};
pub use page_store::Mem;
pub use rv_isa::Regs;
pub use thunk_spec::Outcome;
pub use turn::step;
