//! An assembler of small guests: it writes the executables that the loader takes.
#![tactic(auto)]

mod guest;
mod item;

pub use guest::elf;
pub use isa_spec::Instr;
pub use item::Item;
