//! The instructions of RV32IM: decoding and encoding, the registers of a hart, the operations on words, and the counter
//! of executed turns.
//!
//! `decode` reads a word by the table of `isa_spec`, and `encode` writes one; each undoes the other.
#![tactic(auto)]

mod fields;
mod operations;
mod products;
mod reading;
mod registers;
mod turns;
mod writing;

pub use isa_spec::{
    BranchTest, ImmediateOperation, Instr, Load, RegisterOperation, ShiftOperation, Store,
};
pub use operations::{immediate, is_taken, register, shift};
pub use reading::decode;
pub use registers::Regs;
pub use turns::{Tally, Turns};
pub use writing::encode;
