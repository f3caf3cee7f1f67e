//! A turn of a hart, a thunk of many turns, and what a record keeps of a thunk, as definitions; with the laws that turn
//! and thunk depend on the pages that they took bytes from and on nothing else of the view, that a true record that
//! fits can replace its thunk, and that it is true under another fuel if it ended within that one. No code but two
//! plain types.
#![tactic(auto)]

ghost use Rattle.std.specs.Prelude.{◌≡◌, List, ℕ, true};
ghost use Rattle.isa_spec.specs.Registers.{Registers};
ghost use Rattle.memory_spec.specs.Pages.{Mapped, Memory, IsMemory};
ghost use Rattle.memory_spec.specs.Stores.{StoredByte, with_stores};
ghost use Rattle.thunk_spec.specs.Turn.{turn};
ghost use Rattle.thunk_spec.specs.Thunk.{Frame, thunk};
ghost use Rattle.thunk_spec.specs.Locality.{Agree};
ghost use Rattle.thunk_spec.specs.Delta.{delta_of, masked};
ghost use Rattle.thunk_spec.specs.Reads.{has};
ghost use Rattle.thunk_spec.specs.Record.{Kept, kept_thunk, IsTrue, may_end, StandsFor};

mod ends;

pub use ends::{Outcome, ThunkEnd};

/// A turn is the same on each memory that has the same bytes in the pages that it took bytes from.
pub fn turn_is_local()
    ensures { (map : List Mapped) (memory other : Memory) (regs : Registers)
        → Agree map memory other (turn map memory regs).taken
        → turn map other regs ≡ turn map memory regs }
{}

/// A thunk is the same on each view that has the same bytes in the pages that it took bytes from:
/// registers, end, count, pages, stores, and the bytes of a put.
pub fn thunk_is_local()
    ensures { (frame : Frame) (view other : Memory) (regs : Registers)
        → Agree frame.map view other (thunk frame view regs).taken
        → thunk frame other regs ≡ thunk frame view regs }
{}

/// Writing the delta of stores, their last bytes at their places, is applying the stores in order.
pub fn delta_is_the_stores()
    ensures { (map : List Mapped) (memory : Memory) (stores : List StoredByte)
        → IsMemory map memory
        → masked memory (delta_of map stores) ≡ with_stores map memory stores }
{}

/// What is kept of a thunk is true: on every view that has its read pages the thunk is the same.
pub fn kept_is_true()
    ensures { (frame : Frame) (view : Memory) (start : Registers)
        → IsMemory frame.map view
        → IsTrue frame start (kept_thunk frame view start) }
{}

/// The view that a thunk ran on has its read pages.
pub fn view_has_its_reads()
    ensures { (frame : Frame) (view : Memory) (start : Registers)
        → has view (kept_thunk frame view start).reads ≡ true }
{}

/// What is kept and true of start registers, on a view that has the read pages, can replace the thunk.
pub fn true_stands_for_thunk()
    ensures { (frame : Frame) (view memory : Memory) (start : Registers) (kept : Kept)
        → IsTrue frame start kept
        → has view kept.reads ≡ true
        → IsMemory frame.map view
        → IsMemory frame.map memory
        → StandsFor frame view memory start kept }
{}

/// What is kept of a thunk ended within the fuel that the thunk had.
pub fn kept_is_within_its_fuel()
    ensures { (frame : Frame) (view : Memory) (start : Registers)
        → may_end frame.fuel (kept_thunk frame view start).end (kept_thunk frame view start).count
        ≡ true }
{}

/// What is true under one fuel, and ended within another, is true under the other: by a call or a trap
/// after no more turns, or by a fuel that is the same.
pub fn true_within_another_fuel()
    ensures { (frame : Frame) (fuel : ℕ) (start : Registers) (kept : Kept)
        → IsTrue frame start kept
        → may_end fuel kept.end kept.count ≡ true
        → IsTrue (record frame { fuel = fuel }) start kept }
{}
