//! The memory that a thread works on: a view that it shares, and its own copy of each page that it
//! stores to.
#![tactic(auto)]

ghost use Rattle.std.specs.Prelude.{◌≡◌, List};
ghost use Rattle.memory_spec.specs.Pages.{Mapped, Memory, IsMemory, on_each};
ghost use Rattle.memory_spec.specs.Stores.{StoredByte, with_stores};
ghost use Rattle.memory_spec.specs.Workspace.{no_marks, marked};
ghost use Rattle.thunk_spec.specs.Delta.{delta_from, delta_of};

mod slot;
mod slots;
mod space;

pub use space::Space;

/// On any view, the delta that is kept of a memory that a thread works on is the delta of its stores.
pub fn delta_is_of_the_stores()
    ensures { (map : List Mapped) (view : Memory) (stores : List StoredByte)
        → IsMemory map view
        → delta_from 0 (marked map (on_each no_marks map) stores) (with_stores map view stores)
        ≡ delta_of map stores }
{}
