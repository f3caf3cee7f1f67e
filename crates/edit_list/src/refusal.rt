//! Why there are no inputs.

ghost use Rattle.std.specs.Prelude.{◌≡◌};

use std::alloc::{AllocError, AllocFailed};

/// Why a line of an edit list is refused.
#[derive(Clone, Copy, PartialEq, Eq)]
pub enum Why {
    /// It encodes no edit.
    BadLine,
    /// Its edit passes its bound.
    OutOfRange,
}

/// Why there are no inputs.
#[derive(Clone, Copy, PartialEq, Eq)]
pub enum InputsError {
    /// An edit list is the first that is refused: its place, counted from 0, with its line, counted from 1, and
    /// the cause.
    Refused { list: usize, line: usize, why: Why },
    /// The host's memory ran out.
    NoMemory,
}

impl From<AllocError> for InputsError {
    ghost use Rattle.edit_list.specs.declared.refusal.InputsError.TheVariants.{NoMemory};

    ghost from_gives = { λ _ e. e ≡ NoMemory };

    fn from(_error: AllocError) -> InputsError {
        InputsError::NoMemory
    }
}

impl<T: Drop> From<AllocFailed<T>> for InputsError {
    ghost use Rattle.edit_list.specs.declared.refusal.InputsError.TheVariants.{NoMemory};

    ghost from_gives = { λ _ e. e ≡ NoMemory };

    fn from(_failed: AllocFailed<T>) -> InputsError {
        InputsError::NoMemory
    }
}
