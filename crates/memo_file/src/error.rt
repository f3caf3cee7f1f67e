//! Why a memo wasn't read.

ghost use Rattle.std.specs.Prelude.{◌≡◌};
ghost use Rattle.memo_file.specs.declared.error.ReadError.TheVariants.{NoMemory};

use memo_spec::Refusal;
use std::alloc::{AllocError, AllocFailed};

/// Why a memo wasn't read.
#[derive(Clone, Copy)]
pub enum ReadError {
    /// The bytes aren't taken, for this reason.
    Refused(Refusal),
    /// The host's memory ran out.
    NoMemory,
}

impl From<AllocError> for ReadError {
    ghost from_gives = { λ _ error. error ≡ NoMemory };

    fn from(_error: AllocError) -> ReadError {
        ReadError::NoMemory
    }
}

impl<T: Drop> From<AllocFailed<T>> for ReadError {
    ghost from_gives = { λ _ error. error ≡ NoMemory };

    fn from(_error: AllocFailed<T>) -> ReadError {
        ReadError::NoMemory
    }
}
