//! How a call of the program ends.

ghost use Rattle.std.specs.Prelude.{◌≡◌};
ghost use Rattle.rerun_spec.specs.Reports as reports;
ghost use Rattle.ith_commands.specs.Statuses.{code_of};
ghost use Rattle.ith_commands.specs.declared.status.Status.TheVariants.{NoMemory};

use machine_spec::End;
use std::alloc::{AllocError, AllocFailed};

/// How a call of the program ends. Its number is the program's exit status.
#[derive(Clone, Copy)]
pub enum Status {
    /// 0: every report was printed, each round ended by exit, and the memo that was requested was written; or a
    /// schedule was replayed, or the generated guest run, to an exit; or a memo was listed, or was audited and is
    /// honest; or its races were printed, or the reasons why steps were executed.
    Finished,
    /// 1: as 0, but a round or a replay ended otherwise than by exit.
    Unfinished,
    /// 2: the command line isn't accepted.
    Words,
    /// 3: the executable is refused.
    Image,
    /// 4: the memo is refused.
    Memo,
    /// 5: an edit list is refused.
    EditList,
    /// 6: a file that the command line names couldn't be read.
    ReadFault,
    /// 7: printing failed, or writing the memo.
    WriteFault,
    /// 8: the host's memory ran out.
    NoMemory,
    /// 9: a file that the command line names is longer than its limit, or the memo to write would be.
    TooLarge,
    /// 10: the schedule to replay is refused.
    Schedule,
    /// 11: the memo that was audited isn't honest.
    Untrue,
}

impl Status {
    /// The exit status.
    pub fn code(self) -> u8
        ensures { result ≡ code_of self }
    {
        match self {
            Status::Finished => 0,
            Status::Unfinished => 1,
            Status::Words => 2,
            Status::Image => 3,
            Status::Memo => 4,
            Status::EditList => 5,
            Status::ReadFault => 6,
            Status::WriteFault => 7,
            Status::NoMemory => 8,
            Status::TooLarge => 9,
            Status::Schedule => 10,
            Status::Untrue => 11,
        }
    }
}

impl From<AllocError> for Status {
    ghost from_gives = { λ _ status. status ≡ NoMemory };

    fn from(_error: AllocError) -> Status {
        Status::NoMemory
    }
}

impl<T: Drop> From<AllocFailed<T>> for Status {
    ghost from_gives = { λ _ status. status ≡ NoMemory };

    fn from(_error: AllocFailed<T>) -> Status {
        Status::NoMemory
    }
}

/// Whether a machine ended by exit, as all do if a call is `Finished`.
pub fn is_exit(ending: Option<End>) -> bool
    ensures { result ≡ reports.is_exit ending }
{
    matches!(ending, Some(End::Exit(_)))
}
