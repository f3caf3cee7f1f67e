//! The number of a thread.

ghost use Rattle.std.specs.Prelude.{◌≡◌, ℕ, ◌<◌, nat_lt, Some, None, if◌then◌else◌};
ghost use Rattle.std.specs.Coded.{coded_ℕ};
ghost use Rattle.guest_call.specs.declared.thread_number.TheConstants.{THREADS};

use std::marker::Model;

/// How many threads a guest may have, ended ones counted.
pub const THREADS: usize = 32;

/// The number of a thread, which is below 32. Contracts see it as a number.
#[derive(Clone, Copy, PartialEq, Eq)]
pub struct Thread {
    number: u8,
}

impl Model for Thread {
    ghost Value = { ℕ };

    ghost coded = { coded_ℕ };

    ghost view = { λ t. t.number };

    ghost inverse = { λ n. record { number = n } };

    ghost invariant = { λ t. t.number < THREADS };
}

impl Default for Thread {
    /// The first thread of a run.
    fn default() -> Thread
        ensures { result ≡ 0 }
    {
        Thread { number: 0 }
    }
}

impl Thread {
    /// The thread of this number. None exactly if the number is above 31.
    pub fn new(number: u8) -> Option<Thread>
        ensures { result ≡ if nat_lt number THREADS then Some number else None }
    {
        if usize::from(number) < THREADS {
            Some(Thread { number })
        } else {
            None
        }
    }

    /// The thread's number.
    pub fn number(self) -> u8
        ensures { result ≡ self }
    {
        self.number
    }
}

/// The number of a thread is below 32.
pub fn threads_are_few(thread: Thread)
    ensures { thread < THREADS }
{
    let _ = &thread.number;
}
