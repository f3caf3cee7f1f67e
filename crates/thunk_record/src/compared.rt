//! A counter of pages that were compared to find whether records fit.

ghost use Rattle.std.specs.Prelude.{◌≡◌, ◌+◌};

use rv_isa::Tally;
use std::marker::Model;
use std::thread::Threads;

/// How many read pages were compared with those of a view. Only `has_read` raises it, by one, and `merge`, by what
/// another one counts. Outside this crate only code that borrows the runtime can make one. A clause sees a number; at
/// run time it takes no bytes, and a program can't read it.
#[derive(Drop)]
pub struct Compared {
    tally: Tally,
}

impl Model for Compared {
    ghost use Rattle.std.specs.Prelude.{ℕ};

    ghost Value = { ℕ };

    ghost view = { λ c. c.tally.number };
}

impl Compared {
    /// A counter that nothing has raised, made by a caller that borrows the runtime.
    pub fn new<R: Threads>(_rt: &R) -> Compared
        ensures { result ≡ 0 }
    {
        Compared::unread()
    }

    /// A counter that isn't read.
    pub(super) fn unread() -> Compared
        ensures { result ≡ 0 }
    {
        Compared {
            tally: Tally::none(),
        }
    }

    /// Counts one more compared page.
    #[inline(always)]
    pub(super) fn count(&mut self)
        ensures { self.new ≡ self.old + 1 }
    {
        self.tally.raise(1);
    }

    /// Counts the pages of another counter too.
    pub fn merge(&mut self, other: Compared)
        ensures { self.new ≡ self.old + other }
    {
        self.tally.merge(&other.tally);
    }
}
