//! Counters that take no bytes: contracts read them, and a program can't.

ghost use Rattle.std.specs.Prelude.{◌≡◌, ◌+◌, ℕ};
ghost use Rattle.std.specs.Borrow.{ftrue};

use std::marker::{Model, PhantomData};
use std::thread::Threads;

/// A number of no bytes, which clauses alone read.
#[derive(Drop)]
pub struct Tally {
    marker: PhantomData<u8>,
    pub ghost number: { ℕ },
}

impl Model for Tally {
    ghost also_owns = { λ _. ftrue };
}

// It owns nothing.
unsafe impl Send for Tally {}

impl Tally {
    /// The number 0.
    pub fn none() -> Self
        ensures { result.number ≡ 0 }
    {
        Tally {
            marker: PhantomData,
        }
    }

    /// Raises the number by so many.
    #[inline(always)]
    pub fn raise(&mut self, _by: u32)
        ensures { self.new.number ≡ self.old.number + _by }
    {}

    /// Raises the number by the other's.
    #[inline(always)]
    pub fn merge(&mut self, _other: &Tally)
        ensures { self.new.number ≡ self.old.number + _other.now.number }
    {}
}

/// How many turns were executed. The code that executes a turn raises it, and only code that borrows the runtime can
/// make one. So a function that only borrows a counter reports by it all turns that it executed. A clause sees a
/// number; at run time it takes no bytes, and a program can't read it.
#[derive(Drop)]
pub struct Turns {
    tally: Tally,
}

impl Model for Turns {
    ghost use Rattle.std.specs.Prelude.{ℕ};

    ghost Value = { ℕ };

    ghost view = { λ t. t.tally.number };
}

impl Turns {
    /// A counter that nothing has raised. Only a caller that borrows the runtime makes one: only the runtime has
    /// `Threads`, since an `impl` of it needs a parameter with that bound.
    pub fn new<R: Threads>(_rt: &R) -> Turns
        ensures { result ≡ 0 }
    {
        Turns {
            tally: Tally::none(),
        }
    }

    /// Counts so many executed turns.
    #[inline(always)]
    pub fn count(&mut self, turns: u32)
        ensures { self.new ≡ self.old + turns }
    {
        self.tally.raise(turns);
    }

    /// Counts the turns of another counter too.
    pub fn merge(&mut self, other: Turns)
        ensures { self.new ≡ self.old + other }
    {
        self.tally.merge(&other.tally);
    }
}
