//! The effort of a worker.

ghost use Rattle.std.specs.Prelude.{◌≡◌, ◌+◌};

use rv_isa::Turns;
use std::thread::Threads;
use thunk_record::Compared;

/// The turns and compared pages of a worker. At run time it has no bytes.
#[derive(Drop)]
pub struct Effort {
    /// How many turns it executed.
    pub turns: Turns,
    /// How many read pages it compared, to find whether records fit.
    pub compared: Compared,
}

impl Effort {
    /// No effort so far. Only a caller that borrows the runtime can create it.
    pub fn new<R: Threads>(rt: &R) -> Effort
        ensures turns { result.turns ≡ 0 }
        ensures compared { result.compared ≡ 0 }
    {
        Effort {
            turns: Turns::new(rt),
            compared: Compared::new(rt),
        }
    }

    /// Adds another worker's effort.
    pub(super) fn merge(&mut self, other: Effort)
        ensures turns { self.new.turns ≡ self.old.turns + other.turns }
        ensures compared { self.new.compared ≡ self.old.compared + other.compared }
    {
        let Effort { turns, compared } = other;
        self.turns.merge(turns);
        self.compared.merge(compared);
    }
}
