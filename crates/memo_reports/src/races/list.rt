//! Races in order.

ghost use Rattle.std.specs.Prelude.{◌≡◌};

use round_spec::Race;
use std::marker::Model;

/// Races in order. A clause sees the list of them.
#[derive(Drop)]
pub struct RaceList {
    races: Vec<Race>,
}

impl Model for RaceList {
    ghost use Rattle.std.specs.Prelude.{List};
    ghost use Rattle.round_spec.specs.declared.Race.{Race};

    ghost Value = { List Race };

    ghost view = { λ l. l.races.items };
}

impl RaceList {
    /// These races. Allocates no memory.
    pub fn new(races: Vec<Race>) -> RaceList
        ensures { result ≡ races.items }
    {
        RaceList { races }
    }

    /// The races, in order.
    pub fn as_slice(&self) -> &[Race]
        ensures { result.now ≡ self.now }
    {
        &self.races
    }
}

/// How many races a history has, and the first of them.
#[derive(Drop)]
pub struct Races {
    /// How many there are.
    pub total: u64,
    /// The first of them.
    pub first: RaceList,
}
