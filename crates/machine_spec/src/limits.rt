//! The limits of a run.

ghost use Rattle.std.specs.Prelude.{◌≡◌, ◌≤◌, ◌↔◌, IsTrue, is_some, IfSome};
ghost use Rattle.machine_spec.specs.Limits.{AreLimits};
ghost use Rattle.machine_spec.specs.declared.TheConstants.{MOST_FUEL, MOST_STEPS};

use crate::{MOST_FUEL, MOST_STEPS};
use std::marker::Model;

/// The limits of a run: the most turns of a thunk, and the most steps, each in its range.
///
/// A clause sees a `Limits` of `specs/`.
#[derive(Clone, Copy)]
pub struct Limits {
    fuel: u32,
    steps: u32,
}

impl Model for Limits {
    ghost use Rattle.machine_spec.specs.Limits as limits;

    ghost Value = { limits.Limits };

    ghost view = { λ l. record { fuel = l.fuel; steps = l.steps } };

    ghost invariant = { λ l. limits.AreLimits l.fuel l.steps };

    ghost inverse = { λ l. record { fuel = l.fuel; steps = l.steps } };
}

impl Limits {
    /// These limits. None exactly if one of them is out of its range: 1 to `MOST_FUEL`, and 1 to `MOST_STEPS`.
    pub fn new(fuel: u32, steps: u32) -> Option<Limits>
        ensures made { IfSome result (λ l. l ≡ record { fuel = fuel; steps = steps }) }
        ensures within { IsTrue (is_some result) ↔ AreLimits fuel steps }
    {
        if 1 <= fuel && fuel <= MOST_FUEL && 1 <= steps && steps <= MOST_STEPS {
            Some(Limits { fuel, steps })
        } else {
            None
        }
    }

    /// The most turns of a thunk.
    pub fn fuel(&self) -> u32
        ensures value { result ≡ self.now.fuel }
        ensures within { (1 ≤ result) × (result ≤ MOST_FUEL) }
    {
        self.fuel
    }

    /// The most steps of a run.
    pub fn steps(&self) -> u32
        ensures value { result ≡ self.now.steps }
        ensures within { (1 ≤ result) × (result ≤ MOST_STEPS) }
    {
        self.steps
    }
}
