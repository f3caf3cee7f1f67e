//! The names that a host's reads requested, in a value of no bytes that only contracts read.

ghost use Rattle.std.specs.Prelude.{◌≡◌, ℕ, List, [], ◌∷◌, ◌++◌};
ghost use Rattle.std.specs.Borrow.{ftrue};

use std::marker::{Model, PhantomData};

/// The names that reads requested, in order. It has no bytes: only clauses can read it.
#[derive(Drop)]
pub(crate) struct Asked {
    marker: PhantomData<u8>,
    pub ghost names: { List (List ℕ) },
}

impl Model for Asked {
    ghost also_owns = { λ _. ftrue };
}

impl Asked {
    /// No name was requested so far.
    pub(crate) fn none() -> Self
        ensures { result.names ≡ [] }
    {
        Asked {
            marker: PhantomData,
        }
    }

    /// Notes that this name was requested.
    pub(crate) fn note(&mut self, _name: &[u8])
        ensures { self.new.names ≡ self.old.names ++ _name.now ∷ [] }
    {}
}
