//! What a page permits (System V gABI, ch. 5, Program Header, Segment Permissions).

ghost use Rattle.std.specs.Prelude.{⊤, ◌≡◌, [], ◌∷◌, codes};
ghost use Rattle.memory_spec.specs.Pages.{allows, execute_right, write_right, read_right};

use bitflags::{Flag, Flags, bitflag_items};

/// A set of the rights to read, to write and to execute.
#[derive(Clone, Copy, PartialEq, Eq)]
pub struct Perm(u8);

bitflag_items! {
    impl Perm: u8 {
        const X = 1;
        const W = 2;
        const R = 4;
    }
}

impl Flags for Perm {
    type Bits = u8;

    ghost exact = { ⊤ };

    ghost table = { (codes "X", 1) ∷ (codes "W", 2) ∷ (codes "R", 4) ∷ [] };

    ghost set_of = { λ p. p.0 };

    fn flags<'a>() -> &'a [Flag<Perm>] {
        Perm::FLAGS
    }

    #[inline(always)]
    fn bits(&self) -> u8 {
        self.0
    }

    #[inline(always)]
    fn from_bits_retain(bits: u8) -> Perm {
        Perm(bits)
    }
}

impl Perm {
    /// Whether the right to execute is among these.
    #[inline(always)]
    pub fn executes(self) -> bool
        ensures { result ≡ allows execute_right self.0 }
    {
        self.contains(Perm::X)
    }

    /// Whether the right to write is among these.
    #[inline(always)]
    pub fn writes(self) -> bool
        ensures { result ≡ allows write_right self.0 }
    {
        self.contains(Perm::W)
    }

    /// Whether the right to read is among these.
    #[inline(always)]
    pub fn reads(self) -> bool
        ensures { result ≡ allows read_right self.0 }
    {
        self.contains(Perm::R)
    }
}
