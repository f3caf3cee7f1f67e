//! One page.

ghost use Rattle.std.specs.Prelude.{◌≡◌, ◌<◌, Decides, length, slice_index, slice_set};
ghost use Rattle.std.specs.Cmp.{partial_equiv_from_equiv};
ghost use Rattle.std.specs.Cmp.Lexicographic.{nat_list_eq_equiv};
ghost use Rattle.std.specs.Str.{bytes_eq};
ghost use Rattle.memory_spec.specs.Pages.{zero_page};

use memory_spec::PAGE_SIZE;
use std::marker::Model;

/// A page of 4,096 bytes. A clause sees the list of its bytes.
#[derive(Drop)]
pub struct Page {
    bytes: [u8; PAGE_SIZE],
}

impl Model for Page {
    ghost use Rattle.std.specs.Prelude.{◌≡◌, ℕ, List, length};
    ghost use Rattle.memory_spec.specs.declared.TheConstants.{PAGE_SIZE};

    ghost Value = { List ℕ };

    ghost view = { λ p. p.bytes };

    ghost invariant = { λ p. length p.bytes ≡ PAGE_SIZE };
}

impl Page {
    /// The page of these bytes.
    #[inline(always)]
    pub fn new(bytes: [u8; PAGE_SIZE]) -> Page
        ensures { result ≡ bytes }
    {
        Page { bytes }
    }

    /// A page of zeros.
    #[tactic(auto, unfolding(memory_spec::specs::Pages::zero_page))]
    pub fn zero() -> Page
        ensures { result ≡ zero_page }
    {
        Page {
            bytes: [0; PAGE_SIZE],
        }
    }

    /// Another page with the same bytes.
    #[inline(always)]
    pub fn copy(&self) -> Page
        ensures { result ≡ self.now }
    {
        Page { bytes: self.bytes }
    }

    /// Its bytes. A caller learns that every page has 4,096.
    #[inline(always)]
    pub fn bytes(&self) -> &[u8; PAGE_SIZE]
        ensures value { result.now ≡ self.now }
        ensures whole { length self.now ≡ PAGE_SIZE }
    {
        &self.bytes
    }

    /// The byte at an offset.
    #[inline(always)]
    pub fn get(&self, offset: usize) -> u8
        requires { offset < PAGE_SIZE }
        ensures { result ≡ slice_index self.now offset }
    {
        self.bytes[offset]
    }

    /// Writes the byte at an offset.
    #[inline(always)]
    pub fn set(&mut self, offset: usize, byte: u8)
        requires { offset < PAGE_SIZE }
        ensures { self.new ≡ slice_set self.old offset byte }
    {
        self.bytes[offset] = byte;
    }
}

/// Two pages are equal if their bytes are.
impl PartialEq for Page {
    ghost eq = { bytes_eq };

    ghost laws = { partial_equiv_from_equiv nat_list_eq_equiv };

    #[inline]
    fn eq(&self, other: &Page) -> bool
        ensures eq { result ≡ bytes_eq self.now other.now }
        ensures same { Decides result (self.now ≡ other.now) }
    {
        self.bytes.as_slice() == other.bytes.as_slice()
    }
}

impl Eq for Page {
    ghost laws = { nat_list_eq_equiv };
}
