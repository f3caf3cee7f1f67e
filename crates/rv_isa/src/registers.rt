//! The registers of a hart (RISC-V unprivileged ISA 20191213, 2.1).

ghost use Rattle.std.specs.Prelude.{◌≡◌, ◌≢◌, ◌<◌, length, replicate, slice_index, slice_set};
ghost use Rattle.isa_spec.specs.Registers.{Registers, register, with_register, with_pc, same_registers};
ghost use Rattle.std.proofs.Common.{rules};
ghost use Rattle.std.specs.Cmp.Rules.{comparing};

use std::marker::Model;

/// The registers of a hart: pc, and x0 to x31. x0 is always zero.
///
/// A clause sees a `Registers` of `isa_spec`.
#[derive(Clone, Copy)]
pub struct Regs {
    pc: u32,
    x: [u32; 32],
}

impl Model for Regs {
    ghost Value = { Registers };

    ghost view = { λ r. record { pc = r.pc; x = r.x } };

    ghost invariant = { λ r. slice_index r.x 0 ≡ 0 };

    ghost inverse = { λ r. record { pc = r.pc; x = r.x } };
}

impl PartialEq for Regs {
    ghost eq = { same_registers };

    ghost laws = { Prim.search (comparing, rules) };

    fn eq(&self, other: &Regs) -> bool {
        self.pc == other.pc && self.x == other.x
    }
}

impl Eq for Regs {
    ghost laws = { Prim.search (comparing, rules) };
}

impl Regs {
    /// Registers that are all zero, at an address.
    #[inline(always)]
    pub fn new(pc: u32) -> Self
        ensures { result ≡ record { pc = pc; x = replicate 32 0 } }
    {
        Regs { pc, x: [0; 32] }
    }

    /// The registers in `words`: pc first, then x1 to x31.
    pub fn from_words(words: &[u32; 32]) -> Self
        ensures { result ≡ record { pc = slice_index words.now 0; x = slice_set words.now 0 0 } }
    {
        let mut x = *words;
        x[0] = 0;
        Regs { pc: words[0], x }
    }

    /// pc, then x1 to x31.
    pub fn to_words(&self) -> [u32; 32]
        ensures value { result ≡ slice_set self.now.x 0 self.now.pc }
        ensures count { length self.now.x ≡ 32 }
        ensures zero { register self.now 0 ≡ 0 }
    {
        let mut words = self.x;
        words[0] = self.pc;
        words
    }

    /// The address of the instruction that comes next.
    #[inline(always)]
    pub fn pc(&self) -> u32
        ensures value { result ≡ self.now.pc }
        ensures zero { register self.now 0 ≡ 0 }
    {
        self.pc
    }

    /// Continues at another address.
    #[inline(always)]
    pub fn set_pc(&mut self, pc: u32)
        ensures { self.new ≡ with_pc self.old pc }
    {
        self.pc = pc;
    }

    /// What register `n` holds.
    #[inline(always)]
    pub fn get(&self, n: u8) -> u32
        requires { n < 32 }
        ensures { result ≡ register self.now n }
    {
        self.x[usize::from(n)]
    }

    /// Writes register `n`. A write to x0 is dropped.
    #[inline(always)]
    #[tactic(auto, unfolding(isa_spec::specs::Registers::with_register))]
    pub fn set(&mut self, n: u8, value: u32)
        requires { n < 32 }
        ensures { self.new ≡ with_register self.old n value }
    {
        if n != 0 {
            self.x[usize::from(n)] = value;
        }
    }

    /// Writes register `n`, which isn't x0.
    #[inline(always)]
    #[tactic(auto, unfolding(isa_spec::specs::Registers::with_register))]
    pub fn write(&mut self, n: u8, value: u32)
        requires among { n < 32 }
        requires writable { n ≢ 0 }
        ensures { self.new ≡ with_register self.old n value }
    {
        self.x[usize::from(n)] = value;
    }
}
