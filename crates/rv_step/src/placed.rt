//! An operation of a decoded page, and where it leads.

ghost use Rattle.std.specs.Prelude.{◌≡◌, ◌≢◌, ◌<◌, ◌≤◌, true, false};
ghost use Rattle.memory_spec.specs.declared.TheConstants.{PAGE_NUMBERS};
ghost use Rattle.rv_code.specs.Meaning.{may_have_zero, is_inside};

use rv_code::Kind;

/// Where an executed operation leads.
#[derive(Clone, Copy)]
pub(super) enum Flow {
    /// To the next operation.
    Next,
    /// To the operation of an index in the page.
    Inside(u32),
    /// To an address, maybe out of the page.
    Outside(u32),
    /// To the next word: the page that runs was stored to.
    Changed,
    /// Nowhere: nothing was done, and it is left to a turn of its own.
    Other,
}

/// An operation of a decoded page, with the number of the page and the index of its word there.
#[derive(Clone, Copy)]
pub(super) struct Placed {
    pub kind: Kind,
    pub rd: u8,
    pub rs1: u8,
    pub rs2: u8,
    pub imm: u32,
    pub number: u32,
    pub index: usize,
    ghost first: { rd < 32 },
    ghost second: { rs1 < 32 },
    ghost third: { rs2 < 32 },
    ghost writes: { may_have_zero kind ≡ false → rd ≢ 0 },
    ghost inside: { is_inside kind ≡ true → imm < 1024 },
    ghost within: { is_inside kind ≡ true → index < 1024 },
    ghost few_pages: { number < PAGE_NUMBERS },
    ghost few_words: { index ≤ 1024 },
}
