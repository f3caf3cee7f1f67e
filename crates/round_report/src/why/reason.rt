//! Why a step was executed.

/// Why no record of an earlier run was reused for a step.
#[derive(Clone, Copy)]
pub enum Cause {
    /// There is no record of this thread at this number.
    NoRecord,
    /// A register has another value than at the record's start; the pc has the number 0.
    Register {
        register: u8,
        now: u32,
        was: u32,
    },
    /// A byte of a page that the record has read has another value now: the page's address, the byte's place in it, and
    /// which entry stored it, if one did.
    Byte {
        page: u32,
        place: usize,
        now: u8,
        was: u8,
        storer: Option<usize>,
    },
}

/// Why an entry of a round was executed.
#[derive(Clone, Copy)]
pub struct Reason {
    /// The entry, counted from 0.
    pub step: usize,
    /// Its thread.
    pub thread: u8,
    /// How many steps the thread had made before.
    pub number: u32,
    /// Why no record was reused for it.
    pub cause: Cause,
}
