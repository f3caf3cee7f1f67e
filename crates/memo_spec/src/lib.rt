//! The memo file: what its bytes encode, and how bytes are refused that aren't taken as one.
#![tactic(auto)]

ghost use Rattle.std.specs.Prelude.{◌≡◌, ℕ, List, Ok};
ghost use Rattle.history_spec.specs.History.{History};
ghost use Rattle.memo_spec.specs.Encoding.{IsEncodable, memo_in, EncodesIn, Encodes};
ghost use Rattle.memo_spec.specs.Reading.{reading, IsTaken};

/// The most bytes of a memo.
pub const MOST_MEMO_BYTES: usize = 268_435_456;

/// The format of a memo file, by its version.
#[derive(Clone, Copy)]
pub enum Format {
    /// Version 1, which is read and no longer written.
    Version1,
    /// Version 2, which has a profile behind the version.
    Version2,
}

/// A number that has a limit.
#[derive(Clone, Copy)]
pub enum Limit {
    /// The length of the executable.
    Elf,
    /// The length of the input.
    Input,
    /// The most turns of a thunk.
    Fuel,
    /// The most steps of a run.
    Steps,
    /// The number of records.
    Entries,
}

/// Why bytes aren't taken as a memo.
#[derive(Clone, Copy)]
pub enum Refusal {
    /// There are fewer than 40 bytes.
    Short,
    /// The first four bytes aren't the magic number.
    Magic,
    /// The version is neither 1 nor 2.
    Version(u32),
    /// The last 32 bytes aren't the digest of those before.
    Digest,
    /// This number is out of its range.
    Limit(Limit),
    /// The executable isn't taken.
    Image(elf_spec::Refusal),
    /// The field at this offset is cut off or against its rule.
    Field(usize),
    /// In a file of version 1 this record, the last, ended by an illegal instruction that is one of the standard
    /// extension M, or by a call of a reader-writer lock: the memo is from before M, or from before these calls.
    Old(u32),
    /// This record doesn't fit the machine after those before it, or no end comes.
    Incoherent(u32),
}

/// Bytes encode at most one history, whatever the version.
pub fn bytes_encode_one_history()
    ensures { (bytes : List ℕ) (a b : History) → Encodes bytes a → Encodes bytes b → a ≡ b }
{}

/// In each version a history that can be encoded has one encoding.
pub fn history_has_one_encoding()
    ensures one { (format : Format) (a b : List ℕ) (h : History) → EncodesIn format a h
        → EncodesIn format b h → a ≡ b }
    ensures some { (format : Format) (h : History) → IsEncodable h
        → EncodesIn format (memo_in format h) h }
{}

/// Bytes are taken as a history that they encode, if it is coherent and, in version 1, not old.
pub fn encoded_is_taken()
    ensures { (bytes : List ℕ) (h : History) → IsTaken bytes h → reading bytes ≡ Ok h }
{}

/// A history that bytes are taken as is one that they encode; it is coherent and, in version 1, not old.
pub fn taken_is_encoded(bytes: &[u8])
    ensures { (h : History) → reading bytes.now ≡ Ok h → IsTaken bytes.now h }
{}
