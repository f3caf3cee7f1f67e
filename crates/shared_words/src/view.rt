//! What a seat at the word's table knows, the rule of the table, and what its steps give.

use atomic_table::{Join, Play, Split, TableRule};

/// What a seat knows: whether it is the writer's, how many steps it added, the last number that it saw or learned from
/// another seat, and how often it loaded the word. No value of it is ever created.
pub struct View {
    pub writer: bool,
    pub added: u64,
    pub seen: u64,
    pub loads: u64,
}

/// The rule of the word: it is what its one writer has added, and no seat has seen more.
pub struct Counts;

impl TableRule<(), View, ()> for Counts {
    ghost use Rattle.shared_words.specs.Counting.{IsCounted, starter};

    ghost holds = { λ _. IsCounted };

    ghost first = { λ _. starter };
}

/// The writer adds one.
pub(super) struct Adding;

impl Play<(), View> for Adding {
    ghost use Rattle.shared_words.specs.Counting.{Adds};

    ghost then = { Adds };
}

/// A seat loads the word.
pub(super) struct Loading;

impl Play<(), View> for Loading {
    ghost use Rattle.shared_words.specs.Counting.{Loads};

    ghost then = { Loads };
}

/// A new reader learns what the writer has seen, and the writer learns what a reader has seen.
pub(super) struct Informing;

impl Split<View> for Informing {
    ghost use Rattle.shared_words.specs.Counting.{informed};

    ghost left = { λ v. v };

    ghost right = { informed };
}

impl Join<View> for Informing {
    ghost use Rattle.shared_words.specs.Counting.{joined, spent};

    ghost both = { joined };

    ghost spent = { spent };
}
