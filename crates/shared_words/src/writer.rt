//! The writer's seat.

use super::view::View;
use atomic_table::Seat;
use std::marker::Model;

/// The seat of the one writer of a word. It takes no bytes. A clause sees which word it is, how many steps the writer
/// added, the greatest number that it saw or learned from a reader, and how often it loaded the word.
#[derive(Drop)]
pub struct Writer {
    pub(super) seat: Seat<(), View>,
}

impl Model for Writer {
    ghost use Rattle.std.specs.Prelude.{◌≡◌, true};
    ghost use Rattle.shared_words.specs.Views.{WriterView};

    ghost Value = { WriterView };

    ghost view = { λ w. record {
      table = w.seat.table_id;
      added = w.seat.me.0.added;
      seen = w.seat.me.0.seen;
      loads = w.seat.me.0.loads;
    } };

    ghost invariant = { λ w. w.seat.me.0.writer ≡ true };
}
