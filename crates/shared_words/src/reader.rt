//! A reader's seat.

use super::view::View;
use atomic_table::Seat;
use std::marker::Model;

/// The seat of a reader of a word, which adds nothing. It takes no bytes. A clause sees which word it is, the last
/// number that the reader saw or learned from the writer, and how often it loaded the word.
#[derive(Drop)]
pub struct Reader {
    pub(super) seat: Seat<(), View>,
}

impl Model for Reader {
    ghost use Rattle.std.specs.Prelude.{◌≡◌, false, []};
    ghost use Rattle.shared_words.specs.Views.{ReaderView};

    ghost Value = { ReaderView };

    ghost view = { λ r. record {
      table = r.seat.table_id;
      seen = r.seat.me.0.seen;
      loads = r.seat.me.0.loads;
    } };

    ghost invariant = { λ r. (r.seat.me.0.writer ≡ false) × (r.seat.me.1 ≡ []) };
}
