//! The word, and each call that makes a step on it.

ghost use Rattle.std.specs.Prelude.{◌≡◌, ◌+◌, ◌<◌, ◌≤◌, max, IfOk};

use super::reader::Reader;
use super::view::{Adding, Counts, Informing, Loading, View};
use super::writer::Writer;
use atomic_table::Table;
use machine_spec::MOST_STEPS;
use std::alloc::{AllocError, Global};
use std::marker::Model;

/// A word that counts steps. Threads share it by `&`, as out of an `Arc`: each call makes one atomic step on it. A
/// clause sees which word it is.
#[derive(Drop)]
pub struct Word {
    table: Table<(), View, (), Counts, Global>,
}

impl Model for Word {
    ghost use Rattle.std.specs.Prelude.{◌≡◌};
    ghost use Rattle.atomic_table.specs.Seated.{TableId};

    ghost Value = { TableId };

    ghost view = { λ w. w.table.shared.table_id };

    ghost invariant = { λ w. w.table.shared.table_id.words ≡ 1 };
}

impl Word {
    /// A word that counts nothing, with its writer.
    ///
    /// # Errors
    ///
    /// An error if the host's memory ran out.
    pub fn new(alloc: Global) -> Result<(Word, Writer), AllocError>
        ensures table { IfOk result (λ made. made.1.table ≡ made.0) }
        ensures nothing { IfOk result (λ made. (made.1.added ≡ 0) × (made.1.seen ≡ 0)
            × (made.1.loads ≡ 0)) }
    {
        let (table, seat) = Table::of_words(alloc, &[0], &())?;
        Ok((Word { table }, Writer { seat }))
    }

    /// Counts one more step.
    pub fn add(&self, writer: &mut Writer)
        requires same { writer.old.table ≡ self.now }
        requires room { writer.old.added < MOST_STEPS }
        ensures table { writer.new.table ≡ writer.old.table }
        ensures added { writer.new.added ≡ writer.old.added + 1 }
        ensures seen { writer.new.seen ≡ writer.new.added }
        ensures loads { writer.new.loads ≡ writer.old.loads }
    {
        self.table
            .shared
            .fetch_add::<Adding>(&mut writer.seat, 0, 1);
    }

    /// A new reader, which learns what the writer has seen.
    #[tactic(auto, using(crate::proofs::Steps::splits))]
    pub fn split(&self, writer: &mut Writer) -> Reader
        requires { writer.old.table ≡ self.now }
        ensures writer { writer.new ≡ writer.old }
        ensures table { result.table ≡ writer.old.table }
        ensures seen { result.seen ≡ writer.old.seen }
        ensures loads { result.loads ≡ 0 }
    {
        let seat = self.table.shared.split_seat::<Informing>(&mut writer.seat);
        Reader { seat }
    }

    /// How many steps the word counts: at least as many as the reader had seen or learned. It never waits.
    pub fn load(&self, reader: &mut Reader) -> u64
        requires { reader.old.table ≡ self.now }
        ensures table { reader.new.table ≡ reader.old.table }
        ensures seen { reader.new.seen ≡ result }
        ensures loads { reader.new.loads ≡ reader.old.loads + 1 }
        ensures rises { reader.old.seen ≤ result }
        ensures few { result ≤ MOST_STEPS }
    {
        self.table.shared.load::<Loading>(&mut reader.seat, 0)
    }

    /// Consumes a reader. The writer learns what it has seen, and the next `read` finds at least that.
    #[tactic(auto, using(crate::proofs::Steps::joins))]
    pub fn join(&self, writer: &mut Writer, reader: Reader)
        requires writer { writer.old.table ≡ self.now }
        requires reader { reader.table ≡ self.now }
        ensures table { writer.new.table ≡ writer.old.table }
        ensures added { writer.new.added ≡ writer.old.added }
        ensures seen { writer.new.seen ≡ max writer.old.seen reader.seen }
        ensures loads { writer.new.loads ≡ writer.old.loads }
    {
        self.table
            .shared
            .join_seat::<Informing>(&mut writer.seat, reader.seat);
    }

    /// How many steps the word counts, as its writer finds it: exactly those that were added, and at least as many as
    /// the writer had seen or learned.
    pub fn read(&self, writer: &mut Writer) -> u64
        requires { writer.old.table ≡ self.now }
        ensures table { writer.new.table ≡ writer.old.table }
        ensures added { writer.new.added ≡ writer.old.added }
        ensures seen { writer.new.seen ≡ result }
        ensures loads { writer.new.loads ≡ writer.old.loads + 1 }
        ensures all { result ≡ writer.old.added }
        ensures rises { writer.old.seen ≤ result }
        ensures few { result ≤ MOST_STEPS }
    {
        self.table.shared.load::<Loading>(&mut writer.seat, 0)
    }
}
