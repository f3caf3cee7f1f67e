//! Watching a round: a word counts its steps, and a watch reads the word without a lock.

ghost use Rattle.std.specs.Prelude.{◌≡◌, ◌+◌, ◌<◌, ◌≤◌, All, [], vec_len, vec_capacity, Some, None, option_map, IfOk};
ghost use Rattle.std.specs.Arc.{arc_value};
ghost use Rattle.std.specs.List.{last_or};
ghost use Rattle.std.specs.List.Sorted.{IsStrictlyIncreasing};
ghost use Rattle.machine_spec.specs.declared.TheConstants.{MOST_STEPS};
ghost use Rattle.round_spec.specs.declared.TheConstants.{MOST_LOOKS};
ghost use Rattle.round_spec.specs.Rounds.{opening};

use super::board::Board;
use super::naming::Naming;
use propagate::Round;
use round_spec::MOST_LOOKS;
use run_history::{History, Setup};
use shared_words::{Reader, Word, Writer};
use std::alloc::{AllocError, Global};
use std::marker::PhantomData;
use std::sync::Arc;
use std::sync::atomic::{AtomicBool, Ordering};
use std::thread::yield_now;

/// The word that counts the steps of a watched round, and the only seat that may raise it.
#[derive(Drop)]
pub struct Counter {
    word: Arc<Word>,
    writer: Writer,
    ghost own: { writer.table ≡ arc_value word },
}

/// A round before its first step, and the counter of its steps.
#[derive(Drop)]
pub struct WatchedRound {
    /// The round.
    pub round: Round,
    /// The counter of its steps, which has counted none.
    pub counter: Counter,
}

impl WatchedRound {
    /// The round of a setup before its first step, based on a history if there is one, and a counter that has counted
    /// none of its steps.
    ///
    /// # Errors
    ///
    /// An error if the host's memory ran out.
    pub(super) fn new(
        alloc: Global,
        setup: Setup,
        past: Option<Arc<History>>,
    ) -> Result<WatchedRound, AllocError>
        ensures round { IfOk result (λ watched. watched.round
            ≡ opening setup (option_map arc_value past)) }
        ensures nothing { IfOk result (λ watched. watched.counter.writer.added ≡ 0) }
    {
        let counter = Counter::new(alloc)?;
        let round = Round::new(alloc, setup, past)?;
        Ok(WatchedRound { round, counter })
    }
}

impl Counter {
    /// A counter with its own word, which has counted no step.
    ///
    /// # Errors
    ///
    /// An error if the host's memory ran out.
    pub fn new(alloc: Global) -> Result<Counter, AllocError>
        ensures { IfOk result (λ counter. counter.writer.added ≡ 0) }
    {
        let (word, writer) = Word::new(alloc)?;
        let word = Arc::new(alloc, word)?;
        Ok(Counter { word, writer })
    }

    /// Counts one more step.
    pub(super) fn add(&mut self)
        requires { self.old.writer.added < MOST_STEPS }
        ensures added { self.new.writer.added ≡ self.old.writer.added + 1 }
        ensures table { self.new.writer.table ≡ self.old.writer.table }
    {
        let Counter { word, writer } = self;
        word.add(writer);
    }

    /// A watch of the word, which has seen what the writer has.
    ///
    /// # Errors
    ///
    /// An error if the word has as many holders as can be counted.
    pub(super) fn split<J: Naming>(&mut self) -> Result<Watch<J>, AllocError>
        requires { self.old.writer.table ≡ J.table }
        ensures added { self.new.writer.added ≡ self.old.writer.added }
        ensures table { self.new.writer.table ≡ self.old.writer.table }
        ensures looks { IfOk result (λ watch. watch.reader.loads ≡ 0) }
    {
        let Counter { word, writer } = self;
        let shared = word.clone()?;
        let reader = word.split(writer);
        Ok(Watch {
            word: shared,
            reader,
            marker: PhantomData,
        })
    }

    /// Takes a watch back. The writer then has seen all that the watch has seen.
    pub(super) fn join<J: Naming>(&mut self, watch: Watch<J>)
        requires { self.old.writer.table ≡ J.table }
        ensures added { self.new.writer.added ≡ self.old.writer.added }
        ensures table { self.new.writer.table ≡ self.old.writer.table }
        ensures seen { (watch.reader.seen ≤ self.new.writer.seen)
            × (self.old.writer.seen ≤ self.new.writer.seen) }
    {
        let Counter { word, writer } = self;
        let Watch { reader, .. } = watch;
        word.join(writer, reader);
    }

    /// How many steps were counted, by a look at the word.
    pub(super) fn read(&mut self) -> u64
        ensures all { result ≡ self.old.writer.added }
        ensures seen { self.old.writer.seen ≤ result }
    {
        let Counter { word, writer } = self;
        word.read(writer)
    }
}

/// What a watcher holds of a board: a seat of the word that counts the board's steps.
#[derive(Drop)]
pub struct Watch<J: Naming> {
    word: Arc<Word>,
    pub(super) reader: Reader,
    marker: PhantomData<J>,
    ghost own: { reader.table ≡ arc_value word },
    ghost named: { reader.table ≡ J.table },
}

impl<J: Naming> Watch<J> {
    /// How many steps of the round were made, by one look at the word.
    pub(super) fn look(&mut self) -> u64
        ensures seen { self.new.reader.seen ≡ result }
        ensures rises { self.old.reader.seen ≤ result }
        ensures looks { self.new.reader.loads ≡ self.old.reader.loads + 1 }
    {
        let Watch { word, reader, .. } = self;
        word.load(reader)
    }
}

/// Appends a number that was read, if it is greater than the last one.
pub(super) fn note(numbers: &mut Vec<u64>, number: u64)
    requires room { vec_len numbers.old < vec_capacity numbers.old }
    requires ascends { IsStrictlyIncreasing numbers.old.items }
    ensures ascends { IsStrictlyIncreasing numbers.new.items }
    ensures few { vec_len numbers.new ≤ vec_len numbers.old + 1 }
    ensures room { vec_capacity numbers.new ≡ vec_capacity numbers.old }
    ensures last { All (λ n. n ≤ number) numbers.old.items
        → last_or None numbers.new.items ≡ Some number }
    ensures below { All (λ n. n ≤ number) numbers.old.items
        → All (λ n. n ≤ number) numbers.new.items }
{
    match numbers.last() {
        Some(last) if number <= *last => {}
        _ => numbers.push_reserved(number),
    }
}

/// Lets other threads run for a while, longer after each look, or until the round is finished.
fn pause(looks: usize, over: &AtomicBool) {
    for _ in 0..looks {
        if over.load(Ordering::Relaxed) {
            return;
        }
        yield_now();
    }
}

/// Reads how many steps of the round on the board were made, at most `MOST_LOOKS` times and until the round is
/// finished, and keeps the numbers that differ.
pub(super) fn watch_round<J: Naming>(
    board: &Board<J>,
    mut watch: Watch<J>,
    mut numbers: Vec<u64>,
    over: &AtomicBool,
) -> (Watch<J>, Vec<u64>)
    requires none { numbers.items ≡ [] }
    requires room { MOST_LOOKS < vec_capacity numbers }
    ensures ascends { IsStrictlyIncreasing result.1.items }
    ensures few { vec_len result.1 ≤ MOST_LOOKS }
    ensures room { vec_capacity result.1 ≡ vec_capacity numbers }
    ensures seen { All (λ n. n ≤ result.0.reader.seen) result.1.items }
{
    for looks in 0..MOST_LOOKS {
        if over.load(Ordering::Relaxed) {
            break;
        }
        let number = board.progress(&mut watch);
        note(&mut numbers, number);
        pause(looks, over);
    }
    (watch, numbers)
}
