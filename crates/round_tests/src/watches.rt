//! What a watch reads of a round that one worker makes, step by step: after each of the twelve steps of a guest how
//! many there are.

ghost use Rattle.std.specs.Prelude.{◌≡◌, IfOk};
ghost use Rattle.round_spec.specs.Rounds.{opening};

use super::boards::make_next;
use machine_spec::Limits;
use propagate::Round;
use rerun_workers::{Blanks, Board, Counter, Naming, WatchedRound};
use run_history::Setup;
use std::alloc::Global;
use std::marker::Brand;
use std::sync::Wait;
use std::test::Fail;
use std::thread::Threads;
use worked_guests::file_of;
use worked_guests::guests::PAIR;

/// How many steps the guest makes: six of its first thread, and three of each of the other two.
const STEPS: u64 = 12;

/// The round of the guest of two adding threads, before its first step.
fn opened(alloc: Global) -> Result<Round, Fail>
    ensures { IfOk result (λ round. round ≡ opening round.setup round.past) }
{
    let (Some(elf), Some(limits)) = (file_of(alloc, PAIR)?, Limits::new(1_000_000, 4096)) else {
        return Err(Fail::new("there is no such guest"));
    };
    if elf.len() > 4096 {
        return Err(Fail::new("the guest is too long"));
    }
    match Setup::new(alloc, elf, Vec::new(alloc), limits) {
        Ok(setup) => Ok(Round::new(alloc, setup, None)?),
        Err(_) => Err(Fail::new("the guest isn't taken")),
    }
}

/// What a watch reads before the first step and after each, and then what it gets when the board is closed.
fn read<J: Naming, R: Threads + Wait>(
    rt: &R,
    alloc: Global,
    round: Round,
    counter: Counter,
    blanks: Blanks,
) -> Result<Vec<u64>, Fail>
    requires name { (blanks.ledger.name ≡ J.name) × (blanks.issuer.book ≡ J.tickets) }
    requires parts { (blanks.ledger.parts ≡ J.parts) × (J.parts ≡ 1) }
    requires workers { (J.workers ≡ 1) × (J.watches ≡ 1) }
    requires table { (counter.writer.table ≡ J.table) × (counter.writer.added ≡ 0) }
    requires opening { round ≡ opening J.setup J.past }
{
    let watched = WatchedRound { round, counter };
    let (board, mut passes, mut watches) = Board::<J>::with_watches(
        rt, alloc, watched, 1, 1, blanks,
    )?;
    let mut pass = passes.remove(0);
    let mut watch = watches.remove(0);
    let mut numbers = Vec::new(alloc);
    numbers.push(board.progress(&mut watch))?;
    for _ in 0..STEPS {
        make_next(rt, alloc, &board, &mut pass)?;
        numbers.push(board.progress(&mut watch))?;
    }
    passes.push(pass)?;
    watches.push(watch)?;
    let (_worked, last) = board.close_watched(passes, watches);
    numbers.push(last)?;
    Ok(numbers)
}

#[test]
fn a_watch_reads_each_step(rt: HostRuntime) -> Result<(), Fail> {
    let alloc = rt.alloc();
    let counter = Counter::new(alloc)?;
    let numbers = read::<Brand, _>(&rt, alloc, opened(alloc)?, counter, Blanks::new(1))?;
    let wanted = [0, 1, 2, 3, 4, 5, 6, 7, 8, 9, 10, 11, 12, 12];
    assert!(&rt; numbers.as_slice() == wanted.as_slice());
    Ok(())
}
