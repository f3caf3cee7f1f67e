//! The top call: all that the program does, from its arguments to its exit status.
#![tactic(auto)]

ghost use Rattle.std.specs.Prelude.{map, string_bytes};
ghost use Rattle.ith_words.specs.Words.{line_of};
ghost use Rattle.ith_commands.specs.Ends.{Answers};
ghost use Rattle.ith_top.specs.Completing.{Completes};

use ith_host::{Gate, Host};
use std::alloc::Global;
use std::sync::Wait;
use std::thread::Threads;

mod crew;
mod generating;
mod program;
mod report;
mod rounds;

pub use ith_commands::Status;

/// Does what the arguments request, and returns the exit status. The first argument is the program's name.
///
/// `run ELF INPUT [EDITS].. --workers W --fuel F --steps S --memo FILE --reach --progress` runs the executable on the
/// input from scratch, and then once for each edit list, on the input of the round before after the list's edits.
///
/// `rerun MEMO [EDITS].. --workers W --fuel F --steps S --memo FILE --reach --progress` continues from the round that a
/// memo holds: once for each edit list, or once without an edit. `--fuel` and `--steps` default to the memo's.
///
/// The workers make each round together: it reuses the steps of the round before it whose records fit, and the workers
/// execute the others. Each of several workers calls the gate before it executes a thunk. The report of each round
/// states the schedule that they found and how many steps each of them made; with `--reach` how many steps of the round
/// before its edit reaches; and with `--progress` how many steps were made, each time that this was read meanwhile. A
/// report is printed before the next round begins. After the last round its memo is written, if `--memo` is given. Each
/// option may be omitted.
///
/// `replay ELF INPUT SCHEDULE --fuel F --steps S` executes each instruction of the executable on the input, in the
/// order of the schedule, from scratch, on a machine without reuse and without workers, and reports the outcome.
///
/// `show MEMO` lists a memo.
///
/// `why MEMO EDITS` makes, by one worker, the round after the edit list that is based on the memo, and says why each of
/// its executed steps was executed: that it has no record, or which register or which byte of a page isn't as it was,
/// and which step stored that byte.
///
/// `races MEMO` counts, page by page, the pairs of a memo's steps of different threads that touch the page, one of them
/// writing it, without an order by threads, objects and given views, and lists the first 10,000.
///
/// `audit MEMO --workers W` executes the steps of a memo again, and says that the memo is honest, or which of its
/// records is the first false one.
///
/// `gen NUMBER --workers W` runs a guest on an input and an edit of it that are generated from the number.
///
/// The files are read in the order of the command line, each once, and no other file is. The runtime is borrowed for
/// the workers, and for the counters of turns, which can't be made without it.
#[tactic(auto, using(crate::proofs::Complete::complete))]
pub fn top<R: Threads + Wait + Sync, H: Host, G: Gate + Sync>(
    rt: &R,
    alloc: Global,
    words: &[String],
    host: &mut H,
    gate: &G,
) -> u8
    ensures answers { Answers (line_of (map string_bytes words.now))
        (H.world host.old) (H.world host.new) result }
    ensures complete { Completes (line_of (map string_bytes words.now))
        (H.world host.old) (H.world host.new) result }
{
    program::status_of(rt, alloc, words, host, gate).code()
}
