//! Schedules as text: the threads of a run's steps, in order.
#![tactic(auto)]

ghost use Rattle.std.specs.Prelude.{ℕ, ◌≡◌, ◌<◌, ◌^◌, ◌++◌, List, All, flat_map, Ok, Result};
ghost use Rattle.guest_call.specs.declared.thread_number.TheConstants.{THREADS};
ghost use Rattle.report_spec.specs.declared.Entry.{Entry};
ghost use Rattle.report_spec.specs.Text.{space, newline};
ghost use Rattle.report_spec.specs.Report.{entry_text, threads_of};
ghost use Rattle.schedule_list.specs.Schedule.{Says};

mod parser;
mod token;

pub use parser::{ParseError, parse};

/// The most bytes of a schedule.
pub const MOST_SCHEDULE_BYTES: usize = 1_048_576;

/// A schedule has at most a mebibyte.
pub fn limit_is_a_mebibyte()
    ensures { MOST_SCHEDULE_BYTES ≡ 2 ^ 20 }
{}

/// A text says one thing: these threads and no others, or that this token is the first bad one, and not both.
pub fn text_says_one_thing()
    ensures { (text : List ℕ) (a b : Result (List ℕ) ℕ) → Says text a → Says text b → a ≡ b }
{}

/// The schedule line of a report, without its first word, says the threads of the round's steps.
pub fn schedule_line_says_its_threads()
    ensures { (schedule : List Entry)
        → All (λ t. t < THREADS) (threads_of schedule)
        → Says (flat_map (λ (e : Entry). space ++ entry_text e) schedule ++ newline)
        (Ok (threads_of schedule)) }
{}
