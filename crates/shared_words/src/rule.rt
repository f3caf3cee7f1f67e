//! The rule of the log of issued jobs, and what a step on its word gives. The log itself exists only in proofs.

use logbook::{Gain, Plain, Play, Rule};
use thunk_record::Job;

/// The rule: the word is the length of the log.
pub(super) struct Counts;

impl Rule<Job, u64> for Counts {
    ghost use Rattle.std.specs.Prelude.{[]};
    ghost use base.Fml.{ftrue};
    ghost use Rattle.shared_words.specs.Rules.{IsKept};

    ghost holds = { λ cells log. IsKept cells log };

    ghost first = { [] };

    ghost hinted = { λ n log. Unit {0} };

    ghost shows = { λ log. [] };

    ghost keeps = { λ names log. ftrue };

    ghost moves = { λ ask before after answer. Unit {0} };
}

/// Issuing a ticket trades nothing.
pub(super) struct Nothing;

impl Gain<Job, u64> for Nothing {
    ghost use base.Fml.{ftrue};

    ghost after = { λ names about answer. ftrue };
}

/// A step that appends a job to the log.
pub(super) struct Append;

impl Play<Job, u64> for Append {
    ghost use Rattle.shared_words.specs.Rules.{Appends};

    ghost then = { Appends };
}

impl Plain<Job, Job, u64> for Append {
    ghost use Rattle.std.specs.Prelude.{None};

    ghost ask = { λ job. job };

    ghost state = { λ job. None };
}
