//! The log of the jobs for which tickets were issued. Its jobs exist only in proofs, its length is a word.

ghost use Rattle.std.specs.Prelude.{◌≡◌, [], Some, slice_get, IfSome};
ghost use Rattle.thunk_record.specs.declared.job.Job.{Job as Issued};
ghost use Rattle.shared_words.specs.TicketViews.{Appended};

use super::rule::{Append, Counts, Nothing};
use logbook::{Offer, Seen, Start, Word};
use std::marker::Model;
use thunk_record::Job;

/// A ticket. Clauses see the book of its log, its number there, and its job.
#[derive(Drop)]
pub struct Ticket {
    pub(super) number: u64,
    seen: Seen<Job, u64, Counts>,
}

impl Model for Ticket {
    ghost use Rattle.std.specs.Prelude.{◌≡◌, true, is_some, slice_get};
    ghost use Rattle.shared_words.specs.TicketViews.{TicketView};

    ghost Value = { TicketView };

    ghost view = { λ t. record {
      book = t.seen.book;
      number = t.number;
      job = slice_get t.seen.log t.number;
    } };

    ghost invariant = { λ t. is_some (slice_get t.seen.log t.number) ≡ true };
}

/// The log, as its only writer sees it.
#[derive(Drop)]
pub(super) struct Log {
    word: Word<Job, u64, Counts>,
    count: u64,
    seen: Seen<Job, u64, Counts>,
}

impl Model for Log {
    ghost use Rattle.std.specs.Prelude.{◌≡◌, length};
    ghost use Rattle.shared_words.specs.TicketViews.{LogView, head_of};

    ghost Value = { LogView };

    ghost view = { λ l. record {
      book = l.seen.book;
      jobs = l.seen.log;
    } };

    ghost invariant = { λ l. (l.word ≡ head_of l.seen.book) × (l.count ≡ length l.seen.log) };
}

impl Log {
    /// An empty log.
    pub(super) fn new() -> Log
        ensures { result.jobs ≡ [] }
    {
        let (seen, mut first, _second) = Seen::open(Start::alone(), 0, 0);
        Log {
            word: Word::tracked(0, &mut first),
            count: 0,
            seen,
        }
    }

    /// Appends a job, and returns a ticket for it. After 2 ^ 64 - 1 jobs there is none.
    pub(super) fn append(&mut self, job: &Job) -> Option<Ticket>
        ensures book { self.new.book ≡ self.old.book }
        ensures named { IfSome result (λ ticket. ticket.book ≡ self.old.book) }
        ensures appended { Appended self.old self.new job.now result }
    {
        let number = self.count;
        if number == u64::MAX {
            return None;
        }
        let mut seen = self.seen.again();
        let mut offer: Offer<Job, u64, Counts, Nothing> = seen.plain::<Nothing, Job, Append>(job);
        let mut pen = seen.no_pen();
        let found = self
            .word
            .compare_exchange::<Append, Nothing>(
                number,
                number + 1,
                &mut seen,
                &mut offer,
                &mut pen,
            );
        if found != number {
            return None;
        }
        self.seen = seen.again();
        self.count = number + 1;
        Some(Ticket { number, seen })
    }

    /// If this log has a job at the ticket's number, it is the ticket's job, since both logs are prefixes of one.
    #[tactic(auto, using(crate::proofs::Prefixes::same_at))]
    pub(super) fn agree(&self, ticket: &Ticket)
        requires book { ticket.now.book ≡ self.now.book }
        ensures { (job : Issued) → slice_get self.now.jobs ticket.now.number ≡ Some job
            → (other : Issued) → ticket.now.job ≡ Some other → other ≡ job }
    {
        let mut both = self.seen.again();
        both.learn(&ticket.seen);
    }
}
