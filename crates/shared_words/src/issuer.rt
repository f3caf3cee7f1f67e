//! The issuer of tickets.

ghost use Rattle.std.specs.Prelude.{◌≡◌, true, Some, None, replicate, slice_set, IfSome};
ghost use Rattle.shared_words.specs.TicketViews.{no_numbers, job_of, number_of, IsForLastJob};

use super::log::{Log, Ticket};
use guest_call::THREADS;
use std::marker::Model;
use thunk_record::Job;

/// Issues tickets, and keeps the number of each thread's last one. Clauses see the book of their log, and the job of
/// each thread's last ticket, or none if none could be issued.
#[derive(Drop)]
pub struct Issuer {
    log: Log,
    last: [Option<u64>; THREADS],
}

impl Model for Issuer {
    ghost use Rattle.std.specs.Prelude.{map, length};
    ghost use Rattle.shared_words.specs.TicketViews.{IssuerView, AreBelow, job_at};

    ghost Value = { IssuerView };

    ghost view = { λ t. record {
      book = t.log.book;
      jobs = map (job_at t.log.jobs) t.last;
    } };

    ghost invariant = { λ t. AreBelow (length t.log.jobs) t.last };
}

/// The numbers before any ticket is issued: none for each thread.
#[tactic(auto, unfolding(crate::specs::TicketViews::no_numbers))]
fn no_numbers() -> [Option<u64>; THREADS]
    ensures { result ≡ no_numbers }
{
    [None; THREADS]
}

/// The number of a ticket, if there is one.
fn number_of(ticket: &Option<Ticket>) -> Option<u64>
    ensures { result ≡ number_of ticket.now }
{
    match ticket {
        Some(ticket) => Some(ticket.number),
        None => None,
    }
}

/// Sets the number of thread `t`, if it is one of the 32.
#[tactic(auto, using(crate::proofs::Issuing::set_past))]
fn set(numbers: &mut [Option<u64>; THREADS], t: u8, number: Option<u64>)
    ensures { numbers.new ≡ slice_set numbers.old t number }
{
    if usize::from(t) < THREADS {
        numbers[usize::from(t)] = number;
    }
}

impl Issuer {
    /// An issuer that has issued no ticket.
    pub fn new() -> Issuer
        ensures { result.jobs ≡ replicate 32 None }
    {
        Issuer {
            log: Log::new(),
            last: no_numbers(),
        }
    }

    /// Issues a ticket for a job. It becomes the last one of the job's thread. After 2 ^ 64 - 1 tickets there is none.
    pub fn issue(&mut self, job: &Job) -> Option<Ticket>
        ensures book { self.new.book ≡ self.old.book }
        ensures named { IfSome result (λ ticket. ticket.book ≡ self.old.book) }
        ensures job { IfSome result (λ ticket. ticket.job ≡ Some job.now) }
        ensures last { self.new.jobs ≡ slice_set self.old.jobs job.now.thread (job_of result) }
    {
        let Issuer { log, last } = self;
        let ticket = log.append(job);
        set(last, job.thread, number_of(&ticket));
        ticket
    }

    /// Whether a ticket is the last one of thread `t`.
    pub fn is_last(&self, ticket: &Ticket, t: u8) -> bool
        requires book { ticket.now.book ≡ self.now.book }
        ensures { result ≡ true → IsForLastJob self.now t ticket.now }
    {
        if usize::from(t) >= THREADS {
            return false;
        }
        self.log.agree(ticket);
        self.last[usize::from(t)] == Some(ticket.number)
    }
}
