//! A step that was assigned to a worker before it set to work.

ghost use Rattle.std.proofs.Props.{props};
ghost use Rattle.rerun_workers.specs.Tickets.{IsTicketOf};

use shared_words::Ticket;
use thunk_record::Job;

/// A step that was assigned to a worker, with its ticket, if there is one.
#[derive(Drop)]
pub(super) struct Begun {
    pub(super) job: Job,
    pub(super) ticket: Option<Ticket>,
    ghost own: { IsTicketOf ticket job } by { Prim.hlevel props },
}
