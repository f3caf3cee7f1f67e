//! The names of the round that workers make together, in the types that they share.

ghost use Rattle.std.specs.Prelude.{◌≡◌, ◌+◌, ◌≤◌, ℕ, [], Option, None, Some};
ghost use Rattle.std.specs.Arc.{arc_value};
ghost use Rattle.std.proofs.Props.{props};
ghost use Rattle.machine_spec.specs.Setup.{Setup, first};
ghost use Rattle.history_spec.specs.History.{History};
ghost use Rattle.round_spec.specs.Unedited.{IsUnedited};
ghost use Rattle.rerun_workers.specs.declared.begun.Begun.{Begun as StepBegun};
ghost use Rattle.atomic_table.specs.Seated.{TableId};
ghost use Rattle.logbook.specs.Pages.{Book};
ghost use Rattle.shared_words.specs.Views.{no_table};
ghost use Rattle.shared_words.specs.TicketViews.{no_book};
ghost use Rattle.rerun_workers.specs.Making.{ComparesNone};
ghost use Rattle.rerun_workers.specs.Passes.{held};
ghost use Rattle.rerun_workers.specs.Tickets.{IsNamed};

use super::begun::Begun;
use super::effort::Effort;
use rv_isa::Tally;
use shared_words::{Issuer, Ticket};
use std::marker::Brand;
use std::sync::ledger::{Blank, Ledger, Share};

/// The setup of a board's round, the history that it is based on, its numbers of workers and of watches, the word that
/// watches read, and the book of its tickets. The types of the board, of its passes and of its watches name all of
/// these, so no round of another setup or history can take its place, and no other round can be watched.
pub trait Naming: Ledger {
    ghost setup: { Setup };

    ghost past: { Option History };

    ghost workers: { ℕ };

    ghost watches: { ℕ };

    ghost table: { TableId };

    ghost tickets: { Book };
}

impl Naming for Brand {
    ghost setup = { record { elf = []; input = []; fuel = 0; limit = 0 } };

    ghost past = { None };

    ghost workers = { 0 };

    ghost watches = { 0 };

    ghost table = { no_table };

    ghost tickets = { no_book };
}

/// A blank ledger, and an issuer that has issued no ticket, from which a board is made. The board's type names both.
#[derive(Drop)]
pub struct Blanks {
    /// The ledger.
    pub ledger: Blank,
    /// The issuer.
    pub issuer: Issuer,
}

impl Blanks {
    /// What a board of `workers` workers is made from.
    pub fn new(workers: u32) -> Blanks
        ensures { result.ledger.parts ≡ workers }
    {
        Blanks {
            ledger: Blank::new(u64::from(workers)),
            issuer: Issuer::new(),
        }
    }
}

/// What a worker holds of a board: how many steps of the round it has made, which its share of the ledger counts too; a
/// step that was assigned to it before it set to work, if there is one; the ticket of the step that it was last
/// assigned, until it commits a run or sets that step aside; and its effort. Without an edit it executes no turn and,
/// if the history is coherent, compares no page. Four tallies count how often it asked what to do, was assigned a step,
/// executed one, and submitted one.
#[derive(Drop)]
pub struct Pass<J: Naming> {
    pub(super) share: Share<J>,
    pub(super) effort: Effort,
    pub(super) asked: Tally,
    pub(super) taken: Tally,
    pub(super) ran: Tally,
    pub(super) submitted: Tally,
    pub(super) steps: u64,
    pub(super) begun: Option<Begun>,
    pub(super) ticket: Option<Ticket>,
    ghost one: { share.parts ≡ 1 },
    ghost counted: { steps ≡ share.amount },
    ghost own: { (b : StepBegun) → begun ≡ Some b → arc_value b.job.frame ≡ (first J.setup).frame },
    ghost named: { (b : StepBegun) → begun ≡ Some b → IsNamed J.tickets b.ticket } by { Prim.hlevel props },
    ghost ticketed: { IsNamed J.tickets ticket } by { Prim.hlevel props },
    ghost edited: { (b : StepBegun) → begun ≡ Some b → (h : History) → J.past ≡ Some h → IsUnedited h J.setup → ⊥ },
    ghost once: { ran.number + held begun ≤ taken.number },
    ghost idle: { (h : History) → J.past ≡ Some h → IsUnedited h J.setup → effort.turns ≡ 0 },
    ghost spares: { ComparesNone J.setup J.past effort.compared },
}

impl<J: Naming> Pass<J> {
    /// A pass with a share that counts nothing, and with no effort.
    pub(super) fn new(share: Share<J>, effort: Effort) -> Pass<J>
        requires one { share.parts ≡ 1 }
        requires nothing { share.amount ≡ 0 }
        requires unused { (effort.turns ≡ 0) × (effort.compared ≡ 0) }
        ensures { result.steps ≡ 0 }
    {
        Pass {
            share,
            effort,
            asked: Tally::none(),
            taken: Tally::none(),
            ran: Tally::none(),
            submitted: Tally::none(),
            steps: 0,
            begun: None,
            ticket: None,
        }
    }

    /// How many steps of the round its worker has made.
    pub fn steps(&self) -> u64
        ensures { result ≡ self.now.steps }
    {
        self.steps
    }
}
