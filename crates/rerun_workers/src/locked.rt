//! The round under the lock. Each call does some of the round's events, and its contract names them.

ghost use Rattle.std.specs.Prelude.{◌≡◌, ◌+◌, ◌<◌, ◌≤◌, ℕ, true, length, Some, is_ok, is_some, if◌then◌else◌, IfSome, OnOk, OnErr};
ghost use Rattle.std.specs.Arc.{arc_value};
ghost use Rattle.atomic_table.specs.Seated.{TableId};
ghost use Rattle.machine_spec.specs.declared.TheConstants.{MOST_STEPS};
ghost use Rattle.machine_spec.specs.Setup.{first};
ghost use Rattle.history_spec.specs.History.{History};
ghost use Rattle.round_spec.specs.declared.events.Event.TheVariants as event;
ghost use Rattle.round_spec.specs.declared.events.Pick.TheVariants as pick;
ghost use Rattle.round_spec.specs.Rounds.{opening, can_take, can_reuse, happens};
ghost use Rattle.round_spec.specs.Choice.{pick_of};
ghost use Rattle.round_spec.specs.Unedited.{IsUnedited};
ghost use Rattle.propagate.specs.Choosing.{is_something};
ghost use Rattle.propagate.specs.Committing.{Commits, Continues, entries_of};
ghost use Rattle.propagate.specs.Consistency.{IsValid};
ghost use Rattle.rerun_workers.specs.Following.{FollowsPicks};
ghost use Rattle.std.proofs.Props.{props};
ghost use Rattle.rerun_workers.specs.Watching.{IsCounting};
ghost use Rattle.rerun_workers.specs.Passes.{held};
ghost use Rattle.rerun_workers.specs.Tickets.{AreIssued, IsLastOf, IsNamed, IsTicketFor, IsRunOfTicket};
ghost use Rattle.rerun_workers.specs.Locking.{Assigns, AssignsAfter, BeginsIn, BeginsNothing, begun_by, IsReady, given_up, Lands, ReturnsRun, steps_by, Counts};

use super::naming::{Naming, Pass};
use super::watching::Counter;
use propagate::{Committed, Round};
use round_spec::Pick;
use shared_words::{Issuer, Ticket};
use std::alloc::AllocError;
use std::sync::ledger::Book;
use thunk_record::Job;
use thunk_run::Run;

/// What a worker is to do next.
#[derive(Drop)]
pub enum Task {
    /// To execute this step, which was taken for it.
    Begin(Job),
    /// To wait until another worker is done.
    Hold,
    /// Nothing more: the round is finished.
    Over,
    /// Nothing more: the host's memory ran out, and the round was stopped.
    NoMemory,
}

/// What came of a run that a worker submitted.
#[derive(Drop)]
pub enum CommitOutcome {
    /// It is an entry of the schedule, and its thread is no longer in flight.
    Done,
    /// It can't be committed, and is returned: the round is finished, the step ran on another page map or with another
    /// fuel than the round's, its thread isn't in flight, or its record doesn't fit. Its thread is no longer in flight;
    /// if it was, its step was discarded.
    Stale(Run),
    /// The host's memory ran out, and the run is returned. Its step was discarded, its thread is no longer in flight,
    /// and the round was stopped.
    NoMemory(Run),
}

/// The round that workers make together, under their lock. The total of the ledger's book is the length of the
/// schedule. If the round is watched, so is a word that is read without the lock. The issuer issues a ticket for each
/// step that is taken. The round is of the setup and of the history that its type names, and only what was picked was
/// started in it. If the history is sound, all of it was chosen by the rule. Without an edit since a coherent history,
/// the round has only replayed that history so far.
#[derive(Drop)]
pub struct Locked<J: Naming> {
    pub(super) round: Round,
    pub(super) book: Book<J>,
    pub(super) counter: Option<Counter>,
    pub(super) issuer: Issuer,
    ghost counted: { length round.schedule ≡ book.total },
    ghost watched: { IsCounting J.table (length round.schedule) counter } by { Prim.hlevel props },
    ghost counts: { 0 < J.watches → is_some counter ≡ true },
    ghost setup: { round.setup ≡ J.setup },
    ghost past: { round.past ≡ J.past },
    ghost follows: { FollowsPicks J.setup J.past round },
    ghost issued: { AreIssued J.tickets round issuer },
}

/// Discards the step of thread `t`, if one is in flight.
fn discard(round: &mut Round, t: u8)
    ensures event { round.new ≡ happens round.old (event.GiveBack t) }
    ensures same { Continues 0 round.old round.new }
    ensures valid { IsValid round.old }
{
    if round.is_in_flight(t) {
        round.give_back(t);
    }
}

/// Discards the step of thread `t`, if one is in flight, and stops the round.
fn give_up(round: &mut Round, t: u8)
    ensures events { round.new ≡ given_up round.old t }
    ensures same { Continues 0 round.old round.new }
    ensures valid { IsValid round.old }
{
    discard(round, t);
    round.stop();
}

/// Whether there is a ticket, and it is the last one of thread `t`.
fn is_last(issuer: &Issuer, ticket: &Option<Ticket>, t: u8) -> bool
    requires named { IsNamed issuer.now.book ticket.now }
    ensures { result ≡ true → IsLastOf issuer.now t ticket.now }
{
    match ticket {
        Some(ticket) => issuer.is_last(ticket, t),
        None => false,
    }
}

/// Commits a run to the round whose tickets this issuer issues. If it has the last ticket of its thread, its registers
/// and read pages aren't compared.
#[tactic(auto, using(crate::proofs::Issued::last_step))]
fn commit_run(round: &mut Round, issuer: &Issuer, ticket: Option<Ticket>, run: Run) -> Committed
    requires own { arc_value run.frame ≡ (first round.old.setup).frame }
    requires issued { AreIssued issuer.now.book round.old issuer.now }
    requires named { IsNamed issuer.now.book ticket }
    requires ticket { IsRunOfTicket ticket run }
    ensures does { Commits round.old run result round.new }
    ensures same { Continues (entries_of result) round.old round.new }
    ensures valid { IsValid round.old }
{
    if is_last(issuer, &ticket, run.rec.thread()) {
        return round.commit_taken(run);
    }
    round.commit_own(run)
}

/// Counts one more step, if there is a counter.
fn count(counter: &mut Option<Counter>)
    requires { IfSome counter.old (λ c. c.writer.added < MOST_STEPS) }
    ensures counts { (table : TableId) (steps : ℕ)
        → IsCounting table steps counter.old
        → IsCounting table (steps + 1) counter.new }
    ensures some { is_some counter.new ≡ is_some counter.old }
{
    if let Some(counter) = counter.as_mut() {
        counter.add();
    }
}

impl<J: Naming> Locked<J> {
    /// A round before its first step, with a book whose total is 0, with the issuer of its tickets and, if it is
    /// watched, with a word that has counted nothing.
    #[tactic(auto, using(crate::proofs::Following::follows_opening))]
    pub(super) fn new(
        round: Round,
        book: Book<J>,
        counter: Option<Counter>,
        issuer: Issuer,
    ) -> Locked<J>
        requires opening { round ≡ opening J.setup J.past }
        requires empty { book.total ≡ 0 }
        requires watched { IsCounting J.table 0 counter }
        requires counts { 0 < J.watches → is_some counter ≡ true }
        requires named { issuer.book ≡ J.tickets }
    {
        Locked {
            round,
            book,
            counter,
            issuer,
        }
    }

    /// Reuses the record that is picked, and counts it as a step of this worker.
    fn reuse(&mut self, pass: &mut Pass<J>, t: u8) -> Result<(), AllocError>
        requires picked { pick_of self.old.round ≡ pick.Reuse t }
        requires can { can_reuse self.old.round t ≡ true }
        ensures ok { OnOk result (self.new.round ≡ happens self.old.round (event.Reuse t)) }
        ensures err { OnErr result (self.new.round ≡ self.old.round) }
        ensures counts { Counts pass.old.steps self.old.round pass.new.steps self.new.round }
        ensures same { Continues (if is_ok result then 1 else 0) self.old.round self.new.round }
        ensures few { OnOk result (length self.new.round.schedule ≤ MOST_STEPS) }
        ensures asked { pass.new.asked.number ≡ pass.old.asked.number }
        ensures taken { pass.new.taken.number ≡ pass.old.taken.number }
    {
        let Locked {
            round,
            book,
            counter,
            ..
        } = self;
        let Pass { share, steps, .. } = pass;
        book.audit(share);
        round.reuse(t)?;
        book.add(share, 1);
        *steps += 1;
        count(counter);
        Ok(())
    }

    /// Stops the round.
    fn stop(&mut self)
        ensures round { self.new.round ≡ happens self.old.round event.Stop }
        ensures same { Continues 0 self.old.round self.new.round }
    {
        let Locked { round, .. } = self;
        round.stop();
    }

    /// Takes the step that is picked to be executed, and issues a ticket for it.
    fn begin(&mut self, ticket: &mut Option<Ticket>, t: u8) -> Task
        requires named { IsNamed J.tickets ticket.old }
        requires picked { pick_of self.old.round ≡ pick.Run t }
        requires can { can_take self.old.round t ≡ true }
        ensures does { AssignsAfter self.old.round result self.new.round }
        ensures same { Continues 0 self.old.round self.new.round }
        ensures own { BeginsIn (first J.setup).frame result }
        ensures unedited { (h : History) → J.past ≡ Some h → IsUnedited h J.setup
            → BeginsNothing result }
        ensures named { IsNamed J.tickets ticket.new }
        ensures ticket { IsTicketFor ticket.new result }
    {
        let Locked { round, issuer, .. } = self;
        match round.take(t) {
            Ok(job) => {
                *ticket = issuer.issue(&job);
                Task::Begin(job)
            }
            Err(_) => {
                round.stop();
                Task::NoMemory
            }
        }
    }

    /// Reuses records as long as that is picked, each as a step of this worker. Then takes the step that is picked to
    /// be executed, or returns what is picked instead. If memory runs out, the reused steps stay in the round, which is
    /// stopped. A step to execute has the page map and the fuel of the round's setup. If a ticket could be issued for
    /// it, the pass holds the ticket. Without an edit there is no step to execute.
    pub fn next(&mut self, pass: &mut Pass<J>) -> Task
        ensures does { Assigns self.old.round result self.new.round }
        ensures own { BeginsIn (first J.setup).frame result }
        ensures counts { Counts pass.old.steps self.old.round pass.new.steps self.new.round }
        ensures never_lower { pass.old.steps ≤ pass.new.steps }
        ensures unedited { (h : History) → J.past ≡ Some h → IsUnedited h J.setup
            → BeginsNothing result }
        ensures asked { pass.new.asked.number ≡ pass.old.asked.number + 1 }
        ensures taken { pass.new.taken.number ≡ pass.old.taken.number + begun_by result }
        ensures ready { IsReady result
            (pass.new.ran.number + held pass.new.begun) pass.new.taken.number }
        ensures ticket { IsTicketFor pass.new.ticket result }
    {
        pass.asked.raise(1);
        loop {
            match self.round.pick(&mut pass.effort.compared) {
                Pick::Reuse(t) => {
                    let Ok(()) = self.reuse(pass, t) else {
                        self.stop();
                        return Task::NoMemory;
                    };
                }
                Pick::Run(t) => {
                    let task = self.begin(&mut pass.ticket, t);
                    if matches!(task, Task::Begin(_)) {
                        pass.taken.raise(1);
                    }
                    return task;
                }
                Pick::Hold => return Task::Hold,
                Pick::Over => return Task::Over,
            }
        }
    }

    /// Whether another worker has something to do: to reuse records or to execute a step.
    pub fn has_more(&self) -> bool
        ensures { result ≡ is_something (pick_of self.now.round) }
    {
        self.round.has_pick()
    }

    /// Commits a run, which had the page map and the fuel of the round's setup, and counts it as a step of this worker;
    /// or says why it can't. It drops the pass's ticket, so the run's registers and read pages are compared.
    pub fn commit(&mut self, pass: &mut Pass<J>, run: Run) -> CommitOutcome
        requires own { arc_value run.frame ≡ (first J.setup).frame }
        ensures does { Lands self.old.round run result self.new.round }
        ensures back { ReturnsRun run result }
        ensures made { pass.new.steps ≡ pass.old.steps + steps_by result }
        ensures submitted { pass.new.submitted.number ≡ pass.old.submitted.number + 1 }
        ensures taken { pass.new.taken.number ≡ pass.old.taken.number }
        ensures counts { Counts pass.old.steps self.old.round pass.new.steps self.new.round }
    {
        pass.ticket = None;
        self.commit_taken(pass, run)
    }

    /// As `commit`, for a run of the job that the pass's ticket is for, if it has one. If that is the last ticket of
    /// its thread, the run's registers and read pages aren't compared.
    pub fn commit_taken(&mut self, pass: &mut Pass<J>, run: Run) -> CommitOutcome
        requires own { arc_value run.frame ≡ (first J.setup).frame }
        requires ticket { IsRunOfTicket pass.old.ticket run }
        ensures does { Lands self.old.round run result self.new.round }
        ensures back { ReturnsRun run result }
        ensures made { pass.new.steps ≡ pass.old.steps + steps_by result }
        ensures submitted { pass.new.submitted.number ≡ pass.old.submitted.number + 1 }
        ensures taken { pass.new.taken.number ≡ pass.old.taken.number }
        ensures counts { Counts pass.old.steps self.old.round pass.new.steps self.new.round }
    {
        let Locked {
            round,
            book,
            counter,
            issuer,
        } = self;
        let Pass {
            share,
            steps,
            submitted,
            ticket,
            ..
        } = pass;
        submitted.raise(1);
        book.audit(share);
        match commit_run(round, issuer, ticket.take(), run) {
            Committed::Done => {
                book.add(share, 1);
                *steps += 1;
                count(counter);
                CommitOutcome::Done
            }
            Committed::Stale(run) => CommitOutcome::Stale(run),
            Committed::NoMemory(run) => {
                give_up(round, run.rec.thread());
                CommitOutcome::NoMemory(run)
            }
        }
    }

    /// Discards the step of a job that couldn't be executed, if its thread is in flight, and stops the round.
    pub fn fail(&mut self, pass: &mut Pass<J>, job: &Job)
        ensures does { self.new.round ≡ given_up self.old.round job.now.thread }
        ensures counts { pass.new.steps ≡ pass.old.steps }
        ensures submitted { pass.new.submitted.number ≡ pass.old.submitted.number + 1 }
        ensures taken { pass.new.taken.number ≡ pass.old.taken.number }
    {
        pass.submitted.raise(1);
        let Locked { round, .. } = self;
        give_up(round, job.thread);
    }
}
