//! The board: the round under a lock, and the condition on which workers wait.
//!
//! While a worker sleeps, nothing that can be done waits for longer than a short step takes. Only a call under the lock
//! changes what there is to do. If the worker that made the last such call has to wait, there is nothing to do. If it
//! finds that the round is finished, it wakes all. Else it is awake: it is about to ask for its next step, or it
//! executes one. If that step is short, the worker asks when it is done. If the step runs long, the worker looks
//! whether there is something for another one, and wakes one of those that wait. That one then asks, and has made the
//! last call. A worker that has to wait releases the lock and waits in one operation, so it misses no notification of
//! what came after it asked. A worker that is held at its gate asks and looks only after it has passed the gate.

ghost use Rattle.std.specs.Prelude.{◌≡◌, ◌≢◌, ◌+◌, ◌<◌, ◌≤◌, All, length, map, sum, sum_by, vec_len, vec_capacity, true, Some, is_some, [], IfOk};
ghost use Rattle.std.specs.Arc.{arc_value};
ghost use Rattle.machine_spec.specs.Setup.{first};
ghost use Rattle.history_spec.specs.History.{History};
ghost use Rattle.round_spec.specs.Rounds.{opening};
ghost use Rattle.round_spec.specs.Unedited.{IsUnedited};
ghost use Rattle.rerun_workers.specs.declared.locked.Task.TheVariants as task;
ghost use Rattle.rerun_workers.specs.Making.{IsClosed, ComparesNone};
ghost use Rattle.rerun_workers.specs.Watching.{IsCounting};
ghost use Rattle.rerun_workers.specs.Passes.{held};
ghost use Rattle.rerun_workers.specs.Tickets.{IsTicketFor, IsRunOfTicket};
ghost use Rattle.rerun_workers.specs.Locking.{BeginsIn, BeginsNothing, begun_by, IsReady, ReturnsRun, steps_by};

use super::effort::Effort;
use super::locked::{CommitOutcome, Locked, Task};
use super::naming::{Blanks, Naming, Pass};
use super::watching::{Counter, Watch, WatchedRound};
use propagate::Round;
use std::alloc::{AllocError, Global};
use std::sync::ledger::Share;
use std::sync::{Condvar, Mutex, Wait};
use std::thread::Threads;
use thunk_record::Job;
use thunk_run::Run;

/// What workers share: the round under a lock, and the condition that there is work, or will be none. A worker executes
/// outside the lock, and a watcher takes no lock.
#[derive(Drop)]
pub struct Board<J: Naming> {
    lock: Mutex<Locked<J>>,
    changed: Condvar,
    worker_steps: Vec<u64>,
    ghost none: { worker_steps.items ≡ [] },
    ghost room: { J.workers ≤ vec_capacity worker_steps },
}

/// A round that workers made.
#[derive(Drop)]
pub struct ClosedRound {
    /// The round.
    pub round: Round,
    /// How many of its steps each worker made.
    pub worker_steps: Vec<u64>,
    /// The effort of its workers.
    pub effort: Effort,
}

/// A pass for each of `workers` workers, none of which has made a step.
fn passes_of<J: Naming, R: Threads>(
    rt: &R,
    alloc: Global,
    mut all: Share<J>,
    workers: u32,
) -> Result<Vec<Pass<J>>, AllocError>
    requires parts { all.parts ≡ workers }
    requires amount { all.amount ≡ 0 }
    ensures count { IfOk result (λ passes. vec_len passes ≡ workers) }
    ensures nothing { IfOk result (λ passes. All (λ pass. pass.steps ≡ 0) passes.items) }
{
    let mut passes = Vec::new(alloc);
    for made in 0..workers {
        let share = all.split_off(1, 0);
        passes.push(Pass::new(share, Effort::new(rt)))?;
    }
    Ok(passes)
}

/// A pass for each of `workers` workers, none of which has made a step, and room to list the steps of each.
fn passes_with_room<J: Naming, R: Threads>(
    rt: &R,
    alloc: Global,
    all: Share<J>,
    workers: u32,
) -> Result<(Vec<Pass<J>>, Vec<u64>), AllocError>
    requires parts { all.parts ≡ workers }
    requires amount { all.amount ≡ 0 }
    ensures count { IfOk result (λ made. vec_len made.0 ≡ workers) }
    ensures nothing { IfOk result (λ made. All (λ pass. pass.steps ≡ 0) made.0.items) }
    ensures none { IfOk result (λ made. made.1.items ≡ []) }
    ensures room { IfOk result (λ made. workers ≤ vec_capacity made.1) }
{
    let worker_steps = Vec::with_capacity(alloc, workers as usize)?;
    let passes = passes_of(rt, alloc, all, workers)?;
    Ok((passes, worker_steps))
}

/// Merges the shares and the efforts of all passes, and lists the steps of each in their order. Without an edit the
/// effort has no turns.
fn gather<J: Naming>(
    mut passes: Vec<Pass<J>>,
    mut worker_steps: Vec<u64>,
) -> (Share<J>, Vec<u64>, Effort)
    requires some { 0 < vec_len passes }
    requires none { worker_steps.items ≡ [] }
    requires room { vec_len passes ≤ vec_capacity worker_steps }
    ensures parts { result.0.parts ≡ vec_len passes }
    ensures amount { result.0.amount ≡ sum result.1.items }
    ensures worker_steps { result.1.items ≡ map (λ pass. pass.steps) passes.items }
    ensures turns { result.2.turns ≡ sum_by (λ pass. pass.effort.turns) passes.items }
    ensures idle { (h : History) → J.past ≡ Some h → IsUnedited h J.setup → result.2.turns ≡ 0 }
    ensures spares { ComparesNone J.setup J.past result.2.compared }
{
    let Pass {
        share: mut all,
        mut effort,
        steps,
        ..
    } = passes.remove(0);
    worker_steps.push_reserved(steps);
    while !passes.is_empty() {
        let Pass {
            share,
            effort: more,
            steps,
            ..
        } = passes.remove(0);
        all.merge(share);
        effort.merge(more);
        worker_steps.push_reserved(steps);
    }
    (all, worker_steps, effort)
}

/// `watches` watches of the word that counts the steps of a round.
fn watches_of<J: Naming>(
    alloc: Global,
    counter: &mut Counter,
    watches: u32,
) -> Result<Vec<Watch<J>>, AllocError>
    requires { counter.old.writer.table ≡ J.table }
    ensures count { IfOk result (λ seats. vec_len seats ≡ watches) }
    ensures added { counter.new.writer.added ≡ counter.old.writer.added }
    ensures table { counter.new.writer.table ≡ counter.old.writer.table }
{
    let mut seats = Vec::new(alloc);
    for made in 0..watches {
        seats.push(counter.split::<J>()?)?;
    }
    Ok(seats)
}

/// Takes all watches back, and returns how many steps were counted, by a last look at the word, after all that the
/// watches have seen.
fn last_number<J: Naming>(mut counter: Counter, mut watches: Vec<Watch<J>>) -> u64
    requires { counter.writer.table ≡ J.table }
    ensures number { result ≡ counter.writer.added }
    ensures seen { All (λ watch. watch.reader.seen ≤ counter.writer.added) watches.items }
{
    while let Some(watch) = watches.pop() {
        counter.join(watch);
    }
    counter.read()
}

impl<J: Naming> Board<J> {
    /// The board of a round before its first step, and a pass for each of its workers, none of which has made a step.
    ///
    /// # Errors
    ///
    /// An error if the host's memory ran out.
    pub fn new<R: Threads>(
        rt: &R,
        alloc: Global,
        round: Round,
        workers: u32,
        blanks: Blanks,
    ) -> Result<(Board<J>, Vec<Pass<J>>), AllocError>
        requires name { (blanks.ledger.name ≡ J.name) × (blanks.issuer.book ≡ J.tickets) }
        requires parts { (blanks.ledger.parts ≡ J.parts) × (J.parts ≡ workers) }
        requires workers { workers ≡ J.workers }
        requires unwatched { J.watches ≡ 0 }
        requires opening { round ≡ opening J.setup J.past }
        ensures count { IfOk result (λ made. vec_len made.1 ≡ workers) }
        ensures nothing { IfOk result (λ made. All (λ pass. pass.steps ≡ 0) made.1.items) }
    {
        let Blanks { ledger, issuer } = blanks;
        let (book, all) = ledger.open::<J>();
        let locked = Locked::new(round, book, None, issuer);
        Board::opened(rt, alloc, locked, all, workers)
    }

    /// The board of a round before its first step, a pass for each of its workers, none of which has made a step, and
    /// `watches` watches. The round's counter, which has counted nothing, counts the steps from now on.
    ///
    /// # Errors
    ///
    /// An error if the host's memory ran out.
    pub fn with_watches<R: Threads>(
        rt: &R,
        alloc: Global,
        watched: WatchedRound,
        workers: u32,
        watches: u32,
        blanks: Blanks,
    ) -> Result<(Board<J>, Vec<Pass<J>>, Vec<Watch<J>>), AllocError>
        requires name { (blanks.ledger.name ≡ J.name) × (blanks.issuer.book ≡ J.tickets) }
        requires parts { (blanks.ledger.parts ≡ J.parts) × (J.parts ≡ workers) }
        requires workers { (workers ≡ J.workers) × (watches ≡ J.watches) }
        requires table { (watched.counter.writer.table ≡ J.table)
            × (watched.counter.writer.added ≡ 0) }
        requires opening { watched.round ≡ opening J.setup J.past }
        ensures count { IfOk result (λ made. (vec_len made.1 ≡ workers)
            × (vec_len made.2 ≡ watches)) }
        ensures nothing { IfOk result (λ made. All (λ pass. pass.steps ≡ 0) made.1.items) }
    {
        let WatchedRound { round, mut counter } = watched;
        let seats = watches_of(alloc, &mut counter, watches);
        let Blanks { ledger, issuer } = blanks;
        let (book, all) = ledger.open::<J>();
        let locked = Locked::new(round, book, Some(counter), issuer);
        let (board, passes) = Board::opened(rt, alloc, locked, all, workers)?;
        Ok((board, passes, seats?))
    }

    /// The board of a round under its lock, with room to list the steps of each worker when it is closed, and a pass
    /// for each worker, none of which has made a step.
    fn opened<R: Threads>(
        rt: &R,
        alloc: Global,
        locked: Locked<J>,
        all: Share<J>,
        workers: u32,
    ) -> Result<(Board<J>, Vec<Pass<J>>), AllocError>
        requires parts { all.parts ≡ workers }
        requires amount { all.amount ≡ 0 }
        requires workers { workers ≡ J.workers }
        ensures count { IfOk result (λ made. vec_len made.1 ≡ workers) }
        ensures nothing { IfOk result (λ made. All (λ pass. pass.steps ≡ 0) made.1.items) }
    {
        let lock = Mutex::new(locked);
        let (passes, worker_steps) = passes_with_room(rt, alloc, all, workers)?;
        let board = Board {
            lock,
            changed: Condvar::new(),
            worker_steps,
        };
        Ok((board, passes))
    }

    /// How many steps of the round were made, by one look at the word that counts them. It takes no lock, allocates
    /// nothing, and never waits.
    pub fn progress(&self, watch: &mut Watch<J>) -> u64
        ensures seen { watch.new.reader.seen ≡ result }
        ensures rises { watch.old.reader.seen ≤ result }
        ensures looks { watch.new.reader.loads ≡ watch.old.reader.loads + 1 }
    {
        watch.look()
    }

    /// What a worker is to do next, by the round under the lock. If it has to wait, it sleeps until it is woken, and
    /// asks again. A step to execute has the page map and the fuel of the round's setup. If a ticket could be issued
    /// for it, the pass holds the ticket. Without an edit there is no step to execute.
    ///
    /// A worker that is assigned a step wakes no other: a short step is done before another worker could start what
    /// else there is to do, and the worker then asks again. If its step runs long, it wakes another one then, if there
    /// is something for it. A worker for which there is nothing more to do wakes all. Steps that are reused meanwhile
    /// count as this worker's.
    pub fn next<R: Wait>(&self, rt: &R, pass: &mut Pass<J>) -> Task
        ensures assigned { result ≢ task.Hold }
        ensures own { BeginsIn (first J.setup).frame result }
        ensures never_lower { pass.old.steps ≤ pass.new.steps }
        ensures unedited { (h : History) → J.past ≡ Some h → IsUnedited h J.setup
            → BeginsNothing result }
        ensures asked { pass.old.asked.number < pass.new.asked.number }
        ensures taken { pass.new.taken.number ≡ pass.old.taken.number + begun_by result }
        ensures ready { IsReady result
            (pass.new.ran.number + held pass.new.begun) pass.new.taken.number }
        ensures ticket { IsTicketFor pass.new.ticket result }
    {
        let mut locked = self.lock.lock(rt);
        for _ in rt.forever() {
            match locked.next(pass) {
                Task::Hold => locked = self.changed.wait(rt, locked),
                Task::Begin(job) => return Task::Begin(job),
                task => {
                    drop(locked);
                    self.changed.notify_all();
                    return task;
                }
            }
        }
        unreachable!()
    }

    /// Whether another worker has something to do.
    pub(super) fn has_more<R: Wait>(&self, rt: &R) -> bool {
        self.lock.lock(rt).has_more()
    }

    /// Wakes one of the waiting workers, if there is something for it to do. A worker whose step runs long does so
    /// once.
    pub(super) fn wake_another<R: Wait>(&self, rt: &R) {
        if self.has_more(rt) {
            self.changed.notify_one();
        }
    }

    /// Commits any run of the round's page map and fuel, or says why it can't. It drops the pass's ticket, so the run's
    /// registers and read pages are compared.
    pub fn commit<R: Wait>(&self, rt: &R, pass: &mut Pass<J>, run: Run) -> CommitOutcome
        requires own { arc_value run.frame ≡ (first J.setup).frame }
        ensures back { ReturnsRun run result }
        ensures counts { pass.new.steps ≡ pass.old.steps + steps_by result }
        ensures submitted { pass.new.submitted.number ≡ pass.old.submitted.number + 1 }
        ensures taken { pass.new.taken.number ≡ pass.old.taken.number }
    {
        let outcome = self.lock.lock(rt).commit(pass, run);
        self.wake_all_if_out_of_memory(&outcome);
        outcome
    }

    /// Commits a run of the step that the worker was last assigned, or says why it can't. If the pass has that step's
    /// ticket, the run's registers and read pages aren't compared. The worker then asks for its next step, so it wakes
    /// no other. If memory ran out, there is no next step, and all are woken.
    pub fn commit_taken<R: Wait>(&self, rt: &R, pass: &mut Pass<J>, run: Run) -> CommitOutcome
        requires own { arc_value run.frame ≡ (first J.setup).frame }
        requires ticket { IsRunOfTicket pass.old.ticket run }
        ensures back { ReturnsRun run result }
        ensures counts { pass.new.steps ≡ pass.old.steps + steps_by result }
        ensures submitted { pass.new.submitted.number ≡ pass.old.submitted.number + 1 }
        ensures taken { pass.new.taken.number ≡ pass.old.taken.number }
    {
        let outcome = self.lock.lock(rt).commit_taken(pass, run);
        self.wake_all_if_out_of_memory(&outcome);
        outcome
    }

    /// Wakes all if memory ran out when a run was committed.
    fn wake_all_if_out_of_memory(&self, outcome: &CommitOutcome) {
        if matches!(outcome, CommitOutcome::NoMemory(_)) {
            self.changed.notify_all();
        }
    }

    /// Discards the step of a job that couldn't be executed, and stops the round under the lock.
    pub fn fail<R: Wait>(&self, rt: &R, pass: &mut Pass<J>, job: Job)
        ensures counts { pass.new.steps ≡ pass.old.steps }
        ensures submitted { pass.new.submitted.number ≡ pass.old.submitted.number + 1 }
        ensures taken { pass.new.taken.number ≡ pass.old.taken.number }
    {
        self.lock.lock(rt).fail(pass, &job);
        self.changed.notify_all();
    }

    /// Takes all passes back, and returns the round, how many steps each worker made, in the order of the passes, and
    /// their merged effort, which has no turns without an edit. Allocates nothing.
    pub fn close(self, passes: Vec<Pass<J>>) -> ClosedRound
        requires all { vec_len passes ≡ J.parts }
        requires workers { (vec_len passes ≡ J.workers) × (0 < vec_len passes) }
        ensures closed { IsClosed J.setup J.past result.round result.worker_steps.items
            result.effort.turns result.effort.compared }
        ensures worker_steps { result.worker_steps.items ≡ map (λ pass. pass.steps) passes.items }
        ensures turns { result.effort.turns
            ≡ sum_by (λ pass. pass.effort.turns) passes.items }
    {
        let (worked, _) = self.into_closed(passes);
        worked
    }

    /// As `close`, and takes all watches back too. Also returns how many steps the round has, by one last look at the
    /// word, after all that the watches saw. Allocates nothing.
    pub fn close_watched(self, passes: Vec<Pass<J>>, watches: Vec<Watch<J>>) -> (ClosedRound, u64)
        requires all { vec_len passes ≡ J.parts }
        requires workers { (vec_len passes ≡ J.workers) × (0 < vec_len passes) }
        requires watches { (vec_len watches ≡ J.watches) × (0 < vec_len watches) }
        ensures closed { IsClosed J.setup J.past result.0.round result.0.worker_steps.items
            result.0.effort.turns result.0.effort.compared }
        ensures worker_steps { result.0.worker_steps.items ≡ map (λ pass. pass.steps) passes.items }
        ensures turns { result.0.effort.turns
            ≡ sum_by (λ pass. pass.effort.turns) passes.items }
        ensures number { result.1 ≡ length result.0.round.schedule }
        ensures seen { All
            (λ watch. watch.reader.seen ≤ length result.0.round.schedule) watches.items }
    {
        let (worked, counter) = self.into_closed(passes);
        let Some(counter) = counter else {
            unreachable!()
        };
        let number = last_number(counter, watches);
        (worked, number)
    }

    /// Takes all passes back, and returns what workers made of the round, and the counter of its steps, if it is
    /// watched.
    fn into_closed(self, passes: Vec<Pass<J>>) -> (ClosedRound, Option<Counter>)
        requires all { vec_len passes ≡ J.parts }
        requires workers { (vec_len passes ≡ J.workers) × (0 < vec_len passes) }
        ensures closed { IsClosed J.setup J.past result.0.round result.0.worker_steps.items
            result.0.effort.turns result.0.effort.compared }
        ensures worker_steps { result.0.worker_steps.items ≡ map (λ pass. pass.steps) passes.items }
        ensures turns { result.0.effort.turns
            ≡ sum_by (λ pass. pass.effort.turns) passes.items }
        ensures counter { IsCounting J.table (length result.0.round.schedule) result.1 }
        ensures watched { 0 < J.watches → is_some result.1 ≡ true }
    {
        let Board {
            lock,
            worker_steps,
            ..
        } = self;
        let Locked {
            round,
            mut book,
            counter,
            ..
        } = lock.into_inner();
        let (mut all, worker_steps, effort) = gather(passes, worker_steps);
        book.audit(&mut all);
        let worked = ClosedRound {
            round,
            worker_steps,
            effort,
        };
        (worked, counter)
    }
}
