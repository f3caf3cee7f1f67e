//! What happens to a round.

ghost use Rattle.std.specs.Prelude.{◌≡◌, ◌<◌, true, length, count_by, ◌==◌, is_ok, if◌then◌else◌, IfOk, OnOk, OnErr};
ghost use Rattle.std.specs.Bool.{OnTrue, OnFalse};
ghost use Rattle.std.specs.Arc.{arc_value};
ghost use Rattle.history_spec.specs.History.{threads_of_records};
ghost use Rattle.machine_spec.specs.Setup.{first};
ghost use Rattle.machine_spec.specs.Step.{can_step};
ghost use Rattle.release_core.specs.Jobs.{IsJobOf};
ghost use Rattle.round_spec.specs.declared.events.Event.TheVariants as event;
ghost use Rattle.round_spec.specs.Rounds.{is_in_flight, can_take, can_reuse, happens};
ghost use Rattle.propagate.specs.Appending.{trail, Appends};
ghost use Rattle.propagate.specs.Committing.{CanCommit, Commits, Continues, IsOfStep, entries_of, picked_at};
ghost use Rattle.propagate.specs.Consistency.{IsValid};

use super::round::{Round, find_facts};
use guest_call::THREADS;
use known_pages::{after_execution, after_reuse, is_in_place, known_or, marks_after, marks_if};
use machine_spec::MOST_STEPS;
use release_core::Core;
use report_spec::Entry;
use run_history::Records;
use std::alloc::AllocError;
use std::sync::Arc;
use thunk_record::{Job, Record};
use thunk_run::Run;

/// What came of committing an executed step.
#[derive(Drop)]
pub enum Committed {
    /// It is an entry of the schedule, and its thread is no longer in flight.
    Done,
    /// It can't be committed, and is returned: the round is finished, the step ran on another page map or with another
    /// fuel than the round's, its thread isn't in flight, or its record doesn't fit. Its thread is no longer in flight;
    /// if it was, its step was discarded.
    Stale(Run),
    /// The host's memory ran out. The round is as before, and the step is returned.
    NoMemory(Run),
}

/// Applies a record, and appends its entry with it.
fn append(
    core: &mut Core,
    schedule: &mut Vec<Entry>,
    records: &mut Records,
    rec: &Arc<Record>,
    reused: bool,
) -> Result<(), AllocError>
    requires can { can_step core.old (arc_value rec.now).thread ≡ true }
    requires few { length records.old < MOST_STEPS }
    requires thread { (arc_value rec.now).thread < THREADS }
    requires number { (arc_value rec.now).number
        ≡ count_by (λ t. t == (arc_value rec.now).thread) (threads_of_records records.old) }
    ensures ok { OnOk result (Appends (arc_value rec.now) reused
        (trail core.old schedule.old.items records.old)
        (trail core.new schedule.new.items records.new)) }
    ensures err { OnErr result (trail core.new schedule.new.items records.new
        ≡ trail core.old schedule.old.items records.old) }
{
    let shared = Arc::try_clone(rec)?;
    let entry = Entry {
        thread: rec.thread(),
        reused,
    };
    schedule.reserve(1)?;
    records.push(shared)?;
    if core.apply(rec).is_err() {
        records.pop();
        return Err(AllocError);
    }
    match schedule.push(entry) {
        Ok(()) => Ok(()),
        Err(_) => unreachable!(),
    }
}

impl Round {
    /// How many entries the schedule has.
    #[tactic(auto, using(crate::proofs::Keeping::few_entries))]
    pub(super) fn entries(&self) -> u32
        ensures { result ≡ length self.now.schedule }
    {
        self.schedule.len() as u32
    }

    /// Reuses the record of the next step of thread `t`, which may be reused.
    ///
    /// # Errors
    ///
    /// An error if the host's memory ran out, or a shared part has as many holders as can be counted; the round is then
    /// as before.
    #[tactic(auto, using(crate::proofs::Keeping::valid_consistent))]
    pub fn reuse(&mut self, t: u8) -> Result<(), AllocError>
        requires { can_reuse self.old t ≡ true }
        ensures ok { OnOk result (self.new ≡ happens self.old (event.Reuse t)) }
        ensures same { Continues (if is_ok result then 1 else 0) self.old self.new }
        ensures err { OnErr result (self.new ≡ self.old) }
        ensures valid { IsValid self.old }
    {
        let rec = match self.next_record(t) {
            Some(rec) => Arc::try_clone(rec)?,
            None => unreachable!(),
        };
        let next = self.is_next(t);
        let place = self.place(t);
        let now = self.entries();
        let alloc = *self.schedule.allocator();
        self.picked.reserve(1)?;
        find_facts(alloc, &self.past, &mut self.graph, !next)?;
        let fresh = self.first_versions(!next)?;
        append(
            &mut self.core,
            &mut self.schedule,
            &mut self.records,
            &rec,
            true,
        )?;
        self.picked.push_reserved(now);
        self.marks = marks_if(self.marks.take(), next);
        let versions = known_or(self.versions.take(), fresh);
        self.versions = after_reuse(versions, &self.core, place, &rec, now + 1);
        Ok(())
    }

    /// Takes the next step of thread `t`, which may be taken, to be executed.
    ///
    /// # Errors
    ///
    /// An error if the host's memory ran out, or a shared part has as many holders as can be counted; the round is then
    /// as before.
    #[tactic(auto, using(crate::proofs::Keeping::valid_consistent))]
    pub fn take(&mut self, t: u8) -> Result<Job, AllocError>
        requires { can_take self.old t ≡ true }
        ensures ok { OnOk result (self.new ≡ happens self.old (event.Take t)) }
        ensures job { IfOk result (λ job. IsJobOf self.old.machine t job) }
        ensures same { Continues 0 self.old self.new }
        ensures err { OnErr result (self.new ≡ self.old) }
        ensures valid { IsValid self.old }
    {
        let job = self.core.start_of(t)?;
        let now = self.entries();
        let alloc = *self.schedule.allocator();
        find_facts(alloc, &self.past, &mut self.graph, true)?;
        self.in_flight[usize::from(t)] = true;
        self.taken_at[usize::from(t)] = now;
        Ok(job)
    }

    /// Whether an executed step that ran with the round's page map and fuel can be committed.
    fn can_commit(&self, run: &Run) -> bool
        requires { arc_value run.now.frame ≡ (first self.now.setup).frame }
        ensures yes { OnTrue result
            (CanCommit self.now (arc_value run.now.frame) (arc_value run.now.rec)) }
        ensures no { OnFalse result
            (CanCommit self.now (arc_value run.now.frame) (arc_value run.now.rec) → ⊥) }
    {
        !self.is_finished() && self.is_in_flight(run.rec.thread()) && self.core.fits(&run.rec)
    }

    /// How many entries the schedule had when thread `t` was taken, or has now if the thread isn't in flight.
    fn picked_at(&self, t: u8) -> u32
        ensures { result ≡ picked_at self.now t }
    {
        if self.is_in_flight(t) {
            self.taken_at[usize::from(t)]
        } else {
            self.entries()
        }
    }

    /// The next step of thread `t`, which may be taken, to be executed and then committed.
    ///
    /// # Errors
    ///
    /// An error if the frame or the thread's view has as many holders as can be counted.
    pub(super) fn start(&self, t: u8) -> Result<Job, AllocError>
        requires { can_take self.now t ≡ true }
        ensures job { IfOk result (λ job. IsJobOf self.now.machine t job) }
        ensures valid { IsValid self.now }
    {
        self.core.start_of(t)
    }

    /// Makes an executed step that can be committed an entry of the schedule. If its thread isn't in flight, the step
    /// is taken and committed in one.
    ///
    /// # Errors
    ///
    /// An error if the host's memory ran out, or a shared part has as many holders as can be counted; the round is then
    /// as before.
    #[tactic(auto, using(crate::proofs::Keeping::valid_consistent))]
    pub(super) fn commit_executed(&mut self, run: &Run) -> Result<(), AllocError>
        requires { CanCommit (happens self.old (event.Take (arc_value run.now.rec).thread))
            (arc_value run.now.frame) (arc_value run.now.rec) }
        ensures ok { OnOk result (self.new
            ≡ happens (happens self.old (event.Take (arc_value run.now.rec).thread))
            (event.Commit (arc_value run.now.rec).thread)) }
        ensures same { Continues (if is_ok result then 1 else 0) self.old self.new }
        ensures err { OnErr result (self.new ≡ self.old) }
        ensures valid { IsValid self.old }
    {
        let picked = self.picked_at(run.rec.thread());
        let place = self.schedule.len();
        let in_place = is_in_place(&self.marks, &self.past, place, &run.rec);
        let now = self.entries();
        let alloc = *self.schedule.allocator();
        self.picked.reserve(1)?;
        find_facts(alloc, &self.past, &mut self.graph, !in_place)?;
        let fresh = self.first_versions(!in_place)?;
        append(
            &mut self.core,
            &mut self.schedule,
            &mut self.records,
            &run.rec,
            false,
        )?;
        self.picked.push_reserved(picked);
        let t = usize::from(run.rec.thread());
        self.in_flight[t] = false;
        self.taken_at[t] = 0;
        self.instructions += u64::from(run.rec.count());
        self.marks = marks_after(self.marks.take(), &self.past, place, &run.rec, in_place);
        let versions = known_or(self.versions.take(), fresh);
        self.versions = after_execution(versions, &self.core, &run.rec, now + 1);
        Ok(())
    }

    /// Commits an executed step, or says why it can't. First compares the run's page map and fuel with the round's,
    /// which takes longest.
    pub fn commit(&mut self, run: Run) -> Committed
        ensures does { Commits self.old run result self.new }
        ensures same { Continues (entries_of result) self.old self.new }
    {
        if *run.frame == *self.core.frame() {
            return self.commit_own(run);
        }
        self.discard(run.rec.thread());
        Committed::Stale(run)
    }

    /// Commits an executed step that ran with the round's page map and fuel, or says why it can't.
    pub fn commit_own(&mut self, run: Run) -> Committed
        requires own { arc_value run.frame ≡ (first self.old.setup).frame }
        ensures does { Commits self.old run result self.new }
        ensures same { Continues (entries_of result) self.old self.new }
        ensures valid { IsValid self.old }
    {
        let can = self.can_commit(&run);
        self.commit_or_discard(can, run)
    }

    /// Commits a run of the step that was taken, or says why it can't: the round is finished, or the thread isn't in
    /// flight. Its registers and read pages aren't compared, since `of_step` says that its record is the one of that
    /// step.
    pub fn commit_taken(&mut self, run: Run) -> Committed
        requires own { arc_value run.frame ≡ (first self.old.setup).frame }
        requires of_step { IsOfStep self.old (arc_value run.rec) }
        ensures does { Commits self.old run result self.new }
        ensures same { Continues (entries_of result) self.old self.new }
        ensures valid { IsValid self.old }
    {
        let can = self.can_commit_taken(&run);
        self.commit_or_discard(can, run)
    }

    /// Whether a run of the step that was taken can be committed.
    #[tactic(auto, using(crate::proofs::Keeping::valid_consistent, crate::proofs::Executing::taken_step_commits))]
    fn can_commit_taken(&self, run: &Run) -> bool
        requires own { arc_value run.now.frame ≡ (first self.now.setup).frame }
        requires of_step { IsOfStep self.now (arc_value run.now.rec) }
        ensures yes { OnTrue result
            (CanCommit self.now (arc_value run.now.frame) (arc_value run.now.rec)) }
        ensures no { OnFalse result
            (CanCommit self.now (arc_value run.now.frame) (arc_value run.now.rec) → ⊥) }
    {
        !self.is_finished() && self.is_in_flight(run.rec.thread())
    }

    /// Commits an executed step if it can be committed. Else its step is discarded, and the run is returned.
    fn commit_or_discard(&mut self, can: bool, run: Run) -> Committed
        requires yes { OnTrue can
            (CanCommit self.old (arc_value run.frame) (arc_value run.rec)) }
        requires no { OnFalse can
            (CanCommit self.old (arc_value run.frame) (arc_value run.rec) → ⊥) }
        ensures does { Commits self.old run result self.new }
        ensures same { Continues (entries_of result) self.old self.new }
        ensures valid { IsValid self.old }
    {
        if !can {
            self.discard(run.rec.thread());
            return Committed::Stale(run);
        }
        match self.commit_executed(&run) {
            Ok(()) => Committed::Done,
            Err(_) => Committed::NoMemory(run),
        }
    }

    /// Discards the step of thread `t` that was taken, if one was.
    fn discard(&mut self, t: u8)
        ensures event { self.new ≡ happens self.old (event.GiveBack t) }
        ensures same { Continues 0 self.old self.new }
        ensures valid { IsValid self.old }
    {
        if self.is_in_flight(t) {
            self.in_flight[usize::from(t)] = false;
            self.taken_at[usize::from(t)] = 0;
            self.discarded = self.discarded.saturating_add(1);
        }
    }

    /// Discards the step of thread `t`, which is in flight.
    pub fn give_back(&mut self, t: u8)
        requires { is_in_flight self.old t ≡ true }
        ensures event { self.new ≡ happens self.old (event.GiveBack t) }
        ensures same { Continues 0 self.old self.new }
    {
        self.discard(t);
    }

    /// Stops the round: from then on it is finished.
    #[tactic(auto, using(crate::proofs::Keeping::valid_consistent))]
    pub fn stop(&mut self)
        ensures event { self.new ≡ happens self.old event.Stop }
        ensures same { Continues 0 self.old self.new }
        ensures valid { IsValid self.old }
    {
        self.stopped = true;
    }
}
