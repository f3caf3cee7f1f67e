//! What a worker may do next.

ghost use Rattle.std.specs.Prelude.{◌≡◌, ◌<◌, ◌≤◌, ◌+◌, ◌==◌, ℕ, true, false, length, slice_get, slice_index, nat_le, option_map, Some, Decides};
ghost use Rattle.std.specs.Arc.{arc_value};
ghost use Rattle.thunk_spec.specs.Record.{Record as OldRecord};
ghost use Rattle.history_spec.specs.History.{History as OldHistory, is_coherent, past_records};
ghost use Rattle.round_spec.specs.declared.events.Pick.TheVariants as pick;
ghost use Rattle.round_spec.specs.Marks.{record_for, fits_next};
ghost use Rattle.round_spec.specs.Rounds.{is_finished, is_free_in, can_begin, can_take, can_reuse};
ghost use Rattle.round_spec.specs.Due.{is_due, place_in};
ghost use Rattle.round_spec.specs.Choice.{is_any_in_flight, choice_by, pick_of};
ghost use Rattle.round_spec.specs.Replaying.{IsReplaying};
ghost use Rattle.known_pages.specs.Alike.{IsNext, IsRepeated};
ghost use Rattle.propagate.specs.Choosing as choosing;
ghost use Rattle.propagate.specs.Consistency.{IsValid, AreFactsOf};
ghost use Rattle.propagate.specs.declared.picking.Candidate.{Candidate};
ghost use Rattle.propagate.specs.Choosing.{comes_before, has_made, HaveMade, candidate_of, leader_of, free_below, AreLeadersBelow, is_something};

use super::round::Round;
use depend_graph::{Clock, Graph};
use guest_call::THREADS;
use known_pages::all_unmarked;
use release_core::Core;
use round_spec::Pick;
use std::sync::Arc;
use thunk_record::{Compared, Record};

/// What the choice looks at of a thread: the place of its next step in the history, and how many
/// steps it has made.
#[derive(Clone, Copy)]
struct Candidate {
    thread: u8,
    place: usize,
    number: u32,
}

/// Of the free threads that were looked at: the best of those that are due, and the best of all.
#[derive(Clone, Copy)]
struct Leaders {
    due: Option<Candidate>,
    free: Option<Candidate>,
}

/// Whether a thread comes before one of a lower number: it has an earlier place, or the same place
/// and fewer steps made.
fn is_before(next: Candidate, leader: Candidate) -> bool
    ensures { result ≡ comes_before next leader }
{
    next.place < leader.place || next.place == leader.place && next.number < leader.number
}

/// The better of a leader, if there is one, and of a thread of a higher number.
fn better(leader: Option<Candidate>, next: Candidate) -> Candidate
    ensures { result ≡ choosing.better leader next }
{
    match leader {
        Some(leader) if !is_before(next, leader) => leader,
        _ => next,
    }
}

/// The thread of a leader, if there is one.
fn thread_of(leader: Option<Candidate>) -> Option<u8>
    ensures { result ≡ option_map (λ (c : Candidate). c.thread) leader }
{
    leader.map(|leader| leader.thread)
}

/// Whether a thread of a higher number comes before a leader, if there is one.
fn leads(leader: Option<Candidate>, next: Candidate) -> bool
    ensures { result ≡ choosing.leads leader next }
{
    match leader {
        Some(leader) => is_before(next, leader),
        None => true,
    }
}

/// How many steps a thread, which exists, has made; if it has ended, as many as a clock counts of it.
fn made_by(core: &Core, t: u8, counted: u32) -> u32
    requires { t < length core.now.harts }
    ensures { nat_le counted result ≡ has_made core.now t counted }
{
    if core.has_exited(t) {
        return counted;
    }
    core.number(t)
}

/// By thread, how many steps it has made; if it has ended, as many as a clock counts of it.
fn made_for(core: &Core, clock: &Clock) -> [u32; THREADS]
    ensures long { length result ≡ THREADS }
    ensures made { (u : ℕ) → u < THREADS → nat_le (slice_index clock.now u) (slice_index result u)
        ≡ has_made core.now u (slice_index clock.now u) }
{
    let mut made = [0; THREADS];
    for t in 0..core.threads() {
        let t = t as u8;
        made[usize::from(t)] = made_by(core, t, clock.count(t));
    }
    made
}

/// Whether each thread but `t` has made the steps that a clock counts of it, or has ended. All threads are compared at
/// once.
fn have_made(core: &Core, clock: &Clock, t: u8) -> bool
    ensures { Decides result (HaveMade core.now t clock.now) }
{
    let mut made = made_for(core, clock);
    if usize::from(t) < THREADS {
        made[usize::from(t)] = clock.count(t);
    }
    Clock::new(made).covers(clock)
}

impl Round {
    /// The history's record of the next step of thread `t`, which exists, if there is one.
    pub(super) fn next_record(&self, t: u8) -> Option<&Arc<Record>>
        requires { t < length self.now.machine.harts }
        ensures { option_map (λ r. arc_value r.now) result
            ≡ record_for self.now.past self.now.machine t }
    {
        self.old_record(t, self.core.number(t))
    }

    /// Whether the next step of thread `t`, which exists, comes next in the history.
    pub(super) fn is_next(&self, t: u8) -> bool
        requires { t < length self.now.machine.harts }
        ensures { result ≡ (place_in self.now.past self.now.machine t == length self.now.schedule) }
    {
        self.place(t) == self.schedule.len()
    }

    /// Whether the record of the next step of thread `t`, which can be started, fits if its registers are the thread's:
    /// the round continues as its history did, the record comes next in it, and it read no marked page.
    fn reads_no_marked_page(&self, t: u8, rec: &Record) -> bool
        requires begins { can_begin self.now t ≡ true }
        requires exists { t < length self.now.machine.harts }
        requires record { record_for self.now.past self.now.machine t ≡ Some rec.now }
        ensures next { result ≡ true → IsNext self.now t rec.now }
        ensures repeated { IsRepeated self.now t → result ≡ true }
    {
        match &self.marks {
            Some(marks) => self.is_next(t) && all_unmarked(marks, rec.reads().pages()),
            None => false,
        }
    }

    /// Whether the record of the next step of thread `t`, which can be started, fits. Compares only those of its pages
    /// that aren't known to be what it read.
    fn fits_by_versions(&self, t: u8, rec: &Record, compared: &mut Compared) -> bool
        requires begins { can_begin self.now t ≡ true }
        requires exists { t < length self.now.machine.harts }
        requires record { record_for self.now.past self.now.machine t ≡ Some rec.now }
        ensures fits { result ≡ fits_next self.now.past self.now.machine t }
        ensures never_lower { compared.old ≤ compared.new }
    {
        match &self.versions {
            Some(versions) => {
                rec.start() == self.core.regs(t)
                    && versions.has_reads(
                        self.place(t),
                        t,
                        self.core.view(t),
                        rec.reads().pages(),
                        compared,
                    )
            }
            None => self.core.fits_counted(rec, compared),
        }
    }

    /// Whether the record of the next step of thread `t`, which can be started, fits. Pages are compared only if one of
    /// them may differ: none while the round repeats its history.
    fn has_fitting(&self, t: u8, compared: &mut Compared) -> bool
        requires begins { can_begin self.now t ≡ true }
        requires exists { t < length self.now.machine.harts }
        ensures fits { result ≡ fits_next self.now.past self.now.machine t }
        ensures spares { IsRepeated self.now t → compared.new ≡ compared.old }
        ensures never_lower { compared.old ≤ compared.new }
    {
        match self.next_record(t) {
            Some(rec) if self.reads_no_marked_page(t, rec) => rec.start() == self.core.regs(t),
            Some(rec) => self.fits_by_versions(t, rec, compared),
            None => false,
        }
    }

    /// The place of the next step of thread `t`, which exists, in the history.
    pub(super) fn place(&self, t: u8) -> usize
        requires { t < length self.now.machine.harts }
        ensures { result ≡ place_in self.now.past self.now.machine t }
    {
        match &self.past {
            Some(history) => history.records().place(t, self.core.number(t)),
            None => 0,
        }
    }

    /// Whether thread `t`, whose next step has this place in the history, is due: each other thread has made the steps
    /// that the clock of that place counts of it, or has ended; or the history has no such place.
    fn is_due_at(&self, graph: &Graph, t: u8, place: usize) -> bool
        requires facts { AreFactsOf self.now.past graph.now }
        requires place { place ≡ place_in self.now.past self.now.machine t }
        ensures { result ≡ is_due self.now.past self.now.machine t }
    {
        if place >= graph.len() {
            return true;
        }
        have_made(&self.core, graph.clock(place), t)
    }

    /// Whether thread `t` is ready and not in flight.
    fn is_free(&self, t: u8) -> bool
        ensures { result ≡ is_free_in self.now.machine self.now.in_flight t }
    {
        self.core.ready(t) && !self.is_in_flight(t)
    }

    /// Whether any thread is in flight.
    fn is_any_in_flight(&self) -> bool
        ensures { result ≡ is_any_in_flight self.now.in_flight }
    {
        self.in_flight.iter().any(|flag| *flag)
    }

    /// Whether the next step of thread `t` can be started: the round isn't finished, and the thread is ready and not in
    /// flight.
    fn can_begin(&self, t: u8) -> bool
        ensures can { result ≡ can_begin self.now t }
        ensures valid { IsValid self.now }
    {
        !self.is_finished() && self.is_free(t)
    }

    /// Whether the next step of thread `t` can be taken, to be executed.
    pub fn can_take(&self, t: u8, compared: &mut Compared) -> bool
        ensures can { result ≡ can_take self.now t }
        ensures spares { IsRepeated self.now t → compared.new ≡ compared.old }
        ensures never_lower { compared.old ≤ compared.new }
        ensures valid { IsValid self.now }
    {
        self.can_begin(t) && !self.has_fitting(t, compared)
    }

    /// Whether the record of the next step of thread `t` can be reused.
    pub fn can_reuse(&self, t: u8, compared: &mut Compared) -> bool
        ensures can { result ≡ can_reuse self.now t }
        ensures spares { IsRepeated self.now t → compared.new ≡ compared.old }
        ensures never_lower { compared.old ≤ compared.new }
        ensures valid { IsValid self.now }
    {
        self.can_begin(t) && self.has_fitting(t, compared)
    }

    /// What the choice looks at of thread `t`, which exists.
    fn candidate(&self, t: u8) -> Candidate
        requires { t < length self.now.machine.harts }
        ensures { result ≡ candidate_of self.now.past self.now.machine t }
    {
        Candidate {
            thread: t,
            place: self.place(t),
            number: self.core.number(t),
        }
    }

    /// The best of the free threads up to thread `t`, from the best of those below it.
    fn with_free(&self, leader: Option<Candidate>, t: u8) -> Option<Candidate>
        requires exists { t < length self.now.machine.harts }
        requires below { leader ≡ leader_of self.now (free_below self.now t) }
        ensures { result ≡ leader_of self.now (free_below self.now (t + 1)) }
    {
        if !self.is_free(t) {
            return leader;
        }
        Some(better(leader, self.candidate(t)))
    }

    /// The best of the free threads. Looks at no clock.
    fn first_free(&self) -> Option<Candidate>
        ensures { result
            ≡ leader_of self.now (free_below self.now (length self.now.machine.harts)) }
    {
        let mut leader = None;
        for t in 0..self.core.threads() {
            leader = self.with_free(leader, t as u8);
        }
        leader
    }

    /// The leaders up to thread `t`, from those below it.
    fn with_thread(&self, graph: &Graph, found: Leaders, t: u8) -> Leaders
        requires facts { AreFactsOf self.now.past graph.now }
        requires exists { t < length self.now.machine.harts }
        requires below { AreLeadersBelow self.now t found }
        ensures { AreLeadersBelow self.now (t + 1) result }
    {
        if !self.is_free(t) {
            return found;
        }
        let next = self.candidate(t);
        let free = Some(better(found.free, next));
        // The clock is looked at only if the thread would lead.
        if !leads(found.due, next) || !self.is_due_at(graph, t, next.place) {
            return Leaders {
                due: found.due,
                free,
            };
        }
        Leaders {
            due: Some(next),
            free,
        }
    }

    /// The leaders of all free threads. Looks at each thread once, only at the clocks of those that come before all due
    /// ones so far, and compares no record.
    fn all_leaders(&self, graph: &Graph) -> Leaders
        requires facts { AreFactsOf self.now.past graph.now }
        ensures { AreLeadersBelow self.now (length self.now.machine.harts) result }
    {
        let mut found = Leaders {
            due: None,
            free: None,
        };
        for t in 0..self.core.threads() {
            found = self.with_thread(graph, found, t as u8);
        }
        found
    }

    /// The leaders of all free threads. If the best of them is due, looks only at its clock.
    fn leaders(&self, graph: &Graph) -> Leaders
        requires facts { AreFactsOf self.now.past graph.now }
        ensures { AreLeadersBelow self.now (length self.now.machine.harts) result }
    {
        let free = self.first_free();
        match free {
            Some(first) if self.is_due_at(graph, first.thread, first.place) => {
                Leaders { due: free, free }
            }
            _ => self.all_leaders(graph),
        }
    }

    /// The thread that is chosen by the dependences of the history's steps, if one is.
    fn choice_among(&self, graph: &Graph) -> Option<u8>
        requires facts { AreFactsOf self.now.past graph.now }
        ensures { result ≡ choice_by self.now.past self.now.machine self.now.in_flight }
    {
        let Leaders { due, free } = self.leaders(graph);
        if due.is_some() || self.is_any_in_flight() {
            return thread_of(due);
        }
        thread_of(free)
    }

    /// The thread of the history's step in the place of the next entry, if there is one.
    fn next_in_history(&self) -> Option<u8>
        ensures { result ≡ option_map (λ (r : OldRecord). r.thread)
            (slice_get (past_records self.now.past) (length self.now.schedule)) }
    {
        let place = self.schedule.len();
        match &self.past {
            Some(history) if place < history.records().len() => {
                Some(history.records().at(place).thread())
            }
            _ => None,
        }
    }

    /// The thread that is chosen, if one is. If the graph isn't known, the round continues as its history did and no
    /// thread is in flight: then the history's next step is due and comes first, and threads are looked at only after
    /// its last step.
    fn choice(&self) -> Option<u8>
        requires going { is_finished self.now ≡ false }
        ensures { result ≡ choice_by self.now.past self.now.machine self.now.in_flight }
    {
        match &self.graph {
            Some(graph) => self.choice_among(graph),
            None => match self.next_in_history() {
                Some(t) => Some(t),
                None => thread_of(self.first_free()),
            },
        }
    }

    /// Whether there is anything to do: to reuse a record or to execute a step. Compares no page.
    pub fn has_pick(&self) -> bool
        ensures { result ≡ is_something (pick_of self.now) }
    {
        !self.is_finished() && self.choice().is_some()
    }

    /// What a worker may do next. Allocates nothing, and compares the pages of at most one record: of none while the
    /// round replays a coherent history.
    pub fn pick(&self, compared: &mut Compared) -> Pick
        ensures pick { result ≡ pick_of self.now }
        ensures stopped { self.now.stopped ≡ true → result ≡ pick.Over }
        ensures reuse { (t : ℕ) → result ≡ pick.Reuse t → can_reuse self.now t ≡ true }
        ensures run { (t : ℕ) → result ≡ pick.Run t → can_take self.now t ≡ true }
        ensures holds { result ≡ pick.Hold → (t : ℕ)
            → is_free_in self.now.machine self.now.in_flight t ≡ true
            → is_due self.now.past self.now.machine t ≡ false }
        ensures spares { (h : OldHistory) → is_coherent h ≡ true → IsReplaying h self.now
            → compared.new ≡ compared.old }
        ensures never_lower { compared.old ≤ compared.new }
        ensures valid { IsValid self.now }
    {
        if self.is_finished() {
            return Pick::Over;
        }
        match self.choice() {
            Some(t) if self.can_reuse(t, compared) => Pick::Reuse(t),
            Some(t) => Pick::Run(t),
            None => Pick::Hold,
        }
    }
}
