//! The records of a run's steps, each found by its thread and its number.

ghost use Rattle.std.specs.Prelude.{◌≡◌, ◌<◌, ◌≤◌, ◌==◌, ◌++◌, ◌-◌, take, [], ◌∷◌, true, List, All, length, count_by, find, option_map, slice_get, slice_index_or, slice_set, OnOk, OnErr, Some};
ghost use Rattle.std.specs.Arc.{arc_value};
ghost use Rattle.std.specs.List.{position_or_len};
ghost use Rattle.thunk_spec.specs.Record.{Record as Recorded};
ghost use Rattle.history_spec.specs.History.{is_of, is_numbered, threads_of_records};
ghost use Rattle.run_history.specs.Records.{AreOfRun};

use guest_call::THREADS;
use machine_spec::MOST_STEPS;
use std::alloc::{AllocError, Global};
use std::array;
use std::marker::Model;
use std::sync::Arc;
use thunk_record::Record;

/// The places of the records of one thread, in order.
#[derive(Drop)]
struct Row {
    places: Vec<u32>,
}

impl Model for Row {
    ghost use Rattle.std.specs.Prelude.{ℕ, List};

    ghost Value = { List ℕ };

    ghost view = { λ r. r.places.items };
}

impl Row {
    /// No place yet.
    fn new(alloc: Global) -> Row
        ensures { result ≡ [] }
    {
        Row {
            places: Vec::new(alloc),
        }
    }

    /// The place of the record of this number, or else `past`.
    fn at(&self, number: usize, past: usize) -> usize
        ensures { result ≡ slice_index_or self.now number past }
    {
        match self.places.get(number) {
            Some(place) => *place as usize,
            None => past,
        }
    }

    /// Appends a place.
    fn push(&mut self, place: u32) -> Result<(), AllocError>
        ensures ok { OnOk result (self.new ≡ self.old ++ place ∷ []) }
        ensures err { OnErr result (self.new ≡ self.old) }
    {
        self.places.push(place)?;
        Ok(())
    }

    /// Removes the last place, if there is one.
    fn pop(&mut self)
        ensures { self.new ≡ take (length self.old - 1) self.old }
    {
        let _last = self.places.pop();
    }
}

/// Appends a place to row `t`.
fn add_place(rows: &mut [Row; THREADS], t: usize, place: u32) -> Result<(), AllocError>
    requires { t < THREADS }
    ensures ok { OnOk result (rows.new
        ≡ slice_set rows.old t (slice_index_or rows.old t [] ++ place ∷ [])) }
    ensures err { OnErr result (rows.new ≡ rows.old) }
    ensures count { length rows.old ≡ THREADS }
{
    rows[t].push(place)
}

/// Removes the last place of row `t`.
fn drop_place(rows: &mut [Row; THREADS], t: usize)
    requires { t < THREADS }
    ensures rest { rows.new
        ≡ slice_set rows.old t
        (take (length (slice_index_or rows.old t []) - 1) (slice_index_or rows.old t [])) }
    ensures count { length rows.old ≡ THREADS }
{
    rows[t].pop();
}

/// Rows with no place.
fn no_places(alloc: Global) -> [Row; THREADS]
    ensures { All (λ row. row ≡ []) result }
{
    array::from_fn(
        |_| -> Row
            ensures { result ≡ [] }
        { Row::new(alloc) },
    )
}

/// Records of steps in order, at most `MOST_STEPS`, of threads below `THREADS`. The number of each is
/// how many records of its thread come before it. A clause sees the list of them.
#[derive(Drop)]
pub struct Records {
    list: Vec<Arc<Record>>,
    rows: [Row; THREADS],
}

impl Model for Records {
    ghost use Rattle.std.specs.Prelude.{List, map};
    ghost use Rattle.std.specs.Arc.{arc_value};
    ghost use Rattle.thunk_spec.specs.Record.{Record as Recorded};
    ghost use Rattle.run_history.specs.Records.{IsIndexed};

    ghost Value = { List Recorded };

    ghost view = { λ s. map arc_value s.list.items };

    ghost invariant = { λ s. IsIndexed s.rows (view s) };
}

impl Records {
    /// No record. Allocates no memory.
    pub fn new(alloc: Global) -> Records
        ensures { result ≡ [] }
    {
        Records {
            list: Vec::new(alloc),
            rows: no_places(alloc),
        }
    }

    /// How many records there are.
    pub fn len(&self) -> usize
        ensures count { result ≡ length self.now }
        ensures of_run { AreOfRun self.now }
    {
        self.list.len()
    }

    /// The record at a place.
    pub fn at(&self, place: usize) -> &Arc<Record>
        requires { place < length self.now }
        ensures { slice_get self.now place ≡ Some (arc_value result.now) }
    {
        &self.list[place]
    }

    /// The place of the record of thread `t` at this number of steps made, or else how many records there are. Looks at
    /// one place only.
    pub fn place(&self, t: u8, number: u32) -> usize
        ensures { result ≡ position_or_len (is_of t number) self.now }
    {
        if usize::from(t) >= THREADS {
            return self.list.len();
        }
        self.rows[usize::from(t)].at(number as usize, self.list.len())
    }

    /// The record of thread `t` at this number of steps made, if there is one.
    #[tactic(auto, using(crate::proofs::Placing::found_at, crate::proofs::Placing::found_none))]
    pub fn find(&self, t: u8, number: u32) -> Option<&Arc<Record>>
        ensures { option_map (λ r. arc_value r.now) result ≡ find (is_of t number) self.now }
    {
        let place = self.place(t, number);
        if place < self.len() {
            Some(self.at(place))
        } else {
            None
        }
    }

    /// Appends a record. Its number is how many records of its thread there are.
    ///
    /// # Errors
    ///
    /// An error if the host's memory ran out; the records are then as before.
    pub fn push(&mut self, rec: Arc<Record>) -> Result<(), AllocError>
        requires few { length self.old < MOST_STEPS }
        requires thread { (arc_value rec).thread < THREADS }
        requires number { (arc_value rec).number
            ≡ count_by (λ t. t == (arc_value rec).thread) (threads_of_records self.old) }
        ensures ok { OnOk result (self.new ≡ self.old ++ arc_value rec ∷ []) }
        ensures err { OnErr result (self.new ≡ self.old) }
    {
        let place = self.list.len() as u32;
        let t = usize::from(rec.thread());
        self.list.reserve(1)?;
        add_place(&mut self.rows, t, place)?;
        self.list.push(rec)?;
        Ok(())
    }

    /// Removes the last record, which undoes a `push`. Allocates no memory.
    #[tactic(auto, using(crate::proofs::Placing::undone))]
    pub fn pop(&mut self)
        requires { 0 < length self.old }
        ensures rest { self.new ≡ take (length self.old - 1) self.old }
        ensures undo { (rs : List Recorded) (rec : Recorded) → self.old ≡ rs ++ rec ∷ []
            → self.new ≡ rs }
    {
        match self.list.pop() {
            Some(rec) => drop_place(&mut self.rows, usize::from(rec.thread())),
            None => unreachable!(),
        }
    }
}
