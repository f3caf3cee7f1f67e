//! The first races of a history, row by row.

ghost use Rattle.std.specs.Prelude.{◌≡◌, ◌<◌, ◌≤◌, ◌+◌, ◌^◌, ◌==◌, ◌⊎◌, ℕ, List, [], ◌∷◌, ◌++◌, length, take, count_by, slice_index_or, slice_set, IfOk, OnOk, if◌then◌else◌};
ghost use Rattle.std.specs.List.{filter, flat_map};
ghost use Rattle.std.specs.List.Sorted.{IsNonDecreasingBy};
ghost use Rattle.round_spec.specs.declared.Race.{Race as RaceOf};
ghost use Rattle.memo_reports.specs.Past.{IsPagePast, accesses_of, races_with};
ghost use Rattle.memo_reports.specs.declared.races.past.Access.{Access as Used};
ghost use Rattle.memo_reports.specs.Rows.{race_with as race_of, IsCounted, races_in};

use super::past::{Access, PagePast};
use super::steps::Step;
use super::touches::Touch;
use round_spec::Race;
use std::alloc::{AllocError, Global};
use std::marker::Model;

/// The races of a step with later ones so far, in order. A clause sees the list of them.
#[derive(Drop)]
struct Row {
    races: Vec<Race>,
}

impl Model for Row {
    ghost use Rattle.std.specs.Prelude.{List};
    ghost use Rattle.round_spec.specs.declared.Race.{Race};

    ghost Value = { List Race };

    ghost view = { λ r. r.races.items };
}

impl Row {
    /// No race so far. Allocates no memory.
    fn new(alloc: Global) -> Row
        ensures { result ≡ [] }
    {
        Row {
            races: Vec::new(alloc),
        }
    }

    /// The races.
    fn as_slice(&self) -> &[Race]
        ensures { result.now ≡ self.now }
    {
        &self.races
    }

    /// Adds a race.
    fn push(&mut self, race: Race) -> Result<(), AllocError>
        ensures { OnOk result (self.new ≡ self.old ++ race ∷ []) }
    {
        self.races.push(race)?;
        Ok(())
    }
}

/// The race of an access with a later step, for a page that the later one touches.
fn race_with(access: Access, later: usize, touch: Touch) -> Race
    ensures { result ≡ race_of later touch access }
{
    Race {
        earlier: access.place,
        later,
        slot: touch.slot,
        earlier_writes: access.writes,
        later_writes: touch.writes,
    }
}

/// The races of the first steps with later ones so far: a row for each step, as far as the rows before don't have
/// enough.
#[derive(Drop)]
pub struct FirstRaces {
    /// How many races are listed at most.
    most: usize,
    /// How many races the rows have.
    many: usize,
    /// The races of each step.
    rows: Vec<Row>,
}

impl FirstRaces {
    /// No step so far. Allocates no memory.
    pub fn new(alloc: Global, most: usize) -> FirstRaces
        ensures rows { result.rows.items ≡ [] }
        ensures many { result.many ≡ 0 }
        ensures most { result.most ≡ most }
    {
        FirstRaces {
            most,
            many: 0,
            rows: Vec::new(alloc),
        }
    }

    /// Adds a race of a step that has a row.
    fn add_race(&mut self, race: Race) -> Result<(), AllocError>
        requires row { race.earlier < length self.old.rows.items }
        requires room { self.old.many + 1 < 2 ^ 64 }
        ensures rows { OnOk result (self.new.rows.items
            ≡ slice_set self.old.rows.items race.earlier
            (slice_index_or self.old.rows.items race.earlier [] ++ race ∷ [])) }
        ensures many { OnOk result (self.new.many ≡ self.old.many + 1) }
        ensures most { self.new.most ≡ self.old.most }
    {
        self.rows[race.earlier].push(race)?;
        self.many += 1;
        Ok(())
    }

    /// Adds the races of accesses in order with a later step, for a page that the later one touches. Skips the accesses
    /// of steps without a row.
    fn add_with(
        &mut self,
        accesses: &[Access],
        later: usize,
        touch: Touch,
    ) -> Result<(), AllocError>
        requires order { IsNonDecreasingBy (λ (a : Used). a.place) accesses.now }
        requires room { self.old.many + length accesses.now < 2 ^ 64 }
        requires counted { IsCounted self.old }
        ensures rows { (i : ℕ) → OnOk result (i < length self.old.rows.items
            → slice_index_or self.new.rows.items i []
            ≡ slice_index_or self.old.rows.items i [] ++ races_in i later touch accesses.now) }
        ensures long { OnOk result (length self.new.rows.items ≡ length self.old.rows.items) }
        ensures counted { OnOk result (IsCounted self.new) }
        ensures many { OnOk result (self.new.many ≤ self.old.many + length accesses.now) }
        ensures more { OnOk result (self.old.many ≤ self.new.many) }
        ensures most { self.new.most ≡ self.old.most }
    {
        for access in accesses {
            if access.place >= self.rows.len() {
                return Ok(());
            }
            self.add_race(race_with(*access, later, touch))?;
        }
        Ok(())
    }

    /// Adds the races of the accesses to a page with a later step that touches it. Returns how many there are, with
    /// those of steps without a row.
    pub fn add(
        &mut self,
        page: &PagePast,
        step: &Step,
        later: usize,
        touch: Touch,
    ) -> Result<usize, AllocError>
        requires past { IsPagePast page.now }
        requires room { self.old.many + length (accesses_of page.now) < 2 ^ 64 }
        requires counted { IsCounted self.old }
        ensures rows { (i : ℕ) → OnOk result (i < length self.old.rows.items
            → slice_index_or self.new.rows.items i []
            ≡ slice_index_or self.old.rows.items i []
            ++ races_in i later touch
            (filter (races_with step.now touch.writes) (accesses_of page.now))) }
        ensures count { IfOk result (λ count. count
            ≡ count_by (races_with step.now touch.writes) (accesses_of page.now)) }
        ensures long { OnOk result (length self.new.rows.items ≡ length self.old.rows.items) }
        ensures counted { OnOk result (IsCounted self.new) }
        ensures more { OnOk result (self.old.many ≤ self.new.many) }
        ensures most { self.new.most ≡ self.old.most }
    {
        let mut count = 0;
        for past in &page.threads {
            let racing = past.racing(step, touch.writes);
            count += racing.len();
            self.add_with(racing, later, touch)?;
        }
        Ok(count)
    }

    /// Drops the last rows, as far as those before have enough races.
    pub fn trim(&mut self)
        requires { IsCounted self.old }
        ensures rows { self.new.rows.items ≡ take (length self.new.rows.items) self.old.rows.items }
        ensures counted { IsCounted self.new }
        ensures enough { (self.new.rows.items ≡ self.old.rows.items)
            ⊎ (self.old.most ≤ self.new.many) }
        ensures most { self.new.most ≡ self.old.most }
    {
        while let Some(row) = self.rows.last() {
            let left = self.many - row.as_slice().len();
            if left < self.most {
                return;
            }
            let _row = self.rows.pop();
            self.many = left;
        }
    }

    /// Adds a row for the step at a place, if each step before it has one.
    pub fn open(&mut self, alloc: Global, place: usize) -> Result<(), AllocError>
        requires { IsCounted self.old }
        ensures rows { OnOk result (self.new.rows.items
            ≡ (if length self.old.rows.items == place then self.old.rows.items ++ [] ∷ []
            else self.old.rows.items)) }
        ensures counted { OnOk result (IsCounted self.new) }
        ensures many { self.new.many ≡ self.old.many }
        ensures most { self.new.most ≡ self.old.most }
    {
        if self.rows.len() == place {
            self.rows.push(Row::new(alloc))?;
        }
        Ok(())
    }

    /// The races of all rows, at most `most`.
    pub fn listed(&self, alloc: Global) -> Result<Vec<Race>, AllocError>
        ensures { IfOk result (λ races. races.items
            ≡ take self.now.most (flat_map (λ (row : List RaceOf). row) self.now.rows.items)) }
    {
        let mut races = Vec::new(alloc);
        for row in &self.rows {
            let row = row.as_slice();
            let room = self.most - races.len();
            races.extend_from_slice(&row[..room.min(row.len())])?;
        }
        Ok(races)
    }
}
