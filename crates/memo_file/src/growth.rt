//! The records that were read so far, and what the next one is read against.

ghost use Rattle.std.specs.Prelude.{◌≡◌, ◌<◌, ◌==◌, ◌++◌, ◌∷◌, [], length, OnOk, OnErr};
ghost use Rattle.std.specs.List.{count_by};
ghost use Rattle.history_spec.specs.History.{threads_of_records};

use guest_call::THREADS;
use machine_spec::MOST_STEPS;
use page_store::{Page, PageMap};
use run_history::Records;
use std::alloc::{AllocError, Global};
use std::marker::Model;
use std::sync::Arc;
use thunk_record::Record;

/// What all records of a memo are read against: the page map, the most turns of a thunk, and the pool.
#[derive(Clone, Copy)]
pub struct Sources<'a> {
    /// The page map.
    pub slots: &'a PageMap,
    /// The most turns of a thunk.
    pub fuel: u32,
    /// The pool.
    pub pool: &'a [Arc<Page>],
}

/// Records that were read so far, and how many pages of the pool they use. A clause sees a `Growth` of `specs/`.
#[derive(Drop)]
pub struct Growing {
    records: Records,
    counts: [u32; THREADS],
    used: usize,
}

impl Model for Growing {
    ghost use Rattle.memo_file.specs.Growth.{Growth, AreCounts};

    ghost Value = { Growth };

    ghost view = { λ g. record { records = g.records; used = g.used } };

    ghost invariant = { λ g. AreCounts g.counts g.records };
}

impl Growing {
    /// No record yet. Allocates no memory.
    pub fn new(alloc: Global) -> Growing
        ensures { result ≡ record { records = []; used = 0 } }
    {
        Growing {
            records: Records::new(alloc),
            counts: [0; THREADS],
            used: 0,
        }
    }

    /// How many records of a thread there are: the number of its next one.
    pub fn next_number(&self, thread: u8) -> u32
        requires { thread < THREADS }
        ensures { result ≡ count_by (λ t. t == thread) (threads_of_records self.now.records) }
    {
        self.counts[usize::from(thread)]
    }

    /// How many pages of the pool are used.
    pub fn used(&self) -> usize
        ensures { result ≡ self.now.used }
    {
        self.used
    }

    /// Adds a record, after which `used` pages of the pool are used.
    ///
    /// # Errors
    ///
    /// An error if the host's memory ran out; the records are then as before.
    pub fn push(&mut self, alloc: Global, rec: Record, used: usize) -> Result<(), AllocError>
        requires few { length self.old.records < MOST_STEPS }
        requires thread { rec.thread < THREADS }
        requires number { rec.number
            ≡ count_by (λ t. t == rec.thread) (threads_of_records self.old.records) }
        ensures ok { OnOk result (self.new
            ≡ record { records = self.old.records ++ rec ∷ []; used = used }) }
        ensures err { OnErr result (self.new ≡ self.old) }
    {
        let thread = usize::from(rec.thread());
        self.records.push(Arc::new(alloc, rec)?)?;
        self.counts[thread] += 1;
        self.used = used;
        Ok(())
    }

    /// The records. Allocates no memory.
    pub fn into_records(self) -> Records
        ensures { result ≡ self.records }
    {
        self.records
    }
}
