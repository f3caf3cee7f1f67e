//! The machine after records that are applied one after the other, and the facts of their steps.

ghost use Rattle.std.specs.Prelude.{◌≡◌, true, is_some, IfOk, OnOk};
ghost use Rattle.machine_spec.specs.Setup.{first};
ghost use Rattle.machine_spec.specs.Step as step;
ghost use Rattle.release_core.specs.Applying.{can_apply};
ghost use Rattle.history_spec.specs.Facts as order;

use super::outline::Outline;
use depend_graph::Fact;
use release_core::Core;
use run_history::{Records, Setup};
use std::alloc::{AllocError, Global};
use std::marker::Model;
use thunk_record::Record;

/// The machine after some records, with what facts need of it. It determines whether the next record fits.
#[derive(Drop)]
pub struct Replay {
    core: Core,
    outline: Outline,
}

impl Model for Replay {
    ghost use Rattle.machine_spec.specs.Machine.{Machine};
    ghost use Rattle.history_facts.specs.Outlining.{IsOutlineOf};

    ghost Value = { Machine };

    ghost view = { λ r. r.core };

    ghost invariant = { λ r. IsOutlineOf r.core r.outline };
}

impl Replay {
    /// The machine that a setup starts as.
    ///
    /// # Errors
    ///
    /// An error if the host's memory ran out.
    pub fn new(alloc: Global, setup: &Setup) -> Result<Replay, AllocError>
        ensures { IfOk result (λ replay. replay ≡ first setup.now) }
    {
        Ok(Replay {
            core: Core::new(alloc, setup)?,
            outline: Outline::new(alloc, setup)?,
        })
    }

    /// Whether a record may be applied: there is no end yet, and it fits.
    pub fn fits(&self, rec: &Record) -> bool
        ensures { result ≡ can_apply self.now rec.now }
    {
        self.core.ended().is_none() && self.core.fits(rec)
    }

    /// Whether there is an end.
    pub fn has_ended(&self) -> bool
        ensures { result ≡ is_some self.now.ending }
    {
        self.core.ended().is_some()
    }

    /// Applies a record that may be applied, and returns the fact of its step. `records` are those of the history.
    ///
    /// # Errors
    ///
    /// An error if the host's memory ran out.
    pub fn apply(
        &mut self,
        alloc: Global,
        records: &Records,
        rec: &Record,
    ) -> Result<Fact, AllocError>
        requires { can_apply self.old rec.now ≡ true }
        ensures applied { OnOk result (self.new ≡ step.apply self.old rec.now) }
        ensures says { IfOk result (λ fact.
            fact ≡ order.fact_of (order.reads_in records.now) self.old rec.now) }
    {
        self.core.apply(rec)?;
        let last = self.core.ended().is_some();
        self.outline.next(alloc, records, rec, last)
    }
}
