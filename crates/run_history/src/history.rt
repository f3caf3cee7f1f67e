//! What is kept of a finished run.

ghost use Rattle.std.specs.Prelude.{◌≡◌, true, option_map, Some};
ghost use Rattle.std.specs.Arc.{arc_value};
ghost use Rattle.history_spec.specs.History.{found, is_coherent, IsMapped};

use super::records::Records;
use super::setup::Setup;
use std::marker::Model;
use std::sync::Arc;
use thunk_record::Record;

/// The setup of a run, and the records of its steps in order, whose slots are in the setup's page map. A clause sees a
/// `History` of `history_spec`. Whether it is known to be coherent is kept with it, so that its records needn't be
/// applied again to find out.
#[derive(Drop)]
pub struct History {
    setup: Setup,
    records: Records,
    coherent: bool,
}

impl Model for History {
    ghost use Rattle.history_spec.specs.History.{History as RecordedHistory};
    ghost use Rattle.run_history.specs.Histories.{IsAsKnown};

    ghost Value = { RecordedHistory };

    ghost view = { λ h. record { setup = h.setup; records = h.records } };

    ghost invariant = { λ h. IsAsKnown h.coherent (view h) };
}

impl History {
    /// The history of these parts. Allocates no memory.
    pub fn new(setup: Setup, records: Records) -> History
        requires { IsMapped (record { setup = setup; records = records }) }
        ensures { result ≡ record { setup = setup; records = records } }
    {
        History {
            setup,
            records,
            coherent: false,
        }
    }

    /// The same history, which is coherent: from then on this is known. Allocates no memory.
    pub fn known_coherent(self) -> History
        requires { is_coherent self ≡ true }
        ensures { result ≡ self }
    {
        let History { setup, records, .. } = self;
        History {
            setup,
            records,
            coherent: true,
        }
    }

    /// Whether it is known to be coherent. A history that isn't known to be may be coherent too.
    pub fn is_known_coherent(&self) -> bool
        ensures { result ≡ true → is_coherent self.now ≡ true }
    {
        self.coherent
    }

    /// The setup of the run.
    pub fn setup(&self) -> &Setup
        ensures setup { result.now ≡ self.now.setup }
        ensures mapped { IsMapped self.now }
    {
        &self.setup
    }

    /// The records of its steps.
    pub fn records(&self) -> &Records
        ensures records { result.now ≡ self.now.records }
        ensures mapped { IsMapped self.now }
    {
        &self.records
    }

    /// The record of thread `t` at this number of steps made, if there is one.
    pub fn find(&self, t: u8, number: u32) -> Option<&Arc<Record>>
        ensures record { option_map (λ r. arc_value r.now) result ≡ found (Some self.now) t number }
        ensures mapped { IsMapped self.now }
    {
        self.records.find(t, number)
    }
}
