//! What a step does, as far as other steps can depend on it.

ghost use Rattle.std.specs.Prelude.{◌≡◌, IfOk};
ghost use Rattle.round_spec.specs.Sync.{sync_fact};

use std::alloc::{AllocError, Global};
use std::marker::Model;
use sync_objects::ActedOn;

/// What a step does, as far as other steps can depend on it. A clause sees a `Fact` of `history_spec`.
#[derive(Drop)]
pub struct Fact {
    /// Its thread.
    pub thread: u8,
    /// The objects on which its call acts.
    pub objects: ActedOn,
    /// The threads to which it gives a view.
    pub given: Vec<u8>,
    /// The slots of the pages that it writes.
    pub written: Vec<usize>,
    /// The slots of the pages that the next thunks of the threads to which it gives a view read.
    pub opened: Vec<usize>,
    /// Whether it ends the run.
    pub last: bool,
}

impl Model for Fact {
    ghost use Rattle.sync_objects.specs.Acting.{objects_in};
    ghost use Rattle.history_spec.specs.Facts.{Fact};

    ghost Value = { Fact };

    ghost view = { λ f. record {
      thread = f.thread;
      objects = objects_in f.objects;
      given = f.given.items;
      written = f.written.items;
      opened = f.opened.items;
      last = f.last;
    } };
}

impl Fact {
    /// The fact without its pages, and without whether it ends the run: what threads and objects order the step by.
    ///
    /// # Errors
    ///
    /// An error if the host's memory ran out.
    pub(super) fn without_pages(&self, alloc: Global) -> Result<Fact, AllocError>
        ensures { IfOk result (λ fact. fact ≡ sync_fact self.now) }
    {
        Ok(Fact {
            thread: self.thread,
            objects: self.objects,
            given: self.given.clone()?,
            written: Vec::new(alloc),
            opened: Vec::new(alloc),
            last: false,
        })
    }
}
