//! A thunk that was run.

ghost use Rattle.std.specs.Arc.{arc_value};
ghost use Rattle.thunk_spec.specs.Record.{IsTrue};

use std::sync::Arc;
use thunk_record::{Frame, Record};

/// A thunk that was run, with what is kept of it, which is true.
#[derive(Drop)]
pub struct Run {
    /// The page map and the fuel.
    pub frame: Arc<Frame>,
    /// What is kept.
    pub rec: Arc<Record>,
    ghost honest: { IsTrue (arc_value frame) (arc_value rec).start (arc_value rec).kept },
}
