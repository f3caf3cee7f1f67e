//! A thunk that is to be run.

ghost use Rattle.std.specs.Prelude.{◌≡◌, length};
ghost use Rattle.std.specs.Arc.{arc_value};

use super::frame::Frame;
use page_store::PageTable;
use rv_isa::Regs;
use std::sync::Arc;

/// The next thunk of a thread, to be run on a view.
#[derive(Drop)]
pub struct Job {
    /// The page map and the fuel.
    pub frame: Arc<Frame>,
    /// The thread.
    pub thread: u8,
    /// How many steps the thread has made.
    pub number: u32,
    /// Its registers.
    pub regs: Regs,
    /// Its view.
    pub view: Arc<PageTable>,
    ghost sized: { length (arc_value view) ≡ length (arc_value frame).map },
}

impl Job {
    /// The next thunk of a thread that has made `number` steps, with these registers, on this view. The view has as
    /// many pages as the map of the frame. Allocates no memory.
    pub fn new(frame: Arc<Frame>, thread: u8, number: u32, regs: Regs, view: Arc<PageTable>) -> Job
        requires { length (arc_value view) ≡ length (arc_value frame).map }
        ensures frame { result.frame ≡ frame }
        ensures thread { result.thread ≡ thread }
        ensures number { result.number ≡ number }
        ensures registers { result.regs ≡ regs }
        ensures view { result.view ≡ view }
    {
        Job {
            frame,
            thread,
            number,
            regs,
            view,
        }
    }
}
