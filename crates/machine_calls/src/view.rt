//! What a thread sees of memory.

ghost use Rattle.std.specs.Prelude.{◌≡◌, IfOk};
ghost use Rattle.std.specs.Arc.{arc_value};
ghost use Rattle.memory_spec.specs.Pages.{Memory};
ghost use Rattle.thunk_spec.specs.Put.{is_readable};
ghost use Rattle.guest_call.specs.Objects.{appends};

use page_store::{PageMap, PageTable, Range};
use std::alloc::AllocError;
use std::sync::Arc;

/// A memory that may be the view of a thread.
pub trait View: Drop {
    ghost pages: { Self → Memory };

    /// Another view with the same bytes. No byte is copied.
    ///
    /// # Errors
    ///
    /// An error if the host's memory ran out, or the view has as many holders as can be counted.
    fn share(&self) -> Result<Self, AllocError>
        ensures { IfOk result (λ other. pages other ≡ pages self.now) };

    /// Whether a put appends its bytes: there are some, no more than 4,096, and all may be read.
    fn appends_all(map: &PageMap, start: u32, count: u32) -> bool
        ensures { result ≡ appends (is_readable map.now) start count };
}

impl View for Arc<PageTable> {
    ghost pages = { arc_value };

    fn share(&self) -> Result<Self, AllocError> {
        Arc::try_clone(self)
    }

    fn appends_all(map: &PageMap, start: u32, count: u32) -> bool {
        page_store::appends_all(map, Range { start, len: count })
    }
}
