//! When pages were last written, and when threads were given their views.

ghost use Rattle.std.specs.Prelude.{◌≡◌, ◌<◌, ◌≤◌, ℕ, length, replicate, slice_index, slice_set, IfOk};
ghost use Rattle.history_spec.specs.Facts.{written_slots};
ghost use Rattle.known_pages.specs.Versions as versions;
ghost use Rattle.known_pages.specs.Versions.{with_each, viewed_after, stored_version, seen_version};

use guest_call::THREADS;
use machine_spec::MOST_STEPS;
use release_core::Core;
use std::alloc::{AllocError, Global};
use std::array;
use thunk_record::Record;

/// A page that a step reads or writes, and which version of it the step finds, if that is known. Version n is the page
/// after the first n steps of the history.
#[derive(Clone, Copy)]
pub struct PageVersion {
    /// The slot of the page.
    pub slot: usize,
    /// Its version, if that is known.
    pub version: Option<u32>,
}

/// When pages were written, and threads given their views. A page that wasn't written since a thread was given its view
/// is the same in that view as in shared memory.
#[derive(Drop)]
pub struct Times {
    /// By slot, after how many steps the page was last written.
    pub written: Vec<u32>,
    /// By thread, after how many steps it was given its view; of a thread that isn't ready, after how many it can be
    /// given its next one.
    pub viewed: [u32; THREADS],
}

/// The entry in `viewed` of thread `u`, which exists or is the next to be created, after a step of thread `t` that
/// resulted in this machine: `now` if it is `t` and ready, `now + 1` if it isn't ready, and else as before.
fn viewed_at(core: &Core, t: u8, u: u8, before: u32, now: u32) -> u32
    requires now { now ≤ MOST_STEPS }
    requires there { u ≤ length core.now.harts }
    ensures { result ≡ viewed_after core.now t u before now }
{
    if !core.ready(u) {
        return now + 1;
    }
    if u == t { now } else { before }
}

impl Times {
    /// Times for `pages` pages, each last written after `at` steps, and views that were all given after 0 steps.
    pub fn new(alloc: Global, pages: usize, at: u32) -> Result<Times, AllocError>
        ensures written { IfOk result (λ times. times.written.items ≡ replicate pages at) }
        ensures viewed { IfOk result (λ times. times.viewed ≡ replicate THREADS 0) }
    {
        Ok(Times {
            written: vec![in alloc; at; pages]?,
            viewed: [0; THREADS],
        })
    }

    /// When a thread was given its view.
    fn viewed_by(&self, t: u8) -> u32
        ensures { result ≡ slice_index self.now.viewed t }
    {
        match self.viewed.get(usize::from(t)) {
            Some(at) => *at,
            None => 0,
        }
    }

    /// Whether a page wasn't written since a thread was given its view.
    pub fn is_current(&self, t: u8, slot: usize) -> bool
        ensures { result
            ≡ versions.is_current self.now.written.items self.now.viewed t slot }
    {
        match self.written.get(slot) {
            Some(at) => *at <= self.viewed_by(t),
            None => false,
        }
    }

    /// The version of a page in shared memory, if the pages are those of a history.
    pub fn stored(&self, slot: usize) -> PageVersion
        ensures { result ≡ stored_version self.now.written.items slot }
    {
        PageVersion {
            slot,
            version: self.written.get(slot).copied(),
        }
    }

    /// The version of a page in a thread's view, if it wasn't written since.
    pub fn seen(&self, t: u8, slot: usize) -> PageVersion
        ensures { result ≡ seen_version self.now.written.items self.now.viewed t slot }
    {
        if self.is_current(t, slot) {
            return self.stored(slot);
        }
        PageVersion {
            slot,
            version: None,
        }
    }

    /// Notes that a step wrote the pages of its record.
    pub fn write(&mut self, rec: &Record, now: u32)
        ensures written { self.new.written.items
            ≡ with_each self.old.written.items (written_slots rec.now) now }
        ensures viewed { self.new.viewed ≡ self.old.viewed }
    {
        let pages = rec.delta().pages();
        for page in pages {
            set(self.written.as_mut_slice(), page.slot(), now);
        }
    }

    /// Notes that a step gave some threads a view.
    pub fn give(&mut self, threads: &[u8], now: u32)
        ensures viewed { self.new.viewed ≡ with_each self.old.viewed threads.now now }
        ensures written { self.new.written.items ≡ self.old.written.items }
    {
        for t in threads {
            set(self.viewed.as_mut_slice(), usize::from(*t), now);
        }
    }

    /// Notes which threads a step of thread `t` gave a view. The step resulted in this machine.
    pub fn give_by(&mut self, core: &Core, t: u8, now: u32)
        requires { now ≤ MOST_STEPS }
        ensures viewed { (u : ℕ) → u < THREADS → slice_index self.new.viewed u
            ≡ viewed_after core.now t u (slice_index self.old.viewed u) now }
        ensures count { length self.new.viewed ≡ THREADS }
        ensures written { self.new.written.items ≡ self.old.written.items }
    {
        for u in 0..THREADS.min(core.threads() + 1) {
            self.viewed[u] = viewed_at(core, t, u as u8, self.viewed[u], now);
        }
    }
}

/// Sets the entry at an index, if there is one.
pub(super) fn set<T: Copy>(entries: &mut [T], at: usize, entry: T)
    ensures { entries.new ≡ slice_set entries.old at entry }
{
    if at < entries.len() {
        entries[at] = entry;
    }
}
