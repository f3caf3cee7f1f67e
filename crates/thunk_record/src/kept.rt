//! The record of a finished thunk.

ghost use Rattle.std.specs.Prelude.{◌≡◌};

use page_store::{Delta, Reads};
use rv_isa::Regs;
use std::marker::Model;
use thunk_spec::ThunkEnd;

/// What is kept of a finished thunk. A clause sees a `Kept` of `thunk_spec`.
#[derive(Drop)]
pub struct Kept {
    /// The pages that it took bytes from, as its view had them.
    pub reads: Reads,
    /// What it stored.
    pub delta: Delta,
    /// Its last registers.
    pub finish: Regs,
    /// How it ended.
    pub end: ThunkEnd,
    /// How many turns it made, the last one included.
    pub count: u32,
}

impl Model for Kept {
    ghost use Rattle.thunk_spec.specs.Record.{Kept};

    ghost Value = { Kept };

    ghost view = { λ k. record { reads = k.reads; delta = k.delta; finish = k.finish; end = k.end; count = k.count } };
}

/// The thunk of a thread that had made so many steps, from its start registers on. A clause sees a
/// `Record` of `thunk_spec`.
#[derive(Drop)]
pub struct Record {
    thread: u8,
    number: u32,
    start: Regs,
    kept: Kept,
}

impl Model for Record {
    ghost use Rattle.thunk_spec.specs.Record.{Record};

    ghost Value = { Record };

    ghost view = { λ r. record { thread = r.thread; number = r.number; start = r.start; kept = r.kept } };
}

impl Record {
    /// The record of these parts.
    pub fn new(thread: u8, number: u32, start: Regs, kept: Kept) -> Record
        ensures { result ≡ record { thread = thread; number = number; start = start; kept = kept } }
    {
        Record {
            thread,
            number,
            start,
            kept,
        }
    }

    /// The thread.
    #[inline(always)]
    pub fn thread(&self) -> u8
        ensures { result ≡ self.now.thread }
    {
        self.thread
    }

    /// How many steps the thread had made before.
    #[inline(always)]
    pub fn number(&self) -> u32
        ensures { result ≡ self.now.number }
    {
        self.number
    }

    /// Its first registers.
    #[inline(always)]
    pub fn start(&self) -> &Regs
        ensures { result.now ≡ self.now.start }
    {
        &self.start
    }

    /// The pages that it took bytes from, as its view had them.
    #[inline(always)]
    pub fn reads(&self) -> &Reads
        ensures { result.now ≡ self.now.kept.reads }
    {
        &self.kept.reads
    }

    /// What it stored.
    #[inline(always)]
    pub fn delta(&self) -> &Delta
        ensures { result.now ≡ self.now.kept.delta }
    {
        &self.kept.delta
    }

    /// Its last registers.
    #[inline(always)]
    pub fn finish(&self) -> &Regs
        ensures { result.now ≡ self.now.kept.finish }
    {
        &self.kept.finish
    }

    /// How it ended.
    #[inline(always)]
    pub fn end(&self) -> ThunkEnd
        ensures { result ≡ self.now.kept.end }
    {
        self.kept.end
    }

    /// How many turns it made, the last one included.
    #[inline(always)]
    pub fn count(&self) -> u32
        ensures { result ≡ self.now.kept.count }
    {
        self.kept.count
    }
}
