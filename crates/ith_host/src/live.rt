//! The line that shows the progress of a round on a terminal.

use super::gate::Gate;
use std::fmt::{self, Display, Formatter};
use std::io::Eprint;
use std::sync::atomic::{AtomicBool, AtomicU64, Ordering};
use std::time::Clock;

/// The milliseconds from the beginning of a round until the line is shown.
const FIRST: u64 = 1_000;

/// The milliseconds until the line is overwritten.
const AGAIN: u64 = 500;

/// The text that removes the line: it moves to the line's start, and erases all that follows. (ECMA-48, 8.3.41)
const ERASED: &str = "\r\x1b[K";

/// A gate that lets every worker pass at once, and shows the progress of the round on standard error, on one line that
/// it overwrites. Failures to write there are ignored.
#[derive(Drop)]
pub struct Live<'a, R> {
    rt: &'a R,
    is_shown: bool,
    round: AtomicU64,
    steps: AtomicU64,
    reused: AtomicU64,
    began: AtomicU64,
    due: AtomicU64,
    is_drawn: AtomicBool,
}

/// The progress of a round.
#[derive(Drop)]
struct Line {
    round: u64,
    steps: u64,
    reused: u64,
    seconds: u64,
}

impl Display for Line {
    fn fmt<W: fmt::Write>(&self, f: &mut Formatter<W>) -> fmt::Result {
        f.write_str("\rround ")?;
        self.round.fmt(f)?;
        f.write_str(": ")?;
        self.steps.fmt(f)?;
        f.write_str(" steps, ")?;
        self.reused.fmt(f)?;
        f.write_str(" reused, ")?;
        self.seconds.fmt(f)?;
        f.write_str(" s\x1b[K")
    }
}

impl<'a, R: Clock + Eprint> Live<'a, R> {
    /// Shows nothing so far, and never shows anything if `is_shown` is false.
    pub fn new(rt: &'a R, is_shown: bool) -> Self {
        Live {
            rt,
            is_shown,
            round: AtomicU64::new(0),
            steps: AtomicU64::new(0),
            reused: AtomicU64::new(0),
            began: AtomicU64::new(0),
            due: AtomicU64::new(0),
            is_drawn: AtomicBool::new(false),
        }
    }

    /// The time in milliseconds, or 0 if the clock fails.
    fn now(&self) -> u64 {
        match self.rt.monotonic() {
            Ok(time) => u64::try_from(time.as_millis()).unwrap_or(u64::MAX),
            Err(_) => 0,
        }
    }

    /// Overwrites the line.
    fn draw(&self, now: u64) {
        let line = Line {
            round: self.round.load(Ordering::Relaxed),
            steps: self.steps.load(Ordering::Relaxed),
            reused: self.reused.load(Ordering::Relaxed),
            seconds: now.saturating_sub(self.began.load(Ordering::Relaxed)) / 1_000,
        };
        self.is_drawn.store(true, Ordering::Relaxed);
        let _ = self.rt.eprint(line);
    }
}

impl<'a, R: Clock + Eprint> Gate for Live<'a, R> {
    fn enter(&self, _thread: u8, _number: u32) {}

    fn begin(&self, round: u64) {
        if self.is_shown {
            let now = self.now();
            self.round.store(round, Ordering::Relaxed);
            self.steps.store(0, Ordering::Relaxed);
            self.reused.store(0, Ordering::Relaxed);
            self.began.store(now, Ordering::Relaxed);
            self.due.store(now.saturating_add(FIRST), Ordering::Relaxed);
        }
    }

    fn made(&self, steps: u64, reused: bool) {
        if !self.is_shown {
            return;
        }
        self.steps.fetch_add(steps, Ordering::Relaxed);
        if reused {
            self.reused.fetch_add(steps, Ordering::Relaxed);
        }
        let now = self.now();
        let due = self.due.load(Ordering::Relaxed);
        if now < due {
            return;
        }
        let next = now.saturating_add(AGAIN);
        // Only one of several workers draws.
        let ours = self
            .due
            .compare_exchange(due, next, Ordering::Relaxed, Ordering::Relaxed);
        if ours.is_ok() {
            self.draw(now);
        }
    }

    fn end(&self) {
        if self.is_drawn.swap(false, Ordering::Relaxed) {
            let _ = self.rt.eprint(ERASED);
        }
    }
}
