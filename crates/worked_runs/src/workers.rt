//! Worked runs by several workers, which pass a gate: two that execute at once, and a round that executes nothing.

use super::lines::{host_with_guests, status_at, status_of};
use super::report_text::{line_after, schedule, text_from, worker_steps};
use ith_host::Gate;
use std::alloc::{AllocError, Global};
use std::sync::atomic::{AtomicU64, Ordering};
use std::test::Fail;
use std::thread::yield_now;

/// A gate that notes which thunks come to it. It holds thunk 1 of thread 0 until thunk 0 of thread 1 comes, and the
/// reverse.
#[derive(Drop)]
struct Meeting {
    /// The thunks that came, a bit for each.
    came: AtomicU64,
    /// How often a thunk was held and the other one didn't come.
    given_up: AtomicU64,
}

/// How often the thread of a held thunk yields at most.
const MOST_YIELDS: u64 = 16_777_216;

/// The bit of a thunk, or 0 if its numbers are too large.
fn bit_of(thread: u8, number: u32) -> u64 {
    let place = u32::from(thread).saturating_mul(8).saturating_add(number);
    if number < 8 {
        1u64.checked_shl(place).unwrap_or(0)
    } else {
        0
    }
}

impl Meeting {
    /// Holds a thunk until another one comes, for at most `MOST_YIELDS` yields.
    fn hold(&self, other: u64) {
        for _ in 0..MOST_YIELDS {
            if self.came.load(Ordering::SeqCst) & other != 0 {
                return;
            }
            yield_now();
        }
        self.given_up.fetch_add(1, Ordering::SeqCst);
    }
}

impl Gate for Meeting {
    fn enter(&self, thread: u8, number: u32) {
        self.came.fetch_or(bit_of(thread, number), Ordering::SeqCst);
        match (thread, number) {
            (0, 1) => self.hold(bit_of(1, 0)),
            (1, 0) => self.hold(bit_of(0, 1)),
            _ => {}
        }
    }
}

/// The thunks of the guest of two adding threads: six of thread 0, and three of each other.
const OF_PAIR: u64 = 0x07_07_3f;

/// How many steps workers made together.
fn total(worker_steps: &[u64]) -> u64 {
    let mut sum = 0u64;
    for share in worker_steps {
        sum = sum.saturating_add(*share);
    }
    sum
}

/// Whether a report has twelve steps and two workers, each of which made at least one.
fn is_shared(alloc: Global, report: &[u8]) -> Result<bool, AllocError> {
    let reported = worker_steps(alloc, report)?;
    Ok(reported.len() == 2 && !reported.contains(&0) && total(&reported) == 12)
}

#[test]
fn two_workers_execute_at_once(rt: HostRuntime) -> Result<(), Fail> {
    let alloc = rt.alloc();
    let mut host = host_with_guests(alloc)?;
    let gate = Meeting {
        came: AtomicU64::new(0),
        given_up: AtomicU64::new(0),
    };
    let line = "ithreads run pair pages --workers 2";
    let status = status_at(&rt, alloc, &mut host, line, &gate)?;
    assert!(rt; status == 0 && gate.given_up.load(Ordering::SeqCst) == 0);
    assert!(rt; gate.came.load(Ordering::SeqCst) == OF_PAIR);
    let begins = b"round 0\nend exit 0\nsteps 12\nreused 0\nexecuted 12\ninstructions 51\nby ";
    assert!(rt; host.printed().starts_with(begins) && is_shared(alloc, host.printed())?);
    assert!(rt; host.printed().ends_with(b"\noutput 4\n\x0c\x00\x00\x00\n"));
    Ok(())
}

/// A gate that counts the thunks that come to it.
#[derive(Drop)]
struct Counting {
    count: AtomicU64,
}

impl Gate for Counting {
    fn enter(&self, _thread: u8, _number: u32) {
        self.count.fetch_add(1, Ordering::SeqCst);
    }
}

#[test]
fn a_rerun_without_an_edit_enters_nothing(rt: HostRuntime) -> Result<(), Fail> {
    let alloc = rt.alloc();
    let mut host = host_with_guests(alloc)?;
    let line = "ithreads run pair pages --workers 4 --memo m";
    assert!(rt; status_of(&rt, alloc, &mut host, line)? == 0);
    let gate = Counting {
        count: AtomicU64::new(0),
    };
    let line = "ithreads rerun m --workers 4";
    let status = status_at(&rt, alloc, &mut host, line, &gate)?;
    assert!(rt; status == 0 && gate.count.load(Ordering::SeqCst) == 0);
    let again = text_from(host.printed(), b"round 1\n");
    let begins = b"round 1\nend exit 0\nsteps 12\nreused 12\nexecuted 0\ninstructions 0\nby ";
    assert!(rt; again.starts_with(begins));
    assert!(rt; schedule(alloc, again)? == schedule(alloc, host.printed())?);
    assert!(rt; line_after(again, b"memory ") == line_after(host.printed(), b"memory "));
    Ok(())
}
