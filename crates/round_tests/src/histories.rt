//! The facts of three records that are made by hand: two of thread 0, and the first of thread 1. They follow from the
//! calls alone, since no thunk is run.

use super::fixtures::{Words, calling, history_of, record_of};
use depend_graph::Fact;
use guest_call::Object;
use history_facts::facts;
use rv_isa::Regs;
use std::alloc::Global;
use std::process::Abort;
use std::test::Fail;
use sync_objects::ActedOn;

/// The first registers of a thread that begins at 0x10000.
fn first(stack_end: u32, thread: u32, argument: u32) -> Regs {
    let mut regs = Regs::new(0x1_0000);
    regs.set(2, stack_end);
    regs.set(4, thread);
    regs.set(10, argument);
    regs
}

/// These registers after a call returned.
fn returned(mut regs: Regs, answer: u32) -> Regs {
    let next = regs.pc().wrapping_add(4);
    regs.set(10, answer);
    regs.set_pc(next);
    regs
}

/// The facts of three calls, if the first one has this answer.
fn facts_of(alloc: Global, calls: [Words; 3], answer: u32) -> Result<Vec<Fact>, Fail> {
    let [create, next, other] = calls;
    let start = first(0xD001_0000, 0, 0xC000_0000);
    let after = returned(calling(start, create), answer);
    let history = history_of(
        alloc,
        record_of(alloc, 0, 0, 300, start, create)?,
        record_of(alloc, 0, 1, 301, after, next)?,
        record_of(alloc, 1, 0, 302, first(0xD002_0000, 1, 0), other)?,
    )?;
    Ok(facts(alloc, &history)?.facts)
}

/// What is known by hand of a fact: its objects, the threads that are given a view, the opened slots, and whether it is
/// the last.
type Known = (ActedOn, &'static [u8], &'static [usize], bool);

const THREADS: ActedOn = ActedOn::One(Object::ThreadTable);

const BARE: Known = (ActedOn::Nothing, &[], &[], false);

const LAST: Known = (ActedOn::Nothing, &[], &[], true);

const CREATES: Known = (THREADS, &[0, 1], &[301, 302], false);

/// Whether the fact at a place is the known one.
fn is_known(fact: &Fact, place: usize, known: &Known) -> bool {
    let (objects, given, opened, last) = *known;
    fact.objects == objects
        && fact.given.as_slice() == given
        && fact.opened.as_slice() == opened
        && fact.written.as_slice() == [place.saturating_add(400)].as_slice()
        && fact.last == last
}

/// Compares the facts of three calls, of which the last one is of thread 1.
fn compare<R: Abort>(rt: &R, facts: &[Fact], known: &[Known; 3]) {
    assert!(rt; facts.len() == 3);
    for (place, (fact, row)) in facts.iter().zip(known.iter()).enumerate() {
        assert!(rt; fact.thread == u8::from(place == 2), "at {place}");
        assert!(rt; is_known(fact, place, row), "at {place}");
    }
}

/// Creates a thread at 0x10000.
const CREATE: Words = [2, 0x1_0000, 0];

#[test]
fn calls_report_their_facts(rt: HostRuntime) -> Result<(), Fail> {
    let alloc = rt.alloc();
    // One locks a mutex, and the other exits.
    let lock = (
        ActedOn::One(Object::Mutex(0)),
        [0].as_slice(),
        [].as_slice(),
        false,
    );
    let found = facts_of(alloc, [CREATE, [6, 0, 0], [0, 0, 0]], 1)?;
    compare(&rt, found.as_slice(), &[CREATES, lock, LAST]);
    // One waits for the end of the other, which wakes it.
    let found = facts_of(alloc, [CREATE, [4, 1, 0], [3, 7, 0]], 1)?;
    let wakes = (THREADS, [0].as_slice(), [].as_slice(), false);
    let joins = (THREADS, [].as_slice(), [].as_slice(), false);
    compare(&rt, found.as_slice(), &[CREATES, joins, wakes]);
    Ok(())
}

#[test]
fn put_acts_on_the_output(rt: HostRuntime) -> Result<(), Fail> {
    let put = (
        ActedOn::One(Object::Output),
        [0].as_slice(),
        [301].as_slice(),
        false,
    );
    let found = facts_of(rt.alloc(), [[1, 0x1_0020, 3], [0, 0, 0], [0, 0, 0]], 3)?;
    compare(&rt, found.as_slice(), &[put, LAST, BARE]);
    Ok(())
}

#[test]
fn facts_are_bare_from_a_record_on_that_does_not_fit(rt: HostRuntime) -> Result<(), Fail> {
    let found = facts_of(rt.alloc(), [CREATE, [6, 0, 0], [0, 0, 0]], 2)?;
    compare(&rt, found.as_slice(), &[CREATES, BARE, BARE]);
    Ok(())
}
