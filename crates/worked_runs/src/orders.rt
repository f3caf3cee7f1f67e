//! Old steps in another order: if two neighbours are exchanged of which neither must come before the other, all steps
//! are still reused.

ghost use Rattle.std.specs.Prelude.{◌<◌, length};

use super::lines::two_pages;
use super::rounds::{driven, history_of, scheduled};
use depend_graph::Graph;
use history_facts::graph_of;
use machine_spec::End;
use propagate::Round;
use round_spec::Event;
use run_history::History;
use std::alloc::{AllocError, Global};
use std::process::Abort;
use std::sync::Arc;
use std::test::Fail;
use std::thread::Threads;
use worked_guests::guests::PAIR;
use worked_guests::{Guest, Line, Register};

/// The schedule of a run of the guest whose two threads add up what they are given: entry 3 blocks on the mutex, and
/// entry 4 hands it over.
const PAIRED: [u8; 12] = [0, 1, 0, 2, 1, 2, 0, 1, 2, 0, 0, 0];

/// The entries of it that the next one needn't follow: entry 1 locks the mutex, and entry 2 creates the second thread;
/// entry 5 unlocks the mutex, and entry 6 waits for the first thread.
const FREE_IN_PAIRED: [usize; 2] = [1, 5];

/// Two threads yield, meet their creator at a barrier of three, and wait for its broadcast under a mutex.
const MEETING: Guest = Guest {
    lines: &[
        Line::Lui(Register::A0, 0x10),
        Line::Addi(Register::A0, Register::A0, 0x6c),
        Line::Call(2),
        Line::Lui(Register::A0, 0x10),
        Line::Addi(Register::A0, Register::A0, 0x6c),
        Line::Call(2),
        Line::Addi(Register::A0, Register::Zero, 0),
        Line::Addi(Register::A1, Register::Zero, 3),
        Line::Call(13),
        Line::Addi(Register::A0, Register::Zero, 0),
        Line::Call(14),
        Line::Addi(Register::A0, Register::Zero, 0),
        Line::Call(17),
        Line::Addi(Register::A0, Register::Zero, 1),
        Line::Call(4),
        Line::Addi(Register::A0, Register::Zero, 2),
        Line::Call(4),
        Line::Addi(Register::A0, Register::Zero, 0),
        Line::Call(0),
        Line::Call(5),
        Line::Addi(Register::A0, Register::Zero, 0),
        Line::Call(14),
        Line::Addi(Register::A0, Register::Zero, 0),
        Line::Call(6),
        Line::Addi(Register::A0, Register::Zero, 0),
        Line::Addi(Register::A1, Register::Zero, 0),
        Line::Call(15),
        Line::Addi(Register::A0, Register::Zero, 0),
        Line::Call(8),
        Line::Addi(Register::A0, Register::Zero, 0),
        Line::Call(3),
    ],
    bss: 0,
};

/// A schedule of it: entry 7 opens the barrier, and entry 12 wakes both, one of which moves on to the mutex's queue.
const MET: [u8; 20] = [0, 0, 0, 1, 2, 1, 2, 0, 1, 1, 2, 2, 0, 1, 2, 1, 2, 0, 0, 0];

/// The entries of it that the next one needn't follow: entry 2 makes the barrier, entries 3 and 4 yield, and entry 5
/// comes to the barrier; entry 14 unlocks the mutex, and entry 15 ends the other thread.
const FREE_IN_MET: [usize; 4] = [2, 3, 4, 14];

/// Whether a step must come directly before the one at the next place.
fn is_followed(graph: &Graph, place: usize, next: usize) -> Result<bool, AllocError>
    requires { next < length graph.now }
{
    Ok(graph.edges(next)?.contains(&place))
}

/// The places of the steps that the next one needn't follow.
fn free_places(alloc: Global, graph: &Graph) -> Result<Vec<usize>, AllocError> {
    let mut places = Vec::new(alloc);
    for next in 1..graph.len() {
        let place = next - 1;
        if !is_followed(graph, place, next)? {
            places.push(place)?;
        }
    }
    Ok(places)
}

/// Events that reuse the steps of a schedule, with the one at a place and the next one exchanged.
fn exchanged(alloc: Global, schedule: &[u8], place: usize) -> Result<Vec<Event>, AllocError> {
    let mut events = Vec::new(alloc);
    for &thread in schedule {
        events.push(Event::Reuse(thread))?;
    }
    let next = place.saturating_add(1);
    if next < events.len() {
        events.swap(place, next);
    }
    Ok(events)
}

/// Whether a round reused each of its steps, and came to the same end, output and memory as another.
fn is_reused_whole(round: &Round, whole: &Round) -> bool {
    round.schedule().iter().all(|entry| entry.reused)
        && round.schedule().len() == whole.schedule().len()
        && round.end() == whole.end()
        && round.output() == whole.output()
        && *round.memory() == *whole.memory()
}

/// A run of a guest: its input, and the thread of each step.
#[derive(Clone, Copy)]
struct Run<'a> {
    guest: Guest,
    input: &'a [u8],
    schedule: &'a [u8],
}

/// Whether all of a run is reused if the step at a place and the next one are exchanged.
fn can_exchange<R: Threads>(
    rt: &R,
    alloc: Global,
    run: Run<'_>,
    history: &Arc<History>,
    place: usize,
) -> Result<bool, Fail> {
    let whole = scheduled(rt, alloc, run.guest, run.input, run.schedule)?;
    let events = exchanged(alloc, run.schedule, place)?;
    let past = Some(Arc::try_clone(history)?);
    let round = driven(rt, alloc, run.guest, run.input, past, &events)?;
    Ok(is_reused_whole(&round, &whole))
}

/// Compares the places of a run's steps that the next one needn't follow, and exchanges each such step and the next.
fn exchange_each<R: Threads + Abort>(
    rt: &R,
    alloc: Global,
    run: Run<'_>,
    places: &[usize],
) -> Result<(), Fail> {
    let whole = scheduled(rt, alloc, run.guest, run.input, run.schedule)?;
    assert!(rt; whole.end() == Some(End::Exit(0)));
    assert!(rt; whole.schedule().len() == run.schedule.len());
    let history = history_of(alloc, whole)?;
    let graph = graph_of(alloc, &history)?;
    assert!(rt; free_places(alloc, &graph)?.as_slice() == places);
    for place in places {
        assert!(rt;
            can_exchange(rt, alloc, run, &history, *place)?,
            "at entry {place}"
        );
    }
    Ok(())
}

#[test]
fn neighbours_that_share_nothing_can_be_exchanged(rt: HostRuntime) -> Result<(), Fail> {
    let alloc = rt.alloc();
    let input = two_pages(alloc, 7)?;
    let run = Run {
        guest: PAIR,
        input: &input,
        schedule: &PAIRED,
    };
    exchange_each(&rt, alloc, run, &FREE_IN_PAIRED)
}

#[test]
fn neighbours_at_a_barrier_and_a_broadcast_can_be_exchanged(rt: HostRuntime) -> Result<(), Fail> {
    let run = Run {
        guest: MEETING,
        input: b"",
        schedule: &MET,
    };
    exchange_each(&rt, rt.alloc(), run, &FREE_IN_MET)
}

// Entry 5 is the second thread's second step: before it come both of its own, and two of the first thread's, of which
// entry 4 handed it the mutex.
#[test]
fn clocks_count_what_comes_before(rt: HostRuntime) -> Result<(), Fail> {
    let alloc = rt.alloc();
    let round = scheduled(&rt, alloc, PAIR, &two_pages(alloc, 7)?, &PAIRED)?;
    let history = history_of(alloc, round)?;
    let graph = graph_of(alloc, &history)?;
    assert!(rt; graph.len() == 12);
    assert!(rt; graph.clock(5).count(1) == 2);
    assert!(rt; graph.clock(5).count(2) == 2);
    assert!(rt; is_followed(&graph, 4, 5)?);
    Ok(())
}
