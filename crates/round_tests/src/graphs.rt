//! Small graphs by hand, and large ones, with ample memory.

use depend_graph::*;
use guest_call::{Object, THREADS};
use std::alloc::{AllocError, Global};
use std::process::Abort;
use sync_objects::ActedOn;

/// A step of a thread that does nothing.
fn step(alloc: Global, thread: u8) -> Fact {
    Fact {
        thread,
        objects: ActedOn::Nothing,
        given: Vec::new(alloc),
        written: Vec::new(alloc),
        opened: Vec::new(alloc),
        last: false,
    }
}

/// A step of a thread that acts on these objects.
fn acting(alloc: Global, thread: u8, objects: ActedOn) -> Fact {
    let mut fact = step(alloc, thread);
    fact.objects = objects;
    fact
}

/// A step of a thread that writes a page.
fn writing(alloc: Global, thread: u8, slot: usize) -> Result<Fact, AllocError> {
    let mut fact = step(alloc, thread);
    fact.written.push(slot)?;
    Ok(fact)
}

/// The graph of facts that may have one.
fn graph_of(rt: &impl Abort, alloc: Global, facts: Vec<Fact>) -> Result<Graph, AllocError> {
    assert!(rt; facts.len() <= MOST_FACTS);
    for fact in &facts {
        assert!(rt; usize::from(fact.thread) < THREADS);
    }
    Graph::of(alloc, facts)
}

/// Whether the clock of a step has this count of a thread.
fn counts(graph: &Graph, step: usize, thread: u8, count: u32) -> bool {
    step < graph.len() && usize::from(thread) < THREADS && graph.clock(step).count(thread) == count
}

/// The steps with an edge to a step; of no step, none.
fn before(alloc: Global, graph: &Graph, step: usize) -> Result<Vec<usize>, AllocError> {
    if step < graph.len() {
        graph.edges(step)
    } else {
        Ok(Vec::new(alloc))
    }
}

/// As many facts as a graph may have, all of one thread that does nothing.
fn longest(alloc: Global) -> Result<Vec<Fact>, AllocError> {
    let mut facts = Vec::new(alloc);
    for _ in 0..MOST_FACTS {
        facts.push(step(alloc, 3))?;
    }
    Ok(facts)
}

#[test]
fn steps_of_one_thread_count_up(rt: HostRuntime) -> Result<(), AllocError> {
    let alloc = rt.alloc();
    let graph = graph_of(&rt, alloc, longest(alloc)?)?;
    assert!(rt; graph.len() == 65_536);
    assert!(rt; counts(&graph, 0, 3, 1));
    assert!(rt; counts(&graph, 65_535, 3, 65_536));
    assert!(rt; counts(&graph, 65_535, 2, 0));
    Ok(())
}

/// A fact of each thread, which writes one page.
fn writers(alloc: Global) -> Result<Vec<Fact>, AllocError> {
    let mut facts = Vec::new(alloc);
    for thread in 0..32u8 {
        facts.push(writing(alloc, thread, 7)?)?;
    }
    Ok(facts)
}

#[test]
fn threads_that_write_one_page_come_in_turn(rt: HostRuntime) -> Result<(), AllocError> {
    let alloc = rt.alloc();
    let graph = graph_of(&rt, alloc, writers(alloc)?)?;
    for thread in 0..32u8 {
        assert!(rt; counts(&graph, 31, thread, 1), "of thread {thread}");
    }
    assert!(rt; counts(&graph, 20, 20, 1));
    assert!(rt; counts(&graph, 20, 21, 0));
    assert!(rt; before(alloc, &graph, 3)?.as_slice() == [0, 1, 2].as_slice());
    Ok(())
}

/// A step of thread 0 that gives thread 1 a view, and opens page 4 for it.
fn giving(alloc: Global) -> Result<Fact, AllocError> {
    let mut fact = step(alloc, 0);
    fact.given.push(1)?;
    fact.opened.push(4)?;
    Ok(fact)
}

/// The step of `giving`, those of two threads that act on one mutex, that of one that writes page 4, and the last.
fn cases(alloc: Global) -> Result<Vec<Fact>, AllocError> {
    let mutex = Object::Mutex(5);
    let mut last = step(alloc, 4);
    last.last = true;
    let facts = vec![in alloc;
        giving(alloc)?,
        acting(alloc, 1, ActedOn::One(mutex)),
        acting(alloc, 2, ActedOn::Two(Object::Condition(5), mutex)),
        writing(alloc, 3, 4)?,
        last,
    ]?;
    Ok(facts)
}

// thread 2 comes after thread 0 by way of thread 1
#[test]
fn each_case_makes_an_edge(rt: HostRuntime) -> Result<(), AllocError> {
    let alloc = rt.alloc();
    let graph = graph_of(&rt, alloc, cases(alloc)?)?;
    for (step, edges) in [
        (1, [0].as_slice()),
        (2, [1].as_slice()),
        (3, [0].as_slice()),
        (4, [0, 1, 2, 3].as_slice()),
    ] {
        assert!(rt;
            before(alloc, &graph, step)?.as_slice() == edges,
            "of {step}"
        );
    }
    assert!(rt; counts(&graph, 2, 0, 1));
    assert!(rt; counts(&graph, 3, 1, 0));
    Ok(())
}

/// Steps of three threads: the first of thread 0, which writes page 2 and wakes thread 1; of thread 1, of thread 0, and
/// of thread 2.
fn waking(alloc: Global) -> Result<Vec<Fact>, AllocError> {
    let mut waker = writing(alloc, 0, 2)?;
    waker.given.push(1)?;
    let facts = vec![in alloc; waker, step(alloc, 1), step(alloc, 0), step(alloc, 2)]?;
    Ok(facts)
}

/// The pages that they read.
fn reads_of(alloc: Global) -> Result<Vec<Vec<usize>>, AllocError> {
    let reads = vec![in alloc;
        Vec::from_slice(alloc, &[1])?,
        Vec::from_slice(alloc, &[2])?,
        Vec::new(alloc),
        Vec::from_slice(alloc, &[2])?,
    ]?;
    Ok(reads)
}

// Page 1 is changed, which thread 0 reads; thread 1 reads page 2: so both are reached, and the step of thread 0 after
// its first, which reads nothing.
#[test]
fn a_reached_step_wakes_the_reader_of_what_it_wrote(rt: HostRuntime) -> Result<(), AllocError> {
    let alloc = rt.alloc();
    let graph = graph_of(&rt, alloc, waking(alloc)?)?;
    let reads = reads_of(alloc)?;
    assert!(rt; graph.len() == reads.len());
    let flags = graph.reach(&reads, &[1])?;
    assert!(rt; flags.as_slice() == [true, true, true, false].as_slice());
    Ok(())
}
