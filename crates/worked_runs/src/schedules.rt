//! Small guests under given orders: how far each is permitted, and that both of two bytes are kept.

use super::rounds::{driven, scheduled};
use machine_spec::End;
use page_store::PageTable;
use propagate::Round;
use round_spec::Event;
use std::test::Fail;
use worked_guests::guests::{BYTES, CROSS};

/// A schedule of the guest whose two threads take two mutexes in opposite order, how many of its steps are permitted,
/// how many instructions they execute, and the end, if there is one.
type Row = (&'static [u8], usize, u64, Option<End>);

const CROSSED: [Row; 5] = [
    (&[0, 0, 1, 0, 1], 5, 17, Some(End::Deadlock)),
    (
        &[0, 0, 0, 0, 0, 1, 1, 1, 1, 1, 0, 0],
        12,
        38,
        Some(End::Exit(0)),
    ),
    (&[0, 0, 1, 0, 1, 0], 5, 17, Some(End::Deadlock)),
    (&[0, 0, 1], 3, 11, None),
    (&[1], 0, 0, None),
];

/// Whether a round has this many steps and instructions, and this end.
fn is_followed(round: &Round, steps: usize, instructions: u64, end: Option<End>) -> bool {
    round.schedule().len() == steps && round.instructions() == instructions && round.end() == end
}

#[test]
fn schedules_are_followed_as_far_as_they_are_permitted(rt: HostRuntime) -> Result<(), Fail> {
    for (schedule, steps, instructions, end) in CROSSED {
        let round = scheduled(&rt, rt.alloc(), CROSS, b"", schedule)?;
        assert!(rt;
            is_followed(&round, steps, instructions, end),
            "at {schedule:?}"
        );
    }
    Ok(())
}

/// The byte at an offset of the page at a slot, if there is that page.
fn byte_at(memory: &PageTable, slot: usize, offset: usize) -> Option<u8> {
    if slot < memory.len() && offset < 4096 {
        Some(memory.page(slot).get(offset))
    } else {
        None
    }
}

/// Two threads store a byte each into one page; the second is executed on a view that was given before the first one's
/// byte was committed, and both bytes are kept.
const INTERLEAVED: [Event; 16] = [
    Event::Take(0),
    Event::Commit(0),
    Event::Take(0),
    Event::Commit(0),
    Event::Take(1),
    Event::Take(2),
    Event::Commit(1),
    Event::Commit(2),
    Event::Take(0),
    Event::Commit(0),
    Event::Take(0),
    Event::Commit(0),
    Event::Take(0),
    Event::Commit(0),
    Event::Take(0),
    Event::Commit(0),
];

/// Whether both bytes are in the output and in memory.
fn has_both_bytes(round: &Round) -> bool {
    round.output() == b"\x11\x12".as_slice()
        && byte_at(round.memory(), 1, 0) == Some(0x11)
        && byte_at(round.memory(), 1, 1) == Some(0x12)
}

#[test]
fn masked_commits_keep_both_bytes(rt: HostRuntime) -> Result<(), Fail> {
    let alloc = rt.alloc();
    let round = driven(&rt, alloc, BYTES, b"", None, &INTERLEAVED)?;
    let in_order = scheduled(&rt, alloc, BYTES, b"", &[0, 0, 1, 2, 0, 0, 0, 0])?;
    assert!(rt; is_followed(&round, 8, 35, Some(End::Exit(0))));
    assert!(rt; has_both_bytes(&round));
    assert!(rt; is_followed(&in_order, 8, 35, Some(End::Exit(0))));
    assert!(rt; *round.memory() == *in_order.memory());
    Ok(())
}
