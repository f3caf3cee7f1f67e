//! An edit that reaches a step that writes a page, and itself wakes the page's reader.

use super::rounds::{driven, history_of, scheduled};
use history_facts::steps_reached;
use machine_spec::End;
use propagate::Round;
use round_spec::Event;
use std::test::Fail;
use worked_guests::{Guest, Line, Register};

/// The first thread stores the input's byte, and posts to the semaphore at which the second one waits; so that one is
/// woken by the very step that wrote what it loads, and ends with the byte.
const WAKING: Guest = Guest {
    lines: &[
        Line::Lui(Register::A0, 0x10),
        Line::Addi(Register::A0, Register::A0, 0x44),
        Line::Call(2),
        Line::Lui(Register::T0, 0xc0001),
        Line::Lbu(Register::T1, 0, Register::T0),
        Line::Lui(Register::T0, 0x11),
        Line::Sb(Register::T1, 0, Register::T0),
        Line::Addi(Register::A0, Register::Zero, 0),
        Line::Call(11),
        Line::Addi(Register::A0, Register::Zero, 1),
        Line::Call(4),
        Line::Addi(Register::A0, Register::A1, 0),
        Line::Call(0),
        Line::Addi(Register::A0, Register::Zero, 0),
        Line::Call(9),
        Line::Lui(Register::T0, 0x11),
        Line::Lbu(Register::A0, 0, Register::T0),
        Line::Call(3),
    ],
    bss: 8096,
};

/// A schedule of it: entry 1 waits, entry 2 writes and wakes, and entry 3 reads.
const WOKEN: [u8; 6] = [0, 1, 0, 1, 0, 0];

/// Reuses the first two of these steps, and executes the others.
const EVENTS: [Event; 10] = [
    Event::Reuse(0),
    Event::Reuse(1),
    Event::Take(0),
    Event::Commit(0),
    Event::Take(1),
    Event::Commit(1),
    Event::Take(0),
    Event::Commit(0),
    Event::Take(0),
    Event::Commit(0),
];

/// Whether a round has these marks.
fn has_marks(round: &Round, marks: &[bool]) -> bool {
    let reused = round.schedule().iter().map(|entry| entry.reused);
    reused.eq(marks.iter().copied())
}

// Entry 2 reads the input's page, which is changed, and writes a page. Entry 3 reads that page in the view that entry 2
// gave it. Entries 4 and 5 come after entry 2 in its thread. So four steps are reached, and no record of them fits.
#[test]
fn who_wakes_the_reader_of_what_it_wrote_leads_to_it(rt: HostRuntime) -> Result<(), Fail> {
    let alloc = rt.alloc();
    let past = history_of(alloc, scheduled(&rt, alloc, WAKING, b"\x05", &WOKEN)?)?;
    let round = driven(&rt, alloc, WAKING, b"\x08", Some(past), &EVENTS)?;
    assert!(rt; steps_reached(alloc, round.past(), round.setup())? == 4);
    assert!(rt; has_marks(&round, &[true, true, false, false, false, false]));
    assert!(rt; round.end() == Some(End::Exit(8)));
    Ok(())
}
