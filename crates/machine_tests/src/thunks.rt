//! Three small guests, run for one thunk. The values were worked out by hand from the ISA's text.

ghost use Rattle.std.specs.Prelude.{◌≡◌, ◌<◌};

use super::fixtures::HI;
use page_store::{MappedPage, Page, PageMap, PageTable, Perm};
use rv_code::Code;
use rv_isa::{Regs, Turns};
use std::alloc::{AllocError, Global};
use std::sync::Arc;
use std::sync::atomic::{AtomicU64, Ordering};
use std::thread::Threads;
use thunk_record::{Frame, Job};
use thunk_run::{LONG_TURNS, Run, Watch, execute, execute_watched};
use thunk_spec::ThunkEnd;

/// lui t0,0x10; lw t1,0x18(t0); sw t1,0x10(t0); addi a7,x0,0; addi a0,x0,1; ecall; and the word of
/// addi a0,x0,9.
const SELF: [u8; 28] = [
    0xb7, 0x02, 0x01, 0x00, 0x03, 0xa3, 0x82, 0x01, 0x23, 0xa8, 0x62, 0x00, 0x93, 0x08, 0x00, 0x00,
    0x13, 0x05, 0x10, 0x00, 0x73, 0x00, 0x00, 0x00, 0x13, 0x05, 0x90, 0x00,
];

/// jal x0,0: a loop of one instruction.
pub(super) const LOOP: [u8; 4] = [0x6f, 0x00, 0x00, 0x00];

/// The first thunk of a guest with this code at 0x10000 and a page of zeros after it.
pub(super) fn job_of(alloc: Global, code: &[u8], fuel: u32) -> Result<Job, AllocError> {
    let mut bytes = [0; 4096];
    for (place, byte) in bytes.iter_mut().zip(code.iter()) {
        *place = *byte;
    }
    let pages = vec![in alloc;
        MappedPage::new(0x10, Perm::R | Perm::W | Perm::X),
        MappedPage::new(0x11, Perm::R | Perm::W),
    ]?;
    let map = Arc::new(alloc, PageMap::new(alloc, pages)?)?;
    let mut table = PageTable::empty(alloc);
    table.push(Page::new(bytes))?;
    table.push(Page::zero())?;
    let code = Arc::new(alloc, Code::of(alloc, &map, &table)?)?;
    let frame = Arc::new(alloc, Frame::new(map, fuel, code))?;
    let view = Arc::new(alloc, table)?;
    Ok(Job::new(frame, 3, 7, Regs::new(0x10000), view))
}

/// The first thunk of a guest with this code, run without a watch.
fn run_of<R: Threads>(rt: &R, alloc: Global, code: &[u8], fuel: u32) -> Result<Run, AllocError> {
    let job = job_of(alloc, code, fuel)?;
    execute(alloc, &job, &mut Turns::new(rt))
}

/// Whether a run ended in this way, after this many turns, at this pc.
fn is_ended(run: &Run, end: ThunkEnd, count: u32, pc: u32) -> bool {
    run.rec.end() == end && run.rec.count() == count && run.rec.finish().pc() == pc
}

#[test]
fn put_ends_the_first_thunk(rt: HostRuntime) -> Result<(), AllocError> {
    let run = run_of(&rt, rt.alloc(), &HI[84..], 100)?;
    assert!(rt; is_ended(&run, ThunkEnd::Call, 5, 0x10010));
    assert!(rt; run.rec.delta().pages().is_empty());
    let run = run_of(&rt, rt.alloc(), &HI[84..], 4)?;
    assert!(rt; is_ended(&run, ThunkEnd::Fuel, 4, 0x10010));
    Ok(())
}

/// Whether a run read its code as it was, and changed the byte at 0x12.
fn changed_its_code(run: &Run) -> bool {
    match (run.rec.reads().pages(), run.rec.delta().pages()) {
        ([read], [page]) => {
            read.slot() == 0
                && read.page().get(0x12) == 0x10
                && page.slot() == 0
                && page.written(&Page::zero()).get(0x12) == 0x90
        }
        _ => false,
    }
}

#[test]
fn stores_into_code_are_seen_and_kept(rt: HostRuntime) -> Result<(), AllocError> {
    let run = run_of(&rt, rt.alloc(), &SELF, 100)?;
    assert!(rt; is_ended(&run, ThunkEnd::Call, 6, 0x10014));
    assert!(rt; run.rec.finish().get(10) == 9);
    assert!(rt; changed_its_code(&run));
    Ok(())
}

/// A watch that counts its calls.
#[derive(Drop)]
struct CountingWatch {
    times: AtomicU64,
}

impl Watch for CountingWatch {
    fn runs_long(&self) {
        self.times.fetch_add(1, Ordering::SeqCst);
    }
}

/// The turns of the first thunk of a guest with this code, and how often it calls its watch.
fn times_called<R: Threads>(
    rt: &R,
    alloc: Global,
    code: &[u8],
    fuel: u32,
) -> Result<(u32, u64), AllocError> {
    let reported = CountingWatch {
        times: AtomicU64::new(0),
    };
    let job = job_of(alloc, code, fuel)?;
    let run = execute_watched(alloc, &job, &mut Turns::new(rt), &reported)?;
    Ok((run.rec.count(), reported.times.load(Ordering::SeqCst)))
}

#[test]
fn a_long_thunk_reports_to_its_watch_once(rt: HostRuntime) -> Result<(), AllocError> {
    assert!(&rt; times_called(&rt, rt.alloc(), &HI[84..], 1_000_000)? == (5, 0));
    for (fuel, times) in [(LONG_TURNS, 0), (LONG_TURNS + 1, 1), (1_000_000, 1)] {
        assert!(&rt; times_called(&rt, rt.alloc(), &LOOP, fuel)? == (fuel, times));
    }
    Ok(())
}
