//! What several modules of tests begin with: the guest `hi`, which outputs 3 bytes by 5 instructions and exits by 3
//! more, and records and a history of it that are made by hand. Its file is written byte by byte from the System V gABI
//! and the ISA's text.

ghost use Rattle.std.specs.Prelude.{◌≡◌, ◌<◌, All, IfOk};
ghost use Rattle.std.specs.Arc.{arc_value};
ghost use Rattle.history_spec.specs.History.{IsMappedIn};

use machine_spec::{End, Limits};
use page_store::{Delta, Page, PageDelta, ReadPage, Reads, StoredPage};
use propagate::Round;
use report_spec::Entry;
use run_history::{History, Records, Setup};
use rv_isa::Regs;
use std::alloc::{AllocError, Global};
use std::sync::Arc;
use std::test::Fail;
use thunk_record::{Kept, Record};
use thunk_spec::ThunkEnd;

/// lui a0,0x10; addi a0,a0,0x20; addi a1,x0,3; addi a7,x0,1; ecall; addi a0,x0,0; addi a7,x0,0;
/// ecall; and "hi\n", in one segment at 0x10000.
const HI: [u8; 119] = [
    0x7f, 0x45, 0x4c, 0x46, 0x01, 0x01, 0x01, 0x00, 0x00, 0x00, 0x00, 0x00, 0x00, 0x00, 0x00, 0x00,
    0x02, 0x00, 0xf3, 0x00, 0x01, 0x00, 0x00, 0x00, 0x00, 0x00, 0x01, 0x00, 0x34, 0x00, 0x00, 0x00,
    0x00, 0x00, 0x00, 0x00, 0x00, 0x00, 0x00, 0x00, 0x34, 0x00, 0x20, 0x00, 0x01, 0x00, 0x00, 0x00,
    0x00, 0x00, 0x00, 0x00, 0x01, 0x00, 0x00, 0x00, 0x54, 0x00, 0x00, 0x00, 0x00, 0x00, 0x01, 0x00,
    0x00, 0x00, 0x01, 0x00, 0x23, 0x00, 0x00, 0x00, 0x23, 0x00, 0x00, 0x00, 0x07, 0x00, 0x00, 0x00,
    0x04, 0x00, 0x00, 0x00, 0x37, 0x05, 0x01, 0x00, 0x13, 0x05, 0x05, 0x02, 0x93, 0x05, 0x30, 0x00,
    0x93, 0x08, 0x10, 0x00, 0x73, 0x00, 0x00, 0x00, 0x13, 0x05, 0x00, 0x00, 0x93, 0x08, 0x00, 0x00,
    0x73, 0x00, 0x00, 0x00, 0x68, 0x69, 0x0a,
];

/// The setup of the guest with no input and with so much fuel: slot 0 is its page, slots 1 to 257 are of the input, and
/// slots 258 to 769 of the stacks.
pub(super) fn setup(alloc: Global, fuel: u32) -> Result<Setup, Fail> {
    let elf = Vec::from_array(alloc, HI)?;
    match Limits::new(fuel, 4096) {
        Some(limits) if elf.len() <= 4096 => {
            match Setup::new(alloc, elf, Vec::new(alloc), limits) {
                Ok(setup) => Ok(setup),
                Err(_) => Err(Fail::new("the guest isn't taken")),
            }
        }
        _ => Err(Fail::new("the limits aren't taken")),
    }
}

/// A page of zeros that was read.
fn reads_of(alloc: Global, slot: usize) -> Result<Reads, AllocError>
    requires { slot < 769 }
    ensures { IfOk result (λ reads. All (λ p. p.slot < 769) reads) }
{
    let mut pages = Vec::new(alloc);
    pages.push(ReadPage::new(slot, Arc::new(alloc, Page::zero())?))?;
    Ok(Reads::new(pages))
}

/// A page to which a zero was stored.
fn delta_of(alloc: Global, slot: usize) -> Result<Delta, AllocError>
    requires { slot < 769 }
    ensures { IfOk result (λ delta. All (λ d. d.slot < 769) delta) }
{
    let mut stored = StoredPage::of(&Page::zero());
    stored.mask.set(4);
    let mut pages = Vec::new(alloc);
    if !stored.mask.is_empty() {
        pages.push(PageDelta::new(alloc, slot, Box::new(alloc, stored)?)?)?;
    }
    Ok(Delta::new(pages))
}

/// A call: the values of a7, a0 and a1.
pub(super) type Words = [u32; 3];

/// These registers at an ECALL.
pub(super) fn calling(mut regs: Regs, call: Words) -> Regs {
    let [number, first, second] = call;
    regs.set(17, number);
    regs.set(10, first);
    regs.set(11, second);
    regs
}

/// A record that ends by a call, after it read the page in a slot and stored to the one a hundred slots on.
pub(super) fn record_of(
    alloc: Global,
    thread: u8,
    number: u32,
    slot: usize,
    start: Regs,
    call: Words,
) -> Result<Arc<Record>, AllocError>
    requires { slot < 600 }
    ensures thread { IfOk result (λ r. (arc_value r).thread ≡ thread) }
    ensures number { IfOk result (λ r. (arc_value r).number ≡ number) }
    ensures mapped { IfOk result (λ r. IsMappedIn 769 (arc_value r)) }
{
    let kept = Kept {
        reads: reads_of(alloc, slot)?,
        delta: delta_of(alloc, slot + 100)?,
        finish: calling(start, call),
        end: ThunkEnd::Call,
        count: 1,
    };
    let rec = Arc::new(alloc, Record::new(thread, number, start, kept))?;
    Ok(rec)
}

/// The history of two records of thread 0 and one of thread 1.
pub(super) fn history_of(
    alloc: Global,
    first: Arc<Record>,
    second: Arc<Record>,
    third: Arc<Record>,
) -> Result<History, Fail>
    requires first_thread { (arc_value first).thread ≡ 0 }
    requires second_thread { (arc_value second).thread ≡ 0 }
    requires third_thread { (arc_value third).thread ≡ 1 }
    requires first_number { (arc_value first).number ≡ 0 }
    requires second_number { (arc_value second).number ≡ 1 }
    requires third_number { (arc_value third).number ≡ 0 }
    requires first_mapped { IsMappedIn 769 (arc_value first) }
    requires second_mapped { IsMappedIn 769 (arc_value second) }
    requires third_mapped { IsMappedIn 769 (arc_value third) }
{
    let setup = setup(alloc, 1_000_000)?;
    let mut records = Records::new(alloc);
    records.push(first)?;
    records.push(second)?;
    records.push(third)?;
    Ok(History::new(setup, records))
}

/// Whether a round ended, all of whose steps are of thread 0 and have these marks, after this many executed
/// instructions and discarded steps.
pub(super) fn is_round(round: &Round, marks: &[bool], instructions: u64, discarded: u64) -> bool {
    are_marks(round.schedule(), marks)
        && round.instructions() == instructions
        && round.discarded() == discarded
        && round.end() == Some(End::Exit(0))
        && round.output() == b"hi\n".as_slice()
}

/// Whether the steps of a schedule are of thread 0 and have these marks.
fn are_marks(schedule: &[Entry], marks: &[bool]) -> bool {
    for (entry, reused) in schedule.iter().zip(marks.iter()) {
        if entry.thread != 0 || entry.reused != *reused {
            return false;
        }
    }
    schedule.len() == marks.len()
}
