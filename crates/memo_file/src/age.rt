//! Whether a memo is from before the standard extension M, or from before reader-writer locks.

ghost use Rattle.std.specs.Prelude.{◌≡◌, ◌<◌, ◌+◌, true, false, take, slice_get, slice_index_or, None, Some, IfOk, IfErr, if◌then◌else◌};
ghost use Rattle.std.specs.List.{count_by};
ghost use Rattle.memory_spec.specs.Pages.{AreAddressable};
ghost use Rattle.machine_spec.specs.Setup.{IsSetup, map_of};
ghost use Rattle.memo_spec.specs.Old.{is_of_m, stored_byte, read_byte, known_byte, whole_word, known_word, ends_at_m, is_before_m, ends_at_lock, is_before_locks, last_number};
ghost use Rattle.memo_spec.specs.Reading.{is_old_in};
ghost use Rattle.memo_spec.specs.declared.Refusal.TheVariants.{Old};
ghost use Rattle.memo_file.specs.declared.error.ReadError.TheVariants.{Refused};

use crate::error::ReadError;
use crate::pages::slot_or_end;
use isa_spec::Cause;
use memo_spec::{Format, Refusal};
use memory_spec::PAGE_SIZE;
use page_store::{PageDelta, PageMap, ReadPage};
use run_history::History;
use thunk_record::Record;
use thunk_spec::ThunkEnd;

/// Whether a word is an instruction of M (RISC-V unprivileged ISA 20191213, chapter 24, RV32M Standard Extension).
fn is_of_m(word: u32) -> bool
    ensures { result ≡ is_of_m word }
{
    word % 128 == 0b0110011 && word / 0x200_0000 == 0b0000001
}

/// The byte that was stored at a place of a page, if one was.
fn stored_in(page: &PageDelta, offset: usize) -> Option<u8>
    requires { offset < PAGE_SIZE }
    ensures { result ≡ (if slice_index_or page.now.mask offset false
        then slice_get page.now.bytes (count_by (λ mark. mark) (take offset page.now.mask))
        else None) }
{
    let stored = page.stored();
    let bytes = stored.page.bytes();
    if stored.mask.get(offset) {
        Some(bytes[offset])
    } else {
        None
    }
}

/// The byte that was stored at a place of the page in a slot, if one was.
fn stored_byte(pages: &[PageDelta], slot: usize, offset: usize) -> Option<u8>
    requires { offset < PAGE_SIZE }
    ensures { result ≡ stored_byte pages.now slot offset }
{
    for page in pages {
        if page.slot() == slot {
            return stored_in(page, offset);
        }
    }
    None
}

/// The byte at a place of a page that was read.
#[tactic(auto, using(std::proofs::lemmas::Option::gets))]
fn read_in(page: &ReadPage, offset: usize) -> Option<u8>
    requires { offset < PAGE_SIZE }
    ensures { result ≡ slice_get page.now.bytes offset }
{
    let bytes = page.page().bytes();
    Some(bytes[offset])
}

/// The byte at a place of the page in a slot, if that page was read.
fn read_byte(pages: &[ReadPage], slot: usize, offset: usize) -> Option<u8>
    requires { offset < PAGE_SIZE }
    ensures { result ≡ read_byte pages.now slot offset }
{
    for page in pages {
        if page.slot() == slot {
            return read_in(page, offset);
        }
    }
    None
}

/// The byte at an address that a record gives, as it was after its thunk: one that was stored, or else one that was
/// read.
fn known_byte(slots: &PageMap, rec: &Record, address: u64) -> Option<u8>
    requires { AreAddressable slots.now }
    ensures { result ≡ known_byte slots.now rec.now.kept address }
{
    let slot = slot_or_end(slots, address);
    let offset = (address % PAGE_SIZE as u64) as usize;
    match stored_byte(rec.delta().pages(), slot, offset) {
        Some(byte) => Some(byte),
        None => read_byte(rec.reads().pages(), slot, offset),
    }
}

/// The word of four bytes, the lowest first, if all are there.
fn whole_word(a: Option<u8>, b: Option<u8>, c: Option<u8>, d: Option<u8>) -> Option<u32>
    ensures { result ≡ whole_word a b c d }
{
    match (a, b, c, d) {
        (Some(a), Some(b), Some(c), Some(d)) => Some(
            u32::from(a)
                + u32::from(b) * 0x100
                + u32::from(c) * 0x1_0000
                + u32::from(d) * 0x100_0000,
        ),
        _ => None,
    }
}

/// The word at an address that a record gives, if it gives each of its bytes.
fn known_word(slots: &PageMap, rec: &Record, address: u32) -> Option<u32>
    requires { AreAddressable slots.now }
    ensures { result ≡ known_word slots.now rec.now.kept address }
{
    let first = u64::from(address);
    whole_word(
        known_byte(slots, rec, first),
        known_byte(slots, rec, first + 1),
        known_byte(slots, rec, first + 2),
        known_byte(slots, rec, first + 3),
    )
}

/// Whether a record ended by an illegal instruction, and gives an instruction of M at its last pc.
fn ends_at_m(slots: &PageMap, rec: &Record) -> bool
    requires { AreAddressable slots.now }
    ensures { result ≡ ends_at_m slots.now rec.now }
{
    match rec.end() {
        ThunkEnd::Trap(Cause::IllegalInstruction) => match known_word(
            slots,
            rec,
            rec.finish().pc(),
        ) {
            Some(word) => is_of_m(word),
            None => false,
        },
        _ => false,
    }
}

/// Refuses a history whose last record ended by an illegal instruction that is one of M today. Allocates no memory.
fn refuse_before_m(slots: &PageMap, history: &History) -> Result<(), ReadError>
    requires slots { slots.now ≡ map_of history.now.setup }
    requires sound { IsSetup history.now.setup }
    ensures today { IfOk result (λ _. is_before_m history.now ≡ false) }
    ensures before { IfErr result (λ e. (is_before_m history.now ≡ true)
        × (e ≡ Refused (Old (last_number history.now)))) }
{
    let records = history.records();
    let count = records.len();
    if count == 0 {
        return Ok(());
    }
    if ends_at_m(slots, records.at(count - 1)) {
        Err(ReadError::Refused(Refusal::Old((count - 1) as u32)))
    } else {
        Ok(())
    }
}

/// Whether a record ended by a call of a reader-writer lock.
fn ends_at_lock(rec: &Record) -> bool
    ensures { result ≡ ends_at_lock rec.now }
{
    match rec.end() {
        ThunkEnd::Call => (18..=21).contains(&rec.finish().get(17)),
        _ => false,
    }
}

/// Refuses a history whose last record ended by a call of a reader-writer lock. Allocates no memory.
fn refuse_before_locks(history: &History) -> Result<(), ReadError>
    ensures today { IfOk result (λ _. is_before_locks history.now ≡ false) }
    ensures before { IfErr result
        (λ e. (is_before_locks history.now ≡ true)
        × (e ≡ Refused (Old (last_number history.now)))) }
{
    let records = history.records();
    let count = records.len();
    if count == 0 {
        return Ok(());
    }
    if ends_at_lock(records.at(count - 1)) {
        Err(ReadError::Refused(Refusal::Old((count - 1) as u32)))
    } else {
        Ok(())
    }
}

/// Refuses a history that is old in a format. In version 2 none is. Allocates no memory.
pub fn refuse_old(format: Format, slots: &PageMap, history: &History) -> Result<(), ReadError>
    requires slots { slots.now ≡ map_of history.now.setup }
    requires sound { IsSetup history.now.setup }
    ensures today { IfOk result (λ _. is_old_in format history.now ≡ false) }
    ensures before { IfErr result
        (λ e. (is_old_in format history.now ≡ true)
        × (e ≡ Refused (Old (last_number history.now)))) }
{
    match format {
        Format::Version1 => {
            refuse_before_m(slots, history)?;
            refuse_before_locks(history)
        }
        Format::Version2 => Ok(()),
    }
}
