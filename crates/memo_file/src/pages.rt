//! The read pages of a record.

ghost use Rattle.std.specs.Prelude.{◌≡◌, ◌≢◌, ◌<◌, ◌^◌, true, suc, ℕ, List, length, map, IfOk, IfErr};
ghost use Rattle.std.specs.Arc.{arc_value};
ghost use Rattle.memory_spec.specs.Pages.{slot_of, AreAddressable};
ghost use Rattle.thunk_spec.specs.Ascending.{reads_ascend};
ghost use Rattle.thunk_spec.specs.Reads.{ReadPage as Read};
ghost use Rattle.memo_spec.specs.Reader.{onward, done, chain};
ghost use Rattle.memo_spec.specs.Reading.{slot_at, read_page_at};
ghost use Rattle.memo_file.specs.declared.error.ReadError.TheVariants as errors;
ghost use Rattle.memo_file.specs.Gives.{Gives};

use crate::error::ReadError;
use crate::fields::word;
use crate::growth::Sources;
use ith_text::Cursor;
use memo_spec::Refusal;
use memory_spec::PAGE_SIZE;
use page_store::{PageMap, ReadPage, Slot};
use std::alloc::Global;
use std::sync::Arc;

/// The slot of an address, or the number of pages if none has it, as for the address after the last one.
pub fn slot_or_end(slots: &PageMap, address: u64) -> usize
    requires { AreAddressable slots.now }
    ensures { result ≡ slot_of slots.now address }
{
    match u32::try_from(address) {
        Ok(address) => match slots.slot_of(address) {
            Some(slot) => slot,
            None => slots.len(),
        },
        Err(_) => slots.len(),
    }
}

/// A page number, from a slot on.
#[tactic(auto, unfolding(memo_spec::specs::Reading::slot_at), using(crate::proofs::Slots::slot_of_is))]
pub fn slot(cursor: &mut Cursor, slots: &PageMap, low: usize) -> Result<Slot, ReadError>
    requires small { AreAddressable slots.now }
    ensures mapped { IfOk result (λ s. s < length slots.now) }
    ensures bounded { IfOk result (λ s. length slots.now < 2 ^ 64) }
    ensures given { Gives (λ s. (s, cursor.new)) result (slot_at slots.now low cursor.old) }
    ensures no_memory { IfErr result (λ e. e ≢ errors.NoMemory) }
{
    let at = cursor.position();
    let number = word(cursor)?;
    let slot = slot_or_end(slots, u64::from(number) * PAGE_SIZE as u64);
    if low <= slot && slot < slots.len() {
        Ok(slot)
    } else {
        Err(ReadError::Refused(Refusal::Field(at)))
    }
}

/// A read page, and how many pages of the pool are used after it.
#[tactic(auto, unfolding(memo_spec::specs::Reading::read_page_at))]
fn read_page(
    cursor: &mut Cursor,
    sources: &Sources,
    low: usize,
    used: usize,
) -> Result<(ReadPage, usize), ReadError>
    requires small { AreAddressable sources.now.slots.now }
    ensures mapped { IfOk result (λ x. x.0.slot < length sources.now.slots.now) }
    ensures bounded { IfOk result (λ x. length sources.now.slots.now < 2 ^ 64) }
    ensures given { Gives
        (λ x. ((x.0, record { low = suc x.0.slot; used = x.1 }), cursor.new)) result
        (read_page_at sources.now.slots.now (map arc_value sources.now.pool.now)
        (record { low = low; used = used }) cursor.old) }
{
    let slot = slot(cursor, sources.slots, low)?;
    let at = cursor.position();
    let index = word(cursor)? as usize;
    if used < index || sources.pool.len() <= index {
        return Err(ReadError::Refused(Refusal::Field(at)));
    }
    let page = Arc::try_clone(&sources.pool[index])?;
    let used = if index == used { used + 1 } else { used };
    Ok((ReadPage::new(slot, page), used))
}

/// The next `count` read pages, whose slots ascend, and how many pages of the pool are used after them.
pub fn read_pages(
    alloc: Global,
    cursor: &mut Cursor,
    sources: &Sources,
    count: u16,
    used: usize,
) -> Result<(Vec<ReadPage>, usize), ReadError>
    requires small { AreAddressable sources.now.slots.now }
    ensures ascend { IfOk result (λ x. reads_ascend 0 x.0.items ≡ true) }
    ensures given { Gives (λ x. ((x.0.items, x.1), cursor.new)) result
        (onward
        (chain (read_page_at sources.now.slots.now (map arc_value sources.now.pool.now)) count
        (record { low = 0; used = used }) cursor.old)
        (λ x. done {A = List Read × ℕ} (x.0, x.1.used))) }
{
    let mut pages = Vec::new(alloc);
    let mut low = 0;
    let mut used = used;
    for _ in 0..count {
        let (page, now) = read_page(cursor, sources, low, used)?;
        low = page.slot() + 1;
        used = now;
        pages.push(page)?;
    }
    Ok((pages, used))
}
