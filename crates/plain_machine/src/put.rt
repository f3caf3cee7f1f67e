//! The bytes that a put appends to the output, one after the other (POSIX.1-2017, write).

ghost use Rattle.std.specs.Prelude.{◌≡◌, ◌+◌, ◌≤◌, ◌^◌, length, IfOk};
ghost use Rattle.std.specs.List.{range_with_len};
ghost use Rattle.memory_spec.specs.Pages.{allows, read_right, permission_at};
ghost use Rattle.thunk_spec.specs.Put as rows;
ghost use Rattle.guest_call.specs.Objects.{appends};

use super::memory::Memory;
use guest_call::Call;
use memory_spec::PAGE_SIZE;
use page_store::PageMap;
use rv_isa::Regs;
use std::alloc::{AllocError, Global};
use thunk_spec::ThunkEnd;

/// Whether the byte at an address may be read.
#[tactic(auto, unfolding(memory_spec::specs::Pages::permission_at))]
fn may_read(map: &PageMap, address: u32) -> bool
    ensures { result ≡ allows read_right (permission_at map.now address) }
{
    match map.slot_of(address) {
        Some(slot) => map.perm(slot).reads(),
        None => false,
    }
}

/// Whether each of so many bytes from an address on may be read.
fn all_readable(map: &PageMap, start: u32, count: u32) -> bool
    requires { start + count ≤ 2 ^ 32 }
    ensures { result ≡ rows.is_readable map.now start count }
{
    for k in 0..count {
        if !may_read(map, start + k) {
            return false;
        }
    }
    true
}

/// Whether a put appends its bytes: there are some, no more than 4,096, and all may be read.
pub(super) fn appends_all(map: &PageMap, start: u32, count: u32) -> bool
    ensures { result ≡ appends (rows.is_readable map.now) start count }
{
    count != 0
        && count <= 4096
        && u64::from(start) + u64::from(count) <= 1 << 32
        && all_readable(map, start, count)
}

/// The byte at an address, or zero if no page has it.
#[tactic(auto, using(crate::proofs::Putting::no_byte))]
fn byte_at(map: &PageMap, memory: &Memory, address: u32) -> u8
    requires { length memory.now ≡ length map.now }
    ensures { result ≡ rows.byte_at map.now memory.now address }
{
    match map.slot_of(address) {
        Some(slot) => memory.page(slot).get((address % PAGE_SIZE as u32) as usize),
        None => 0,
    }
}

/// So many bytes from an address on.
fn bytes_from(
    alloc: Global,
    map: &PageMap,
    memory: &Memory,
    start: u32,
    count: u32,
) -> Result<Vec<u8>, AllocError>
    requires in_range { start + count ≤ 2 ^ 32 }
    requires pages { length memory.now ≡ length map.now }
    ensures { IfOk result (λ bytes. bytes.items
        ≡ rows.bytes_at map.now memory.now (range_with_len start count)) }
{
    let mut bytes = Vec::with_capacity(alloc, count as usize)?;
    for k in 0..count {
        bytes.push(byte_at(map, memory, start + k))?;
    }
    Ok(bytes)
}

/// The bytes that a call appends; none if it is no put that appends its bytes.
fn bytes_of_call(
    alloc: Global,
    map: &PageMap,
    memory: &Memory,
    call: Option<Call>,
) -> Result<Vec<u8>, AllocError>
    requires { length memory.now ≡ length map.now }
    ensures { IfOk result (λ bytes. bytes.items
        ≡ rows.bytes_at map.now memory.now (rows.appended_by map.now call)) }
{
    match call {
        Some(Call::Put(start, count)) => {
            if appends_all(map, start, count) {
                bytes_from(alloc, map, memory, start, count)
            } else {
                Ok(Vec::new(alloc))
            }
        }
        _ => Ok(Vec::new(alloc)),
    }
}

/// The bytes that the thunk with this end and these registers appends, read in this memory; none if no put ends it.
///
/// # Errors
///
/// An error if the host's memory ran out.
#[tactic(auto, unfolding(thunk_spec::specs::Put::put_addresses))]
pub(super) fn put_bytes(
    alloc: Global,
    map: &PageMap,
    memory: &Memory,
    end: ThunkEnd,
    regs: &Regs,
) -> Result<Vec<u8>, AllocError>
    requires { length memory.now ≡ length map.now }
    ensures { IfOk result (λ bytes. bytes.items
        ≡ rows.bytes_at map.now memory.now (rows.put_addresses map.now end regs.now)) }
{
    match end {
        ThunkEnd::Call => {
            let call = Call::of(regs.get(17), regs.get(10), regs.get(11));
            bytes_of_call(alloc, map, memory, call)
        }
        ThunkEnd::Trap(_) | ThunkEnd::Fuel => Ok(Vec::new(alloc)),
    }
}
