//! Stores, listed in order, and applied to a memory one after the other.

ghost use Rattle.std.specs.Prelude.{◌≡◌, ◌%◌, length, OnOk, OnErr};
ghost use Rattle.memory_spec.specs.Access.{byte_count, bytes_stored};
ghost use Rattle.memory_spec.specs.Stores.{with_stores};
ghost use Rattle.plain_machine.specs.Stored.{bytes_of};

use super::memory::Memory;
use super::pages::offset_of;
use memory_spec::Size;
use page_store::PageMap;
use std::alloc::AllocError;
use std::marker::Model;

/// One store: its address, which is a multiple of its size, its size in bytes, and the value whose lowest bytes it
/// stores.
#[derive(Clone, Copy)]
pub(super) struct Stored {
    address: u32,
    size: Size,
    value: u32,
}

impl Model for Stored {
    ghost use Rattle.std.specs.Prelude.{◌≡◌, ◌%◌};
    ghost use Rattle.memory_spec.specs.Access.{byte_count};
    ghost use Rattle.plain_machine.specs.Stored.{StoredNumber};

    ghost Value = { StoredNumber };

    ghost view = { λ s. record { address = s.address; size = s.size; value = s.value } };

    ghost invariant = { λ s. s.address % byte_count s.size ≡ 0 };

    ghost inverse = { λ s. record { address = s.address; size = s.size; value = s.value } };
}

impl Stored {
    /// A store of the lowest bytes of a value.
    #[inline(always)]
    pub(super) fn new(address: u32, size: Size, value: u32) -> Stored
        requires { address % byte_count size ≡ 0 }
        ensures { result ≡ record { address = address; size = size; value = value } }
    {
        Stored {
            address,
            size,
            value,
        }
    }
}

/// Applies a store to a memory, in the page that has all its bytes. A store that no page has changes nothing.
///
/// # Errors
///
/// An error if the host's memory ran out; the memory doesn't change then.
#[inline(always)]
#[tactic(auto, using(crate::proofs::Offsets::inside))]
pub(super) fn apply_store(
    map: &PageMap,
    memory: &mut Memory,
    stored: Stored,
) -> Result<(), AllocError>
    requires { length memory.old ≡ length map.now }
    ensures ok { OnOk result (memory.new
        ≡ with_stores map.now memory.old (bytes_stored stored.address stored.size stored.value)) }
    ensures err { OnErr result (memory.new ≡ memory.old) }
{
    if let Some(slot) = map.slot_of(stored.address) {
        let offset = offset_of(stored.address);
        memory.write(slot, offset, stored.size, stored.value)?;
    }
    Ok(())
}

/// Applies stores to a memory, one after the other.
///
/// # Errors
///
/// An error if the host's memory ran out; some of them may have been applied then.
pub(super) fn apply_stores(
    map: &PageMap,
    memory: &mut Memory,
    stores: &[Stored],
) -> Result<(), AllocError>
    requires { length memory.old ≡ length map.now }
    ensures { OnOk result (memory.new ≡ with_stores map.now memory.old (bytes_of stores.now)) }
{
    for stored in stores {
        apply_store(map, memory, *stored)?;
    }
    Ok(())
}
