//! The addresses of pages.

ghost use Rattle.std.specs.Prelude.{◌≡◌, ◌<◌, ◌++◌, All, length, IfOk, OnOk};
ghost use Rattle.memo_reports.specs.Listing.{address_text, addresses_of, reads_text, writes_text};

use ith_text::hex8;
use page_store::{PageDelta, ReadPage};
use run_history::Setup;
use std::alloc::{AllocError, Global};

/// The addresses of the pages of a setup, each at its slot.
pub fn addresses_of(alloc: Global, setup: &Setup) -> Result<Vec<u32>, AllocError>
    ensures { IfOk result (λ addresses. addresses.items ≡ addresses_of setup.now) }
{
    let map = setup.page_map(alloc)?;
    let mut addresses = Vec::new(alloc);
    for slot in 0..map.len() {
        addresses.push(map.address(slot) as u32)?;
    }
    Ok(addresses)
}

/// Appends the address of the page in a slot.
fn append_address(
    alloc: Global,
    addresses: &[u32],
    slot: usize,
    into: &mut Vec<u8>,
) -> Result<(), AllocError>
    requires { slot < length addresses.now }
    ensures { OnOk result (into.new.items ≡ into.old.items ++ address_text addresses.now slot) }
{
    hex8(alloc, addresses[slot], into)
}

/// Appends the addresses of read pages, or a dash if there is none.
pub(super) fn append_reads(
    alloc: Global,
    addresses: &[u32],
    reads: &[ReadPage],
    into: &mut Vec<u8>,
) -> Result<(), AllocError>
    requires { All (λ p. p.slot < length addresses.now) reads.now }
    ensures { OnOk result (into.new.items ≡ into.old.items ++ reads_text addresses.now reads.now) }
{
    match reads.split_first() {
        None => into.push(b'-')?,
        Some((first, others)) => {
            append_address(alloc, addresses, first.slot(), into)?;
            for page in others {
                into.push(b',')?;
                append_address(alloc, addresses, page.slot(), into)?;
            }
        }
    }
    Ok(())
}

/// Appends the addresses of pages that were stored to, or a dash if there is none.
pub(super) fn append_writes(
    alloc: Global,
    addresses: &[u32],
    delta: &[PageDelta],
    into: &mut Vec<u8>,
) -> Result<(), AllocError>
    requires { All (λ d. d.slot < length addresses.now) delta.now }
    ensures { OnOk result (into.new.items ≡ into.old.items ++ writes_text addresses.now delta.now) }
{
    match delta.split_first() {
        None => into.push(b'-')?,
        Some((first, others)) => {
            append_address(alloc, addresses, first.slot(), into)?;
            for page in others {
                into.push(b',')?;
                append_address(alloc, addresses, page.slot(), into)?;
            }
        }
    }
    Ok(())
}
