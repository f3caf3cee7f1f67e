//! The whole listing.

ghost use Rattle.std.specs.Prelude.{◌≡◌, ◌++◌, All, length, IfOk, OnOk};
ghost use Rattle.history_spec.specs.History.{IsMappedIn};
ghost use Rattle.memo_reports.specs.Listing.{listing, entry_lines};

use super::entry::entry_line;
use super::pages::addresses_of;
use super::setup::setup_lines;
use run_history::{History, Records};
use std::alloc::{AllocError, Global};

/// The listing of a history: its setup in numbers, how many records it has, and a line for each.
///
/// # Errors
///
/// An error if the host's memory ran out.
#[tactic(auto, unfolding(crate::specs::Listing::listing))]
pub fn listing(alloc: Global, history: &History) -> Result<Vec<u8>, AllocError>
    ensures { IfOk result (λ text. text.items ≡ listing history.now) }
{
    let setup = history.setup();
    let records = history.records();
    let addresses = addresses_of(alloc, setup)?;
    let mut text = Vec::new(alloc);
    setup_lines(alloc, setup, records.len() as u64, &mut text)?;
    append_entries(alloc, addresses.as_slice(), records, &mut text)?;
    Ok(text)
}

/// Appends the lines of the records in order.
fn append_entries(
    alloc: Global,
    addresses: &[u32],
    records: &Records,
    into: &mut Vec<u8>,
) -> Result<(), AllocError>
    requires { All (IsMappedIn (length addresses.now)) records.now }
    ensures { OnOk result (into.new.items
        ≡ into.old.items ++ entry_lines addresses.now 0 records.now) }
{
    for place in 0..records.len() {
        let record = records.at(place);
        entry_line(alloc, addresses, place as u64, record, into)?;
    }
    Ok(())
}
