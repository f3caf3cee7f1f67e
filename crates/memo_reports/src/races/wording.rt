//! Races as text.

ghost use Rattle.std.specs.Prelude.{◌≡◌, ◌++◌, codes, IfOk, OnOk};
ghost use Rattle.memo_reports.specs.Listing.{address_text};
ghost use Rattle.memo_reports.specs.RacesText.{access_text, race_line, races_text, races_listing};

use super::finding::races;
use super::list::Races;
use crate::lines::append_number;
use crate::listing::addresses_of;
use ith_text::hex8;
use round_spec::Race;
use run_history::History;
use std::alloc::{AllocError, Global};

/// Appends the letter of a step by whether it writes the page.
fn append_access(writes: bool, into: &mut Vec<u8>) -> Result<(), AllocError>
    ensures { OnOk result (into.new.items ≡ into.old.items ++ access_text writes) }
{
    if writes {
        into.extend_from_slice(b"w")
    } else {
        into.extend_from_slice(b"r")
    }
}

/// Appends the line of a race. A slot that no page has has the address 0.
fn race_line(
    alloc: Global,
    addresses: &[u32],
    race: &Race,
    into: &mut Vec<u8>,
) -> Result<(), AllocError>
    ensures { OnOk result (into.new.items ≡ into.old.items ++ race_line addresses.now race.now) }
{
    append_number(alloc, "race ", race.earlier as u64, into)?;
    append_number(alloc, " ", race.later as u64, into)?;
    into.extend_from_slice(b" page ")?;
    hex8(alloc, addresses.get(race.slot).copied().unwrap_or(0), into)?;
    into.push(b' ')?;
    append_access(race.earlier_writes, into)?;
    append_access(race.later_writes, into)?;
    into.push(b'\n')?;
    Ok(())
}

/// The text of races, by the addresses of the pages: how many there are, and a line for each of the first.
#[tactic(auto, unfolding(crate::specs::RacesText::races_text))]
fn text(alloc: Global, addresses: &[u32], races: &Races) -> Result<Vec<u8>, AllocError>
    ensures { IfOk result (λ text. text.items
        ≡ races_text addresses.now races.now.total races.now.first) }
{
    let mut text = Vec::new(alloc);
    append_number(alloc, "races ", races.total, &mut text)?;
    text.push(b'\n')?;
    for race in races.first.as_slice() {
        race_line(alloc, addresses, race, &mut text)?;
    }
    Ok(text)
}

/// The races of a history as text: how many there are, and a line for each of the first `most`, by the earlier step,
/// then by the later one, then by the page.
///
/// # Errors
///
/// An error if the host's memory ran out.
#[tactic(auto, unfolding(crate::specs::RacesText::races_listing))]
pub fn listing(alloc: Global, history: &History, most: usize) -> Result<Vec<u8>, AllocError>
    ensures { IfOk result (λ text. text.items ≡ races_listing most history.now) }
{
    let addresses = addresses_of(alloc, history.setup())?;
    let races = races(alloc, history, most)?;
    text(alloc, &addresses, &races)
}
