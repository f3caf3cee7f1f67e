//! Reading a memo.

ghost use Rattle.std.specs.Prelude.{◌≡◌, ◌<◌, ◌≤◌, ℕ, true, false, length, drop, slice_index, IfOk, IfErr};
ghost use Rattle.memory_spec.specs.Pages.{AreAddressable};
ghost use Rattle.history_spec.specs.History.{History as RecordedHistory, is_coherent};
ghost use Rattle.machine_spec.specs.Setup.{IsSetup, first, map_of};
ghost use Rattle.memo_spec.specs.Encoding.{IsEncodable, memo};
ghost use Rattle.memo_spec.specs.Reader.{onward, done, ruled};
ghost use Rattle.memo_spec.specs.Reading.{history_at, behind_version, pool_and_records_at, taken_as, todays, format_of, reading, IsTaken};
ghost use Rattle.memo_spec.specs.declared.Format.TheVariants.{Version2};
ghost use Rattle.memo_file.specs.Gives.{Fails, Gives, IsReadAs};
ghost use Rattle.memo_file.specs.Wholes.{uses_all};

use crate::age::refuse_old;
use crate::coherence::refuse_incoherent;
use crate::error::ReadError;
use crate::fields::{limited, word, word_that_is};
use crate::growth::Sources;
use crate::opening::{MAGIC, PROFILE};
use crate::pool::read_pool;
use crate::records::read_records;
use crate::setup::read_setup;
use byteorder::{ByteOrder, LittleEndian};
use ith_text::Cursor;
use machine_spec::MOST_STEPS;
use memo_spec::{Format, Limit, Refusal};
use page_store::PageMap;
use release_core::Core;
use run_history::{History, Records, Setup};
use sha2::{Digest, Sha256};
use std::alloc::Global;

/// The `entries` records of a memo of this setup, after their pool, of which they use each page.
#[tactic(auto, unfolding(memo_spec::specs::Reading::pool_and_records_at))]
fn pool_and_records(
    alloc: Global,
    cursor: &mut Cursor,
    setup: &Setup,
    slots: &PageMap,
    entries: u32,
) -> Result<Records, ReadError>
    requires slots { slots.now ≡ map_of setup.now }
    requires small { AreAddressable slots.now }
    requires few { entries ≤ MOST_STEPS }
    ensures { Gives (λ rs. (rs, cursor.new)) result
        (onward (ruled (pool_and_records_at setup.now entries) uses_all cursor.old)
        (λ x. done x.1)) }
{
    let at = cursor.position();
    let count = word(cursor)?;
    let pool = read_pool(alloc, cursor, count)?;
    let sources = Sources {
        slots,
        fuel: setup.fuel(),
        pool: pool.as_slice(),
    };
    let read = read_records(alloc, cursor, &sources, entries)?;
    if read.used() == pool.len() {
        Ok(read.into_records())
    } else {
        Err(ReadError::Refused(Refusal::Field(at)))
    }
}

/// A history from a place on, and the machine that it starts as.
#[tactic(auto, unfolding(memo_spec::specs::Reading::history_at))]
fn read_history(alloc: Global, cursor: &mut Cursor) -> Result<(History, Core), ReadError>
    requires bytes { (i : ℕ) → slice_index cursor.old.left i < 256 }
    ensures core { IfOk result (λ x. x.1 ≡ first x.0.setup) }
    ensures sound { IfOk result (λ x. IsSetup x.0.setup) }
    ensures given { Gives (λ x. (x.0, cursor.new)) result (history_at cursor.old) }
{
    let setup = read_setup(alloc, cursor)?;
    let entries = limited(cursor, 1, setup.steps(), Limit::Entries)?;
    let core = Core::new(alloc, &setup)?;
    let records = pool_and_records(alloc, cursor, &setup, core.frame().map(), entries)?;
    Ok((History::new(setup, records), core))
}

/// A history after its profile, and the machine that it starts as.
fn read_profiled(alloc: Global, cursor: &mut Cursor) -> Result<(History, Core), ReadError>
    requires bytes { (i : ℕ) → slice_index cursor.old.left i < 256 }
    ensures core { IfOk result (λ x. x.1 ≡ first x.0.setup) }
    ensures sound { IfOk result (λ x. IsSetup x.0.setup) }
    ensures given { Gives (λ x. (x.0, cursor.new)) result (behind_version Version2 cursor.old) }
{
    word_that_is(cursor, PROFILE)?;
    read_history(alloc, cursor)
}

/// A history after the version, and the machine that it starts as.
fn read_behind_version(
    alloc: Global,
    cursor: &mut Cursor,
    format: Format,
) -> Result<(History, Core), ReadError>
    requires bytes { (i : ℕ) → slice_index cursor.old.left i < 256 }
    ensures core { IfOk result (λ x. x.1 ≡ first x.0.setup) }
    ensures sound { IfOk result (λ x. IsSetup x.0.setup) }
    ensures given { Gives (λ x. (x.0, cursor.new)) result (behind_version format cursor.old) }
{
    match format {
        Format::Version1 => read_history(alloc, cursor),
        Format::Version2 => read_profiled(alloc, cursor),
    }
}

/// Refuses a history that is old in a format, or else one that isn't coherent. `core` is the machine that it starts as.
#[tactic(auto, using(crate::proofs::Ending::map_is))]
fn judge(mut core: Core, history: &History, format: Format) -> Result<(), ReadError>
    requires core { core ≡ first history.now.setup }
    requires sound { IsSetup history.now.setup }
    ensures { Gives (λ _. history.now) result (todays format history.now) }
{
    refuse_old(format, core.frame().map(), history)?;
    refuse_incoherent(&mut core, history)
}

/// A reader after the magic number and the version.
fn behind_opening<'a>(text: &'a [u8]) -> Cursor<'a>
    requires { 8 ≤ length text.now }
    ensures { result ≡ record { taken = 8; left = drop 8 text.now } }
{
    let mut cursor = Cursor::new(text);
    match cursor.bytes(8) {
        Ok(_) => cursor,
        Err(_) => unreachable!(),
    }
}

/// The history that all bytes but the digest are taken as.
#[tactic(auto, unfolding(memo_spec::specs::Reading::taken_as))]
fn read_text(alloc: Global, format: Format, text: &[u8]) -> Result<History, ReadError>
    requires { 8 ≤ length text.now }
    ensures { Gives (λ h. h) result (taken_as format text.now) }
{
    let mut cursor = behind_opening(text);
    let (history, core) = read_behind_version(alloc, &mut cursor, format)?;
    if cursor.remaining() != 0 {
        return Err(ReadError::Refused(Refusal::Field(cursor.position())));
    }
    judge(core, &history, format)?;
    Ok(history)
}

/// The format of a version, if there is one.
fn format_of(version: u32) -> Option<Format>
    ensures { result ≡ format_of version }
{
    if version == 1 {
        Some(Format::Version1)
    } else if version == 2 {
        Some(Format::Version2)
    } else {
        None
    }
}

/// The format, and all bytes but the digest, if the digest is theirs.
#[tactic(auto, unfolding(memo_spec::specs::Reading::reading))]
fn open(bytes: &[u8]) -> Result<(Format, &[u8]), ReadError>
    ensures size { IfOk result (λ x. 8 ≤ length x.1.now) }
    ensures taken { IfOk result (λ x. reading bytes.now ≡ taken_as x.0 x.1.now) }
    ensures refused { IfErr result (λ e. Fails e (reading bytes.now)) }
{
    if bytes.len() < 40 {
        return Err(ReadError::Refused(Refusal::Short));
    }
    if &bytes[..4] != MAGIC.as_slice() {
        return Err(ReadError::Refused(Refusal::Magic));
    }
    let version = LittleEndian::read_u32(&bytes[4..]);
    let Some(format) = format_of(version) else {
        return Err(ReadError::Refused(Refusal::Version(version)));
    };
    let (text, digest) = bytes.split_at(bytes.len() - 32);
    if digest != Sha256::digest(text).as_slice() {
        return Err(ReadError::Refused(Refusal::Digest));
    }
    Ok((format, text))
}

/// The history that bytes are taken as.
fn read_bytes(alloc: Global, bytes: &[u8]) -> Result<History, ReadError>
    ensures { Gives (λ h. h) result (reading bytes.now) }
{
    let (format, text) = open(bytes)?;
    read_text(alloc, format, text)
}

/// The history that the bytes of a memo encode, in version 1 or 2. It is coherent, and in version 1 it isn't old. What
/// `write` writes of a coherent history is read as that history.
///
/// # Errors
///
/// `Refused` with the first reason not to take the bytes, exactly if there is one, or `NoMemory` if the host's memory
/// ran out.
pub fn read(alloc: Global, bytes: &[u8]) -> Result<History, ReadError>
    ensures encoded { IfOk result (λ h. IsTaken bytes.now h) }
    ensures refused { IfErr result (λ e. Fails e (reading bytes.now)) }
    ensures accepts { (h : RecordedHistory) → IsTaken bytes.now h → IsReadAs h result }
    ensures written { (h : RecordedHistory) → IsEncodable h → is_coherent h ≡ true
        → bytes.now ≡ memo h
        → IsReadAs h result }
{
    memo_spec::taken_is_encoded(bytes);
    memo_spec::encoded_is_taken();
    let history = read_bytes(alloc, bytes)?;
    Ok(history.known_coherent())
}
