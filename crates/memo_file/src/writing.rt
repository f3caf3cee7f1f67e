//! Writing a memo: its length first, then its bytes.

ghost use Rattle.std.specs.Prelude.{◌≡◌, ◌≤◌, ℕ, List, length, IfOk, IfErr};
ghost use Rattle.machine_spec.specs.Setup.{map_of};
ghost use Rattle.memo_spec.specs.Encoding.{IsEncodable, memo, EncodesIn};
ghost use Rattle.memo_spec.specs.declared.Format.TheVariants.{Version2};
ghost use Rattle.memo_file.specs.declared.writing.WriteError.TheVariants.{NoMemory};
ghost use Rattle.memo_file.specs.WritingErrors.{IsTooLongFor};
ghost use Rattle.memo_file.specs.WritingPool.{pages_lent, IsPoolOf};

mod body;
mod numbers;
mod pool;
mod record;
mod sizes;
mod stored;

use body::write_body;
use memo_spec::MOST_MEMO_BYTES;
use page_store::PageMap;
use pool::{Pool, pool_of_history};
use run_history::History;
use sha2::{Digest, Sha256};
use sizes::size_of_memo;
use std::alloc::{AllocError, AllocFailed, Global};

/// Why a memo was not written.
#[derive(Clone, Copy)]
pub enum WriteError {
    /// The memo would have this many bytes, more than a memo may have.
    TooLong(u64),
    /// The host's memory ran out.
    NoMemory,
}

impl From<AllocError> for WriteError {
    ghost from_gives = { λ _ e. e ≡ NoMemory };

    fn from(_e: AllocError) -> WriteError {
        WriteError::NoMemory
    }
}

impl<T: Drop> From<AllocFailed<T>> for WriteError {
    ghost from_gives = { λ _ e. e ≡ NoMemory };

    fn from(_e: AllocFailed<T>) -> WriteError {
        WriteError::NoMemory
    }
}

/// The memo of a history with this pool. The digest follows the rest.
fn write_all(
    alloc: Global,
    slots: &PageMap,
    pool: &Pool,
    history: &History,
    size: usize,
) -> Result<Vec<u8>, AllocError>
    requires encodable { IsEncodable history.now }
    requires slots { slots.now ≡ map_of history.now.setup }
    requires pool { IsPoolOf history.now (pages_lent pool.now.pages.items) pool.now.places.items }
    ensures { IfOk result (λ bytes. bytes.items ≡ memo history.now) }
{
    let mut out = Vec::with_capacity(alloc, size)?;
    write_body(&mut out, slots, pool, history)?;
    let digest = Sha256::digest(out.as_slice());
    out.extend_from_slice(&digest)?;
    Ok(out)
}

/// The memo of a history, in version 2. Its length is computed before anything is written. If the history was read from
/// bytes of version 2, these are written again.
///
/// # Errors
///
/// `TooLong` with the memo's length exactly if that is more than a memo may have and memory is ample, otherwise
/// `NoMemory` if the host's memory ran out.
pub fn write(alloc: Global, history: &History) -> Result<Vec<u8>, WriteError>
    requires { IsEncodable history.now }
    ensures written { IfOk result (λ bytes. bytes.items ≡ memo history.now) }
    ensures within { IfOk result (λ bytes. length bytes.items ≤ MOST_MEMO_BYTES) }
    ensures too_long { IfErr result (λ e. IsTooLongFor (length (memo history.now)) e) }
    ensures fits { length (memo history.now) ≤ MOST_MEMO_BYTES → IfErr result (λ e. e ≡ NoMemory) }
    ensures again { (bytes : List ℕ) → EncodesIn Version2 bytes history.now
        → length bytes ≤ MOST_MEMO_BYTES
        → IfOk result (λ written. written.items ≡ bytes) × IfErr result (λ e. e ≡ NoMemory) }
{
    let slots = history.setup().page_map(alloc)?;
    let pool = pool_of_history(alloc, history, slots.len())?;
    let size = size_of_memo(history, pool.pages.len());
    if size > MOST_MEMO_BYTES as u64 {
        return Err(WriteError::TooLong(size));
    }
    let bytes = write_all(alloc, &slots, &pool, history, size as usize)?;
    Ok(bytes)
}
