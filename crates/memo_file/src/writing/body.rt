//! The bytes of a memo from the first one on, without the digest.

ghost use Rattle.std.specs.Prelude.{◌≡◌, ◌<◌, ◌≤◌, ◌+◌, ◌++◌, [], ◌^◌, length, OnOk};
ghost use Rattle.std.specs.List.{flat_map, concat};
ghost use Rattle.machine_spec.specs.Setup.{map_of};
ghost use Rattle.memo_spec.specs.Encoding.{IsEncodable, word, magic, profile, record_bytes, body};
ghost use Rattle.memo_spec.specs.declared.Format.TheVariants.{Version2};
ghost use Rattle.memo_file.specs.WritingPool.{pages_lent, IsPoolOf};

use super::numbers::put_word;
use super::pool::Pool;
use super::record::write_record;
use crate::opening::{MAGIC, PROFILE, VERSION};
use page_store::PageMap;
use run_history::{History, Setup};
use std::alloc::AllocError;

/// Appends the number of some bytes, and then the bytes.
fn write_sized(out: &mut Vec<u8>, bytes: &[u8]) -> Result<(), AllocError>
    requires { length bytes.now < 2 ^ 32 }
    ensures { OnOk result (out.new.items ≡ out.old.items ++ word (length bytes.now) ++ bytes.now) }
{
    put_word(out, bytes.len() as u32)?;
    out.extend_from_slice(bytes)
}

/// Appends all before the number of records.
fn write_setup(out: &mut Vec<u8>, setup: &Setup) -> Result<(), AllocError>
    ensures { OnOk result (out.new.items ≡ out.old.items ++ magic ++ word 2 ++ word profile
        ++ word (length setup.now.elf) ++ setup.now.elf ++ word (length setup.now.input)
        ++ setup.now.input
        ++ word setup.now.fuel ++ word setup.now.limit) }
{
    let elf = setup.elf();
    let input = setup.input();
    out.extend_from_slice(&MAGIC)?;
    put_word(out, VERSION)?;
    put_word(out, PROFILE)?;
    write_sized(out, elf)?;
    write_sized(out, input)?;
    put_word(out, setup.fuel())?;
    put_word(out, setup.steps())
}

/// Appends the number of a pool's pages, and then the pages.
fn write_pool(out: &mut Vec<u8>, pages: &[&[u8]]) -> Result<(), AllocError>
    requires { length pages.now < 2 ^ 32 }
    ensures { OnOk result (out.new.items
        ≡ out.old.items ++ word (length (pages_lent pages.now)) ++ concat (pages_lent pages.now)) }
{
    put_word(out, pages.len() as u32)?;
    for page in pages {
        out.extend_from_slice(*page)?;
    }
    Ok(())
}

/// Appends the records of a history with this pool.
fn write_records(
    out: &mut Vec<u8>,
    slots: &PageMap,
    pool: &Pool,
    history: &History,
) -> Result<(), AllocError>
    requires encodable { IsEncodable history.now }
    requires slots { slots.now ≡ map_of history.now.setup }
    requires pool { IsPoolOf history.now (pages_lent pool.now.pages.items) pool.now.places.items }
    ensures { OnOk result (out.new.items ≡ out.old.items
        ++ flat_map
        (record_bytes slots.now (pages_lent pool.now.pages.items)) history.now.records) }
{
    let records = history.records();
    let mut start = 0;
    for place in 0..records.len() {
        let rec = records.at(place);
        write_record(out, slots, pool, start, rec)?;
        start += rec.reads().pages().len();
    }
    Ok(())
}

/// Appends the memo of a history without its digest.
pub fn write_body(
    out: &mut Vec<u8>,
    slots: &PageMap,
    pool: &Pool,
    history: &History,
) -> Result<(), AllocError>
    requires encodable { IsEncodable history.now }
    requires slots { slots.now ≡ map_of history.now.setup }
    requires pool { IsPoolOf history.now (pages_lent pool.now.pages.items) pool.now.places.items }
    requires empty { out.old.items ≡ [] }
    ensures { OnOk result (out.new.items ≡ body Version2 history.now) }
{
    write_setup(out, history.setup())?;
    put_word(out, history.records().len() as u32)?;
    write_pool(out, &pool.pages)?;
    write_records(out, slots, pool, history)
}
