//! The stored pages of a record.

ghost use Rattle.std.specs.Prelude.{◌≡◌, ◌<◌, ◌+◌, ◌*◌, ◌++◌, length, drop, OnOk};
ghost use Rattle.thunk_spec.specs.Delta.{chosen};
ghost use Rattle.memo_spec.specs.Encoding.{stored_page as stored_page_bytes, mask as mask_bytes};

use super::numbers::put_word;
use page_store::{MASK_WORDS, Mask, PAGE_SIZE, PageDelta, PageMap};
use std::alloc::AllocError;

/// Appends the 512 bytes of a mask.
fn write_mask(out: &mut Vec<u8>, mask: &Mask) -> Result<(), AllocError>
    ensures { OnOk result (out.new.items ≡ out.old.items ++ mask_bytes mask.now) }
{
    for number in 0..MASK_WORDS {
        out.extend_from_slice(&mask.word(number).to_le_bytes())?;
    }
    Ok(())
}

/// Appends the bytes of a page at the marked places of a word. A word with all marks is as common as one with few.
fn write_word(out: &mut Vec<u8>, mask: &Mask, page: &[u8], number: usize) -> Result<(), AllocError>
    requires whole { length page.now ≡ PAGE_SIZE }
    requires within { number < 64 }
    ensures whole { length mask.now ≡ PAGE_SIZE }
    ensures marked { OnOk result
        (out.new.items
        ++ chosen (drop (64 * (number + 1)) mask.now) (drop (64 * (number + 1)) page.now)
        ≡ out.old.items ++ chosen (drop (64 * number) mask.now) (drop (64 * number) page.now)) }
{
    let mut place = 64 * number;
    let mut left = mask.word(number);
    if left == u64::MAX {
        out.extend_from_slice(&page[place..place + 64])?;
        return Ok(());
    }
    while left != 0 {
        let skipped = left.trailing_zeros();
        place += skipped as usize;
        out.push(page[place])?;
        place += 1;
        left = left >> skipped >> 1;
    }
    Ok(())
}

/// Appends the bytes of a page at the marked places.
fn write_marked(out: &mut Vec<u8>, mask: &Mask, page: &[u8]) -> Result<(), AllocError>
    requires { length page.now ≡ PAGE_SIZE }
    ensures { OnOk result (out.new.items ≡ out.old.items ++ chosen mask.now page.now) }
{
    for number in 0..MASK_WORDS {
        write_word(out, mask, page, number)?;
    }
    Ok(())
}

/// Appends a stored page.
pub fn write_stored(out: &mut Vec<u8>, slots: &PageMap, delta: &PageDelta) -> Result<(), AllocError>
    requires { delta.now.slot < length slots.now }
    ensures { OnOk result (out.new.items ≡ out.old.items ++ stored_page_bytes slots.now delta.now) }
{
    let stored = delta.stored();
    put_word(out, slots.page(delta.slot()).number())?;
    write_mask(out, stored.mask)?;
    write_marked(out, stored.mask, stored.page.bytes().as_slice())
}
