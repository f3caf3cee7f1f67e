//! The executables of guests.

ghost use Rattle.std.specs.Prelude.{◌≡◌, true, All, IfOk, IfSome};
ghost use Rattle.elf_spec.specs.Image.{is_image};
ghost use Rattle.rv_asm.specs.Items.{IsWritable};

use crate::line::{Line, push_line};
use rv_asm::{Item, elf};
use std::alloc::{AllocError, Global};

/// A guest: its content from 0x10000 on, where it starts.
#[derive(Clone, Copy)]
pub struct Guest {
    /// Its lines.
    pub lines: &'static [Line],
    /// How many bytes of zeros follow.
    pub bss: u32,
}

/// The items of a guest's lines.
fn items_of(alloc: Global, lines: &[Line]) -> Result<Vec<Item>, AllocError>
    ensures { IfOk result (λ items. All IsWritable items.items) }
{
    let mut items = Vec::new(alloc);
    for line in lines {
        push_line(&mut items, *line)?;
    }
    Ok(items)
}

/// The executable of a guest, which the loader takes; none if the guest has no items, more than 65,536 items or more
/// than 65,536 bytes of zeros.
pub fn file_of(alloc: Global, guest: Guest) -> Result<Option<Vec<u8>>, AllocError>
    ensures { IfOk result (λ file. IfSome file (λ bytes. is_image bytes.items ≡ true)) }
{
    let items = items_of(alloc, guest.lines)?;
    if items.is_empty() || items.len() > 0x1_0000 || guest.bss > 0x1_0000 {
        return Ok(None);
    }
    let file = elf(alloc, 0x10000, items.as_slice(), guest.bss)?;
    Ok(Some(file))
}
