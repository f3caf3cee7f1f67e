//! The items of a guest.

ghost use Rattle.std.specs.Prelude.{◌≡◌, ◌++◌, All, flat_map, IfOk, OnOk, OnErr};
ghost use Rattle.byteorder.specs.Endian.{little_bytes};
ghost use Rattle.rv_asm.specs.Items.{item_bytes, items_bytes, IsWritable};

use isa_spec::Instr;
use ith_text::Out;
use rv_isa::encode;
use std::alloc::{AllocError, Global};

/// An item of a guest. The items follow one another from the guest's base on.
#[derive(Clone, Copy)]
pub enum Item {
    /// An instruction, of four bytes.
    Instruction(Instr),
    /// A word, of four bytes, the lowest first.
    Word(u32),
    /// A byte.
    Byte(u8),
}

/// Appends the bytes of an item.
fn write_item(out: &mut Out, item: Item) -> Result<(), AllocError>
    requires { IsWritable item }
    ensures ok { OnOk result (out.new ≡ out.old ++ item_bytes item) }
    ensures err { OnErr result (out.new ≡ out.old) }
{
    match item {
        Item::Instruction(instr) => out.u32(encode(instr)),
        Item::Word(word) => out.u32(word),
        Item::Byte(byte) => out.u8(byte),
    }
}

/// The bytes of items in their order, or an error if memory ran out.
pub(crate) fn written(alloc: Global, items: &[Item]) -> Result<Out, AllocError>
    requires { All IsWritable items.now }
    ensures { IfOk result (λ out. out ≡ items_bytes items.now) }
{
    let mut out = Out::new(alloc);
    for item in items {
        write_item(&mut out, *item)?;
    }
    Ok(out)
}
