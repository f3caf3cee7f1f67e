//! Executables that are known byte by byte.

ghost use Rattle.std.specs.Prelude.{◌≤◌, ◌<◌};
ghost use Rattle.rv_asm.specs.Items.{IsWritable};

use isa_spec::ImmediateOperation;
use rv_asm::*;
use std::alloc::{AllocError, Global};

/// `addi rd, rs1, imm`.
fn add_immediate(rd: u8, rs1: u8, imm: u8) -> Item
    requires rd { rd < 32 }
    requires rs1 { rs1 < 32 }
    ensures { IsWritable result }
{
    Item::Instruction(Instr::Immediate {
        operation: ImmediateOperation::Add,
        rd,
        rs1,
        imm: u32::from(imm),
    })
}

/// The guest of examples/hi.elf, as examples/README.md lists it, with zeros after it; its second ECALL is given as its
/// word.
fn hi(alloc: Global, bss: u32) -> Result<Vec<u8>, AllocError>
    requires { bss ≤ 0x1000 }
{
    let items = [
        Item::Instruction(Instr::Lui {
            rd: 10,
            imm: 0x10000,
        }),
        add_immediate(10, 10, 32),
        add_immediate(11, 0, 3),
        add_immediate(17, 0, 1),
        Item::Instruction(Instr::Ecall),
        add_immediate(10, 0, 0),
        add_immediate(17, 0, 0),
        Item::Word(0x00000073),
        Item::Byte(b'h'),
        Item::Byte(b'i'),
        Item::Byte(b'\n'),
    ];
    elf(alloc, 0x10000, &items, bss)
}

/// The bytes of examples/hi.elf.
const FILE: [u8; 119] =
    *b"\x7f\x45\x4c\x46\x01\x01\x01\x00\x00\x00\x00\x00\x00\x00\x00\x00\x02\x00\xf3\x00\x01\x00\x00\x00\x00\x00\x01\x00\x34\x00\x00\x00\x00\x00\x00\x00\x00\x00\x00\x00\x34\x00\x20\x00\x01\x00\x00\x00\x00\x00\x00\x00\x01\x00\x00\x00\x54\x00\x00\x00\x00\x00\x01\x00\x00\x00\x01\x00\x23\x00\x00\x00\x23\x00\x00\x00\x07\x00\x00\x00\x04\x00\x00\x00\x37\x05\x01\x00\x13\x05\x05\x02\x93\x05\x30\x00\x93\x08\x10\x00\x73\x00\x00\x00\x13\x05\x00\x00\x93\x08\x00\x00\x73\x00\x00\x00\x68\x69\x0a";

/// Whether the guest is written as the example, with this byte at offset 73.
fn is_written(alloc: Global, bss: u32, byte: u8) -> Result<bool, AllocError>
    requires { bss ≤ 0x1000 }
{
    let mut wanted = FILE;
    wanted[73] = byte;
    Ok(hi(alloc, bss)?.as_slice() == wanted.as_slice())
}

// the size in memory of the second, at offset 72, is 0x1023 in place of 0x23, and nothing else differs
#[test]
fn the_example_is_written(rt: HostRuntime) -> Result<(), AllocError> {
    assert!(rt; is_written(rt.alloc(), 0, 0)?);
    assert!(rt; is_written(rt.alloc(), 0x1000, 0x10)?);
    Ok(())
}
