//! Words whose operands QEMU and LLVM gave, read at addresses where their targets were worked out by hand.

use page_store::{MappedPage, Page, PageMap, PageTable, Perm};
use rv_code::{Code, CodePage, Kind, Operation, WORDS};
use std::alloc::{AllocError, Global};
use std::sync::Arc;

/// A word, its address, and its operation: the kind, the registers rd, rs1 and rs2, and the immediate.
type Row = (u32, u32, Kind, [u8; 3], u32);

const ROWS: [Row; 28] = [
    (0x00010537, 0x10000, Kind::Constant, [10, 0, 0], 0x10000),
    (0xaaaaa797, 0x10ffc, Kind::Constant, [15, 0, 0], 0xaaabaffc),
    (0xfff00d93, 0x10000, Kind::Constant, [27, 0, 0], 0xffffffff),
    (
        0xfff7b813,
        0x10000,
        Kind::LessUnsignedImmediate,
        [16, 15, 0],
        0xffffffff,
    ),
    (
        0x41f2d293,
        0x10000,
        Kind::ShiftRightArithmeticImmediate,
        [5, 5, 0],
        31,
    ),
    (0x403100b3, 0x10000, Kind::Subtract, [1, 2, 3], 0),
    (
        0x023120b3,
        0x10000,
        Kind::MultiplyHighSignedUnsigned,
        [1, 2, 3],
        0,
    ),
    (0x0002a303, 0x10000, Kind::LoadWord, [6, 5, 0], 0),
    (
        0xfff1d083,
        0x10000,
        Kind::LoadHalfUnsigned,
        [1, 3, 0],
        0xffffffff,
    ),
    (
        0xffd78fa3,
        0x10000,
        Kind::StoreByte,
        [0, 15, 29],
        0xffffffff,
    ),
    (0x01082003, 0x10000, Kind::Other, [0, 0, 0], 0),
    (0x00000073, 0x10000, Kind::Other, [0, 0, 0], 0),
    (0x00100073, 0x10000, Kind::Other, [0, 0, 0], 0),
    (0x00000000, 0x10000, Kind::Other, [0, 0, 0], 0),
    (0x00030463, 0x10ff0, Kind::BranchEqual, [0, 6, 0], 1022),
    (0x00030463, 0x10ff8, Kind::Other, [0, 0, 0], 0),
    (0xff0d0ee3, 0x10004, Kind::BranchEqual, [0, 26, 16], 0),
    (0x01487163, 0x10000, Kind::Other, [0, 0, 0], 0),
    (0xffdff06f, 0x10008, Kind::Jump, [0, 0, 0], 1),
    (0xffdff06f, 0x10000, Kind::JumpFar, [0, 0, 0], 0xfffc),
    (0x008009ef, 0x10ff0, Kind::JumpAndLink, [19, 0, 0], 1022),
    (0x008009ef, 0x10ff8, Kind::JumpFar, [19, 0, 0], 0x11000),
    (0x00400fef, 0xfffffffc, Kind::JumpFar, [31, 0, 0], 0),
    (0x002000ef, 0x10000, Kind::Other, [0, 0, 0], 0),
    (
        0xfff780e7,
        0x10000,
        Kind::JumpToRegister,
        [1, 15, 0],
        0xffffffff,
    ),
    (0x7fe78013, 0x10000, Kind::Nothing, [0, 0, 0], 0),
    (0x00628033, 0x10000, Kind::Nothing, [0, 0, 0], 0),
    (0x0ff0000f, 0x10000, Kind::Nothing, [0, 0, 0], 0),
];

/// The operation of this kind with these registers.
fn operation(kind: Kind, registers: [u8; 3], imm: u32) -> Operation {
    let [rd, rs1, rs2] = registers;
    Operation {
        kind,
        rd,
        rs1,
        rs2,
        imm,
    }
}

/// A page of zeros with this word at an offset.
fn page_with(word: u32, offset: usize) -> Page {
    let mut bytes = [0; 4096];
    for (place, byte) in bytes.iter_mut().skip(offset).zip(word.to_le_bytes().iter()) {
        *place = *byte;
    }
    Page::new(bytes)
}

/// Whether a word is decoded to its operation.
fn is_decoded(alloc: Global, row: &Row) -> Result<bool, AllocError> {
    let (word, address, kind, registers, imm) = *row;
    let offset = (address % 4096 / 4) as usize;
    let page = Arc::new(alloc, page_with(word, 4 * offset))?;
    let code = CodePage::new(alloc, address / 4096, page)?;
    Ok(*code.operation(offset) == operation(kind, registers, imm))
}

#[test]
fn words_are_decoded(rt: HostRuntime) -> Result<(), AllocError> {
    for (number, row) in ROWS.iter().enumerate() {
        assert!(rt; is_decoded(rt.alloc(), row)?, "row {number}");
    }
    Ok(())
}

/// The decoded pages of a memory of two pages with jal x0, 0 as the last word, of which the second may be executed.
fn code_of(alloc: Global) -> Result<Code, AllocError> {
    let mut memory = PageTable::empty(alloc);
    memory.push(page_with(0x6f, 4092))?;
    memory.push(page_with(0x6f, 4092))?;
    let pages = vec![in alloc;
        MappedPage::new(0x10, Perm::R | Perm::W),
        MappedPage::new(0x11, Perm::R | Perm::X),
    ]?;
    Ok(Code::of(alloc, &PageMap::new(alloc, pages)?, &memory)?)
}

#[test]
fn pages_to_execute_are_decoded(rt: HostRuntime) -> Result<(), AllocError> {
    let code = code_of(rt.alloc())?;
    assert!(rt; code.page(0).is_none() && code.page(2).is_none());
    let (number, last) = match code.page(1) {
        Some(page) => (page.number(), *page.operation(WORDS - 1)),
        None => (0, operation(Kind::Other, [0, 0, 0], 0)),
    };
    assert!(rt; number == 0x11);
    assert!(rt; last == operation(Kind::Jump, [0, 0, 0], 1023));
    Ok(())
}
