//! What no clause says: that an image is made, and is refused, with ample memory. Each file is made by changing one
//! that is taken.
use super::fixtures::HI;
use elf_load::*;
use elf_spec::Refusal;
use page_store::Perm;
use std::alloc::{AllocError, Global};
use std::process::Abort;
use std::test::Fail;

/// Bytes that replace those of the guest from an offset on.
type Change = (usize, &'static [u8]);

/// The first bytes of the guest, or all of it with zeros after it, up to a length; and then with changes.
fn changed(alloc: Global, length: usize, changes: &[Change]) -> Result<Vec<u8>, AllocError> {
    let mut bytes = vec![in alloc; 0u8; length]?;
    for (place, byte) in bytes.iter_mut().zip(HI.iter()) {
        *place = *byte;
    }
    for (offset, new) in changes {
        for (place, byte) in bytes.iter_mut().skip(*offset).zip(new.iter()) {
            *place = *byte;
        }
    }
    Ok(bytes)
}

/// A second program header, in place of the guest's text: a segment of this size at this address, without bytes of the
/// file.
const TWO: Change = (44, b"\x02");

const NONE_AT_0: Change = (
    84,
    b"\x01\0\0\0\0\0\0\0\0\0\0\0\0\0\0\0\0\0\0\0\0\0\0\0\x04\0\0\0",
);

const ONE_AT_10022: Change = (
    84,
    b"\x01\0\0\0\0\0\0\0\x22\0\x01\0\0\0\0\0\0\0\0\0\x01\0\0\0\x04\0\0\0",
);

const ONE_AT_10023: Change = (
    84,
    b"\x01\0\0\0\0\0\0\0\x23\0\x01\0\0\0\0\0\0\0\0\0\x01\0\0\0\x04\0\0\0",
);

const TWO_AT_FFFF: Change = (
    84,
    b"\x01\0\0\0\0\0\0\0\xff\xff\0\0\0\0\0\0\0\0\0\0\x02\0\0\0\x04\0\0\0",
);

const ONE_AT_FFFF: Change = (
    84,
    b"\x01\0\0\0\0\0\0\0\xff\xff\0\0\0\0\0\0\0\0\0\0\x01\0\0\0\x04\0\0\0",
);
/// The same as a third program header.
const AGAIN_AT_10022: Change = (
    116,
    b"\x01\0\0\0\0\0\0\0\x22\0\x01\0\0\0\0\0\0\0\0\0\x01\0\0\0\x04\0\0\0",
);

const AGAIN_AT_10023: Change = (
    116,
    b"\x01\0\0\0\0\0\0\0\x23\0\x01\0\0\0\0\0\0\0\0\0\x01\0\0\0\x04\0\0\0",
);
/// The second program header is of dynamic linking.
const DYNAMIC_SECOND: Change = (84, b"\x02\0\0\0");

/// A length and changes that make a file, and why it is refused, if it is.
type Row = (usize, &'static [Change], Option<Refusal>);

/// Why files are refused for their header, or for one program header by itself.
const ONE_HEADER: [Row; 38] = [
    (119, &[(0, b"\x7e")], Some(Refusal::NotElf)),
    (119, &[(1, b"\x46")], Some(Refusal::NotElf)),
    (119, &[(2, b"\x45")], Some(Refusal::NotElf)),
    (119, &[(3, b"\x47")], Some(Refusal::NotElf)),
    (119, &[(4, b"\x02")], Some(Refusal::NotElf32)),
    (119, &[(5, b"\x02")], Some(Refusal::NotElf32)),
    (119, &[(6, b"\x00")], Some(Refusal::NotElf32)),
    (119, &[(7, b"\x01\x02\x03\x04\x05\x06\x07\x08\x09")], None),
    (119, &[(16, b"\x03")], Some(Refusal::NotExec)),
    (119, &[(17, b"\x01")], Some(Refusal::NotExec)),
    (119, &[(18, b"\xf4")], Some(Refusal::NotRiscv)),
    (119, &[(19, b"\x01")], Some(Refusal::NotRiscv)),
    (119, &[(36, b"\x01")], Some(Refusal::Compressed)),
    (119, &[(36, b"\xfe\xff\xff\xff")], None),
    (119, &[(42, b"\x21")], Some(Refusal::EntrySize)),
    (119, &[(43, b"\x01")], Some(Refusal::EntrySize)),
    (119, &[(42, b"\x21\0\0\0")], Some(Refusal::Entry)),
    (119, &[(44, b"\x00")], Some(Refusal::Entry)),
    (
        119,
        &[(28, b"\xff\xff\xff\xff")],
        Some(Refusal::ShortTable(0)),
    ),
    (119, &[(28, b"\x58")], Some(Refusal::ShortTable(0))),
    (119, &[(44, b"\x03")], Some(Refusal::ShortTable(2))),
    (119, &[(52, b"\x02")], Some(Refusal::Dynamic(0))),
    (119, &[(52, b"\x03")], Some(Refusal::Dynamic(0))),
    (119, &[(56, b"\x55")], Some(Refusal::ShortSegment(0))),
    (
        119,
        &[(56, b"\xff\xff\xff\xff")],
        Some(Refusal::ShortSegment(0)),
    ),
    (119, &[(72, b"\x22")], Some(Refusal::ShortSegment(0))),
    (119, &[(62, b"\x00")], Some(Refusal::Outside(0))),
    (119, &[(60, b"\xff\x0f\0\0")], Some(Refusal::Outside(0))),
    (119, &[(60, b"\0\x10\0\0")], Some(Refusal::Entry)),
    (
        119,
        &[(60, b"\0\xf0\xff\xbf"), (72, b"\0\x10")],
        Some(Refusal::Entry),
    ),
    (
        119,
        &[(60, b"\0\xf0\xff\xbf"), (72, b"\x01\x10")],
        Some(Refusal::Outside(0)),
    ),
    (119, &[(60, b"\xff\xff\xff\xff")], Some(Refusal::Outside(0))),
    (119, &[(72, b"\0\0\x40\0")], None),
    (
        119,
        &[(72, b"\x01\0\x40\0")],
        Some(Refusal::TooManyPages(1025)),
    ),
    (119, &[(24, b"\x02")], Some(Refusal::Entry)),
    (119, &[(25, b"\x10")], Some(Refusal::Entry)),
    (119, &[(76, b"\x06")], Some(Refusal::Entry)),
    (119, &[(76, b"\xff\xff\xff\xff")], None),
];

/// Why files are refused for two program headers, or more.
const MORE_HEADERS: [Row; 13] = [
    (119, &[TWO], None),
    (119, &[TWO, DYNAMIC_SECOND], Some(Refusal::Dynamic(1))),
    (119, &[TWO, NONE_AT_0], None),
    (119, &[TWO, ONE_AT_10022], Some(Refusal::Overlap(0, 1))),
    (119, &[TWO, ONE_AT_10023], None),
    (119, &[TWO, TWO_AT_FFFF], Some(Refusal::Overlap(0, 1))),
    (119, &[TWO, ONE_AT_FFFF], None),
    // the rights of both segments hold on a page that they share
    (
        119,
        &[TWO, ONE_AT_10023, (76, b"\x06")],
        Some(Refusal::Entry),
    ),
    (
        119,
        &[TWO, ONE_AT_10023, (76, b"\x06"), (108, b"\x01")],
        None,
    ),
    // the third header is a second one at the same address
    (
        148,
        &[(44, b"\x03"), ONE_AT_10023, AGAIN_AT_10023],
        Some(Refusal::Overlap(1, 2)),
    ),
    (
        148,
        &[(44, b"\x03"), ONE_AT_10022, AGAIN_AT_10022],
        Some(Refusal::Overlap(0, 1)),
    ),
    // of two causes the first in the order of the refusals is the answer
    (
        119,
        &[TWO, DYNAMIC_SECOND, (72, b"\x22")],
        Some(Refusal::Dynamic(1)),
    ),
    (
        119,
        &[TWO, ONE_AT_10022, (72, b"\x01\0\x40\0")],
        Some(Refusal::Overlap(0, 1)),
    ),
];

/// Compares the refusal of each file.
fn compare<R: Abort>(rt: &R, alloc: Global, rows: &[Row]) -> Result<(), AllocError> {
    for (number, (length, changes, want)) in rows.iter().enumerate() {
        let file = changed(alloc, *length, *changes)?;
        assert!(rt; refusal(alloc, &file)? == *want, "row {number}");
    }
    Ok(())
}

#[test]
fn changed_files_are_refused(rt: HostRuntime) -> Result<(), AllocError> {
    compare(&rt, rt.alloc(), &ONE_HEADER)?;
    compare(&rt, rt.alloc(), &MORE_HEADERS)
}

/// Why the guest's file is refused if it is cut at a length.
fn refusal_at(length: usize) -> Refusal {
    if length < 52 {
        Refusal::NotElf
    } else if length < 84 {
        Refusal::ShortTable(0)
    } else {
        Refusal::ShortSegment(0)
    }
}

#[test]
fn cut_files_are_refused(rt: HostRuntime) -> Result<(), AllocError> {
    for length in 0..119usize {
        let found = refusal(rt.alloc(), &HI[..length])?;
        assert!(rt; found == Some(refusal_at(length)), "at {length}");
    }
    Ok(())
}

/// The image of a sound file.
fn image_of(alloc: Global, file: &[u8]) -> Result<Image, Fail> {
    match load(alloc, file) {
        Ok(image) => Ok(image),
        Err(_) => Err(Fail::new("the file isn't taken")),
    }
}

/// Whether an image begins at the guest's address and has `count` pages.
fn has_pages(image: &Image, count: usize) -> bool {
    image.entry == 0x10000 && image.map.len() == count && image.pages.len() == count
}

/// A page of an image: whether it is the first of the map at an address, its rights, and three of its bytes.
fn is_page(image: &Image, slot: usize, address: u32, rights: Perm, bytes: [u8; 3]) -> bool {
    let here = image.map.slot_of(address) == Some(slot);
    match (image.map.pages().get(slot), slot < image.pages.len()) {
        (Some(mapped), true) => {
            let page = image.pages.page(slot);
            here & (mapped.permission() == rights)
                & ([page.get(0), page.get(34), page.get(35)] == bytes)
        }
        _ => false,
    }
}

#[test]
fn images_of_guests(rt: HostRuntime) -> Result<(), Fail> {
    let image = image_of(rt.alloc(), &HI)?;
    assert!(rt; has_pages(&image, 1));
    let rights = Perm::X | Perm::W | Perm::R;
    assert!(rt; is_page(&image, 0, 0x10fff, rights, [0x37, 0x0a, 0]));
    Ok(())
}

// two pages and a byte of zeros after the text, a byte of another segment before it, and text that may not be written
#[test]
fn images_of_two_segments(rt: HostRuntime) -> Result<(), Fail> {
    let changes = [TWO, ONE_AT_FFFF, (72, b"\0\x20"), (76, b"\x05")];
    let file = changed(rt.alloc(), 119, &changes)?;
    let image = image_of(rt.alloc(), &file)?;
    assert!(rt; has_pages(&image, 3));
    assert!(rt; is_page(&image, 0, 0xf000, Perm::R, [0, 0, 0]));
    assert!(rt; is_page(&image, 1, 0x10000, Perm::X | Perm::R, [0x01, 0x0a, 0]));
    assert!(rt; is_page(&image, 2, 0x11fff, Perm::X | Perm::R, [0, 0, 0]));
    Ok(())
}
