//! A thread's memory, from its view to its stored bytes.

use memory_spec::{MemoryError, Size};
use page_store::{Delta, MappedPage, Mem, PAGE_SIZE, Page, PageMap, PageTable, Perm};
use priv_space::*;
use std::alloc::AllocError;
use std::process::Abort;
use std::sync::Arc;

#[test]
fn stores_stay_with_the_thread(rt: HostRuntime) -> Result<(), AllocError> {
    let pages = vec![in rt.alloc();
        MappedPage::new(0x10, Perm::R | Perm::X),
        MappedPage::new(0x11, Perm::R | Perm::W),
        MappedPage::new(0x12, Perm::R | Perm::W),
    ]?;
    let map = Arc::new(rt.alloc(), PageMap::new(rt.alloc(), pages)?)?;
    let mut view = PageTable::empty(rt.alloc());
    view.push(Page::zero())?;
    view.push(Page::zero())?;
    view.push(Page::zero())?;
    let view = Arc::new(rt.alloc(), view)?;
    let mut space = Space::new(rt.alloc(), &view, &map)?;
    assert!(rt; space.fetch(0x1_0004) == Ok(0));
    assert!(rt; space.fetch(0x1_1000) == Err(MemoryError::Access));
    assert!(rt; space.store(0x1_0000, Size::Four, 7) == Err(MemoryError::Access));
    assert!(rt; space.store(0x1_2ffe, Size::Two, 0x1_8001) == Ok(()));
    assert!(rt; space.load(0x1_2fff, Size::One) == Ok(0x80));
    assert!(rt; space.load(0x1_3000, Size::One) == Err(MemoryError::Access));
    let reads = space.reads()?;
    assert!(rt; reads.pages().len() == 2);
    let delta = space.into_delta()?;
    assert!(rt; delta.pages().len() == 1);
    for stored in delta.pages() {
        assert!(rt; stored.slot() == 2);
        let written = stored.written(&Page::new([9; PAGE_SIZE]));
        assert!(rt; written.get(4093) == 9);
        assert!(rt; written.get(4094) == 1);
        assert!(rt; written.get(4095) == 0x80);
    }
    Ok(())
}

/// Compares a delta with that of one store: the word 0xaabbccdd at 8 of the third page.
fn compare_word<R: Abort>(rt: &R, delta: &Delta) {
    assert!(rt; delta.pages().len() == 1);
    for stored in delta.pages() {
        assert!(rt; stored.slot() == 2);
        let written = stored.written(&Page::new([9; PAGE_SIZE]));
        assert!(rt; written.get(7) == 9);
        assert!(rt; written.get(8) == 0xdd);
        assert!(rt; written.get(11) == 0xaa);
        assert!(rt; written.get(12) == 9);
    }
}

#[test]
fn an_untouched_page_has_no_share_taken(rt: HostRuntime) -> Result<(), AllocError> {
    let pages = vec![in rt.alloc();
        MappedPage::new(0x10, Perm::R | Perm::W),
        MappedPage::new(0x11, Perm::R | Perm::W),
        MappedPage::new(0x12, Perm::R | Perm::W),
    ]?;
    let map = Arc::new(rt.alloc(), PageMap::new(rt.alloc(), pages)?)?;
    let first = Arc::new(rt.alloc(), Page::new([3; PAGE_SIZE]))?;
    let second = Arc::new(rt.alloc(), Page::new([5; PAGE_SIZE]))?;
    let third = Arc::new(rt.alloc(), Page::new([7; PAGE_SIZE]))?;
    let mut view = PageTable::empty(rt.alloc());
    view.push_shared(&first)?;
    view.push_shared(&second)?;
    view.push_shared(&third)?;
    let view = Arc::new(rt.alloc(), view)?;
    let mut space = Space::new(rt.alloc(), &view, &map)?;
    assert!(rt; Arc::strong_count(&first) == 2);
    assert!(rt; space.load(0x1_0000, Size::Two) == Ok(0x0303));
    assert!(rt; Arc::strong_count(&first) == 3);
    assert!(rt; space.load(0x1_0ffc, Size::Four) == Ok(0x0303_0303));
    assert!(rt; Arc::strong_count(&first) == 3);
    assert!(rt; space.store(0x1_2008, Size::Four, 0xaabb_ccdd) == Ok(()));
    assert!(rt; space.load(0x1_200a, Size::Two) == Ok(0xaabb));
    assert!(rt; space.load(0x1_200c, Size::Four) == Ok(0x0707_0707));
    let reads = space.reads()?;
    assert!(rt; reads.pages().len() == 2);
    assert!(rt; reads.pages()[0].slot() == 0);
    assert!(rt; reads.pages()[0].page().get(0) == 3);
    assert!(rt; reads.pages()[1].slot() == 2);
    assert!(rt; reads.pages()[1].page().get(8) == 7);
    compare_word(&rt, &space.into_delta()?);
    assert!(rt; Arc::strong_count(&second) == 2);
    Ok(())
}

#[test]
fn a_page_is_entered_before_its_stores(rt: HostRuntime) -> Result<(), AllocError> {
    let pages = vec![in rt.alloc();
        MappedPage::new(0x10, Perm::R | Perm::W | Perm::X),
        MappedPage::new(0x11, Perm::R | Perm::W),
    ]?;
    let map = Arc::new(rt.alloc(), PageMap::new(rt.alloc(), pages)?)?;
    let mut view = PageTable::empty(rt.alloc());
    view.push(Page::new([3; PAGE_SIZE]))?;
    view.push(Page::new([5; PAGE_SIZE]))?;
    let view = Arc::new(rt.alloc(), view)?;
    let mut space = Space::new(rt.alloc(), &view, &map)?;
    assert!(rt; space.enter(0x1_1000) == None);
    assert!(rt; space.enter(0x1_2000) == None);
    assert!(rt; space.reads()?.pages().len() == 0);
    assert!(rt; space.enter(0x1_0ffc) == Some(0));
    assert!(rt; space.reads()?.pages().len() == 1);
    assert!(rt; space.store(0x1_0004, Size::One, 9) == Ok(()));
    assert!(rt; space.enter(0x1_0ffc) == None);
    Ok(())
}

#[test]
fn a_view_shows_its_bytes(rt: HostRuntime) -> Result<(), AllocError> {
    let pages = vec![in rt.alloc(); MappedPage::new(0x10, Perm::R | Perm::W)]?;
    let map = Arc::new(rt.alloc(), PageMap::new(rt.alloc(), pages)?)?;
    let mut view = PageTable::empty(rt.alloc());
    view.push(Page::new([3; PAGE_SIZE]))?;
    let view = Arc::new(rt.alloc(), view)?;
    let mut space = Space::new(rt.alloc(), &view, &map)?;
    assert!(rt; space.store(0x1_0004, Size::One, 9) == Ok(()));
    let mut other = [3; PAGE_SIZE];
    assert!(rt; space.shows(0, &other));
    other[4095] = 4;
    assert!(rt; !space.shows(0, &other));
    Ok(())
}
