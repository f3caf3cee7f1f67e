//! A snapshot keeps its pages.

use page_store::{PAGE_SIZE, Page, PageTable};
use std::alloc::{AllocError, Global};
use std::sync::Arc;

#[test]
fn snapshot_keeps_the_old_page(rt: HostRuntime) -> Result<(), AllocError> {
    let mut table = PageTable::empty(rt.alloc());
    table.push(Page::zero())?;
    table.push(Page::new([7; PAGE_SIZE]))?;
    let before = table.snapshot()?;
    table.replace(1, Page::new([9; PAGE_SIZE]))?;
    assert!(rt; before.page(1).get(4095) == 7);
    assert!(rt; table.page(1).get(4095) == 9);
    assert!(rt; table.page(0) == before.page(0));
    assert!(rt; table != before);
    let shared = table.page_arc(1)?;
    assert!(rt; shared.get(0) == 9);
    Ok(())
}

/// A table of 100 pages, each filled with its slot: a full shelf, and one of four full groups and four pages.
fn numbered(alloc: Global) -> Result<PageTable, AllocError> {
    let mut table = PageTable::empty(alloc);
    for slot in 0..100u8 {
        table.push(Page::new([slot; PAGE_SIZE]))?;
    }
    Ok(table)
}

#[test]
fn replace_on_each_shelf_leaves_the_snapshot(rt: HostRuntime) -> Result<(), AllocError> {
    let mut table = numbered(rt.alloc())?;
    let before = table.snapshot()?;
    assert!(rt; table.len() == 100);
    // The first and the last place of a full group, the last of a full shelf, the first of the next, and the last page
    // of all.
    table.replace(0, Page::new([200; PAGE_SIZE]))?;
    table.replace(7, Page::new([201; PAGE_SIZE]))?;
    table.replace(63, Page::new([202; PAGE_SIZE]))?;
    table.replace(64, Page::new([203; PAGE_SIZE]))?;
    table.replace(99, Page::new([204; PAGE_SIZE]))?;
    assert!(rt; before.len() == 100);
    for slot in 0..100usize {
        let now = match slot {
            0 => 200,
            7 => 201,
            63 => 202,
            64 => 203,
            99 => 204,
            _ => slot as u8,
        };
        assert!(rt; slot < table.len());
        assert!(rt; slot < before.len());
        assert!(rt; table.page(slot).get(0) == now);
        assert!(rt; before.page(slot).get(0) == slot as u8);
    }
    Ok(())
}

#[test]
fn push_behind_a_snapshot_leaves_it(rt: HostRuntime) -> Result<(), AllocError> {
    let mut table = numbered(rt.alloc())?;
    let before = table.snapshot()?;
    let page = Arc::new(rt.alloc(), Page::new([250; PAGE_SIZE]))?;
    table.push_shared(&page)?;
    assert!(rt; before.len() == 100);
    assert!(rt; table.len() == 101);
    assert!(rt; table.len() > 100);
    assert!(rt; table.page(100).get(4095) == 250);
    assert!(rt; table.page(99).get(4095) == 99);
    Ok(())
}

#[test]
fn tables_are_equal_where_their_pages_are(rt: HostRuntime) -> Result<(), AllocError> {
    let table = numbered(rt.alloc())?;
    let mut other = numbered(rt.alloc())?;
    assert!(rt; table == other);
    assert!(rt; other.len() > 99);
    other.replace(99, Page::new([7; PAGE_SIZE]))?;
    assert!(rt; table != other);
    assert!(rt; other.len() > 99);
    other.replace(99, Page::new([99; PAGE_SIZE]))?;
    assert!(rt; table == other);
    other.push(Page::zero())?;
    assert!(rt; table != other);
    Ok(())
}

#[test]
fn a_table_of_a_list_has_its_pages(rt: HostRuntime) -> Result<(), AllocError> {
    let mut pages = Vec::new(rt.alloc());
    for slot in 0..100u8 {
        pages.push(Arc::new(rt.alloc(), Page::new([slot; PAGE_SIZE]))?)?;
    }
    let table = PageTable::new(rt.alloc(), pages)?;
    assert!(rt; table.len() == 100);
    assert!(rt; table == numbered(rt.alloc())?);
    Ok(())
}
