//! A commit writes the marked bytes, and doesn't change what was shared before.

use page_store::{Delta, PAGE_SIZE, Page, PageDelta, PageTable, StoredPage, *};
use std::alloc::{AllocError, Global};

#[test]
fn a_snapshot_keeps_what_it_has(rt: HostRuntime) -> Result<(), AllocError> {
    let mut table = PageTable::empty(rt.alloc());
    table.push(Page::zero())?;
    table.push(Page::new([5; PAGE_SIZE]))?;
    let before = table.snapshot()?;
    let mut stored = StoredPage::of(&Page::zero());
    stored.page.set(7, 1);
    stored.mask.set(7);
    if stored.mask.is_empty() {
        return Ok(());
    }
    let mut pages = Vec::new(rt.alloc());
    pages.push(PageDelta::new(rt.alloc(), 1, Box::new(rt.alloc(), stored)?)?)?;
    let delta = Delta::new(pages);
    commit(&mut table, &delta)?;
    assert!(rt; table.page(1).get(7) == 1);
    assert!(rt; table.page(1).get(8) == 5);
    assert!(rt; before.page(1).get(7) == 5);
    Ok(())
}

/// The delta of a thread that stored a byte at each of these places of the page in slot 0, which it viewed as this
/// page.
fn delta_of(alloc: Global, viewed: &Page, byte: u8, places: &[usize]) -> Result<Delta, AllocError> {
    let mut stored = StoredPage::of(viewed);
    for place in places.iter() {
        if *place < PAGE_SIZE {
            stored.page.set(*place, byte);
            stored.mask.set(*place);
        }
    }
    let mut pages = Vec::new(alloc);
    if !stored.mask.is_empty() {
        pages.push(PageDelta::new(alloc, 0, Box::new(alloc, stored)?)?)?;
    }
    Ok(Delta::new(pages))
}

#[test]
fn commits_to_one_page_come_together(rt: HostRuntime) -> Result<(), AllocError> {
    let viewed = Page::new([5; PAGE_SIZE]);
    let mut table = PageTable::empty(rt.alloc());
    table.push(viewed.copy())?;
    // The first finds the page as it was viewed, the second one a page that another changed: the places that it stored
    // to win.
    commit(&mut table, &delta_of(rt.alloc(), &viewed, 1, &[0, 7])?)?;
    let between = table.snapshot()?;
    commit(&mut table, &delta_of(rt.alloc(), &viewed, 2, &[7, 8])?)?;
    assert!(rt; between.len() > 0);
    assert!(rt; table.len() > 0);
    let mut wanted = [5; PAGE_SIZE];
    wanted[0] = 1;
    wanted[7] = 1;
    assert!(rt; *between.page(0) == Page::new(wanted));
    wanted[7] = 2;
    wanted[8] = 2;
    assert!(rt; *table.page(0) == Page::new(wanted));
    Ok(())
}
