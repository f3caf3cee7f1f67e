//! A memory, as the list of its pages.
//!
//! Copies of a memory share each page up to the first store to it: a page that only one memory lists is written in
//! place, and a page that another one lists too is copied first.

ghost use Rattle.std.specs.Prelude.{◌≡◌, ◌+◌, ◌<◌, ◌≤◌, [], ◌∷◌, ◌++◌, length, map, slice_set, IfOk, OnOk, OnErr};
ghost use Rattle.std.specs.Rc.{rc_value};
ghost use Rattle.memory_spec.specs.Access.{byte_count};
ghost use Rattle.memory_spec.specs.Pages.{page_of};
ghost use Rattle.plain_machine.specs.Stored.{byte_of, with_number};

use super::put::appends_all;
use machine_calls::View;
use memory_spec::{PAGE_SIZE, Size};
use page_store::{Page, PageMap, PageTable};
use std::alloc::{AllocError, Global};
use std::marker::Model;
use std::rc::Rc;

/// A memory: a page for each slot. A clause sees the list of their bytes.
#[derive(Drop)]
pub(super) struct Memory {
    alloc: Global,
    pages: Vec<Rc<Page>>,
}

impl Model for Memory {
    ghost use Rattle.std.specs.Prelude.{map};
    ghost use Rattle.std.specs.Rc.{rc_value};
    ghost use Rattle.memory_spec.specs.Pages.{Memory as Pages};

    ghost Value = { Pages };

    ghost view = { λ m. map rc_value m.pages.items };
}

/// One byte of a value, counted from the least.
#[inline(always)]
fn byte_at(value: u32, k: u32) -> u8
    requires { k < 4 }
    ensures { result ≡ byte_of value k }
{
    ((value >> (8 * k)) & 0xff) as u8
}

/// Writes the lowest bytes of a value into a page, byte after byte.
#[inline(always)]
#[tactic(auto, unfolding(crate::specs::Stored::with_number))]
fn write_number(page: &mut Page, offset: usize, size: Size, value: u32)
    requires { offset + byte_count size ≤ PAGE_SIZE }
    ensures { page.new ≡ with_number page.old offset size value }
{
    page.set(offset, byte_at(value, 0));
    match size {
        Size::One => {}
        Size::Two => page.set(offset + 1, byte_at(value, 1)),
        Size::Four => {
            page.set(offset + 1, byte_at(value, 1));
            page.set(offset + 2, byte_at(value, 2));
            page.set(offset + 3, byte_at(value, 3));
        }
    }
}

/// A copy of a page, with the lowest bytes of a value written at an offset.
#[cold]
#[inline(never)]
fn written_copy(
    alloc: Global,
    page: &Page,
    offset: usize,
    size: Size,
    value: u32,
) -> Result<Rc<Page>, AllocError>
    requires { offset + byte_count size ≤ PAGE_SIZE }
    ensures { IfOk result (λ copy. rc_value copy ≡ with_number page.now offset size value) }
{
    let mut copy = page.copy();
    write_number(&mut copy, offset, size, value);
    Ok(Rc::new(alloc, copy)?)
}

/// The same pages in another list.
fn shared(alloc: Global, pages: &[Rc<Page>]) -> Result<Vec<Rc<Page>>, AllocError>
    ensures { IfOk result (λ shared. map rc_value shared.items ≡ map rc_value pages.now) }
{
    let mut shared = Vec::with_capacity(alloc, pages.len())?;
    for page in pages {
        shared.push(page.clone()?)?;
    }
    Ok(shared)
}

impl View for Memory {
    ghost pages = { λ memory. memory };

    fn share(&self) -> Result<Memory, AllocError> {
        Ok(Memory {
            alloc: self.alloc,
            pages: shared(self.alloc, &self.pages)?,
        })
    }

    fn appends_all(map: &PageMap, start: u32, count: u32) -> bool {
        appends_all(map, start, count)
    }
}

impl Memory {
    /// A memory of copies of a table's pages.
    ///
    /// # Errors
    ///
    /// An error if the host's memory ran out.
    pub(super) fn of(alloc: Global, table: &PageTable) -> Result<Memory, AllocError>
        ensures { IfOk result (λ memory. memory ≡ table.now) }
    {
        let mut pages = Vec::with_capacity(alloc, table.len())?;
        for slot in 0..table.len() {
            pages.push(Rc::new(alloc, table.page(slot).copy())?)?;
        }
        Ok(Memory { alloc, pages })
    }

    /// How many pages there are.
    pub(super) fn len(&self) -> usize
        ensures { result ≡ length self.now }
    {
        self.pages.len()
    }

    /// The page in a slot.
    #[inline(always)]
    pub(super) fn page(&self, slot: usize) -> &Page
        requires { slot < length self.now }
        ensures { result.now ≡ page_of self.now slot }
    {
        &self.pages[slot]
    }

    /// Writes the lowest bytes of a value at an offset into the page in a slot.
    ///
    /// # Errors
    ///
    /// An error if the host's memory ran out; nothing is written then.
    #[inline(always)]
    pub(super) fn write(
        &mut self,
        slot: usize,
        offset: usize,
        size: Size,
        value: u32,
    ) -> Result<(), AllocError>
        requires slot { slot < length self.old }
        requires inside { offset + byte_count size ≤ PAGE_SIZE }
        ensures ok { OnOk result (self.new
            ≡ slice_set self.old slot (with_number (page_of self.old slot) offset size value)) }
        ensures err { OnErr result (self.new ≡ self.old) }
    {
        match Rc::get_mut(&mut self.pages[slot]) {
            Some(page) => write_number(page, offset, size, value),
            None => {
                self.pages[slot] = written_copy(self.alloc, self.page(slot), offset, size, value)?;
            }
        }
        Ok(())
    }
}
