//! The image of an executable: its pages, their access rights and bytes, and its entry.

ghost use Rattle.std.specs.Prelude.{◌≡◌, [], ◌∷◌, ◌++◌, true, if◌then◌else◌, map, filter, IfOk, IfErr, OnOk};
ghost use Rattle.std.specs.Arc.{arc_value};
ghost use Rattle.memory_spec.specs.Pages.{zero_page};
ghost use Rattle.elf_spec.specs.Header.{segments};
ghost use Rattle.elf_spec.specs.Segments.{page_permission, touches};
ghost use Rattle.elf_spec.specs.Image.{image_pages, image_memory, image_page, is_image};
ghost use Rattle.elf_load.specs.Header.{header_of};
ghost use Rattle.elf_load.specs.Load.{IsImageOf, Refuses};
ghost use Rattle.elf_load.specs.declared.loader.LoadError.TheVariants.{NoMemory};

use crate::fields::word_at;
use crate::header::Header;
use crate::image::{is_blank, page_bytes, segments_of, segments_on};
use crate::pages::{highest_page, rights_of, touched_pages};
use crate::refusals::refusal;
use bitflags::Flags;
use elf_spec::{Refusal, accepted_is_inside};
use page_store::{MappedPage, Page, PageMap, PageTable, Perm};
use std::alloc::{AllocError, Global};
use std::sync::Arc;

/// A loaded executable.
#[derive(Drop)]
pub struct Image {
    /// The mapped pages, ascending.
    pub map: PageMap,
    /// The bytes of each of them.
    pub pages: PageTable,
    /// The address of the first instruction.
    pub entry: u32,
}

/// Why no image was made.
#[derive(Clone, Copy)]
pub enum LoadError {
    /// The file is refused, for this reason.
    Refused(Refusal),
    /// The host's memory ran out.
    NoMemory,
}

impl From<AllocError> for LoadError {
    ghost from_gives = { λ _ error. error ≡ NoMemory };

    fn from(_error: AllocError) -> LoadError {
        LoadError::NoMemory
    }
}

/// The image of an executable (System V gABI, ch. 5, Program Loading).
///
/// # Errors
///
/// `Refused` with the first refusal if the file has one; `NoMemory` if the host's memory ran out.
pub fn load(alloc: Global, bytes: &[u8]) -> Result<Image, LoadError>
    ensures loaded { IfOk result (λ image. IsImageOf bytes.now image) }
    ensures refused { IfErr result (Refuses bytes.now) }
{
    match refusal(alloc, bytes)? {
        Some(refusal) => Err(LoadError::Refused(refusal)),
        None => Ok(image_of(alloc, pages_of(alloc, bytes)?, bytes)?),
    }
}

/// The pages of an image, before they are known to ascend.
#[derive(Drop)]
struct Pages {
    mapped: Vec<MappedPage>,
    table: PageTable,
    /// A page of zeros, which all slots with zeros share.
    zero: Arc<Page>,
}

/// The image of an accepted file with these pages.
fn image_of(alloc: Global, pages: Pages, bytes: &[u8]) -> Result<Image, AllocError>
    requires accepted { is_image bytes.now ≡ true }
    requires mapped { pages.mapped.items ≡ image_pages bytes.now }
    requires table { pages.table ≡ image_memory bytes.now }
    ensures { IfOk result (IsImageOf bytes.now) }
{
    accepted_is_inside(bytes);
    Ok(Image {
        map: PageMap::new(alloc, pages.mapped)?,
        pages: pages.table,
        entry: word_at(bytes, 24),
    })
}

/// All pages that a segment touches, ascending.
fn pages_of(alloc: Global, bytes: &[u8]) -> Result<Pages, AllocError>
    ensures mapped { IfOk result (λ pages. pages.mapped.items ≡ image_pages bytes.now) }
    ensures table { IfOk result (λ pages. pages.table ≡ image_memory bytes.now) }
{
    let marks = touched_pages(alloc, bytes)?;
    let headers = segments_of(alloc, bytes)?;
    let mut pages = Pages {
        mapped: Vec::new(alloc),
        table: PageTable::empty(alloc),
        zero: Arc::new(alloc, Page::zero())?,
    };
    for number in 0..highest_page(bytes) + 1 {
        let touched = marks[number as usize];
        add_page(alloc, &mut pages, bytes, &headers, number, touched)?;
    }
    Ok(pages)
}

/// Appends the page of a number, if a segment touches it.
fn add_page(
    alloc: Global,
    pages: &mut Pages,
    bytes: &[u8],
    headers: &[Header],
    number: u32,
    touched: bool,
) -> Result<(), AllocError>
    requires headers { map header_of headers.now ≡ segments bytes.now }
    requires zero { arc_value pages.old.zero ≡ zero_page }
    ensures mapped { OnOk result (pages.new.mapped.items ≡ (if touched
        then pages.old.mapped.items
        ++ record { number = number; permission = page_permission (segments bytes.now) number } ∷ []
        else pages.old.mapped.items)) }
    ensures table { OnOk result (pages.new.table ≡ (if touched
        then pages.old.table ++ image_page bytes.now number ∷ []
        else pages.old.table)) }
    ensures zero { pages.new.zero ≡ pages.old.zero }
{
    if touched {
        let near = segments_on(alloc, headers, number)?;
        let rights = Perm::from_bits_retain(rights_of(near.as_slice()));
        pages.mapped.push(MappedPage::new(number, rights))?;
        push_bytes(
            &mut pages.table,
            &pages.zero,
            bytes,
            near.as_slice(),
            number,
        )?;
    }
    Ok(())
}

/// Appends the bytes of the page of a number; if none is from the file, the shared page of zeros.
fn push_bytes(
    table: &mut PageTable,
    zero: &Arc<Page>,
    bytes: &[u8],
    near: &[Header],
    number: u32,
) -> Result<(), AllocError>
    requires zero { arc_value zero.now ≡ zero_page }
    requires near { map header_of near.now ≡ filter (touches number) (segments bytes.now) }
    ensures { OnOk result (table.new ≡ table.old ++ image_page bytes.now number ∷ []) }
{
    if is_blank(bytes, near, number) {
        table.push_shared(zero)
    } else {
        push_filled(table, bytes, near, number)
    }
}

/// Appends the bytes of the page of a number, on a page of its own.
///
/// It is a function of its own, since a function clears its variables, here a page, at its start, even if it doesn't
/// use them.
fn push_filled(
    table: &mut PageTable,
    bytes: &[u8],
    near: &[Header],
    number: u32,
) -> Result<(), AllocError>
    requires { map header_of near.now ≡ filter (touches number) (segments bytes.now) }
    ensures { OnOk result (table.new ≡ table.old ++ image_page bytes.now number ∷ []) }
{
    table.push(Page::new(page_bytes(bytes, near, number)))
}
