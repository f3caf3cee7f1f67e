//! The memory and the pages that a setup starts with.

ghost use Rattle.std.specs.Prelude.{◌≡◌, ◌<◌, ◌≤◌, ◌+◌, ◌*◌, ◌^◌, [], ◌∷◌, ◌++◌, length, replicate, slice_index, IfOk, OnOk};
ghost use Rattle.std.specs.Arc.{arc_value};
ghost use Rattle.memory_spec.specs.Pages.{zero_page};
ghost use Rattle.machine_spec.specs.Setup as setup;

use bitflags::Flags;
use machine_spec::{
    HEADER_PAGE, INPUT_PAGE, INPUT_PAGES, MOST_INPUT_BYTES, STACK_PAGE, STACK_PAGES,
};
use page_store::{MappedPage, Page, PageMap, PageTable, Perm};
use std::alloc::{AllocError, Global};
use std::sync::Arc;

/// The page of the input of this number, zero past its end.
fn input_page(input: &[u8], k: usize) -> [u8; 4096]
    requires { k < INPUT_PAGES }
    ensures { result ≡ setup.input_page input.now k }
{
    let mut page = [0; 4096];
    let start = input.len().min(4096 * k);
    let end = input.len().min(4096 * k + 4096);
    page[..end - start].copy_from_slice(&input[start..end]);
    page
}

/// The header page of an input of this length.
#[tactic(auto, unfolding(machine_spec::specs::Setup::header_page))]
fn header_page(input: &[u8]) -> [u8; 4096]
    requires { length input.now < 2 ^ 32 }
    ensures { result ≡ setup.header_page input.now }
{
    let [first, second, third, fourth] = (input.len() as u32).to_le_bytes();
    let mut page = [0; 4096];
    page[0] = first;
    page[1] = second;
    page[2] = third;
    page[3] = fourth;
    page
}

/// Appends data pages.
fn push_data(pages: &mut Vec<MappedPage>, number: u32, count: u32) -> Result<(), AllocError>
    requires { number + count < 2 ^ 32 }
    ensures { OnOk result (pages.new.items ≡ pages.old.items ++ setup.data_pages number count) }
{
    for i in 0..count {
        pages.push(MappedPage::new(number + i, Perm::from_bits_retain(6)))?;
    }
    Ok(())
}

/// All pages of a setup: the image's, the input's header and pages, and the stacks.
#[tactic(auto, unfolding(machine_spec::specs::Setup::map_of))]
pub fn pages_of(alloc: Global, image: &PageMap) -> Result<Vec<MappedPage>, AllocError>
    ensures { IfOk result (λ pages. pages.items
        ≡ image.now ++ setup.data_pages HEADER_PAGE 1 ++ setup.data_pages INPUT_PAGE INPUT_PAGES
        ++ setup.data_pages STACK_PAGE STACK_PAGES) }
{
    let mut pages = Vec::new(alloc);
    pages.extend_from_slice(image.pages())?;
    push_data(&mut pages, HEADER_PAGE, 1)?;
    push_data(&mut pages, INPUT_PAGE, INPUT_PAGES)?;
    push_data(&mut pages, STACK_PAGE, STACK_PAGES)?;
    Ok(pages)
}

/// A page of zeros, which all slots with zeros share.
fn zeros(alloc: Global) -> Result<Arc<Page>, AllocError>
    ensures { IfOk result (λ page. arc_value page ≡ zero_page) }
{
    let page = Arc::new(alloc, Page::zero())?;
    Ok(page)
}

/// The memory that a setup starts with: the image's pages, the input's header and pages, and zeros.
pub fn memory_of(alloc: Global, image: &PageTable, input: &[u8]) -> Result<PageTable, AllocError>
    requires { length input.now ≤ MOST_INPUT_BYTES }
    ensures { IfOk result (λ table. table
        ≡ image.now ++ setup.header_page input.now ∷ [] ++ setup.input_memory input.now
        ++ setup.stack_memory) }
{
    let zero = zeros(alloc)?;
    let mut table = image.snapshot()?;
    table.push(Page::new(header_page(input)))?;
    push_input(&mut table, input, &zero)?;
    push_stacks(&mut table, &zero)?;
    Ok(table)
}

/// Appends a page of the input. A page that begins at the input's end or past it is the shared page of zeros.
#[tactic(auto, using(crate::proofs::Zeros::past_the_end))]
fn push_input_page(
    table: &mut PageTable,
    input: &[u8],
    k: usize,
    zero: &Arc<Page>,
) -> Result<(), AllocError>
    requires number { k < INPUT_PAGES }
    requires zero { arc_value zero.now ≡ zero_page }
    ensures { OnOk result (table.new ≡ table.old ++ setup.input_page input.now k ∷ []) }
{
    if input.len() <= 4096 * k {
        table.push_shared(zero)
    } else {
        table.push(Page::new(input_page(input, k)))
    }
}

/// Appends the pages of the input.
#[tactic(auto, unfolding(machine_spec::specs::Setup::input_memory))]
fn push_input(table: &mut PageTable, input: &[u8], zero: &Arc<Page>) -> Result<(), AllocError>
    requires { arc_value zero.now ≡ zero_page }
    ensures { OnOk result (table.new ≡ table.old ++ setup.input_memory input.now) }
{
    for k in 0..INPUT_PAGES as usize {
        push_input_page(table, input, k, zero)?;
    }
    Ok(())
}

/// Appends the pages of all stacks: one shared page of zeros.
#[tactic(auto, unfolding(machine_spec::specs::Setup::stack_memory))]
fn push_stacks(table: &mut PageTable, zero: &Arc<Page>) -> Result<(), AllocError>
    requires { arc_value zero.now ≡ zero_page }
    ensures { OnOk result (table.new ≡ table.old ++ setup.stack_memory) }
{
    for _ in 0..STACK_PAGES {
        table.push_shared(zero)?;
    }
    Ok(())
}
