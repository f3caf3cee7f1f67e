//! The decoded pages of a memory.

ghost use Rattle.std.specs.Prelude.{◌≡◌, ◌<◌, length, option_map, slice_index_or, None, IfOk};
ghost use Rattle.memory_spec.specs.Pages.{page_of, unmapped};
ghost use Rattle.rv_code.specs.Pages.{IsDecodedAs, AreDecoded};

use super::page::CodePage;
use memory_spec::PAGE_NUMBERS;
use page_store::{PageMap, PageTable};
use std::alloc::{AllocError, Global};
use std::marker::Model;

/// The pages of a memory that may be executed, decoded, by slot. A clause sees the list of them.
#[derive(Drop)]
pub struct Code {
    pages: Vec<Option<Box<CodePage>>>,
}

impl Model for Code {
    ghost use Rattle.std.specs.Prelude.{List, Option, map, option_map};
    ghost use Rattle.rv_code.specs.Meaning.{Decoded};

    ghost Value = { List (Option Decoded) };

    ghost view = { λ c. map (option_map (λ page. page.value)) c.pages.items };
}

/// The page in a slot, decoded, if it may be executed.
fn decode_slot(
    alloc: Global,
    map: &PageMap,
    memory: &PageTable,
    slot: usize,
) -> Result<Option<Box<CodePage>>, AllocError>
    requires mapped { slot < length map.now }
    requires stored { slot < length memory.now }
    ensures { IfOk result (λ page.
        IsDecodedAs (slice_index_or map.now slot unmapped) (page_of memory.now slot)
        (option_map (λ p. p.value) page)) }
{
    let mapped = map.page(slot);
    if !mapped.permission().executes() || mapped.number() >= PAGE_NUMBERS {
        return Ok(None);
    }
    let code = CodePage::new(alloc, mapped.number(), memory.page_arc(slot)?)?;
    Ok(Some(code))
}

impl Code {
    /// The pages of a memory that may be executed by its map, decoded.
    ///
    /// # Errors
    ///
    /// An error if the host's memory ran out, or a page has as many holders as can be counted.
    pub fn of(alloc: Global, map: &PageMap, memory: &PageTable) -> Result<Code, AllocError>
        requires { length memory.now ≡ length map.now }
        ensures { IfOk result (λ code. AreDecoded map.now memory.now code) }
    {
        let mut pages = Vec::with_capacity(alloc, map.len())?;
        for slot in 0..map.len() {
            pages.push(decode_slot(alloc, map, memory, slot)?)?;
        }
        Ok(Code { pages })
    }

    /// The decoded page in a slot, if there is one.
    #[inline(always)]
    pub fn page(&self, slot: usize) -> Option<&CodePage>
        ensures { option_map (λ page. page.now) result ≡ slice_index_or self.now slot None }
    {
        match self.pages.get(slot) {
            Some(Some(page)) => Some(page),
            _ => None,
        }
    }
}
