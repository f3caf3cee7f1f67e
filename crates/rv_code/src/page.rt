//! A decoded page.

ghost use Rattle.std.specs.Prelude.{◌≡◌, ◌<◌, ◌≤◌, ◌*◌, ◌+◌, IfOk, slice_index_or};
ghost use Rattle.std.specs.Arc.{arc_value};
ghost use Rattle.memory_spec.specs.Access.{number_in};
ghost use Rattle.memory_spec.specs.declared.Size.TheVariants.{Four};
ghost use Rattle.rv_code.specs.Meaning.{StandsFor, IsCodeOf, other};

use super::operation::{OTHER, Operation};
use super::reading::operation_of;
use memory_spec::{PAGE_NUMBERS, PAGE_SIZE};
use page_store::Page;
use std::alloc::{AllocError, Global};
use std::marker::Model;
use std::sync::Arc;

/// How many words a page has.
pub const WORDS: usize = 1024;

/// A page of code: its number, its bytes, and for each word the operation that stands for it. One more operation
/// follows them, which is left to a turn of its own, so that a loop over the operations needs no check for the end.
#[derive(Drop)]
pub struct CodePage {
    number: u32,
    page: Arc<Page>,
    operations: [Operation; 1025],
}

impl Model for CodePage {
    ghost use Rattle.rv_code.specs.Meaning.{Decoded, IsCodeOf};
    ghost use Rattle.std.specs.Arc.{arc_value};

    ghost Value = { Decoded };

    ghost view = { λ c. record { number = c.number; bytes = arc_value c.page; operations = c.operations } };

    ghost invariant = { λ c.
        IsCodeOf (record { number = c.number; bytes = arc_value c.page; operations = c.operations }) };
}

/// The word of a page by its index.
#[tactic(auto, unfolding(memory_spec::specs::Access::number_in))]
fn word_at(bytes: &[u8; PAGE_SIZE], index: usize) -> u32
    requires { index < WORDS }
    ensures { result ≡ number_in bytes.now (4 * index) Four }
{
    let offset = 4 * index;
    u32::from(bytes[offset])
        + (u32::from(bytes[offset + 1]) << 8)
        + (u32::from(bytes[offset + 2]) << 16)
        + (u32::from(bytes[offset + 3]) << 24)
}

/// The operations of the words of a page by its number, and the one after them.
#[inline(never)]
fn operations_of(number: u32, bytes: &[u8; PAGE_SIZE]) -> [Operation; 1025]
    requires { number < PAGE_NUMBERS }
    ensures { IsCodeOf (record { number = number; bytes = bytes.now; operations = result }) }
{
    let start = number * PAGE_SIZE as u32;
    let mut operations = [OTHER; 1025];
    for index in 0..WORDS {
        operations[index] = operation_of(word_at(bytes, index), start + 4 * index as u32);
    }
    operations
}

/// The page of a number, decoded.
#[inline(never)]
fn decoded(number: u32, page: Arc<Page>) -> CodePage
    requires { number < PAGE_NUMBERS }
    ensures number { result.number ≡ number }
    ensures bytes { result.bytes ≡ arc_value page }
{
    CodePage {
        number,
        operations: operations_of(number, page.bytes()),
        page,
    }
}

impl CodePage {
    /// The page of a number, decoded, on the heap.
    ///
    /// # Errors
    ///
    /// An error if the host's memory ran out.
    pub fn new(alloc: Global, number: u32, page: Arc<Page>) -> Result<Box<CodePage>, AllocError>
        requires { number < PAGE_NUMBERS }
        ensures number { IfOk result (λ code. code.value.number ≡ number) }
        ensures bytes { IfOk result (λ code. code.value.bytes ≡ arc_value page) }
    {
        Ok(Box::new(alloc, decoded(number, page))?)
    }

    /// Its number: its address divided by 4,096.
    #[inline(always)]
    pub fn number(&self) -> u32
        ensures { result ≡ self.now.number }
    {
        self.number
    }

    /// Its bytes.
    #[inline(always)]
    pub fn bytes(&self) -> &[u8; PAGE_SIZE]
        ensures { result.now ≡ self.now.bytes }
    {
        self.page.bytes()
    }

    /// The operation of a word by its index, or the one after the last word. A caller learns that it stands for the
    /// word, and that the one after the last is left to a turn of its own.
    #[inline(always)]
    pub fn operation(&self, index: usize) -> &Operation
        requires { index ≤ WORDS }
        ensures value { result.now ≡ slice_index_or self.now.operations index other }
        ensures code { IsCodeOf self.now }
    {
        &self.operations[index]
    }
}
