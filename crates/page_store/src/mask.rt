//! Marks of the places of a page.

ghost use Rattle.std.specs.Prelude.{◌≡◌, ◌<◌, ◌≤◌, ◌+◌, ◌*◌, ◌^◌, ℕ, false, true, not, Decides, length, take, drop, slice_index, slice_index_or, slice_set, IfSome, IfNone};
ghost use Rattle.std.specs.Simd.Lanes.{mask_l};
ghost use Rattle.memory_spec.specs.Workspace.{no_marks};
ghost use Rattle.thunk_spec.specs.Delta.{is_stored, chosen, spread};
ghost use Rattle.page_store.specs.Flags.{flags_of};

use super::merging::{WORD_PLACES, gives_word, merge_word, same_between};
use memory_spec::PAGE_SIZE;
use std::marker::Model;

/// How many words hold the marks of a page.
pub const MASK_WORDS: usize = PAGE_SIZE / 64;

/// For each of the 4,096 places of a page, whether it is marked. A clause sees the list of these.
#[derive(Drop)]
pub struct Mask {
    words: [u64; MASK_WORDS],
}

impl Model for Mask {
    ghost use Rattle.std.specs.Prelude.{◌≡◌, List, Bool, length};
    ghost use Rattle.page_store.specs.Flags.{flags_of};

    ghost Value = { List Bool };

    ghost view = { λ m. flags_of m.words };

    ghost invariant = { λ m. length m.words ≡ 64 };
}

/// The place of the first word that isn't zero.
fn first_marked(words: &[u64]) -> Option<usize>
    ensures found { IfSome result (λ k. (k < length words.now) × (0 < slice_index words.now k)
        × (slice_index words.now k < 2 ^ 64)) }
    ensures missing { IfNone result ((k : ℕ) → k < length words.now → slice_index words.now k ≡ 0) }
{
    for (k, word) in words.iter().enumerate() {
        if *word != 0 {
            return Some(k);
        }
    }
    None
}

impl Mask {
    /// No place is marked.
    pub fn new() -> Mask
        ensures { result ≡ no_marks }
    {
        Mask {
            words: [0; MASK_WORDS],
        }
    }

    /// Whether a place is marked.
    #[inline(always)]
    pub fn get(&self, place: usize) -> bool
        requires { place < PAGE_SIZE }
        ensures mark { result ≡ slice_index_or self.now place false }
        ensures whole { length self.now ≡ PAGE_SIZE }
    {
        (self.words[place / 64] >> (place % 64)) & 1 == 1
    }

    /// The marks of the 64 places of a word as a number, the first one lowest.
    #[inline(always)]
    pub fn word(&self, number: usize) -> u64
        requires { number < 64 }
        ensures marks { result ≡ mask_l (take 64 (drop (64 * number) self.now)) }
        ensures whole { length self.now ≡ PAGE_SIZE }
    {
        self.words[number]
    }

    /// Marks a place.
    #[inline(always)]
    pub fn set(&mut self, place: usize)
        requires { place < PAGE_SIZE }
        ensures { self.new ≡ slice_set self.old place true }
    {
        self.words[place / 64] |= 1 << (place % 64);
    }

    /// Whether no place is marked.
    pub fn is_empty(&self) -> bool
        ensures { result ≡ not (is_stored self.now) }
    {
        match first_marked(&self.words) {
            None => true,
            Some(_) => false,
        }
    }

    /// Writes the bytes of another page at the marked places of a page, 64 places at a time. Words that mark nothing
    /// are skipped; most mark nothing.
    pub fn merge(&self, page: &mut [u8], written: &[u8])
        requires page_is_whole { length page.old ≡ PAGE_SIZE }
        requires written_is_whole { length written.now ≡ PAGE_SIZE }
        ensures { page.new ≡ spread self.now (chosen self.now written.now) page.old }
    {
        for number in 0..MASK_WORDS {
            let word = self.word(number);
            if word != 0 {
                merge_word(page, written, WORD_PLACES * number, word);
            }
        }
    }

    /// Whether a page becomes equal to another one once the other's bytes are written at the marked places. The places
    /// between two words with marks are compared at once, since most words have none.
    pub fn gives_written(&self, page: &[u8], written: &[u8]) -> bool
        requires page_is_whole { length page.now ≡ PAGE_SIZE }
        requires written_is_whole { length written.now ≡ PAGE_SIZE }
        ensures { Decides result (spread self.now (chosen self.now written.now) page.now
            ≡ written.now) }
    {
        let mut from = 0;
        for number in 0..MASK_WORDS {
            let word = self.word(number);
            if word != 0 {
                let first = WORD_PLACES * number;
                if !same_between(page, written, from, first) {
                    return false;
                }
                if !gives_word(page, written, first, word) {
                    return false;
                }
                from = first + WORD_PLACES;
            }
        }
        same_between(page, written, from, PAGE_SIZE)
    }
}
