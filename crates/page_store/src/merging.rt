//! Writing marked bytes into a page, 64 places at a time.

ghost use Rattle.std.specs.Prelude.{◌≡◌, ◌<◌, ◌≤◌, ◌+◌, ◌==◌, ℕ, Decides, length, slice_index, if◌then◌else◌};
ghost use Rattle.std.specs.Int.{bit_at};

use std::simd::prelude::*;

/// How many places a word marks.
pub(super) const WORD_PLACES: usize = 64;

/// Which byte of a word marks a place.
#[rattlefmt::skip]
const BYTE_OF_PLACE: [usize; WORD_PLACES] = [
    0, 0, 0, 0, 0, 0, 0, 0, 1, 1, 1, 1, 1, 1, 1, 1,
    2, 2, 2, 2, 2, 2, 2, 2, 3, 3, 3, 3, 3, 3, 3, 3,
    4, 4, 4, 4, 4, 4, 4, 4, 5, 5, 5, 5, 5, 5, 5, 5,
    6, 6, 6, 6, 6, 6, 6, 6, 7, 7, 7, 7, 7, 7, 7, 7,
];

/// Which bit of that byte it is.
#[rattlefmt::skip]
const BIT_OF_PLACE: [u8; WORD_PLACES] = [
    1, 2, 4, 8, 16, 32, 64, 128, 1, 2, 4, 8, 16, 32, 64, 128,
    1, 2, 4, 8, 16, 32, 64, 128, 1, 2, 4, 8, 16, 32, 64, 128,
    1, 2, 4, 8, 16, 32, 64, 128, 1, 2, 4, 8, 16, 32, 64, 128,
    1, 2, 4, 8, 16, 32, 64, 128, 1, 2, 4, 8, 16, 32, 64, 128,
];

/// The written bytes at the places whose bit is set in a word, and those of the page elsewhere.
#[inline(always)]
fn select_marked(word: u64, written: u8x64, page: u8x64) -> u8x64
    requires written { length written ≡ 64 }
    requires page { length page ≡ 64 }
    ensures lanes { length result ≡ 64 }
    ensures each { (k : ℕ) → k < 64 → slice_index result k
        ≡ (if bit_at word k == 1 then slice_index written k else slice_index page k) }
{
    let bits = u8x64::from_array(BIT_OF_PLACE);
    let bytes = u64x1::splat(word).to_le_bytes().swizzle(BYTE_OF_PLACE);
    (bytes & bits).simd_eq(bits).select(written, page)
}

/// Writes those of 64 bytes of another page, from a place on, whose bit is set in a word. A word that marks all 64
/// places is handled first: steps that store much store to whole stretches.
#[inline(always)]
pub(super) fn merge_word(page: &mut [u8], written: &[u8], first: usize, word: u64)
    requires page { first + 64 ≤ length page.old }
    requires written { first + 64 ≤ length written.now }
    ensures each { (k : ℕ) → k < 64 → slice_index page.new (first + k)
        ≡ (if bit_at word k == 1 then slice_index written.now (first + k)
        else slice_index page.old (first + k)) }
    ensures before { (k : ℕ) → k < first → slice_index page.new k ≡ slice_index page.old k }
    ensures behind { (k : ℕ) → first + 64 ≤ k → slice_index page.new k ≡ slice_index page.old k }
{
    let wanted = u8x64::from_slice(&written[first..]);
    if word == u64::MAX {
        wanted.copy_to_slice(&mut page[first..]);
        return;
    }
    let before = u8x64::from_slice(&page[first..]);
    select_marked(word, wanted, before).copy_to_slice(&mut page[first..]);
}

/// At which of the 64 places from `first` on two pages differ, as a word whose lowest bit is the first place.
#[inline(always)]
fn differing(page: &[u8], written: &[u8], first: usize) -> u64
    requires page { first + 64 ≤ length page.now }
    requires written { first + 64 ≤ length written.now }
    ensures { (k : ℕ) → k < 64 → bit_at result k
        ≡ (if slice_index page.now (first + k) == slice_index written.now (first + k) then 0
        else 1) }
{
    u8x64::from_slice(&page[first..])
        .simd_ne(u8x64::from_slice(&written[first..]))
        .to_bitmask()
}

/// Whether two pages have the same bytes from one place up to another. Between adjacent words there are none, so that
/// case comes first.
#[inline(always)]
pub(super) fn same_between(page: &[u8], written: &[u8], from: usize, to: usize) -> bool
    requires ordered { from ≤ to }
    requires page { to ≤ length page.now }
    requires written { to ≤ length written.now }
    ensures { Decides result ((k : ℕ) → from ≤ k → k < to
        → slice_index page.now k ≡ slice_index written.now k) }
{
    if from == to {
        return true;
    }
    page[from..to] == written[from..to]
}

/// Whether 64 bytes of a page, from a place on, become equal to those of another page once the other's are written at
/// the places whose bit is set in a word. For a word that marks all places, no byte is compared.
pub(super) fn gives_word(page: &[u8], written: &[u8], first: usize, word: u64) -> bool
    requires page { first + 64 ≤ length page.now }
    requires written { first + 64 ≤ length written.now }
    ensures { Decides result ((k : ℕ) → k < 64
        → (if bit_at word k == 1 then slice_index written.now (first + k)
        else slice_index page.now (first + k))
        ≡ slice_index written.now (first + k)) }
{
    if word == u64::MAX {
        return true;
    }
    differing(page, written, first) & !word == 0
}
