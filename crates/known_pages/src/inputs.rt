//! Marks on the pages of the input that differ in the start memories of two inputs, by the bytes of the inputs.

ghost use Rattle.std.specs.Prelude.{◌≡◌, ◌<◌, ◌≤◌, ◌+◌, ℕ, false, length};
ghost use Rattle.machine_spec.specs.Setup.{input_page};
ghost use Rattle.known_pages.specs.Alike.{is_marked};
ghost use Rattle.known_pages.specs.Starts.{HasMore};
ghost use Rattle.known_pages.specs.Starts as starts;

use super::marks::mark;
use machine_spec::INPUT_PAGES;

/// The bytes of an input that are on its page `k`.
fn part_of(input: &[u8], k: usize) -> &[u8]
    requires { k < INPUT_PAGES }
    ensures { result.now ≡ starts.part_of input.now k }
{
    let start = input.len().min(4096 * k);
    let end = input.len().min(4096 * k + 4096);
    &input[start..end]
}

/// Marks page `k` of the input if it differs in a second input.
fn mark_part(marks: &mut [bool], slot: usize, old: &[u8], new: &[u8], k: usize)
    requires number { k < INPUT_PAGES }
    requires there { slot < length marks.old }
    ensures more { HasMore marks.old marks.new }
    ensures same { is_marked marks.new slot ≡ false → input_page new.now k ≡ input_page old.now k }
{
    if part_of(old, k) == part_of(new, k) {
        return;
    }
    mark(marks, slot);
}

/// Marks the pages of the input that differ in a second input. The first page of the input has the slot `first`.
pub fn mark_parts(marks: &mut [bool], first: usize, old: &[u8], new: &[u8])
    requires { first + INPUT_PAGES ≤ length marks.old }
    ensures more { HasMore marks.old marks.new }
    ensures same { (k : ℕ) → k < INPUT_PAGES → is_marked marks.new (first + k) ≡ false
        → input_page new.now k ≡ input_page old.now k }
{
    for k in 0..INPUT_PAGES as usize {
        mark_part(marks, first + k, old, new, k);
    }
}
