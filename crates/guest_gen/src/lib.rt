//! A generated guest, and an input and an edit of it that are generated from a number.
//!
//! The guest is the same for each number. Eight threads add up the bytes of the input, each of them every eighth block
//! of 4,096 bytes, and add each block's sum to a total under a mutex; the total's four bytes are output, the lowest
//! first. So the output is the sum of the input's bytes under every schedule, and a run has 154 steps.
#![tactic(auto)]

ghost use Rattle.std.specs.Prelude.{ℕ, ◌≡◌, ◌≤◌, length, Ok};
ghost use Rattle.edit_spec.specs.Grammar.{Says};
ghost use Rattle.edit_spec.specs.Editing.{edited};
ghost use Rattle.guest_gen.specs.Generated.{input_of, list_of, edits_of, next_of};

mod guest;
mod making;

pub use guest::{BASE, ITEMS, ZEROS};
pub use making::{Generated, make};

/// How many bytes a generated input has.
pub const INPUT_BYTES: usize = 262_144;

/// The input of a number has `INPUT_BYTES` bytes, before and after the edit.
pub fn inputs_have_one_length()
    ensures before { (number : ℕ) → length (input_of number) ≡ INPUT_BYTES }
    ensures after { (number : ℕ) → length (next_of number) ≡ INPUT_BYTES }
{}

/// The list of edits says its one edit.
pub fn list_says_its_edit()
    ensures { (number : ℕ) → Says (list_of number) (Ok (edits_of number)) }
{}

/// The edit is within its bound, so it is applied.
pub fn edit_is_done()
    ensures { (number : ℕ) → edited (edits_of number) (input_of number) ≡ Ok (next_of number) }
{}
