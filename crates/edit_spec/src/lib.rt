//! Lists of edits of an input: their grammar, and what they do.
//!
//! This crate holds definitions alone. `specs/` says what the bytes of a list encode, or which line is the first that
//! encodes none, and what edits make of an input. Each public function is a law: its contract is the statement, and its
//! body does nothing.
#![tactic(auto)]

ghost use Rattle.std.specs.Prelude.{ℕ, ◌≡◌, ◌<◌, ◌≤◌, List, [], ◌∷◌, ◌++◌, length, map, Contains, Result};
ghost use Rattle.std.specs.List.{AllByRecursion};
ghost use Rattle.edit_spec.specs.Edit.{Edit, LineEdit};
ghost use Rattle.edit_spec.specs.Grammar.{Encodes, Says};
ghost use Rattle.edit_spec.specs.Editing.{edited};

use machine_spec::MOST_INPUT_BYTES;

/// The most bytes of a list of edits.
pub const MOST_LIST_BYTES: usize = 1_048_576;

/// A line encodes at most one edit.
pub fn line_encodes_one_edit()
    ensures { (text : List ℕ) (a b : Edit) → Encodes text a → Encodes text b → a ≡ b }
{}

/// A list says one thing: these edits and no others, or that this line is the first bad one, and not both.
pub fn list_says_one_thing()
    ensures { (bytes : List ℕ) (a b : Result (List LineEdit) ℕ) → Says bytes a → Says bytes b
        → a ≡ b }
{}

/// The bytes of a list of edits say something: edits, or which line is the first bad one.
pub fn every_list_says_something()
    ensures { (bytes : List ℕ) → (answer : Result (List LineEdit) ℕ) × Says bytes answer }
{}

/// No edits change nothing.
pub fn no_edits_change_nothing()
    ensures { (input : List ℕ) → edited [] input ≡ Ok input }
{}

/// Edits may be applied in two parts, the second to what the first made of the input.
pub fn edits_go_on()
    ensures { (first second : List LineEdit) (input between : List ℕ)
        → edited first input ≡ Ok between
        → edited (first ++ second) input ≡ edited second between }
{}

/// An input that isn't too long isn't too long after edits.
pub fn edited_is_short()
    ensures { (edits : List LineEdit) (input after : List ℕ)
        → length input ≤ MOST_INPUT_BYTES
        → edited edits input ≡ Ok after
        → length after ≤ MOST_INPUT_BYTES }
{}

/// The line that passes its bound is a line of the edits.
pub fn refused_line_is_there()
    ensures { (edits : List LineEdit) (input : List ℕ) (number : ℕ)
        → edited edits input ≡ Err number
        → Contains (map (λ e. e.line) edits) number }
{}

/// What the edits of a list make of bytes is bytes.
pub fn edits_make_bytes_of_bytes()
    ensures { (list input next : List ℕ) (edits : List LineEdit)
        → Says list (Ok edits)
        → edited edits input ≡ Ok next
        → AllByRecursion (λ b. b < 256) input
        → AllByRecursion (λ b. b < 256) next }
{}
