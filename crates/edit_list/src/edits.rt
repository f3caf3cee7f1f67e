//! The edits of a list.

use std::marker::Model;

/// An edit of an input.
#[derive(Drop)]
pub(crate) enum Edit {
    /// Bytes are written over those from an offset on.
    Set { offset: u32, bytes: Vec<u8> },
    /// The input gets this length.
    Size(u32),
}

/// An edit, and the number of its line.
#[derive(Drop)]
pub(crate) struct LineEdit {
    pub(crate) line: usize,
    pub(crate) edit: Edit,
}

/// The edits of a list, in order. A clause sees the list of them, each with the number of its line.
#[derive(Drop)]
pub struct Edits {
    pub(crate) lines: Vec<LineEdit>,
}

impl Model for Edits {
    ghost use Rattle.std.specs.Prelude.{List, map};
    ghost use Rattle.edit_spec.specs.Edit as said;
    ghost use Rattle.edit_list.specs.Said.{line_said};

    ghost Value = { List said.LineEdit };

    ghost view = { λ edits. map line_said edits.lines.items };
}
