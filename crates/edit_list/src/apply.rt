//! Edits applied to an input.

ghost use Rattle.std.specs.Prelude.{ℕ, ◌≡◌, ◌≤◌, ◌<◌, ◌+◌, ◌-◌, ◌++◌, false, List, length, map, min, slice_index_or, take, replicate, Ok, IfOk, IfErr, OnOk, OnErr};
ghost use Rattle.edit_spec.specs.Edit as said;
ghost use Rattle.edit_spec.specs.Editing.{edited, edited_once, is_out_of_range};
ghost use Rattle.edit_list.specs.Said.{edit_said, line_said};
ghost use Rattle.edit_list.specs.Refusals.{WhyNotApplied, WhyNoLength};
ghost use Rattle.edit_list.specs.Lengths.{ComesTo, length_after, lesser, leasts, new_length};
ghost use Rattle.edit_list.specs.Showing.{Shows};

use super::edits::{Edit, Edits, LineEdit};
use machine_spec::MOST_INPUT_BYTES;
use std::alloc::{AllocError, Global};

/// Why edits were not applied.
#[derive(Clone, Copy, PartialEq, Eq)]
pub enum ApplyError {
    /// The line of this number is the first that passes its bound.
    OutOfRange(usize),
    /// The host's memory ran out.
    NoMemory,
}

/// How long an input of this length is after an edit, or `None` if the edit passes its bound.
fn length_after(edit: &Edit, input_length: usize) -> Option<usize>
    ensures { result ≡ length_after (edit_said edit.now) input_length }
{
    match edit {
        Edit::Set { offset, bytes } => {
            if bytes.len() > input_length || *offset as usize > input_length - bytes.len() {
                return None;
            }
            Some(input_length)
        }
        Edit::Size(size) => {
            if *size as usize > MOST_INPUT_BYTES {
                return None;
            }
            Some(*size as usize)
        }
    }
}

/// How long an input of this length is after edits.
///
/// # Errors
///
/// `OutOfRange` with the line of the first edit that passes its bound.
fn last_length(lines: &[LineEdit], input_length: usize) -> Result<usize, ApplyError>
    ensures last { IfOk result (λ last. ComesTo (map line_said lines.now) input_length last) }
    ensures refused { IfErr result (WhyNoLength (map line_said lines.now) input_length) }
{
    let mut current = input_length;
    for line in lines {
        current = match length_after(&line.edit, current) {
            Some(after) => after,
            None => return Err(ApplyError::OutOfRange(line.line)),
        };
    }
    Ok(current)
}

/// The lesser of a length and the one that an edit gives.
fn lesser(edit: &Edit, length: usize) -> usize
    ensures { result ≡ lesser (edit_said edit.now) length }
{
    match edit {
        Edit::Set { .. } => length,
        Edit::Size(size) => length.min(*size as usize),
    }
}

/// For each edit the least length that it and those after it give, at most this one.
fn leasts_of(alloc: Global, lines: &[LineEdit], most: usize) -> Result<Vec<usize>, AllocError>
    ensures { IfOk result (λ lengths. lengths.items ≡ leasts (map line_said lines.now) most) }
{
    let mut lengths = Vec::new(alloc);
    lengths.resize(lines.len(), most)?;
    let mut least = most;
    let mut place = lines.len();
    while place > 0 {
        place -= 1;
        least = lesser(&lines[place].edit, least);
        lengths[place] = least;
    }
    Ok(lengths)
}

/// Writes bytes over those of a buffer from an offset on, as far as they are below a count.
fn write_below(buffer: &mut [u8], offset: usize, bytes: &[u8], count: usize)
    requires { count ≤ length buffer.old }
    ensures { (input : List ℕ)
        → offset + length bytes.now ≤ length input
        → Shows buffer.old input count
        → Shows buffer.new (edited_once (said.Set offset bytes.now) input) count }
{
    if offset < count {
        let written = bytes.len().min(count - offset);
        buffer[offset..offset + written].copy_from_slice(&bytes[..written]);
    }
}

/// Applies an edit to a buffer that has the first bytes of an input of this length, as many as the edit and those after
/// it keep of it. Returns how long the input then is.
fn write_edit(edit: &Edit, buffer: &mut [u8], input_length: usize, least: usize) -> usize
    requires { least ≤ length buffer.old }
    ensures length { result ≡ new_length (edit_said edit.now) input_length }
    ensures shown { (input : List ℕ) (after : ℕ)
        → length input ≡ input_length
        → is_out_of_range (edit_said edit.now) input_length ≡ false
        → least ≡ lesser (edit_said edit.now) after
        → Shows buffer.old input (min input_length least)
        → Shows buffer.new (edited_once (edit_said edit.now) input) (min result after) }
{
    match edit {
        Edit::Set { offset, bytes } => {
            write_below(buffer, *offset as usize, bytes, input_length.min(least));
            input_length
        }
        Edit::Size(size) => *size as usize,
    }
}

/// The first of some lengths, or this one if there is none.
fn first_or(lengths: &[usize], most: usize) -> usize
    ensures { result ≡ slice_index_or lengths.now 0 most }
{
    match lengths.first() {
        Some(first) => *first,
        None => most,
    }
}

/// Clears the bytes of a buffer from this one on.
fn clear_from(buffer: &mut [u8], start: usize)
    requires { start ≤ length buffer.old }
    ensures { buffer.new ≡ take start buffer.old ++ replicate (length buffer.old - start) 0 }
{
    buffer[start..].fill(0);
}

/// Applies edits to a buffer that has the input so far, and is as long as the input after them. What a later edit cuts
/// off is never written, so each byte of an edit is written at most once, and no new length writes anything.
fn write_edits(lines: &[LineEdit], lengths: &[usize], buffer: &mut [u8], input_length: usize)
    requires last { ComesTo (map line_said lines.now) input_length (length buffer.old) }
    requires lengths { lengths.now ≡ leasts (map line_said lines.now) (length buffer.old) }
    ensures { (input : List ℕ)
        → length input ≡ input_length
        → Shows buffer.old input (length buffer.old)
        → edited (map line_said lines.now) input ≡ Ok buffer.new }
{
    let kept = first_or(lengths, buffer.len());
    clear_from(buffer, kept);
    let mut current = input_length;
    for (place, line) in lines.iter().enumerate() {
        current = write_edit(&line.edit, buffer, current, lengths[place]);
    }
}

impl Edits {
    /// Applies the edits to an input, one after the other, in time linear in their number, the bytes that they write,
    /// and the lengths of the input before and after them.
    ///
    /// # Errors
    ///
    /// `OutOfRange` with the line of the first edit that passes its bound: a `set` that would write past the end of the
    /// input after the lines before, or a `size` above `MOST_INPUT_BYTES`. Or `NoMemory`. After either the input is as
    /// before.
    pub fn apply(&self, input: &mut Vec<u8>) -> Result<(), ApplyError>
        ensures done { OnOk result (edited self.now input.old.items ≡ Ok input.new.items) }
        ensures same { OnErr result (input.new.items ≡ input.old.items) }
        ensures refused { IfErr result (WhyNotApplied self.now input.old.items) }
    {
        let before = input.len();
        let last = match last_length(&self.lines, before) {
            Ok(last) => last,
            Err(error) => return Err(error),
        };
        let lengths = match leasts_of(*input.allocator(), &self.lines, last) {
            Ok(lengths) => lengths,
            Err(_) => return Err(ApplyError::NoMemory),
        };
        match input.resize(last, 0) {
            Ok(()) => {}
            Err(_) => return Err(ApplyError::NoMemory),
        }
        write_edits(&self.lines, &lengths, input.as_mut_slice(), before);
        Ok(())
    }
}
