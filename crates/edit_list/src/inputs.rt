//! Edit lists read and applied one after the other.

ghost use Rattle.std.specs.Prelude.{◌≡◌, ◌≤◌, length, Ok, IfOk, IfErr};
ghost use Rattle.std.specs.List.{All};
ghost use Rattle.edit_spec.specs.Grammar.{Says};
ghost use Rattle.edit_spec.specs.Editing.{edited};
ghost use Rattle.rerun_spec.specs.Inputs.{AreInputs};
ghost use Rattle.edit_list.specs.Lists.{bytes_of_each};
ghost use Rattle.edit_list.specs.NoInputs.{WhyNotMade, WhyNoInputs};

use super::pending::Inputs;
use super::refusal::{InputsError, Why};
use crate::{ApplyError, Edits, ParseError, parse};
use machine_spec::MOST_INPUT_BYTES;
use std::alloc::Global;
use std::collections::VecDeque;

/// Applies the edits of the list at this place to an input, and returns them.
fn done_to(
    alloc: Global,
    place: usize,
    list: &[u8],
    input: &mut Vec<u8>,
) -> Result<Edits, InputsError>
    ensures said { IfOk result (λ edits. Says list.now (Ok edits)) }
    ensures done { IfOk result (λ edits. edited edits input.old.items ≡ Ok input.new.items) }
    ensures refused { IfErr result (WhyNotMade place list.now input.old.items) }
{
    let edits = match parse(alloc, list) {
        Ok(edits) => edits,
        Err(ParseError::BadLine(line)) => return Err(InputsError::Refused {
            list: place,
            line,
            why: Why::BadLine,
        }),
        Err(ParseError::NoMemory) => return Err(InputsError::NoMemory),
    };
    match edits.apply(input) {
        Ok(()) => Ok(edits),
        Err(ApplyError::OutOfRange(line)) => Err(InputsError::Refused {
            list: place,
            line,
            why: Why::OutOfRange,
        }),
        Err(ApplyError::NoMemory) => Err(InputsError::NoMemory),
    }
}

/// The inputs of the rounds that edit lists request, in order: the first one, and then the result of each list on the
/// one before. Each list is read whole and applied before the next one is read. All are applied here to one copy of the
/// first input, and only their edits are kept: an input is made when the one before it is taken out.
///
/// # Errors
///
/// `Refused` exactly if a list is refused, with the place of the first such list, its line and the cause: `BadLine` for
/// the first line that encodes no edit; or `OutOfRange`, if all lines encode edits, for the first that passes its bound
/// on the input before. Or `NoMemory`.
pub fn inputs_of(alloc: Global, first: Vec<u8>, lists: &[Vec<u8>]) -> Result<Inputs, InputsError>
    ensures inputs { IfOk result
        (λ inputs. AreInputs first.items (bytes_of_each lists.now) inputs) }
    ensures short { length first.items ≤ MOST_INPUT_BYTES
        → IfOk result (λ inputs. All (λ input. length input ≤ MOST_INPUT_BYTES) inputs) }
    ensures refused { IfErr result (WhyNoInputs first.items (bytes_of_each lists.now)) }
{
    let mut last = Vec::from_slice(alloc, &first)?;
    let mut later = VecDeque::new(alloc);
    for (place, list) in lists.iter().enumerate() {
        let edits = done_to(alloc, place, list, &mut last)?;
        later.push_back(edits)?;
    }
    Ok(Inputs {
        input: Some(first),
        later,
    })
}
