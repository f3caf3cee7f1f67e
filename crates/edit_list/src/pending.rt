//! The inputs that are still to come, each made when the one before it is taken out.

ghost use Rattle.std.specs.Prelude.{ℕ, ◌≡◌, [], ◌∷◌, List, length, Ok, IfOk, IfSome, IfNone, OnErr};
ghost use Rattle.edit_spec.specs.Editing.{edited};

use crate::{ApplyError, Edits};
use std::alloc::AllocError;
use std::collections::VecDeque;
use std::marker::Model;

/// The inputs of the rounds that are still to come: the next one, and the edits that make the others, one list for
/// each. A clause sees the list of the inputs.
#[derive(Drop)]
pub struct Inputs {
    /// The next input, or `None` if no more is to come.
    pub(crate) input: Option<Vec<u8>>,
    /// The edits that make those after it.
    pub(crate) later: VecDeque<Edits>,
}

impl Model for Inputs {
    ghost use Rattle.std.specs.Prelude.{ℕ, List};
    ghost use Rattle.edit_list.specs.Pending.{inputs_to_come, CanBeMade};

    ghost Value = { List (List ℕ) };

    ghost view = { λ inputs. inputs_to_come inputs.input inputs.later.items };

    ghost invariant = { λ inputs. CanBeMade inputs.input inputs.later.items };
}

/// The result of edits on an input, which is copied once.
fn apply_edits(input: &Vec<u8>, edits: &Edits) -> Result<Vec<u8>, AllocError>
    requires { (next : List ℕ) × (edited edits.now input.now.items ≡ Ok next) }
    ensures { IfOk result (λ next. edited edits.now input.now.items ≡ Ok next.items) }
{
    let mut next = Vec::from_slice(*input.allocator(), input)?;
    match edits.apply(&mut next) {
        Ok(()) => Ok(next),
        Err(ApplyError::OutOfRange(_)) => unreachable!(),
        Err(ApplyError::NoMemory) => Err(AllocError),
    }
}

impl Inputs {
    /// How many inputs are still to come.
    pub fn len(&self) -> usize
        ensures { result ≡ length self.now }
    {
        match &self.input {
            Some(_) => self.later.len() + 1,
            None => 0,
        }
    }

    /// Takes out the next input, or returns `None` if no more is to come. The one after it is made then.
    ///
    /// # Errors
    ///
    /// `AllocError` if the host's memory ran out. The inputs that are to come are then as before.
    pub fn take_next(&mut self) -> Result<Option<Vec<u8>>, AllocError>
        ensures taken { IfOk result (λ taken. IfSome taken (λ input. self.old
            ≡ input.items ∷ self.new)) }
        ensures none { IfOk result (λ taken. IfNone taken (self.old ≡ [])) }
        ensures same { IfOk result (λ taken. IfNone taken (self.new ≡ self.old)) }
        ensures kept { OnErr result (self.new ≡ self.old) }
    {
        let Some(input) = &self.input else {
            return Ok(None);
        };
        match self.later.front() {
            Some(edits) => {
                let following = apply_edits(input, edits)?;
                let _done = self.later.pop_front();
                Ok(self.input.replace(following))
            }
            None => Ok(self.input.take()),
        }
    }
}
