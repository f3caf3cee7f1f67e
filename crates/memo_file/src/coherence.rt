//! Whether a history is coherent.

ghost use Rattle.std.specs.Prelude.{◌≡◌, ◌≤◌, length};
ghost use Rattle.memo_spec.specs.Reading.{incoherent_from, coherent_or};
ghost use Rattle.memo_file.specs.Gives.{Gives};

use crate::error::ReadError;
use memo_spec::Refusal;
use release_core::{ApplyError, Core};
use run_history::History;

/// Applies the records of a history one after the other, from a machine on: each has to fit after those before it, and
/// the end has to come with the last one.
pub fn refuse_incoherent(core: &mut Core, history: &History) -> Result<(), ReadError>
    ensures { Gives (λ _. history.now) result
        (coherent_or (incoherent_from 0 core.old history.now.records) history.now) }
{
    let records = history.records();
    for i in 0..records.len() {
        match core.try_apply(records.at(i)) {
            Ok(()) => {}
            Err(ApplyError::Stale) => {
                return Err(ReadError::Refused(Refusal::Incoherent(i as u32)));
            }
            Err(ApplyError::NoMemory) => return Err(ReadError::NoMemory),
        }
    }
    if core.ended().is_some() {
        Ok(())
    } else {
        Err(ReadError::Refused(Refusal::Incoherent(records.len() as u32)))
    }
}
