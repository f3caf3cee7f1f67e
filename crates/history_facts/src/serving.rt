//! The threads to which a call gives a view.

ghost use Rattle.std.specs.Prelude.{◌≡◌, IfOk};
ghost use Rattle.history_spec.specs.Facts as order;

use guest_call::Fate;
use std::alloc::{AllocError, Global};
use sync_objects::Effect;

/// The threads to which an effect of a call of thread `t` gives a view: the caller if its call returns, those that it
/// wakes, and the one that it creates, which is thread `next`.
pub fn served(alloc: Global, effect: &Effect, t: u8, next: u8) -> Result<Vec<u8>, AllocError>
    ensures { IfOk result (λ threads. threads.items ≡ order.served effect.now t next) }
{
    let mut threads = Vec::new(alloc);
    if let Fate::Returns(_, _) = effect.fate() {
        threads.push(t)?;
    }
    let woken = effect.woken().threads();
    for thread in woken {
        threads.push(thread.number())?;
    }
    if effect.created().is_some() {
        threads.push(next)?;
    }
    Ok(threads)
}
