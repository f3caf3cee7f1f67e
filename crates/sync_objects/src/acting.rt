//! The objects on which a call acts.

ghost use Rattle.std.specs.Prelude.{◌≡◌, ℕ, Bool, false, nat_lt};
ghost use Rattle.guest_call.specs.Objects as spec;
ghost use Rattle.sync_objects.specs.Pairs.{leave_objects_in};
ghost use Rattle.sync_objects.specs.Acting.{objects_in};
ghost use Rattle.sync_objects.specs.Puts.{is_put};

use super::barriers::LARGEST_COUNT;
use super::conditions::Conditions;
use super::semaphores::LARGEST_VALUE;
use guest_call::{Call, OBJECTS, Object};

/// Whether an object of each kind has this number.
pub(super) fn is_object(number: u32) -> bool
    ensures { result ≡ nat_lt number OBJECTS }
{
    (number as usize) < OBJECTS
}

/// The objects on which a call acts, in the order in which the table of calls names them.
#[derive(Clone, Copy, PartialEq, Eq)]
pub enum ActedOn {
    /// None.
    Nothing,
    /// One.
    One(Object),
    /// A condition and a mutex.
    Two(Object, Object),
}

impl ActedOn {
    /// The object if its call's arguments are in range, else none.
    fn one_of(in_range: bool, object: Object) -> ActedOn
        ensures { objects_in result ≡ spec.one_of in_range object }
    {
        if in_range {
            ActedOn::One(object)
        } else {
            ActedOn::Nothing
        }
    }
}

/// The condition, and the mutex with which threads wait for it, if any wait. Nothing if `c` is above 63.
fn leave_objects(conditions: &Conditions, c: u32) -> ActedOn
    ensures { objects_in result ≡ leave_objects_in conditions.now c }
{
    if !is_object(c) {
        return ActedOn::Nothing;
    }
    match conditions.awaited_with(c) {
        Some(mutex) => ActedOn::Two(Object::Condition(c), Object::Mutex(mutex)),
        None => ActedOn::One(Object::Condition(c)),
    }
}

/// The objects on which a call that is no put acts.
pub(super) fn acts_on(conditions: &Conditions, call: Call) -> ActedOn
    requires { is_put call ≡ false }
    ensures { (readable : ℕ → ℕ → Bool) (o : spec.Objects) → o.conditions ≡ conditions.now
        → objects_in result ≡ spec.acts_on readable o call }
{
    match call {
        Call::Exit(_) | Call::Yield => ActedOn::Nothing,
        Call::Put(_, _) => unreachable!(),
        Call::Create(pc, _) => ActedOn::one_of(pc % 4 == 0, Object::ThreadTable),
        Call::ThreadExit(_) | Call::Join(_) => ActedOn::One(Object::ThreadTable),
        Call::Lock(m) | Call::TryLock(m) | Call::Unlock(m) => {
            ActedOn::one_of(is_object(m), Object::Mutex(m))
        }
        Call::SemWait(s) | Call::SemTryWait(s) | Call::SemPost(s) => {
            ActedOn::one_of(is_object(s), Object::Semaphore(s))
        }
        Call::SemInit(s, value) => {
            ActedOn::one_of(is_object(s) && value <= LARGEST_VALUE, Object::Semaphore(s))
        }
        Call::BarrierInit(b, count) => ActedOn::one_of(
            is_object(b) && 1 <= count && count <= LARGEST_COUNT,
            Object::Barrier(b),
        ),
        Call::BarrierWait(b) => ActedOn::one_of(is_object(b), Object::Barrier(b)),
        Call::CondWait(c, m) => {
            if is_object(c) && is_object(m) {
                ActedOn::Two(Object::Condition(c), Object::Mutex(m))
            } else {
                ActedOn::Nothing
            }
        }
        Call::Signal(c) | Call::Broadcast(c) => leave_objects(conditions, c),
        Call::RdLock(r) | Call::WrLock(r) | Call::RwUnlock(r) | Call::TryWrLock(r) => {
            ActedOn::one_of(is_object(r), Object::RwLock(r))
        }
    }
}
