//! Whether a step must come directly before another.

ghost use Rattle.std.specs.Prelude.{◌≡◌, ◌<◌, ◌==◌, ◌||◌, not, nat_le, length};
ghost use Rattle.guest_call.specs.Locality as locality;
ghost use Rattle.sync_objects.specs.Acting.{objects_in};
ghost use Rattle.history_spec.specs.Before as spec;
ghost use Rattle.history_spec.specs.Before.{is_in};

use super::fact::Fact;
use super::objects::is_same;
use guest_call::Object;
use sync_objects::ActedOn;

/// Whether a slot is among some.
fn has_slot(slots: &[usize], slot: usize) -> bool
    ensures { result ≡ is_in slot slots.now }
{
    slots.iter().any(|other| *other == slot)
}

/// Whether some slots have one in common with others.
fn meets(slots: &[usize], others: &[usize]) -> bool
    ensures { result ≡ spec.meets slots.now others.now }
{
    slots.iter().any(|slot| has_slot(others, *slot))
}

/// Whether an object is among some.
fn is_among(object: Object, objects: ActedOn) -> bool
    ensures { result ≡ locality.is_among object (objects_in objects) }
{
    match objects {
        ActedOn::Nothing => false,
        ActedOn::One(first) => is_same(object, first),
        ActedOn::Two(first, second) => is_same(object, first) || is_same(object, second),
    }
}

/// Whether some have an object in common with others.
fn overlap(objects: ActedOn, others: ActedOn) -> bool
    ensures { result ≡ spec.overlap (objects_in objects) (objects_in others) }
{
    match objects {
        ActedOn::Nothing => false,
        ActedOn::One(first) => is_among(first, others),
        ActedOn::Two(first, second) => is_among(first, others) || is_among(second, others),
    }
}

/// Whether a thread is among some.
fn has_thread(threads: &[u8], t: u8) -> bool
    ensures { result ≡ is_in t threads.now }
{
    threads.iter().any(|other| *other == t)
}

/// Whether no step between places `i` and `j` is of thread `t`.
fn is_next(facts: &[Fact], t: u8, i: usize, j: usize) -> bool
    requires earlier { i < j }
    requires in_range { j < length facts.now }
    ensures { result
        ≡ spec.all_below (λ k. nat_le k i || not ((spec.fact_at facts.now k).thread == t)) j }
{
    for k in i + 1..j {
        let fact = &facts[k];
        if fact.thread == t {
            return false;
        }
    }
    true
}

/// Whether the step at place `i` must come directly before the one at the later place `j`.
pub fn is_before(facts: &[Fact], i: usize, j: usize) -> bool
    requires earlier { i < j }
    requires in_range { j < length facts.now }
    ensures { result ≡ spec.before_at facts.now i j }
{
    let earlier = &facts[i];
    let later = &facts[j];
    earlier.thread == later.thread
        || (has_thread(&earlier.given, later.thread) && is_next(facts, later.thread, i, j))
        || overlap(earlier.objects, later.objects)
        || meets(&earlier.written, &later.written)
        || meets(&earlier.written, &later.opened)
        || meets(&earlier.opened, &later.written)
        || later.last
}
