//! Clocks by object.

ghost use Rattle.std.specs.Prelude.{◌≡◌, ℕ, true, false, max, slice_index, position, OnOk};
ghost use Rattle.guest_call.specs.declared.Object.{Object as ObjectName};
ghost use Rattle.guest_call.specs.Locality.{same_object, is_among};
ghost use Rattle.sync_objects.specs.Acting.{objects_in};
ghost use Rattle.depend_graph.specs.declared.objects.ObjectClock.{ObjectClock as Entry};
ghost use Rattle.depend_graph.specs.Clocks.{object_clock, largest_at, IsLargerOf};

use super::clock::Clock;
use guest_call::Object;
use std::alloc::{AllocError, Global};
use sync_objects::ActedOn;

/// Whether two names are of one object.
pub fn is_same(object: Object, other: Object) -> bool
    ensures { result ≡ same_object object other }
{
    object == other
}

/// An object and its clock.
#[derive(Drop)]
pub struct ObjectClock {
    object: Object,
    clock: Clock,
}

/// A clock for each object. A history names few objects.
#[derive(Drop)]
pub struct ObjectClocks {
    clocks: Vec<ObjectClock>,
}

impl ObjectClocks {
    /// No clock was joined to any. Allocates no memory.
    pub fn new(alloc: Global) -> ObjectClocks
        ensures { (o : ObjectName) (u : ℕ) → slice_index (object_clock result o) u ≡ 0 }
    {
        ObjectClocks {
            clocks: Vec::new(alloc),
        }
    }

    /// The place of an object's clock, if it has one.
    fn place(&self, object: Object) -> Option<usize>
        ensures { result
            ≡ position (λ (c : Entry). same_object object c.object) self.now.clocks.items }
    {
        self.clocks
            .iter()
            .position(|own| is_same(object, own.object))
    }

    /// Joins the clock of an object into another.
    fn join_one_into(&self, object: Object, clock: &mut Clock)
        ensures { IsLargerOf clock.new clock.old (object_clock self.now object) }
    {
        if let Some(place) = self.place(object) {
            clock.join(&self.clocks[place].clock);
        }
    }

    /// Joins the clocks of some objects into another.
    pub fn join_into(&self, objects: ActedOn, clock: &mut Clock)
        ensures { (u : ℕ) → slice_index clock.new u
            ≡ max (slice_index clock.old u)
            (largest_at (object_clock self.now) (objects_in objects) u) }
    {
        match objects {
            ActedOn::Nothing => {}
            ActedOn::One(object) => self.join_one_into(object, clock),
            ActedOn::Two(first, second) => {
                self.join_one_into(first, clock);
                self.join_one_into(second, clock);
            }
        }
    }

    /// Joins a clock to that of an object.
    fn add_one(&mut self, object: Object, clock: &Clock) -> Result<(), AllocError>
        ensures at { (o : ObjectName) → OnOk result (same_object o object ≡ true
            → IsLargerOf (object_clock self.new o) (object_clock self.old o) clock.now) }
        ensures others { (o : ObjectName) → OnOk result (same_object o object ≡ false
            → object_clock self.new o ≡ object_clock self.old o) }
    {
        match self.place(object) {
            Some(place) => {
                let own = &mut self.clocks[place];
                own.clock.join(clock);
            }
            None => self.clocks.push(ObjectClock {
                object,
                clock: *clock,
            })?,
        }
        Ok(())
    }

    /// Joins a clock to those of some objects.
    pub fn add(&mut self, objects: ActedOn, clock: &Clock) -> Result<(), AllocError>
        ensures at { (o : ObjectName) → OnOk result (is_among o (objects_in objects) ≡ true
            → IsLargerOf (object_clock self.new o) (object_clock self.old o) clock.now) }
        ensures others { (o : ObjectName) → OnOk result (is_among o (objects_in objects) ≡ false
            → object_clock self.new o ≡ object_clock self.old o) }
    {
        match objects {
            ActedOn::Nothing => {}
            ActedOn::One(object) => self.add_one(object, clock)?,
            ActedOn::Two(first, second) => {
                self.add_one(first, clock)?;
                self.add_one(second, clock)?;
            }
        }
        Ok(())
    }
}
