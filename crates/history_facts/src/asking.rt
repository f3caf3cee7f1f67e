//! The call that ends a record's thunk, and what it does to the objects.

ghost use Rattle.std.specs.Prelude.{◌≡◌, ◌<◌, ℕ, length};
ghost use Rattle.thunk_spec.specs.Put.{is_readable};
ghost use Rattle.guest_call.specs.Objects as rows;
ghost use Rattle.sync_objects.specs.Acting.{objects_in};
ghost use Rattle.history_spec.specs.Facts as order;
ghost use Rattle.history_facts.specs.Asking.{call_in};

use guest_call::{Call, Object};
use page_store::{PageMap, Range, appends_all};
use sync_objects::{ActedOn, Effect, Objects};
use thunk_record::Record;
use thunk_spec::ThunkEnd;

/// The call that ends a record's thunk; none if the thunk stops the machine.
pub fn call_of(rec: &Record) -> Option<Call>
    ensures { result ≡ call_in (order.ask_of rec.now) }
{
    let regs = rec.finish();
    match rec.end() {
        ThunkEnd::Call => Call::of(regs.get(17), regs.get(10), regs.get(11)),
        ThunkEnd::Trap(_) | ThunkEnd::Fuel => None,
    }
}

/// What a call does: the objects that it acts on, and its effect. The answer of a put isn't computed.
#[derive(Drop)]
pub struct CallResult {
    /// The objects.
    pub objects: ActedOn,
    /// The effect.
    pub effect: Effect,
}

/// The objects that a put acts on: the output, if it appends its bytes.
fn put_on(map: &PageMap, start: u32, len: u32) -> ActedOn
    ensures { objects_in result
        ≡ rows.one_of (rows.appends (is_readable map.now) start len) Object.Output }
{
    if appends_all(map, Range { start, len }) {
        ActedOn::One(Object::Output)
    } else {
        ActedOn::Nothing
    }
}

/// Performs a call of thread `t`, which is ready.
pub fn act(map: &PageMap, objects: &mut Objects, t: u8, call: Call) -> CallResult
    requires exists { t < length objects.old.threads }
    requires free { rows.waits_at objects.old t ≡ 0 }
    ensures acts_on { objects_in result.objects
        ≡ rows.acts_on (is_readable map.now) objects.old call }
    ensures effect { (n : ℕ) → order.served result.effect t n
        ≡ order.served (rows.act (is_readable map.now) objects.old t call).0 t n }
    ensures created { result.effect.created
        ≡ (rows.act (is_readable map.now) objects.old t call).0.created }
    ensures objects { objects.new ≡ (rows.act (is_readable map.now) objects.old t call).1 }
{
    match call {
        Call::Put(start, len) => CallResult {
            objects: put_on(map, start, len),
            effect: Effect::answers(0),
        },
        other => match objects.thread(t) {
            Some(thread) => CallResult {
                objects: objects.acts_on(other),
                effect: objects.act(thread, other),
            },
            None => unreachable!(),
        },
    }
}
