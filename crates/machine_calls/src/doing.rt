//! What follows the writing of a thunk's stores: the call that it requests, and the check whether the run ends.

ghost use Rattle.std.specs.Prelude.{◌≡◌, ◌<◌, ◌≤◌, ◌+◌, ◌⊎◌, true, length, vec_len, vec_capacity, IfOk, OnOk, OnErr};
ghost use Rattle.thunk_spec.specs.Put.{is_readable};
ghost use Rattle.guest_call.specs.Objects as rows;
ghost use Rattle.machine_spec.specs.Step as step;
ghost use Rattle.machine_spec.specs.Machine.{Hart as HartState, hart_in, is_ready, is_ended};
ghost use Rattle.std.specs.List.{list_all, list_any};
ghost use Rattle.machine_spec.specs.Whole.{IsTied};
ghost use Rattle.machine_calls.specs.Doing.{harts_after, objects_after, own_end, effect_made};
ghost use Rattle.machine_calls.specs.Views.{AreViewsOf, most_views};

use super::hart::Hart;
use super::performing::settle;
use super::view::View;
use guest_call::{Call, EFAULT, EINVAL, Fate};
use isa_spec::Cause;
use machine_spec::{Asked, End, Status};
use page_store::PageMap;
use rv_isa::Regs;
use std::alloc::AllocError;
use sync_objects::{Effect, Objects};
use thunk_spec::ThunkEnd;

/// What thread `t`'s thunk with this end and these last registers requests of the machine.
pub fn asked(t: u8, end: ThunkEnd, regs: &Regs) -> Asked
    ensures { result ≡ step.asked t end regs.now }
{
    match end {
        ThunkEnd::Call => asked_call(t, regs),
        ThunkEnd::Trap(cause) => trap(t, regs, cause),
        ThunkEnd::Fuel => Asked::Stops(End::Spent),
    }
}

/// What the ECALL at these registers requests of the machine.
fn asked_call(t: u8, regs: &Regs) -> Asked
    ensures { result ≡ step.asked t ThunkEnd.Call regs.now }
{
    match Call::of(regs.get(17), regs.get(10), regs.get(11)) {
        Some(call) => Asked::Asks(call),
        None => trap(t, regs, Cause::BadCall),
    }
}

/// The request to end by a trap at these registers.
fn trap(t: u8, regs: &Regs, cause: Cause) -> Asked
    ensures { result ≡ Asked.Stops (End.Trap t regs.now.pc cause) }
{
    Asked::Stops(End::Trap {
        thread: t,
        pc: regs.pc(),
        cause,
    })
}

/// What a put answers: how many bytes it appends, or why it appends none.
fn put_answer<V: View>(map: &PageMap, address: u32, count: u32) -> u32
    ensures { result ≡ rows.put_answer (is_readable map.now) address count }
{
    if count > 4096 {
        EINVAL
    } else if count == 0 {
        0
    } else if V::appends_all(map, address, count) {
        count
    } else {
        EFAULT
    }
}

/// What a call of thread `t` does.
fn effect_of<V: View>(map: &PageMap, objects: &mut Objects, t: u8, call: Call) -> Effect
    requires exists { t < length objects.old.threads }
    requires free { rows.waits_at objects.old t ≡ 0 }
    ensures { (result, objects.new) ≡ rows.act (is_readable map.now) objects.old t call }
{
    match call {
        Call::Put(address, count) => Effect::answers(put_answer::<V>(map, address, count)),
        other => match objects.thread(t) {
            Some(thread) => objects.act(thread, other),
            None => unreachable!(),
        },
    }
}

/// Whether all threads have ended.
fn have_all_ended<V: View>(harts: &[Hart<V>]) -> bool
    ensures { result ≡ list_all (λ (h : HartState). is_ended h.status) harts.now }
{
    for hart in harts {
        if !has_ended(hart.status()) {
            return false;
        }
    }
    true
}

/// Whether a status is that of an ended thread.
fn has_ended(status: Status) -> bool
    ensures { result ≡ is_ended status }
{
    matches!(status, Status::Ended(_))
}

/// Whether any thread is ready.
fn is_any_ready<V: View>(harts: &[Hart<V>]) -> bool
    ensures { result ≡ list_any (λ (h : HartState). is_ready h.status) harts.now }
{
    for hart in harts {
        if hart.status() == Status::Ready {
            return true;
        }
    }
    false
}

/// The end that the state leads to, if any.
fn state_end<V: View>(harts: &[Hart<V>], limit: u32, steps: u32) -> Option<End>
    ensures { result ≡ step.state_end harts.now limit steps }
{
    if have_all_ended(harts) {
        Some(End::Exit(0))
    } else if !is_any_ready(harts) {
        Some(End::Deadlock)
    } else if limit <= steps {
        Some(End::Spent)
    } else {
        None
    }
}

/// The end after a call with this fate of its caller.
fn end_after<V: View>(fate: Fate, harts: &[Hart<V>], limit: u32, steps: u32) -> Option<End>
    ensures { result ≡ step.end_after (step.fate_end fate) harts.now limit steps }
{
    match fate {
        Fate::Exits(code) => Some(End::Exit(code)),
        Fate::Returns(_, _) | Fate::Blocks | Fate::Ends(_) => state_end(harts, limit, steps),
    }
}

/// The state after a thunk's stores were written, as far as the call after it doesn't change it: the page map, shared
/// memory, the step limit, and how many steps were made.
#[derive(Clone, Copy)]
pub struct Written<'a, V: View> {
    /// The page map.
    pub map: &'a PageMap,
    /// Shared memory, with the thunk's stores.
    pub memory: &'a V,
    /// The most steps of the run.
    pub limit: u32,
    /// How many steps were made, this one included.
    pub steps: u32,
}

/// The result of what a thread requested.
#[derive(Drop)]
pub struct Acted {
    /// How the run ended, if it has.
    pub ending: Option<End>,
    /// What the call did to the threads, if one was made.
    pub effect: Option<Effect>,
}

/// Performs what thread `t` requests, after its thunk's stores were written, and checks whether the run ends. The views
/// that are given are those that were made ahead, and new ones if these don't suffice.
///
/// # Errors
///
/// An error if the host's memory ran out or no further view can be made, and only if there was no room for another
/// hart, or fewer views were made ahead than can be given.
#[tactic(auto, using(crate::proofs::Asking::exists, crate::proofs::Asking::free, crate::proofs::Asking::below))]
pub fn do_as_asked<V: View>(
    harts: &mut Vec<Hart<V>>,
    objects: &mut Objects,
    views: &mut Vec<V>,
    written: &Written<'_, V>,
    t: u8,
    asked: Asked,
) -> Result<Acted, AllocError>
    requires tied { IsTied objects.old harts.old.items }
    requires ready { is_ready (hart_in harts.old.items t).status ≡ true }
    requires views { AreViewsOf V.pages (V.pages written.now.memory.now) views.old.items }
    ensures harts { OnOk result (harts.new.items
        ≡ harts_after written.now.map.now objects.old (V.pages written.now.memory.now) t
        harts.old.items asked) }
    ensures objects { OnOk result (objects.new
        ≡ objects_after written.now.map.now objects.old t asked) }
    ensures ending { IfOk result (λ acted. acted.ending
        ≡ step.end_after (own_end written.now.map.now objects.old t asked) harts.new.items
        written.now.limit written.now.steps) }
    ensures effect { IfOk result (λ acted. acted.effect
        ≡ effect_made written.now.map.now objects.old t asked) }
    ensures full { OnErr result (vec_capacity harts.old ≤ vec_len harts.old
        ⊎ vec_len views.old < most_views asked) }
{
    match asked {
        Asked::Asks(call) => {
            let effect = effect_of::<V>(written.map, objects, t, call);
            settle(harts, written.memory, views, t, &effect)?;
            let ending = end_after(
                effect.fate(),
                harts.as_slice(),
                written.limit,
                written.steps,
            );
            Ok(Acted {
                ending,
                effect: Some(effect),
            })
        }
        Asked::Stops(end) => Ok(Acted {
            ending: Some(end),
            effect: None,
        }),
    }
}
