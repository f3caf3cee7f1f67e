//! How the effect of a call is performed on the harts: one way for all calls.

ghost use Rattle.std.specs.Prelude.{◌≡◌, ◌<◌, ◌≤◌, ◌+◌, ◌-◌, ◌^◌, ◌⊎◌, length, slice_set, vec_len, vec_capacity, IfOk, OnOk, OnErr};
ghost use Rattle.machine_spec.specs.Performing.{fated, woken, with_created, settled};
ghost use Rattle.machine_spec.specs.Machine.{hart_in};
ghost use Rattle.machine_spec.specs.Step.{advanced};
ghost use Rattle.guest_call.specs.Objects.{created_count};
ghost use Rattle.machine_calls.specs.Views.{AreViewsOf};
ghost use Rattle.machine_calls.specs.Views as views;

use super::hart::Hart;
use super::view::View;
use guest_call::{Call, Fate, THREADS};
use machine_spec::{Asked, Status};
use rv_isa::Regs;
use std::alloc::AllocError;
use sync_objects::{Effect, Queue};

/// The stores of thread `t`'s thunk were written: its hart has the last registers, and has made one step more.
pub fn write_back<V: View>(harts: &mut Vec<Hart<V>>, t: u8, regs: Regs)
    requires exists { t < length harts.old.items }
    requires few { (hart_in harts.old.items t).number < 2 ^ 32 - 1 }
    ensures harts { harts.new.items
        ≡ slice_set harts.old.items t (advanced (hart_in harts.old.items t) regs) }
    ensures len { vec_len harts.new ≡ vec_len harts.old }
    ensures capacity { vec_capacity harts.new ≡ vec_capacity harts.old }
{
    let hart = &mut harts[usize::from(t)];
    hart.write_back(regs);
}

/// How many views a request gives at most. Only the last thread at a barrier, or one that unlocks a reader-writer lock,
/// wakes more than one thread.
pub fn most_views(asked: Asked) -> usize
    ensures { result ≡ views.most_views asked }
{
    match asked {
        Asked::Asks(Call::BarrierWait(_) | Call::RwUnlock(_)) => THREADS + 2,
        Asked::Asks(_) => 3,
        Asked::Stops(_) => 0,
    }
}

/// One of the views that were made ahead, or a new one if there is none.
fn next_view<V: View>(memory: &V, views: &mut Vec<V>) -> Result<V, AllocError>
    requires { AreViewsOf V.pages (V.pages memory.now) views.old.items }
    ensures view { IfOk result (λ view. V.pages view ≡ V.pages memory.now) }
    ensures rest { AreViewsOf V.pages (V.pages memory.now) views.new.items }
    ensures count { vec_len views.old ≤ vec_len views.new + 1 }
    ensures none { OnErr result (vec_len views.old ≡ 0) }
{
    match views.pop() {
        Some(view) => Ok(view),
        None => memory.share(),
    }
}

/// What becomes of the caller's hart.
fn meet_fate<V: View>(
    hart: &mut Hart<V>,
    memory: &V,
    views: &mut Vec<V>,
    fate: Fate,
) -> Result<(), AllocError>
    requires { AreViewsOf V.pages (V.pages memory.now) views.old.items }
    ensures hart { OnOk result (hart.new ≡ fated fate (V.pages memory.now) hart.old) }
    ensures rest { AreViewsOf V.pages (V.pages memory.now) views.new.items }
    ensures count { vec_len views.old ≤ vec_len views.new + 1 }
    ensures none { OnErr result (vec_len views.old ≡ 0) }
{
    match fate {
        Fate::Returns(a0, a1) => {
            let view = next_view(memory, views)?;
            hart.return_with(view, a0, a1);
        }
        Fate::Blocks => hart.set_status(Status::Blocked),
        Fate::Ends(value) => hart.set_status(Status::Ended(value)),
        Fate::Exits(_) => {}
    }
    Ok(())
}

/// The calls of waiting threads return with 0 in a0, and with `reported` in a1 if there is one.
fn wake<V: View>(
    harts: &mut [Hart<V>],
    memory: &V,
    views: &mut Vec<V>,
    threads: &Queue,
    reported: Option<u32>,
) -> Result<(), AllocError>
    requires { AreViewsOf V.pages (V.pages memory.now) views.old.items }
    ensures harts { OnOk result (harts.new
        ≡ woken (V.pages memory.now) reported threads.now harts.old) }
    ensures rest { AreViewsOf V.pages (V.pages memory.now) views.new.items }
    ensures count { vec_len views.old ≤ vec_len views.new + length threads.now }
    ensures few { OnErr result (vec_len views.old < length threads.now) }
    ensures fits { length threads.now ≤ THREADS }
{
    for i in 0..threads.len() {
        let thread = usize::from(threads.at(i).number());
        let view = next_view(memory, views)?;
        if thread < harts.len() {
            let hart = &mut harts[thread];
            hart.return_with(view, 0, reported);
        }
    }
    Ok(())
}

/// Starts the created thread, if there is one: it has the least number that is unused.
fn begin<V: View>(
    harts: &mut Vec<Hart<V>>,
    memory: &V,
    views: &mut Vec<V>,
    created: Option<(u32, u32)>,
) -> Result<(), AllocError>
    requires few { length harts.old.items + created_count created ≤ THREADS }
    requires views { AreViewsOf V.pages (V.pages memory.now) views.old.items }
    ensures harts { OnOk result (harts.new.items
        ≡ with_created (V.pages memory.now) created harts.old.items) }
    ensures full { OnErr result (vec_capacity harts.old ≤ vec_len harts.old
        ⊎ vec_len views.old ≡ 0) }
{
    if let Some((pc, argument)) = created {
        let view = next_view(memory, views)?;
        harts.push(Hart::first(view, harts.len() as u8, pc, argument))?;
    }
    Ok(())
}

/// Performs the effect of a call of thread `t`: the caller's fate, then the woken threads, then the created one.
///
/// # Errors
///
/// An error if the host's memory ran out or no further view can be made, and only if there was no room for another
/// hart, or fewer views were made ahead than are given.
pub(super) fn settle<V: View>(
    harts: &mut Vec<Hart<V>>,
    memory: &V,
    views: &mut Vec<V>,
    t: u8,
    effect: &Effect,
) -> Result<(), AllocError>
    requires exists { t < length harts.old.items }
    requires few { length harts.old.items + created_count effect.now.created ≤ THREADS }
    requires views { AreViewsOf V.pages (V.pages memory.now) views.old.items }
    ensures harts { OnOk result (harts.new.items
        ≡ settled effect.now (V.pages memory.now) t harts.old.items) }
    ensures full { OnErr result (vec_capacity harts.old ≤ vec_len harts.old
        ⊎ (vec_len views.old < length effect.now.woken + 2)
        × (vec_len views.old < THREADS + 2)) }
{
    let hart = &mut harts[usize::from(t)];
    meet_fate(hart, memory, views, effect.fate())?;
    wake(
        harts.as_mut_slice(),
        memory,
        views,
        effect.woken(),
        effect.reported(),
    )?;
    begin(harts, memory, views, effect.created())
}
