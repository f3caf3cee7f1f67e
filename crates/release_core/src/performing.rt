//! How a step is performed on the harts without allocating memory: the views that it gives are made ahead.

ghost use Rattle.std.specs.Prelude.{◌≡◌, ◌<◌, ◌≤◌, true, length, vec_len, vec_capacity, IfOk};
ghost use Rattle.std.specs.Arc.{arc_value};
ghost use Rattle.machine_spec.specs.Machine.{hart_in, is_ready};
ghost use Rattle.machine_spec.specs.Step as step;
ghost use Rattle.machine_spec.specs.Whole.{IsTied};
ghost use Rattle.machine_calls.specs.Doing.{harts_after, objects_after, own_end};
ghost use Rattle.machine_calls.specs.Views.{AreViewsOf, most_views};

use machine_calls::{Hart, Written, do_as_asked};
use machine_spec::{Asked, End};
use page_store::PageTable;
use std::alloc::{AllocError, Global};
use std::sync::Arc;
use sync_objects::Objects;

/// The view of thread `t`.
pub fn view_at(harts: &[Hart<Arc<PageTable>>], t: u8) -> &PageTable
    requires { t < length harts.now }
    ensures { result.now ≡ (hart_in harts.now t).view }
{
    let hart = &harts[usize::from(t)];
    hart.view()
}

/// So many views of a memory.
pub fn views_of(
    alloc: Global,
    memory: &Arc<PageTable>,
    count: usize,
) -> Result<Vec<Arc<PageTable>>, AllocError>
    ensures views { IfOk result (λ views. AreViewsOf arc_value (arc_value memory.now) views.items) }
    ensures count { IfOk result (λ views. vec_len views ≡ count) }
{
    let mut views = Vec::with_capacity(alloc, count)?;
    for _ in 0..count {
        views.push(Arc::try_clone(memory)?)?;
    }
    Ok(views)
}

/// Performs what thread `t` requests, after its thunk's stores were written, and checks whether the run ends. It
/// allocates no memory: there is room for another hart, and as many views were made ahead as can be given.
pub fn do_as_prepared(
    harts: &mut Vec<Hart<Arc<PageTable>>>,
    objects: &mut Objects,
    views: &mut Vec<Arc<PageTable>>,
    written: &Written<'_, Arc<PageTable>>,
    t: u8,
    asked: Asked,
) -> Option<End>
    requires tied { IsTied objects.old harts.old.items }
    requires ready { is_ready (hart_in harts.old.items t).status ≡ true }
    requires room { vec_len harts.old < vec_capacity harts.old }
    requires enough { most_views asked ≤ vec_len views.old }
    requires views { AreViewsOf arc_value (arc_value written.now.memory.now) views.old.items }
    ensures harts { harts.new.items
        ≡ harts_after written.now.map.now objects.old (arc_value written.now.memory.now) t
        harts.old.items asked }
    ensures objects { objects.new ≡ objects_after written.now.map.now objects.old t asked }
    ensures ending { result
        ≡ step.end_after (own_end written.now.map.now objects.old t asked) harts.new.items
        written.now.limit written.now.steps }
{
    match do_as_asked(harts, objects, views, written, t, asked) {
        Ok(acted) => acted.ending,
        Err(_) => unreachable!(),
    }
}
