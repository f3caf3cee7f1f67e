//! The 64 objects of one kind, and a row done at the object of a number. No call allocates memory.

ghost use Rattle.std.specs.Prelude.{◌≡◌, ◌<◌, replicate, slice_index_or};
ghost use Rattle.std.specs.Fn.{FnOnceTakesAtMut};
ghost use Rattle.guest_call.specs.Effect as spec;
ghost use Rattle.guest_call.specs.Tables as tables;
ghost use Rattle.sync_objects.specs.Rows as rows;

use super::effect::Effect;
use guest_call::{EINVAL, OBJECTS};
use std::array;

/// The objects of one kind, each made by `make`.
pub fn all_of<C, F: Fn() -> C>(make: F) -> [C; OBJECTS]
    requires { F.IsAlwaysCallable make }
    ensures { (made : C) → ((f : F) (c : C) → F.post f c → c ≡ made)
        → result ≡ replicate OBJECTS made }
{
    array::from_fn(
        |_i: usize| -> C
            requires { F.IsAlwaysCallable make }
            ensures { F.post make result }
        { make() },
    )
}

/// Does a row at the object of this number, and returns its result. None exactly if the number is above 63.
pub fn row_at<C, T, R: FnOnce(&mut C) -> T>(
    cells: &mut [C; OBJECTS],
    number: u32,
    row: R,
) -> Option<T>
    requires { (free : C) → number < OBJECTS
        → FnOnceTakesAtMut R.FnOnce row (slice_index_or cells.old number free) }
    ensures { (free : C) (done : C → T × C) → rows.Does R.FnOnce row done
        → (result, cells.new) ≡ rows.row_at free done cells.old number }
{
    if number as usize >= OBJECTS {
        return None;
    }
    let cell = &mut cells[number as usize];
    Some(row(cell))
}

/// Does a row of a call at the object of this number. A number above 63 is EINVAL.
pub fn at_cell<C, R: FnOnce(&mut C) -> Effect>(
    cells: &mut [C; OBJECTS],
    number: u32,
    row: R,
) -> Effect
    requires { (free : C) → number < OBJECTS
        → FnOnceTakesAtMut R.FnOnce row (slice_index_or cells.old number free) }
    ensures { (free : C) (done : C → spec.Effect × C) → rows.Does R.FnOnce row done
        → (result, cells.new) ≡ tables.at_cell free done cells.old number }
{
    match row_at(cells, number, row) {
        Some(effect) => effect,
        None => Effect::answers(EINVAL),
    }
}
