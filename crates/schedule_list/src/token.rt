//! One token of a schedule.

ghost use Rattle.std.specs.Prelude.{ℕ, ◌≡◌, ◌<◌, true, List, ◌++◌, length, MatchOption};
ghost use Rattle.std.specs.List.{list_all};
ghost use Rattle.std.specs.Char.{is_ascii_digit};
ghost use Rattle.schedule_list.specs.Schedule.{IsMark, IsEncoding, Encodes};

use edit_list::number_of;
use guest_call::THREADS;

/// A token without its mark, if it has one.
fn unmarked(token: &[u8]) -> &[u8]
    ensures marked { (mark : List ℕ) × IsMark mark × (token.now ≡ result.now ++ mark) }
    ensures whole { (digits mark : List ℕ) → list_all is_ascii_digit digits ≡ true
        → 0 < length digits
        → IsMark mark → token.now ≡ digits ++ mark → result.now ≡ digits }
{
    match token {
        [digits @ .., b'=' | b'+'] => digits,
        _ => token,
    }
}

/// The thread that a token encodes, if it encodes one.
pub fn thread_of(token: &[u8]) -> Option<u8>
    ensures { MatchOption result (IsEncoding token.now → ⊥) (Encodes token.now) }
{
    match number_of(unmarked(token)) {
        Some(number) if number < THREADS as u32 => Some(number as u8),
        _ => None,
    }
}
