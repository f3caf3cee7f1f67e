//! The bytes that a put appends (POSIX.1-2017, write).

ghost use Rattle.std.specs.Prelude.{◌≡◌, ◌+◌, ◌≤◌, ◌^◌, true};
ghost use Rattle.std.specs.List.{range_with_len};
ghost use Rattle.thunk_spec.specs.Put.{is_readable, put_addresses, appended_by};

use guest_call::Call;
use page_store::{PageMap, Range, appends_all};
use rv_isa::Regs;
use thunk_spec::ThunkEnd;

/// The bytes that a call appends to the output; none if it is no put that appends its bytes.
#[tactic(auto, using(page_store::proofs::Ends::readable_none))]
fn range_of(map: &PageMap, call: Option<Call>) -> Range
    ensures addresses { range_with_len result.start result.len ≡ appended_by map.now call }
    ensures in_range { result.start + result.len ≤ 2 ^ 32 }
    ensures few { result.len ≤ 4096 }
    ensures readable { is_readable map.now result.start result.len ≡ true }
{
    match call {
        Some(Call::Put(start, len)) => {
            let range = Range { start, len };
            if appends_all(map, range) {
                range
            } else {
                Range { start: 0, len: 0 }
            }
        }
        _ => Range { start: 0, len: 0 },
    }
}

/// The bytes that the thunk with this end and these registers appends; none if no put ends it.
#[tactic(auto, unfolding(thunk_spec::specs::Put::put_addresses), using(page_store::proofs::Ends::readable_none))]
pub fn put_range(map: &PageMap, end: ThunkEnd, regs: &Regs) -> Range
    ensures addresses { range_with_len result.start result.len
        ≡ put_addresses map.now end regs.now }
    ensures in_range { result.start + result.len ≤ 2 ^ 32 }
    ensures few { result.len ≤ 4096 }
    ensures readable { is_readable map.now result.start result.len ≡ true }
{
    match end {
        ThunkEnd::Call => range_of(map, Call::of(regs.get(17), regs.get(10), regs.get(11))),
        ThunkEnd::Trap(_) | ThunkEnd::Fuel => Range { start: 0, len: 0 },
    }
}
