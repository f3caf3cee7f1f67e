//! The first difference between a thread and the record of its step.

ghost use Rattle.std.specs.Prelude.{◌≡◌, ◌<◌, true, not, length, option_map, IfNone, IfSome, IsNone};
ghost use Rattle.std.specs.Str.{bytes_eq};
ghost use Rattle.isa_spec.specs.Registers.{same_registers};
ghost use Rattle.memory_spec.specs.Pages.{page_of};
ghost use Rattle.round_report.specs.Differences.{numbered, first_difference, first_other_page, register_cause};

use page_store::{PageTable, ReadPage};
use round_report::why::Cause;
use rv_isa::Regs;

/// The first place at which words differ.
fn first_other_word(now: &[u32], was: &[u32]) -> Option<usize>
    ensures first { result ≡ first_difference now.now was.now }
    ensures inside { IfSome result (λ place. (place < length now.now) × (place < length was.now)) }
{
    now.iter().zip(was).position(|(word, other)| word != other)
}

/// The first place at which bytes differ.
pub fn first_other_byte(now: &[u8], was: &[u8]) -> Option<usize>
    ensures first { result ≡ first_difference now.now was.now }
    ensures inside { IfSome result (λ place. (place < length now.now) × (place < length was.now)) }
{
    now.iter().zip(was).position(|(byte, other)| byte != other)
}

/// The least register that differs, if one does.
pub fn register_cause(now: &Regs, was: &Regs) -> Option<Cause>
    ensures cause { result ≡ register_cause (numbered now.now) (numbered was.now)
        (first_difference (numbered now.now) (numbered was.now)) }
    ensures none { IfNone result (same_registers was.now now.now ≡ true) }
{
    let now = now.to_words();
    let was = was.to_words();
    let Some(register) = first_other_word(&now, &was) else {
        return None;
    };
    Some(Cause::Register {
        register: register as u8,
        now: now[register],
        was: was[register],
    })
}

/// Whether the bytes of a view's page differ from those of a read page.
#[tactic(auto, using(thunk_record::proofs::Past::no_bytes))]
fn has_other(view: &PageTable, read: &ReadPage) -> bool
    ensures { result ≡ not (bytes_eq (page_of view.now read.now.slot) read.now.bytes) }
{
    let bytes = read.page().bytes().as_slice();
    if read.slot() < view.len() {
        view.page(read.slot()).bytes().as_slice() != bytes
    } else {
        true
    }
}

/// The first of some read pages whose bytes differ from a view's.
pub fn first_other_page<'r>(view: &PageTable, reads: &'r [ReadPage]) -> Option<&'r ReadPage>
    ensures { option_map (λ p. p.now) result ≡ first_other_page view.now reads.now }
{
    reads.iter().find(|read| has_other(view, read))
}
