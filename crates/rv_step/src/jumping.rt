//! Jumps and branches, executed in a page.

ghost use Rattle.std.specs.Prelude.{◌≡◌, ◌+◌, ◌*◌, ◌/◌, ◌<◌, ◌^◌, false, true, Some};
ghost use Rattle.isa_spec.specs.Registers.{Registers, register};
ghost use Rattle.isa_spec.specs.declared.Instr.TheVariants as instr;
ghost use Rattle.isa_spec.specs.Words.{difference_of, sum_of};
ghost use Rattle.memory_spec.specs.Workspace.{Workspace};
ghost use Rattle.rv_code.specs.Meaning.{may_have_zero, is_inside, offset_to};
ghost use Rattle.rv_step.specs.Paging.{Leads, instr_placed, word_at};

use super::placed::{Flow, Placed};
use isa_spec::BranchTest;
use memory_spec::PAGE_NUMBERS;
use rv_isa::{Regs, is_taken};

/// The address of a word, by the number of its page and its index there; that of the word after the last page's last is
/// 0.
#[inline(always)]
pub(super) fn address_of(number: u32, index: usize) -> u32
    requires few_pages { number < PAGE_NUMBERS }
    requires few_words { index < 2 ^ 30 }
    ensures { result ≡ word_at number index }
{
    let start = number * 4096;
    start.wrapping_add((4 * index) as u32)
}

/// The address of the word after an operation's own.
#[inline(always)]
fn behind(placed: Placed) -> u32
    ensures { result ≡ word_at placed.number (placed.index + 1) }
{
    address_of(placed.number, placed.index + 1)
}

/// A branch inside the page.
#[inline(always)]
pub(super) fn branch(placed: Placed, regs: &Regs, test: BranchTest) -> Flow
    requires inside { is_inside placed.kind ≡ true }
    requires stands { instr_placed placed
        ≡ Some (instr.Branch test placed.rs1 placed.rs2
        (offset_to (word_at placed.number placed.index) placed.imm)) }
    ensures { (w : Workspace) → Leads result placed w regs.now w regs.now }
{
    let first = regs.get(placed.rs1);
    let second = regs.get(placed.rs2);
    if is_taken(test, first, second) {
        Flow::Inside(placed.imm)
    } else {
        Flow::Next
    }
}

/// A jump inside the page without a link.
#[inline(always)]
pub(super) fn jump(placed: Placed) -> Flow
    requires inside { is_inside placed.kind ≡ true }
    requires stands { instr_placed placed
        ≡ Some (instr.Jal 0 (offset_to (word_at placed.number placed.index) placed.imm)) }
    ensures { (w : Workspace) (r : Registers) → Leads result placed w r w r }
{
    Flow::Inside(placed.imm)
}

/// A jump inside the page with a link.
#[inline(always)]
pub(super) fn jump_and_link(placed: Placed, regs: &mut Regs) -> Flow
    requires writes { may_have_zero placed.kind ≡ false }
    requires inside { is_inside placed.kind ≡ true }
    requires stands { instr_placed placed
        ≡ Some (instr.Jal placed.rd
        (offset_to (word_at placed.number placed.index) placed.imm)) }
    ensures { (w : Workspace) → Leads result placed w regs.old w regs.new }
{
    regs.write(placed.rd, behind(placed));
    Flow::Inside(placed.imm)
}

/// A jump to an address. One that isn't a multiple of 4 is left to a turn of its own, before its link is written.
#[inline(always)]
pub(super) fn jump_far(placed: Placed, regs: &mut Regs) -> Flow
    requires { instr_placed placed
        ≡ Some (instr.Jal placed.rd
        (difference_of placed.imm (word_at placed.number placed.index))) }
    ensures { (w : Workspace) → Leads result placed w regs.old w regs.new }
{
    let target = placed.imm;
    if target % 4 != 0 {
        return Flow::Other;
    }
    regs.set(placed.rd, behind(placed));
    Flow::Outside(target)
}

/// The address to which a jump to a register goes: bit 0 is cleared.
#[inline(always)]
fn target_of(placed: Placed, regs: &Regs) -> u32
    ensures { result ≡ sum_of (register regs.now placed.rs1) placed.imm / 2 * 2 }
{
    let start = regs.get(placed.rs1);
    start.wrapping_add(placed.imm) & 0xffff_fffe
}

/// A jump to a register plus an offset, into the page or out of it. A jump to an address that is no multiple of 4 is
/// left to a turn of its own, before its link is written.
#[inline(always)]
pub(super) fn jump_to_register(placed: Placed, regs: &mut Regs) -> Flow
    requires { instr_placed placed
        ≡ Some (instr.Jalr placed.rd placed.rs1 placed.imm) }
    ensures { (w : Workspace) → Leads result placed w regs.old w regs.new }
{
    let target = target_of(placed, regs);
    if target % 4 != 0 {
        return Flow::Other;
    }
    regs.set(placed.rd, behind(placed));
    if target / 4096 == placed.number {
        Flow::Inside(target % 4096 / 4)
    } else {
        Flow::Outside(target)
    }
}
