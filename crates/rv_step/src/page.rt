//! Turns made from a decoded page.

ghost use Rattle.std.specs.Prelude.{◌≡◌, ℕ, ◌+◌, ◌/◌, ◌%◌, ◌≤◌, IfOk, OnErr, slice_index_or};
ghost use Rattle.isa_spec.specs.Registers.{with_pc};
ghost use Rattle.page_store.specs.Entering.{RunsFrom};
ghost use Rattle.rv_code.specs.Meaning.{IsCodeOf, other};
ghost use Rattle.rv_step.specs.Paging.{operation_of};
ghost use Rattle.rv_step.specs.Step.{Follow};
ghost use Rattle.rv_step.specs.declared.page.PageEnd.TheVariants as end;

use super::executing::execute_operation;
use super::jumping::address_of;
use super::placed::{Flow, Placed};
use page_store::Mem;
use rv_code::CodePage;
use rv_isa::{Regs, Turns};
use std::alloc::AllocError;

/// Why turns in a page ended.
#[derive(Clone, Copy, PartialEq, Eq)]
pub enum PageEnd {
    /// A jump led out of the page, or was made with too little room after it; or a store changed the page.
    Jumped,
    /// The next turn is one for `step`.
    Other,
}

/// Turns that were made in a page.
#[derive(Clone, Copy)]
pub struct Ran {
    /// Why they ended.
    pub end: PageEnd,
    /// How many they were.
    pub count: u32,
}

/// The operation of an index in a page of a number.
#[inline(always)]
fn operation_at(page: &CodePage, number: u32, index: usize) -> Placed
    requires within { index ≤ 1024 }
    requires number { number ≡ page.now.number }
    ensures operation { operation_of result ≡ slice_index_or page.now.operations index other }
    ensures number { result.number ≡ page.now.number }
    ensures index { result.index ≡ index }
    ensures code { IsCodeOf page.now }
{
    let operation = page.operation(index);
    Placed {
        kind: operation.kind,
        rd: operation.rd,
        rs1: operation.rs1,
        rs2: operation.rs2,
        imm: operation.imm,
        number,
        index,
    }
}

/// Ends turns in a page: so many were made, and the next is at this pc.
#[inline(always)]
fn leave(regs: &mut Regs, turns: &mut Turns, end: PageEnd, count: u32, pc: u32) -> Ran
    ensures end { result.end ≡ end }
    ensures count { result.count ≡ count }
    ensures registers { regs.new ≡ with_pc regs.old pc }
    ensures cost { turns.new ≡ turns.old + count }
{
    regs.set_pc(pc);
    turns.count(count);
    Ran { end, count }
}

/// Ends turns in a page after memory ran out in the turn at this pc: so many were made before it, and it counts too.
#[cold]
fn fail(regs: &mut Regs, turns: &mut Turns, made: u32, pc: u32) -> AllocError
    ensures registers { regs.new ≡ with_pc regs.old pc }
    ensures cost { turns.new ≡ turns.old + (made + 1) }
{
    regs.set_pc(pc);
    turns.count(made);
    turns.count(1);
    AllocError
}

/// Makes turns from a decoded page, whose instructions may be run: up to one that leads out of it, a store to it, or a
/// turn that is left to `step`, and no more than there is room for. The counter rises by the number of turns.
///
/// # Errors
///
/// An error if the host's memory ran out in a turn: those before it were made, and nothing changed in it. The counter
/// rises by their number and by one.
#[inline(never)]
pub fn run_page<M: Mem>(
    regs: &mut Regs,
    mem: &mut M,
    page: &CodePage,
    room: u32,
    turns: &mut Turns,
) -> Result<Ran, AllocError>
    requires here { regs.old.pc / 4096 ≡ page.now.number }
    requires aligned { regs.old.pc % 4 ≡ 0 }
    requires runs { RunsFrom (M.workspace mem.old) page.now.number page.now.bytes }
    requires room { 1024 ≤ room }
    ensures turns { IfOk result (λ ran.
        Follow ran.count (M.workspace mem.old) regs.old (M.workspace mem.new) regs.new) }
    ensures few { IfOk result (λ ran. ran.count ≤ room) }
    ensures cost { IfOk result (λ ran. turns.new ≡ turns.old + ran.count) }
    ensures never_lower { turns.old ≤ turns.new }
    ensures err { OnErr result ((made : ℕ) × (made ≤ room) × (turns.new ≡ turns.old + (made + 1))
        × Follow made (M.workspace mem.old) regs.old (M.workspace mem.new) regs.new) }
    ensures jumped { IfOk result (λ ran. ran.end ≡ end.Jumped → 1 ≤ ran.count) }
{
    let number = page.number();
    let mut index = (regs.pc() % 4096 / 4) as usize;
    let mut ahead = 1024 - index as u32;
    'turns: loop {
        let placed = operation_at(page, number, index);
        match execute_operation(placed, regs, mem) {
            Ok(Flow::Next) => index += 1,
            Ok(Flow::Inside(target)) => {
                let made = ahead - (1023 - index as u32);
                if made > room - 1024 {
                    let pc = address_of(placed.number, target as usize);
                    return Ok(leave(regs, turns, PageEnd::Jumped, made, pc));
                }
                ahead = made + (1024 - target);
                index = target as usize;
            }
            Ok(Flow::Outside(target)) => {
                let made = ahead - (1023 - index as u32);
                return Ok(leave(regs, turns, PageEnd::Jumped, made, target));
            }
            Ok(Flow::Changed) => {
                let made = ahead - (1023 - index as u32);
                let pc = address_of(placed.number, index + 1);
                return Ok(leave(regs, turns, PageEnd::Jumped, made, pc));
            }
            Ok(Flow::Other) => {
                let made = ahead - (1024 - index as u32);
                let pc = address_of(placed.number, index);
                return Ok(leave(regs, turns, PageEnd::Other, made, pc));
            }
            Err(_) => {
                let made = ahead - (1024 - index as u32);
                let pc = address_of(placed.number, index);
                return Err(fail(regs, turns, made, pc));
            }
        }
    }
}
