//! One hart, and how the effect of a call changes it; and the harts at the start of a run.

ghost use Rattle.std.specs.Prelude.{◌≡◌, ◌<◌, ◌≤◌, ◌+◌, ◌*◌, ◌-◌, ◌^◌, [], ◌∷◌, suc, IfOk};
ghost use Rattle.machine_spec.specs.Performing.{answered, returned, first_registers, first_hart};
ghost use Rattle.machine_spec.specs.Machine.{Hart as HartState};

use super::view::View;
use guest_call::THREADS;
use machine_spec::{HEADER, STACK_BYTES, STACKS, Status};
use rv_isa::Regs;
use std::alloc::{AllocError, Global};
use std::marker::Model;

/// The stack pointer (RISC-V ELF psABI, Register Convention).
const SP: u8 = 2;

/// The thread pointer (RISC-V ELF psABI, Register Convention).
const TP: u8 = 4;

/// The first argument, and what a call answers (RISC-V ELF psABI, Register Convention).
const A0: u8 = 10;

/// The second argument, and what a call reports besides its answer (RISC-V ELF psABI, Register Convention).
const A1: u8 = 11;

/// The hart of a thread, between two steps.
#[derive(Drop)]
pub struct Hart<V: View> {
    view: V,
    regs: Regs,
    number: u32,
    status: Status,
}

impl<V: View> Model for Hart<V> {
    ghost use Rattle.machine_spec.specs.Machine.{Hart as HartState};

    ghost Value = { HartState };

    ghost view = { λ h. record { view = V.pages h.view; regs = h.regs; number = h.number; status = h.status } };
}

/// The registers after an answer.
fn answer(regs: &mut Regs, a0: u32, a1: Option<u32>)
    ensures { regs.new ≡ answered regs.old a0 a1 }
{
    let next = regs.pc().wrapping_add(4);
    regs.set(A0, a0);
    if let Some(value) = a1 {
        regs.set(A1, value);
    }
    regs.set_pc(next);
}

/// The first registers of thread `t`.
#[tactic(auto, unfolding(machine_spec::specs::Performing::first_registers, isa_spec::specs::Registers::with_register))]
fn registers_of(t: u8, pc: u32, argument: u32) -> Regs
    requires { t < THREADS }
    ensures { result ≡ first_registers t pc argument }
{
    let mut regs = Regs::new(pc);
    regs.set(SP, STACKS + STACK_BYTES * (u32::from(t) + 1));
    regs.set(TP, u32::from(t));
    regs.set(A0, argument);
    regs
}

impl<V: View> Hart<V> {
    /// A hart at the start of thread `t`.
    pub(super) fn first(view: V, t: u8, pc: u32, argument: u32) -> Hart<V>
        requires { t < THREADS }
        ensures { result ≡ first_hart (V.pages view) t pc argument }
    {
        Hart {
            view,
            regs: registers_of(t, pc, argument),
            number: 0,
            status: Status::Ready,
        }
    }

    /// Its call returns: it has the answer and a new view, and is ready.
    pub(super) fn return_with(&mut self, view: V, a0: u32, a1: Option<u32>)
        ensures { self.new ≡ returned (V.pages view) a0 a1 self.old }
    {
        self.view = view;
        answer(&mut self.regs, a0, a1);
        self.status = Status::Ready;
    }

    /// Sets its status.
    pub(super) fn set_status(&mut self, status: Status)
        ensures { self.new ≡ record self.old { status = status } }
    {
        self.status = status;
    }

    /// Its thunk's stores were written: it has these registers, and has made one step more.
    pub(super) fn write_back(&mut self, regs: Regs)
        requires { self.old.number < 2 ^ 32 - 1 }
        ensures { self.new ≡ record self.old { regs = regs; number = suc self.old.number } }
    {
        self.regs = regs;
        self.number += 1;
    }

    /// Its status.
    pub fn status(&self) -> Status
        ensures { result ≡ self.now.status }
    {
        self.status
    }

    /// How many steps it has made.
    pub fn number(&self) -> u32
        ensures { result ≡ self.now.number }
    {
        self.number
    }

    /// Its registers.
    pub fn regs(&self) -> &Regs
        ensures { result.now ≡ self.now.regs }
    {
        &self.regs
    }

    /// Its view.
    pub fn view(&self) -> &V
        ensures { V.pages result.now ≡ self.now.view }
    {
        &self.view
    }
}

/// The harts at the start of a run: thread 0 alone, at the executable's entry.
///
/// # Errors
///
/// An error if the host's memory ran out, or `memory` has as many holders as can be counted.
pub fn first_harts<V: View>(
    alloc: Global,
    memory: &V,
    entry: u32,
) -> Result<Vec<Hart<V>>, AllocError>
    ensures { IfOk result (λ harts. harts.items
        ≡ first_hart (V.pages memory.now) 0 entry HEADER ∷ []) }
{
    let mut harts = Vec::new(alloc);
    harts.push(Hart::first(memory.share()?, 0, entry, HEADER))?;
    Ok(harts)
}
