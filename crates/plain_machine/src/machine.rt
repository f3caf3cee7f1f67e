//! The plain machine, one step at a time.

ghost use Rattle.std.specs.Prelude.{◌≡◌, ◌<◌, ◌≤◌, ◌+◌, true, length, IfOk, OnOk};
ghost use Rattle.std.specs.Arc.{arc_value};
ghost use Rattle.machine_spec.specs.Machine.{Machine, hart_of, hart_in, is_ready};
ghost use Rattle.machine_spec.specs.Setup.{first, map_of};
ghost use Rattle.machine_spec.specs.Step as step;
ghost use Rattle.machine_spec.specs.Whole.{IsTied, IsWhole};
ghost use Rattle.machine_calls.specs.Doing.{harts_after, objects_after, own_end, effect_made};
ghost use Rattle.plain_machine.specs.Making.{IsMade, asked_by};

use super::memory::Memory;
use super::stores::apply_stores;
use super::thunk::{ThunkResult, run};
use machine_calls::{Hart, Written, asked, do_as_asked, first_harts, write_back};
use machine_spec::{Asked, End, Status};
use page_store::{PageMap, PageTable};
use run_history::Setup;
use rv_isa::Turns;
use std::alloc::{AllocError, Global};
use std::marker::Model;
use std::sync::Arc;
use sync_objects::{Effect, Objects};

/// What a step did.
#[derive(Drop)]
pub struct StepResult {
    /// How many turns its thunk made.
    pub count: u32,
    /// What the thunk requested at its end: a call, or the end of the run.
    pub asked: Asked,
    /// What the call did to the threads, if it was one.
    pub effect: Option<Effect>,
}

/// The guest machine between two steps: shared memory, and a view for each thread, each a memory of its own.
#[derive(Drop)]
pub struct PlainMachine {
    alloc: Global,
    map: Arc<PageMap>,
    fuel: u32,
    limit: u32,
    memory: Memory,
    harts: Vec<Hart<Memory>>,
    objects: Objects,
    output: Vec<u8>,
    steps: u32,
    ending: Option<End>,
}

impl Model for PlainMachine {
    ghost use Rattle.std.specs.Arc.{arc_value};
    ghost use Rattle.machine_spec.specs.Machine.{Machine};
    ghost use Rattle.machine_spec.specs.Whole.{IsWhole};

    ghost Value = { Machine };

    ghost view = { λ m. record {
      frame = record { map = arc_value m.map; fuel = m.fuel };
      limit = m.limit;
      memory = m.memory;
      harts = m.harts.items;
      objects = m.objects;
      output = m.output.items;
      steps = m.steps;
      ending = m.ending;
    } };

    ghost invariant = { λ m. IsWhole (view m) };
}

impl PlainMachine {
    /// How it ended, if it has.
    pub fn ended(&self) -> Option<End>
        ensures { result ≡ self.now.ending }
    {
        self.ending
    }

    /// How many threads there are, ended ones included.
    pub fn threads(&self) -> usize
        ensures count { result ≡ length self.now.harts }
        ensures whole { IsWhole self.now }
    {
        self.harts.len()
    }

    /// The status of thread `t`, which exists.
    pub fn status(&self, t: u8) -> Status
        requires { t < length self.now.harts }
        ensures { result ≡ (hart_of self.now t).status }
    {
        let hart = &self.harts[usize::from(t)];
        hart.status()
    }

    /// How many steps thread `t`, which exists, has made.
    pub fn number(&self, t: u8) -> u32
        requires { t < length self.now.harts }
        ensures { result ≡ (hart_of self.now t).number }
    {
        let hart = &self.harts[usize::from(t)];
        hart.number()
    }

    /// Whether thread `t` may make the next step: the machine hasn't ended, and the thread is ready.
    pub fn can_step(&self, t: u8) -> bool
        ensures can { result ≡ step.can_step self.now t }
        ensures whole { IsWhole self.now }
    {
        if self.ending.is_some() || usize::from(t) >= self.harts.len() {
            return false;
        }
        let hart = &self.harts[usize::from(t)];
        hart.status() == Status::Ready
    }

    /// How many steps were made.
    pub fn steps(&self) -> u32
        ensures { result ≡ self.now.steps }
    {
        self.steps
    }

    /// The output so far.
    pub fn output(&self) -> &[u8]
        ensures { result.now ≡ self.now.output }
    {
        self.output.as_slice()
    }

    /// A table of the pages of shared memory.
    ///
    /// # Errors
    ///
    /// An error if the host's memory ran out.
    pub fn memory(&self) -> Result<PageTable, AllocError>
        ensures { IfOk result (λ table. table ≡ self.now.memory) }
    {
        let mut table = PageTable::empty(self.alloc);
        for slot in 0..self.memory.len() {
            table.push(self.memory.page(slot).copy())?;
        }
        Ok(table)
    }

    /// The output so far. Consumes the machine.
    pub fn into_output(self) -> Vec<u8>
        ensures { result.items ≡ self.output }
    {
        self.output
    }
}

impl PlainMachine {
    /// The machine at the start of a setup's run.
    ///
    /// # Errors
    ///
    /// An error if the host's memory ran out.
    #[tactic(auto, unfolding(machine_spec::specs::Setup::first))]
    pub fn new(alloc: Global, setup: &Setup) -> Result<PlainMachine, AllocError>
        ensures { IfOk result (λ machine. machine ≡ first setup.now) }
    {
        machine_spec::first_is_whole();
        let map = Arc::new(alloc, setup.page_map(alloc)?)?;
        let memory = Memory::of(alloc, &setup.memory(alloc)?)?;
        let harts = first_harts(alloc, &memory, setup.image().entry)?;
        Ok(PlainMachine {
            alloc,
            map,
            fuel: setup.fuel(),
            limit: setup.steps(),
            memory,
            harts,
            objects: Objects::new(alloc)?,
            output: Vec::new(alloc),
            steps: 0,
            ending: None,
        })
    }
}

/// The hart of thread `t`, which exists.
fn hart_at(harts: &Vec<Hart<Memory>>, t: u8) -> &Hart<Memory>
    requires { t < length harts.now.items }
    ensures { result.now ≡ hart_in harts.now.items t }
{
    &harts[usize::from(t)]
}

/// Performs what thread `t`'s thunk requests, after its stores were written, and checks whether the run ends. Returns
/// what the step did, and how the run ended, if it has.
///
/// # Errors
///
/// An error if the host's memory ran out.
fn finish(
    alloc: Global,
    harts: &mut Vec<Hart<Memory>>,
    objects: &mut Objects,
    written: &Written<'_, Memory>,
    t: u8,
    done: &ThunkResult,
) -> Result<(StepResult, Option<End>), AllocError>
    requires tied { IsTied objects.old harts.old.items }
    requires ready { is_ready (hart_in harts.old.items t).status ≡ true }
    ensures harts { OnOk result (harts.new.items
        ≡ harts_after written.now.map.now objects.old written.now.memory.now t harts.old.items
        (asked_by t done.now)) }
    ensures objects { OnOk result (objects.new
        ≡ objects_after written.now.map.now objects.old t (asked_by t done.now)) }
    ensures ending { IfOk result (λ r. r.1
        ≡ step.end_after
        (own_end written.now.map.now objects.old t (asked_by t done.now)) harts.new.items
        written.now.limit written.now.steps) }
    ensures count { IfOk result (λ r. r.0.count ≡ done.now.count) }
    ensures asks { IfOk result (λ r. r.0.asked ≡ asked_by t done.now) }
    ensures effect { IfOk result (λ r. r.0.effect
        ≡ effect_made written.now.map.now objects.old t (asked_by t done.now)) }
{
    let asked = asked(t, done.end, &done.regs);
    let mut views = Vec::new(alloc);
    let acted = do_as_asked(harts, objects, &mut views, written, t, asked)?;
    let made = StepResult {
        count: done.count,
        asked,
        effect: acted.effect,
    };
    Ok((made, acted.ending))
}

impl PlainMachine {
    /// Executes a step of thread `t`, which may make one: its thunk is run on its view, its stores are applied to
    /// shared memory in order, and its call is performed. The counter rises by the number of the thunk's turns.
    ///
    /// # Errors
    ///
    /// An error if the host's memory ran out; the machine is consumed then.
    #[tactic(auto, using(machine_calls::proofs::Asking::below))]
    pub fn step(self, t: u8, turns: &mut Turns) -> Result<(PlainMachine, StepResult), AllocError>
        requires { step.can_step self t ≡ true }
        ensures machine { IfOk result (λ r. r.0 ≡ step.step self t) }
        ensures made { IfOk result (λ r. IsMade self t r.1) }
        ensures most { IfOk result (λ r. r.1.count ≤ self.frame.fuel) }
        ensures cost { IfOk result (λ r. turns.new ≡ turns.old + r.1.count) }
        ensures never_lower { turns.old ≤ turns.new }
    {
        machine_spec::step_keeps_whole();
        let PlainMachine {
            alloc,
            map,
            fuel,
            limit,
            mut memory,
            mut harts,
            mut objects,
            mut output,
            steps,
            ending: _,
        } = self;
        let hart = hart_at(&harts, t);
        let done = run(alloc, &map, fuel, hart.view(), *hart.regs(), turns)?;
        apply_stores(&map, &mut memory, done.stores.as_slice())?;
        output.extend_from_slice(done.put.as_slice())?;
        write_back(&mut harts, t, done.regs);
        let written = Written {
            map: &map,
            memory: &memory,
            limit,
            steps: steps + 1,
        };
        let (made, ending) = finish(alloc, &mut harts, &mut objects, &written, t, &done)?;
        let machine = PlainMachine {
            alloc,
            map,
            fuel,
            limit,
            memory,
            harts,
            objects,
            output,
            steps: steps + 1,
            ending,
        };
        Ok((machine, made))
    }
}
