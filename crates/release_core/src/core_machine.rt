//! The guest machine.

ghost use Rattle.std.specs.Prelude.{◌≡◌, ◌<◌, ◌≤◌, ◌+◌, ◌&&◌, true, [], ◌∷◌, length, nat_lt, vec_len, Some, IfOk, IfErr, OnOk, OnErr};
ghost use Rattle.std.specs.Arc.{arc_value};
ghost use Rattle.thunk_spec.specs.Delta.{masked};
ghost use Rattle.thunk_spec.specs.Record.{put_of, IsTrue};
ghost use Rattle.machine_calls.specs.Views.{AreViewsOf};
ghost use Rattle.machine_calls.specs.Views as views;
ghost use Rattle.release_core.specs.Jobs.{IsJobOf};
ghost use Rattle.release_core.specs.Applying.{can_apply, IsCauseOf, compared_on};
ghost use Rattle.machine_spec.specs.Machine.{Machine, hart_of, is_ready, is_ended};
ghost use Rattle.machine_spec.specs.Setup.{IsSetup, first, map_of};
ghost use Rattle.machine_spec.specs.Step as step;
ghost use Rattle.machine_spec.specs.Whole.{IsWhole};

use super::performing::{do_as_prepared, view_at, views_of};
use super::put::put_bytes;
use machine_calls::{Hart, Written, asked, first_harts, most_views, write_back};
use machine_spec::{End, Status};
use page_store::{PageMap, PageTable, committed};
use run_history::Setup;
use rv_isa::Regs;
use std::alloc::{AllocError, Global};
use std::marker::Model;
use std::sync::Arc;
use sync_objects::Objects;
use thunk_record::{Compared, Frame, Job, Record, fits, fits_counted};

/// Why a record wasn't applied.
#[derive(Clone, Copy, Drop)]
pub enum ApplyError {
    /// The machine has ended, or the record doesn't fit: its thread isn't ready at its number of
    /// steps, or has other registers, or its view has other bytes in a read page, or no thunk of this
    /// fuel could have ended as the record's did.
    Stale,
    /// The host's memory ran out.
    NoMemory,
}

/// The guest machine between two steps.
#[derive(Drop)]
pub struct Core {
    alloc: Global,
    frame: Arc<Frame>,
    limit: u32,
    memory: Arc<PageTable>,
    harts: Vec<Hart<Arc<PageTable>>>,
    objects: Objects,
    output: Vec<u8>,
    steps: u32,
    ending: Option<End>,
}

impl Model for Core {
    ghost use Rattle.std.specs.Arc.{arc_value};
    ghost use Rattle.machine_spec.specs.Machine.{Machine};
    ghost use Rattle.machine_spec.specs.Whole.{IsWhole};

    ghost Value = { Machine };

    ghost view = { λ c. record {
      frame = arc_value c.frame;
      limit = c.limit;
      memory = arc_value c.memory;
      harts = c.harts.items;
      objects = c.objects;
      output = c.output.items;
      steps = c.steps;
      ending = c.ending;
    } };

    ghost invariant = { λ c. IsWhole (view c) };
}

impl Core {
    /// How it ended, if it has.
    pub fn ended(&self) -> Option<End>
        ensures ending { result ≡ self.now.ending }
        ensures whole { IsWhole self.now }
    {
        self.ending
    }

    /// The output so far.
    pub fn output(&self) -> &[u8]
        ensures { result.now ≡ self.now.output }
    {
        self.output.as_slice()
    }

    /// Shared memory.
    pub fn memory(&self) -> &PageTable
        ensures { result.now ≡ self.now.memory }
    {
        &self.memory
    }

    /// The page map and the fuel.
    pub fn frame(&self) -> &Frame
        ensures { result.now ≡ self.now.frame }
    {
        &self.frame
    }

    /// How many steps thread `t`, which exists, has made.
    pub fn number(&self, t: u8) -> u32
        requires { t < length self.now.harts }
        ensures { result ≡ (hart_of self.now t).number }
    {
        let hart = &self.harts[usize::from(t)];
        hart.number()
    }

    /// Whether thread `t` is ready; no thread that doesn't exist is.
    pub fn ready(&self, t: u8) -> bool
        ensures { result ≡ is_ready (hart_of self.now t).status }
    {
        if usize::from(t) >= self.harts.len() {
            return false;
        }
        let hart = &self.harts[usize::from(t)];
        hart.status() == Status::Ready
    }

    /// Whether thread `t` exists and has ended.
    pub fn has_exited(&self, t: u8) -> bool
        ensures { result
            ≡ nat_lt t (length self.now.harts) && is_ended (hart_of self.now t).status }
    {
        if usize::from(t) >= self.harts.len() {
            return false;
        }
        let hart = &self.harts[usize::from(t)];
        match hart.status() {
            Status::Ended(_) => true,
            Status::Ready | Status::Blocked => false,
        }
    }

    /// How many threads there are, ended ones included.
    pub fn threads(&self) -> usize
        ensures count { result ≡ length self.now.harts }
        ensures whole { IsWhole self.now }
    {
        self.harts.len()
    }

    /// The registers of thread `t`, which is ready.
    #[tactic(auto, using(machine_calls::proofs::Asking::below))]
    pub fn regs(&self, t: u8) -> &Regs
        requires { is_ready (hart_of self.now t).status ≡ true }
        ensures { result.now ≡ (hart_of self.now t).regs }
    {
        let hart = &self.harts[usize::from(t)];
        hart.regs()
    }

    /// The view of thread `t`, which is ready.
    #[tactic(auto, using(machine_calls::proofs::Asking::below))]
    pub fn view(&self, t: u8) -> &PageTable
        requires { is_ready (hart_of self.now t).status ≡ true }
        ensures { result.now ≡ (hart_of self.now t).view }
    {
        view_at(self.harts.as_slice(), t)
    }

    /// Whether a record fits: its thread is ready, has made as many steps and has the record's first registers, its
    /// view has the bytes of each read page, and a thunk of this machine's fuel may have ended as the record's did.
    /// Allocates no memory.
    #[tactic(auto, using(machine_calls::proofs::Asking::below), unfolding(machine_spec::specs::Step::fits))]
    pub fn fits(&self, rec: &Record) -> bool
        ensures { result ≡ step.fits self.now rec.now }
    {
        if !self.ready(rec.thread()) {
            return false;
        }
        let hart = &self.harts[usize::from(rec.thread())];
        fits(
            rec,
            hart.number(),
            hart.regs(),
            hart.view(),
            self.frame.fuel(),
        )
    }

    /// Like `fits`. The counter rises by the number of read pages that are compared.
    #[tactic(auto, using(machine_calls::proofs::Asking::below), unfolding(machine_spec::specs::Step::fits))]
    pub fn fits_counted(&self, rec: &Record, compared: &mut Compared) -> bool
        ensures fits { result ≡ step.fits self.now rec.now }
        ensures compared { compared.new ≡ compared.old + compared_on self.now rec.now }
    {
        if !self.ready(rec.thread()) {
            return false;
        }
        let hart = &self.harts[usize::from(rec.thread())];
        fits_counted(
            rec,
            hart.number(),
            hart.regs(),
            hart.view(),
            self.frame.fuel(),
            compared,
        )
    }
}

/// The frame of a setup: all its pages and its fuel, with its decoded pages.
fn frame_of(alloc: Global, setup: &Setup) -> Result<Arc<Frame>, AllocError>
    ensures { IfOk result (λ frame. arc_value frame
        ≡ record { map = map_of setup.now; fuel = setup.now.fuel }) }
{
    let map = Arc::new(alloc, setup.page_map(alloc)?)?;
    let code = Arc::try_clone(setup.code())?;
    let frame = Arc::new(alloc, Frame::new(map, setup.fuel(), code))?;
    Ok(frame)
}

impl Core {
    /// The machine at the start of a setup's run.
    ///
    /// # Errors
    ///
    /// An error if the host's memory ran out, or a shared part has as many holders as can be counted.
    #[tactic(auto, unfolding(machine_spec::specs::Setup::first))]
    pub fn new(alloc: Global, setup: &Setup) -> Result<Core, AllocError>
        ensures first { IfOk result (λ core. core ≡ first setup.now) }
        ensures sound { IfOk result (λ _. IsSetup setup.now) }
    {
        machine_spec::first_is_whole();
        let frame = frame_of(alloc, setup)?;
        let memory = Arc::new(alloc, setup.memory(alloc)?)?;
        let image = setup.image();
        let harts = first_harts(alloc, &memory, image.entry)?;
        Ok(Core {
            alloc,
            frame,
            limit: setup.steps(),
            memory,
            harts,
            objects: Objects::new(alloc)?,
            output: Vec::new(alloc),
            steps: 0,
            ending: None,
        })
    }
}

/// What applying a record has to allocate, made before anything changes.
#[derive(Drop)]
struct Prepared {
    memory: Arc<PageTable>,
    put: Vec<u8>,
    views: Vec<Arc<PageTable>>,
}

/// Shared memory with a record's stored bytes applied. If the record stored nothing, the table is shared.
fn written(
    alloc: Global,
    memory: &Arc<PageTable>,
    rec: &Record,
) -> Result<Arc<PageTable>, AllocError>
    ensures { IfOk result (λ after. arc_value after
        ≡ masked (arc_value memory.now) rec.now.kept.delta) }
{
    if rec.delta().pages().is_empty() {
        return Arc::try_clone(memory);
    }
    let after = Arc::new(alloc, committed(memory, rec.delta())?)?;
    Ok(after)
}

/// Shared memory with a record's stored bytes applied, the bytes of its put, and the views that its end can give.
fn prepare(
    alloc: Global,
    map: &PageMap,
    memory: &Arc<PageTable>,
    view: &PageTable,
    rec: &Record,
) -> Result<Prepared, AllocError>
    requires { length view.now ≡ length map.now }
    ensures memory { IfOk result (λ p. arc_value p.memory
        ≡ masked (arc_value memory.now) rec.now.kept.delta) }
    ensures put { IfOk result (λ p. p.put.items ≡ put_of map.now view.now rec.now.kept) }
    ensures views { IfOk result (λ p. AreViewsOf arc_value (arc_value p.memory) p.views.items) }
    ensures enough { IfOk result (λ p.
        views.most_views (step.asked rec.now.thread rec.now.kept.end rec.now.kept.finish)
        ≤ vec_len p.views) }
{
    let memory = written(alloc, memory, rec)?;
    let put = put_bytes(alloc, map, view, rec)?;
    let count = most_views(asked(rec.thread(), rec.end(), rec.finish()));
    let views = views_of(alloc, &memory, count)?;
    Ok(Prepared { memory, put, views })
}

impl Core {
    /// The next thunk of thread `t`, which is ready, as a job.
    ///
    /// # Errors
    ///
    /// An error if the frame or the thread's view has as many holders as can be counted.
    #[tactic(auto, using(machine_calls::proofs::Asking::below, machine_calls::proofs::Asking::view_count))]
    pub fn start_of(&self, t: u8) -> Result<Job, AllocError>
        requires { is_ready (hart_of self.now t).status ≡ true }
        ensures { IfOk result (IsJobOf self.now t) }
    {
        let hart = &self.harts[usize::from(t)];
        let frame = Arc::try_clone(&self.frame)?;
        let view = Arc::try_clone(hart.view())?;
        Ok(Job::new(frame, t, hart.number(), *hart.regs(), view))
    }

    /// Applies a record in place of a step of its thread, which may make one: its stored bytes are written, and all
    /// that follows a thunk is performed.
    ///
    /// # Errors
    ///
    /// An error if the host's memory ran out; the machine is then as before.
    #[tactic(auto, using(machine_calls::proofs::Asking::below, machine_calls::proofs::Asking::view_count, machine_calls::proofs::Asking::few_numbers))]
    pub fn apply(&mut self, rec: &Record) -> Result<(), AllocError>
        requires { step.can_step self.old rec.now.thread ≡ true }
        ensures ok { OnOk result (self.new ≡ step.apply self.old rec.now) }
        ensures err { OnErr result (self.new ≡ self.old) }
        ensures whole { IsWhole self.old }
    {
        let t = rec.thread();
        let view = view_at(self.harts.as_slice(), t);
        let Prepared {
            memory,
            put,
            mut views,
        } = prepare(self.alloc, self.frame.map(), &self.memory, view, rec)?;
        self.harts.reserve(1)?;
        self.output.extend_from_slice(put.as_slice())?;
        write_back(&mut self.harts, t, *rec.finish());
        self.steps += 1;
        self.ending = do_as_prepared(
            &mut self.harts,
            &mut self.objects,
            &mut views,
            &Written {
                map: self.frame.map(),
                memory: &memory,
                limit: self.limit,
                steps: self.steps,
            },
            t,
            asked(t, rec.end(), rec.finish()),
        );
        self.memory = memory;
        Ok(())
    }

    /// Applies a record that fits in place of a step of its thread.
    ///
    /// # Errors
    ///
    /// `Stale` exactly if the machine has ended or the record doesn't fit, and `NoMemory` if the host's memory ran out;
    /// the machine is then as before.
    #[tactic(auto, using(crate::proofs::Applying::fitting_can))]
    pub fn try_apply(&mut self, rec: &Record) -> Result<(), ApplyError>
        ensures ok { OnOk result (self.new ≡ step.apply self.old rec.now) }
        ensures fitting { OnOk result (can_apply self.old rec.now ≡ true) }
        ensures simulates { OnOk result (IsTrue self.old.frame rec.now.start rec.now.kept
            → self.new ≡ step.step self.old rec.now.thread) }
        ensures cause { IfErr result (λ e. IsCauseOf self.old rec.now e) }
        ensures err { OnErr result (self.new ≡ self.old) }
    {
        machine_spec::apply_is_step();
        if self.ended().is_some() || !self.fits(rec) {
            return Err(ApplyError::Stale);
        }
        match self.apply(rec) {
            Ok(()) => Ok(()),
            Err(_) => Err(ApplyError::NoMemory),
        }
    }
}
