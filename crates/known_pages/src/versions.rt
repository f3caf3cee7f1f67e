//! Which versions of its history's pages the pages of a round are. A page that a record read isn't compared if it is
//! known to be of the version that the record read, in whatever order the steps come.

ghost use Rattle.std.specs.Prelude.{◌≡◌, ◌<◌, ◌≤◌, ◌+◌, ◌∷◌, [], ℕ, true, map, length, slice_get, None, is_some, if◌then◌else◌, IfOk, IfSome};
ghost use Rattle.history_spec.specs.Facts.{written_slots, facts};
ghost use Rattle.thunk_spec.specs.Delta.{PageDelta};
ghost use Rattle.thunk_spec.specs.Reads.{ReadPage as Read, has};
ghost use Rattle.machine_spec.specs.Setup.{IsSetup};
ghost use Rattle.history_spec.specs.History.{is_coherent};
ghost use Rattle.known_pages.specs.Versions as versions;
ghost use Rattle.known_pages.specs.Versions.{with_each, stored_version, seen_version, learned, rewritten, is_of_version, AreStepsOf, AreFresh, AreReused, AreExecuted, AreGiven, MayBeMadeAgain, MayBeMadeAnew, HasKnown, unknown_in, unboxed};

use super::times::{PageVersion, Times, set};
use depend_graph::Graph;
use machine_spec::MOST_STEPS;
use page_store::{PageTable, ReadPage};
use release_core::Core;
use run_history::History;
use std::alloc::{AllocError, Global};
use thunk_record::{Compared, Record, has_read};

/// Which versions of pages a step of a history reads and writes.
#[derive(Drop)]
pub struct StepVersions {
    /// The pages that it reads, in the order of its record.
    pub read: Vec<PageVersion>,
    /// The pages that it writes, in the order of its record, with the versions before it.
    pub written: Vec<PageVersion>,
}

/// What a round knows of the versions of its history's pages.
#[derive(Drop)]
pub struct Versions {
    /// Which versions each step of the history reads and writes.
    pub steps: Vec<StepVersions>,
    /// When the round's pages were written, and its threads given their views.
    pub times: Times,
    /// By slot, which version each of the round's pages is, if known.
    pub pages: Vec<Option<u32>>,
}

/// The versions that a step of thread `t` finds in its view of the pages that it reads.
fn read_versions(
    alloc: Global,
    times: &Times,
    t: u8,
    reads: &[ReadPage],
) -> Result<Vec<PageVersion>, AllocError>
    ensures { IfOk result (λ read. read.items
        ≡ map (λ (p : Read). seen_version times.now.written.items times.now.viewed t p.slot)
        reads.now) }
{
    reads
        .iter()
        .map(|page| times.seen(t, page.slot()))
        .collect(alloc)
}

/// The versions that a step finds in shared memory of the pages that it writes.
fn written_versions(
    alloc: Global,
    times: &Times,
    rec: &Record,
) -> Result<Vec<PageVersion>, AllocError>
    ensures { IfOk result (λ written. written.items
        ≡ map (λ (d : PageDelta). stored_version times.now.written.items d.slot)
        rec.now.kept.delta) }
{
    rec.delta()
        .pages()
        .iter()
        .map(|page| times.stored(page.slot()))
        .collect(alloc)
}

/// Which versions of pages a step reads and writes, by when pages were written and views given before it.
fn step_versions(alloc: Global, times: &Times, rec: &Record) -> Result<StepVersions, AllocError>
    ensures read { IfOk result (λ step. step.read.items
        ≡ map (λ (p : Read). seen_version times.now.written.items times.now.viewed
        rec.now.thread p.slot) rec.now.kept.reads) }
    ensures written { IfOk result (λ step. step.written.items
        ≡ map (λ (d : PageDelta). stored_version times.now.written.items d.slot)
        rec.now.kept.delta) }
{
    let read = read_versions(alloc, times, rec.thread(), rec.reads().pages())?;
    let written = written_versions(alloc, times, rec)?;
    Ok(StepVersions { read, written })
}

/// Which versions of pages the steps of a history read and write, if it has this graph and `pages` pages. Takes one
/// pass.
///
/// # Errors
///
/// An error if the host's memory ran out.
pub fn steps_of(
    alloc: Global,
    history: &History,
    graph: &Graph,
    pages: usize,
) -> Result<Vec<StepVersions>, AllocError>
    requires coherent { is_coherent history.now ≡ true }
    requires valid { IsSetup history.now.setup }
    requires graph { graph.now ≡ facts history.now }
    ensures steps { IfOk result (λ steps. AreStepsOf history.now steps.items) }
    ensures count { IfOk result (λ steps. length steps.items ≡ length history.now.records) }
{
    let records = history.records();
    let mut times = Times::new(alloc, pages, 0)?;
    let mut steps = Vec::with_capacity(alloc, records.len())?;
    for place in 0..records.len() {
        let rec = records.at(place);
        steps.push(step_versions(alloc, &times, rec)?)?;
        let now = place as u32 + 1;
        times.write(rec, now);
        times.give(graph.fact(place).given.as_slice(), now);
    }
    Ok(steps)
}

/// Whether the page in a slot is known to be of a version.
fn is_of(pages: &[Option<u32>], slot: usize, version: Option<u32>) -> bool
    ensures { result ≡ is_of_version version (slice_get pages.now slot) }
{
    match (version, pages.get(slot)) {
        (Some(version), Some(Some(page))) => version == *page,
        _ => false,
    }
}

/// Notes the versions of the pages that a fitting record read, as far as they are current in its thread's view.
fn learn(pages: &mut [Option<u32>], times: &Times, t: u8, read: &[PageVersion])
    ensures { pages.new
        ≡ learned times.now.written.items times.now.viewed pages.old t read.now }
{
    for page in read {
        if times.is_current(t, page.slot) && page.version.is_some() {
            set(pages, page.slot, page.version);
        }
    }
}

/// Pages that a step of the history writes get the version after it, if they had the version that it found; else their
/// version is unknown.
fn rewrite(pages: &mut [Option<u32>], written: &[PageVersion], after: u32)
    ensures { pages.new ≡ rewritten pages.old after written.now }
{
    for page in written {
        let same = is_of(pages, page.slot, page.version);
        set(pages, page.slot, if same { Some(after) } else { None });
    }
}

/// Updates what is known of pages when the fitting record of a step of the history is reused. `after` is the version
/// after that step.
fn make_again(pages: &mut [Option<u32>], times: &Times, t: u8, step: &StepVersions, after: u32)
    ensures { pages.new ≡ rewritten (learned times.now.written.items times.now.viewed pages.old t
        step.now.read.items) after step.now.written.items }
{
    learn(pages, times, t, step.read.as_slice());
    rewrite(pages, step.written.as_slice(), after);
}

/// The versions of the pages that an executed step wrote are unknown from then on.
fn forget(pages: &mut [Option<u32>], rec: &Record)
    ensures { pages.new ≡ with_each pages.old (written_slots rec.now) None }
{
    let written = rec.delta().pages();
    for page in written {
        set(pages, page.slot(), None);
    }
}

impl Versions {
    /// Versions of which nothing is known yet, after `now` steps of a round with `pages` pages.
    ///
    /// # Errors
    ///
    /// An error if the host's memory ran out.
    pub fn new(
        alloc: Global,
        steps: Vec<StepVersions>,
        pages: usize,
        now: u32,
    ) -> Result<Versions, AllocError>
        requires { now ≤ MOST_STEPS }
        ensures steps { IfOk result (λ versions. versions.steps.items ≡ steps.items) }
        ensures fresh { IfOk result (AreFresh now) }
    {
        Ok(Versions {
            steps,
            times: Times::new(alloc, pages, now + 1)?,
            pages: vec![in alloc; None; pages]?,
        })
    }

    /// Whether page `k` of those that the history's step at a place read is known to be, in the view of thread `t`,
    /// what the step read.
    fn knows_read(&self, place: usize, t: u8, k: usize) -> bool
        ensures { result ≡ versions.knows_read self.now place t k }
    {
        let Some(step) = self.steps.get(place) else {
            return false;
        };
        match step.read.get(k) {
            Some(page) => {
                self.times.is_current(t, page.slot)
                    && is_of(self.pages.as_slice(), page.slot, page.version)
            }
            None => false,
        }
    }

    /// Whether the view of thread `t` has these pages, which the history's step at a place read. Those that are known
    /// to be what it read aren't compared.
    pub fn has_reads(
        &self,
        place: usize,
        t: u8,
        view: &PageTable,
        reads: &[ReadPage],
        compared: &mut Compared,
    ) -> bool
        requires known { HasKnown self.now place t view.now reads.now }
        ensures has { result ≡ has view.now reads.now }
        ensures compared { compared.new ≡ compared.old
            + unknown_in (versions.knows_read self.now place t) 0 view.now reads.now }
    {
        for (k, read) in reads.iter().enumerate() {
            if self.knows_read(place, t, k) {
                continue;
            }
            if !has_read(view, read, compared) {
                return false;
            }
        }
        true
    }

    /// Notes that the record at a place of the history was reused, after which the round has `now` steps.
    fn reuse(&mut self, place: usize, rec: &Record, now: u32)
        requires there { place < length self.old.steps.items }
        requires few { length self.old.steps.items ≤ MOST_STEPS }
        ensures { AreReused self.old place rec.now now self.new }
    {
        let Versions {
            steps,
            times,
            pages,
        } = self;
        let after = place as u32 + 1;
        make_again(
            pages.as_mut_slice(),
            times,
            rec.thread(),
            &steps[place],
            after,
        );
        times.write(rec, now);
    }

    /// Notes which threads a step of thread `t` gave a view. After it the round has this machine and `now` steps.
    fn give_views(&mut self, core: &Core, t: u8, now: u32)
        requires { now ≤ MOST_STEPS }
        ensures { AreGiven core.now t now self.old self.new }
    {
        self.times.give_by(core, t, now);
    }

    /// Notes that a step was executed, after which the round has `now` steps.
    fn execute(&mut self, rec: &Record, now: u32)
        ensures { AreExecuted self.old rec.now now self.new }
    {
        forget(self.pages.as_mut_slice(), rec);
        self.times.write(rec, now);
    }
}

/// The known versions, if there are any, else the fresh ones.
pub fn known_or(known: Option<Box<Versions>>, fresh: Option<Box<Versions>>) -> Option<Box<Versions>>
    ensures { result ≡ (if is_some known then known else fresh) }
{
    match known {
        Some(versions) => Some(versions),
        None => fresh,
    }
}

/// What is known of versions after the record at a place of the history was reused. The round then has this machine and
/// `now` steps.
pub fn after_reuse(
    versions: Option<Box<Versions>>,
    core: &Core,
    place: usize,
    rec: &Record,
    now: u32,
) -> Option<Box<Versions>>
    requires there { IfSome versions (λ v. place < length v.value.steps.items) }
    requires few { IfSome versions (λ v. length v.value.steps.items ≤ MOST_STEPS) }
    requires now { now ≤ MOST_STEPS }
    ensures { MayBeMadeAgain (unboxed versions) core.now place rec.now now (unboxed result) }
{
    match versions {
        Some(mut versions) => {
            versions.reuse(place, rec, now);
            versions.give_views(core, rec.thread(), now);
            Some(versions)
        }
        None => None,
    }
}

/// What is known of versions after a step was executed. The round then has this machine and `now` steps.
pub fn after_execution(
    versions: Option<Box<Versions>>,
    core: &Core,
    rec: &Record,
    now: u32,
) -> Option<Box<Versions>>
    requires { now ≤ MOST_STEPS }
    ensures { MayBeMadeAnew (unboxed versions) core.now rec.now now (unboxed result) }
{
    match versions {
        Some(mut versions) => {
            versions.execute(rec, now);
            versions.give_views(core, rec.thread(), now);
            Some(versions)
        }
        None => None,
    }
}
