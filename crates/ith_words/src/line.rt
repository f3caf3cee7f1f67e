//! The request that a command line encodes.

ghost use Rattle.std.specs.Prelude.{◌≡◌, ◌≤◌, ◌-◌, ◌^◌, IfSome};
ghost use Rattle.std.proofs.Props.{props};
ghost use Rattle.machine_spec.specs.declared.TheConstants.{MOST_FUEL, MOST_STEPS};
ghost use Rattle.ith_words.specs.declared.line.TheConstants.{MOST_WORKERS, MOST_NUMBER};

use machine_spec::Limits;

/// The most workers that a command line may request.
pub const MOST_WORKERS: u32 = 16;

/// The greatest number that an input and its edit are generated from.
pub const MOST_NUMBER: u32 = u32::MAX;

/// A command line requests at most 16 workers. An input and its edit are generated from any 32-bit
/// number.
pub fn limits_are_as_documented()
    ensures workers { MOST_WORKERS ≡ 16 }
    ensures number { MOST_NUMBER ≡ 2 ^ 32 - 1 }
{}

/// The request of a command line.
#[derive(Drop)]
pub enum Line<'a> {
    /// Run a guest from scratch.
    Run(RunLine<'a>),
    /// Continue a guest from a memo.
    Rerun(RerunLine<'a>),
    /// Replay a schedule.
    Replay(ReplayLine<'a>),
    /// List a memo.
    Show(ShowLine<'a>),
    /// Say why steps were executed.
    Explain(ExplainLine<'a>),
    /// Audit a memo.
    Audit(AuditLine<'a>),
    /// List the steps that race.
    FindRaces(RacesLine<'a>),
    /// Run a generated guest.
    Generate(GenerateLine),
}

/// A `run` command line.
#[derive(Drop)]
pub struct RunLine<'a> {
    /// The name of the executable.
    pub elf: &'a str,
    /// The name of the input.
    pub input: &'a str,
    /// The names of the edit lists, in order.
    pub edits: Vec<&'a str>,
    /// The number of workers.
    pub workers: u32,
    /// The most turns of a thunk, and the most steps of a run.
    pub limits: Limits,
    /// The name of the memo to write, if one is requested.
    pub new_memo: Option<&'a str>,
    /// Whether the reports state how many steps an edit reaches.
    pub reach: bool,
    /// Whether the reports state how many steps were made, each time that this was read meanwhile.
    pub progress: bool,
    ghost some_worker: { 1 ≤ workers },
    ghost most_workers: { workers ≤ MOST_WORKERS },
}

/// A `rerun` command line.
#[derive(Drop)]
pub struct RerunLine<'a> {
    /// The name of the memo to read.
    pub memo: &'a str,
    /// The names of the edit lists, in order.
    pub edits: Vec<&'a str>,
    /// The number of workers.
    pub workers: u32,
    /// The most turns of a thunk, or `None` for the memo's.
    pub fuel: Option<u32>,
    /// The most steps of a run, or `None` for the memo's.
    pub steps: Option<u32>,
    /// The name of the memo to write, if one is requested.
    pub new_memo: Option<&'a str>,
    /// Whether the reports state how many steps an edit reaches.
    pub reach: bool,
    /// Whether the reports state how many steps were made, each time that this was read meanwhile.
    pub progress: bool,
    ghost some_worker: { 1 ≤ workers },
    ghost most_workers: { workers ≤ MOST_WORKERS },
    ghost fuel_within: { IfSome fuel (λ f. (1 ≤ f) × (f ≤ MOST_FUEL)) } by { Prim.hlevel props },
    ghost steps_within: { IfSome steps (λ s. (1 ≤ s) × (s ≤ MOST_STEPS)) } by { Prim.hlevel props },
}

/// A `replay` command line.
#[derive(Drop)]
pub struct ReplayLine<'a> {
    /// The name of the executable.
    pub elf: &'a str,
    /// The name of the input.
    pub input: &'a str,
    /// The name of the schedule.
    pub schedule: &'a str,
    /// The most turns of a thunk, and the most steps of a run.
    pub limits: Limits,
}

/// A `show` command line.
#[derive(Drop)]
pub struct ShowLine<'a> {
    /// The name of the memo to read.
    pub memo: &'a str,
}

/// A `why` command line.
#[derive(Drop)]
pub struct ExplainLine<'a> {
    /// The name of the memo to read.
    pub memo: &'a str,
    /// The name of the edit list.
    pub edits: &'a str,
}

/// An `audit` command line.
#[derive(Drop)]
pub struct AuditLine<'a> {
    /// The name of the memo to read.
    pub memo: &'a str,
    /// The number of workers.
    pub workers: u32,
    ghost some_worker: { 1 ≤ workers },
    ghost most_workers: { workers ≤ MOST_WORKERS },
}

/// A `races` command line.
#[derive(Drop)]
pub struct RacesLine<'a> {
    /// The name of the memo to read.
    pub memo: &'a str,
}

/// A `gen` command line.
#[derive(Clone, Copy)]
pub struct GenerateLine {
    /// The number that the input and its edit are generated from.
    pub number: u32,
    /// The number of workers.
    pub workers: u32,
    ghost some_worker: { 1 ≤ workers },
    ghost most_workers: { workers ≤ MOST_WORKERS },
}
