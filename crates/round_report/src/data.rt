//! The data of a report.

use machine_spec::End;
use page_store::PageTable;
use report_spec::Entry;
use std::marker::Model;

/// The data of a round's report. It borrows all that is long.
#[derive(Drop)]
pub struct ReportData<'a> {
    /// How the round ended.
    pub ending: Option<End>,
    /// The round's steps in order, each with its mark.
    pub schedule: &'a [Entry],
    /// How many steps of the history that the round is based on are reached, if that is reported.
    pub reached: Option<u32>,
    /// The numbers of steps that a watcher read during the round, if they are reported.
    pub progress: Option<&'a [u64]>,
    /// How many instructions the executed steps made.
    pub instructions: u64,
    /// How many steps each worker made, in the workers' order.
    pub worker_steps: &'a [u64],
    /// Shared memory after the last step.
    pub memory: &'a PageTable,
    /// All bytes of the guest's output.
    pub output: &'a [u8],
}

impl<'a> Model for ReportData<'a> {
    ghost use Rattle.std.specs.Prelude.{option_map};
    ghost use Rattle.report_spec.specs.Report.{ReportData as report_data};

    ghost Value = { report_data };

    ghost view = { λ t. record {
      ending = t.ending;
      schedule = t.schedule.now;
      extras = record { reached = t.reached; progress = option_map (λ numbers. numbers.now) t.progress };
      instructions = t.instructions;
      worker_steps = t.worker_steps.now;
      memory = t.memory.now;
      output = t.output.now;
    } };
}
