//! The files that a command line names to read.

ghost use Rattle.std.specs.Prelude.{◌≤◌, ◌∷◌, [], length, map, IfOk, IfErr};
ghost use Rattle.ith_host.specs.World.{IsContent};
ghost use Rattle.edit_list.specs.Lists.{bytes_of_each};
ghost use Rattle.ith_words.specs.Words.{Runs, Reruns, Replays};
ghost use Rattle.ith_words.specs.Said.{run_said, rerun_said, replay_said};
ghost use Rattle.ith_commands.specs.Files.{elf_named, input_named, lists_named, files_named, memo_named, Reads};
ghost use Rattle.ith_commands.specs.Contents.{AreLists, AreContents, AreReplayContents, IsMemoContent};
ghost use Rattle.ith_commands.specs.Refusals.{WhyUnread};

use super::outside::read_file;
use super::status::Status;
use edit_spec::MOST_LIST_BYTES;
use elf_spec::MOST_ELF_BYTES;
use ith_host::Host;
use ith_words::{ReplayLine, RerunLine, RunLine};
use machine_spec::MOST_INPUT_BYTES;
use memo_spec::MOST_MEMO_BYTES;
use schedule_list::MOST_SCHEDULE_BYTES;
use std::alloc::Global;

/// The contents of the files of a `run` command.
#[derive(Drop)]
pub struct Files {
    /// The executable.
    pub elf: Vec<u8>,
    /// The input.
    pub input: Vec<u8>,
    /// The edit lists, in order.
    pub lists: Vec<Vec<u8>>,
}

/// The contents of the files of a `replay` command.
#[derive(Drop)]
pub struct ReplayFiles {
    /// The executable.
    pub elf: Vec<u8>,
    /// The input.
    pub input: Vec<u8>,
    /// The schedule.
    pub schedule: Vec<u8>,
}

/// The contents of the files of a `rerun` command.
#[derive(Drop)]
pub struct RerunFiles {
    /// The memo.
    pub memo: Vec<u8>,
    /// The edit lists, in order.
    pub lists: Vec<Vec<u8>>,
}

/// Reads edit lists, in order.
fn read_lists<H: Host>(alloc: Global, host: &mut H, names: &[&str]) -> Result<Vec<Vec<u8>>, Status>
    ensures contents { IfOk result (λ lists. AreLists
        (H.world host.old) (map (λ name. name.now) names.now) (bytes_of_each lists.items)) }
    ensures reads { IfOk result (λ _. Reads (lists_named (map (λ name. name.now) names.now))
        (H.world host.old) (H.world host.new)) }
    ensures refused { IfErr result (λ status.
        WhyUnread (lists_named (map (λ name. name.now) names.now))
        (H.world host.old) (H.world host.new) status) }
{
    let mut lists = Vec::new(alloc);
    for name in names {
        let list = read_file(alloc, host, name, MOST_LIST_BYTES as u64)?;
        lists.push(list)?;
    }
    Ok(lists)
}

/// An executable and an input.
#[derive(Drop)]
struct GuestFiles {
    elf: Vec<u8>,
    input: Vec<u8>,
}

/// Reads an executable, and then an input.
fn read_guest<H: Host>(
    alloc: Global,
    host: &mut H,
    elf: &str,
    input: &str,
) -> Result<GuestFiles, Status>
    ensures elf { IfOk result (λ files. IsContent (H.world host.old) elf.now files.elf.items) }
    ensures elf_within { IfOk result (λ files. length files.elf.items ≤ MOST_ELF_BYTES) }
    ensures input { IfOk result (λ files.
        IsContent (H.world host.old) input.now files.input.items) }
    ensures input_within { IfOk result (λ files. length files.input.items ≤ MOST_INPUT_BYTES) }
    ensures reads { IfOk result (λ _. Reads (elf_named elf.now ∷ input_named input.now ∷ [])
        (H.world host.old) (H.world host.new)) }
    ensures refused { IfErr result (λ status.
        WhyUnread (elf_named elf.now ∷ input_named input.now ∷ [])
        (H.world host.old) (H.world host.new) status) }
{
    let elf = read_file(alloc, host, elf, MOST_ELF_BYTES as u64)?;
    let input = read_file(alloc, host, input, MOST_INPUT_BYTES as u64)?;
    Ok(GuestFiles { elf, input })
}

/// Reads the files of a `run` command, in the order in which it names them.
pub fn read_files<H: Host>(alloc: Global, host: &mut H, line: &RunLine<'_>) -> Result<Files, Status>
    ensures contents { IfOk result (λ files.
        AreContents (H.world host.old) (run_said line.now) (record {
          elf = files.elf.items;
          input = files.input.items;
          lists = bytes_of_each files.lists.items;
        })) }
    ensures reads { IfOk result (λ _. Reads (files_named (Runs (run_said line.now)))
        (H.world host.old) (H.world host.new)) }
    ensures refused { IfErr result (λ status. WhyUnread (files_named (Runs (run_said line.now)))
        (H.world host.old) (H.world host.new) status) }
{
    let GuestFiles { elf, input } = read_guest(alloc, host, line.elf, line.input)?;
    let lists = read_lists(alloc, host, line.edits.as_slice())?;
    Ok(Files { elf, input, lists })
}

/// Reads the files of a `replay` command, in the order in which it names them.
pub fn read_replay_files<H: Host>(
    alloc: Global,
    host: &mut H,
    line: &ReplayLine<'_>,
) -> Result<ReplayFiles, Status>
    ensures contents { IfOk result (λ files.
        AreReplayContents (H.world host.old) (replay_said line.now) (record {
          elf = files.elf.items;
          input = files.input.items;
          schedule = files.schedule.items;
        })) }
    ensures reads { IfOk result (λ _. Reads (files_named (Replays (replay_said line.now)))
        (H.world host.old) (H.world host.new)) }
    ensures refused { IfErr result (λ status. WhyUnread
        (files_named (Replays (replay_said line.now)))
        (H.world host.old) (H.world host.new) status) }
{
    let GuestFiles { elf, input } = read_guest(alloc, host, line.elf, line.input)?;
    let schedule = read_file(alloc, host, line.schedule, MOST_SCHEDULE_BYTES as u64)?;
    Ok(ReplayFiles {
        elf,
        input,
        schedule,
    })
}

/// Reads a memo.
pub fn read_memo<H: Host>(alloc: Global, host: &mut H, name: &str) -> Result<Vec<u8>, Status>
    ensures content { IfOk result (λ bytes. IsMemoContent (H.world host.old) name.now bytes.items) }
    ensures reads { IfOk result (λ _. Reads (memo_named name.now ∷ []) (H.world host.old)
        (H.world host.new)) }
    ensures refused { IfErr result (λ status. WhyUnread (memo_named name.now ∷ [])
        (H.world host.old) (H.world host.new) status) }
{
    read_file(alloc, host, name, MOST_MEMO_BYTES as u64)
}

/// Reads the files of a `rerun` command, in the order in which it names them.
pub fn read_rerun_files<H: Host>(
    alloc: Global,
    host: &mut H,
    line: &RerunLine<'_>,
) -> Result<RerunFiles, Status>
    ensures memo { IfOk result (λ files. IsMemoContent (H.world host.old)
        line.now.memo.now files.memo.items) }
    ensures lists { IfOk result (λ files. AreLists (H.world host.old) (rerun_said line.now).edits
        (bytes_of_each files.lists.items)) }
    ensures reads { IfOk result (λ _. Reads (files_named (Reruns (rerun_said line.now)))
        (H.world host.old) (H.world host.new)) }
    ensures refused { IfErr result (λ status. WhyUnread (files_named (Reruns (rerun_said line.now)))
        (H.world host.old) (H.world host.new) status) }
{
    let memo = read_memo(alloc, host, line.memo)?;
    let lists = read_lists(alloc, host, line.edits.as_slice())?;
    Ok(RerunFiles { memo, lists })
}
