//! The rounds that a command line requests: its files are read, then the executable or the memo is checked, and then
//! the edit lists are.

ghost use Rattle.std.specs.Prelude.{◌≡◌, ◌<◌, ◌≤◌, [], ◌∷◌, length, IfOk, IfErr, OnErr};
ghost use Rattle.machine_spec.specs.Limits.{AreLimits};
ghost use Rattle.machine_spec.specs.Setup.{IsSetup};
ghost use Rattle.memo_spec.specs.Encoding.{AreBytes};
ghost use Rattle.rerun_spec.specs.Inputs.{AreInputs, AreRerunInputs};
ghost use Rattle.rerun_spec.specs.Rounds as begin;
ghost use Rattle.edit_list.specs.Lists.{bytes_of_each};
ghost use Rattle.ith_words.specs.Words.{Runs, Reruns, Shows};
ghost use Rattle.ith_words.specs.Said.{run_said, rerun_said};
ghost use Rattle.ith_commands.specs.Files.{memo_named, Reads, Quiet};
ghost use Rattle.ith_commands.specs.Ends.{EndsEarly};
ghost use Rattle.ith_commands.specs.Contents.{IsMemoOf, IsRemembered, limits_for, as_show};
ghost use Rattle.ith_commands.specs.Refusals.{WhyNoSetup, WhyNoHistory, WhyUnedited};
ghost use Rattle.ith_commands.specs.Playing.{beginning_said, plan_said, IsPrepared};

use super::complaints::{edits_line, image_line, memo_line};
use super::files::{Files, RerunFiles, read_files, read_memo, read_rerun_files};
use super::status::Status;
use edit_list::{Inputs, InputsError, inputs_of};
use elf_load::LoadError;
use elf_spec::MOST_ELF_BYTES;
use ith_host::Host;
use ith_words::{RerunLine, RunLine};
use machine_spec::{Limits, MOST_INPUT_BYTES};
use memo_file::{ReadError, read};
use rerun_spec::Asked;
use run_history::{History, Setup};
use std::alloc::{AllocError, Global};
use std::sync::Arc;

/// The beginning of a round: everything that it is made from, except its input.
#[derive(Drop)]
pub struct Beginning {
    /// How many rounds come before it.
    pub number: usize,
    /// The history that it is based on, if there is one.
    pub past: Option<Arc<History>>,
    /// Its program and its limits, with some input.
    pub setup: Setup,
    /// Which optional lines of its report are requested.
    pub asked: Asked,
}

/// The rounds that a command line requests.
#[derive(Drop)]
pub struct Plan {
    /// The beginning of the first one.
    pub beginning: Beginning,
    /// Their inputs, in order, each computed when the one before it is removed.
    pub inputs: Inputs,
}

/// Removes the next of some inputs and returns it. There is one.
///
/// # Errors
///
/// An error if the host's memory ran out. The inputs are then as before.
pub fn take_input(inputs: &mut Inputs) -> Result<Vec<u8>, AllocError>
    requires { 0 < length inputs.old }
    ensures taken { IfOk result (λ input. inputs.old ≡ input.items ∷ inputs.new) }
    ensures kept { OnErr result (inputs.new ≡ inputs.old) }
{
    let Some(input) = inputs.take_next()? else {
        unreachable!()
    };
    Ok(input)
}

/// Makes a setup of an executable and an input that were read, with these limits.
#[tactic(auto, using(crate::proofs::Ending::refused_image))]
pub fn set_up<H: Host>(
    alloc: Global,
    host: &mut H,
    elf: Vec<u8>,
    input: Vec<u8>,
    limits: Limits,
) -> Result<Setup, Status>
    requires elf_size { length elf.items ≤ MOST_ELF_BYTES }
    requires input_size { length input.items ≤ MOST_INPUT_BYTES }
    ensures setup { IfOk result (λ s. s ≡ record {
      elf = elf.items;
      input = input.items;
      fuel = limits.fuel;
      limit = limits.steps;
    }) }
    ensures sound { IfOk result (λ s. IsSetup s) }
    ensures bytes { IfOk result (λ s. AreBytes s.elf × AreBytes s.input) }
    ensures refused { IfErr result (λ status. WhyNoSetup elf.items status) }
    ensures quiet { Quiet (H.world host.old) (H.world host.new) }
{
    match Setup::new(alloc, elf, input, limits) {
        Ok(setup) => Ok(setup),
        Err(LoadError::Refused(refusal)) => {
            host.complain(&image_line(alloc, refusal));
            Err(Status::Image)
        }
        Err(LoadError::NoMemory) => Err(Status::NoMemory),
    }
}

/// The history that a memo encodes.
fn recall<H: Host>(alloc: Global, host: &mut H, memo: &[u8]) -> Result<History, Status>
    ensures history { IfOk result (λ h. IsMemoOf memo.now h) }
    ensures refused { IfErr result (λ status. WhyNoHistory memo.now status) }
    ensures quiet { Quiet (H.world host.old) (H.world host.new) }
{
    match read(alloc, memo) {
        Ok(history) => Ok(history),
        Err(ReadError::Refused(refusal)) => {
            host.complain(&memo_line(alloc, refusal));
            Err(Status::Memo)
        }
        Err(ReadError::NoMemory) => Err(Status::NoMemory),
    }
}

/// The history that the memo of this name encodes. The bytes of its file are freed.
pub fn remember<H: Host>(alloc: Global, host: &mut H, name: &str) -> Result<History, Status>
    ensures history { IfOk result (λ h. IsRemembered (H.world host.old) name.now h) }
    ensures reads { IfOk result (λ _. Reads (memo_named name.now ∷ []) (H.world host.old)
        (H.world host.new)) }
    ensures refused { IfErr result (λ status. EndsEarly (Shows (as_show name.now))
        (H.world host.old) (H.world host.new) status) }
{
    let memo = read_memo(alloc, host, name)?;
    let history = recall(alloc, host, memo.as_slice())?;
    Ok(history)
}

/// The first input, and what each edit list makes of the one before. The lists have these names.
fn edit<H: Host>(
    alloc: Global,
    host: &mut H,
    first: &[u8],
    lists: &[Vec<u8>],
    names: &[&str],
) -> Result<Inputs, Status>
    ensures inputs { IfOk result (λ inputs. AreInputs first.now (bytes_of_each lists.now) inputs) }
    ensures refused { IfErr result (λ status.
        WhyUnedited first.now (bytes_of_each lists.now) status) }
    ensures quiet { Quiet (H.world host.old) (H.world host.new) }
{
    let copy = Vec::from_slice(alloc, first)?;
    match inputs_of(alloc, copy, lists) {
        Ok(inputs) => Ok(inputs),
        Err(InputsError::Refused { list, line, why }) => {
            host.complain(&edits_line(alloc, names.get(list), line, why));
            Err(Status::EditList)
        }
        Err(InputsError::NoMemory) => Err(Status::NoMemory),
    }
}

/// The inputs of a rerun: what each edit list makes of the input before it, or the first input if there is no list.
fn edit_again<H: Host>(
    alloc: Global,
    host: &mut H,
    first: &[u8],
    lists: &[Vec<u8>],
    names: &[&str],
) -> Result<Inputs, Status>
    ensures inputs { IfOk result (λ inputs.
        AreRerunInputs first.now (bytes_of_each lists.now) inputs) }
    ensures refused { IfErr result (λ status.
        WhyUnedited first.now (bytes_of_each lists.now) status) }
    ensures quiet { Quiet (H.world host.old) (H.world host.new) }
{
    let mut inputs = edit(alloc, host, first, lists, names)?;
    if !lists.is_empty() {
        take_input(&mut inputs)?;
    }
    Ok(inputs)
}

/// The limits of the rounds of a `rerun` command: each is that of its option, or the memo's if it has no such option.
fn limits_for(line: &RerunLine<'_>, history: &History) -> Limits
    ensures value { result ≡ limits_for (rerun_said line.now) history.now }
    ensures within { AreLimits result.fuel result.steps }
{
    let setup = history.setup();
    let fuel = line.fuel.unwrap_or(setup.fuel());
    let steps = line.steps.unwrap_or(setup.steps());
    match Limits::new(fuel, steps) {
        Some(limits) => limits,
        None => unreachable!(),
    }
}

/// The setup of a history with these limits.
fn with_limits(alloc: Global, history: &History, limits: Limits) -> Result<Setup, AllocError>
    ensures { IfOk result (λ setup. setup ≡ begin.with_limits history.now.setup limits) }
{
    let setup = history.setup();
    let input = Vec::from_slice(alloc, setup.input())?;
    setup.with(input, limits)
}

/// The beginning of a round with these limits that is based on a memo.
fn after_memo(
    alloc: Global,
    history: History,
    limits: Limits,
    asked: Asked,
) -> Result<Beginning, AllocError>
    ensures { IfOk result (λ beginning. beginning_said beginning
        ≡ begin.after_memo history limits asked) }
{
    let setup = with_limits(alloc, &history, limits);
    let past = Arc::new(alloc, history)?;
    Ok(Beginning {
        number: 1,
        past: Some(past),
        setup: setup?,
        asked,
    })
}

/// The plan of rounds from scratch on these inputs.
pub fn from_scratch(setup: Setup, inputs: Inputs, asked: Asked) -> Plan
    ensures beginning { beginning_said result.beginning ≡ begin.from_scratch setup asked }
    ensures inputs { result.inputs ≡ inputs }
{
    let beginning = Beginning {
        number: 0,
        past: None,
        setup,
        asked,
    };
    Plan { beginning, inputs }
}

/// The rounds that a `run` command requests. Its files are read, then the executable and then the edit lists are
/// checked, all of them in order.
///
/// # Errors
///
/// The status of the call, which is neither `Finished` nor `Unfinished`.
pub fn prepare<H: Host>(alloc: Global, host: &mut H, line: &RunLine<'_>) -> Result<Plan, Status>
    ensures plan { IfOk result (λ plan. IsPrepared (Runs (run_said line.now))
        (H.world host.old) (H.world host.new) (plan_said plan)) }
    ensures refused { IfErr result (λ status. EndsEarly (Runs (run_said line.now))
        (H.world host.old) (H.world host.new) status) }
{
    let Files { elf, input, lists } = read_files(alloc, host, line)?;
    let setup = set_up(alloc, host, elf, input, line.limits)?;
    let inputs = edit(
        alloc,
        host,
        setup.input(),
        lists.as_slice(),
        line.edits.as_slice(),
    )?;
    let asked = Asked {
        reach: line.reach,
        progress: line.progress,
    };
    Ok(from_scratch(setup, inputs, asked))
}

/// The rounds that a `rerun` command requests. Its files are read, then the memo and then the edit lists are checked,
/// all of them in order.
///
/// # Errors
///
/// The status of the call, which is neither `Finished` nor `Unfinished`.
pub fn prepare_rerun<H: Host>(
    alloc: Global,
    host: &mut H,
    line: &RerunLine<'_>,
) -> Result<Plan, Status>
    ensures plan { IfOk result (λ plan. IsPrepared (Reruns (rerun_said line.now))
        (H.world host.old) (H.world host.new) (plan_said plan)) }
    ensures refused { IfErr result (λ status. EndsEarly (Reruns (rerun_said line.now))
        (H.world host.old) (H.world host.new) status) }
{
    let RerunFiles { memo, lists } = read_rerun_files(alloc, host, line)?;
    let history = recall(alloc, host, memo.as_slice())?;
    let inputs = edit_again(
        alloc,
        host,
        history.setup().input(),
        lists.as_slice(),
        line.edits.as_slice(),
    )?;
    let limits = limits_for(line, &history);
    let asked = Asked {
        reach: line.reach,
        progress: line.progress,
    };
    let beginning = after_memo(alloc, history, limits, asked)?;
    Ok(Plan { beginning, inputs })
}
