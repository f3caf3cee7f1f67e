//! What a `gen` command does.

ghost use Rattle.std.specs.Prelude.{◌≡◌, ◌+◌, ◌≤◌, ◌++◌, codes, decimal, length, IfOk, IfErr, Some};
ghost use Rattle.elf_load.specs.Load.{Refuses};
ghost use Rattle.elf_spec.specs.declared.TheConstants.{MOST_ELF_BYTES};
ghost use Rattle.machine_spec.specs.declared.TheConstants.{MOST_INPUT_BYTES};
ghost use Rattle.machine_spec.specs.Setup.{IsSetup};
ghost use Rattle.memo_spec.specs.Encoding.{AreBytes};
ghost use Rattle.report_spec.specs.Text.{line as text_line};
ghost use Rattle.ith_words.specs.Words.{Generates, default_fuel, default_limit};
ghost use Rattle.ith_words.specs.Said.{generate_said};
ghost use Rattle.ith_commands.specs.Statuses.{status_in};
ghost use Rattle.ith_commands.specs.Contents.{IsGeneratedPlan};
ghost use Rattle.ith_commands.specs.Ends.{Ends};
ghost use Rattle.ith_commands.specs.Counting.{MakesRounds, GenerateSpends};
ghost use Rattle.ith_commands.specs.Playing.{plan_said, CanBePlayed, CanBeEncoded, AreTheGenerated};

use super::crew::Crew;
use super::report::Form;
use super::rounds::make_next;
use edit_list::{InputsError, inputs_of};
use elf_load::LoadError;
use guest_gen::{Generated, make};
use ith_commands::{Plan, Status, from_scratch, print_text};
use ith_host::{Gate, Host};
use ith_text::decimal;
use ith_words::{GenerateLine, default_limits};
use rerun_spec::Asked;
use run_history::Setup;
use std::alloc::{AllocError, Global};
use std::sync::Wait;
use std::thread::Threads;

/// The setup of an executable and an input, with the default limits.
fn default_setup(alloc: Global, elf: Vec<u8>, input: Vec<u8>) -> Result<Setup, LoadError>
    requires elf_size { length elf.items ≤ MOST_ELF_BYTES }
    requires input_size { length input.items ≤ MOST_INPUT_BYTES }
    ensures setup { IfOk result (λ s. s ≡ record {
      elf = elf.items;
      input = input.items;
      fuel = default_fuel;
      limit = default_limit;
    }) }
    ensures sound { IfOk result (λ s. IsSetup s) }
    ensures bytes { IfOk result (λ s. AreBytes s.elf × AreBytes s.input) }
    ensures refused { IfErr result (λ error. Refuses elf.items error) }
{
    Setup::new(alloc, elf, input, default_limits())
}

/// The plan of `gen` for a number: round 0 of the generated guest on the input that is generated from the number, and
/// round 1 on that input after the generated edit.
fn prepare(alloc: Global, number: u32) -> Result<Plan, AllocError>
    ensures plan { IfOk result (λ plan. IsGeneratedPlan number (plan_said plan)) }
    ensures playable { IfOk result (λ plan. CanBePlayed (plan_said plan)) }
    ensures encoded { IfOk result (λ plan. CanBeEncoded (plan_said plan)) }
{
    let Generated { elf, input, edits } = make(alloc, number)?;
    let copy = Vec::from_slice(alloc, &input)?;
    let setup = match default_setup(alloc, elf, input) {
        Ok(setup) => setup,
        Err(LoadError::Refused(_)) => unreachable!(),
        Err(LoadError::NoMemory) => return Err(AllocError),
    };
    match inputs_of(alloc, copy, &[edits]) {
        Ok(inputs) => {
            let asked = Asked {
                reach: false,
                progress: false,
            };
            Ok(from_scratch(setup, inputs, asked))
        }
        Err(InputsError::Refused { .. }) => unreachable!(),
        Err(InputsError::NoMemory) => Err(AllocError),
    }
}

/// A line with the number that the input and its edit are generated from, and the lines of the rounds.
fn text_of(alloc: Global, number: u32, first: &[u8], second: &[u8]) -> Result<Vec<u8>, AllocError>
    ensures { IfOk result (λ text. text.items ≡ text_line (codes "gen") (decimal number)
        ++ first.now ++ second.now) }
{
    let mut text = Vec::new(alloc);
    text.extend_from_slice(b"gen ")?;
    decimal(alloc, u64::from(number), &mut text)?;
    text.push(b'\n')?;
    text.extend_from_slice(first)?;
    text.extend_from_slice(second)?;
    Ok(text)
}

/// What is printed of the generated guest.
#[derive(Drop)]
struct Lines {
    /// The text that reports both rounds.
    text: Vec<u8>,
    /// Whether each ended by exit.
    exits: bool,
}

/// Makes both rounds of the plan of `gen` for a number, by the workers of the crew.
fn make_both<R: Threads + Wait + Sync, G: Gate + Sync>(
    alloc: Global,
    number: u32,
    crew: &mut Crew<'_, R, G>,
) -> Result<Lines, AllocError>
    ensures lines { IfOk result (λ lines. AreTheGenerated crew.old.workers number
        crew.old.work crew.new.work lines.text.items lines.exits) }
    ensures both { crew.new.work.rounds ≤ crew.old.work.rounds + 2 }
{
    let Plan {
        beginning,
        mut inputs,
    } = prepare(alloc, number)?;
    let mut last = None;
    let first = make_next(alloc, beginning, &mut inputs, crew, Form::Line, &mut last)?;
    let second = make_next(alloc, first.next, &mut inputs, crew, Form::Line, &mut last)?;
    let text = text_of(alloc, number, first.text.as_slice(), second.text.as_slice())?;
    Ok(Lines {
        text,
        exits: first.exited && second.exited,
    })
}

/// Does all that a `gen` command requests.
pub fn generate<R: Threads + Wait + Sync, H: Host, G: Gate + Sync>(
    alloc: Global,
    host: &mut H,
    line: &GenerateLine,
    crew: &mut Crew<'_, R, G>,
) -> Result<bool, Status>
    requires { crew.old.workers ≡ line.now.workers }
    ensures ends { Ends (Some (Generates (generate_said line.now)))
        (H.world host.old) (H.world host.new) (status_in result) }
    ensures made { MakesRounds (Generates (generate_said line.now))
        crew.old.work.rounds crew.new.work.rounds (status_in result) }
    ensures turns { GenerateSpends (generate_said line.now) (H.world host.old) (H.world host.new)
        crew.old.work crew.new.work (status_in result) }
{
    let Lines { text, exits } = make_both(alloc, line.number, crew)?;
    print_text(alloc, host, text.as_slice())?;
    Ok(exits)
}
