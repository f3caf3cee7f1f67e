//! What a run starts from.

ghost use Rattle.std.specs.Prelude.{◌≡◌, ◌≤◌, length, IfOk, IfErr};
ghost use Rattle.std.specs.Arc.{arc_value};
ghost use Rattle.elf_load.specs.Load.{IsImageOf, Refuses};
ghost use Rattle.machine_spec.specs.Setup as setup;

use super::start::{memory_of, pages_of};
use elf_load::{Image, LoadError, load};
use elf_spec::MOST_ELF_BYTES;
use machine_spec::{Limits, MOST_INPUT_BYTES};
use page_store::{PageMap, PageTable};
use rv_code::Code;
use std::alloc::{AllocError, Global};
use std::marker::Model;
use std::sync::Arc;

/// An accepted executable, its image, and its pages that may be executed, decoded.
#[derive(Drop)]
struct Program {
    elf: Vec<u8>,
    image: Image,
    code: Arc<Code>,
}

/// The pages of an image that may be executed, decoded.
fn code_of(alloc: Global, image: &Image) -> Result<Arc<Code>, AllocError>
    requires { length image.now.pages ≡ length image.now.map }
{
    let code = Arc::new(alloc, Code::of(alloc, &image.map, &image.pages)?)?;
    Ok(code)
}

/// The program of an executable.
///
/// # Errors
///
/// The executable's refusal if it has one, or `NoMemory` if the host's memory ran out.
fn program_of(alloc: Global, elf: Vec<u8>) -> Result<Arc<Program>, LoadError>
    ensures elf { IfOk result (λ program. (arc_value program).elf.items ≡ elf.items) }
    ensures image { IfOk result (λ program. IsImageOf elf.items (arc_value program).image) }
    ensures refused { IfErr result (λ e. Refuses elf.items e) }
{
    let image = load(alloc, elf.as_slice())?;
    elf_spec::memory_is_of_pages(elf.as_slice());
    let code = code_of(alloc, &image)?;
    match Arc::new(alloc, Program { elf, image, code }) {
        Ok(program) => Ok(program),
        Err(_) => Err(LoadError::NoMemory),
    }
}

/// An accepted executable, an input, and the limits of a run. Setups of one executable share its bytes.
#[derive(Drop)]
pub struct Setup {
    program: Arc<Program>,
    input: Vec<u8>,
    fuel: u32,
    steps: u32,
}

impl Model for Setup {
    ghost use Rattle.std.specs.Arc.{arc_value};
    ghost use Rattle.machine_spec.specs.Setup as setup;
    ghost use Rattle.run_history.specs.Setups.{IsLoaded};

    ghost Value = { setup.Setup };

    ghost view = { λ s. record {
      elf = (arc_value s.program).elf.items;
      input = s.input.items;
      fuel = s.fuel;
      limit = s.steps;
    } };

    ghost invariant = { λ s. IsLoaded (view s) (arc_value s.program).image };
}

impl Setup {
    /// The setup of an executable and an input, with the limits of its runs.
    ///
    /// # Errors
    ///
    /// The executable's refusal if it has one (System V gABI, ch. 4 and 5), or `NoMemory` if the host's memory ran out.
    pub fn new(
        alloc: Global,
        elf: Vec<u8>,
        input: Vec<u8>,
        limits: Limits,
    ) -> Result<Setup, LoadError>
        requires elf_size { length elf.items ≤ MOST_ELF_BYTES }
        requires input_size { length input.items ≤ MOST_INPUT_BYTES }
        ensures setup { IfOk result (λ s. s
            ≡ record {
              elf = elf.items;
              input = input.items;
              fuel = limits.fuel;
              limit = limits.steps;
            }) }
        ensures sound { IfOk result (λ s. setup.IsSetup s) }
        ensures refused { IfErr result (λ e. Refuses elf.items e) }
    {
        let program = program_of(alloc, elf)?;
        Ok(Setup {
            program,
            input,
            fuel: limits.fuel(),
            steps: limits.steps(),
        })
    }

    /// The setup of the same executable with this input and these limits. The executable is shared.
    ///
    /// # Errors
    ///
    /// An error if the executable has as many holders as can be counted.
    pub fn with(&self, input: Vec<u8>, limits: Limits) -> Result<Setup, AllocError>
        requires { length input.items ≤ MOST_INPUT_BYTES }
        ensures { IfOk result (λ s. s
            ≡ record {
              elf = self.now.elf;
              input = input.items;
              fuel = limits.fuel;
              limit = limits.steps;
            }) }
    {
        let program = Arc::try_clone(&self.program)?;
        Ok(Setup {
            program,
            input,
            fuel: limits.fuel(),
            steps: limits.steps(),
        })
    }

    /// The setup of the same executable with this input and the same limits. The executable is shared.
    ///
    /// # Errors
    ///
    /// An error if the executable has as many holders as can be counted.
    pub fn with_input(&self, input: Vec<u8>) -> Result<Setup, AllocError>
        requires { length input.items ≤ MOST_INPUT_BYTES }
        ensures { IfOk result (λ s. s ≡ record self.now { input = input.items }) }
    {
        let program = Arc::try_clone(&self.program)?;
        Ok(Setup {
            program,
            input,
            fuel: self.fuel,
            steps: self.steps,
        })
    }

    /// The bytes of its executable.
    pub fn elf(&self) -> &[u8]
        ensures { result.now ≡ self.now.elf }
    {
        self.program.elf.as_slice()
    }

    /// The bytes of its input.
    pub fn input(&self) -> &[u8]
        ensures input { result.now ≡ self.now.input }
        ensures sound { setup.IsSetup self.now }
    {
        self.input.as_slice()
    }

    /// The most turns of one thunk.
    pub fn fuel(&self) -> u32
        ensures value { result ≡ self.now.fuel }
        ensures sound { setup.IsSetup self.now }
    {
        self.fuel
    }

    /// The most steps of a run.
    pub fn steps(&self) -> u32
        ensures value { result ≡ self.now.limit }
        ensures sound { setup.IsSetup self.now }
    {
        self.steps
    }

    /// The image of its executable.
    pub fn image(&self) -> &Image
        ensures { IsImageOf self.now.elf result.now }
    {
        &self.program.image
    }

    /// The pages of its executable that may be executed, decoded: each in the slot that it has in the page map too.
    pub fn code(&self) -> &Arc<Code> {
        &self.program.code
    }

    /// Its page map: the image's pages, the input's header and pages, and the stacks.
    ///
    /// # Errors
    ///
    /// An error if the host's memory ran out.
    #[tactic(auto, unfolding(machine_spec::specs::Setup::map_of))]
    pub fn page_map(&self, alloc: Global) -> Result<PageMap, AllocError>
        ensures map { IfOk result (λ slots. slots ≡ setup.map_of self.now) }
        ensures sound { setup.IsSetup self.now }
    {
        machine_spec::map_ascends();
        let pages = pages_of(alloc, &self.program.image.map)?;
        PageMap::new(alloc, pages)
    }

    /// The memory that it starts with: the image's pages, the input's header and pages, and zeros.
    ///
    /// # Errors
    ///
    /// An error if the host's memory ran out, or a shared part has as many holders as can be counted.
    #[tactic(auto, unfolding(machine_spec::specs::Setup::start_memory))]
    pub fn memory(&self, alloc: Global) -> Result<PageTable, AllocError>
        ensures { IfOk result (λ memory. memory ≡ setup.start_memory self.now) }
    {
        memory_of(alloc, &self.program.image.pages, self.input())
    }
}
