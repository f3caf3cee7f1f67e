//! What the program does to the outside: it reads a file or prints a text, and reports why if that failed.

ghost use Rattle.std.specs.Prelude.{◌≤◌, ◌∷◌, [], length, IfOk, IfErr, OnOk};
ghost use Rattle.ith_host.specs.World.{NoneFell, AsksNothing, IsContent};
ghost use Rattle.ith_commands.specs.Files.{Reads};
ghost use Rattle.ith_commands.specs.Ends.{Prints};
ghost use Rattle.ith_commands.specs.Refusals.{WhyUnread, WhyUnprinted};

use super::complaints::name_line;
use super::status::Status;
use ith_host::{Got, Host, Printed};
use std::alloc::Global;

/// Reads a file of at most `most` bytes.
pub fn read_file<H: Host>(
    alloc: Global,
    host: &mut H,
    name: &str,
    most: u64,
) -> Result<Vec<u8>, Status>
    ensures content { IfOk result (λ bytes. IsContent (H.world host.old) name.now bytes.items) }
    ensures within { IfOk result (λ bytes. length bytes.items ≤ most) }
    ensures reads { IfOk result (λ _. Reads (record { name = name.now; most = most } ∷ [])
        (H.world host.old) (H.world host.new)) }
    ensures refused { IfErr result (λ status. WhyUnread
        (record { name = name.now; most = most } ∷ [])
        (H.world host.old) (H.world host.new) status) }
{
    let mut bytes = Vec::new(alloc);
    match host.read(name, most, &mut bytes) {
        Got::Ok => Ok(bytes),
        Got::Failed => {
            host.complain(&name_line(alloc, "read ", name));
            Err(Status::ReadFault)
        }
        Got::TooLong => {
            host.complain(&name_line(alloc, "too large ", name));
            Err(Status::TooLarge)
        }
        Got::NoMemory => Err(Status::NoMemory),
    }
}

/// Prints a whole text.
///
/// # Errors
///
/// The status of the call, which is neither `Finished` nor `Unfinished`.
#[tactic(auto, using(crate::proofs::Worlds::stays_trans, crate::proofs::Worlds::none_fell_trans, crate::proofs::Worlds::rose_then))]
pub fn print_text<H: Host>(alloc: Global, host: &mut H, text: &[u8]) -> Result<(), Status>
    ensures printed { OnOk result (Prints (H.world host.old) (H.world host.new) text.now) }
    ensures refused { IfErr result (λ status. WhyUnprinted text.now (H.world host.old)
        (H.world host.new) status) }
    ensures asked { AsksNothing (H.world host.old) (H.world host.new) }
    ensures counts { NoneFell (H.world host.old) (H.world host.new) }
{
    match host.print(text) {
        Printed::Ok => Ok(()),
        Printed::Failed => {
            host.complain(&name_line(alloc, "write ", "output"));
            Err(Status::WriteFault)
        }
        Printed::NoMemory => Err(Status::NoMemory),
    }
}
