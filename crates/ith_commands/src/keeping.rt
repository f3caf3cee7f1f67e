//! Writing the memo of the last round.

ghost use Rattle.std.specs.Prelude.{◌≤◌, length, IfErr, OnOk};
ghost use Rattle.ith_host.specs.World.{AsksNothing};
ghost use Rattle.memo_spec.specs.declared.TheConstants.{MOST_MEMO_BYTES};
ghost use Rattle.memo_spec.specs.Encoding.{memo, IsEncodable};
ghost use Rattle.ith_commands.specs.Refusals.{Keeps, WhyUnkept};

use super::complaints::{long_memo_line, name_line};
use super::status::Status;
use ith_host::{Host, Put};
use memo_file::{WriteError, write};
use run_history::History;
use std::alloc::Global;

/// Writes the bytes of a memo, which isn't too long, to the file of this name.
fn put_memo<H: Host>(alloc: Global, host: &mut H, name: &str, bytes: &[u8]) -> Result<(), Status>
    requires { length bytes.now ≤ MOST_MEMO_BYTES }
    ensures kept { OnOk result (Keeps name.now bytes.now (H.world host.old) (H.world host.new)) }
    ensures refused { IfErr result (λ status. WhyUnkept name.now bytes.now
        (H.world host.old) (H.world host.new) status) }
    ensures asked { AsksNothing (H.world host.old) (H.world host.new) }
{
    match host.write(name, bytes) {
        Put::Ok => Ok(()),
        Put::Failed => {
            host.complain(&name_line(alloc, "write ", name));
            Err(Status::WriteFault)
        }
        Put::NoMemory => Err(Status::NoMemory),
    }
}

/// Writes the memo of a history to the file of this name.
///
/// # Errors
///
/// The status of the call, which is neither `Finished` nor `Unfinished`.
pub fn write_memo<H: Host>(
    alloc: Global,
    host: &mut H,
    name: &str,
    history: &History,
) -> Result<(), Status>
    requires { IsEncodable history.now }
    ensures kept { OnOk result (Keeps name.now (memo history.now) (H.world host.old)
        (H.world host.new)) }
    ensures within { OnOk result (length (memo history.now) ≤ MOST_MEMO_BYTES) }
    ensures refused { IfErr result (λ status. WhyUnkept name.now (memo history.now)
        (H.world host.old) (H.world host.new) status) }
    ensures asked { AsksNothing (H.world host.old) (H.world host.new) }
{
    match write(alloc, history) {
        Ok(bytes) => put_memo(alloc, host, name, bytes.as_slice()),
        Err(WriteError::TooLong(length)) => {
            host.complain(&long_memo_line(alloc, length));
            Err(Status::TooLarge)
        }
        Err(WriteError::NoMemory) => Err(Status::NoMemory),
    }
}
