//! What an `audit` command does.

ghost use Rattle.std.specs.Prelude.{◌≡◌, true, IfOk, Some};
ghost use Rattle.history_spec.specs.History.{is_coherent};
ghost use Rattle.history_spec.specs.Audit.{IsVerdict};
ghost use Rattle.ith_words.specs.Words.{Audits};
ghost use Rattle.ith_words.specs.Said.{audit_said};
ghost use Rattle.ith_commands.specs.Statuses.{status_in};
ghost use Rattle.ith_commands.specs.Ends.{Ends, audit_of};

use super::complaints::false_line;
use super::outside::print_text;
use super::plan::remember;
use super::status::Status;
use ith_host::Host;
use ith_words::AuditLine;
use memo_reports::audit::{self, Verdict};
use run_history::History;
use std::alloc::{AllocError, Global};
use std::thread::Threads;

/// The verdict of a coherent history, which this many workers execute, and the lines that report it.
fn verdict_of<R: Threads + Sync>(
    rt: &R,
    alloc: Global,
    history: &History,
    workers: u32,
) -> Result<(Verdict, Vec<u8>), AllocError>
    requires { is_coherent history.now ≡ true }
    ensures verdict { IfOk result (λ r. IsVerdict history.now r.0.first) }
    ensures text { IfOk result (λ r. r.1.items ≡ audit_of history.now r.0.first) }
{
    history_spec::first_false_record_is_the_verdict();
    let verdict = audit::audit(rt, alloc, history, workers)?;
    let text = audit::text(alloc, history.records().len() as u64, verdict)?;
    Ok((verdict, text))
}

/// Does all that an `audit` command requests. Returns true if the memo is honest.
///
/// # Errors
///
/// The status of the call, which is neither `Finished` nor `Unfinished`: `Untrue` if it isn't honest.
pub fn audit<R: Threads + Sync, H: Host>(
    rt: &R,
    alloc: Global,
    host: &mut H,
    line: &AuditLine<'_>,
) -> Result<bool, Status>
    ensures { Ends (Some (Audits (audit_said line.now)))
        (H.world host.old) (H.world host.new) (status_in result) }
{
    let (verdict, text) = {
        let history = remember(alloc, host, line.memo)?;
        verdict_of(rt, alloc, &history, line.workers)?
    };
    print_text(alloc, host, text.as_slice())?;
    match verdict.first {
        None => Ok(true),
        Some(place) => {
            host.complain(&false_line(alloc, place));
            Err(Status::Untrue)
        }
    }
}
