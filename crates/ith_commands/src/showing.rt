//! What a `show` command does.

ghost use Rattle.std.specs.Prelude.{Some};
ghost use Rattle.ith_words.specs.Words.{Shows};
ghost use Rattle.ith_words.specs.Said.{show_said};
ghost use Rattle.ith_commands.specs.Statuses.{status_in};
ghost use Rattle.ith_commands.specs.Ends.{Ends};

use super::outside::print_text;
use super::plan::remember;
use super::status::Status;
use ith_host::Host;
use ith_words::ShowLine;
use memo_reports::listing::listing;
use std::alloc::Global;

/// Does all that a `show` command requests, and returns true.
///
/// # Errors
///
/// The status of the call, which is neither `Finished` nor `Unfinished`.
pub fn show<H: Host>(alloc: Global, host: &mut H, line: &ShowLine<'_>) -> Result<bool, Status>
    ensures { Ends (Some (Shows (show_said line.now)))
        (H.world host.old) (H.world host.new) (status_in result) }
{
    let text = {
        let history = remember(alloc, host, line.memo)?;
        listing(alloc, &history)?
    };
    print_text(alloc, host, text.as_slice())?;
    Ok(true)
}
