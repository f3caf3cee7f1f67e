//! What a `races` command does.

ghost use Rattle.std.specs.Prelude.{Some};
ghost use Rattle.ith_words.specs.Words.{FindsRaces};
ghost use Rattle.ith_words.specs.Said.{races_said};
ghost use Rattle.ith_commands.specs.Statuses.{status_in};
ghost use Rattle.ith_commands.specs.Ends.{Ends};

use super::outside::print_text;
use super::plan::remember;
use super::status::Status;
use ith_host::Host;
use ith_words::RacesLine;
use memo_reports::races::listing;
use std::alloc::Global;

/// The most races that are listed.
pub const MOST_RACES: usize = 10_000;

/// Does all that a `races` command requests, and returns true.
///
/// # Errors
///
/// The status of the call, which is neither `Finished` nor `Unfinished`.
pub fn find_races<H: Host>(
    alloc: Global,
    host: &mut H,
    line: &RacesLine<'_>,
) -> Result<bool, Status>
    ensures { Ends (Some (FindsRaces (races_said line.now)))
        (H.world host.old) (H.world host.new) (status_in result) }
{
    let text = {
        let history = remember(alloc, host, line.memo)?;
        listing(alloc, &history, MOST_RACES)?
    };
    print_text(alloc, host, text.as_slice())?;
    Ok(true)
}
