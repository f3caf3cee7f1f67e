//! What the program does for a command line, from the first read to the last write.

ghost use Rattle.std.specs.Prelude.{◌≡◌, option_map, map, string_bytes, IfOk, IfErr, Some};
ghost use Rattle.ith_host.specs.World.{AsksNothing};
ghost use Rattle.ith_words.specs.Words as said;
ghost use Rattle.ith_words.specs.Words.{Runs, Reruns};
ghost use Rattle.ith_words.specs.Said.{run_said, rerun_said};
ghost use Rattle.ith_commands.specs.Statuses.{status_in};
ghost use Rattle.ith_commands.specs.Ends.{Ends};
ghost use Rattle.ith_commands.specs.Counting.{MakesRounds, RoundsSpend};
ghost use Rattle.ith_commands.specs.Refusals.{WhyUndone};
ghost use Rattle.ith_commands.specs.Playing.{plan_said, CanBePlayed, CanBeEncoded, IsCarriedOut};

use super::crew::Crew;
use super::generating::generate;
use super::rounds::{Outcome, make_rounds};
use ith_commands::{
    NO_MEMORY, Plan, Status, audit, explain, find_races, prepare, prepare_rerun, replay, show,
    write_memo,
};
use ith_host::{Gate, Host};
use ith_words::{Line, LineFault, RerunLine, RunLine, line_of};
use rv_isa::Turns;
use std::alloc::Global;
use std::sync::Wait;
use std::thread::Threads;
use thunk_record::Compared;

/// Makes the rounds of a plan, prints their texts, and writes the memo of the last one, if it has a name. Returns
/// whether each round ended by exit.
fn carry_out<R: Threads + Wait + Sync, H: Host, G: Gate + Sync>(
    alloc: Global,
    host: &mut H,
    plan: Plan,
    crew: &mut Crew<'_, R, G>,
    new_memo: Option<&str>,
) -> Result<bool, Status>
    requires playable { CanBePlayed (plan_said plan) }
    requires encoded { CanBeEncoded (plan_said plan) }
    ensures done { IfOk result (λ exits.
        IsCarriedOut (option_map (λ name. name.now) new_memo.entry) crew.old.workers
        (plan_said plan)
        (H.world host.old) (H.world host.new) crew.old.work crew.new.work exits) }
    ensures refused { IfErr result (λ status.
        WhyUndone (option_map (λ name. name.now) new_memo.entry) crew.old.workers (plan_said plan)
        (H.world host.old) (H.world host.new) crew.old.work crew.new.work status) }
    ensures asked { AsksNothing (H.world host.old) (H.world host.new) }
{
    let Outcome { exits, history } = make_rounds(alloc, host, plan, crew)?;
    if let Some(name) = new_memo {
        write_memo(alloc, host, name, &history)?;
    }
    Ok(exits)
}

/// Does all that a `run` command requests.
fn run<R: Threads + Wait + Sync, H: Host, G: Gate + Sync>(
    alloc: Global,
    host: &mut H,
    line: &RunLine<'_>,
    crew: &mut Crew<'_, R, G>,
) -> Result<bool, Status>
    requires { crew.old.workers ≡ line.now.workers }
    ensures ends { Ends (Some (Runs (run_said line.now)))
        (H.world host.old) (H.world host.new) (status_in result) }
    ensures made { MakesRounds (Runs (run_said line.now))
        crew.old.work.rounds crew.new.work.rounds (status_in result) }
    ensures turns { RoundsSpend (Runs (run_said line.now)) (H.world host.old) (H.world host.new)
        crew.old.work crew.new.work (status_in result) }
{
    let plan = prepare(alloc, host, line)?;
    carry_out(alloc, host, plan, crew, line.new_memo)
}

/// Does all that a `rerun` command requests.
fn rerun<R: Threads + Wait + Sync, H: Host, G: Gate + Sync>(
    alloc: Global,
    host: &mut H,
    line: &RerunLine<'_>,
    crew: &mut Crew<'_, R, G>,
) -> Result<bool, Status>
    requires { crew.old.workers ≡ line.now.workers }
    ensures ends { Ends (Some (Reruns (rerun_said line.now)))
        (H.world host.old) (H.world host.new) (status_in result) }
    ensures made { MakesRounds (Reruns (rerun_said line.now))
        crew.old.work.rounds crew.new.work.rounds (status_in result) }
    ensures turns { RoundsSpend (Reruns (rerun_said line.now)) (H.world host.old) (H.world host.new)
        crew.old.work crew.new.work (status_in result) }
{
    let plan = prepare_rerun(alloc, host, line)?;
    carry_out(alloc, host, plan, crew, line.new_memo)
}

/// Does all that the arguments request.
fn do_line<R: Threads + Wait + Sync, H: Host, G: Gate + Sync>(
    rt: &R,
    alloc: Global,
    words: &[String],
    host: &mut H,
    gate: &G,
) -> Result<bool, Status>
    ensures { Ends (said.line_of (map string_bytes words.now))
        (H.world host.old) (H.world host.new) (status_in result) }
{
    match line_of(alloc, words) {
        Ok(Line::Run(line)) => run(alloc, host, &line, &mut Crew::new(rt, line.workers, gate)),
        Ok(Line::Rerun(line)) => rerun(alloc, host, &line, &mut Crew::new(rt, line.workers, gate)),
        Ok(Line::Replay(line)) => replay(alloc, host, &line, &mut Turns::new(rt)),
        Ok(Line::Show(line)) => show(alloc, host, &line),
        Ok(Line::Explain(line)) => explain(
            alloc,
            host,
            &line,
            &mut Turns::new(rt),
            &mut Compared::new(rt),
        ),
        Ok(Line::FindRaces(line)) => find_races(alloc, host, &line),
        Ok(Line::Audit(line)) => audit(rt, alloc, host, &line),
        Ok(Line::Generate(line)) => generate(
            alloc,
            host,
            &line,
            &mut Crew::new(rt, line.workers, gate),
        ),
        Err(LineFault::Refused(text)) => {
            host.complain(text.as_slice());
            Err(Status::Words)
        }
        Err(LineFault::NoMemory) => Err(Status::NoMemory),
    }
}

/// Does what the arguments request. If the host's memory ran out, that is reported here, and nowhere else.
#[tactic(auto, using(ith_commands::proofs::Ending::short_of_memory))]
pub fn status_of<R: Threads + Wait + Sync, H: Host, G: Gate + Sync>(
    rt: &R,
    alloc: Global,
    words: &[String],
    host: &mut H,
    gate: &G,
) -> Status
    ensures { Ends (said.line_of (map string_bytes words.now))
        (H.world host.old) (H.world host.new) result }
{
    match do_line(rt, alloc, words, host, gate) {
        Ok(true) => Status::Finished,
        Ok(false) => Status::Unfinished,
        Err(Status::NoMemory) => {
            host.complain(NO_MEMORY);
            Status::NoMemory
        }
        Err(status) => status,
    }
}
