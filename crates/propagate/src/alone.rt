//! The round of one worker.

ghost use Rattle.std.specs.Prelude.{◌≡◌, ◌+◌, ◌≤◌, true, false, option_map, is_some, Some, IfOk, OnOk};
ghost use Rattle.std.specs.Arc.{arc_value};
ghost use Rattle.machine_spec.specs.Setup.{IsSetup, is_permitted, is_complete};
ghost use Rattle.history_spec.specs.History.{History as OldHistory, IsSound};
ghost use Rattle.report_spec.specs.Report.{threads_of};
ghost use Rattle.round_spec.specs.declared.events.Pick.TheVariants as pick;
ghost use Rattle.round_spec.specs.Rounds.{can_take};
ghost use Rattle.round_spec.specs.Choice.{pick_of};
ghost use Rattle.round_spec.specs.Alone.{one_worker, after_pick, after_picks, lone_round};
ghost use Rattle.round_spec.specs.Keeping.{IsFromScratch};
ghost use Rattle.round_spec.specs.Picking.{ArePicked};
ghost use Rattle.round_spec.specs.Unedited.{IsUnedited, OnlyReuses};
ghost use Rattle.round_spec.specs.Replaying.{Repeats};
ghost use Rattle.round_spec.specs.Working.{ReexecutesLeast};
ghost use Rattle.propagate.specs.Executing.{executed_by, Costs, Spares};

use super::round::Round;
use ith_host::{Gate, OpenGate};
use round_spec::Pick;
use run_history::{History, Setup};
use rv_isa::Turns;
use std::alloc::{AllocError, Global};
use std::sync::Arc;
use thunk_record::Compared;
use thunk_run::execute;

/// Takes, executes and commits the next step of thread `t`, which may be taken. The counter rises by
/// the instructions that it made.
fn run_step(alloc: Global, round: &mut Round, t: u8, turns: &mut Turns) -> Result<(), AllocError>
    requires { can_take round.old t ≡ true }
    ensures ok { OnOk result (round.new ≡ after_pick round.old (pick.Run t)) }
    ensures cost { OnOk result (Costs turns.old round.old turns.new round.new) }
    ensures never_lower { turns.old ≤ turns.new }
{
    let job = round.start(t)?;
    let run = execute(alloc, &job, turns)?;
    // It ran by the round's own job, and the round hasn't changed since: nothing is compared.
    round.commit_executed(&run)
}

/// Follows one pick: reuses the picked step, or executes and commits it, and shows it to the gate. Returns whether
/// anything was picked. The counter of turns rises by the instructions that were executed.
fn follow_pick<G: Gate>(
    alloc: Global,
    round: &mut Round,
    turns: &mut Turns,
    compared: &mut Compared,
    gate: &G,
) -> Result<bool, AllocError>
    ensures followed { OnOk result (round.new ≡ after_pick round.old (pick_of round.old)) }
    ensures over { IfOk result (λ going. going ≡ false → round.new ≡ round.old) }
    ensures cost { OnOk result (Costs turns.old round.old turns.new round.new) }
    ensures never_lower { turns.old ≤ turns.new }
    ensures spares { OnOk result (Spares compared.old round.old compared.new round.new) }
    ensures compares { compared.old ≤ compared.new }
{
    match round.pick(compared) {
        Pick::Reuse(t) => {
            round.reuse(t)?;
            gate.made(1, true);
            Ok(true)
        }
        Pick::Run(t) => {
            run_step(alloc, round, t, turns)?;
            gate.made(1, false);
            Ok(true)
        }
        Pick::Hold | Pick::Over => Ok(false),
    }
}

/// Follows `most` picks, one after the other, or fewer if nothing more is picked. The counter of turns rises by the
/// instructions that were executed.
fn follow_picks<G: Gate>(
    alloc: Global,
    round: &mut Round,
    most: u32,
    turns: &mut Turns,
    compared: &mut Compared,
    gate: &G,
) -> Result<(), AllocError>
    ensures followed { OnOk result (round.new ≡ after_picks most round.old) }
    ensures cost { OnOk result (Costs turns.old round.old turns.new round.new) }
    ensures never_lower { turns.old ≤ turns.new }
    ensures spares { OnOk result (Spares compared.old round.old compared.new round.new) }
    ensures compares { compared.old ≤ compared.new }
{
    for followed in 0..most {
        if !follow_pick(alloc, round, turns, compared, gate)? {
            return Ok(());
        }
    }
    Ok(())
}

/// The round of one worker, pick after pick until nothing is picked. The gate is shown each step, and isn't entered
/// before a thunk is executed. All that `run_alone` promises of the round follows from the clause `alone`.
///
/// # Errors
///
/// An error if the host's memory ran out, or a shared part has as many holders as can be counted; the counters may have
/// risen, and are never lower.
pub fn run_alone_shown<G: Gate>(
    alloc: Global,
    setup: Setup,
    past: Option<Arc<History>>,
    turns: &mut Turns,
    compared: &mut Compared,
    gate: &G,
) -> Result<Round, AllocError>
    ensures alone { IfOk result (λ round. round ≡ lone_round setup (option_map arc_value past)) }
    ensures sound { IfOk result (λ _. IsSetup setup) }
    ensures cost { IfOk result (λ round. turns.new ≡ turns.old + executed_by round) }
    ensures never_lower { turns.old ≤ turns.new }
    ensures spares { IfOk result (λ _.
        (h : OldHistory) → option_map arc_value past ≡ Some h → Repeats h setup
        → compared.new ≡ compared.old) }
    ensures compares { compared.old ≤ compared.new }
{
    let limit = setup.steps();
    let mut round = Round::new(alloc, setup, past)?;
    follow_picks(alloc, &mut round, limit, turns, compared, gate)?;
    Ok(round)
}

/// The round of one worker: step after step is picked, and reused, or executed and committed, until the round is
/// finished. With any history it then has an end, and nothing was discarded. The counter of turns rises by the
/// instructions of the executed steps, and the other one by the pages that are compared.
///
/// If the round is based on a sound history, its schedule is the one of one worker, which is permitted and complete,
/// its machine is the one from scratch, its marks are exact, and each entry was chosen by the rule. If the setup is
/// also the history's own, the round only reuses, and the counters stay as they are; that of compared pages does so
/// with any coherent history of the setup. If a round works as its history did, it executes no more than its setup
/// reaches.
///
/// # Errors
///
/// An error if the host's memory ran out, or a shared part has as many holders as can be counted; the counters may have
/// risen, and are never lower.
pub fn run_alone(
    alloc: Global,
    setup: Setup,
    past: Option<Arc<History>>,
    turns: &mut Turns,
    compared: &mut Compared,
) -> Result<Round, AllocError>
    ensures alone { IfOk result (λ round. round ≡ lone_round setup (option_map arc_value past)) }
    ensures cost { IfOk result (λ round. turns.new ≡ turns.old + executed_by round) }
    ensures never_lower { turns.old ≤ turns.new }
    ensures threads { IfOk result (λ round. IsSound (option_map arc_value past) setup
        → threads_of round.schedule ≡ one_worker setup (option_map arc_value past)) }
    ensures permitted { IfOk result (λ round. IsSound (option_map arc_value past) setup
        → is_permitted setup (threads_of round.schedule) ≡ true) }
    ensures complete { IfOk result (λ round. IsSound (option_map arc_value past) setup
        → is_complete setup (threads_of round.schedule) ≡ true) }
    ensures scratch { IfOk result (λ round. IsSound (option_map arc_value past) setup
        → IsFromScratch round) }
    ensures picked { IfOk result (λ round. IsSound (option_map arc_value past) setup
        → ArePicked setup (option_map arc_value past) round.schedule round.picked) }
    ensures least { IfOk result ReexecutesLeast }
    ensures ends { IfOk result (λ round. is_some round.machine.ending ≡ true) }
    ensures discarded { IfOk result (λ round. round.discarded ≡ 0) }
    ensures unedited { IfOk result (λ round.
        (h : OldHistory) → option_map arc_value past ≡ Some h → IsUnedited h setup
        → OnlyReuses h round) }
    ensures executes_nothing { IfOk result (λ _.
        (h : OldHistory) → option_map arc_value past ≡ Some h → IsUnedited h setup
        → turns.new ≡ turns.old) }
    ensures spares { IfOk result (λ _.
        (h : OldHistory) → option_map arc_value past ≡ Some h → Repeats h setup
        → compared.new ≡ compared.old) }
    ensures compares { compared.old ≤ compared.new }
{
    let round = run_alone_shown(alloc, setup, past, turns, compared, &OpenGate)?;
    Ok(round)
}
