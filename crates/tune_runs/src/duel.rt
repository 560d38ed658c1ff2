//! A fight of two texts: from two Redcode texts to a result line.
ghost use Rattle.std.specs.Prelude.{◌≡◌, false, IfOk};
ghost use Rattle.tune_runs.specs.Runs.{Returns, IsRun};
ghost use Rattle.tune_runs.specs.FightRun.{KeepsRules};
ghost use Rattle.tune_runs.specs.DuelRun.{duel_named, duel_output};
ghost use Rattle.tune_runs.specs.Given.{duel_given};

use crate::asm::warrior_of;
use crate::fault::RunFault;
use crate::fight::{NamedFight, line_of};
use crate::given::DuelTexts;
use crate::inputs::opponent_of;
use mars_fight::keeps_distance;
use rc_instr::Outlet;
use std::alloc::Global;
use std::io::Write;

/// Assembles two Redcode texts, plays one fight, and writes its result line: `win 3 turns K`, `tie
/// 1 turns K` or `loss 0 turns K`. Points are the candidate's, and K counts the turns of both
/// sides.
///
/// The outlet must not have failed.
///
/// # Errors
///
/// The first that applies: `Asm` with the fault of the candidate's text, `Opponent` with index 0
/// and the fault of the opponent's text, `Position` if the warriors are nearer than the distance.
/// Nothing is written then. `Write` if the writer failed: an unknown part of the line may be out.
/// `OutOfMemory` if an allocation failed: nothing is written.
pub fn duel_run<W: Write>(
    alloc: Global,
    given: &DuelTexts<'_>,
    out: &mut Outlet<W>,
) -> Result<(), RunFault>
    requires { out.old.failed ≡ false }

    ensures run { IsRun (duel_output (duel_given given.now)) result out.old out.new }
{
    let line = duel_result_line(alloc, given)?;
    out.write_all(line.as_slice())?;
    Ok(())
}

fn duel_result_line(alloc: Global, given: &DuelTexts<'_>) -> Result<Vec<u8>, RunFault>
    ensures { Returns (λ line. (tt, line.items)) result (duel_output (duel_given given.now)) }
{
    let fight = fight_of(alloc, given)?;
    line_of(alloc, &fight)
}

// Assembles both texts and checks the position, in the order of the faults.
#[tactic(auto, unfolding(crate::specs::DuelRun::duel_named))]
fn fight_of(alloc: Global, given: &DuelTexts<'_>) -> Result<NamedFight, RunFault>
    ensures fight { Returns (λ f. f) result (duel_named (duel_given given.now)) }
    ensures kept { IfOk result KeepsRules }
{
    let rules = given.rules;
    let candidate = warrior_of(alloc, given.candidate, rules)?;
    let opponent = opponent_of(alloc, given.opponent, 0, rules)?;
    if !keeps_distance(rules, given.position) {
        return Err(RunFault::Position);
    }
    Ok(NamedFight {
        rules: *rules,
        candidate,
        opponent,
        position: given.position,
        first: given.first,
    })
}
