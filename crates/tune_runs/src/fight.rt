//! A fight: from a fight text to a result line.
ghost use Rattle.std.specs.Prelude.{◌≡◌, false, IfOk, MatchResult};
ghost use Rattle.rc_instr.specs.Results.{with_fault};
ghost use Rattle.rc_instr.specs.Warrior.{Fits};
ghost use Rattle.rc_instr.specs.LoadMeaning.{load_meaning};
ghost use Rattle.tune_runs.specs.ResultLine.{result_line};
ghost use Rattle.tune_runs.specs.Runs.{load_fault, IsOutOfMemory, Returns, IsRun};
ghost use Rattle.tune_runs.specs.FightRun.{fight_named, outcome_for, fight_output, KeepsRules};

use crate::fault::{RunFault, load_fault};
use crate::fight_text::read_fight_text;
use crate::given::rules_of;
use crate::lines::result_line;
use mars_core::{Arena, PackedCells, Side};
use mars_fight::keeps_distance;
use rc_instr::{Outlet, Rules, Warrior, read_loadfile};
use std::alloc::Global;
use std::io::Write;

// A fight whose warriors fit its rules, and whose position keeps the distance (`KeepsRules`).
#[derive(Drop)]
pub(crate) struct NamedFight {
    pub(crate) rules: Rules,
    pub(crate) candidate: Warrior,
    pub(crate) opponent: Warrior,
    pub(crate) position: u32,
    pub(crate) first: Side,
}

/// Plays the fight of a fight text, and writes its result line: `win 3 turns K`, `tie 1 turns K` or
/// `loss 0 turns K`. Points are the candidate's, and K counts the turns of both sides.
///
/// The outlet must not have failed.
///
/// # Errors
///
/// The first that applies: `FightText` with the first bad line, `Rules` if a number of the rules is
/// out of range, `Load` for the first load file, the candidate's before the opponent's, that is
/// malformed or whose warrior does not fit the rules, `Position` if the warriors are nearer than
/// the distance. Nothing is written then. `Write` if the writer failed: an unknown part of the line
/// may be out. `OutOfMemory` if an allocation failed: nothing is written.
pub fn fight_run<W: Write>(alloc: Global, text: &[u8], out: &mut Outlet<W>) -> Result<(), RunFault>
    requires { out.old.failed ≡ false }

    ensures run { IsRun (fight_output text.now) result out.old out.new }
{
    let line = fight_result_line(alloc, text)?;
    out.write_all(line.as_slice())?;
    Ok(())
}

fn fight_result_line(alloc: Global, text: &[u8]) -> Result<Vec<u8>, RunFault>
    ensures { Returns (λ line. (tt, line.items)) result (fight_output text.now) }
{
    let fight = read_fight(alloc, text)?;
    line_of(alloc, &fight)
}

// Plays a fight and makes its result line.
pub(crate) fn line_of(alloc: Global, fight: &NamedFight) -> Result<Vec<u8>, RunFault>
    requires { KeepsRules fight.now }
    ensures { MatchResult result (λ line. line.items ≡ result_line (outcome_for fight.now)) IsOutOfMemory }
{
    let mut arena = Arena::<PackedCells>::try_new(alloc, &fight.rules)?;
    arena.load(&fight.candidate, &fight.opponent, fight.position);
    Ok(result_line(alloc, arena.run(fight.first))?)
}

fn load(alloc: Global, bytes: &[u8], rules: &Rules, side: Side) -> Result<Warrior, RunFault>
    ensures warrior { Returns (λ w. w) result (with_fault (load_fault side) (load_meaning rules.now bytes.now)) }
    ensures fits { IfOk result (Fits rules.now) }
{
    match read_loadfile(alloc, bytes, rules) {
        Ok(warrior) => Ok(warrior),
        Err(fault) => Err(load_fault(side, fault)),
    }
}

// Parses a fight text and checks everything in it, in the order of the faults.
#[tactic(auto, unfolding(crate::specs::FightRun::fight_named))]
fn read_fight(alloc: Global, text: &[u8]) -> Result<NamedFight, RunFault>
    ensures fight { Returns (λ f. f) result (fight_named text.now) }
    ensures kept { IfOk result KeepsRules }
{
    let words = match read_fight_text(text) {
        Ok(words) => words,
        Err(line) => return Err(RunFault::FightText { line }),
    };
    let rules = match rules_of(words.rules) {
        Ok(rules) => rules,
        Err(error) => return Err(RunFault::Rules(error)),
    };
    let candidate = load(alloc, words.candidate, &rules, Side::Candidate)?;
    let opponent = load(alloc, words.opponent, &rules, Side::Opponent)?;
    if !keeps_distance(&rules, words.position) {
        return Err(RunFault::Position);
    }
    Ok(NamedFight {
        rules,
        candidate,
        opponent,
        position: words.position,
        first: words.first,
    })
}
