//! What is searched: the warrior of a setting, and its points in a fight.
ghost use Rattle.std.specs.Prelude.{◌≡◌, ◌<◌, ◌≤◌, IfOk, IfSome, length};
ghost use Rattle.rc_instr.specs.Warrior.{IsWarrior, Fits};
ghost use Rattle.tune_problem.specs.Problem.{problem_of};
ghost use Rattle.tune_problem.specs.Optimum.{beats, greatest_of};
ghost use Rattle.tune_problem.specs.Valid.{IsOwnVersion};
ghost use Rattle.mars_core.specs.Arena.{IsBlank, fights_after};
ghost use Rattle.mars_fight.specs.Limits.{MOST_FIGHTS, MOST_TOTAL, MOST_WEIGHT};
ghost use Rattle.mars_fight.specs.Play.{ArePoints};

use crate::inputs::Inputs;
use crate::watcher::Best;
use mars_core::{Arena, Cells};
use mars_fight::play;
use rc_asm::AsmKind;
use rc_instr::{OutOfMemory, Warrior};
use std::alloc::Global;

/// Assembles the template with the values of setting `vector`, which must be below `Inputs::count`.
///
/// Returns `None` if the text does not assemble with these values, or not to a warrior that fits
/// the rules, and `OutOfMemory` if memory runs out: that says nothing about the setting.
#[tactic(auto, using(crate::proofs::PartSteps::warrior_is))]
pub fn setting_warrior(
    alloc: Global,
    inputs: &Inputs,
    vector: u32,
) -> Result<Option<Warrior>, OutOfMemory>
    requires inside { vector < (problem_of inputs.now).count }
    ensures warrior { IfOk result (λ w. w ≡ (problem_of inputs.now).warrior vector) }
    ensures is_warrior { IfOk result (λ w. IfSome w IsWarrior) }
    ensures fits { IfOk result (λ w. IfSome w (Fits inputs.now.rules)) }
{
    let index = inputs.index_in_template(vector);
    match inputs.template().instance(alloc, index, inputs.rules()) {
        Ok(warrior) => {
            prove!(0 < warrior.code().len());
            Ok(Some(warrior))
        }
        Err(fault) => {
            if fault.kind == AsmKind::OutOfMemory {
                return Err(OutOfMemory);
            }
            Ok(None)
        }
    }
}

/// Plays fight `index` of the schedule and returns the warrior's points: 3 for a win, 1 for a tie,
/// 0 for a loss (pMARS).
///
/// The warrior must fit the rules of the inputs, and the arena must be blank under them. It is
/// blank afterwards, and has counted the fight.
#[tactic(auto, unfolding(crate::specs::Problem::fight_points))]
pub fn fight_points<C: Cells>(
    arena: &mut Arena<C>,
    inputs: &Inputs,
    warrior: &Warrior,
    index: u32,
) -> u8
    requires blank { IsBlank inputs.now.rules arena.old }
    requires fits { Fits inputs.now.rules warrior.now }
    requires inside { index < length inputs.now.schedule }
    ensures points { result ≡ (problem_of inputs.now).points warrior.now index }
    ensures scores { ArePoints result }
    ensures blank { IsBlank inputs.now.rules arena.new }
    ensures fights { arena.new.fights ≡ fights_after arena.old.fights 1 }
    ensures marks { arena.new.marks ≡ C.new_marks inputs.now.rules.core }
{
    let fight = &inputs.schedule().fights()[index as usize];
    let opponent = &inputs.opponents()[fight.opponent as usize];
    play(arena, warrior, opponent, fight)
}

/// Returns the greatest total that a setting can have: 3 points in each fight of the schedule,
/// times the weight of the fight. At most 30000000.
#[tactic(auto, using(crate::proofs::Weights::greatest_is))]
pub fn greatest_total(inputs: &Inputs) -> u32
    ensures greatest { result ≡ greatest_of (problem_of inputs.now) }
    ensures few { (problem_of inputs.now).fights ≤ MOST_FIGHTS }
    ensures small { result ≤ MOST_TOTAL }
{
    prove!(0 < inputs.schedule().fights().len());
    inputs.schedule().greatest()
}

/// Returns the weight of fight `index` of the schedule, 1 to 1000, or 0 if there is no such fight.
#[tactic(auto, unfolding(crate::specs::Problem::fight_weight))]
pub fn fight_weight(inputs: &Inputs, index: u32) -> u32
    ensures weight { result ≡ (problem_of inputs.now).weight index }
    ensures small { result ≤ MOST_WEIGHT }
{
    match inputs.schedule().fights().get(index as usize) {
        Some(fight) => fight.weight,
        None => 0,
    }
}

/// Returns the version of a certificate for these inputs: 1 if every fight has the weight 1, and
/// otherwise 2.
#[tactic(auto, using(crate::proofs::Weights::plain))]
pub fn cert_version(inputs: &Inputs) -> u32
    ensures { IsOwnVersion (problem_of inputs.now) result }
{
    if inputs.schedule().plain() { 1 } else { 2 }
}

/// Returns the number of fights in the schedule, 1 to 10000.
pub fn fight_count(inputs: &Inputs) -> u32
    ensures count { result ≡ (problem_of inputs.now).fights }
    ensures few { result ≤ MOST_FIGHTS }
{
    inputs.schedule().fights().len() as u32
}

/// Returns whether cap `cap` of setting `vector` beats `best`: it is greater than the total of
/// `best`, or equal and `vector` is the smaller index.
pub fn beats(cap: u32, vector: u32, best: Best) -> bool
    ensures { result ≡ beats cap vector best.total best.vector }
{
    cap > best.total || (cap == best.total && vector < best.vector)
}
