//! What is asked of the fights that a cap row lists.
ghost use Rattle.std.specs.Prelude.{◌≡◌, IsTrue, length, ◌+◌, ◌*◌, ◌<◌, ◌≤◌, ◌^◌, true};
ghost use Rattle.mars_core.specs.Arena.{IsBlank};
ghost use Rattle.mars_fight.specs.Limits.{MOST_FIGHTS, MOST_WEIGHT};
ghost use Rattle.rc_instr.specs.Warrior.{Fits};
ghost use Rattle.tune_problem.specs.Problem.{problem_of};
ghost use Rattle.tune_problem.specs.Valid.{listed_total};
ghost use Rattle.tune_problem.specs.Exact.{lists_all, listed_cap};
ghost use Rattle.tune_cert.specs.Checks.{rises, are_fights, have_points, PlaysAtMost};
ghost use Rattle.tune_cert.specs.Steps.{listed_most};

use mars_core::{Arena, PackedCells};
use mars_fight::MOST_POINTS;
use rc_instr::Warrior;
use tune_problem::{Inputs, Watcher, fight_count, fight_points, fight_weight, greatest_total};

// Returns whether a cap row lists each of the `fights` fights, in order.
pub(crate) fn lists_all(fights: u32, listed: &[(u32, u8)]) -> bool
    ensures { result ≡ lists_all fights 0 listed.now }
{
    let mut next: u64 = 0;
    for (index, _) in listed {
        if u64::from(*index) != next {
            return false;
        }
        next += 1;
    }
    next == u64::from(fights)
}

// Returns whether the fights of a cap row rise, so that none is listed twice.
pub(crate) fn is_rising(listed: &[(u32, u8)]) -> bool
    ensures { result ≡ rises 0 listed.now }
{
    let mut next: u64 = 0;
    for (index, _) in listed {
        if u64::from(*index) < next {
            return false;
        }
        next = u64::from(*index) + 1;
    }
    true
}

// Returns whether every listed fight exists.
pub(crate) fn are_fights(inputs: &Inputs, listed: &[(u32, u8)]) -> bool
    ensures { result ≡ are_fights (problem_of inputs.now) listed.now }
{
    let fights = fight_count(inputs);
    for (index, _) in listed {
        if *index >= fights {
            return false;
        }
    }
    true
}

// Returns whether every listed fight exists and gives the listed points. Plays the fights in order
// and stops at the first that does not.
pub(crate) fn have_points<T: Watcher>(
    arena: &mut Arena<PackedCells>,
    inputs: &Inputs,
    warrior: &Warrior,
    listed: &[(u32, u8)],
    watcher: &mut T,
) -> bool
    requires blank { IsBlank inputs.now.rules arena.old }
    requires fits { Fits inputs.now.rules warrior.now }
    ensures points { result ≡ have_points (problem_of inputs.now) warrior.now listed.now }
    ensures blank { IsBlank inputs.now.rules arena.new }

    // If all points are as listed, each listed fight is played once, and no other.
    ensures all { IsTrue result → arena.old.fights + length listed.now < 2 ^ 64 → arena.new.fights ≡ arena.old.fights + length listed.now }
    ensures most { PlaysAtMost arena.old arena.new (length listed.now) }
{
    let fights = fight_count(inputs);
    for (index, points) in listed {
        if *index >= fights {
            return false;
        }
        let made = fight_points(arena, inputs, warrior, *index);
        watcher.hear(arena.fights());
        if made != *points {
            return false;
        }
    }
    true
}

// Adds up the scores that a cap row lists: points times the weight of the fight.
pub(crate) fn listed_total(inputs: &Inputs, listed: &[(u32, u8)]) -> u32
    requires few { length listed.now ≤ MOST_FIGHTS }
    ensures sum { result ≡ listed_total (problem_of inputs.now) listed.now }
    ensures small { result ≤ 255 * MOST_WEIGHT * length listed.now }
{
    let mut total: u32 = 0;
    for (index, points) in listed {
        total += u32::from(*points) * fight_weight(inputs, *index);
    }
    total
}

// Returns the cap of a row: the scores that it lists, and the most that the other fights can give.
#[tactic(auto, using(crate::proofs::ListedCaps::besides_row))]
pub(crate) fn listed_cap(inputs: &Inputs, listed: &[(u32, u8)]) -> u32
    requires rising { rises 0 listed.now ≡ true }
    requires fights { are_fights (problem_of inputs.now) listed.now ≡ true }
    ensures { result ≡ listed_cap (problem_of inputs.now) listed.now }
{
    let greatest = greatest_total(inputs);
    let most = listed_most(inputs, listed);
    listed_total(inputs, listed) + (greatest - most)
}

// Adds up the most that the fights of a cap row can give.
fn listed_most(inputs: &Inputs, listed: &[(u32, u8)]) -> u32
    requires few { length listed.now ≤ MOST_FIGHTS }
    ensures sum { result ≡ listed_most (problem_of inputs.now) listed.now }
    ensures small { result ≤ 3 * MOST_WEIGHT * length listed.now }
{
    let mut most: u32 = 0;
    for (index, _) in listed {
        most += MOST_POINTS * fight_weight(inputs, *index);
    }
    most
}
