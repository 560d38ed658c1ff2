//! One fight of a schedule.
ghost use Rattle.std.specs.Prelude.{◌≡◌, ◌↔◌, IsTrue};
ghost use Rattle.rc_instr.specs.Warrior.{Fits};
ghost use Rattle.mars_core.specs.Arena.{IsBlank, fights_after};
ghost use Rattle.mars_fight.specs.Listed.{IsPosition, IsWeight, IsFight};
ghost use Rattle.mars_fight.specs.Play.{points_of, ArePoints};

use crate::limits;
use mars_core::{Arena, Cells, Side};
use rc_instr::{Rules, Warrior};

/// The points of a win, the most that a fight gives.
pub const MOST_POINTS: u32 = 3;

/// One fight: the opponent, where it is loaded, who moves first, and how much it counts.
#[derive(Clone, Copy, Debug, PartialEq, Eq)]
pub struct Fight {
    /// The opponent's index.
    pub opponent: u32,
    /// The address at which the opponent is loaded. The candidate is loaded at 0.
    pub position: u32,
    /// The side that makes the first turn.
    pub first: Side,
    /// How many times the points count in a total, 1 to 1000.
    pub weight: u32,
}

impl Fight {
    // Returns whether the opponent exists, the position keeps the distance, and the weight is from
    // 1 to `MOST_WEIGHT`.
    pub(crate) fn is_fight(&self, rules: &Rules, opponents: u32) -> bool
        ensures { IsTrue result ↔ IsFight rules.now opponents self.now }
    {
        self.opponent < opponents && keeps_distance(rules, self.position) && is_weight(self.weight)
    }
}

/// Plays `fight` and returns the candidate's points: 3 for a win, 1 for a tie, 0 for a loss
/// (pMARS). The weight does not change them.
///
/// The arena must be blank, and is blank again afterwards. Both warriors must fit its rules, and
/// the position must keep the distance, both ways round the core. Nothing is allocated. The arena
/// counts the fight.
#[tactic(auto, unfolding(crate::specs::Play::points_of))]
pub fn play<C: Cells>(
    arena: &mut Arena<C>,
    candidate: &Warrior,
    opponent: &Warrior,
    fight: &Fight,
) -> u8
    requires blank { IsBlank arena.old.rules arena.old }
    requires candidate { Fits arena.old.rules candidate.now }
    requires opponent { Fits arena.old.rules opponent.now }
    requires position { IsPosition arena.old.rules fight.now.position }
    ensures result { result ≡ points_of arena.old.rules candidate.now opponent.now fight.now }
    ensures points { ArePoints result }
    ensures blank { IsBlank arena.old.rules arena.new }
    ensures fights { arena.new.fights ≡ fights_after arena.old.fights 1 }
    ensures marks { arena.new.marks ≡ C.new_marks arena.old.rules.core }
{
    arena.load(candidate, opponent, fight.position);
    let outcome = arena.run(fight.first);
    arena.reset();
    outcome.points
}

/// Returns whether `position` is far enough from the candidate at 0, both ways round the core.
pub fn keeps_distance(rules: &Rules, position: u32) -> bool
    ensures { IsTrue result ↔ IsPosition rules.now position }
{
    rules.distance() <= position && position <= rules.core() - rules.distance()
}

// Returns whether `weight` is from 1 to `MOST_WEIGHT`.
pub(crate) fn is_weight(weight: u32) -> bool
    ensures { IsTrue result ↔ IsWeight weight }
{
    1 <= weight && weight <= limits::MOST_WEIGHT
}
