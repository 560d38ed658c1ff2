//! Laws of the machine. A law over the definitions has an empty body, a law over calls makes those
//! calls. The contract is the law.
ghost use Rattle.std.specs.Prelude.{◌≡◌, ◌↔◌, ℕ, ◌+◌, ◌*◌, ◌%◌, ◌≤◌, length};
ghost use Rattle.rc_instr.specs.Warrior.{Fits};
ghost use Rattle.mars_core.specs.Arena.{IsBlank};
ghost use Rattle.mars_core.specs.State.{State, start_of, play_of};
ghost use Rattle.mars_core.specs.Core.{filled_in};
ghost use Rattle.mars_core.specs.Fight.{outcome_of, turns_of, IsOutcome, ComesBack};
ghost use Rattle.mars_core.specs.declared.side.Side.{Side};
ghost use Rattle.mars_core.specs.declared.arena.Outcome.{Outcome};

use crate::arena::{Arena, Outcome};
use crate::packed_cells::PackedCells;
use crate::side::Side;
use rc_instr::Warrior;

/// A fight has exactly one outcome, the computed one.
pub fn a_fight_has_one_outcome()
    ensures { (limit : ℕ) (start : State) (first : Side) (cycles : ℕ) (o : Outcome)
        → (IsOutcome limit start first cycles o) ↔ (o ≡ outcome_of limit start first cycles) }
{}

/// A state that comes back makes the fight a tie: no side ever loses its last task, and `n` cycles
/// lead to the same state as `n` modulo the period.
pub fn a_state_that_comes_back_decides()
    ensures turns { (limit : ℕ) (s : State) (first : Side) (p n : ℕ) → ComesBack limit s first p → turns_of limit s first n ≡ 2 * n }
    ensures state { (limit : ℕ) (s : State) (first : Side) (p n : ℕ) → ComesBack limit s first p
        → play_of limit s first (2 * n) ≡ play_of limit s first (2 * (n % p)) }
{}

/// Plays a fight on packed cells, then resets the arena. Returns the outcome of the fight and how
/// many cells the reset set: at most the lengths of both codes, and three for each turn, and at
/// least the cells that were not empty at the end.
///
/// The arena must be blank and without marks, as it is when new or reset, and is so again
/// afterwards. Both warriors must fit its rules, and `at` must keep the distance, both ways round
/// the core.
pub fn a_reset_sets_few_cells(
    arena: &mut Arena<PackedCells>,
    candidate: &Warrior,
    opponent: &Warrior,
    at: u32,
    first: Side,
) -> (Outcome, u32)
    requires blank { IsBlank arena.old.rules arena.old }
    requires marks { arena.old.marks ≡ 0 }
    requires candidate { Fits arena.old.rules candidate.now }
    requires opponent { Fits arena.old.rules opponent.now }
    requires at { (arena.old.rules.distance ≤ at) × (at + arena.old.rules.distance ≤ arena.old.rules.core) }
    ensures outcome { result.0 ≡ outcome_of arena.old.rules.tasks (start_of arena.old.rules.core candidate.now opponent.now at) first arena.old.rules.cycles }
    ensures count { result.1 ≤ length candidate.now.code + length opponent.now.code + 3 * result.0.turns }
    ensures least { let start = start_of arena.old.rules.core candidate.now opponent.now at in filled_in (play_of arena.old.rules.tasks start first result.0.turns).core ≤ result.1 }
    ensures blank { IsBlank arena.old.rules arena.new }
    ensures marks { arena.new.marks ≡ 0 }
{
    arena.load(candidate, opponent, at);
    let outcome = arena.run(first);
    (outcome, arena.reset())
}
