//! Tests of `mars_core`: arenas that are reset, on plain and on packed cells; and what other tests
//! play fights with.
ghost use Rattle.std.specs.Prelude.{◌≡◌, ◌≤◌, ◌<◌, ◌+◌, IfOk};
ghost use Rattle.rc_instr.specs.Rules.{rules_view};
ghost use Rattle.rc_instr.specs.Warrior.{Fits};
ghost use Rattle.mars_core.specs.Arena.{IsBlank};

use crate::warriors::{COPIER, IMP, WAIT};
use mars_core::laws::a_reset_sets_few_cells;
use mars_core::{Arena, Cells, Outcome, PackedCells, PlainCells, Side};
use rc_instr::{Rules, RulesError, Warrior, read_loadfile};
use std::test::Fail;

// Makes rules of length 4 and distance 4.
#[tactic(auto, using(crate::proofs::RulesMade::are_given))]
pub(crate) fn rules_of(core: u32, cycles: u32, tasks: u32) -> Result<Rules, RulesError>
    ensures { IfOk result (λ r. r ≡ rules_view core cycles tasks 4 4) }
{
    Rules::try_new(core, cycles, tasks, 4, 4)
}

// The points and turns of a fight, and how many cells a reset sets after it.
#[derive(Clone, Copy, Debug, PartialEq, Eq)]
pub(crate) struct Played {
    pub(crate) points: u8,
    pub(crate) turns: u32,
    pub(crate) reset: u32,
}

// Loads two warriors, the opponent at address 8, runs a fight, and resets the arena.
pub(crate) fn play_and_reset<C: Cells>(
    arena: &mut Arena<C>,
    candidate: &Warrior,
    opponent: &Warrior,
    first: Side,
) -> Played
    requires blank { IsBlank arena.old.rules arena.old }
    requires candidate { Fits arena.old.rules candidate.now }
    requires opponent { Fits arena.old.rules opponent.now }
    requires eight { (arena.old.rules.distance ≤ 8) × (8 + arena.old.rules.distance ≤ arena.old.rules.core) }
    ensures blank { IsBlank arena.old.rules arena.new }
{
    arena.load(candidate, opponent, 8);
    let outcome = arena.run(first);
    Played {
        points: outcome.points,
        turns: outcome.turns,
        reset: arena.reset(),
    }
}

// Plays a fight on plain and then on packed cells, each in an arena of 16 cells of its own.
pub(crate) fn play_on_both(
    rt: &HostRuntime,
    candidate: &[u8],
    opponent: &[u8],
    cycles: u32,
    tasks: u32,
    first: Side,
) -> Result<(Played, Played), Fail> {
    let rules = rules_of(16, cycles, tasks)?;
    let candidate = read_loadfile(rt.alloc(), candidate, &rules)?;
    let opponent = read_loadfile(rt.alloc(), opponent, &rules)?;
    let mut plain = Arena::<PlainCells>::try_new(rt.alloc(), &rules)?;
    let mut packed = Arena::<PackedCells>::try_new(rt.alloc(), &rules)?;
    Ok((
        play_and_reset(&mut plain, &candidate, &opponent, first),
        play_and_reset(&mut packed, &candidate, &opponent, first),
    ))
}

// How many turns a step made, and how many cells a reset set after a fight and after that step.
#[derive(Clone, Copy, Debug, PartialEq, Eq)]
struct Resets {
    turns: u32,
    after_fight: u32,
    after_step: u32,
}

// Plays a fight and resets, makes a step and resets.
fn reset_twice<C: Cells>(arena: &mut Arena<C>, imp: &Warrior, copier: &Warrior) -> Resets
    requires blank { IsBlank arena.old.rules arena.old }
    requires cycles { 0 < arena.old.rules.cycles }
    requires imp { Fits arena.old.rules imp.now }
    requires copier { Fits arena.old.rules copier.now }
    requires eight { (arena.old.rules.distance ≤ 8) × (8 + arena.old.rules.distance ≤ arena.old.rules.core) }
{
    let played = play_and_reset(arena, imp, imp, Side::Candidate);
    arena.load(copier, imp, 8);
    arena.step(Side::Candidate);
    Resets {
        turns: arena.turns(),
        after_fight: played.reset,
        after_step: arena.reset(),
    }
}

#[test]
fn a_reset_of_packed_cells_sets_few(rt: HostRuntime) -> Result<(), Fail> {
    let rules = rules_of(16, 20, 4)?;
    let imp = read_loadfile(rt.alloc(), IMP, &rules)?;
    let copier = read_loadfile(rt.alloc(), COPIER, &rules)?;
    let mut plain = Arena::<PlainCells>::try_new(rt.alloc(), &rules)?;
    let mut packed = Arena::<PackedCells>::try_new(rt.alloc(), &rules)?;
    let tie = Outcome {
        points: 1,
        turns: 40,
    };
    let few = a_reset_sets_few_cells(&mut packed, &imp, &imp, 8, Side::Candidate);
    assert_eq!(rt; few, (tie, 16));
    let on_plain = Resets {
        turns: 1,
        after_fight: 16,
        after_step: 16,
    };
    let on_packed = Resets {
        after_step: 4,
        ..on_plain
    };
    assert_eq!(rt; reset_twice(&mut plain, &imp, &copier), on_plain);
    assert_eq!(rt; reset_twice(&mut packed, &imp, &copier), on_packed);
    Ok(())
}

// A warrior that waits writes nothing. At the end of a stretch of 2000 cycles three marks for each
// turn are more than the core has cells, so its journal ends, if the fight goes on.
#[test]
fn a_journal_ends_after_a_stretch(rt: HostRuntime) -> Result<(), Fail> {
    let played = |turns, reset| Played {
        points: 1,
        turns,
        reset,
    };
    let first = Side::Candidate;
    let a_stretch = play_on_both(&rt, WAIT, WAIT, 2000, 4, first)?;
    assert_eq!(rt; a_stretch, (played(4000, 16), played(4000, 2)));
    let longer = play_on_both(&rt, WAIT, WAIT, 2001, 4, first)?;
    assert_eq!(rt; longer, (played(4002, 16), played(4002, 16)));
    Ok(())
}

#[test]
fn a_reset_opens_the_journal_again(rt: HostRuntime) -> Result<(), Fail> {
    let rules = rules_of(16, 2001, 4)?;
    let wait = read_loadfile(rt.alloc(), WAIT, &rules)?;
    let copier = read_loadfile(rt.alloc(), COPIER, &rules)?;
    let mut packed = Arena::<PackedCells>::try_new(rt.alloc(), &rules)?;
    let resets = Resets {
        turns: 1,
        after_fight: 16,
        after_step: 4,
    };
    assert_eq!(rt; reset_twice(&mut packed, &wait, &copier), resets);
    Ok(())
}

// Nothing was loaded, so the opponent has no task.
#[test]
fn a_fight_without_tasks_is_over_at_once(rt: HostRuntime) -> Result<(), Fail> {
    let rules = rules_of(16, 20, 4)?;
    let mut arena = Arena::<PackedCells>::try_new(rt.alloc(), &rules)?;
    let over = Outcome {
        points: 3,
        turns: 0,
    };
    assert_eq!(rt; arena.run(Side::Candidate), over);
    Ok(())
}
