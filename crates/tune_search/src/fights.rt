//! Plays the fights of one warrior.
ghost use Rattle.std.specs.Prelude.{◌≡◌, ◌<◌, ◌≤◌, ◌+◌, ◌^◌, length, IfOk};
ghost use Rattle.rc_instr.specs.Warrior.{Fits};
ghost use Rattle.mars_core.specs.Arena.{IsBlank};
ghost use Rattle.mars_fight.specs.Limits.{MOST_FIGHTS};
ghost use Rattle.tune_problem.specs.Problem.{problem_of};
ghost use Rattle.tune_search.specs.Order.{IsFightOrder};
ghost use Rattle.tune_search.specs.State.{listing_of_challenge, cap_of_challenge};

use crate::candidate::Candidate;
use crate::method::{Method, drops};
use mars_core::{Arena, PackedCells};
use mars_fight::MOST_POINTS;
use std::alloc::{AllocError, Global};
use tune_problem::{Aim, Best, Inputs, Watcher, fight_points, fight_weight, greatest_total};

// Fights of a warrior in the order in which they were played, each with its points, and the cap of
// the warrior by them: its total, if these are all fights.
#[derive(Drop)]
pub(crate) struct Bout {
    pub(crate) listing: Vec<(u32, u8)>,
    pub(crate) cap: u32,
}

// A candidate whose fights are to be played, in this order, and what decides when it is dropped:
// the method, the aim of its visit, and the ranking before it.
#[derive(Clone, Copy)]
pub(crate) struct Challenge<'a> {
    pub(crate) method: Method,
    pub(crate) entrant: &'a Candidate,
    pub(crate) order: &'a [u32],
    pub(crate) aim: Aim,
    pub(crate) ranking: &'a [Best],
}

// Plays the fights of a challenge until the method drops the setting, or none is left. The arena's
// count of fights grows by the length of the listing.
#[tactic(auto, using(crate::proofs::Enough::enough_is, crate::proofs::Caps::cap_more, crate::proofs::Caps::played_more, crate::proofs::Caps::cap_none))]
pub(crate) fn play_enough<T: Watcher>(
    alloc: Global,
    arena: &mut Arena<PackedCells>,
    inputs: &Inputs,
    challenge: &Challenge<'_>,
    watcher: &mut T,
) -> Result<Bout, AllocError>
    requires blank { IsBlank inputs.now.rules arena.old }
    requires fits { Fits inputs.now.rules challenge.now.entrant.now.warrior }
    requires order { IsFightOrder (problem_of inputs.now) challenge.now.order.now }
    ensures listing { IfOk result (λ b. b.listing.items ≡ listing_of_challenge (problem_of inputs.now) challenge.now) }
    ensures cap { IfOk result (λ b. b.cap ≡ cap_of_challenge (problem_of inputs.now) challenge.now) }
    ensures few { IfOk result (λ b. length b.listing.items ≤ MOST_FIGHTS) }
    ensures blank { IsBlank inputs.now.rules arena.new }
    ensures fights { IfOk result (λ b. arena.old.fights + length b.listing.items < 2 ^ 64 → arena.new.fights ≡ arena.old.fights + length b.listing.items) }
{
    let mut listing = Vec::new(alloc);
    let mut cap = greatest_total(inputs);
    for index in challenge.order {
        if drops(
            challenge.method,
            challenge.aim,
            cap,
            challenge.entrant.vector,
            challenge.ranking,
        ) {
            return Ok(Bout { listing, cap });
        }
        let points = fight_points(arena, inputs, &challenge.entrant.warrior, *index);
        watcher.hear(arena.fights());
        listing.push((*index, points))?;
        cap -= (MOST_POINTS - u32::from(points)) * fight_weight(inputs, *index);
    }
    Ok(Bout { listing, cap })
}
