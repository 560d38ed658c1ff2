//! Checks single rows of a certificate. What is asked of the fights that a row lists is in
//! `listings`.
ghost use Rattle.std.specs.Prelude.{◌≡◌, ◌<◌, ◌==◌, ◌||◌, IfOk, IfSome, IfNone, None, Some, Option, length, ℕ, List, slice_get};
ghost use Rattle.mars_core.specs.Arena.{IsBlank};
ghost use Rattle.tune_problem.specs.Problem.{problem_of};
ghost use Rattle.tune_problem.specs.Valid.{listed_in};
ghost use Rattle.tune_problem.specs.Exact.{listed_cap};
ghost use Rattle.tune_problem.specs.declared.cert.Row.TheVariants.{Refused, Cap};
ghost use Rattle.tune_cert.specs.Checks.{PlaysAtMost, names, stays_below, is_exact, is_best_row, cap_reason, alone_reason, same_reason, reference_reason};
ghost use Rattle.tune_cert.specs.Steps.{AreAssembled, for_claim};

use crate::claim::Claim;
use crate::fault::CheckFault;
use crate::listings::{are_fights, have_points, is_rising, listed_cap, listed_total, lists_all};
use crate::verdict::Reason;
use crate::warriors::share_warrior;
use mars_core::{Arena, PackedCells};
use rc_instr::Warrior;
use std::alloc::Global;
use tune_problem::{
    Answer, Best, Inputs, Row, Rows, Watcher, beats, contends, fight_count, setting_warrior,
};

// Returns what is wrong with a refused or a cap row, and passes over a row that refers to another
// setting. `watcher` hears of each fight.
pub(crate) fn check_alone<T: Watcher>(
    alloc: Global,
    arena: &mut Arena<PackedCells>,
    claim: &Claim<'_>,
    vector: u32,
    row: &Row,
    watcher: &mut T,
) -> Result<Option<Reason>, CheckFault>
    requires inside { vector < (problem_of claim.now.inputs.now).count }
    requires blank { IsBlank claim.now.inputs.now.rules arena.old }
    ensures reason { IfOk result (λ o. o ≡ for_claim alone_reason claim.now vector row.now) }
    ensures blank { IsBlank claim.now.inputs.now.rules arena.new }

    // At most as many fights are played as the row lists.
    ensures most { PlaysAtMost arena.old arena.new (listed_in row.now) }
{
    match row {
        Row::Refused => match setting_warrior(alloc, claim.inputs, vector)? {
            Some(_) => Ok(Some(Reason::NotRefused)),
            None => Ok(None),
        },
        Row::Same(_) => Ok(None),
        Row::Cap(listed) => check_cap(alloc, arena, claim, vector, listed.as_slice(), watcher),
    }
}

// Checks a cap row: its fights, then its points, then its cap.
fn check_cap<T: Watcher>(
    alloc: Global,
    arena: &mut Arena<PackedCells>,
    claim: &Claim<'_>,
    vector: u32,
    listed: &[(u32, u8)],
    watcher: &mut T,
) -> Result<Option<Reason>, CheckFault>
    requires inside { vector < (problem_of claim.now.inputs.now).count }
    requires blank { IsBlank claim.now.inputs.now.rules arena.old }
    ensures reason { IfOk result (λ o. o ≡ for_claim cap_reason claim.now vector listed.now) }
    ensures blank { IsBlank claim.now.inputs.now.rules arena.new }
    ensures most { PlaysAtMost arena.old arena.new (length listed.now) }
{
    if !is_rising(listed) {
        return Ok(Some(Reason::RepeatedFight));
    }
    let Some(warrior) = setting_warrior(alloc, claim.inputs, vector)? else {
        return Ok(Some(Reason::WrongPoints));
    };
    if !have_points(arena, claim.inputs, &warrior, listed, watcher) {
        return Ok(Some(Reason::WrongPoints));
    }
    let cap = listed_cap(claim.inputs, listed);
    if !is_best_or_below(claim.statement.answer, vector, cap) {
        return Ok(Some(Reason::CapTooHigh));
    }
    if !is_exact(claim, vector, listed, cap) {
        return Ok(Some(Reason::CapTooHigh));
    }
    Ok(None)
}

// Returns what is wrong with a row that refers to another setting, and passes over any other row.
// `warriors` keeps the warriors of settings to which earlier rows referred.
pub(crate) fn check_same(
    alloc: Global,
    claim: &Claim<'_>,
    warriors: &mut Vec<Option<Warrior>>,
    vector: u32,
    row: &Row,
) -> Result<Option<Reason>, CheckFault>
    requires inside { vector < (problem_of claim.now.inputs.now).count }
    requires assembled { AreAssembled (problem_of claim.now.inputs.now) warriors.old.items }
    ensures reason { IfOk result (λ o. o ≡ for_claim same_reason claim.now vector row.now) }
    ensures assembled { AreAssembled (problem_of claim.now.inputs.now) warriors.new.items }
{
    match row {
        Row::Same(other) => check_reference(alloc, claim, warriors, vector, *other),
        _ => Ok(None),
    }
}

// Checks the row of setting `vector` that refers to setting `other`, which must have the same
// warrior and a cap row of rising fights. Its cap must stay below as one of `vector`, too. Takes
// the listed points as they are, since the row of `other` is checked itself.
fn check_reference(
    alloc: Global,
    claim: &Claim<'_>,
    warriors: &mut Vec<Option<Warrior>>,
    vector: u32,
    other: u32,
) -> Result<Option<Reason>, CheckFault>
    requires inside { vector < (problem_of claim.now.inputs.now).count }
    requires assembled { AreAssembled (problem_of claim.now.inputs.now) warriors.old.items }
    ensures reason { IfOk result (λ o. o ≡ for_claim reference_reason claim.now vector other (slice_get claim.now.statement.now.rows other)) }
    ensures assembled { AreAssembled (problem_of claim.now.inputs.now) warriors.new.items }
{
    let Some(listed) = cap_row(&claim.statement.rows, other) else {
        return Ok(Some(Reason::NotSame));
    };
    if other == vector {
        return Ok(Some(Reason::NotSame));
    }
    let shared = share_warrior(alloc, claim.inputs, warriors, vector, other)?;
    if !shared {
        return Ok(Some(Reason::NotSame));
    }
    if !is_rising(listed) {
        return Ok(Some(Reason::NotSame));
    }
    if !are_fights(claim.inputs, listed) {
        return Ok(Some(Reason::NotSame));
    }
    let cap = listed_cap(claim.inputs, listed);
    if !stays_below(claim.statement.answer, vector, cap) {
        return Ok(Some(Reason::CapTooHigh));
    }
    if !is_exact(claim, vector, listed, cap) {
        return Ok(Some(Reason::CapTooHigh));
    }
    Ok(None)
}

// Returns whether the row of a best setting lists every fight in order, with scores that add up to
// its total.
pub(crate) fn is_best_row(inputs: &Inputs, rows: &Rows, best: Best) -> bool
    ensures { result ≡ is_best_row (problem_of inputs.now) best.total (slice_get rows.now best.vector) }
{
    let Some(listed) = cap_row(rows, best.vector) else {
        return false;
    };
    if !lists_all(fight_count(inputs), listed) {
        return false;
    }
    listed_total(inputs, listed) == best.total
}

// Returns the fights in the row of setting `vector` if that is a cap row.
pub(crate) fn cap_row(rows: &Rows, vector: u32) -> Option<&[(u32, u8)]>
    ensures some { IfSome result (λ row. slice_get rows.now vector ≡ Some (Cap row.now)) }
    ensures none { IfNone result ((row : List (ℕ × ℕ)) → slice_get rows.now vector ≡ Some (Cap row) → ⊥) }
{
    match rows.as_slice().get(vector as usize) {
        Some(Row::Cap(listed)) => Some(listed.as_slice()),
        _ => None,
    }
}

// Returns whether `answer` names setting `vector`, or the cap `cap` of that setting stays below.
fn is_best_or_below(answer: Answer, vector: u32, cap: u32) -> bool
    ensures { result ≡ (names answer vector || stays_below answer cap vector) }
{
    is_named(answer, vector) || stays_below(answer, vector, cap)
}

fn is_named(answer: Answer, vector: u32) -> bool
    ensures { result ≡ names answer vector }
{
    match answer {
        Answer::Best(best) => vector == best.vector,
        Answer::NoneFrom(_) => false,
    }
}

// Returns whether cap `cap` of setting `vector` does not beat the best setting, or is below the
// floor that no setting is said to reach.
fn stays_below(answer: Answer, vector: u32, cap: u32) -> bool
    ensures { result ≡ stays_below answer cap vector }
{
    match answer {
        Answer::Best(best) => !beats(cap, vector, best),
        Answer::NoneFrom(floor) => cap < floor,
    }
}

// Returns whether a row lists every fight or, as one of setting `vector` with the cap `cap`, does
// not contend with the ranking that the rows list. Without an aim every row is exact.
#[tactic(auto, unfolding(crate::specs::Checks::is_exact))]
fn is_exact(claim: &Claim<'_>, vector: u32, listed: &[(u32, u8)], cap: u32) -> bool
    requires { cap ≡ listed_cap (problem_of claim.now.inputs.now) listed.now }
    ensures { result ≡ is_exact (problem_of claim.now.inputs.now) claim.now.aim claim.now.statement.now.rows vector listed.now }
{
    let Some(aim) = claim.aim else {
        return true;
    };
    if lists_all(fight_count(claim.inputs), listed) {
        return true;
    }
    !contends(aim, cap, vector, claim.ranking.as_slice())
}
