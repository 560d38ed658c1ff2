//! Checks the rows of a share: walks along them, and has each one checked by `row_checks`. The
//! refused and the cap rows come first, in order, and then the rows that refer to other settings.
ghost use Rattle.std.specs.Prelude.{◌≡◌, ◌≤◌, length, IfOk, IsTrue};
ghost use Rattle.mars_core.specs.Arena.{IsBlank};
ghost use Rattle.tune_problem.specs.Problem.{problem_of};
ghost use Rattle.tune_cert.specs.Checks.{refers, wrong_alone, wrong_same, rows_failure, settings_between, listed_fights_of, PlaysAtMost};
ghost use Rattle.tune_cert.specs.Steps.{for_claim, claim_settings};

use crate::claim::Claim;
use crate::fault::CheckFault;
use crate::read::record_of;
use crate::row_checks::{check_alone, check_same};
use crate::share::Share;
use crate::telling::{before_rows, tell_row};
use crate::verdict::Reason;
use crate::warriors::no_warriors;
use mars_core::{Arena, PackedCells};
use std::alloc::Global;
use tune_problem::{Answer, Best, Row, Standing, Watcher};

// Checks the rows of a share: first those that refer to no other setting, then those that do.
// Returns the first wrong row.
pub(crate) fn check_rows<T: Watcher>(
    alloc: Global,
    arena: &mut Arena<PackedCells>,
    claim: &Claim<'_>,
    share: Share,
    watcher: &mut T,
) -> Result<Option<(u64, Reason)>, CheckFault>
    requires blank { IsBlank claim.now.inputs.now.rules arena.old }
    ensures wrong { IfOk result (λ o. o ≡ for_claim rows_failure claim.now (claim_settings share claim.now)) }

    // At most as many fights are played as the rows of the share list.
    ensures most { PlaysAtMost arena.old arena.new (listed_fights_of claim.now.statement.now.rows (claim_settings share claim.now)) }
{
    let count = claim.inputs.count();
    let first = share.first(count);
    let end = share.end(count);
    let mut standing = before_rows(named_best(claim.statement.answer), end - first);
    if let Some(wrong) = check_rows_alone(
        alloc,
        arena,
        claim,
        first,
        end,
        &mut standing,
        watcher,
    )? {
        return Ok(Some(wrong));
    }
    if none_refer(claim, first, end) {
        return Ok(None);
    }
    check_rows_same(alloc, claim, first, end, &mut standing, watcher)
}

// Returns the best setting that an answer names, for the watcher.
fn named_best(answer: Answer) -> Option<Best> {
    match answer {
        Answer::Best(best) => Some(best),
        Answer::NoneFrom(_) => None,
    }
}

// Checks the refused and the cap rows from `first` to just before `end`. Returns the first wrong
// one.
fn check_rows_alone<T: Watcher>(
    alloc: Global,
    arena: &mut Arena<PackedCells>,
    claim: &Claim<'_>,
    first: u32,
    end: u32,
    standing: &mut Standing,
    watcher: &mut T,
) -> Result<Option<(u64, Reason)>, CheckFault>
    requires blank { IsBlank claim.now.inputs.now.rules arena.old }
    requires inside { end ≤ (problem_of claim.now.inputs.now).count }
    ensures wrong { IfOk result (λ o. o ≡ for_claim wrong_alone claim.now (settings_between first end)) }

    // At most as many fights are played as these rows list.
    ensures most { PlaysAtMost arena.old arena.new (listed_fights_of claim.now.statement.now.rows (settings_between first end)) }
{
    let rows = claim.statement.rows.as_slice();
    for vector in first..end {
        let row = &rows[vector as usize];
        if let Some(reason) = check_alone(alloc, arena, claim, vector, row, watcher)? {
            return Ok(Some((record_of(u64::from(vector)), reason)));
        }
        if !refers(row) {
            tell_row(row, standing, watcher);
        }
    }
    Ok(None)
}

// Returns whether no row from `first` to just before `end` refers to another setting.
fn none_refer(claim: &Claim<'_>, first: u32, end: u32) -> bool
    requires inside { end ≤ length claim.now.statement.now.rows }
    ensures { IsTrue result → None ≡ for_claim wrong_same claim.now (settings_between first end) }
{
    let rows = claim.statement.rows.as_slice();
    for vector in first..end {
        if refers(&rows[vector as usize]) {
            return false;
        }
    }
    true
}

// Checks the rows from `first` to just before `end` that refer to other settings. Returns the first
// wrong one. Assembles each such row's setting, and once each setting that such rows refer to.
fn check_rows_same<T: Watcher>(
    alloc: Global,
    claim: &Claim<'_>,
    first: u32,
    end: u32,
    standing: &mut Standing,
    watcher: &mut T,
) -> Result<Option<(u64, Reason)>, CheckFault>
    requires inside { end ≤ (problem_of claim.now.inputs.now).count }
    ensures wrong { IfOk result (λ o. o ≡ for_claim wrong_same claim.now (settings_between first end)) }
{
    let rows = claim.statement.rows.as_slice();
    let mut warriors = no_warriors(alloc, claim.inputs.count())?;
    for vector in first..end {
        let row = &rows[vector as usize];
        if let Some(reason) = check_same(alloc, claim, &mut warriors, vector, row)? {
            return Ok(Some((record_of(u64::from(vector)), reason)));
        }
        if refers(row) {
            tell_row(row, standing, watcher);
        }
    }
    Ok(None)
}

// Returns whether a row refers to another setting. Such rows are checked last.
fn refers(row: &Row) -> bool
    ensures { result ≡ refers row.now }
{
    match row {
        Row::Same(_) => true,
        _ => false,
    }
}
