//! The ranking that the rows of a certificate list.
ghost use Rattle.std.specs.Prelude.{◌≡◌, length, Some, None, IfOk, IfSome, IfNone};
ghost use Rattle.tune_problem.specs.Problem.{problem_of};
ghost use Rattle.tune_problem.specs.Exact.{listed_at, listed_ranking, total_at};
ghost use Rattle.tune_cert.specs.Judgement.{ranking_for};

use crate::listings::{listed_total, lists_all};
use crate::row_checks::cap_row;
use std::alloc::{AllocError, Global};
use tune_problem::{Aim, Inputs, Ranking, Row, Rows, fight_count};

// Returns the ranking that `rows` list for `aim`, an empty one without an aim. Takes no more memory
// than the ranking.
pub(crate) fn ranking_for(
    alloc: Global,
    inputs: &Inputs,
    rows: &Rows,
    aim: Option<Aim>,
) -> Result<Ranking, AllocError>
    requires count { length rows.now ≡ (problem_of inputs.now).count }
    ensures { IfOk result (λ r. r ≡ ranking_for (problem_of inputs.now) rows.now aim) }
{
    match aim {
        Some(aim) => listed_ranking(alloc, inputs, rows, aim),
        None => Ok(Ranking::new(alloc)),
    }
}

// Returns the ranking that rows list for an aim.
fn listed_ranking(
    alloc: Global,
    inputs: &Inputs,
    rows: &Rows,
    aim: Aim,
) -> Result<Ranking, AllocError>
    requires count { length rows.now ≡ (problem_of inputs.now).count }
    ensures { IfOk result (λ r. r ≡ listed_ranking (problem_of inputs.now) aim rows.now) }
{
    let mut ranking = Ranking::new(alloc);
    for vector in 0..inputs.count() {
        if let Some(total) = total_at(inputs, rows, vector) {
            ranking.rank(aim, total, vector)?;
        }
    }
    Ok(ranking)
}

// Returns the total that rows show of setting `vector`.
fn total_at(inputs: &Inputs, rows: &Rows, vector: u32) -> Option<u32>
    ensures { result ≡ total_at (problem_of inputs.now) rows.now vector }
{
    let Some(fights) = listed_at(rows, vector) else {
        return None;
    };
    if !lists_all(fight_count(inputs), fights) {
        return None;
    }
    Some(listed_total(inputs, fights))
}

// Returns the fights that are listed for setting `vector`: those of its cap row, or of the cap row
// to which its row refers.
fn listed_at(rows: &Rows, vector: u32) -> Option<&[(u32, u8)]>
    ensures some { IfSome result (λ fights. listed_at rows.now vector ≡ Some fights.now) }
    ensures none { IfNone result (listed_at rows.now vector ≡ None) }
{
    match rows.as_slice().get(vector as usize) {
        Some(Row::Cap(fights)) => Some(fights.as_slice()),
        Some(Row::Same(other)) => cap_row(rows, *other),
        _ => None,
    }
}
