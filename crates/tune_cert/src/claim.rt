//! What is checked: a statement against inputs, for an aim.
ghost use Rattle.std.specs.Prelude.{◌≡◌, Some, length};
ghost use Rattle.tune_problem.specs.Problem.{problem_of};
ghost use Rattle.tune_problem.specs.Exact.{listed_ranking};
ghost use Rattle.tune_problem.specs.declared.aim.Aim.{Aim as AimView};

use tune_problem::{Aim, Inputs, Ranking, Statement};

// A statement, the inputs against which it is checked, and the aim for which it has to be exact.
#[derive(Clone, Copy)]
pub(crate) struct Claim<'a> {
    pub(crate) inputs: &'a Inputs,
    pub(crate) statement: &'a Statement,
    pub(crate) aim: Option<Aim>,
    // The ranking that the rows list for the aim.
    pub(crate) ranking: &'a Ranking,
    ghost listed: { (a : AimView) → aim ≡ Some a → ranking.now ≡ listed_ranking (problem_of inputs.now) a statement.now.rows },
    // There is a row for each setting.
    ghost counted: { length statement.now.rows ≡ (problem_of inputs.now).count },
}
