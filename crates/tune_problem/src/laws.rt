//! Laws of the definitions: functions with an empty body, whose contract is what is proved.
ghost use Rattle.std.specs.Prelude.{◌≡◌, ◌↔◌, ◌<◌, ◌≤◌, ℕ, ℤ, List, length, flat_map};
ghost use Rattle.std.specs.List.{range_with_len};
ghost use Rattle.tune_problem.specs.Parts.{part, whole, part_of};
ghost use Rattle.tune_problem.specs.Inputs.{InputsView};
ghost use Rattle.tune_problem.specs.Problem.{Problem, IsProblem, problem_of};
ghost use Rattle.tune_problem.specs.Optimum.{IsCandidate, IsOptimum, IsBest};
ghost use Rattle.tune_problem.specs.Valid.{IsValid, named_best};
ghost use Rattle.tune_problem.specs.Below.{IsValidBelow, AllBelow};
ghost use Rattle.tune_problem.specs.Ranking.{IsAim, IsRanking, Any};
ghost use Rattle.tune_problem.specs.Exact.{IsExact, listed_ranking};
ghost use Rattle.tune_problem.specs.BestPart.{whole_of, in_whole, AreTuned, AllStayBelow, IsBestPart};
ghost use Rattle.tune_problem.specs.declared.statement.Answer.{Answer};
ghost use Rattle.tune_problem.specs.declared.watcher.Best.{Best};

use crate::aim::Aim;
use crate::cert::{Cert, Row};

/// States that the parts of a list of settings, put together in order, are the whole list, and that
/// part 1 of 1 is all of it.
pub fn parts_make_the_whole()
    ensures parts { (settings : List (List ℤ)) (parts : ℕ) → 1 ≤ parts → parts ≤ length settings
        → flat_map (λ number. part_of (part number parts) settings) (range_with_len 1 parts) ≡ settings }
    ensures whole { (settings : List (List ℤ)) → part_of whole settings ≡ settings }
{}

/// States that a valid certificate names the optimum and its total, and that there is only one
/// optimum.
///
/// The first needs one fact, which holds for any inputs: a fight gives 0, 1 or 3 points.
pub fn a_valid_certificate_names_the_optimum()
    ensures names { (p : Problem) (c : Cert) → IsProblem p → IsValid p c → IsBest p (named_best c) }
    ensures one { (p : Problem) (v w : ℕ) → IsOptimum p v → IsOptimum p w → v ≡ w }
    ensures inputs { (i : InputsView) → IsProblem (problem_of i) }
{}

/// States that every candidate totals less than the floor, if rows are a valid certificate that no
/// candidate reaches it.
pub fn a_certificate_below_a_floor_is_right()
    ensures { (p : Problem) (floor version : ℕ) (rows : List Row) → IsProblem p → IsValidBelow p floor version rows → AllBelow p floor }
{}

/// States that the rows of a valid certificate list the first K of the ranking of all settings, if
/// they are exact for the aim.
pub fn an_exact_certificate_has_the_first_of_the_ranking()
    ensures { (p : Problem) (c : Cert) (aim : Aim) → IsProblem p → IsAim aim → IsValid p c → IsExact p aim c.rows
        → IsRanking p aim Any (listed_ranking p aim c.rows) }
{}

/// States that the optimum of all settings is that of the best part, and has the same total there;
/// the best part is the first of those with the greatest total. If no part has a candidate that
/// reaches a floor, the whole has none. No candidate reaches the floor 0 exactly if there is no
/// candidate.
///
/// A setting's index in the whole is its index in its part, counted on from where the part begins.
pub fn the_best_part_has_the_optimum()
    ensures best { (i : InputsView) (parts n : ℕ) (outcome : ℕ → Answer) (best : Best) → AreTuned i parts outcome → IsBestPart parts outcome n best
        → IsBest (whole_of i) (in_whole i n parts best) }
    ensures below { (i : InputsView) (parts floor : ℕ) (outcome : ℕ → Answer) → AreTuned i parts outcome → AllStayBelow floor parts outcome → AllBelow (whole_of i) floor }
    ensures none { (p : Problem) → AllBelow p 0 ↔ ((v : ℕ) → v < p.count → IsCandidate p v → ⊥) }
{}
