//! Laws of the search: functions with an empty body, whose contract is what is proved.
ghost use Rattle.std.specs.Prelude.{◌≡◌, ◌<◌, ◌≤◌, ◌*◌, ℕ, List, None};
ghost use Rattle.rc_instr.specs.Warrior.{WarriorView};
ghost use Rattle.tune_problem.specs.Problem.{Problem, IsProblem};
ghost use Rattle.tune_search.specs.Recent.{IsRecent};
ghost use Rattle.tune_search.specs.Method.{capacity_of};
ghost use Rattle.tune_search.specs.Plays.{rows_of};
ghost use Rattle.tune_search.specs.Visits.{ranking_after};
ghost use Rattle.tune_search.specs.Ranking.{IsRankingBy};
ghost use Rattle.tune_search.specs.Found.{IsSearch, HasFought, as_findings, fought_count};
ghost use Rattle.tune_search.specs.Findings.{IsSearchFor, best_from};
ghost use Rattle.tune_problem.specs.Ranking.{IsAim, first_of};
ghost use Rattle.tune_problem.specs.Exact.{IsExact, listed_ranking};

use crate::findings::Findings;
use crate::method::Method;
// What a search with a floor certifies if no setting reaches it.
pub use tune_problem::laws::a_certificate_below_a_floor_is_right;
use tune_problem::{Aim, Found};

/// States that after any number of visits there is at most one list of recent settings.
pub fn visits_determine_the_recent_settings()
    ensures recent { (p : Problem) (capacity k : ℕ) (us vs : List ℕ) → IsRecent p capacity k us → IsRecent p capacity k vs → us ≡ vs }
{}

/// States that no two settings that were fought have equal warriors, if the search may remember as
/// many as were fought. The start setting must be one of the settings, as it is for all inputs.
pub fn fought_settings_differ()
    ensures findings { (p : Problem) (aim : Aim) (method : Method) (f : Findings) (v u : ℕ) (w : WarriorView) → IsSearchFor p aim method f
        → p.start < p.count → fought_count f ≤ capacity_of method → HasFought p f w v → HasFought p f w u → v ≡ u }
    ensures alone { (p : Problem) (method : Method) (f : Found) (v u : ℕ) (w : WarriorView) → IsSearch p method f → p.start < p.count
        → fought_count (as_findings f) ≤ capacity_of method → HasFought p (as_findings f) w v → HasFought p (as_findings f) w u → v ≡ u }
{}

/// States that the inputs, the aim and the method determine what a search finds: its rows, and so
/// which fights are played, as well as the ranking and the counts; and for the best setting alone
/// the optimum and its total.
pub fn a_search_has_one_answer()
    ensures findings { (p : Problem) (aim : Aim) (method : Method) (f g : Findings) → IsAim aim
        → IsSearchFor p aim method f → IsSearchFor p aim method g → f ≡ g }
    ensures alone { (p : Problem) (method : Method) (f g : Found) → IsSearch p method f → IsSearch p method g → f ≡ g }
{}

/// States that all methods find the same settings, with the same totals, and count the same number
/// of settings that assemble; so for the best setting alone they find the same optimum.
pub fn all_methods_find_the_optimum()
    ensures ranking { (p : Problem) (aim : Aim) (one other : Method) (f g : Findings) → IsAim aim → IsSearchFor p aim one f → IsSearchFor p aim other g
        → (f.ranking ≡ g.ranking) × (f.candidates ≡ g.candidates) }
    ensures alone { (p : Problem) (one other : Method) (f g : Found) → IsSearch p one f → IsSearch p other g
        → (f.best ≡ g.best) × (f.total ≡ g.total) × (f.candidates ≡ g.candidates) }
{}

/// States what `PlayingAll` finds. The row of a setting that assembles lists all fights, the count
/// of fights is that of all these rows, and no row is a copy.
///
/// The premise `IsProblem`, that a fight gives 0, 1 or 3 points, holds for any inputs.
pub fn playing_all_lists_every_fight()
    ensures rows { (p : Problem) (aim : Aim) (f : Findings) → IsProblem p → IsSearchFor p aim Method.PlayingAll f → f.rows ≡ rows_of p }
    ensures fights { (p : Problem) (aim : Aim) (f : Findings) → IsProblem p → IsSearchFor p aim Method.PlayingAll f → f.fights ≡ f.candidates * p.fights }
    ensures copied { (p : Problem) (aim : Aim) (f : Findings) → IsSearchFor p aim Method.PlayingAll f → f.copied ≡ None }
{}

/// States that a search with a floor finds the optimum if its total reaches the floor, and no best
/// setting otherwise, by whatever method.
pub fn a_floor_hides_only_what_is_below_it()
    ensures { (p : Problem) (aim : Aim) (one other : Method) (f : Findings) (g : Found) → IsSearchFor p aim one f → IsSearch p other g
        → first_of f.ranking ≡ best_from aim.floor g }
{}

/// States that the ranking after any number of visits has the first K of the settings visited so
/// far, by their totals, where K is what the aim keeps.
pub fn a_ranking_has_the_first_settings()
    ensures { (p : Problem) (aim : Aim) (k : ℕ) → IsAim aim → k ≤ p.count → p.start < p.count → IsRankingBy p aim k (ranking_after p aim k) }
{}

/// States that the rows of a search with an aim are exact for it: no setting contends whose fights
/// are not all listed. So the ranking that the rows list is the one that was found.
///
/// The start setting must be one of the settings, as it is for all inputs.
pub fn a_search_with_an_aim_is_exact()
    ensures exact { (p : Problem) (aim : Aim) (method : Method) (f : Findings) → IsProblem p → IsAim aim → p.start < p.count
        → IsSearchFor p aim method f → IsExact p aim f.rows }
    ensures ranking { (p : Problem) (aim : Aim) (method : Method) (f : Findings) → IsProblem p → IsAim aim → p.start < p.count
        → IsSearchFor p aim method f → listed_ranking p aim f.rows ≡ f.ranking }
{}
