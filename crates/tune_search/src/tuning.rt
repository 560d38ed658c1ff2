//! The search for the optimum, and for the first K of the ranking.
ghost use Rattle.std.specs.Prelude.{◌≡◌, ◌<◌, ◌≤◌, MatchResult};
ghost use Rattle.tune_problem.specs.Problem.{problem_of};
ghost use Rattle.tune_problem.specs.Ranking.{IsAim};
ghost use Rattle.tune_search.specs.Limits.{MOST_CAPACITY};
ghost use Rattle.tune_search.specs.Method.{HasCapacity};
ghost use Rattle.tune_search.specs.Found.{IsSearch, IsRefused};
ghost use Rattle.tune_search.specs.Findings.{IsSearchFor};

use crate::fault::SearchFault;
use crate::findings::Findings;
use crate::method::Method;
use crate::state::State;
use mars_core::{Arena, PackedCells};
use std::alloc::Global;
use tune_problem::{Aim, Best, Found, Inputs, Silent, Standing, Watcher};

/// Finds the optimum: of the settings of the part, the first one with the greatest total in the
/// fights of the schedule. Plays only fights that can matter.
///
/// Visits the start setting first, then the others in order. The start setting plays its fights by
/// index. The others play those first in which it made the fewest points, and equal ones by index;
/// if it does not assemble, they too play by index. A setting is dropped as soon as its cap does
/// not beat the lead, the best setting visited so far. The cap is the scores that it has and 3
/// times the weight of each fight left. It does not beat the lead if it is less than the lead's
/// total, or equal and the lead has the smaller index.
///
/// Remembers up to `capacity` fought settings, 1 to 65536, and forgets the one used least recently
/// to make room. A setting v with the warrior of a remembered setting u is not fought, and u
/// becomes the last used. The row of v is `Same` with the index of u, unless u is the start setting
/// and the lead and v comes before it: then v has a copy of u's row, becomes the lead, and is
/// `copied`. The row of any other setting is `Refused` if it does not assemble, else `Cap` with the
/// fights played, by index.
///
/// # Errors
///
/// `NoCandidate` if no setting assembles. `OutOfMemory` if an allocation failed.
pub fn search(alloc: Global, inputs: &Inputs, capacity: u32) -> Result<Found, SearchFault>
    requires capacity { (1 ≤ capacity) × (capacity ≤ MOST_CAPACITY) }

    // The best setting is the optimum, the rows are a valid certificate of it, the row of each
    // fought setting lists exactly the fights that the rule above asks for, and `fights` counts
    // these. `NoCandidate` says that no setting assembles.
    ensures { MatchResult result (IsSearch (problem_of inputs.now) (Method.Dropping capacity)) (IsRefused (problem_of inputs.now)) }
{
    let aim = Aim::BEST;
    let method = Method::Dropping { capacity };
    let findings = search_for(alloc, inputs, aim, method, &mut Silent)?;
    match findings.into_found() {
        None => Err(SearchFault::NoCandidate),
        Some(found) => Ok(found),
    }
}

/// Finds the first `aim.keep` settings of the ranking by `method`, of those that total `aim.floor`
/// or more, and tells `watcher` after each fight and each setting how far the search is. The
/// ranking has the greatest total first, then the smaller index.
///
/// `Method::Dropping` drops a setting once its cap is below the floor, or does not beat the
/// `keep`-th setting of the ranking so far, if that many are ranked. The start setting plays all
/// its fights, since the others learn their order from them. A setting that shares the fights of
/// another is ranked with the total of the other. A floor drops settings before the ranking does,
/// and so saves fights. `search` is this search with `Aim::BEST`.
///
/// `Method::PlayingAll` visits the settings and plays their fights in the same orders, but drops
/// and remembers none: the row of each setting that assembles is `Cap` with all fights. Both find
/// the same settings, with the same totals.
///
/// # Errors
///
/// Those of `search`. That no setting reaches the floor is not a fault.
pub fn search_for<T: Watcher>(
    alloc: Global,
    inputs: &Inputs,
    aim: Aim,
    method: Method,
    watcher: &mut T,
) -> Result<Findings, SearchFault>
    requires aim { IsAim aim }
    requires capacity { HasCapacity method }

    // The ranking is exact, and each of its settings has a row with all fights, or one that refers
    // to such a row. The rows are a valid certificate of the first of it, or show that each
    // candidate totals less than the floor. The fights are those that the aim and the method ask
    // for. Some setting assembles, whether or not one reaches the floor.
    ensures { MatchResult result (λ f. IsSearchFor (problem_of inputs.now) aim method f × (0 < f.candidates)) (IsRefused (problem_of inputs.now)) }
{
    let mut state = State::begin(alloc, inputs, aim, method)?;
    for visits in 0..inputs.count() {
        state.visit(alloc, inputs, visits, watcher)?;
        watcher.see(standing(
            visits + 1,
            inputs.count(),
            &state.arena,
            state.found.ranking.first(),
        ));
    }
    let none_assembles = state.found.candidates == 0;
    if none_assembles {
        return Err(SearchFault::NoCandidate);
    }
    Ok(state.into_findings())
}

// Returns what a watcher is told after `settings` of `count` settings: the fights that the arena
// has counted, and the lead.
fn standing(settings: u32, count: u32, arena: &Arena<PackedCells>, lead: Option<Best>) -> Standing
    ensures { result ≡ record { settings = settings; count = count; fights = arena.now.fights; best = lead } }
{
    Standing {
        settings,
        count,
        fights: arena.fights(),
        best: lead,
    }
}
