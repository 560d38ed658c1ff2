//! What a search with an aim finds.
ghost use Rattle.std.specs.Prelude.{◌≡◌};
ghost use Rattle.std.specs.Option.{option_map};
ghost use Rattle.tune_search.specs.Findings.{found_of};
ghost use Rattle.tune_problem.specs.Ranking.{first_of};

use tune_problem::{Found, Ranking, Rows};

/// What a search with an aim finds.
#[derive(Debug, Drop)]
pub struct Findings {
    /// The version of its certificate: 1 if every fight has the weight 1, and otherwise 2.
    pub version: u32,
    /// The first settings of the ranking that total the floor or more, at most as many as the aim
    /// keeps, each with its total. The greatest total is first, then the smaller index.
    pub ranking: Ranking,
    /// A row for each setting.
    pub rows: Rows,
    /// The number of fights played.
    pub fights: u64,
    /// The number of settings that assemble.
    pub candidates: u32,
    /// The index of the setting whose row is a copy of the start setting's, if there is one: it has
    /// the same warrior and the smaller index.
    pub copied: Option<u32>,
}

impl Findings {
    /// Returns the findings as a `Found`, or `None` if no setting is ranked.
    pub fn into_found(self) -> Option<Found>
        ensures { result ≡ option_map (found_of self) (first_of self.ranking) }
    {
        let Findings {
            version,
            ranking,
            rows,
            fights,
            candidates,
            copied,
        } = self;
        match ranking.first() {
            None => None,
            Some(best) => Some(Found {
                version,
                best: best.vector,
                total: best.total,
                rows,
                fights,
                candidates,
                copied,
            }),
        }
    }
}
