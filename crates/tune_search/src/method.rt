//! The methods of a search.
ghost use Rattle.std.specs.Prelude.{◌≡◌, if◌then◌else◌};
ghost use Rattle.tune_search.specs.Method.{capacity_of};
ghost use Rattle.tune_search.specs.Order.{drops};

use tune_problem::{Aim, Best, contends};

/// How a search goes. Both methods find the same settings, with the same totals.
#[derive(Clone, Copy, Debug, PartialEq, Eq)]
pub enum Method {
    /// Drops a setting once it cannot be one of those that are asked for, and remembers up to
    /// `capacity` settings, 1 to 65536, so that equal warriors share their fights.
    Dropping { capacity: u32 },
    /// Plays every fight of every setting that assembles.
    PlayingAll,
}

// Returns the number of settings that a search remembers, 0 if it shares no fights.
pub(crate) fn capacity_of(method: Method) -> u32
    ensures { result ≡ capacity_of method }
{
    match method {
        Method::Dropping { capacity } => capacity,
        Method::PlayingAll => 0,
    }
}

// Returns whether setting `vector`, at cap `cap`, is dropped against the floor and the ranking.
pub(crate) fn drops(method: Method, aim: Aim, cap: u32, vector: u32, ranking: &[Best]) -> bool
    ensures { result ≡ drops method aim cap vector ranking.now }
{
    match method {
        Method::Dropping { .. } => !contends(aim, cap, vector, ranking),
        Method::PlayingAll => false,
    }
}

// Returns the aim of a visit. The first one has no floor: the start setting plays all its fights,
// since the others learn their order from them.
pub(crate) fn aim_at(aim: Aim, first: bool) -> Aim
    ensures { result ≡ record { keep = aim.keep; floor = if first then 0 else aim.floor } }
{
    Aim {
        keep: aim.keep,
        floor: if first { 0 } else { aim.floor },
    }
}
