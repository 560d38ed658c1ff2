//! Rankings: the settings that a search keeps.
ghost use Rattle.std.specs.Prelude.{◌≡◌, ◌≤◌, ◌∷◌, ◌++◌, [], take, drop, length, OnErr, OnOk};
ghost use Rattle.tune_problem.specs.Ranking.{beats_lead, contends, first_of, next_ranking, ranked};

use crate::aim::Aim;
use crate::problem::beats;
use crate::watcher::Best;
use std::alloc::{AllocError, Global};
use std::marker::Model;

/// Settings with their totals, the greatest total first, then the smaller index.
///
/// Contracts see a list.
#[derive(Debug, Drop)]
pub struct Ranking {
    settings: Vec<Best>,
}

impl Model for Ranking {
    ghost use Rattle.std.specs.Prelude.{List};
    ghost use Rattle.tune_problem.specs.declared.watcher.Best.{Best};

    ghost Value = { List Best };

    ghost view = { λ r. r.settings.items };
}

impl Ranking {
    /// Makes a ranking without settings.
    pub fn new(alloc: Global) -> Ranking
        ensures { result ≡ [] }
    {
        Ranking {
            settings: Vec::new(alloc),
        }
    }

    /// Returns the settings, in order.
    pub fn as_slice(&self) -> &[Best]
        ensures { result.now ≡ self.now }
    {
        self.settings.as_slice()
    }

    /// Returns the first setting, which leads.
    pub fn first(&self) -> Option<Best>
        ensures { result ≡ first_of self.now }
    {
        self.settings.first().copied()
    }

    /// Ranks setting `vector` if the total `cap` contends: puts it before the first setting that it
    /// beats, and removes the last one if there are then more than `aim` keeps. The cap of a
    /// dropped setting may be passed, too: it does not contend.
    ///
    /// Fails only if out of memory. The ranking is then as it was.
    pub fn rank(&mut self, aim: Aim, cap: u32, vector: u32) -> Result<(), AllocError>
        ensures ranked { OnOk result (self.new ≡ next_ranking aim cap vector self.old) }
        ensures kept { OnErr result (self.new ≡ self.old) }
    {
        if !contends(aim, cap, vector, self.settings.as_slice()) {
            return Ok(());
        }
        let best = Best { vector, total: cap };
        let at = place_of(best, self.settings.as_slice());
        self.settings.insert(at, best)?;
        self.settings.truncate(aim.keep as usize);
        Ok(())
    }
}

/// Returns whether cap `cap` of setting `vector` contends: it reaches the floor of `aim`, and beats
/// the last setting that `aim` keeps of `ranking`. If `ranking` is shorter than that, the cap need
/// only reach the floor.
pub fn contends(aim: Aim, cap: u32, vector: u32, ranking: &[Best]) -> bool
    ensures { result ≡ contends aim cap vector ranking.now }
{
    aim.floor <= cap
        && beats_lead(
            cap,
            vector,
            ranking.get((aim.keep as usize).saturating_sub(1)).copied(),
        )
}

// Returns whether cap `cap` of setting `vector` beats the lead. Every cap does if there is none.
fn beats_lead(cap: u32, vector: u32, lead: Option<Best>) -> bool
    ensures { result ≡ beats_lead cap vector lead }
{
    match lead {
        None => true,
        Some(lead) => beats(cap, vector, lead),
    }
}

// Returns the index at which a setting goes into a ranking: that of the first setting that it
// beats, or the end if it beats none.
fn place_of(best: Best, ranking: &[Best]) -> usize
    ensures within { result ≤ length ranking.now }
    ensures place { ranked best ranking.now ≡ take result ranking.now ++ best ∷ drop result ranking.now }
{
    for (at, other) in ranking.iter().enumerate() {
        if beats(best.total, best.vector, *other) {
            return at;
        }
    }
    ranking.len()
}
