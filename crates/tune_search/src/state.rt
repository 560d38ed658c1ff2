//! A search under way: what it has found, and what it needs for the next visit.
ghost use Rattle.std.specs.Prelude.{◌≡◌, ◌+◌, ◌<◌, None, replicate, OnOk, IfOk};
ghost use Rattle.std.specs.Map.{lookup};
ghost use Rattle.tune_problem.specs.Problem.{problem_of};
ghost use Rattle.tune_search.specs.Cache.{same_text};
ghost use Rattle.tune_search.specs.Visits.{setting_visited};
ghost use Rattle.tune_problem.specs.Ranking.{IsAim};
ghost use Rattle.tune_search.specs.State.{IsCandidateAt, IsState, findings_of};

use crate::cache::Cache;
use crate::candidate::{Candidate, candidate_at};
use crate::fights::{Challenge, play_enough};
use crate::findings::Findings;
use crate::fought::Fought;
use crate::method::{Method, aim_at, capacity_of};
use crate::order::{all_in_order, learn_order, setting_visited, sort_by_index};
use crate::sharing::copies;
use mars_core::{Arena, PackedCells};
use rc_instr::OutOfMemory;
use std::alloc::{AllocError, Global};
use tune_problem::{Aim, Inputs, Listing, Ranking, Row, Rows, Watcher, cert_version, fight_count};

// A search between two visits.
#[derive(Drop)]
pub(crate) struct State {
    pub(crate) method: Method,
    pub(crate) aim: Aim,
    // Blank between visits. It counts the fights played.
    pub(crate) arena: Arena<PackedCells>,
    pub(crate) start: u32,
    // What is found so far. The first setting of its ranking leads. A row is `Refused` until its
    // setting is visited. The count of fights is set at the end.
    pub(crate) found: Findings,
    // The order in which the next visit plays its fights.
    pub(crate) order: Vec<u32>,
    // The recent settings.
    pub(crate) cache: Cache,
}

impl State {
    // Makes the state of a search before its first visit.
    pub(crate) fn begin(
        alloc: Global,
        inputs: &Inputs,
        aim: Aim,
        method: Method,
    ) -> Result<State, OutOfMemory>
        requires aim { IsAim aim }
        ensures { IfOk result (IsState inputs.now aim method 0) }
    {
        let arena = Arena::<PackedCells>::try_new(alloc, inputs.rules())?;
        let rows = blank_rows(alloc, inputs.count())?;
        let order = all_in_order(alloc, fight_count(inputs))?;
        let cache = Cache::with_capacity(alloc, capacity_of(method))?;
        Ok(State {
            method,
            aim,
            arena,
            start: inputs.start_number(),
            found: Findings {
                version: cert_version(inputs),
                ranking: Ranking::new(alloc),
                rows: Rows::from_vec(rows),
                fights: 0,
                candidates: 0,
                copied: None,
            },
            order,
            cache,
        })
    }

    // Visits the setting that comes after `visits` others. Writes its row if it assembles. If its
    // load file is in the cache, it shares the fights of the setting there; else it is fought, and
    // `watcher` hears of each fight.
    pub(crate) fn visit<T: Watcher>(
        &mut self,
        alloc: Global,
        inputs: &Inputs,
        visits: u32,
        watcher: &mut T,
    ) -> Result<(), OutOfMemory>
        requires visits { visits < (problem_of inputs.now).count }
        requires state { IsState inputs.now self.old.aim self.old.method visits self.old }
        ensures { OnOk result (IsState inputs.now self.old.aim self.old.method (visits + 1) self.new) }
    {
        let vector = setting_visited(self.start, visits);
        let Some(entrant) = candidate_at(alloc, inputs, vector)? else {
            return Ok(());
        };
        let Some(other) = self.cache.recall(&entrant.text) else {
            return self.fight(alloc, inputs, visits, entrant, watcher);
        };
        prove!(visits < inputs.count());
        self.found.candidates += 1;
        let copied = copies(self.start, other.vector, vector, self.found.ranking.first());
        self.found.ranking.rank(self.aim, other.cap, vector)?;
        if copied {
            let row = self.found.rows.as_slice()[other.vector as usize].copy(alloc)?;
            self.found.rows.set(vector as usize, row);
            self.found.copied = Some(vector);
            return Ok(());
        }
        self.found
            .rows
            .set(vector as usize, Row::Same(other.vector));
        Ok(())
    }

    // Plays the fights of a candidate whose load file is not in the cache, and puts that there.
    fn fight<T: Watcher>(
        &mut self,
        alloc: Global,
        inputs: &Inputs,
        visits: u32,
        entrant: Candidate,
        watcher: &mut T,
    ) -> Result<(), OutOfMemory>
        requires visits { visits < (problem_of inputs.now).count }
        requires state { IsState inputs.now self.old.aim self.old.method visits self.old }
        requires candidate { IsCandidateAt inputs.now (setting_visited (problem_of inputs.now).start visits) entrant }
        requires unknown { lookup (same_text entrant.text.items) self.old.cache.known ≡ None }
        ensures { OnOk result (IsState inputs.now self.old.aim self.old.method (visits + 1) self.new) }
    {
        prove!(visits < inputs.count());
        let challenge = Challenge {
            method: self.method,
            entrant: &entrant,
            order: &self.order,
            aim: aim_at(self.aim, visits == 0),
            ranking: self.found.ranking.as_slice(),
        };
        let bout = play_enough(alloc, &mut self.arena, inputs, &challenge, watcher)?;
        let Candidate { vector, text, .. } = entrant;
        learn_order(alloc, &mut self.order, visits == 0, &bout.listing)?;
        self.found.candidates += 1;
        self.found.ranking.rank(self.aim, bout.cap, vector)?;
        let row = Row::Cap(Listing::from_vec(sort_by_index(bout.listing)));
        self.found.rows.set(vector as usize, row);
        let cap = bout.cap;
        self.cache.remember(text, Fought { vector, cap })?;
        Ok(())
    }

    // Returns what was found, with the arena's count of fights.
    pub(crate) fn into_findings(self) -> Findings
        ensures { result ≡ findings_of self }
    {
        let State { arena, found, .. } = self;
        Findings {
            fights: arena.fights(),
            ..found
        }
    }
}

// Returns `count` rows `Refused`.
fn blank_rows(alloc: Global, count: u32) -> Result<Vec<Row>, AllocError>
    ensures { IfOk result (λ rows. rows.items ≡ replicate count Row.Refused) }
{
    let mut rows = Vec::with_capacity(alloc, count as usize)?;
    for _row in 0..count {
        rows.push(Row::Refused)?;
    }
    Ok(rows)
}
