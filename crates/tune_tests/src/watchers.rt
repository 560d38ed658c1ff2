//! A watcher that notes what it is told.

use std::process::Abort;
use std::test::Fail;
use tune_problem::{Best, Inputs, Standing, Watcher};

// Keeps the first four standings, and counts all. `heard` stays true if `hear` gets 1, 2, .. and
// each standing has the last of these.
#[derive(Drop)]
pub(crate) struct Notes {
    count: usize,
    standings: [Option<Standing>; 4],
    pub(crate) fights: u64,
    heard: bool,
}

impl Notes {
    pub(crate) fn new() -> Notes {
        Notes {
            count: 0,
            standings: [None; 4],
            fights: 0,
            heard: true,
        }
    }

    // Expects `count` standings, `standings` first, each with the fights heard of so far.
    pub(crate) fn expect<A: Abort>(
        &self,
        rt: &A,
        standings: [Option<Standing>; 4],
        count: usize,
    ) -> Result<(), Fail> {
        assert_eq!(rt; self.standings, standings);
        assert_eq!(rt; self.count, count);
        assert!(rt; self.heard);
        Ok(())
    }
}

impl Watcher for Notes {
    fn begin(&mut self, _inputs: &Inputs) {}

    fn see(&mut self, standing: Standing) {
        if let Some(place) = self.standings.get_mut(self.count) {
            *place = Some(standing);
        }
        self.count = self.count.saturating_add(1);
        self.heard = self.heard && standing.fights == self.fights;
    }

    fn hear(&mut self, fights: u64) {
        self.fights = self.fights.saturating_add(1);
        self.heard = self.heard && fights == self.fights;
    }

    fn end(&mut self) {}
}

// Returns the standing after `settings` of `count` settings and `fights` fights.
pub(crate) fn after(
    settings: u32,
    count: u32,
    fights: u64,
    best: Option<Best>,
) -> Option<Standing> {
    Some(Standing {
        settings,
        count,
        fights,
        best,
    })
}
