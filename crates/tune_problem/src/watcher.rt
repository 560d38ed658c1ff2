//! Watchers of searches and checks, which are told how far these are.

use crate::inputs::Inputs;

/// How far a search or a check is.
#[derive(Clone, Copy, Debug, PartialEq, Eq)]
pub struct Standing {
    /// The number of settings that are done.
    pub settings: u32,
    /// The number of settings in all. In a check of a share, those of the share.
    pub count: u32,
    /// The number of fights played so far.
    pub fights: u64,
    /// The best setting so far. In a check, the one that the certificate names.
    pub best: Option<Best>,
}

/// A setting and its total. Most often that is the best one, or the best so far; a ranking is a
/// list of these, the greatest total first, then the smaller index.
#[derive(Clone, Copy, Debug, PartialEq, Eq)]
pub struct Best {
    /// The index of the setting, from 0.
    pub vector: u32,
    /// Its total, or what a certificate claims for it.
    pub total: u32,
}

/// Hears how far a search or a check is. No result depends on it.
pub trait Watcher {
    /// Called by the runs of `tune_runs` before the search or the check, with what their texts
    /// mean. Searches and checks do not call it.
    fn begin(&mut self, inputs: &Inputs);

    /// Called by a search after each setting, and by a check after each row that is right.
    fn see(&mut self, standing: Standing);

    /// Called after each fight with the number of fights played so far. The settings that are done
    /// and the best are still those of the last `see`; before the first `see` there are none.
    fn hear(&mut self, fights: u64);

    /// Called by the runs of `tune_runs` when the search or the check has ended, before anything is
    /// written. Searches and checks do not call it.
    fn end(&mut self);
}

/// A watcher that does nothing.
#[derive(Drop)]
pub struct Silent;

impl Watcher for Silent {
    fn begin(&mut self, _inputs: &Inputs) {}

    fn see(&mut self, _standing: Standing) {}

    fn hear(&mut self, _fights: u64) {}

    fn end(&mut self) {}
}
