//! Statements: certificates with either answer.

use crate::cert::Rows;
use crate::watcher::Best;

/// What a certificate says of all settings: which is the best, or that none reaches a floor.
#[derive(Clone, Copy, Debug, PartialEq, Eq)]
pub enum Answer {
    /// This setting is the optimum, with this total.
    Best(Best),
    /// No setting totals this floor or more.
    NoneFrom(u32),
}

/// What the text of a certificate spells, whichever answer it has. With `Answer::Best` it is a
/// `Cert`.
#[derive(Debug, Drop)]
pub struct Statement {
    /// The version, 1 or 2. Version 1 is for schedules in which every fight has the weight 1.
    pub version: u32,
    /// The number of settings that the certificate claims.
    pub count: u32,
    /// Which setting is the best, or that none reaches a floor.
    pub answer: Answer,
    /// The rows, in the order of the settings. If the text was read, there may be more or fewer
    /// than `count`.
    pub rows: Rows,
}
