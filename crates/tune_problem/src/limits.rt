//! The limits of a tuning, named as in `specs/Limits.antt`. Code writes `limits::NAME`, so that a
//! bare NAME in a clause is the definition.

/// The most opponents of a tuning.
pub const MOST_OPPONENTS: usize = 64;

/// The most settings that are kept of a ranking.
pub const MOST_KEPT: u32 = 1_000;
