//! The limits of a schedule, named as in `specs/Limits.antt`. Code writes `limits::NAME`, so that a
//! bare NAME in a clause is the definition.

// The most fights of a schedule.
pub(crate) const MOST_FIGHTS: usize = 10_000;

// The greatest weight of a fight.
pub(crate) const MOST_WEIGHT: u32 = 1000;
