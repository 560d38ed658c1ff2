//! The limit of a search, named as in `specs/Limits.antt`. Code writes `limits::NAME`, so that a
//! bare NAME in a clause is the definition.

/// The most settings that the cache of a search may hold.
pub const MOST_CAPACITY: u32 = 65_536;
