//! The limits of the rules, named as in `specs/Limits.antt`. Code writes `limits::NAME`, so that a
//! bare NAME in a clause is the definition.

/// The fewest cells of a core.
pub const LEAST_CORE: u32 = 8;

/// The most cells of a core.
pub const MOST_CORE: u32 = 65_535;

/// The most cycles of a fight.
pub const MOST_CYCLES: u32 = 1_000_000;

/// The most tasks of a warrior that rules may allow.
pub const MOST_TASKS: u32 = 8_000;

/// The most instructions of a warrior that rules may allow.
pub const MOST_LENGTH: u32 = 200;
