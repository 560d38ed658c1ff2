//! The limits of a template, named as in `specs/Limits.antt`. Code writes `limits::NAME`, so that a
//! bare NAME in a clause is the definition.

// The most constants of a template.
pub(crate) const MOST_CONSTANTS: usize = 8;

// The most settings of a template.
pub(crate) const MOST_SETTINGS: u64 = 1_000_000;
