//! The limit of a text, named as in `specs/Limits.antt`. Code writes `limits::MOST_BYTES`, so that
//! a bare `MOST_BYTES` in a clause is the definition.

/// The most bytes of a text.
pub const MOST_BYTES: usize = 65_536;
