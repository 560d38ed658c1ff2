//! The limits of an expression, named as in `specs/`. Code writes `limits::DEEPEST`, so that a bare
//! `DEEPEST` in a clause is the definition.

// How deep parentheses may be nested.
pub(crate) const DEEPEST: u8 = 64;

// The level of `||`, the loosest operator.
pub(crate) const LOOSEST_LEVEL: u8 = 1;
