//! The limits of an expansion, named as in `specs/Limits.antt`. Code writes `limits::NAME`, so that
//! a bare NAME in a contract is the definition.

// The most unrolled lines and copies of blocks, counted together.
pub(crate) const MOST_LINES: usize = 4096;

// The most tokens of a line, or of a count, after replacement.
pub(crate) const MOST_TOKENS: usize = 4096;

// The most EQU names replaced in a line, or in a count.
pub(crate) const MOST_REPLACEMENTS: u32 = 4096;

// The greatest count of a FOR.
pub(crate) const MOST_COPIES: i64 = 4096;

// How deep FOR blocks may be nested.
pub(crate) const DEEPEST_BLOCK: usize = 8;

// How deep EQU names may be nested.
pub(crate) const DEEPEST_EQU: u8 = 16;

// The most counters joined to a name.
pub(crate) const MOST_JOINED: usize = 8;
