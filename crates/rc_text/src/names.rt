//! The values of names in an expression.
ghost use Rattle.std.specs.Prelude.{◌≡◌, List, ℕ, ℤ, Option};
ghost use Rattle.rc_text.specs.Symbols.{name_of};

use crate::token::Token;

/// What gives the names in an expression their values, such as labels their addresses.
pub trait Names {
    ghost meaning: { Self → List ℕ → Option ℤ };

    /// Returns the value of the name that a token spells, joined counters included, or `None`.
    fn value(&self, source: &[u8], name: &Token) -> Option<i64>
        ensures { result ≡ meaning self.now (name_of source.now name.now) };
}
