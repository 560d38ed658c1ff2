//! Tokens, their kinds, and the counters joined to them.
ghost use Rattle.std.specs.Prelude.{◌≡◌, ◌↔◌, ◌<◌, ◌≤◌, ◌++◌, ◌∷◌, [], length, IsTrue, slice_range};

use arrayvec::ArrayVec;
use std::marker::Model;

/// A sign: punctuation, an operator, or an addressing mode (the 1994 draft; the signs of two bytes,
/// `!`, `:` and `&` are from pMARS).
#[derive(Clone, Copy, Debug, PartialEq, Eq)]
pub enum Sign {
    /// `.`
    Dot,
    /// `,`
    Comma,
    /// `:`
    Colon,
    /// `&`
    Ampersand,
    /// `#`
    Hash,
    /// `$`
    Dollar,
    /// `@`
    At,
    /// `{`
    OpenBrace,
    /// `}`
    CloseBrace,
    /// `(`
    Open,
    /// `)`
    Close,
    /// `+`
    Plus,
    /// `-`
    Minus,
    /// `*`
    Star,
    /// `/`
    Slash,
    /// `%`
    Percent,
    /// `!`
    Bang,
    /// `<`
    Less,
    /// `>`
    Greater,
    /// `<=`
    LessEqual,
    /// `>=`
    GreaterEqual,
    /// `==`
    Equal,
    /// `!=`
    NotEqual,
    /// `&&`
    And,
    /// `||`
    Or,
}

/// The kind of a token.
#[derive(Clone, Copy, Debug, PartialEq, Eq)]
pub enum Kind {
    /// A letter or `_`, then letters, digits and `_`.
    Name,
    /// Decimal digits, with their value.
    Number(u32),
    /// A sign, the longest from its first byte.
    Sign(Sign),
    /// `;assert`, in letters of any case, if it comes first on its line and a blank follows.
    Assert,
    /// A line feed.
    LineEnd,
}

/// The counters joined to a name, in order, at most 8.
#[derive(Clone, Debug, Drop)]
pub struct Joined {
    counters: ArrayVec<u16, 8>,
}

impl Model for Joined {
    ghost use Rattle.std.specs.Prelude.{List, ℕ, ◌≤◌, length};

    ghost Value = { List ℕ };

    ghost view = { λ j. j.counters.items };
}

impl Joined {
    /// Creates an empty list, without allocating.
    pub fn new() -> Self
        ensures { result ≡ [] }
    {
        Joined {
            counters: ArrayVec::new(),
        }
    }

    /// Returns the number of counters, 0 to 8.
    pub fn len(&self) -> usize
        ensures value { result ≡ length self.now }
        ensures most { result ≤ 8 }
    {
        self.counters.len()
    }

    /// Returns whether no counter is joined.
    pub fn is_empty(&self) -> bool
        ensures { IsTrue result ↔ (self.now ≡ []) }
    {
        self.counters.is_empty()
    }

    /// Returns the counters in the order in which they were joined.
    pub fn as_slice(&self) -> &[u16]
        ensures { result.now ≡ self.now }
    {
        self.counters.as_slice()
    }

    /// Joins one more counter at the end. There must be fewer than 8.
    pub fn push(&mut self, counter: u16)
        requires { length self.old < 8 }
        ensures { self.new ≡ self.old ++ counter ∷ [] }
    {
        self.counters.push(counter);
    }
}

/// A token of a source text. Its span is the bytes from `lo` to `hi`, `hi` excluded.
#[derive(Clone, Debug, Drop)]
pub struct Token {
    /// The kind. A counter that was replaced by its value is a `Number`, with the span of its name.
    pub kind: Kind,
    /// The index of its first byte in the source.
    pub lo: usize,
    /// The index after its last byte.
    pub hi: usize,
    /// Its line, from 1.
    pub line: u64,
    /// The counters that the expansion joined to its name; always empty from a lexer.
    pub joined: Joined,
}

/// Returns the bytes of a token's span. A span that goes beyond `source` is cut off at its end.
pub fn text_of<'a>(source: &'a [u8], token: &Token) -> &'a [u8]
    ensures { result.now ≡ slice_range source.now token.now.lo token.now.hi }
{
    let hi = token.hi.min(source.len());
    let lo = token.lo.min(hi);
    &source[lo..hi]
}
