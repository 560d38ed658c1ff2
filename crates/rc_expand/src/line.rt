//! The lines of an expansion.
ghost use Rattle.std.specs.Prelude.{◌≡◌};

use rc_text::Token;
use std::marker::Model;

/// Tokens in order.
#[derive(Debug, Drop)]
pub struct Tokens {
    tokens: Vec<Token>,
}

impl Model for Tokens {
    ghost use Rattle.std.specs.Prelude.{List};
    ghost use Rattle.rc_text.specs.declared.token.Token.{Token};

    ghost Value = { List Token };

    ghost view = { λ t. t.tokens.items };
}

impl Tokens {
    pub(crate) fn from_vec(tokens: Vec<Token>) -> Self
        ensures { result ≡ tokens.items }
    {
        Tokens { tokens }
    }

    pub(crate) fn into_vec(self) -> Vec<Token>
        ensures { result.items ≡ self }
    {
        self.tokens
    }

    /// Returns the tokens.
    pub fn as_slice(&self) -> &[Token]
        ensures { result.now ≡ self.now }
    {
        self.tokens.as_slice()
    }
}

/// The kind of a line of an expansion.
#[derive(Clone, Copy, Debug, PartialEq, Eq)]
pub enum LineWord {
    /// Labels alone.
    Bare,
    /// An instruction, or something that the assembler will refuse as one.
    Code,
    /// ORG.
    Org,
    /// END.
    End,
    /// `;assert`.
    Assert,
}

/// A line of an expansion.
#[derive(Debug, Drop)]
pub struct Line {
    /// The line in the source, from 1. A copy has the number of the line that was copied.
    pub number: u64,
    /// The labels of the line, each a single name, joined counters included.
    pub labels: Tokens,
    /// The kind of the line.
    pub word: LineWord,
    /// What comes after the labels, or after ORG, END or `;assert`, without the line end.
    pub tokens: Tokens,
}

/// Lines in order.
#[derive(Debug, Drop)]
pub struct Lines {
    lines: Vec<Line>,
}

impl Model for Lines {
    ghost use Rattle.std.specs.Prelude.{List};
    ghost use Rattle.rc_expand.specs.declared.line.Line.{Line};

    ghost Value = { List Line };

    ghost view = { λ l. l.lines.items };
}

impl Lines {
    pub(crate) fn from_vec(lines: Vec<Line>) -> Self
        ensures { result ≡ lines.items }
    {
        Lines { lines }
    }

    /// Returns the lines.
    pub fn as_slice(&self) -> &[Line]
        ensures { result.now ≡ self.now }
    {
        self.lines.as_slice()
    }
}

/// The result of an expansion.
#[derive(Debug, Drop)]
pub struct Expanded {
    /// The lines, in order.
    pub lines: Lines,
}
