//! The lexer: from bytes to tokens.
ghost use Rattle.std.specs.Prelude.{◌≡◌, ◌+◌, ◌^◌, ◌<◌, length};
ghost use Rattle.rc_text.specs.Tokens.{token_of};

use crate::bytes::blanks_len;
use crate::fault::LexFault;
use crate::header::header_of;
use crate::lexeme::{Lexeme, lexeme_of};
use crate::token::{Joined, Kind, Token};
use std::marker::Model;

/// Yields the tokens of a text one by one.
///
/// A token is the longest one from its first byte. Blanks and comments are skipped, and so is a
/// header: every line up to and including the first that begins with `;redcode`, in letters of any
/// case (pMARS). Each line feed is a token; the end of the text is not.
#[derive(Drop)]
pub struct Lexer<'a> {
    source: &'a [u8],
    at: usize,
    line: u64,
    // Set while only blanks come before `at` on its line.
    at_line_start: bool,
}

impl<'a> Model for Lexer<'a> {
    ghost use Rattle.std.specs.Prelude.{◌≤◌, ◌+◌, length};
    ghost use Rattle.rc_text.specs.Tokens.{LexerView, lexer_at};

    ghost Value = { LexerView };

    ghost view = { λ l. lexer_at l.source.now l.at_line_start l.at l.line };

    ghost invariant = { λ l. (l.at ≤ length l.source.now) × (l.line ≤ l.at + 1) };
}

impl<'a> Lexer<'a> {
    ghost use Rattle.rc_text.specs.Tokens.{new_lexer, TakesToken};

    /// Creates a lexer before the first token of `source`.
    pub fn new(source: &'a [u8]) -> Self
        ensures { result ≡ new_lexer source.now }
    {
        let header = header_of(source);
        Lexer {
            source,
            at: header.bytes,
            line: 1 + header.lines,
            at_line_start: true,
        }
    }

    /// Returns the line of the next byte, from 1. After a fault it is the line of the fault.
    pub fn line(&self) -> u64
        ensures { result ≡ self.now.line }
    {
        self.line
    }

    /// Takes the next token, or returns `None` at the end of the text.
    ///
    /// Refuses a byte that no token begins with (`BadByte`) and a decimal above 4294967295
    /// (`NumberTooLarge`). At the end and at a fault nothing changes, so every later call returns
    /// the same.
    pub fn next_token(&mut self) -> Result<Option<Token>, LexFault>
        ensures { TakesToken self.old result self.new }
    {
        while self.at < self.source.len() {
            match lexeme_of(&self.source[self.at..], self.at_line_start) {
                Lexeme::Trivia(len) => {
                    self.at += len;
                    // Else each further blank would be a lexeme of its own.
                    self.at += blanks_len(&self.source[self.at..]);
                }
                Lexeme::LineFeed => {
                    let token = token_of(Kind::LineEnd, self.at, 1, self.line);
                    self.at += 1;
                    self.line += 1;
                    self.at_line_start = true;
                    return Ok(Some(token));
                }
                Lexeme::Token(len, kind) => {
                    let token = token_of(kind, self.at, len, self.line);
                    self.at += len;
                    self.at_line_start = false;
                    return Ok(Some(token));
                }
                Lexeme::Fault(fault) => return Err(fault),
            }
        }
        Ok(None)
    }
}

// Makes a token of `len` bytes without counters.
fn token_of(kind: Kind, lo: usize, len: usize, line: u64) -> Token
    requires { lo + len < 2 ^ 64 }
    ensures { result ≡ token_of kind lo len line }
{
    Token {
        kind,
        lo,
        hi: lo + len,
        line,
        joined: Joined::new(),
    }
}
