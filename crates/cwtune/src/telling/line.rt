//! A line of Redcode as explanations look at it: its words, without its comment.

use crate::telling::{is_line_feed, is_semicolon};
use rc_text::{Lexer, NameClass, is_blank, is_same_word, name_class};
use std::alloc::Global;

// A line of a text, without its comment, and its words: names, opcodes without a modifier, numbers.
#[derive(Drop)]
pub(crate) struct Line<'a> {
    code: &'a [u8],
    pub(crate) words: Vec<&'a [u8]>,
}

// Reads a line. If memory runs out, the last words are missing.
pub(crate) fn line_of<'a>(alloc: Global, line: &'a [u8]) -> Line<'a> {
    let code = code_of(line);
    let mut words = Vec::new(alloc);
    for word in code.split(is_between_words) {
        let word = before_dot(word);
        if !word.is_empty() {
            let _ = words.push(word);
        }
    }
    Line { code, words }
}

// Returns a line up to its comment. The assertion in a comment `;assert` is code.
fn code_of(line: &[u8]) -> &[u8] {
    let line = match line.strip_prefix(b";") {
        Some(rest) if is_assertion(rest) => rest,
        _ => line,
    };
    line.split(is_semicolon).next().unwrap_or(b"")
}

fn is_assertion(comment: &[u8]) -> bool {
    let word = comment.split(is_between_words).next().unwrap_or(b"");
    is_same_word(word, b"assert")
}

// Returns whether a byte cannot be in a word.
fn is_between_words(byte: &u8) -> bool {
    *byte != b'_' && *byte != b'.' && !byte.is_ascii_alphanumeric()
}

// Returns the front of a line, up to the first sign that labels do not have.
pub(crate) fn before_signs(line: &[u8]) -> &[u8] {
    line.split(ends_labels).next().unwrap_or(line)
}

fn ends_labels(byte: &u8) -> bool {
    !is_blank(*byte) && !b"_:&".contains(byte) && !byte.is_ascii_alphanumeric()
}

fn before_dot(word: &[u8]) -> &[u8] {
    word.split(is_dot).next().unwrap_or(word)
}

fn is_dot(byte: &u8) -> bool {
    *byte == b'.'
}

// Returns whether a word is a name that the language does not reserve or predefine.
pub(crate) fn is_free(word: &&[u8]) -> bool {
    name_class(*word) == NameClass::Free
}

impl<'a> Line<'a> {
    // Returns the index of the first word that equals `name`, ignoring case.
    pub(crate) fn position(&self, name: &[u8]) -> Option<usize> {
        let mut index: usize = 0;
        for word in self.words.as_slice() {
            if is_same_word(*word, name) {
                return Some(index);
            }
            index = index.saturating_add(1);
        }
        None
    }

    pub(crate) fn has(&self, name: &[u8]) -> bool {
        self.position(name).is_some()
    }

    pub(crate) fn begins_with(&self, name: &[u8]) -> bool {
        self.position(name) == Some(0)
    }

    // Returns whether a free name comes anywhere after the first `word`.
    pub(crate) fn has_name_after(&self, word: &[u8]) -> bool {
        match self.position(word) {
            Some(index) => self.words.iter().skip(index).skip(1).any(is_free),
            None => false,
        }
    }

    pub(crate) fn has_join(&self) -> bool {
        joins(self.code)
    }
}

// Returns whether a line of a text joins a counter to a name.
pub(crate) fn has_join(text: &[u8]) -> bool {
    text.split(is_line_feed).any(joins)
}

// Returns whether a `&` of a line joins a counter: one that is not half of `&&`.
fn joins(line: &[u8]) -> bool {
    let mut is_single = false;
    for byte in code_of(line) {
        if *byte == b'&' {
            is_single = !is_single;
        } else if is_single {
            return true;
        }
    }
    is_single
}

// Returns the column, from 1, of the byte of a line that begins no token, and that byte.
pub(crate) fn bad_byte(line: &[u8]) -> Option<(usize, u8)> {
    let mut lexer = Lexer::new(line);
    let mut end: usize = 0;
    for _token in 0..line.len() {
        match lexer.next_token() {
            Ok(Some(token)) => end = token.hi,
            Ok(None) => return None,
            Err(_) => return first_from(line, end),
        }
    }
    None
}

// Returns the column, from 1, and the value of the first byte from `start` on that is not a blank.
fn first_from(line: &[u8], start: usize) -> Option<(usize, u8)> {
    let mut column = start;
    for byte in line.iter().skip(start) {
        column = column.saturating_add(1);
        if !is_blank(*byte) {
            return Some((column, *byte));
        }
    }
    None
}
