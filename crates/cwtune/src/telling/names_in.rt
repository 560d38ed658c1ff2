//! The names of a text: where one is defined, and which one of a line has no value. Header, END and
//! dropped blocks are not heeded, so an explanation may be missing, or show another line.

use crate::telling::line::{Line, is_free, line_of};
use crate::telling::{is_gap, is_line_feed, is_word};
use rc_text::{is_reserved_name, is_same_word};
use std::alloc::Global;
use tune_template::is_range_line;

// The most lines that are looked into for a name without a value.
const MOST_LINES: usize = 64;

// What a name is.
#[derive(Clone, Copy, PartialEq, Eq)]
pub(crate) enum Meaning {
    Label,
    Equ,
    // The counter of a block.
    Counter,
}

// Where a name is defined.
#[derive(Clone, Copy)]
pub(crate) struct Definition<'a> {
    pub(crate) meaning: Meaning,
    pub(crate) line: &'a [u8],
}

// Returns where a name is defined first.
pub(crate) fn definition_of<'a>(
    alloc: Global,
    text: &'a [u8],
    name: &[u8],
) -> Option<Definition<'a>> {
    for line in text.split(is_line_feed) {
        if let Some(meaning) = meaning_in(alloc, line, name) {
            return Some(Definition { meaning, line });
        }
    }
    None
}

// Returns the number of the range line that names a constant.
pub(crate) fn range_of<'a>(text: &'a [u8], name: &[u8]) -> Option<u64> {
    let mut number: u64 = 0;
    for line in text.split(is_line_feed) {
        number = number.saturating_add(1);
        if constant_in(line) == Some(name) {
            return Some(number);
        }
    }
    None
}

// Returns the name of the constant of a range line.
fn constant_in(line: &[u8]) -> Option<&[u8]> {
    if !is_range_line(line) {
        return None;
    }
    let rest = line.strip_prefix(b";@tune")?;
    rest.split(is_gap).find(is_word)
}

// Returns a word of `text` that equals `name` but for the case of its letters.
pub(crate) fn like_name<'a>(alloc: Global, text: &'a [u8], name: &[u8]) -> Option<&'a [u8]> {
    for line in text.split(is_line_feed) {
        if let Some(word) = like_in(alloc, line, name) {
            return Some(word);
        }
    }
    None
}

fn like_in<'a>(alloc: Global, line: &'a [u8], name: &[u8]) -> Option<&'a [u8]> {
    if let Some(word) = constant_in(line) {
        if is_like(word, name) {
            return Some(word);
        }
    }
    for word in line_of(alloc, line).words.as_slice() {
        if is_like(*word, name) {
            return Some(*word);
        }
    }
    None
}

fn is_like(word: &[u8], name: &[u8]) -> bool {
    word != name && is_same_word(word, name)
}

// Returns what a line makes of a name.
fn meaning_in(alloc: Global, line: &[u8], name: &[u8]) -> Option<Meaning> {
    let line = line_of(alloc, line);
    if line.begins_with(b"assert") {
        return None;
    }
    let mut is_there = false;
    for word in line.words.as_slice() {
        if is_reserved_name(*word) {
            return if is_there {
                Some(meaning_before(*word))
            } else {
                None
            };
        }
        is_there = is_there || *word == name;
    }
    if is_there { Some(Meaning::Label) } else { None }
}

// Returns what a name before an opcode or a directive is.
fn meaning_before(word: &[u8]) -> Meaning {
    if is_same_word(word, b"equ") {
        Meaning::Equ
    } else if is_same_word(word, b"for") {
        Meaning::Counter
    } else {
        Meaning::Label
    }
}

// Returns the first name of `line` that has no value in `text`. Looks into its EQU names, too. A
// line with a joining `&` is not looked into: its names may be parts of others.
pub(crate) fn unknown_name<'a>(alloc: Global, text: &'a [u8], line: &'a [u8]) -> Option<&'a [u8]> {
    let mut lines = Vec::new(alloc);
    let _ = lines.push(line);
    for index in 0..MOST_LINES {
        let line = match lines.get(index) {
            Some(line) => *line,
            None => return None,
        };
        if let Some(name) = unknown_in(alloc, text, line, index > 0, &mut lines) {
            return Some(name);
        }
    }
    None
}

// Returns the first name of a line without a value, and adds the lines of its EQU names to `lines`.
// An EQU line (`is_equ`) is in no block, so a counter has no value in it.
fn unknown_in<'a>(
    alloc: Global,
    text: &'a [u8],
    line: &'a [u8],
    is_equ: bool,
    lines: &mut Vec<&'a [u8]>,
) -> Option<&'a [u8]> {
    let line = line_of(alloc, line);
    if line.has_join() {
        return None;
    }
    for word in line.words.iter().skip(operands_from(&line)) {
        if is_free(word) && !may_be_joined(alloc, text, *word) {
            match definition_of(alloc, text, *word) {
                None => return Some(*word),
                Some(found) => match found.meaning {
                    Meaning::Equ => {
                        let _ = lines.push(found.line);
                    }
                    Meaning::Counter if is_equ => return Some(*word),
                    _ => {}
                },
            }
        }
    }
    None
}

// Returns whether `&` may make a name: it begins with a word of a line in which `&` joins.
fn may_be_joined(alloc: Global, text: &[u8], name: &[u8]) -> bool {
    for line in text.split(is_line_feed) {
        let line = line_of(alloc, line);
        if line.has_join() && has_front(&line, name) {
            return true;
        }
    }
    false
}

// Returns whether a name begins with a word of a line.
fn has_front(line: &Line<'_>, name: &[u8]) -> bool {
    for word in line.words.as_slice() {
        if name.starts_with(*word) {
            return true;
        }
    }
    false
}

// Returns the index of the first word after the opcode or the directive.
fn operands_from(line: &Line<'_>) -> usize {
    let mut index: usize = 0;
    for word in line.words.as_slice() {
        index = index.saturating_add(1);
        if is_reserved_name(*word) || is_same_word(*word, b"assert") {
            return index;
        }
    }
    index
}
