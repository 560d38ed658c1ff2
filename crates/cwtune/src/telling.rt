//! Lines on standard error: of progress, and explanations, which are indented by two spaces. A
//! write that fails ends them silently.
//!
//! `refusal` picks the explanation of a fault: `limits` says why the text is refused, `help_lines`
//! what may have been meant.

pub(crate) mod help_lines;
pub(crate) mod limits;
pub(crate) mod line;
pub(crate) mod names_in;
pub(crate) mod notes;
pub(crate) mod progress;
pub(crate) mod refusal;

use command_runs::{tell, tell_bytes};
use itoa::Buffer;
use rc_instr::Outlet;
use rc_text::is_blank;
use std::alloc::Global;
use std::fmt::Display;
use std::io;
use std::io::Write;

// The most bytes of a line of text that are shown.
const MOST_SHOWN: usize = 200;

// The most bytes of a character of UTF-8 after its first.
const MOST_FURTHER_BYTES: usize = 3;

// Writes `before`, a number, and `after`.
pub(crate) fn tell_number<V: Write>(err: &mut Outlet<V>, before: &str, number: u64, after: &str) {
    tell(err, &[before, Buffer::new().format(number), after]);
}

// Writes the explanation `WHAT MOST`, as in `indices of settings are 0 to 118`.
pub(crate) fn tell_greatest<V: Write>(err: &mut Outlet<V>, what: &str, most: u64) {
    tell(err, &["  ", what]);
    tell_number(err, " ", most, "\n");
}

// Writes a limit, and the number that breaks it.
pub(crate) fn tell_broken_limit<V: Write>(err: &mut Outlet<V>, limit: &str, number: u64) {
    tell(err, &["  ", limit]);
    tell_number(err, ", not ", number, "\n");
}

// Writes a name and what the system said of it, or nothing if memory ran out: `fail` has said that
// already, and CERT.inputs is left out without a word.
pub(crate) fn tell_error<V: Write>(
    err: &mut Outlet<V>,
    alloc: Global,
    name: &str,
    error: &io::Error,
) {
    if error.kind() == io::ErrorKind::OutOfMemory {
        return;
    }
    if let Ok(said) = error.to_string(alloc) {
        tell(err, &["  ", name, ": ", said.as_str(), "\n"]);
    }
}

// Writes an explanation: what `Display` says of a fault.
pub(crate) fn tell_fault<V: Write, D: Display + Drop>(
    err: &mut Outlet<V>,
    alloc: Global,
    fault: D,
) {
    if let Ok(words) = fault.to_string(alloc) {
        tell(err, &["  ", words.as_str(), "\n"]);
    }
}

// Writes the line of a text with its file and its number, from 1, or the file alone for line 0.
pub(crate) fn tell_source<V: Write>(err: &mut Outlet<V>, file: &str, text: &[u8], number: u64) {
    if number == 0 {
        tell(err, &["  ", file, "\n"]);
    } else {
        tell_line(err, file, number, line_at(text, number - 1));
    }
}

// Writes a line of a text with its file and its number, from 1.
pub(crate) fn tell_line<V: Write>(err: &mut Outlet<V>, file: &str, number: u64, line: &[u8]) {
    tell(err, &["  ", file]);
    tell_number(err, ", line ", number, ": ");
    tell_shown(err, line);
    tell(err, &["\n"]);
}

// Writes the line at which record `row` of a schedule, from 0, begins. An empty line is not a
// record. A line end in quotes is a fault, so no record before the one at fault has any.
pub(crate) fn tell_record<V: Write>(err: &mut Outlet<V>, file: &str, text: &[u8], row: u64) {
    let mut number: u64 = 0;
    let mut left = row;
    for line in text.split(is_line_feed) {
        number = number.saturating_add(1);
        let records = records_of(line);
        if left < records {
            tell_source(err, file, text, number);
            return;
        }
        left -= records;
    }
}

// Returns whether a byte ends a line.
pub(crate) fn is_line_feed(byte: &u8) -> bool {
    *byte == b'\n'
}

// Returns whether a byte begins a comment.
pub(crate) fn is_semicolon(byte: &u8) -> bool {
    *byte == b';'
}

// Returns whether a byte is between the words of a range line.
pub(crate) fn is_gap(byte: &u8) -> bool {
    is_blank(*byte)
}

// Returns whether a piece between gaps is a word.
pub(crate) fn is_word(piece: &&[u8]) -> bool {
    !piece.is_empty()
}

fn is_return(byte: &u8) -> bool {
    *byte == b'\r'
}

// Counts the records of a table.
pub(crate) fn records_in(text: &[u8]) -> u64 {
    let mut count: u64 = 0;
    for line in text.split(is_line_feed) {
        count = count.saturating_add(records_of(line));
    }
    count
}

// Counts the records of a line. A carriage return ends a record, too.
fn records_of(line: &[u8]) -> u64 {
    line.split(is_return).filter(is_word).count() as u64
}

// Returns the line at an index, from 0, or nothing if the text has fewer.
pub(crate) fn line_at(text: &[u8], index: u64) -> &[u8] {
    text.split(is_line_feed).nth(index as usize).unwrap_or(b"")
}

// Writes the front of a line without the carriage return at its end, and `..` if it is longer. If
// the front has anything else that would steer a terminal, it is not shown.
fn tell_shown<V: Write>(err: &mut Outlet<V>, line: &[u8]) {
    let line = line.strip_suffix(b"\r").unwrap_or(line);
    let front = front_of(line);
    if !can_be_shown(front) {
        tell(err, &["(a terminal cannot show it)"]);
        return;
    }
    tell_bytes(err, front);
    if front.len() < line.len() {
        tell(err, &[".."]);
    }
}

// Returns whether nothing in a text steers a terminal. UTF-8 spells U+0080 to U+009F, controls, as
// C2 80 to C2 9F.
fn can_be_shown(text: &[u8]) -> bool {
    let mut last: u8 = 0;
    for byte in text {
        let is_below = *byte < b' ' && *byte != b'\t';
        if is_below || *byte == 127 || (last == 0xc2 && *byte >> 5 == 4) {
            return false;
        }
        last = *byte;
    }
    true
}

// Returns the first characters of a line, at most `MOST_SHOWN` bytes.
fn front_of(line: &[u8]) -> &[u8] {
    let mut end = MOST_SHOWN;
    for _byte in 0..MOST_FURTHER_BYTES {
        if is_within_character(line, end) {
            end = end.saturating_sub(1);
        }
    }
    line.get(..end).unwrap_or(line)
}

// Returns whether the byte at `index` continues a character of UTF-8.
fn is_within_character(line: &[u8], index: usize) -> bool {
    match line.get(index) {
        Some(byte) => *byte >> 6 == 2,
        None => false,
    }
}

// Writes a name in quotes.
pub(crate) fn tell_name<V: Write>(err: &mut Outlet<V>, name: &[u8]) {
    tell(err, &["`"]);
    tell_bytes(err, name);
    tell(err, &["`"]);
}
