//! Warnings: what has no effect in a template or a schedule.

use crate::telling::line::has_join;
use crate::telling::{is_gap, is_line_feed, is_semicolon, is_word, tell_line, tell_number};
use command_runs::{tell, tell_bytes};
use mars_fight::Fight;
use rc_asm::limits::MOST_BYTES;
use rc_instr::Outlet;
use rc_text::{Lexer, is_same_word};
use std::alloc::Global;
use std::io::Write;
use tune_template::{Template, is_range_line};

// Some editors begin a file with it.
const BYTE_ORDER_MARK: &[u8] = b"\xef\xbb\xbf";

// Writes the lines of a template that look like range lines and are not, and the constants that no
// line uses.
pub(crate) fn tell_template_notes<V: Write>(
    err: &mut Outlet<V>,
    alloc: Global,
    file: &str,
    text: &[u8],
) {
    tell_lost_ranges(err, file, text);
    if let Ok(template) = Template::read(alloc, text) {
        tell_unused(err, file, &template);
    }
}

// Writes the opponents that no fight names.
pub(crate) fn tell_idle<V: Write>(err: &mut Outlet<V>, opponents: &[String], fights: &[Fight]) {
    let mut index: u32 = 0;
    for name in opponents {
        if !is_named(fights, index) {
            tell_number(err, "  no fight names opponent ", u64::from(index), ", ");
            tell(err, &[name.as_str(), "\n"]);
        }
        index = index.saturating_add(1);
    }
}

// Returns whether a fight names an opponent.
fn is_named(fights: &[Fight], opponent: u32) -> bool {
    for fight in fights {
        if fight.opponent == opponent {
            return true;
        }
    }
    false
}

// Writes the lines of a template that look like range lines and are not. Looks into no text that is
// too long, since it may have any number of them.
pub(crate) fn tell_lost_ranges<V: Write>(err: &mut Outlet<V>, file: &str, text: &[u8]) {
    if text.len() > MOST_BYTES {
        return;
    }
    let mut number: u64 = 0;
    for line in text.split(is_line_feed) {
        number = number.saturating_add(1);
        if has_lost_range(line) {
            tell_line(err, file, number, line);
            tell(err, &[why_lost(line)]);
        }
    }
}

fn why_lost(line: &[u8]) -> &'static str {
    if line.starts_with(BYTE_ORDER_MARK) {
        "  ignored: a byte order mark is before `;@tune`\n"
    } else {
        "  ignored: `;@tune` has to be the very front of its line, in small letters\n"
    }
}

// Returns whether a line that is not a range line has a comment whose first word is `@tune`, in
// capital or small letters.
fn has_lost_range(line: &[u8]) -> bool {
    !is_range_line(line) && line.split(is_semicolon).skip(1).any(begins_as_range)
}

// Returns whether the first word of a comment is `@tune`, ignoring case.
fn begins_as_range(comment: &[u8]) -> bool {
    let word = comment.split(is_gap).find(is_word).unwrap_or(b"");
    is_same_word(word, b"@tune")
}

// Writes which constants of a template no line uses, or that it has no range line.
pub(crate) fn tell_unused<V: Write>(err: &mut Outlet<V>, file: &str, template: &Template) {
    if template.names().is_empty() {
        tell(
            err,
            &["  ", file, " has no range line, so it has one setting\n"],
        );
    }
    for name in template.names() {
        if !is_token(template.text(), name.as_slice()) {
            tell(err, &["  no line of ", file, " uses the constant "]);
            tell_bytes(err, name.as_slice());
            tell(err, &["\n"]);
        }
    }
}

// Returns whether a name is a token of a text, also after END. Returns true if it may be joined, or
// a token is at fault: most such texts do not assemble, and a note would mislead.
fn is_token(text: &[u8], name: &[u8]) -> bool {
    if has_join(text) {
        return true;
    }
    let mut lexer = Lexer::new(text);
    for _token in 0..text.len() {
        match lexer.next_token() {
            Ok(Some(token)) => {
                if text.get(token.lo..token.hi) == Some(name) {
                    return true;
                }
            }
            Ok(None) => return false,
            Err(_) => return true,
        }
    }
    false
}
