//! Lines `help: ..` after the reason of a refusal: what to write in place of what is refused here.

use crate::telling::line::{Line, bad_byte, before_signs, line_of};
use crate::telling::names_in::{Meaning, definition_of, like_name, range_of, unknown_name};
use crate::telling::{is_gap, is_word, tell_name, tell_number};
use command_runs::{tell, tell_bytes};
use rc_asm::AsmKind;
use rc_expand::ExpandKind;
use rc_instr::{Outlet, WarriorError};
use rc_text::{EvalFault, LexFault, is_reserved_name};
use std::alloc::Global;
use std::io::Write;

// Writes what helps with a text that does not assemble. `line` is the line at fault.
pub(crate) fn tell_help<V: Write>(
    err: &mut Outlet<V>,
    alloc: Global,
    text: &[u8],
    line: &[u8],
    kind: AsmKind,
) {
    match kind {
        AsmKind::Expand(ExpandKind::Text(LexFault::BadByte)) => tell_byte(err, line),
        AsmKind::Expand(ExpandKind::DuplicateName) => tell_duplicate(err, alloc, text, line),
        AsmKind::Value(EvalFault::UnknownName) => tell_unknown(err, alloc, text, line),
        _ => {}
    }
    if let Some(help) = help_of(kind, &line_of(alloc, line)) {
        tell(err, &["  help: ", help, "\n"]);
        if is_of_pmars(kind) {
            let way = "  help: or rewrite what pMARS takes: cwtune-adapt FILE > adapted.red\n";
            tell(err, &[way]);
        }
    }
}

// Returns whether pMARS may take a text with this fault, so that `cwtune-adapt` helps. A duplicate
// label gets help only if it is an opcode of P-space, for which there is no other way.
fn is_of_pmars(kind: AsmKind) -> bool {
    match kind {
        AsmKind::Expand(ExpandKind::Text(fault)) => fault == LexFault::NumberTooLarge,
        AsmKind::Expand(kind) => kind != ExpandKind::DuplicateName,
        AsmKind::Value(_) | AsmKind::MissingOperand => true,
        _ => false,
    }
}

// Returns what to write in place of a construct of pMARS that is refused here.
fn help_of(kind: AsmKind, line: &Line<'_>) -> Option<&'static str> {
    match kind {
        AsmKind::Expand(kind) => help_of_expansion(kind, line),
        AsmKind::Value(fault) => help_of_value(fault, line),
        AsmKind::UnknownOpcode => p_space_help(line),
        AsmKind::MissingOperand if line.has(b"org") => Some("write `ORG 0`"),
        AsmKind::Warrior(WarriorError::BadStart) => Some("`ORG 0` starts at the first instruction"),
        AsmKind::Warrior(WarriorError::Empty) => Some("`DAT 0` is the shortest warrior"),
        _ => None,
    }
}

fn p_space_help(line: &Line<'_>) -> Option<&'static str> {
    if line.has(b"ldp") || line.has(b"stp") {
        Some("LDP and STP have no equivalent: there is no P-space")
    } else if line.has(b"pin") {
        Some("take the line out: without LDP and STP, PIN does nothing")
    } else {
        None
    }
}

fn help_of_expansion(kind: ExpandKind, line: &Line<'_>) -> Option<&'static str> {
    match kind {
        ExpandKind::BadDirective => help_of_directive(line),
        ExpandKind::CountRefused => help_of_count(line),
        ExpandKind::ForWithoutRof => Some("close each FOR with a ROF, before END"),
        ExpandKind::ForTooDeep => Some(
            "write the lines of the innermost block out, as often as its count says",
        ),
        ExpandKind::DuplicateName => p_space_help(line),
        ExpandKind::Text(LexFault::NumberTooLarge) => Some("write the number modulo the core size"),
        _ => None,
    }
}

fn help_of_directive(line: &Line<'_>) -> Option<&'static str> {
    match (line.position(b"equ"), line.position(b"rof")) {
        (Some(0), _) => Some(
            "an EQU has a name and one line here: write its other lines at each use of the name",
        ),
        (Some(1), _) => Some("move the EQU before the FOR of the block"),
        (Some(_), _) => Some("write an EQU line for each name"),
        (None, Some(0)) => Some("write `;` before the words after ROF"),
        (None, Some(_)) => Some("put the label on a line of its own, after ROF"),
        (None, None) => None,
    }
}

fn help_of_count(line: &Line<'_>) -> Option<&'static str> {
    if line.has(b"CURLINE") {
        Some("CURLINE has no value in a count: write the number of instructions before it")
    } else if line.has_name_after(b"for") {
        Some(
            "a count is at most 4096, of numbers, EQU names, constants and counters of outer blocks",
        )
    } else {
        None
    }
}

fn help_of_value(fault: EvalFault, line: &Line<'_>) -> Option<&'static str> {
    match fault {
        EvalFault::Overflow => Some("write numbers modulo the core size"),
        EvalFault::Syntax if line.begins_with(b"assert") => {
            Some("`; assert`, with a space, is a comment")
        }
        EvalFault::Syntax if line.has_join() => {
            Some("join the counter of the outer block first, as in `x&i&j`")
        }
        _ => None,
    }
}

const ZERO: &[u8] = b"0";

// Names that pMARS predefines, and this program does not.
const PMARS_NAMES: [&[u8]; 4] = [b"ROUNDS", b"PSPACESIZE", b"READLIMIT", b"WRITELIMIT"];

fn is_counter(alloc: Global, text: &[u8], name: &[u8]) -> bool {
    match definition_of(alloc, text, name) {
        Some(found) => found.meaning == Meaning::Counter,
        None => false,
    }
}

// Writes what helps with a malformed range line: words after START, or a STEP of 0.
pub(crate) fn tell_bad_range<V: Write>(err: &mut Outlet<V>, line: &[u8]) {
    let mut words = line.split(is_gap).filter(is_word).skip(4);
    let (step, start) = (words.next(), words.next());
    let help = match words.next() {
        Some(word) if word.starts_with(b";") => "a comment has to be on a line of its own",
        Some(_) => "take out what is after START",
        None if step == Some(ZERO) && start.is_some() => "STEP must be at least 1",
        None => return,
    };
    tell(err, &["  help: ", help, "\n"]);
}

// Writes the byte that begins no token, its column, and what to do about it.
fn tell_byte<V: Write>(err: &mut Outlet<V>, line: &[u8]) {
    let Some((column, byte)) = bad_byte(line) else {
        return;
    };
    tell_number(err, "  column ", column as u64, ": ");
    match byte {
        0xef if line.starts_with(b"\xef\xbb\xbf") => {
            let help = "a byte order mark\n  help: save the text without it\n";
            tell(err, &[help]);
        }
        b'\x0c' => tell(err, &["a form feed\n  help: write a space\n"]),
        b'=' => tell(
            err,
            &["`=`\n  help: `NAME EQU VALUE` gives a name a value, and `==` compares\n"],
        ),
        b' '..=b'~' => {
            tell_name(err, &[byte]);
            let help = "\n  help: prose needs a `;` before it, also in a block that is dropped\n";
            tell(err, &[help]);
        }
        _ => tell_number(err, "byte ", u64::from(byte), "\n"),
    }
}

// Writes which name that a line defines is also the constant of a range line.
fn tell_duplicate<V: Write>(err: &mut Outlet<V>, alloc: Global, text: &[u8], line: &[u8]) {
    for word in line_of(alloc, before_signs(line)).words.as_slice() {
        if is_reserved_name(*word) {
            return;
        }
        if let Some(number) = range_of(text, *word) {
            tell(err, &["  help: "]);
            tell_name(err, *word);
            let help = ": take the EQU out, or rename the label\n";
            tell_number(err, " has its values in line ", number, help);
            return;
        }
    }
}

// Writes which name has no value, and what is like it.
fn tell_unknown<V: Write>(err: &mut Outlet<V>, alloc: Global, text: &[u8], line: &[u8]) {
    let Some(name) = unknown_name(alloc, text, line) else {
        return;
    };
    tell(err, &["  "]);
    tell_name(err, name);
    tell(err, &[" has no value\n"]);
    if let Some(number) = range_of(text, name) {
        let help = ": `cwtune asm --setting start` makes a warrior of a template\n";
        tell_number(err, "  help: it is the constant of line ", number, help);
    } else if is_counter(alloc, text, name) {
        let help = "  help: a counter has no value in an EQU: write its text out in the block\n";
        tell(err, &[help]);
    } else if PMARS_NAMES.contains(&name) {
        tell(err, &["  help: write the number that pMARS gives it\n"]);
    } else if let Some(like) = like_name(alloc, text, name) {
        tell(err, &["  help: "]);
        tell_name(err, like);
        let help = " is another name: capital and small letters differ\n";
        tell(err, &[help]);
    }
}
