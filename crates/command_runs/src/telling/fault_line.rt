//! Lines of faults: `refused: ` and the names of the fault from outside in, or `failed: ` and what
//! failed. `host`, `program` and `files` write the lines `error: `.
//!
//! A line is written in pieces and takes no memory, so that it can report that memory ran out. The
//! names are those of the variants, so renaming a variant changes a line.
use crate::telling::tell;
use itoa::Buffer;
use mars_core::Side;
use mars_fight::ScheduleFault;
use rc_asm::{AsmFault, AsmKind};
use rc_expand::ExpandKind;
use rc_instr::{LoadFault, Outlet};
use std::fmt;
use std::fmt::{Debug, Write as _};
use std::io::Write;
use tune_runs::RunFault;
use tune_template::TemplateFault;

// Writes the line of a fault: `failed: Write`, `failed: OutOfMemory`, or `refused: ` and its names.
pub(crate) fn tell_run_fault<V: Write>(err: &mut Outlet<V>, fault: RunFault) {
    match fault {
        RunFault::Write | RunFault::OutOfMemory => tell(err, &["failed:"]),
        _ => tell(err, &["refused:"]),
    }
    tell_names(err, fault);
    tell(err, &["\n"]);
}

// Writes the line of a text of a fight that does not assemble: `refused: SIDE FILE line N` and the
// names of the fault. `side` is `Candidate` or `Opponent`.
pub(crate) fn tell_text_fault<V: Write>(
    err: &mut Outlet<V>,
    side: &str,
    file: &str,
    fault: AsmFault,
) {
    tell(err, &["refused: ", side, " ", file]);
    tell_asm_names(err, fault);
    tell(err, &["\n"]);
}

// Writes the line of a file: `failed: read NAME` or `failed: create NAME`.
pub(crate) fn tell_file_fault<V: Write>(err: &mut Outlet<V>, action: &str, name: &str) {
    tell(err, &["failed: ", action, " ", name, "\n"]);
}

// What `write!` writes to: each piece goes to `err` at once, so that none is kept in memory.
#[derive(Drop)]
struct Teller<'a, V: Write> {
    err: &'a mut Outlet<V>,
}

impl<'a, V: Write> fmt::Write for Teller<'a, V> {
    fn write_str(&mut self, text: &str) -> fmt::Result {
        tell(self.err, &[text]);
        Ok(())
    }
}

fn side_name(side: Side) -> &'static str {
    match side {
        Side::Candidate => "candidate",
        Side::Opponent => "opponent",
    }
}

// Writes a space, then a word.
fn tell_word<V: Write>(err: &mut Outlet<V>, word: &str) {
    tell(err, &[" ", word]);
}

// Writes ` line N`.
fn tell_line_number<V: Write>(err: &mut Outlet<V>, line: u64) {
    tell_word(err, "line");
    tell_word(err, Buffer::new().format(line))
}

// Writes a space, then the name of the variant `fault`, which holds no value.
fn tell_variant<V: Write, D: Debug + Drop>(err: &mut Outlet<V>, fault: &D) {
    let mut teller = Teller { err };
    let _ = write!(teller, " {fault:?}");
}

fn tell_expand_names<V: Write>(err: &mut Outlet<V>, kind: ExpandKind) {
    match kind {
        ExpandKind::Text(fault) => {
            tell_word(err, "Text");
            tell_variant(err, &fault)
        }
        _ => tell_variant(err, &kind),
    }
}

/// Writes ` line N`, then the names of the fault.
pub fn tell_asm_names<V: Write>(err: &mut Outlet<V>, fault: AsmFault) {
    tell_line_number(err, fault.line);
    match fault.kind {
        AsmKind::Expand(kind) => {
            tell_word(err, "Expand");
            tell_expand_names(err, kind)
        }
        AsmKind::Value(fault) => {
            tell_word(err, "Value");
            tell_variant(err, &fault)
        }
        AsmKind::Warrior(error) => {
            tell_word(err, "Warrior");
            tell_variant(err, &error)
        }
        kind => tell_variant(err, &kind),
    }
}

fn tell_load_names<V: Write>(err: &mut Outlet<V>, fault: LoadFault) {
    match fault {
        LoadFault::Malformed { line } => {
            tell_word(err, "Malformed");
            tell_line_number(err, line)
        }
        LoadFault::Warrior(error) => {
            tell_word(err, "Warrior");
            tell_variant(err, &error)
        }
        LoadFault::OutOfMemory => tell_variant(err, &fault),
    }
}

fn tell_template_names<V: Write>(err: &mut Outlet<V>, fault: TemplateFault) {
    tell_word(err, "Template");
    tell_line_number(err, fault.line);
    tell_variant(err, &fault.kind)
}

fn tell_schedule_names<V: Write>(err: &mut Outlet<V>, fault: ScheduleFault) {
    tell_word(err, "Schedule");
    tell_word(err, "row");
    tell_word(err, Buffer::new().format(fault.row));
    tell_variant(err, &fault.kind)
}

fn tell_names<V: Write>(err: &mut Outlet<V>, fault: RunFault) {
    match fault {
        RunFault::FightText { line } => {
            tell_word(err, "FightText");
            tell_line_number(err, line)
        }
        RunFault::Rules(error) => {
            tell_word(err, "Rules");
            tell_variant(err, &error)
        }
        RunFault::Load { side, fault } => {
            tell_word(err, "Load");
            tell_word(err, side_name(side));
            tell_load_names(err, fault)
        }
        RunFault::Asm(fault) => {
            tell_word(err, "Asm");
            tell_asm_names(err, fault)
        }
        RunFault::Template(fault) => tell_template_names(err, fault),
        RunFault::NoSuchSetting { index } => {
            tell_word(err, "NoSuchSetting");
            tell_word(err, Buffer::new().format(index))
        }
        RunFault::Opponent { index, fault } => {
            tell_word(err, "Opponent");
            tell_word(err, Buffer::new().format(index));
            tell_asm_names(err, fault)
        }
        RunFault::Schedule(fault) => tell_schedule_names(err, fault),
        _ => tell_variant(err, &fault),
    }
}
