//! Why a text is refused, in words, and the limits that faults are about.

use crate::telling::help_lines::{tell_bad_range, tell_help};
use crate::telling::line::line_of;
use crate::telling::{
    is_line_feed, line_at, records_in, tell_broken_limit, tell_fault, tell_greatest, tell_number,
    tell_record, tell_source,
};
use command_runs::tell;
use command_words::TuneWords;
use mars_fight::{ScheduleFault, ScheduleFaultKind};
use rc_asm::{AsmFault, AsmKind};
use rc_expand::ExpandKind;
use rc_instr::{Outlet, Rules, RulesError, WarriorError};
use std::alloc::Global;
use std::io::Write;
use tune_runs::{RawRules, TuneTexts};
use tune_template::{Template, TemplateFault, TemplateKind};

// Writes the limit that raw rules break, and the number that breaks it.
pub(crate) fn tell_rules<V: Write>(err: &mut Outlet<V>, raw: RawRules, error: RulesError) {
    let (limit, number) = match error {
        RulesError::Core => ("the core size is 8 to 65535", raw.core),
        RulesError::Cycles => ("the cycles are 1 to 1000000", raw.cycles),
        RulesError::Tasks => ("the tasks are 1 to 8000", raw.tasks),
        RulesError::Length => ("the length is 1 to 200", raw.length),
        RulesError::Distance => (
            "the distance is from the length to half of the core size",
            raw.distance,
        ),
    };
    tell_broken_limit(err, limit, u64::from(number));
}

// Writes the line of a text at which it does not assemble, and why.
pub(crate) fn tell_asm<V: Write>(
    err: &mut Outlet<V>,
    alloc: Global,
    rules: &Rules,
    file: &str,
    text: &[u8],
    fault: AsmFault,
) {
    tell_source(err, file, text, fault.line);
    match fault.kind {
        AsmKind::Warrior(WarriorError::TooLong) => {
            let most = u64::from(rules.length());
            tell_number(err, "  a warrior has at most ", most, " instructions\n");
        }
        AsmKind::TextTooLong => tell_text_length(err, text),
        kind => tell_fault(err, alloc, kind),
    }
    let line = line_at(text, fault.line.saturating_sub(1));
    if fault.kind == AsmKind::Expand(ExpandKind::DuplicateName) && is_of_label(alloc, line) {
        tell(err, &["  a word that is not an opcode is a label\n"]);
    }
    tell_help(err, alloc, text, line, fault.kind);
}

// Returns whether the name at fault in a line is a label: it is neither an EQU name nor a counter.
fn is_of_label(alloc: Global, line: &[u8]) -> bool {
    let line = line_of(alloc, line);
    !line.has(b"equ") && !line.has(b"for")
}

// Writes how long a text may be, and how long this one is.
fn tell_text_length<V: Write>(err: &mut Outlet<V>, text: &[u8]) {
    tell_broken_limit(err, "a text has at most 65536 bytes", text.len() as u64);
}

// Writes the line of a template that is at fault, and why.
pub(crate) fn tell_template<V: Write>(
    err: &mut Outlet<V>,
    alloc: Global,
    file: &str,
    text: &[u8],
    fault: TemplateFault,
) {
    let line = line_at(text, fault.line.saturating_sub(1));
    tell_source(err, file, text, fault.line);
    match fault.kind {
        TemplateKind::BadLine => {
            let form = "  a range line is `;@tune NAME LOW HIGH STEP START` and nothing else\n";
            tell(err, &[form]);
            tell_bad_range(err, line);
        }
        TemplateKind::StartOutside => {
            tell_fault(err, alloc, fault.kind);
            let help = "  help: the values are LOW, LOW + STEP and so on, up to HIGH\n";
            tell(err, &[help]);
        }
        TemplateKind::TooManyConstants => tell(
            err,
            &["  a template has at most 8 constants; this line has the ninth\n"],
        ),
        TemplateKind::TooManyVectors => tell_number(
            err,
            "  a template has at most 1000000 settings; up to this line there are ",
            settings_up_to(alloc, text, fault.line),
            "\n",
        ),
        TemplateKind::TextTooLong => tell_text_length(err, text),
        kind => tell_fault(err, alloc, kind),
    }
}

// Counts the settings of the range lines up to a line. The last of them is the first with which
// there are more than 1000000, so the product cannot overflow.
fn settings_up_to(alloc: Global, text: &[u8], last: u64) -> u64 {
    let mut product: u64 = 1;
    for line in text.split(is_line_feed).take(last as usize) {
        product = product.saturating_mul(values_of(alloc, line));
    }
    product
}

// Returns how many values the constant of a line has, or 1 if the line has none.
fn values_of(alloc: Global, line: &[u8]) -> u64 {
    match Template::read(alloc, line) {
        Ok(template) => u64::from(template.count()),
        Err(_) => 1,
    }
}

// Writes the record of a schedule that is at fault, and why.
pub(crate) fn tell_schedule<V: Write>(
    err: &mut Outlet<V>,
    alloc: Global,
    words: &TuneWords<'_>,
    texts: &TuneTexts<'_>,
    fault: ScheduleFault,
) {
    tell_record(err, words.schedule, texts.schedule, fault.row);
    match fault.kind {
        ScheduleFaultKind::BadPosition => tell_positions(err, texts.rules),
        ScheduleFaultKind::NoSuchOpponent => {
            tell_greatest(
                err,
                "indices of opponents are 0 to",
                (words.opponents.len() as u64).saturating_sub(1),
            );
        }
        ScheduleFaultKind::TooMany => {
            let fights = records_in(texts.schedule).saturating_sub(1);
            tell_broken_limit(err, "a schedule has at most 10000 fights", fights);
        }
        kind => tell_fault(err, alloc, kind),
    }
}

// Writes where an opponent can be loaded.
pub(crate) fn tell_positions<V: Write>(err: &mut Outlet<V>, rules: &Rules) {
    let last = rules.core().saturating_sub(rules.distance());
    tell_number(err, "  positions are ", u64::from(rules.distance()), " to ");
    tell_number(err, "", u64::from(last), "\n");
}
