//! Explains a refusal after its line: the line of text at fault, and why it is refused.

use crate::telling::limits::{tell_asm, tell_positions, tell_rules, tell_schedule, tell_template};
use crate::telling::{tell_broken_limit, tell_greatest};
use command_runs::{Refused, tell, tell_asm_names};
use command_words::{DuelWords, TuneWords};
use rc_instr::Outlet;
use std::alloc::Global;
use std::io::Write;
use tune_runs::{DuelTexts, RunFault, TuneTexts};
use tune_template::Template;

// Writes what helps with a fault, if anything does. If no setting assembles, explains the fault of
// `setting`, an index in the template.
pub(crate) fn explain<V: Write>(
    err: &mut Outlet<V>,
    alloc: Global,
    refused: &Refused<'_>,
    fault: RunFault,
    setting: u32,
) {
    match refused {
        Refused::Rules(raw) => {
            if let RunFault::Rules(error) = fault {
                tell_rules(err, *raw, error);
            }
        }
        Refused::Warrior { rules, file, text } => match fault {
            RunFault::Asm(fault) => tell_asm(err, alloc, rules, file, text, fault),
            _ => explain_template(err, alloc, file, text, fault),
        },
        Refused::Template { file, text } => explain_template(err, alloc, file, text, fault),
        Refused::Duel { words, texts } => explain_duel(err, alloc, words, texts, fault),
        Refused::Tuning { words, texts } => {
            explain_tuning(err, alloc, words, texts, fault, setting);
        }
    }
}

fn explain_template<V: Write>(
    err: &mut Outlet<V>,
    alloc: Global,
    file: &str,
    text: &[u8],
    fault: RunFault,
) {
    match fault {
        RunFault::Template(fault) => tell_template(err, alloc, file, text, fault),
        RunFault::NoSuchSetting { index: _ } => {
            if let Ok(template) = Template::read(alloc, text) {
                tell_greatest(
                    err,
                    "indices of settings are 0 to",
                    u64::from(template.count() - 1),
                );
            }
        }
        _ => {}
    }
}

fn explain_duel<V: Write>(
    err: &mut Outlet<V>,
    alloc: Global,
    words: &DuelWords<'_>,
    texts: &DuelTexts<'_>,
    fault: RunFault,
) {
    let rules = texts.rules;
    match fault {
        RunFault::Asm(fault) => {
            tell_asm(err, alloc, rules, words.candidate, texts.candidate, fault);
        }
        RunFault::Opponent { index: _, fault } => {
            tell_asm(err, alloc, rules, words.opponent, texts.opponent, fault);
        }
        RunFault::Position => tell_positions(err, rules),
        _ => {}
    }
}

fn explain_tuning<V: Write>(
    err: &mut Outlet<V>,
    alloc: Global,
    words: &TuneWords<'_>,
    texts: &TuneTexts<'_>,
    fault: RunFault,
    setting: u32,
) {
    match fault {
        RunFault::TooManyOpponents => {
            let count = words.opponents.len() as u64;
            tell_broken_limit(err, "opponents are at most 64", count);
        }
        RunFault::Template(fault) => {
            tell_template(err, alloc, words.template, texts.template, fault);
        }
        RunFault::Opponent { index, fault } => {
            let index = index as usize;
            if let (Some(name), Some(text)) = (
                words.opponents.get(index),
                texts.opponents.get(index),
            ) {
                tell_asm(err, alloc, texts.rules, *name, text.as_slice(), fault);
            }
        }
        RunFault::Schedule(fault) => tell_schedule(err, alloc, words, texts, fault),
        RunFault::NoCandidate => explain_setting(err, alloc, words, texts, setting),
        _ => {}
    }
}

// Writes the fault of one setting.
fn explain_setting<V: Write>(
    err: &mut Outlet<V>,
    alloc: Global,
    words: &TuneWords<'_>,
    texts: &TuneTexts<'_>,
    setting: u32,
) {
    let Ok(template) = Template::read(alloc, texts.template) else {
        return;
    };
    if setting >= template.count() {
        return;
    }
    let Err(fault) = template.instance(alloc, setting, texts.rules) else {
        return;
    };
    tell(err, &["  one of the settings:"]);
    tell_asm_names(err, fault);
    tell(err, &["\n"]);
    tell_asm(
        err,
        alloc,
        texts.rules,
        words.template,
        texts.template,
        fault,
    );
}
