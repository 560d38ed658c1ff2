//! What a run that failed was given, for the witness.

use command_words::{DuelWords, TuneWords};
use rc_instr::Rules;
use tune_runs::{DuelTexts, RawRules, TuneTexts};

/// What a run was given, as far as it was read when it was refused or failed.
#[derive(Clone, Copy)]
pub enum Refused<'a> {
    Rules(RawRules),
    /// A Redcode text, or a setting of a template.
    Warrior {
        rules: &'a Rules,
        file: &'a str,
        text: &'a [u8],
    },
    Template {
        file: &'a str,
        text: &'a [u8],
    },
    /// A fight of two texts.
    Duel {
        words: &'a DuelWords<'a>,
        texts: &'a DuelTexts<'a>,
    },
    /// A tuning, or a check.
    Tuning {
        words: &'a TuneWords<'a>,
        texts: &'a TuneTexts<'a>,
    },
}
