//! Parses fight texts: the lines `rules M C P L D`, `fight POSITION FIRST` and `candidate`, a load
//! file, the line `opponent`, a load file.
ghost use Rattle.std.specs.Prelude.{◌≡◌, ◌+◌, ◌==◌, length, position, MatchOption, MatchResult, Some, None, Ok, Err, true};
ghost use Rattle.mars_core.specs.declared.side.Side.{Side};
ghost use Rattle.rc_instr.specs.Rules.{rules_view};
ghost use Rattle.tune_runs.specs.FightLines.{cut_at, number_before, after_word, raw_rules, rules_line, mover_line, fight_line, parted};
ghost use Rattle.tune_runs.specs.FightText.{fight_words, line_feeds};
ghost use Rattle.tune_runs.specs.Given.{words_said};

use mars_core::Side;
use rc_instr::{RawRules, padded_decimal};

// What a fight text says. The load files are slices of the text.
#[derive(Clone, Copy)]
pub(crate) struct FightText<'a> {
    pub(crate) rules: RawRules,
    pub(crate) position: u32,
    pub(crate) first: Side,
    pub(crate) candidate: &'a [u8],
    pub(crate) opponent: &'a [u8],
}

// Parses a fight text, or returns its first malformed line, from 1. Without a line `opponent` that
// is the line after the last line feed.
#[tactic(auto, unfolding(crate::specs::FightText::fight_words))]
pub(crate) fn read_fight_text(text: &[u8]) -> Result<FightText<'_>, u64>
    ensures { MatchResult result (λ t. fight_words text.now ≡ Ok (words_said t)) (λ line. fight_words text.now ≡ Err line) }
{
    let Some((rules, second)) = rules_line(text) else {
        return Err(1);
    };
    let Some((position, first, third)) = fight_line(second) else {
        return Err(2);
    };
    let Some(files) = after_word(b"candidate\n", third) else {
        return Err(3);
    };
    match parted(files) {
        Some((candidate, opponent)) => Ok(FightText {
            rules,
            position,
            first,
            candidate,
            opponent,
        }),
        None => Err(line_feeds(text) as u64 + 1),
    }
}

fn index_of(byte: u8, bytes: &[u8]) -> Option<usize>
    ensures { result ≡ position (λ b. b == byte) bytes.now }
{
    bytes.iter().position(|b| *b == byte)
}

// Cuts at the first `byte`: returns what comes before and after it.
#[tactic(auto, using(std::proofs::lemmas::Slice::between_to_end), unfolding(crate::specs::FightLines::cut_at))]
fn cut_at(byte: u8, bytes: &[u8]) -> Option<(&[u8], &[u8])>
    ensures { MatchOption result (cut_at byte bytes.now ≡ None) (λ x. cut_at byte bytes.now ≡ Some (x.0.now, x.1.now)) }
{
    let at = index_of(byte, bytes)?;
    Some((&bytes[..at], &bytes[at + 1..]))
}

// Takes a decimal and the `byte` after it off the front.
#[tactic(auto, unfolding(crate::specs::FightLines::number_before))]
fn number_before(byte: u8, bytes: &[u8]) -> Option<(u32, &[u8])>
    ensures { MatchOption result (number_before byte bytes.now ≡ None) (λ x. number_before byte bytes.now ≡ Some (x.0, x.1.now)) }
{
    let (digits, rest) = cut_at(byte, bytes)?;
    Some((padded_decimal(digits)?, rest))
}

#[tactic(auto, unfolding(crate::specs::FightLines::after_word))]
fn after_word<'a>(word: &[u8], bytes: &'a [u8]) -> Option<&'a [u8]>
    ensures { MatchOption result (after_word word.now bytes.now ≡ None) (λ x. after_word word.now bytes.now ≡ Some x.now) }
{
    bytes.strip_prefix(word)
}

// Takes five decimals off the front, with single spaces between them and a line feed at the end.
#[tactic(auto, unfolding(crate::specs::FightLines::raw_rules))]
fn raw_rules(bytes: &[u8]) -> Option<(RawRules, &[u8])>
    ensures { MatchOption result (raw_rules bytes.now ≡ None)
        (λ x. raw_rules bytes.now ≡ Some (rules_view x.0.core x.0.cycles x.0.tasks x.0.length x.0.distance, x.1.now)) }
{
    let (core, bytes) = number_before(b' ', bytes)?;
    let (cycles, bytes) = number_before(b' ', bytes)?;
    let (tasks, bytes) = number_before(b' ', bytes)?;
    let (length, bytes) = number_before(b' ', bytes)?;
    let (distance, bytes) = number_before(b'\n', bytes)?;
    let raw = RawRules {
        core,
        cycles,
        tasks,
        length,
        distance,
    };
    Some((raw, bytes))
}

// Takes the line `rules M C P L D` off the front.
#[tactic(auto, unfolding(crate::specs::FightLines::rules_line))]
fn rules_line(bytes: &[u8]) -> Option<(RawRules, &[u8])>
    ensures { MatchOption result (rules_line bytes.now ≡ None)
        (λ x. rules_line bytes.now ≡ Some (rules_view x.0.core x.0.cycles x.0.tasks x.0.length x.0.distance, x.1.now)) }
{
    raw_rules(after_word(b"rules ", bytes)?)
}

// Takes the side that moves first, `c` or `o`, and a line feed off the front.
#[tactic(auto, unfolding(crate::specs::FightLines::mover_line))]
fn mover_line(bytes: &[u8]) -> Option<(Side, &[u8])>
    ensures { MatchOption result (mover_line bytes.now ≡ None) (λ x. mover_line bytes.now ≡ Some (x.0, x.1.now)) }
{
    if let Some(rest) = after_word(b"c\n", bytes) {
        return Some((Side::Candidate, rest));
    }
    let rest = after_word(b"o\n", bytes)?;
    Some((Side::Opponent, rest))
}

// Takes the line `fight POSITION FIRST` off the front.
#[tactic(auto, unfolding(crate::specs::FightLines::fight_line))]
fn fight_line(bytes: &[u8]) -> Option<(u32, Side, &[u8])>
    ensures { MatchOption result (fight_line bytes.now ≡ None) (λ x. fight_line bytes.now ≡ Some ((x.0, x.1), x.2.now)) }
{
    let bytes = after_word(b"fight ", bytes)?;
    let (position, bytes) = number_before(b' ', bytes)?;
    let (first, bytes) = mover_line(bytes)?;
    Some((position, first, bytes))
}

// Parts the two load files at the first line `opponent`.
fn parted(bytes: &[u8]) -> Option<(&[u8], &[u8])>
    ensures { MatchOption result (parted true bytes.now ≡ None) (λ x. parted true bytes.now ≡ Some (x.0.now, x.1.now)) }
{
    let mut begins = true;
    for at in 0..bytes.len() {
        if begins {
            if let Some(rest) = after_word(b"opponent\n", &bytes[at..]) {
                return Some((&bytes[..at], rest));
            }
        }
        begins = bytes[at] == b'\n';
    }
    None
}

fn line_feeds(text: &[u8]) -> usize
    ensures { result ≡ line_feeds text.now }
{
    text.iter().filter(|b| **b == b'\n').count()
}
