//! The range lines of a template.
ghost use Rattle.std.specs.Prelude.{◌≡◌, ◌<◌, ◌≤◌, ◌*◌, ◌∷◌, [], map, length, MatchOption, IfOk, OnOk, Ok, Err};
ghost use Rattle.rc_text.specs.NameClasses.{class_of};
ghost use Rattle.rc_expand.specs.Names.{is_among};
ghost use Rattle.rc_instr.specs.Results.{mapped};
ghost use Rattle.tune_template.specs.declared.fault.TemplateKind.TheVariants.{BadLine};
ghost use Rattle.tune_template.specs.Faults.{Returns};
ghost use Rattle.tune_template.specs.Limits.{MOST_CONSTANTS, MOST_SETTINGS};
ghost use Rattle.tune_template.specs.Lines.{words_of};
ghost use Rattle.tune_template.specs.Ranges.{Ranges, ranges, range_of_words, name_checked, span_of_words, with_range, next_range};
ghost use Rattle.tune_template.specs.Steps.{seen_ranges, HasValues, AreCounted};

use crate::fault::{TemplateFault, TemplateKind};
use crate::limits;
use crate::lines::first_word;
use crate::numbers::{signed_number, step_number};
use crate::span::Span;
use rc_text::{NameClass, name_class};
use std::alloc::Global;

// The constants and their spans so far, and how many settings they have.
#[derive(Debug, Drop)]
pub(crate) struct RangesSoFar {
    pub(crate) names: Vec<Vec<u8>>,
    pub(crate) spans: Vec<Span>,
    pub(crate) count: u32,
}

// The five words of a range line.
#[derive(Clone, Copy)]
struct Words<'a> {
    name: &'a [u8],
    low: &'a [u8],
    high: &'a [u8],
    step: &'a [u8],
    start: &'a [u8],
}

impl RangesSoFar {
    pub(crate) fn new(alloc: Global) -> Self
        ensures read { seen_ranges result ≡ ranges [] [] }
        ensures counted { AreCounted (seen_ranges result) result.count }
    {
        RangesSoFar {
            names: Vec::new(alloc),
            spans: Vec::new(alloc),
            count: 1,
        }
    }

    // Adds a constant and its span.
    pub(crate) fn push(
        &mut self,
        alloc: Global,
        name: &[u8],
        span: Span,
    ) -> Result<(), TemplateFault>
        requires counted { AreCounted (seen_ranges self.old) self.old.count }
        requires room { length self.old.names.items < MOST_CONSTANTS }
        requires values { HasValues span }
        requires few { self.old.count * span.count ≤ MOST_SETTINGS }
        ensures added { Returns (λ u. seen_ranges self.new) result (Ok (with_range (seen_ranges self.old) (name.now, span))) }
        ensures counted { OnOk result (AreCounted (seen_ranges self.new) self.new.count) }
    {
        self.names.push(name.to_vec(alloc)?)?;
        self.spans.push(span)?;
        self.count *= span.count;
        Ok(())
    }

    // Reads the next constant and its span from a range line.
    #[tactic(auto, unfolding(crate::specs::Ranges::range_of_words))]
    pub(crate) fn next_range<'a>(&self, line: &'a [u8]) -> Result<(&'a [u8], Span), TemplateKind>
        requires line { 6 ≤ length line.now }
        requires counted { AreCounted (seen_ranges self.now) self.now.count }
        ensures next { mapped (λ p. (p.0.now, p.1)) result ≡ next_range (seen_ranges self.now) line.now }
        ensures room { OnOk result (length self.now.names.items < MOST_CONSTANTS) }
        ensures values { IfOk result (λ p. HasValues p.1 × (self.now.count * p.1.count ≤ MOST_SETTINGS)) }
    {
        if self.names.len() >= limits::MOST_CONSTANTS {
            return Err(TemplateKind::TooManyConstants);
        }
        let (_, rest) = line.split_at(6);
        let Some(words) = five_words(rest) else {
            return Err(TemplateKind::BadLine);
        };
        let span = span_of_words(&self.names, &words)?;
        if u64::from(self.count) * u64::from(span.count) > limits::MOST_SETTINGS {
            return Err(TemplateKind::TooManyVectors);
        }
        Ok((words.name, span))
    }
}

// Splits a line into words. Returns `None` unless they are five.
#[tactic(auto, unfolding(crate::specs::Ranges::range_of_words))]
fn five_words<'a>(line: &'a [u8]) -> Option<Words<'a>>
    ensures { MatchOption result ((r : Ranges) → range_of_words r (words_of line.now) ≡ Err BadLine)
        (λ w. words_of line.now ≡ w.name.now ∷ w.low.now ∷ w.high.now ∷ w.step.now ∷ w.start.now ∷ []) }
{
    let (name, rest) = first_word(line)?;
    let (low, rest) = first_word(rest)?;
    let (high, rest) = first_word(rest)?;
    let (step, rest) = first_word(rest)?;
    let (start, rest) = first_word(rest)?;
    match first_word(rest) {
        None => Some(Words {
            name,
            low,
            high,
            step,
            start,
        }),
        Some(_) => None,
    }
}

fn is_among(names: &[Vec<u8>], name: &[u8]) -> bool
    ensures { result ≡ is_among (map (λ n. n.items) names.now) name.now }
{
    let mut rest = names;
    while let Some((other, after)) = rest.split_first() {
        if other.as_slice() == name {
            return true;
        }
        rest = after;
    }
    false
}

// Refuses a name that cannot be the next constant.
fn check_name(names: &[Vec<u8>], name: &[u8]) -> Result<(), TemplateKind>
    ensures { result ≡ name_checked (map (λ n. n.items) names.now) (class_of name.now) name.now }
{
    match name_class(name) {
        NameClass::NoName => Err(TemplateKind::BadLine),
        NameClass::Reserved => Err(TemplateKind::ReservedName),
        NameClass::Predefined => Err(TemplateKind::ReservedName),
        NameClass::Free => if is_among(names, name) {
            Err(TemplateKind::DuplicateName)
        } else {
            Ok(())
        },
    }
}

// Makes the span of a line. Refuses a faulty number before a faulty name.
#[tactic(auto, unfolding(crate::specs::Ranges::span_of_words))]
fn span_of_words(names: &[Vec<u8>], words: &Words) -> Result<Span, TemplateKind>
    ensures span { let w = words.now in result ≡ span_of_words (map (λ n. n.items) names.now) w.name.now w.low.now w.high.now w.step.now w.start.now }
    ensures values { IfOk result HasValues }
{
    let low = signed_number(words.low).ok_or(TemplateKind::BadLine)?;
    let high = signed_number(words.high).ok_or(TemplateKind::BadLine)?;
    let step = step_number(words.step).ok_or(TemplateKind::BadLine)?;
    let start = signed_number(words.start).ok_or(TemplateKind::BadLine)?;
    check_name(names, words.name)?;
    Span::try_new(low, high, step, start)
}
