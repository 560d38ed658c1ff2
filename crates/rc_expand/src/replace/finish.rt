//! From an unrolled line to a line of the expansion.
ghost use Rattle.std.specs.Prelude.{◌≡◌, ◌++◌, ◌≤◌, length, option_to_list, flat_map, IfOk, OnOk, Ok};
ghost use Rattle.rc_expand.specs.Results.{Returns};
ghost use Rattle.rc_expand.specs.Contexts.{seen_context};
ghost use Rattle.rc_expand.specs.Replace.{exempt_len_of_code, exempt_len, line_tokens};
ghost use Rattle.rc_expand.specs.Replace.Lines.{line_word, own_labels, other_labels, made_line, line_of};

use crate::context::Context;
use crate::equ_tokens::replace_tokens;
use crate::fault::ExpandFault;
use crate::line::{Line, LineWord, Tokens};
use crate::read::labels::label_token;
use crate::read::raw_line::{RawLine, RawWord};
use crate::read::words::has_modifier;
use crate::tokens::clone_token;
use rc_text::Token;
use std::alloc::{AllocError, Global};

// Splits the labels at the first that is not a single name. That one and those after it are not
// labels but tokens of a line of code.
pub(crate) fn split_labels<'a>(
    alloc: Global,
    source: &[u8],
    labels: &'a [Tokens],
) -> Result<(Tokens, &'a [Tokens]), AllocError>
    ensures own { IfOk result (λ p. p.0 ≡ own_labels source.now labels.now) }
    ensures others { IfOk result (λ p. p.1.now ≡ other_labels source.now labels.now) }
{
    let mut own = Vec::with_capacity(alloc, labels.len())?;
    let mut rest = labels;
    while let Some((label, after)) = rest.split_first() {
        match label_token(source, label.as_slice()) {
            None => return Ok((Tokens::from_vec(own), rest)),
            Some(token) => own.push(clone_token(token)?)?,
        }
        rest = after;
    }
    Ok((Tokens::from_vec(own), rest))
}

// Makes a `Line` from an unrolled line, whose labels `split_labels` has split into `labels` and
// `others`.
#[tactic(auto, unfolding(crate::specs::Replace::Lines::line_of))]
pub(crate) fn line_of(
    context: &Context,
    raw: &RawLine,
    labels: Tokens,
    others: &[Tokens],
) -> Result<Line, ExpandFault>
    requires labels { labels ≡ own_labels context.now.source.now raw.now.labels }
    requires others { others.now ≡ other_labels context.now.source.now raw.now.labels }
    ensures { Returns (λ l. l) result (line_of (seen_context context.now) raw.now) }
{
    if others.is_empty() {
        return made_line(context, raw, labels, raw.word, raw.rest.as_slice());
    }
    let tokens = as_code_tokens(context.alloc, others, &raw.directive, raw.rest.as_slice())?;
    made_line(context, raw, labels, RawWord::Code, &tokens)
}

// Concatenates the tokens of a line whose would-be labels are code: theirs, then the directive,
// then the rest.
fn as_code_tokens(
    alloc: Global,
    others: &[Tokens],
    directive: &Option<Token>,
    rest: &[Token],
) -> Result<Vec<Token>, AllocError>
    ensures { IfOk result (λ v. v.items ≡ flat_map (λ x. x) others.now ++ (option_to_list directive.now ++ rest.now)) }
{
    let mut all = Vec::new(alloc);
    for label in others {
        push_tokens(&mut all, label.as_slice())?;
    }
    push_directive(&mut all, directive)?;
    push_tokens(&mut all, rest)?;
    Ok(all)
}

fn push_directive(all: &mut Vec<Token>, directive: &Option<Token>) -> Result<(), AllocError>
    ensures { OnOk result (all.new.items ≡ all.old.items ++ option_to_list directive.now) }
{
    if let Some(token) = directive {
        all.push(clone_token(token)?)?;
    }
    Ok(())
}

fn push_tokens(all: &mut Vec<Token>, tokens: &[Token]) -> Result<(), AllocError>
    ensures { OnOk result (all.new.items ≡ all.old.items ++ tokens.now) }
{
    for token in tokens {
        all.push(clone_token(token)?)?;
    }
    Ok(())
}

// Makes a line of the expansion from `tokens`, with their EQU names replaced.
fn made_line(
    context: &Context,
    raw: &RawLine,
    labels: Tokens,
    word: RawWord,
    tokens: &[Token],
) -> Result<Line, ExpandFault>
    requires { labels ≡ own_labels context.now.source.now raw.now.labels }
    ensures { Returns (λ l. l) result (made_line (seen_context context.now) raw.now word tokens.now) }
{
    let tokens = line_tokens(context, raw.number, word, tokens)?;
    Ok(Line {
        number: raw.number,
        labels,
        word: line_word(word),
        tokens,
    })
}

// Replaces the EQU names of a line.
fn line_tokens(
    context: &Context,
    line: u64,
    word: RawWord,
    tokens: &[Token],
) -> Result<Tokens, ExpandFault>
    ensures { Returns (λ t. t) result (line_tokens (seen_context context.now) line word tokens.now) }
{
    let (front, back) = tokens.split_at(exempt_len(context.source, word, tokens));
    let mut kept = Vec::with_capacity(context.alloc, tokens.len())?;
    push_tokens(&mut kept, front)?;
    replace_tokens(context, line, kept, back)
}

// Counts the tokens at the front of a line in which EQU names are not replaced.
fn exempt_len(source: &[u8], word: RawWord, tokens: &[Token]) -> usize
    ensures exempt { result ≡ exempt_len source.now word tokens.now }
    ensures room { result ≤ length tokens.now }
{
    match word {
        RawWord::Code => exempt_len_of_code(source, tokens),
        _ => 0,
    }
}

// Counts the tokens at the front of a line of code in which EQU names are not replaced: the first
// one, or an opcode, a dot and a modifier.
fn exempt_len_of_code(source: &[u8], tokens: &[Token]) -> usize
    ensures exempt { result ≡ exempt_len_of_code source.now tokens.now }
    ensures room { result ≤ length tokens.now }
{
    match tokens {
        [] => 0,
        [first, dot, modifier, ..] => if has_modifier(source, first, dot, modifier) {
            3
        } else {
            1
        },
        _ => 1,
    }
}

// Converts the word of a line. EQU, FOR and ROF do not come here: the passes have dropped or
// unrolled these lines.
fn line_word(word: RawWord) -> LineWord
    ensures { result ≡ line_word word }
{
    match word {
        RawWord::Bare => LineWord::Bare,
        RawWord::Org => LineWord::Org,
        RawWord::End => LineWord::End,
        RawWord::Assert => LineWord::Assert,
        _ => LineWord::Code,
    }
}
