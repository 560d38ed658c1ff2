//! From tokens to lines.
ghost use Rattle.std.specs.Prelude.{◌≡◌, ◌≢◌, ◌++◌, [], ◌+◌, ◌≤◌, ◌&&◌, IsTrue, length, drop, IfOk, MatchResult, Ok, Err, None};
ghost use Rattle.rc_text.specs.Tokens.{TakesToken};
ghost use Rattle.rc_text.specs.Gaps.{is_line_end};
ghost use Rattle.rc_expand.specs.Read.Lines.{raw_line_of, is_unreserved_name, is_ampersand, label_goes_on, tail_len, begins_label, label_split, line_of_tokens, has_end};
ghost use Rattle.rc_expand.specs.Results.{Returns};
ghost use Rattle.rc_expand.specs.Read.{text_lines};
ghost use Rattle.rc_expand.specs.Read.Faults.{IsEnding};

use crate::fault::{ExpandFault, ExpandKind, at_line};
use crate::line::Tokens;
use crate::read::raw_line::{Labels, RawLine, RawWord};
use crate::read::words::{is_unreserved_name, word_of};
use crate::tokens::{clone_token, clone_tokens, is_ampersand, is_colon};
use rc_text::{Kind, Lexer, Token};
use std::alloc::{AllocError, Global};

// Reads the lines of a text, up to the first with END.
pub(crate) fn read_lines(alloc: Global, source: &[u8]) -> Result<Vec<RawLine>, ExpandFault>
    ensures { Returns (λ v. v.items) result (text_lines source.now) }
{
    let mut lexer = Lexer::new(source);
    let mut lines = Vec::new(alloc);
    let mut line = Vec::new(alloc);
    while let Some(token) = next_token(&mut lexer)? {
        if is_line_end(&token) {
            if push_line(alloc, source, &mut lines, &mut line)? {
                return Ok(lines);
            }
            line.clear();
        } else {
            line.push(token)?;
        }
    }
    push_line(alloc, source, &mut lines, &mut line)?;
    Ok(lines)
}

// Takes the next token. A fault is reported at the line of the lexer.
fn next_token(lexer: &mut Lexer) -> Result<Option<Token>, ExpandFault>
    ensures { MatchResult result (λ o. TakesToken lexer.old (Ok o) lexer.new) (λ e. (lexer.old.tokens ≡ []) × (lexer.old.ending ≢ None) × IsEnding lexer.old e) }
{
    match lexer.next_token() {
        Ok(token) => Ok(token),
        Err(fault) => Err(at_line(lexer.line(), ExpandKind::Text(fault))),
    }
}

fn is_line_end(token: &Token) -> bool
    ensures { result ≡ is_line_end token.now.kind }
{
    matches!(token.kind, Kind::LineEnd)
}

// Appends the line of these tokens, unless there are none, and returns whether it has END. Moves
// what comes after the labels out of `line`, which the caller clears.
fn push_line(
    alloc: Global,
    source: &[u8],
    lines: &mut Vec<RawLine>,
    line: &mut Vec<Token>,
) -> Result<bool, AllocError>
    ensures lines { IfOk result (λ ended. lines.new.items ≡ lines.old.items ++ line_of_tokens source.now line.old.items) }
    ensures ended { IfOk result (λ ended. ended ≡ has_end (line_of_tokens source.now line.old.items)) }
{
    if line.is_empty() {
        return Ok(false);
    }
    let raw = read_line(alloc, source, line[0].line, line)?;
    let ended = raw.word == RawWord::End;
    lines.push(raw)?;
    Ok(ended)
}

// Reads a line from its tokens. Those after the labels are moved into it.
#[tactic(auto, unfolding(crate::specs::Read::Lines::raw_line_of))]
fn read_line(
    alloc: Global,
    source: &[u8],
    number: u64,
    tokens: &mut Vec<Token>,
) -> Result<RawLine, AllocError>
    ensures { IfOk result (λ line. line ≡ raw_line_of source.now number tokens.old.items) }
{
    let (labels, at) = read_labels(alloc, source, tokens.as_slice())?;
    if at == tokens.len() {
        return Ok(RawLine::bare(alloc, number, labels));
    }
    let word = word_of(source, &tokens[at]);
    if word == RawWord::Code {
        let rest = Tokens::from_vec(tokens.split_off(at)?);
        return Ok(RawLine {
            number,
            labels,
            word,
            directive: None,
            rest,
            spoiled: false,
        });
    }
    let directive = clone_token(&tokens[at])?;
    let rest = Tokens::from_vec(tokens.split_off(at + 1)?);
    Ok(RawLine {
        number,
        labels,
        word,
        directive: Some(directive),
        rest,
        spoiled: false,
    })
}

// Reads the labels of a line. Returns them and the index after them.
fn read_labels(
    alloc: Global,
    source: &[u8],
    tokens: &[Token],
) -> Result<(Labels, usize), AllocError>
    ensures labels { IfOk result (λ p. p.0 ≡ (label_split source.now tokens.now).labels) }
    ensures rest { IfOk result (λ p. drop p.1 tokens.now ≡ (label_split source.now tokens.now).after) }
    ensures index { IfOk result (λ p. p.1 ≤ length tokens.now) }
{
    let mut labels = Labels::none(alloc);
    let mut at = 0;
    'line: while begins_label(source, tokens, at) {
        let end = label_end(source, tokens, at + 1);
        let label = clone_tokens(alloc, &tokens[at..end])?;
        labels.push(label)?;
        at = end;
    }
    Ok((labels, at))
}

// Returns whether a label begins at index `at`.
#[tactic(auto, using(crate::proofs::Reading::LabelSteps::begins_at, crate::proofs::Reading::LabelSteps::begins_none))]
fn begins_label(source: &[u8], tokens: &[Token], at: usize) -> bool
    ensures result { result ≡ begins_label source.now (drop at tokens.now) }
    ensures room { IsTrue result → at + 1 ≤ length tokens.now }
{
    at < tokens.len() && is_unreserved_name(source, &tokens[at])
}

// Returns the index after a label whose first name is the token before `from`.
#[tactic(auto, using(crate::proofs::Reading::LabelSteps::tail_more, crate::proofs::Reading::LabelSteps::tail_colon, crate::proofs::Reading::LabelSteps::tail_none, crate::proofs::Reading::LabelSteps::tail_end))]
fn label_end(source: &[u8], tokens: &[Token], from: usize) -> usize
    requires { from ≤ length tokens.now }
    ensures end { result ≡ from + tail_len source.now (drop from tokens.now) }
    ensures low { from ≤ result }
    ensures high { result ≤ length tokens.now }
{
    let mut end = from;
    while label_goes_on(source, tokens, end) {
        end += 2;
    }
    if end < tokens.len() && is_colon(&tokens[end]) {
        end += 1;
    }
    end
}

// Returns whether a label goes on at index `at` with `&` and a name.
#[tactic(auto, using(crate::proofs::Reading::LabelSteps::goes_on_at, crate::proofs::Reading::LabelSteps::goes_on_short))]
fn label_goes_on(source: &[u8], tokens: &[Token], at: usize) -> bool
    requires { at ≤ length tokens.now }
    ensures result { result ≡ label_goes_on source.now (drop at tokens.now) }
    ensures room { IsTrue result → at + 2 ≤ length tokens.now }
{
    at + 1 < tokens.len() && is_ampersand_name(source, &tokens[at], &tokens[at + 1])
}

fn is_ampersand_name(source: &[u8], sign: &Token, name: &Token) -> bool
    ensures { result ≡ (is_ampersand sign.now && is_unreserved_name source.now name.now) }
{
    is_ampersand(sign) && is_unreserved_name(source, name)
}
