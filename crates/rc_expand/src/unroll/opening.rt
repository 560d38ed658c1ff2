//! What the FOR of a block says: its counter, the labels before it, and its count; and its ROF.
ghost use Rattle.std.specs.Prelude.{◌≡◌, [], false, Some, None, Ok, Err, IfOk, IfSome, option_map};
ghost use Rattle.rc_text.specs.Symbols.{name_of};
ghost use Rattle.rc_expand.specs.Results.{Returns, at_line};
ghost use Rattle.rc_expand.specs.Contexts.{seen_context};
ghost use Rattle.rc_expand.specs.Unroll.{UnrolledSoFarView, is_bare_rof, rof_check};
ghost use Rattle.rc_expand.specs.Unroll.Openings.{is_plain_number, is_enclosing_counter, counter_fault_kind, counter_of, limited_count, earlier_of, seen_opening, opening, count_of, counter_name};

use crate::context::Context;
use crate::equ_tokens::replace_tokens;
use crate::fault::{ExpandFault, ExpandKind, at_line};
use crate::limits;
use crate::line::Tokens;
use crate::names::is_taken;
use crate::read::equs::equ_line;
use crate::read::labels::plain_token;
use crate::read::raw_line::{Labels, RawLine, clone_labels};
use crate::tokens::{is_colon, is_unjoined};
use rc_text::{Kind, Token, eval, text_of};
use std::alloc::{AllocError, Global};

// What the FOR of a block says: its counter, as the text spells it, and the number of copies.
#[derive(Debug, Drop)]
pub(crate) struct Opening<'a> {
    pub counter: Option<&'a [u8]>,
    pub count: u16,
}

// Reads the FOR of a block: whether it is spoiled, then its counter, then its count.
#[tactic(auto, unfolding(crate::specs::Unroll::Openings::opening))]
pub(crate) fn read_opening<'a>(
    context: &Context<'a>,
    raw: &RawLine,
) -> Result<Opening<'a>, ExpandFault>
    ensures { Returns (seen_opening raw.now) result (opening (seen_context context.now) raw.now) }
{
    if raw.spoiled {
        return Err(at_line(raw.number, ExpandKind::BadDirective));
    }
    let token = counter_token(context.source, raw)?;
    let counter = counter_name(context, token, raw.number)?;
    let count = count_of(context, raw)?;
    Ok(Opening { counter, count })
}

// Returns the counter, which is the last label before FOR.
fn counter_token<'a>(source: &[u8], raw: &'a RawLine) -> Result<Option<&'a Token>, ExpandFault>
    ensures token { Returns (λ o. option_map (λ t. t.now) o) result (counter_of source.now raw.now.number raw.now.labels) }
    ensures written { IfOk result (λ o. IfSome o (λ t. t.now.joined ≡ [])) }
{
    let labels = raw.labels.as_slice();
    if labels.len() == 0 {
        return Ok(None);
    }
    let label = labels[labels.len() - 1].as_slice();
    match plain_token(source, label) {
        Some(token) => Ok(Some(token)),
        None => Err(counter_fault(raw.number, label)),
    }
}

// Returns why the label before FOR cannot be its counter.
fn counter_fault(line: u64, label: &[Token]) -> ExpandFault
    ensures { result ≡ at_line line (counter_fault_kind label.now) }
{
    if is_enclosing_counter(label) {
        at_line(line, ExpandKind::DuplicateName)
    } else {
        at_line(line, ExpandKind::BadDirective)
    }
}

// Returns whether a label was the name of an enclosing block's counter, written without `&`:
// copying has put a number in its place. A number with joined counters was a joined name, so it is
// not such a label.
fn is_enclosing_counter(label: &[Token]) -> bool
    ensures { result ≡ is_enclosing_counter label.now }
{
    match label {
        [token] => is_plain_number(token),
        [token, colon] => is_plain_number(token) && is_colon(colon),
        _ => false,
    }
}

// Returns whether a token is a number to which no counter is joined.
fn is_plain_number(token: &Token) -> bool
    ensures { result ≡ is_plain_number token.now }
{
    match token.kind {
        Kind::Number(_) => is_unjoined(token),
        _ => false,
    }
}

// Returns the name of a counter. `DuplicateName` if it is a constant or a predefined name, at the
// FOR, or an EQU name, at the later of the two lines.
fn counter_name<'a>(
    context: &Context<'a>,
    counter: Option<&Token>,
    line: u64,
) -> Result<Option<&'a [u8]>, ExpandFault>
    requires { IfSome counter (λ t. t.now.joined ≡ []) }
    ensures { Returns (λ o. option_map (λ b. b.now) o) result (counter_name (seen_context context.now) line (option_map (λ t. t.now) counter.entry)) }
{
    match counter {
        None => Ok(None),
        Some(token) => {
            check_counter(context, token, line)?;
            Ok(Some(text_of(context.source, token)))
        }
    }
}

// Refuses a counter that is a constant, a predefined name or an EQU name.
fn check_counter(context: &Context, token: &Token, line: u64) -> Result<(), ExpandFault>
    ensures { Returns (λ u. Some (name_of context.now.source.now token.now)) result (counter_name (seen_context context.now) line (Some token.now)) }
{
    if is_taken(context.given, context.source, token) {
        return Err(at_line(line, ExpandKind::DuplicateName));
    }
    match equ_line(context.equs, context.source, token) {
        Some(other) => Err(at_line(line.max(other), ExpandKind::DuplicateName)),
        None => Ok(()),
    }
}

// Evaluates the count of a block, after replacing its EQU names.
#[tactic(auto, unfolding(crate::specs::Unroll::Openings::count_of))]
fn count_of(context: &Context, raw: &RawLine) -> Result<u16, ExpandFault>
    ensures { Returns (λ n. n) result (count_of (seen_context context.now) raw.now.number raw.now.rest) }
{
    let front = Vec::new(context.alloc);
    let tokens = replace_tokens(context, raw.number, front, raw.rest.as_slice())?;
    match eval(context.source, tokens.as_slice(), context.given) {
        Ok(value) => match limited_count(value) {
            Some(count) => Ok(count),
            None => Err(at_line(raw.number, ExpandKind::CountRefused)),
        },
        Err(_) => Err(at_line(raw.number, ExpandKind::CountRefused)),
    }
}

// Converts the value of a count. One below 1 makes no copies, and one above `MOST_COPIES` gives
// `None`.
fn limited_count(value: i64) -> Option<u16>
    ensures { result ≡ limited_count value }
{
    if value < 0 {
        return Some(0);
    }
    if value <= limits::MOST_COPIES {
        Some(value as u16)
    } else {
        None
    }
}

// Copies all labels but the last.
pub(crate) fn earlier_labels(alloc: Global, labels: &[Tokens]) -> Result<Labels, AllocError>
    ensures { IfOk result (λ l. l ≡ earlier_of labels.now) }
{
    if labels.len() == 0 {
        return Ok(Labels::none(alloc));
    }
    clone_labels(alloc, &labels[..labels.len() - 1])
}

// Refuses a ROF with something before or after it on its line.
pub(crate) fn check_rof(rof: &RawLine) -> Result<(), ExpandFault>
    ensures { (u : UnrolledSoFarView) → Returns (λ i. u) result (rof_check rof.now u) }
{
    if is_bare_rof(rof) {
        Ok(())
    } else {
        Err(at_line(rof.number, ExpandKind::BadDirective))
    }
}

fn is_bare_rof(rof: &RawLine) -> bool
    ensures { result ≡ is_bare_rof rof.now }
{
    !rof.spoiled && rof.labels.as_slice().is_empty() && rof.rest.as_slice().is_empty()
}
