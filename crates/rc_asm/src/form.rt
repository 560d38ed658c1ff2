//! The form of a line of code: opcode, modifier, operands.
ghost use Rattle.std.specs.Prelude.{◌≡◌, ◌∷◌, [], ◌<◌, length, take, drop, ◌+◌, option_map, Some, None, IfSome, IfNone};
ghost use Rattle.rc_instr.specs.Results.{mapped};
ghost use Rattle.rc_asm.specs.Form.{parts, parts_from, no_operand, one_operand, two_operands, operands_of, with_operands, with_modifier, after_opcode, form_of};
ghost use Rattle.rc_asm.specs.Seen.{seen_operands, seen_form};

use crate::fault::AsmKind;
use crate::word::{is_comma, is_dot, modifier_in, opcode_in};
use rc_instr::{Modifier, Opcode};
use rc_text::Token;

// The tokens of the operands; `None` for an operand that is not written.
#[derive(Clone, Copy)]
pub(crate) struct OperandTokens<'a> {
    pub(crate) a: Option<&'a [Token]>,
    pub(crate) b: Option<&'a [Token]>,
}

// A line of code in its parts. `modifier` is `None` if it is not written.
#[derive(Clone, Copy)]
pub(crate) struct Form<'a> {
    pub(crate) opcode: Opcode,
    pub(crate) modifier: Option<Modifier>,
    pub(crate) operands: OperandTokens<'a>,
}

// Parses the tokens of a line of code.
#[tactic(auto, unfolding(crate::specs::Form::form_of))]
pub(crate) fn form_of<'a>(source: &[u8], tokens: &'a [Token]) -> Result<Form<'a>, AsmKind>
    ensures { mapped seen_form result ≡ form_of source.now tokens.now }
{
    match tokens {
        [] => Err(AsmKind::UnknownOpcode),
        [first, rest @ ..] => {
            let opcode = opcode_in(source, first).ok_or(AsmKind::UnknownOpcode)?;
            after_opcode(source, opcode, rest)
        }
    }
}

fn first_comma(tokens: &[Token]) -> Option<usize>
    ensures found { IfSome result (λ at. (at < length tokens.now) × (parts_from tokens.now ≡ take at tokens.now ∷ parts_from (drop (at + 1) tokens.now))) }
    ensures none { IfNone result (parts_from tokens.now ≡ tokens.now ∷ []) }
{
    tokens.iter().position(is_comma)
}

fn no_operand(opcode: Opcode) -> Option<OperandTokens<'static>>
    ensures { option_map seen_operands result ≡ no_operand opcode }
{
    match opcode {
        Opcode::Dat | Opcode::Nop => Some(OperandTokens { a: None, b: None }),
        _ => None,
    }
}

// Only DAT takes a single operand as its B-operand.
fn one_operand(opcode: Opcode, part: &[Token]) -> Option<OperandTokens<'_>>
    ensures { option_map seen_operands result ≡ one_operand opcode part.now }
{
    match opcode {
        Opcode::Dat => Some(OperandTokens {
            a: None,
            b: Some(part),
        }),
        Opcode::Jmp | Opcode::Spl | Opcode::Nop => Some(OperandTokens {
            a: Some(part),
            b: None,
        }),
        _ => None,
    }
}

// Refuses an empty operand beside a comma.
fn two_operands<'a>(first: &'a [Token], second: &'a [Token]) -> Option<OperandTokens<'a>>
    ensures { option_map seen_operands result ≡ two_operands first.now second.now }
{
    if first.is_empty() || second.is_empty() {
        return None;
    }
    Some(OperandTokens {
        a: Some(first),
        b: Some(second),
    })
}

#[tactic(auto, unfolding(crate::specs::Form::parts))]
fn operands_of(opcode: Opcode, tokens: &[Token]) -> Result<OperandTokens<'_>, AsmKind>
    ensures { mapped seen_operands result ≡ operands_of opcode (parts tokens.now) }
{
    if tokens.is_empty() {
        return no_operand(opcode).ok_or(AsmKind::MissingOperand);
    }
    match first_comma(tokens) {
        None => one_operand(opcode, tokens).ok_or(AsmKind::MissingOperand),
        Some(at) => {
            let second = &tokens[at + 1..];
            match first_comma(second) {
                None => two_operands(&tokens[..at], second).ok_or(AsmKind::MissingOperand),
                Some(_) => Err(AsmKind::ExtraText),
            }
        }
    }
}

#[tactic(auto, unfolding(crate::specs::Form::with_operands))]
fn with_operands(
    opcode: Opcode,
    modifier: Option<Modifier>,
    tokens: &[Token],
) -> Result<Form<'_>, AsmKind>
    ensures { mapped seen_form result ≡ with_operands opcode modifier tokens.now }
{
    let operands = operands_of(opcode, tokens)?;
    Ok(Form {
        opcode,
        modifier,
        operands,
    })
}

// Parses what follows the opcode and a dot.
#[tactic(auto, unfolding(crate::specs::Form::with_modifier))]
fn with_modifier<'a>(
    source: &[u8],
    opcode: Opcode,
    tokens: &'a [Token],
) -> Result<Form<'a>, AsmKind>
    ensures { mapped seen_form result ≡ with_modifier source.now opcode tokens.now }
{
    match tokens {
        [] => Err(AsmKind::UnknownOpcode),
        [first, rest @ ..] => {
            let modifier = modifier_in(source, first).ok_or(AsmKind::UnknownOpcode)?;
            with_operands(opcode, Some(modifier), rest)
        }
    }
}

// Parses what follows the opcode.
#[tactic(auto, unfolding(crate::specs::Form::after_opcode))]
fn after_opcode<'a>(source: &[u8], opcode: Opcode, tokens: &'a [Token]) -> Result<Form<'a>, AsmKind>
    ensures { mapped seen_form result ≡ after_opcode source.now opcode tokens.now }
{
    match tokens {
        [first, rest @ ..] if is_dot(first) => with_modifier(source, opcode, rest),
        _ => with_operands(opcode, None, tokens),
    }
}
