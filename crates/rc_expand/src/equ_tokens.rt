//! Puts the tokens of EQU names in the place of the names: in the count of a FOR for the second
//! pass, and in each line for the third.
ghost use Rattle.std.specs.Prelude.{◌≡◌, ◌+◌, Ok, Err, Some, None, option_map, IfSome};
ghost use Rattle.rc_expand.specs.Results.{Returns};
ghost use Rattle.rc_expand.specs.NameTables.{at_index, AreIndices};
ghost use Rattle.rc_expand.specs.Contexts.{seen_context};
ghost use Rattle.rc_expand.specs.Equs.{equ_in};
ghost use Rattle.rc_expand.specs.Replace.{with_token, token_within, tokens_within, replaced_tokens};

pub(crate) mod links;

use crate::context::Context;
use crate::equ_tokens::links::link_tokens;
use crate::fault::{ExpandFault, ExpandKind, at_line};
use crate::limits;
use crate::line::Tokens;
use crate::tokens::clone_token;
use rc_text::Token;
use std::marker::Model;

// The tokens of a line so far, its number, and how many EQU names were replaced in it.
#[derive(Drop)]
pub(crate) struct TokensSoFar {
    line: u64,
    tokens: Vec<Token>,
    replacements: u32,
}

impl Model for TokensSoFar {
    ghost use Rattle.rc_expand.specs.Replace.{TokensSoFarView};

    ghost Value = { TokensSoFarView };

    ghost view = { λ r. record { line = r.line; tokens = r.tokens.items; replacements = r.replacements } };
}

// Replaces the EQU names of `tokens`, at most `DEEPEST_EQU` deep. `front` are the tokens before
// them in the line, which stay as they are but count as tokens of the line.
#[tactic(auto, unfolding(crate::specs::Replace::replaced_tokens))]
pub(crate) fn replace_tokens(
    context: &Context,
    line: u64,
    front: Vec<Token>,
    tokens: &[Token],
) -> Result<Tokens, ExpandFault>
    ensures { Returns (λ t. t) result (replaced_tokens (seen_context context.now) line front.items tokens.now) }
{
    let indices = link_tokens(context.alloc, context.source, tokens, context.equs)?;
    let mut out = TokensSoFar {
        line,
        tokens: front,
        replacements: 0,
    };
    append_replaced(
        &mut out,
        context,
        tokens,
        indices.as_slice(),
        limits::DEEPEST_EQU,
    )?;
    Ok(Tokens::from_vec(out.tokens))
}

// Appends tokens with their EQU names replaced, at most `levels` deep.
#[cycle(replace)]
fn append_replaced(
    out: &mut TokensSoFar,
    context: &Context,
    tokens: &[Token],
    indices: &[Option<usize>],
    levels: u8,
) -> Result<(), ExpandFault>
    requires { AreIndices context.now.source.now context.now.equs.now tokens.now indices.now }
    ensures { Returns (λ u. out.new) result (tokens_within (seen_context context.now) levels tokens.now out.old) }
{
    for i in 0..tokens.len() {
        append_token(out, context, &tokens[i], indices[i], levels)?;
    }
    Ok(())
}

// Appends a token, or the tokens of the EQU name that it is.
#[cycle(replace)]
fn append_token(
    out: &mut TokensSoFar,
    context: &Context,
    token: &Token,
    index: Option<usize>,
    levels: u8,
) -> Result<(), ExpandFault>
    requires { at_index context.now.equs.now index ≡ equ_in context.now.source.now context.now.equs.now token.now }
    ensures { Returns (λ u. out.new) result (token_within (seen_context context.now) levels token.now out.old) }
{
    match body_at(context, index) {
        None => push_token(out, token),
        Some((body, indices)) => {
            if levels == 0 {
                return Err(at_line(out.line, ExpandKind::EquTooDeep));
            }
            if out.replacements >= limits::MOST_REPLACEMENTS {
                return Err(at_line(out.line, ExpandKind::TooManyTokens));
            }
            out.replacements += 1;
            append_replaced(out, context, body, indices, levels - 1)
        }
    }
}

// Returns the tokens of the EQU name at an index of the table, and their links.
fn body_at<'a>(
    context: &Context<'a>,
    index: Option<usize>,
) -> Option<(&'a [Token], &'a [Option<usize>])>
    ensures tokens { option_map (λ p. p.0.now) result ≡ option_map (λ e. e.tokens) (at_index context.now.equs.now index) }
    ensures indices { IfSome result (λ p. AreIndices context.now.source.now context.now.equs.now p.0.now p.1.now) }
{
    let i = index?;
    let equ = context.equs.at(i)?;
    Some((equ.tokens(), context.links[i].as_slice()))
}

// Appends a token that is not an EQU name.
fn push_token(out: &mut TokensSoFar, token: &Token) -> Result<(), ExpandFault>
    ensures { Returns (λ u. out.new) result (with_token token.now out.old) }
{
    if out.tokens.len() >= limits::MOST_TOKENS {
        return Err(at_line(out.line, ExpandKind::TooManyTokens));
    }
    out.tokens.push(clone_token(token)?)?;
    Ok(())
}
