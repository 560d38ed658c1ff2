//! Tokens: copies of them, and tests of their kinds.
ghost use Rattle.std.specs.Prelude.{◌≡◌, ◌++◌, ◌<◌, IfOk};
ghost use Rattle.rc_expand.specs.Read.Lines.{is_name_token, is_ampersand, is_colon, is_dot, is_unjoined};

use crate::line::Tokens;
use rc_text::{Kind, Sign, Token};
use std::alloc::{AllocError, Global};

pub(crate) fn clone_token(token: &Token) -> Result<Token, AllocError>
    ensures { IfOk result (λ t. t ≡ token.now) }
{
    token.clone()
}

pub(crate) fn clone_tokens(alloc: Global, tokens: &[Token]) -> Result<Tokens, AllocError>
    ensures { IfOk result (λ all. all ≡ tokens.now) }
{
    let mut all = Vec::with_capacity(alloc, tokens.len())?;
    for token in tokens {
        all.push(clone_token(token)?)?;
    }
    Ok(Tokens::from_vec(all))
}

// Concatenates `front` and `tokens`.
pub(crate) fn with_front(
    alloc: Global,
    front: &[Token],
    tokens: Tokens,
) -> Result<Tokens, AllocError>
    ensures { IfOk result (λ all. all ≡ front.now ++ tokens) }
{
    let mut tokens = tokens.into_vec();
    let mut all = Vec::with_capacity(alloc, front.len() + tokens.len())?;
    for token in front {
        all.push(clone_token(token)?)?;
    }
    all.append(&mut tokens)?;
    Ok(Tokens::from_vec(all))
}

pub(crate) fn is_name_token(token: &Token) -> bool
    ensures { result ≡ is_name_token token.now }
{
    matches!(token.kind, Kind::Name)
}

pub(crate) fn is_ampersand(token: &Token) -> bool
    ensures { result ≡ is_ampersand token.now }
{
    matches!(token.kind, Kind::Sign(Sign::Ampersand))
}

pub(crate) fn is_colon(token: &Token) -> bool
    ensures { result ≡ is_colon token.now }
{
    matches!(token.kind, Kind::Sign(Sign::Colon))
}

pub(crate) fn is_dot(token: &Token) -> bool
    ensures { result ≡ is_dot token.now }
{
    matches!(token.kind, Kind::Sign(Sign::Dot))
}

// Returns whether no counter is joined to a token.
pub(crate) fn is_unjoined(token: &Token) -> bool
    ensures { result ≡ is_unjoined token.now.joined }
{
    token.joined.is_empty()
}
