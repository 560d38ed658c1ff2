//! The first tokens of an expression.
ghost use Rattle.std.specs.Prelude.{◌≡◌, ◌<◌, ◌≤◌, [], ◌∷◌, length, take, drop, IfSome, IfNone};
ghost use Rattle.std.specs.List.{prefix_len};
ghost use Rattle.rc_text.specs.Grammar.{level_of};
ghost use Rattle.rc_text.specs.Symbols.{symbol_of, symbols_of, Mark};
ghost use Rattle.rc_text.specs.Reading.{Stops, BeginsWithoutClose, is_prefix_kind};

use crate::operator::{is_prefix, level_of};
use crate::token::{Kind, Sign, Token};

// Splits off the first token. `source` is for the contract alone: symbols are of a source.
pub(crate) fn first_of<'a>(source: &[u8], tokens: &'a [Token]) -> Option<(&'a Token, &'a [Token])>
    ensures tokens { IfSome result (λ p. tokens.now ≡ p.0.now ∷ p.1.now) }
    ensures symbols { IfSome result (λ p.
        symbols_of source.now tokens.now ≡ symbol_of source.now p.0.now ∷ symbols_of source.now p.1.now) }
    ensures shorter { IfSome result (λ p. length p.1.now < length tokens.now) }
    ensures none { IfNone result (symbols_of source.now tokens.now ≡ []) }
{
    tokens.split_first()
}

// Returns the first token if it is an operator of `level` or tighter, and the tokens after it.
pub(crate) fn operator<'a>(
    source: &[u8],
    tokens: &'a [Token],
    level: u8,
) -> Option<(Sign, &'a [Token])>
    requires level { 0 < level }
    ensures symbols { IfSome result (λ p.
        symbols_of source.now tokens.now ≡ Mark p.0 ∷ symbols_of source.now p.1.now) }
    ensures shorter { IfSome result (λ p. length p.1.now < length tokens.now) }
    ensures tight { IfSome result (λ p. level ≤ level_of p.0) }
    ensures stops { IfNone result (Stops level (symbols_of source.now tokens.now)) }
{
    let (token, rest) = first_of(source, tokens)?;
    match token.kind {
        Kind::Sign(sign) if level <= level_of(sign) => Some((sign, rest)),
        _ => None,
    }
}

// Returns the tokens after a closing parenthesis, if one comes first.
pub(crate) fn after_close<'a>(source: &[u8], tokens: &'a [Token]) -> Option<&'a [Token]>
    ensures symbols { IfSome result (λ rest.
        symbols_of source.now tokens.now ≡ Mark Sign.Close ∷ symbols_of source.now rest.now) }
    ensures shorter { IfSome result (λ rest. length rest.now < length tokens.now) }
    ensures none { IfNone result (BeginsWithoutClose (symbols_of source.now tokens.now)) }
{
    let (token, rest) = first_of(source, tokens)?;
    match token.kind {
        Kind::Sign(Sign::Close) => Some(rest),
        _ => None,
    }
}

// Splits `tokens` after the prefix operators that they begin with.
#[tactic(auto, using(crate::proofs::RunSteps::within, crate::proofs::RunSteps::unsigned))]
pub(crate) fn split_signs<'a>(tokens: &'a [Token]) -> (&'a [Token], &'a [Token])
    ensures signs { result.0.now ≡ take (prefix_len (λ t. is_prefix_kind t.kind) tokens.now) tokens.now }
    ensures rest { result.1.now ≡ drop (prefix_len (λ t. is_prefix_kind t.kind) tokens.now) tokens.now }
    ensures unsigned { prefix_len (λ t. is_prefix_kind t.kind) result.1.now ≡ 0 }
    ensures shorter { length result.1.now ≤ length tokens.now }
{
    tokens.split_at(sign_count(tokens))
}

// Returns whether a token is a prefix operator: `+`, `-` or `!`.
fn is_prefix_kind(kind: Kind) -> bool
    ensures { result ≡ is_prefix_kind kind }
{
    match kind {
        Kind::Sign(sign) => is_prefix(sign),
        _ => false,
    }
}

// Counts the prefix operators that `tokens` begin with.
fn sign_count(tokens: &[Token]) -> usize
    ensures { result ≡ prefix_len (λ t. is_prefix_kind t.kind) tokens.now }
{
    tokens
        .iter()
        .take_while(|token| is_prefix_kind(token.kind))
        .count()
}
