//! Evaluation of expressions, by precedence climbing.
ghost use Rattle.std.specs.Prelude.{◌≡◌, ◌<◌, ◌≤◌, [], ◌∷◌, length, IfOk, Result};
ghost use Rattle.std.specs.List.{prefix_len};
ghost use Rattle.rc_text.specs.Grammar.{PREFIX_LEVEL, OPERAND_LEVEL};
ghost use Rattle.rc_text.specs.Values.{DEEPEST};
ghost use Rattle.rc_text.specs.Symbols.{symbol_of, symbols_of, Mark};
ghost use Rattle.rc_text.specs.Reading.{Reads, Stops, is_prefix_kind, signed_by, signed_outcome, evaluation_of};

use crate::fault::EvalFault;
use crate::front::{after_close, first_of, operator, split_signs};
use crate::limits;
use crate::names::Names;
use crate::operator::{
    Outcome, infix_outcome, level_of, name_outcome, number_outcome, prefix_outcome,
};
use crate::token::{Kind, Sign, Token};

/// Evaluates an expression, which has to be all of `tokens`.
///
/// Unary `+`, `-` and `!` bind tightest, then from tight to loose `*` `/` `%`; `+` `-`; `<` `>`
/// `<=` `>=`; `==` `!=`; `&&`; `||`, each level from the left. The operators are those of pMARS,
/// the levels are not. Every number on the way fits into 64 bits with a sign. Division goes toward
/// zero, and a remainder has the sign of the dividend. Comparisons and logic give 1 or 0, any value
/// but 0 is true, and both sides of `&&` and `||` are evaluated.
///
/// # Errors
///
/// Refuses tokens that are not an expression (`Syntax`) and a 65th open parenthesis (`TooDeep`),
/// whichever comes first from the left. In an expression it then refuses the first from the left of
/// a name without a value (`UnknownName`), a zero divisor (`DivisionByZero`) and a result that does
/// not fit (`Overflow`).
pub fn eval<N: Names>(source: &[u8], tokens: &[Token], names: &N) -> Result<i64, EvalFault>
    ensures { result ≡ evaluation_of (N.meaning names.now) (symbols_of source.now tokens.now) }
{
    match tokens {
        [token] => eval_token(source, token, names),
        _ => climb_all(source, tokens, names),
    }
}

// Evaluates an expression of one token: most have no more.
#[tactic(auto, unfolding(crate::specs::Reading::before_operand, crate::specs::Reading::after_operand))]
fn eval_token<N: Names>(source: &[u8], token: &Token, names: &N) -> Outcome
    ensures { result ≡ evaluation_of (N.meaning names.now) (symbol_of source.now token.now ∷ []) }
{
    match token.kind {
        Kind::Number(n) => number_outcome(n),
        Kind::Name => name_outcome(names.value(source, token)),
        _ => Err(EvalFault::Syntax),
    }
}

// Climbs all of the tokens. One that is left over is a `Syntax` fault.
fn climb_all<N: Names>(source: &[u8], tokens: &[Token], names: &N) -> Outcome
    ensures { result ≡ evaluation_of (N.meaning names.now) (symbols_of source.now tokens.now) }
{
    let (outcome, rest) = climb(source, tokens, names, limits::LOOSEST_LEVEL, 0)?;
    if rest.is_empty() {
        outcome
    } else {
        Err(EvalFault::Syntax)
    }
}

// Applies a prefix operator to an operand.
fn signed_by(kind: Kind, operand: Outcome) -> Outcome
    ensures { result ≡ signed_by kind operand }
{
    match kind {
        Kind::Sign(sign) => prefix_outcome(sign, operand),
        _ => operand,
    }
}

// Applies a run of prefix operators to an operand, the last one first.
#[tactic(auto, using(crate::proofs::RunSteps::last_first))]
fn signed_outcome(signs: &[Token], operand: Outcome) -> Outcome
    ensures { result ≡ signed_outcome signs.now operand }
{
    let mut outcome = operand;
    let mut rest = signs;
    while let Some((last, others)) = rest.split_last() {
        outcome = signed_by(last.kind, outcome);
        rest = others;
    }
    outcome
}

// Reads the inside of a group and its closing parenthesis. `depth` parentheses are open before it.
#[cycle(expression)]
fn group<'a, N: Names>(
    source: &[u8],
    tokens: &'a [Token],
    names: &N,
    depth: u8,
) -> Result<(Outcome, &'a [Token]), EvalFault>
    requires room { depth ≤ DEEPEST }
    ensures read { Reads (N.meaning names.now) OPERAND_LEVEL depth source.now (Mark Sign.Open ∷ symbols_of source.now tokens.now) result }
    ensures shorter { IfOk result (λ r. length r.1.now < length tokens.now) }
{
    if depth == limits::DEEPEST {
        return Err(EvalFault::TooDeep);
    }
    let (outcome, after) = climb(source, tokens, names, limits::LOOSEST_LEVEL, depth + 1)?;
    match after_close(source, after) {
        None => Err(EvalFault::Syntax),
        Some(rest) => Ok((outcome, rest)),
    }
}

// Reads a decimal, a name or a group.
#[cycle(expression)]
fn primary<'a, N: Names>(
    source: &[u8],
    tokens: &'a [Token],
    names: &N,
    depth: u8,
) -> Result<(Outcome, &'a [Token]), EvalFault>
    requires room { depth ≤ DEEPEST }
    requires unsigned { prefix_len (λ t. is_prefix_kind t.kind) tokens.now ≡ 0 }
    ensures read { Reads (N.meaning names.now) OPERAND_LEVEL depth source.now (symbols_of source.now tokens.now) result }
    ensures shorter { IfOk result (λ r. length r.1.now < length tokens.now) }
{
    match first_of(source, tokens) {
        None => Err(EvalFault::Syntax),
        Some((token, rest)) => match token.kind {
            Kind::Number(n) => Ok((number_outcome(n), rest)),
            Kind::Name => Ok((name_outcome(names.value(source, token)), rest)),
            Kind::Sign(sign) => match sign {
                Sign::Open => group(source, rest, names, depth),
                _ => Err(EvalFault::Syntax),
            },
            Kind::Assert | Kind::LineEnd => Err(EvalFault::Syntax),
        },
    }
}

// Reads prefix operators and the decimal, name or group after them.
#[cycle(expression)]
fn operand<'a, N: Names>(
    source: &[u8],
    tokens: &'a [Token],
    names: &N,
    depth: u8,
) -> Result<(Outcome, &'a [Token]), EvalFault>
    requires room { depth ≤ DEEPEST }
    ensures read { Reads (N.meaning names.now) OPERAND_LEVEL depth source.now (symbols_of source.now tokens.now) result }
    ensures shorter { IfOk result (λ r. length r.1.now < length tokens.now) }
{
    let (signs, unsigned) = split_signs(tokens);
    let (outcome, rest) = primary(source, unsigned, names, depth)?;
    Ok((signed_outcome(signs, outcome), rest))
}

// Reads an operand, then each operator of `level` or tighter with its right side, left to right.
#[cycle(expression)]
fn climb<'a, N: Names>(
    source: &[u8],
    tokens: &'a [Token],
    names: &N,
    level: u8,
    depth: u8,
) -> Result<(Outcome, &'a [Token]), EvalFault>
    requires room { depth ≤ DEEPEST }
    requires level { 0 < level }
    requires tightest { level ≤ PREFIX_LEVEL }
    ensures read { Reads (N.meaning names.now) level depth source.now (symbols_of source.now tokens.now) result }
    ensures stops { IfOk result (λ r. Stops level (symbols_of source.now r.1.now)) }
    ensures shorter { IfOk result (λ r. length r.1.now < length tokens.now) }
{
    let (mut left, mut rest) = operand(source, tokens, names, depth)?;
    while let Some((sign, after)) = operator(source, rest, level) {
        let (right, next) = climb(source, after, names, level_of(sign) + 1, depth)?;
        left = infix_outcome(left, sign, right);
        rest = next;
    }
    Ok((left, rest))
}
