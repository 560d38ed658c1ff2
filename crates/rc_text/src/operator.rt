//! The arithmetic of expressions: operators applied to values and faults.
ghost use Rattle.std.specs.Prelude.{◌≡◌, ◌≤◌, Ok, pos};
ghost use Rattle.rc_text.specs.Grammar.{level_of, is_prefix};
ghost use Rattle.rc_text.specs.Values.{truth_value, prefix_value, infix_value, name_outcome, prefix_outcome, infix_outcome};

use crate::fault::EvalFault;
use crate::token::Sign;

// A value, or the fault in its place.
pub(crate) type Outcome = Result<i64, EvalFault>;

// Returns the level of an infix operator, from 1 (loosest) to 6 (tightest), or 0 for any other
// sign.
pub(crate) fn level_of(sign: Sign) -> u8
    ensures value { result ≡ level_of sign }
    ensures small { result ≤ 6 }
{
    match sign {
        Sign::Or => 1,
        Sign::And => 2,
        Sign::Equal | Sign::NotEqual => 3,
        Sign::Less | Sign::Greater | Sign::LessEqual | Sign::GreaterEqual => 4,
        Sign::Plus | Sign::Minus => 5,
        Sign::Star | Sign::Slash | Sign::Percent => 6,
        _ => 0,
    }
}

// Returns whether a sign may come before an operand.
pub(crate) fn is_prefix(sign: Sign) -> bool
    ensures { result ≡ is_prefix sign }
{
    match sign {
        Sign::Plus | Sign::Minus | Sign::Bang => true,
        _ => false,
    }
}

pub(crate) fn number_outcome(n: u32) -> Outcome
    ensures { result ≡ Ok (pos n) }
{
    Ok(i64::from(n))
}

// Returns the value of a name, or `UnknownName` if it has none.
pub(crate) fn name_outcome(value: Option<i64>) -> Outcome
    ensures { result ≡ name_outcome value }
{
    value.ok_or(EvalFault::UnknownName)
}

// Applies a prefix operator to a value; a fault stays as it is.
pub(crate) fn prefix_outcome(sign: Sign, operand: Outcome) -> Outcome
    ensures { result ≡ prefix_outcome sign operand }
{
    prefix_value(sign, operand?)
}

// Applies an infix operator to two values; of two faults the left one is returned.
pub(crate) fn infix_outcome(left: Outcome, sign: Sign, right: Outcome) -> Outcome
    ensures { result ≡ infix_outcome left sign right }
{
    infix_value(sign, left?, right?)
}

fn truth_value(holds: bool) -> i64
    ensures { result ≡ truth_value holds }
{
    if holds { 1 } else { 0 }
}

// Applies a prefix operator.
fn prefix_value(sign: Sign, x: i64) -> Outcome
    ensures { result ≡ prefix_value sign x }
{
    match sign {
        Sign::Plus => Ok(x),
        Sign::Minus => x.checked_neg().ok_or(EvalFault::Overflow),
        Sign::Bang => Ok(truth_value(x == 0)),
        _ => Err(EvalFault::Syntax),
    }
}

// Divides toward zero.
fn quotient(x: i64, y: i64) -> Outcome
    ensures { result ≡ infix_value Sign.Slash x y }
{
    if y == 0 {
        return Err(EvalFault::DivisionByZero);
    }
    x.checked_div(y).ok_or(EvalFault::Overflow)
}

// Returns the remainder, with the sign of the dividend. It always fits, even if the quotient does
// not: i64::MIN % -1 is 0.
fn remainder(x: i64, y: i64) -> Outcome
    ensures { result ≡ infix_value Sign.Percent x y }
{
    if y == 0 {
        return Err(EvalFault::DivisionByZero);
    }
    Ok(x.wrapping_rem(y))
}

// Applies an infix operator.
fn infix_value(sign: Sign, x: i64, y: i64) -> Outcome
    ensures { result ≡ infix_value sign x y }
{
    match sign {
        Sign::Star => x.checked_mul(y).ok_or(EvalFault::Overflow),
        Sign::Slash => quotient(x, y),
        Sign::Percent => remainder(x, y),
        Sign::Plus => x.checked_add(y).ok_or(EvalFault::Overflow),
        Sign::Minus => x.checked_sub(y).ok_or(EvalFault::Overflow),
        Sign::Less => Ok(truth_value(x < y)),
        Sign::Greater => Ok(truth_value(y < x)),
        Sign::LessEqual => Ok(truth_value(x <= y)),
        Sign::GreaterEqual => Ok(truth_value(y <= x)),
        Sign::Equal => Ok(truth_value(x == y)),
        Sign::NotEqual => Ok(truth_value(x != y)),
        Sign::And => Ok(truth_value(x != 0 && y != 0)),
        Sign::Or => Ok(truth_value(x != 0 || y != 0)),
        _ => Err(EvalFault::Syntax),
    }
}
