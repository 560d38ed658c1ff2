//! Why a text has no further token, and why an expression has no value.
use thiserror::Error;

/// Why no further token can be read.
#[derive(Clone, Copy, Debug, PartialEq, Eq, Error)]
pub enum LexFault {
    /// A byte that no token begins with; also `=` or `|` alone.
    #[error("unexpected byte")]
    BadByte,
    /// A decimal above 4294967295.
    #[error("number above 4294967295")]
    NumberTooLarge,
}

/// Why an expression has no value.
#[derive(Clone, Copy, Debug, PartialEq, Eq, Error)]
pub enum EvalFault {
    /// The tokens are not an expression.
    #[error("invalid expression")]
    Syntax,
    /// A name has no value.
    #[error("unknown name")]
    UnknownName,
    /// A division or a remainder by 0.
    #[error("division by zero")]
    DivisionByZero,
    /// A result does not fit into 64 bits with a sign.
    #[error("result does not fit into 64 bits")]
    Overflow,
    /// More than 64 parentheses are open at once.
    #[error("more than 64 open parentheses")]
    TooDeep,
}
