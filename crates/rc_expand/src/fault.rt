//! Why a text cannot be expanded, and at which line.
ghost use Rattle.std.specs.Prelude.{◌≡◌};
ghost use Rattle.rc_expand.specs.declared.fault.ExpandKind.TheVariants.{OutOfMemory};

use rc_text::LexFault;
use std::alloc::{AllocError, AllocFailed};
use thiserror::Error;

/// Why a text cannot be expanded. The order of these says nothing: [`crate::expand`] says which
/// comes first.
#[derive(Clone, Copy, Debug, PartialEq, Eq, Error)]
pub enum ExpandKind {
    /// The text has a byte or a decimal that is not a token.
    #[error("{0}")]
    Text(LexFault),
    /// A label or an EQU name is already defined; a counter is an EQU name or the counter of an
    /// enclosing block; or one of them is a constant or a predefined name.
    #[error("name already defined")]
    DuplicateName,
    /// A FOR has no ROF.
    #[error("FOR without ROF")]
    ForWithoutRof,
    /// A ROF has no FOR.
    #[error("ROF without FOR")]
    RofWithoutFor,
    /// More than 8 FOR blocks are nested.
    #[error("more than 8 nested FOR blocks")]
    ForTooDeep,
    /// EQU names are nested more than 16 deep.
    #[error("EQU names nested more than 16 deep")]
    EquTooDeep,
    /// The count of a FOR has no value, or is above 4096.
    #[error("FOR count has no value, or is above 4096")]
    CountRefused,
    /// There are more than 4096 unrolled lines and copies of blocks.
    #[error("more than 4096 lines and copies in the expansion")]
    TooManyLines,
    /// Out of memory.
    #[error("out of memory")]
    OutOfMemory,
    /// An EQU, FOR or ROF is malformed or misplaced, or a ninth counter is joined to a name.
    #[error("malformed or misplaced directive, or more than 8 counters joined")]
    BadDirective,
    /// A line or a count has more than 4096 tokens, or takes more than 4096 EQU replacements.
    #[error("more than 4096 tokens or EQU replacements in a line")]
    TooManyTokens,
}

/// Why a text cannot be expanded, and at which line.
#[derive(Clone, Copy, Debug, PartialEq, Eq, Error)]
#[error("line {line}: {kind}")]
pub struct ExpandFault {
    /// The line, from 1 in the whole source; 0 if out of memory.
    pub line: u64,
    /// The kind of the fault.
    pub kind: ExpandKind,
}

impl From<AllocError> for ExpandFault {
    ghost use Rattle.std.specs.Prelude.{◌≡◌};
    ghost use Rattle.rc_expand.specs.declared.fault.ExpandKind.TheVariants.{OutOfMemory};

    ghost from_gives = { λ _ e. e ≡ record { line = 0; kind = OutOfMemory } };

    fn from(_error: AllocError) -> Self {
        out_of_memory()
    }
}

impl<T: Drop> From<AllocFailed<T>> for ExpandFault {
    ghost use Rattle.std.specs.Prelude.{◌≡◌};
    ghost use Rattle.rc_expand.specs.declared.fault.ExpandKind.TheVariants.{OutOfMemory};

    ghost from_gives = { λ _ e. e ≡ record { line = 0; kind = OutOfMemory } };

    fn from(_error: AllocFailed<T>) -> Self {
        out_of_memory()
    }
}

// Out of memory has no line.
fn out_of_memory() -> ExpandFault
    ensures { result ≡ record { line = 0; kind = OutOfMemory } }
{
    at_line(0, ExpandKind::OutOfMemory)
}

pub(crate) fn at_line(line: u64, kind: ExpandKind) -> ExpandFault
    ensures { result ≡ record { line = line; kind = kind } }
{
    ExpandFault { line, kind }
}
