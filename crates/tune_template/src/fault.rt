//! Why a template is refused, and where.
ghost use Rattle.std.specs.Prelude.{◌≡◌};
ghost use Rattle.tune_template.specs.Faults.{at_line};

use std::alloc::{AllocError, AllocFailed};
use thiserror::Error;

/// Why a template is refused.
#[derive(Clone, Copy, Debug, PartialEq, Eq, Error)]
pub enum TemplateKind {
    /// A range line is not `;@tune NAME LOW HIGH STEP START` with a name and numbers within limits.
    #[error("malformed range line")]
    BadLine,
    /// An earlier line has the same constant.
    #[error("duplicate constant")]
    DuplicateName,
    /// The constant is a reserved word or a predefined name.
    #[error("reserved or predefined name")]
    ReservedName,
    /// LOW is above HIGH.
    #[error("LOW is above HIGH")]
    EmptyRange,
    /// START is not one of the values.
    #[error("START is not one of the values")]
    StartOutside,
    /// There are more than 8 constants.
    #[error("more than 8 constants")]
    TooManyConstants,
    /// There are more than 1000000 settings.
    #[error("more than 1000000 settings")]
    TooManyVectors,
    /// The text has more than 65536 bytes.
    #[error("text longer than 65536 bytes")]
    TextTooLong,
    /// An allocation failed.
    #[error("out of memory")]
    OutOfMemory,
}

/// Why a template is refused, and at which line.
#[derive(Clone, Copy, Debug, PartialEq, Eq, Error)]
#[error("line {line}: {kind}")]
pub struct TemplateFault {
    /// The line, from 1; 0 for `TextTooLong` and `OutOfMemory`.
    pub line: u64,
    /// What is wrong with the line.
    pub kind: TemplateKind,
}

impl From<AllocError> for TemplateFault {
    ghost use Rattle.std.specs.Prelude.{◌≡◌};
    ghost use Rattle.tune_template.specs.Faults.{at_line};
    ghost use Rattle.tune_template.specs.declared.fault.TemplateKind.TheVariants.{OutOfMemory};

    ghost from_gives = { λ _ f. f ≡ at_line 0 OutOfMemory };

    fn from(_refused: AllocError) -> Self {
        at_line(0, TemplateKind::OutOfMemory)
    }
}

impl<T: Drop> From<AllocFailed<T>> for TemplateFault {
    ghost use Rattle.std.specs.Prelude.{◌≡◌};
    ghost use Rattle.tune_template.specs.Faults.{at_line};
    ghost use Rattle.tune_template.specs.declared.fault.TemplateKind.TheVariants.{OutOfMemory};

    ghost from_gives = { λ _ f. f ≡ at_line 0 OutOfMemory };

    fn from(_refused: AllocFailed<T>) -> Self {
        at_line(0, TemplateKind::OutOfMemory)
    }
}

pub(crate) fn at_line(line: u64, kind: TemplateKind) -> TemplateFault
    ensures { result ≡ at_line line kind }
{
    TemplateFault { line, kind }
}
