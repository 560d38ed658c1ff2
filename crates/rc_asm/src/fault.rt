//! Why a text does not assemble, and where.
ghost use Rattle.std.specs.Prelude.{◌≡◌};
ghost use Rattle.rc_asm.specs.declared.fault.AsmKind.TheVariants.{Warrior};
ghost use Rattle.rc_asm.specs.Faults.{at_line};
ghost use Rattle.rc_asm.specs.Assembly.{expand_fault};

use rc_expand::{ExpandFault, ExpandKind};
use rc_instr::WarriorError;
use rc_text::EvalFault;
use std::alloc::{AllocError, AllocFailed};
use thiserror::Error;

/// Why a text does not assemble.
#[derive(Clone, Copy, Debug, PartialEq, Eq, Error)]
pub enum AsmKind {
    /// The text has no expansion.
    #[error("{0}")]
    Expand(ExpandKind),
    /// A line of code does not begin with an opcode, or no modifier follows its dot.
    #[error("unknown opcode or modifier")]
    UnknownOpcode,
    /// An operand that the opcode needs is missing, one side of a comma is empty, or ORG has no
    /// expression.
    #[error("missing operand")]
    MissingOperand,
    /// A line of code has more than one comma.
    #[error("too many operands")]
    ExtraText,
    /// An expression has no value.
    #[error("{0}")]
    Value(EvalFault),
    /// A `;assert` has the value 0.
    #[error("assertion failed")]
    AssertFailed,
    /// The code is not a warrior under the rules.
    #[error("{0}")]
    Warrior(WarriorError),
    /// The text has more than 65536 bytes.
    #[error("text longer than 65536 bytes")]
    TextTooLong,
    /// An allocation failed.
    #[error("out of memory")]
    OutOfMemory,
}

/// Why a text does not assemble, and at which line.
#[derive(Clone, Copy, Debug, PartialEq, Eq, Error)]
#[error("line {line}: {kind}")]
pub struct AsmFault {
    /// The line of the source, from 1; 0 for `Warrior`, `TextTooLong` and `OutOfMemory`.
    pub line: u64,
    /// The kind of the fault.
    pub kind: AsmKind,
}

impl From<EvalFault> for AsmKind {
    ghost use Rattle.std.specs.Prelude.{◌≡◌};
    ghost use Rattle.rc_asm.specs.declared.fault.AsmKind.TheVariants.{Value};

    ghost from_gives = { λ e k. k ≡ Value e };

    fn from(fault: EvalFault) -> Self {
        AsmKind::Value(fault)
    }
}

impl From<AllocError> for AsmFault {
    ghost use Rattle.std.specs.Prelude.{◌≡◌};
    ghost use Rattle.rc_asm.specs.declared.fault.AsmKind.TheVariants.{OutOfMemory};

    ghost from_gives = { λ _ f. f ≡ record { line = 0; kind = OutOfMemory } };

    fn from(_refused: AllocError) -> Self {
        at_line(0, AsmKind::OutOfMemory)
    }
}

impl<T: Drop> From<AllocFailed<T>> for AsmFault {
    ghost use Rattle.std.specs.Prelude.{◌≡◌};
    ghost use Rattle.rc_asm.specs.declared.fault.AsmKind.TheVariants.{OutOfMemory};

    ghost from_gives = { λ _ f. f ≡ record { line = 0; kind = OutOfMemory } };

    fn from(_refused: AllocFailed<T>) -> Self {
        at_line(0, AsmKind::OutOfMemory)
    }
}

pub(crate) fn at_line(line: u64, kind: AsmKind) -> AsmFault
    ensures { result ≡ at_line line kind }
{
    AsmFault { line, kind }
}

// Wraps a fault of the expansion. `OutOfMemory` stays `OutOfMemory`.
pub(crate) fn of_expansion(fault: ExpandFault) -> AsmFault
    ensures { result ≡ expand_fault fault }
{
    match fault.kind {
        ExpandKind::OutOfMemory => at_line(fault.line, AsmKind::OutOfMemory),
        kind => at_line(fault.line, AsmKind::Expand(kind)),
    }
}

// Wraps the fault of code that is not a warrior, which has no line.
pub(crate) fn of_warrior(error: WarriorError) -> AsmFault
    ensures { result ≡ at_line 0 (Warrior error) }
{
    at_line(0, AsmKind::Warrior(error))
}
