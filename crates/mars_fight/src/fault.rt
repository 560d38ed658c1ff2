//! Why a schedule is refused.
ghost use Rattle.std.specs.Prelude.{◌≡◌};
ghost use Rattle.mars_fight.specs.Faults.{at_row};

use rc_instr::OutOfMemory;
use std::alloc::AllocFailed;
use thiserror::Error;

/// Why a schedule, or one of its records, is refused.
#[derive(Clone, Copy, Debug, PartialEq, Eq, Error)]
pub enum ScheduleFaultKind {
    /// The first record is not a header, or there is none.
    #[error("first record must be opponent,position,first or opponent,position,first,weight")]
    Header,
    /// The record does not have as many fields as the header.
    #[error("expected as many fields as in the first record")]
    FieldCount,
    /// The opponent, the position or the weight is not 1 to 9 digits.
    #[error("expected 1 to 9 digits and nothing else")]
    BadNumber,
    /// The index is not below the number of opponents.
    #[error("no such opponent")]
    NoSuchOpponent,
    /// The position is below the distance, or above the core size minus the distance.
    #[error("position closer than the distance")]
    BadPosition,
    /// The first mover is neither `c` nor `o`.
    #[error("first mover must be c or o")]
    BadFirst,
    /// Nothing comes after the header.
    #[error("no fights")]
    Empty,
    /// A record comes after 10000 fights.
    #[error("more than 10000 fights")]
    TooMany,
    /// An allocation failed.
    #[error("out of memory")]
    OutOfMemory,
    /// The weight is not 1 to 1000.
    #[error("weight must be from 1 to 1000")]
    BadWeight,
}

/// Why a schedule is refused, and at which record.
#[derive(Clone, Copy, Debug, PartialEq, Eq, Error)]
#[error("record {row}: {kind}")]
pub struct ScheduleFault {
    /// The index of the record: 0 for the header, 1 for the first fight; 0 also for `Empty` and
    /// `OutOfMemory`.
    pub row: u64,
    /// What is wrong with the record.
    pub kind: ScheduleFaultKind,
}

impl From<OutOfMemory> for ScheduleFault {
    ghost use Rattle.std.specs.Prelude.{◌≡◌};
    ghost use Rattle.mars_fight.specs.Faults.{at_row};
    ghost use Rattle.mars_fight.specs.declared.fault.ScheduleFaultKind.TheVariants.{OutOfMemory};

    ghost from_gives = { λ _ e. e ≡ at_row 0 OutOfMemory };

    fn from(_refused: OutOfMemory) -> ScheduleFault {
        at_row(0, ScheduleFaultKind::OutOfMemory)
    }
}

impl<T: Drop> From<AllocFailed<T>> for ScheduleFault {
    ghost use Rattle.std.specs.Prelude.{◌≡◌};
    ghost use Rattle.mars_fight.specs.Faults.{at_row};
    ghost use Rattle.mars_fight.specs.declared.fault.ScheduleFaultKind.TheVariants.{OutOfMemory};

    ghost from_gives = { λ _ e. e ≡ at_row 0 OutOfMemory };

    fn from(_refused: AllocFailed<T>) -> ScheduleFault {
        at_row(0, ScheduleFaultKind::OutOfMemory)
    }
}

// Gives a fault its record.
pub(crate) fn at_row(row: u64, kind: ScheduleFaultKind) -> ScheduleFault
    ensures { result ≡ at_row row kind }
{
    ScheduleFault { row, kind }
}
