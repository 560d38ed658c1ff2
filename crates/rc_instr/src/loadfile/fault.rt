//! Why a load file is refused.
ghost use Rattle.std.specs.Prelude.{◌≡◌};
ghost use Rattle.rc_instr.specs.declared.loadfile.fault.LoadFault.TheVariants.{OutOfMemory as MemoryFault};

use crate::warrior::WarriorError;
use std::alloc::AllocFailed;
use thiserror::Error;

/// Why a load file is refused.
#[derive(Clone, Copy, Debug, PartialEq, Eq, Error)]
pub enum LoadFault {
    /// The first line that does not have the form of a load file's line, from 1.
    #[error("malformed line {line}")]
    Malformed { line: u64 },
    /// Every line is well formed, but the warrior breaks the rules.
    #[error("{0}")]
    Warrior(WarriorError),
    /// An allocation failed.
    #[error("out of memory")]
    OutOfMemory,
}

impl<T: Drop> From<AllocFailed<T>> for LoadFault {
    ghost from_gives = { λ _ e. e ≡ MemoryFault };

    fn from(_refused: AllocFailed<T>) -> LoadFault {
        LoadFault::OutOfMemory
    }
}
