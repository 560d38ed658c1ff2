//! Why a search fails.
ghost use Rattle.std.specs.Prelude.{◌≡◌};
ghost use Rattle.tune_search.specs.declared.fault.SearchFault.TheVariants.{OutOfMemory};

use std::alloc::{AllocError, AllocFailed};
use thiserror::Error;

/// Why a search fails.
#[derive(Clone, Copy, Debug, PartialEq, Eq, Error)]
pub enum SearchFault {
    /// No setting assembles.
    #[error("no setting assembles")]
    NoCandidate,
    /// An allocation failed.
    #[error("out of memory")]
    OutOfMemory,
}

impl From<AllocError> for SearchFault {
    ghost from_gives = { λ _ e. e ≡ OutOfMemory };

    fn from(_refused: AllocError) -> SearchFault {
        SearchFault::OutOfMemory
    }
}

impl<T: Drop> From<AllocFailed<T>> for SearchFault {
    ghost from_gives = { λ _ e. e ≡ OutOfMemory };

    fn from(_refused: AllocFailed<T>) -> SearchFault {
        SearchFault::OutOfMemory
    }
}

impl From<rc_instr::OutOfMemory> for SearchFault {
    ghost from_gives = { λ _ e. e ≡ OutOfMemory };

    fn from(_refused: rc_instr::OutOfMemory) -> SearchFault {
        SearchFault::OutOfMemory
    }
}
