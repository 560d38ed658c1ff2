//! Why a certificate cannot be written, read or checked.
ghost use Rattle.std.specs.Prelude.{◌≡◌};
ghost use Rattle.tune_cert.specs.declared.fault.CertFault.TheVariants.{Write as WriteFault, OutOfMemory as WriteMemory};
ghost use Rattle.tune_cert.specs.declared.fault.ReadFault.TheVariants.{OutOfMemory as ReadMemory};
ghost use Rattle.tune_cert.specs.declared.fault.CheckFault.TheVariants.{OutOfMemory as CheckMemory};

use rc_instr::{OutOfMemory, WriteFailed};
use std::alloc::{AllocError, AllocFailed};
use thiserror::Error;

/// Why a certificate was not written.
#[derive(Clone, Copy, Debug, PartialEq, Eq, Error)]
pub enum CertFault {
    /// The writer failed.
    #[error("cannot write the certificate")]
    Write,
    /// An allocation failed.
    #[error("out of memory")]
    OutOfMemory,
}

/// Why bytes are not a certificate.
#[derive(Clone, Copy, Debug, PartialEq, Eq, Error)]
pub enum ReadFault {
    /// The record at this index, from 0, is malformed for its position, or record 0 or 1 is
    /// missing.
    #[error("record {row} of the certificate is malformed")]
    Malformed { row: u64 },
    /// An allocation failed.
    #[error("out of memory")]
    OutOfMemory,
}

/// Why a certificate could not be checked.
#[derive(Clone, Copy, Debug, PartialEq, Eq, Error)]
pub enum CheckFault {
    /// An allocation failed.
    #[error("out of memory")]
    OutOfMemory,
}

impl From<OutOfMemory> for CertFault {
    ghost from_gives = { λ _ e. e ≡ WriteMemory };

    fn from(_refused: OutOfMemory) -> CertFault {
        CertFault::OutOfMemory
    }
}

impl From<WriteFailed> for CertFault {
    ghost from_gives = { λ _ e. e ≡ WriteFault };

    fn from(_failed: WriteFailed) -> CertFault {
        CertFault::Write
    }
}

impl From<OutOfMemory> for ReadFault {
    ghost from_gives = { λ _ e. e ≡ ReadMemory };

    fn from(_refused: OutOfMemory) -> ReadFault {
        ReadFault::OutOfMemory
    }
}

impl<T: Drop> From<AllocFailed<T>> for ReadFault {
    ghost from_gives = { λ _ e. e ≡ ReadMemory };

    fn from(_refused: AllocFailed<T>) -> ReadFault {
        ReadFault::OutOfMemory
    }
}

impl From<OutOfMemory> for CheckFault {
    ghost from_gives = { λ _ e. e ≡ CheckMemory };

    fn from(_refused: OutOfMemory) -> CheckFault {
        CheckFault::OutOfMemory
    }
}

impl From<AllocError> for CheckFault {
    ghost from_gives = { λ _ e. e ≡ CheckMemory };

    fn from(_refused: AllocError) -> CheckFault {
        CheckFault::OutOfMemory
    }
}
