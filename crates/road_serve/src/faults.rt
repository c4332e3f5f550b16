//! How a run fails.

ghost use Rattle.std.specs.Prelude.{◌≡◌};
ghost use Rattle.road_serve.specs.Faults.{crew_fault, early_fault};
ghost use Rattle.road_serve.specs.declared.faults.ServeFault.TheVariants.{OutOfMemory, Read, Write};

use road_workers::CrewFault;
use std::alloc::{AllocError, AllocFailed};
use thiserror::Error;

/// Why a run ended before all of its input was answered.
#[derive(Debug, Drop, Error)]
pub enum ServeFault {
    /// The plan line was refused, or there was none. The refusal was written.
    #[error("bad plan")]
    BadPlan,
    /// An allocation failed.
    #[error("no memory")]
    OutOfMemory,
    /// A write or a flush failed.
    #[error("write fault")]
    Write,
    /// A read failed.
    #[error("read fault")]
    Read,
    /// A byte past the limit of lines or the limit of bytes was read.
    #[error("too many lines")]
    TooMany,
    /// A worker of the crew, or a session's thread, could not be started or has ended.
    #[error("workers gone")]
    WorkersGone,
}

/// Why a run is over before the end of its input.
#[derive(Clone, Copy, Debug, PartialEq, Eq)]
pub enum EarlyEnd {
    /// The plan line was refused, or there was none.
    BadPlan,
    /// There was a byte after the last line that is allowed.
    TooMany,
}

impl EarlyEnd {
    /// Return the fault with which a run ends for this cause.
    pub fn fault(self) -> ServeFault
        ensures { result ≡ early_fault self }
    {
        match self {
            EarlyEnd::BadPlan => ServeFault::BadPlan,
            EarlyEnd::TooMany => ServeFault::TooMany,
        }
    }
}

/// A source could not be read.
#[derive(Debug, Drop, Error)]
#[error("the read failed")]
pub struct ReadFailed;

/// A sink took nothing of a piece, or could not be flushed.
#[derive(Debug, Drop, Error)]
#[error("the write failed")]
pub struct WriteFailed;

impl From<ReadFailed> for ServeFault {
    ghost from_gives = { λ _ fault. fault ≡ Read };

    fn from(_failed: ReadFailed) -> ServeFault {
        ServeFault::Read
    }
}

impl From<WriteFailed> for ServeFault {
    ghost from_gives = { λ _ fault. fault ≡ Write };

    fn from(_failed: WriteFailed) -> ServeFault {
        ServeFault::Write
    }
}

impl From<CrewFault> for ServeFault {
    ghost from_gives = { λ failed fault. fault ≡ crew_fault failed };

    fn from(failed: CrewFault) -> ServeFault {
        match failed {
            CrewFault::WorkersGone => ServeFault::WorkersGone,
            CrewFault::OutOfMemory => ServeFault::OutOfMemory,
        }
    }
}

impl From<AllocError> for ServeFault {
    ghost from_gives = { λ _ fault. fault ≡ OutOfMemory };

    fn from(_failed: AllocError) -> ServeFault {
        ServeFault::OutOfMemory
    }
}

impl<T: Drop> From<AllocFailed<T>> for ServeFault {
    ghost from_gives = { λ _ fault. fault ≡ OutOfMemory };

    fn from(_failed: AllocFailed<T>) -> ServeFault {
        ServeFault::OutOfMemory
    }
}
