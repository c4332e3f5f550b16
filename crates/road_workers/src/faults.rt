//! Why crews fail.

ghost use Rattle.std.specs.Prelude.{◌≡◌};
ghost use Rattle.road_workers.specs.declared.faults.CrewFault.TheVariants.{OutOfMemory};

use std::alloc::AllocError;
use thiserror::Error;

/// Why a crew failed to compute speeds or to run a span.
#[derive(Clone, Copy, Debug, PartialEq, Eq, Error)]
pub enum CrewFault {
    /// A worker's thread could not be started, or has gone.
    #[error("a worker could not be started or has gone")]
    WorkersGone,
    /// An allocation failed.
    #[error("no memory")]
    OutOfMemory,
}

impl From<AllocError> for CrewFault {
    ghost from_gives = { λ _ fault. fault ≡ OutOfMemory };

    fn from(_failed: AllocError) -> CrewFault {
        CrewFault::OutOfMemory
    }
}
