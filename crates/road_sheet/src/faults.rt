//! The reasons why a sheet cannot answer a query.

ghost use Rattle.std.specs.Prelude.{◌≡◌};
ghost use Rattle.road_sheet.specs.declared.faults.SheetFault.TheVariants.{OutOfMemory};

use road_plan::limits::MOST_ROWS;
use std::alloc::AllocError;
use thiserror::Error;

/// The reason why a sheet cannot answer a query. The reasons are checked in this order, and the first that applies is
/// returned.
#[derive(Clone, Copy, Debug, PartialEq, Eq, Error)]
pub enum SheetFault {
    /// The plan has no such detector.
    #[error("the plan has no such detector")]
    NoDetector,
    /// The first step is after the last, or more rows are asked for than a query may return.
    #[error("the first step is after the last, or more than {most} rows are asked for", most = MOST_ROWS)]
    Range,
    /// A step is past the horizon.
    #[error("a step is not simulated")]
    NotSimulated,
    /// An allocation failed.
    #[error("no memory")]
    OutOfMemory,
}

impl From<AllocError> for SheetFault {
    ghost from_gives = { λ _ fault. fault ≡ OutOfMemory };

    fn from(_failed: AllocError) -> SheetFault {
        SheetFault::OutOfMemory
    }
}
