//! The reasons why a replica refuses a call, and how it names the faults of the layers below.

ghost use Rattle.std.specs.Prelude.{◌≡◌};
ghost use Rattle.road_replica.specs.Refusals as refusals;
ghost use Rattle.road_replica.specs.declared.faults.ReplicaFault.TheVariants.{OutOfMemory};

use road_plan::limits::{
    FIRST_IMPORT_NUMBER, GREATEST_COUNT, GREATEST_HORIZON, LAST_EDIT_STEP, MOST_ROWS,
};
use road_rewind::GrownFault;
use road_scenario::EditFault;
use road_sheet::SheetFault;
use std::alloc::AllocError;
use thiserror::Error;

/// The reason why a replica refuses a call. The reasons are checked in this order, and the first that applies is
/// returned. For a list of edits it is that of the first faulty edit.
#[derive(Clone, Copy, Debug, PartialEq, Eq, Error)]
pub enum ReplicaFault {
    /// The plan has no such zone, cell, inlet or detector.
    #[error("the plan has no such object")]
    NoObject,
    /// An edit's step is too late.
    #[error("the step is above {last}", last = LAST_EDIT_STEP)]
    Step,
    /// The number is out of the object's range.
    #[error("the number is out of the object's range")]
    ValueOutOfRange,
    /// The count of an edit from elsewhere is 0 or too large.
    #[error("the count is not 1 to {most}", most = GREATEST_COUNT)]
    Count,
    /// An imported edit has the number of a replica.
    #[error("the stamp of an imported edit has a number below {least}", least = FIRST_IMPORT_NUMBER)]
    Insider,
    /// The replica holds an edit with the greatest count, so it cannot make an edit with a greater one.
    #[error("an edit with the greatest count is held")]
    CountsSpent,
    /// A horizon is too late.
    #[error("the horizon is above {greatest}", greatest = GREATEST_HORIZON)]
    Horizon,
    /// The plan has no such detector.
    #[error("the plan has no such detector")]
    NoDetector,
    /// The first step is after the last, or there are too many rows.
    #[error("the first step is after the last, or there are more than {most} rows", most = MOST_ROWS)]
    Range,
    /// A step is past the horizon.
    #[error("a step is not simulated")]
    NotSimulated,
    /// A worker's thread could not be started, or has ended.
    #[error("a worker could not be started or has gone")]
    WorkersGone,
    /// An allocation failed.
    #[error("no memory")]
    OutOfMemory,
}

impl From<AllocError> for ReplicaFault {
    ghost from_gives = { λ _ fault. fault ≡ OutOfMemory };

    fn from(_failed: AllocError) -> ReplicaFault {
        ReplicaFault::OutOfMemory
    }
}

impl From<SheetFault> for ReplicaFault {
    ghost from_gives = { λ fault made. made ≡ refusals.query_fault fault };

    fn from(fault: SheetFault) -> ReplicaFault {
        match fault {
            SheetFault::NoDetector => ReplicaFault::NoDetector,
            SheetFault::Range => ReplicaFault::Range,
            SheetFault::NotSimulated => ReplicaFault::NotSimulated,
            SheetFault::OutOfMemory => ReplicaFault::OutOfMemory,
        }
    }
}

impl From<GrownFault> for ReplicaFault {
    ghost from_gives = { λ fault made. made ≡ refusals.growth_fault fault };

    fn from(fault: GrownFault) -> ReplicaFault {
        match fault {
            GrownFault::WorkersGone => ReplicaFault::WorkersGone,
            GrownFault::OutOfMemory => ReplicaFault::OutOfMemory,
        }
    }
}

// Return the refusal of an edit that comes from elsewhere.
pub(crate) fn fault_of_received_edit(fault: EditFault) -> ReplicaFault
    ensures { result ≡ refusals.received_edit_fault fault }
{
    match fault {
        EditFault::NoObject => ReplicaFault::NoObject,
        EditFault::Step => ReplicaFault::Step,
        EditFault::ValueOutOfRange => ReplicaFault::ValueOutOfRange,
        EditFault::Count => ReplicaFault::Count,
    }
}

// Return the refusal of an edit that the replica would make.
pub(crate) fn fault_of_own_edit(fault: EditFault) -> ReplicaFault
    ensures { result ≡ refusals.own_edit_fault fault }
{
    match fault {
        EditFault::NoObject => ReplicaFault::NoObject,
        EditFault::Step => ReplicaFault::Step,
        EditFault::ValueOutOfRange => ReplicaFault::ValueOutOfRange,
        EditFault::Count => ReplicaFault::CountsSpent,
    }
}
