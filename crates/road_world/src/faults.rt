//! The reasons why an event is refused, and why a list of events is not played.

ghost use Rattle.std.specs.Prelude.{◌≡◌};
ghost use Rattle.road_replica.specs.declared.faults.ReplicaFault.TheVariants as replicas;
ghost use Rattle.road_world.specs.declared.faults.PlayFault.TheVariants.{OutOfMemory};
ghost use Rattle.road_world.specs.declared.faults.WorldFault.TheVariants.{Replica};

use road_replica::ReplicaFault;
use std::alloc::AllocError;
use thiserror::Error;

/// The reason why an event is refused. The reasons are checked in this order. A refused event does nothing.
#[derive(Clone, Copy, Debug, PartialEq, Eq, Error)]
pub enum WorldFault {
    /// The world has no replica of this number.
    #[error("there is no such replica")]
    NoReplica,
    /// There is no message of this number, or it has no edits where edits are needed, or no heads where heads are
    /// needed.
    #[error("there is no such message, or it is of the wrong kind")]
    NoMessage,
    /// The replica refuses the event.
    #[error("{0}")]
    Replica(ReplicaFault),
}

impl From<ReplicaFault> for WorldFault {
    ghost from_gives = { λ cause fault. fault ≡ Replica cause };

    fn from(fault: ReplicaFault) -> WorldFault {
        WorldFault::Replica(fault)
    }
}

impl From<AllocError> for WorldFault {
    ghost from_gives = { λ _ fault. fault ≡ Replica replicas.OutOfMemory };

    fn from(_failed: AllocError) -> WorldFault {
        WorldFault::Replica(ReplicaFault::OutOfMemory)
    }
}

/// The reason why a list of events is not played to its end.
#[derive(Clone, Copy, Debug, PartialEq, Eq, Error)]
pub enum PlayFault {
    /// An allocation failed, for the world or for the list of replies.
    #[error("no memory")]
    OutOfMemory,
}

impl From<AllocError> for PlayFault {
    ghost from_gives = { λ _ fault. fault ≡ OutOfMemory };

    fn from(_failed: AllocError) -> PlayFault {
        PlayFault::OutOfMemory
    }
}
