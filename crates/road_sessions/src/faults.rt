//! The reasons why a call of a store or a session is refused.
ghost use Rattle.std.specs.Prelude.{◌≡◌};
ghost use Rattle.road_sessions.specs.declared.faults.OpenFault.TheVariants as openings;
ghost use Rattle.road_sessions.specs.declared.faults.WriteFault.TheVariants as writes;

use road_replica::ReplicaFault;
use road_sheet::SheetFault;
use std::alloc::AllocError;
use thiserror::Error;

/// The reason why a store cannot be opened.
#[derive(Clone, Copy, Debug, PartialEq, Eq, Error)]
pub enum OpenFault {
    /// The store gave a session no reader.
    #[error("the store has no place for a session")]
    NoPlace,
    /// An allocation failed.
    #[error("no memory")]
    OutOfMemory,
}

impl From<AllocError> for OpenFault {
    ghost from_gives = { λ _ fault. fault ≡ openings.OutOfMemory };

    fn from(_failed: AllocError) -> OpenFault {
        OpenFault::OutOfMemory
    }
}

/// The reason why a write is refused. The room of the journal is checked first.
#[derive(Clone, Copy, Debug, PartialEq, Eq, Error)]
pub enum WriteFault {
    /// The journal has as many writes as the store was prepared for.
    #[error("the journal is full")]
    JournalFull,
    /// The replica refuses it.
    #[error("{0}")]
    Replica(ReplicaFault),
}

impl From<ReplicaFault> for WriteFault {
    ghost from_gives = { λ cause fault. fault ≡ writes.Replica cause };

    fn from(fault: ReplicaFault) -> WriteFault {
        WriteFault::Replica(fault)
    }
}

/// The reason why a look, or a query that looks first, is refused.
#[derive(Clone, Copy, Debug, PartialEq, Eq, Error)]
pub enum LookFault {
    /// The store did not let the session enter. The session is unchanged.
    #[error("the store was not entered")]
    NotEntered,
    /// The sheet refuses the query, or already has as many owners as it can have.
    #[error("{0}")]
    Sheet(SheetFault),
}

/// The reason why a store is not closed.
#[derive(Clone, Copy, Debug, PartialEq, Eq, Error)]
pub enum CloseCause {
    /// The caller did not pass all its sessions.
    #[error("not all sessions are given")]
    Missing,
    /// An allocation failed. `close` does not allocate, so it never returns this.
    #[error("no memory")]
    OutOfMemory,
}
