//! The faults that a failed allocation may cause.

use crate::verdict::{Refusal, Verdict};
use road_format::{LineFault, PlanLineFault};
use road_plan::PlanFault;
use road_replica::ReplicaFault;
use road_sessions::{LookFault, OpenFault, OutOfMemory, WriteFault};
use road_sheet::SheetFault;
use road_workers::CrewFault;
use road_world::{PlayFault, WorldFault};

// Return the verdict `Again` if a refused call ran out of memory, otherwise None.
fn again_if(is_out_of_memory: bool) -> Option<Verdict> {
    if is_out_of_memory {
        Some(Verdict::Again)
    } else {
        None
    }
}

impl Refusal for OutOfMemory {
    fn verdict_after_retry(&self) -> Option<Verdict> {
        Some(Verdict::Again)
    }
}

impl Refusal for CrewFault {
    fn verdict_after_retry(&self) -> Option<Verdict> {
        Some(match self {
            CrewFault::OutOfMemory => Verdict::Again,
            CrewFault::WorkersGone => Verdict::Restarted,
        })
    }
}

impl Refusal for PlanFault {
    fn verdict_after_retry(&self) -> Option<Verdict> {
        again_if(matches!(self, PlanFault::OutOfMemory))
    }
}

impl Refusal for LineFault {
    fn verdict_after_retry(&self) -> Option<Verdict> {
        again_if(matches!(self, LineFault::OutOfMemory))
    }
}

impl Refusal for PlanLineFault {
    fn verdict_after_retry(&self) -> Option<Verdict> {
        match self {
            PlanLineFault::OutOfMemory => Some(Verdict::Again),
            PlanLineFault::Plan(fault) => fault.verdict_after_retry(),
            PlanLineFault::NotJson | PlanLineFault::NotAPlan | PlanLineFault::Names => None,
        }
    }
}

impl Refusal for SheetFault {
    fn verdict_after_retry(&self) -> Option<Verdict> {
        again_if(matches!(self, SheetFault::OutOfMemory))
    }
}

impl Refusal for ReplicaFault {
    fn verdict_after_retry(&self) -> Option<Verdict> {
        again_if(matches!(self, ReplicaFault::OutOfMemory))
    }
}

impl Refusal for WorldFault {
    fn verdict_after_retry(&self) -> Option<Verdict> {
        match self {
            WorldFault::Replica(fault) => fault.verdict_after_retry(),
            WorldFault::NoReplica | WorldFault::NoMessage => None,
        }
    }
}

impl Refusal for PlayFault {
    fn verdict_after_retry(&self) -> Option<Verdict> {
        match self {
            PlayFault::OutOfMemory => Some(Verdict::Again),
        }
    }
}

/// A failed allocation never causes `NoPlace`, since the store reserves a place for each reader.
impl Refusal for OpenFault {
    fn verdict_after_retry(&self) -> Option<Verdict> {
        match self {
            OpenFault::OutOfMemory => Some(Verdict::Again),
            OpenFault::NoPlace => None,
        }
    }
}

impl Refusal for WriteFault {
    fn verdict_after_retry(&self) -> Option<Verdict> {
        match self {
            WriteFault::Replica(fault) => fault.verdict_after_retry(),
            WriteFault::JournalFull => None,
        }
    }
}

/// A look does not allocate: only the query of the sheet can run out of memory.
impl Refusal for LookFault {
    fn verdict_after_retry(&self) -> Option<Verdict> {
        match self {
            LookFault::Sheet(fault) => fault.verdict_after_retry(),
            LookFault::NotEntered => None,
        }
    }
}
