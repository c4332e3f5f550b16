//! How a crowd reports the faults of a store and of its sessions.

ghost use Rattle.std.specs.Prelude.{◌≡◌};
ghost use Rattle.road_crowd.specs.Private.Works.{IsFullOrNoMemory};
ghost use Rattle.road_workers.specs.declared.faults.CrewFault.TheVariants as crew;

use road_plan::OutOfMemory;
use road_replica::ReplicaFault;
use road_sessions::{OpenFault, WriteFault};
use road_workers::CrewFault;

// Return why a crowd has no store: always out of memory.
pub(crate) fn opening_fault(fault: OpenFault) -> CrewFault
    ensures { result ≡ crew.OutOfMemory }
{
    match fault {
        // The store has a place for each session.
        OpenFault::NoPlace => CrewFault::OutOfMemory,
        OpenFault::OutOfMemory => CrewFault::OutOfMemory,
    }
}

// Return why a write of a crowd's session was refused: always out of memory, since the replica has no named cause to
// refuse it, and a crew of one loses no worker.
pub(crate) fn write_fault(fault: WriteFault) -> OutOfMemory
    requires { IsFullOrNoMemory fault }
{
    match fault {
        // The journal has room for all writes, but no contract says so: a session does not see what the others wrote.
        WriteFault::JournalFull => OutOfMemory,
        WriteFault::Replica(ReplicaFault::OutOfMemory) => OutOfMemory,
        WriteFault::Replica(_) => unreachable!(),
    }
}
