//! The texts of the errors of replicas and worlds.

use road_replica::ReplicaFault;
use road_world::{OutOfMemory, PlayFault, WorldFault};
use std::alloc::Global;
use std::test::Fail;
use tests_plans::pairs;

const TEXTS: &[(WorldFault, &str)] = pairs![
    WorldFault::NoReplica => "there is no such replica",
    WorldFault::NoMessage => "there is no such message, or it is of the wrong kind",
    WorldFault::Replica(ReplicaFault::NoObject) => "the plan has no such object",
    WorldFault::Replica(ReplicaFault::Step) => "the step is above 1048575",
    WorldFault::Replica(ReplicaFault::ValueOutOfRange) => "the number is out of the object's range",
    WorldFault::Replica(ReplicaFault::Count) => "the count is not 1 to 281474976710656",
    WorldFault::Replica(ReplicaFault::Insider) => "the stamp of an imported edit has a number below 64",
    WorldFault::Replica(ReplicaFault::CountsSpent) => "an edit with the greatest count is held",
    WorldFault::Replica(ReplicaFault::Horizon) => "the horizon is above 1048576",
    WorldFault::Replica(ReplicaFault::NoDetector) => "the plan has no such detector",
    WorldFault::Replica(ReplicaFault::Range) => "the first step is after the last, or there are more than 1024 rows",
    WorldFault::Replica(ReplicaFault::NotSimulated) => "a step is not simulated",
    WorldFault::Replica(ReplicaFault::WorkersGone) => "a worker could not be started or has gone",
    WorldFault::Replica(ReplicaFault::OutOfMemory) => "no memory",
];

// Return the text of a world's error.
fn text_of(alloc: Global, fault: WorldFault) -> Result<String, OutOfMemory> {
    format!(in alloc; "{fault}")
}

#[test]
fn each_error_has_its_text(rt: HostRuntime) -> Result<(), Fail> {
    for (fault, text) in TEXTS {
        let said = text_of(rt.alloc(), *fault)?;
        assert!(rt; said.as_str() == *text);
    }
    let said = format!(in rt.alloc(); "{}", PlayFault::OutOfMemory)?;
    assert!(rt; said.as_str() == "no memory");
    Ok(())
}
