//! Queries of a replica of the free road, with each refusal: before any step, for its worked counts, and at the maximum
//! horizon.

use crate::replicas::{Write, open, replica_after, shows};
use road_ends::Meter;
use road_plan::Object;
use road_replica::{Replica, ReplicaFault};
use road_workers::Alone;
use std::alloc::Global;
use std::test::Fail;
use tests_plans::pairs;

// Return whether a replica refuses to show a step, both its road and its row.
fn is_refused_at(alloc: Global, replica: &Replica, step: u32, fault: ReplicaFault) -> bool {
    replica.state(alloc, step).err() == Some(fault)
        && replica.rows(alloc, step, step).err() == Some(fault)
}

// Return whether a replica shows a step without a car with this row.
fn is_empty_at(
    alloc: Global,
    replica: &Replica,
    step: u32,
    row: &str,
) -> Result<bool, ReplicaFault> {
    let is_empty = replica.state(alloc, step)?.cars().is_empty();
    Ok(is_empty && shows(alloc, replica, step, row)?)
}

// Return whether an advance has this reply.
fn advances(
    alloc: Global,
    replica: &mut Replica,
    to: u32,
    horizon: Result<u32, ReplicaFault>,
) -> bool {
    replica.advance(alloc, to, &mut Alone, &mut Meter::new()) == horizon
}

#[test]
fn a_replica_shows_only_step_zero_before_it_advances(rt: HostRuntime) -> Result<(), Fail> {
    let alloc = rt.alloc();
    let mut replica = open(alloc, 0)?;
    assert!(&rt; is_empty_at(alloc, &replica, 0, "............")?);
    assert!(&rt; is_refused_at(alloc, &replica, 1, ReplicaFault::NotSimulated));
    assert!(&rt;
        advances(alloc, &mut replica, 6, Ok(6)) && advances(alloc, &mut replica, 3, Ok(6))
    );
    Ok(())
}

/// A detector and two steps, and what it counts from the first step to before the second: cars and the sum of their
/// speeds. The first car drives from cell 3 to 5 in step 2, the second in step 4.
type Count = ((u32, u32, u32), Result<(u32, u32), ReplicaFault>);

const COUNTS: &[Count] = pairs![
    (0, 0, 3) => Ok((1, 2)),
    (0, 0, 6) => Ok((2, 4)),
    (0, 2, 2) => Ok((0, 0)),
    (0, 0, 7) => Err(ReplicaFault::NotSimulated),
    (0, 3, 2) => Err(ReplicaFault::Range),
    (1, 0, 6) => Err(ReplicaFault::NoDetector),
];

// Return whether a replica counts as a table says.
fn counts(alloc: Global, replica: &Replica) -> bool {
    for ((detector, from, to), wanted) in COUNTS {
        let totals = replica.totals(alloc, *detector, *from, *to);
        if totals.map(|totals| (totals.cars, totals.speeds)) != *wanted {
            return false;
        }
    }
    true
}

#[test]
fn a_count_is_answered_or_refused_as_worked_out(rt: HostRuntime) -> Result<(), Fail> {
    let replica = replica_after(rt.alloc(), 0, &[Write::Advance(6)])?;
    assert!(&rt; counts(rt.alloc(), &replica));
    Ok(())
}

/// The cell of the only inlet is blocked, so that no car enters, and the replica is advanced as far as possible.
const CLOSED: &[Write] = &[
    Write::Edit(Object::Block(0), 0, 1),
    Write::Advance(1_048_576),
];

#[test]
fn a_replica_shows_the_maximum_horizon_and_nothing_after_it(rt: HostRuntime) -> Result<(), Fail> {
    let alloc = rt.alloc();
    let mut replica = replica_after(alloc, 0, CLOSED)?;
    let refused = Err(ReplicaFault::Horizon);
    assert!(&rt; advances(alloc, &mut replica, 1_048_577, refused));
    assert!(&rt; is_empty_at(alloc, &replica, 1_048_576, "#...........")?);
    assert!(&rt; is_refused_at(alloc, &replica, 1_048_577, ReplicaFault::NotSimulated));
    Ok(())
}
