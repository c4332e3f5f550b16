//! Replicas, most of them of the free road, and writes to them in the form that tables use.

use road_ends::Meter;
use road_plan::Object;
use road_replica::{OutOfMemory, Replica, ReplicaFault, Reply};
use road_scenario::{Edit, Scenario};
use road_workers::{Alone, Crew};
use std::alloc::Global;
use std::sync::Arc;
use std::test::Fail;
use tests_plans::{FREE, Parts, plan_of};

/// A write to a replica.
#[derive(Clone, Copy)]
pub(crate) enum Write {
    Edit(Object, u32, u32),
    Withdraw(Object, u32),
    Import(&'static [Edit]),
    Take(&'static [Edit]),
    Advance(u32),
}

/// Make a replica of a road before any write.
pub(crate) fn open_on(alloc: Global, parts: &Parts, number: u8) -> Result<Replica, Fail> {
    let plan = Arc::new(alloc, plan_of(alloc, parts)?)?;
    Ok(Replica::open(alloc, plan, (number % 64) as u32)?)
}

/// Make a replica of the free road before any write.
pub(crate) fn open(alloc: Global, number: u8) -> Result<Replica, Fail> {
    open_on(alloc, &FREE, number)
}

// Return the reply of a replica that takes edits.
fn take<C: Crew>(
    alloc: Global,
    replica: &mut Replica,
    edits: &[Edit],
    crew: &mut C,
    meter: &mut Meter,
) -> Result<Reply, ReplicaFault> {
    let scenario = Scenario::of_edits(alloc, edits)?;
    Ok(Reply::Touched(replica.take(alloc, &scenario, crew, meter)?))
}

/// Return the reply to a write.
pub(crate) fn apply_write<C: Crew>(
    alloc: Global,
    replica: &mut Replica,
    write: Write,
    crew: &mut C,
    meter: &mut Meter,
) -> Result<Reply, ReplicaFault> {
    match write {
        Write::Edit(object, step, value) => Ok(Reply::Stamped(replica.edit(
            alloc, object, step, value, crew, meter,
        )?)),
        Write::Withdraw(object, step) => Ok(Reply::Stamped(replica.withdraw(
            alloc, object, step, crew, meter,
        )?)),
        Write::Import(edits) => Ok(Reply::Touched(replica.import(alloc, edits, crew, meter)?)),
        Write::Take(edits) => take(alloc, replica, edits, crew, meter),
        Write::Advance(to) => Ok(Reply::Horizon(replica.advance(alloc, to, crew, meter)?)),
    }
}

/// Make a replica of the free road, and let it accept some writes with the crew of one.
pub(crate) fn replica_after(alloc: Global, number: u8, writes: &[Write]) -> Result<Replica, Fail> {
    let mut replica = open(alloc, number)?;
    for write in writes {
        apply_write(alloc, &mut replica, *write, &mut Alone, &mut Meter::new())?;
    }
    Ok(replica)
}

/// Return whether a replica holds exactly these edits, by object and step.
pub(crate) fn holds(alloc: Global, replica: &Replica, edits: &[Edit]) -> Result<bool, OutOfMemory> {
    let held = replica.scenario().edits(alloc)?;
    Ok(held.as_slice() == edits)
}

/// Return whether a replica shows exactly this row at a step.
pub(crate) fn shows(
    alloc: Global,
    replica: &Replica,
    step: u32,
    row: &str,
) -> Result<bool, ReplicaFault> {
    let rows = replica.rows(alloc, step, step)?;
    Ok(match rows.as_slice() {
        [shown] => shown.as_str() == row,
        _ => false,
    })
}
