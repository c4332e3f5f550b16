//! Crowds on the free road, which the tests run.

use crate::shares::may_gather;
use road_crowd::crowd;
use road_plan::{Object, Plan};
use road_replica::Crowd;
use road_scenario::{Edit, Stamp, Value};
use road_workers::Gate;
use std::alloc::Global;
use std::sync::{Arc, Wait};
use std::test::Fail;
use std::thread::Threads;
use tests_plans::{FREE, plan_of};

/// Make an edit at a step, with a stamp of this count and number.
pub(crate) fn edit(object: Object, step: u32, count: u64, number: u16, value: Value) -> Edit {
    Edit {
        object,
        step,
        stamp: Stamp { count, number },
        value,
    }
}

/// Make two shares: one blocks cell 8 from step 4 on, and the other withdraws that with a greater stamp.
pub(crate) fn block_and_withdrawal(alloc: Global) -> Result<Vec<Vec<Edit>>, Fail> {
    let cell = Object::Block(8);
    let block = vec![in alloc; edit(cell, 4, 1, 64, Value::Put(1))]?;
    let withdrawal = vec![in alloc; edit(cell, 4, 2, 64, Value::Withdrawn)]?;
    Ok(vec![in alloc; block, withdrawal]?)
}

/// Return the plan of the free road.
pub(crate) fn free_road(alloc: Global) -> Result<Arc<Plan>, Fail> {
    Ok(Arc::new(alloc, plan_of(alloc, &FREE)?)?)
}

/// Run a crowd of these shares on the free road, and return its result.
pub(crate) fn run_crowd<R: Threads + Wait, G: Gate + Sync>(
    rt: &R,
    alloc: Global,
    shares: &[Vec<Edit>],
    to: u32,
    gate: &G,
) -> Result<Crowd, Fail> {
    let plan = free_road(alloc)?;
    if !may_gather(&plan, shares, to) {
        return Err(Fail::new("the crowd must be accepted"));
    }
    Ok(crowd(rt, alloc, &plan, shares, to, gate)?)
}

/// Return whether the result of a crowd has these edits, this many writes and this row.
pub(crate) fn has_result(crowd: &Crowd, edits: &[Edit], journal: u32, row: &str) -> bool {
    crowd.edits.as_slice() == edits && crowd.journal == journal && crowd.row.as_str() == row
}
