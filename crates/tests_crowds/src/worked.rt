//! Worked crowds, and edits that no crowd may have.

use crate::crowds::{edit, free_road, has_result, run_crowd};
use road_plan::Object;
use road_replica::{ReplicaFault, shares_fault};
use road_scenario::{Edit, Value};
use road_workers::NoGate;
use std::test::Fail;

#[test]
fn an_empty_share_advances(rt: HostRuntime) -> Result<(), Fail> {
    let alloc = rt.alloc();
    let shares: Vec<Vec<Edit>> = vec![in alloc; Vec::new(alloc)]?;
    let crowd = run_crowd(&rt, alloc, shares.as_slice(), 0, &NoGate)?;
    assert!(rt; has_result(&crowd, &[], 1, "............"));
    Ok(())
}

#[test]
fn the_first_faulty_edit_is_named(rt: HostRuntime) -> Result<(), Fail> {
    let alloc = rt.alloc();
    let plan = free_road(alloc)?;
    let insider = edit(Object::Limit(0), 0, 1, 3, Value::Put(1));
    let elsewhere = edit(Object::Limit(1), 0, 1, 64, Value::Put(1));
    let shares: Vec<Vec<Edit>> = vec![in alloc;
        Vec::new(alloc),
        vec![in alloc; insider]?,
        vec![in alloc; elsewhere]?,
    ]?;
    let far = 4_000_000;
    assert!(rt; shares_fault(&plan, shares.as_slice(), far) == Some(ReplicaFault::Insider));
    let (front, back) = shares.as_slice().split_at(1);
    assert!(rt; shares_fault(&plan, front, far) == Some(ReplicaFault::Horizon));
    assert!(rt; shares_fault(&plan, back.split_at(1).1, 6) == Some(ReplicaFault::NoObject));
    assert!(rt; shares_fault(&plan, front, 6).is_none());
    Ok(())
}
