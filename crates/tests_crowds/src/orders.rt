//! Many orders of the same writes have the same result.

use crate::crowds::{block_and_withdrawal, edit, has_result, run_crowd};
use road_plan::Object;
use road_scenario::{Edit, Value};
use road_workers::NoGate;
use std::alloc::Global;
use std::test::Fail;

/// The number of edits of each share.
const EDITS: u32 = 40;

/// The number of crowds with these shares.
const TIMES: u32 = 100;

// Return the edit that sets the limit of the only zone from a step on.
fn limit(step: u32) -> Edit {
    let count = u64::from(step).saturating_add(1);
    let number = (64 + step % 4) as u16;
    edit(Object::Limit(0), step, count, number, Value::Put(step % 3))
}

// Return the edits of all steps, beginning at one step and going around.
fn limits_from(alloc: Global, first: u32) -> Result<Vec<Edit>, Fail> {
    let mut edits = Vec::new(alloc);
    for turn in 0..EDITS {
        edits.push(limit((first % EDITS + turn) % EDITS))?;
    }
    Ok(edits)
}

#[test]
fn the_withdrawal_with_the_greater_stamp_wins(rt: HostRuntime) -> Result<(), Fail> {
    let alloc = rt.alloc();
    let shares = block_and_withdrawal(alloc)?;
    let withdrawal = edit(Object::Block(8), 4, 2, 64, Value::Withdrawn);
    for _ in 0..TIMES {
        let crowd = run_crowd(&rt, alloc, shares.as_slice(), 6, &NoGate)?;
        assert!(rt; has_result(&crowd, &[withdrawal], 4, "0..2...2...."));
    }
    Ok(())
}

#[test]
fn forty_edits_in_four_orders_have_one_result(rt: HostRuntime) -> Result<(), Fail> {
    let alloc = rt.alloc();
    let shares = vec![in alloc;
        limits_from(alloc, 0)?,
        limits_from(alloc, 10)?,
        limits_from(alloc, 20)?,
        limits_from(alloc, 30)?,
    ]?;
    let by_step = limits_from(alloc, 0)?;
    for _ in 0..TIMES {
        let crowd = run_crowd(&rt, alloc, shares.as_slice(), 6, &NoGate)?;
        assert!(rt; has_result(&crowd, by_step.as_slice(), 164, "0..2..2....."));
    }
    Ok(())
}
