//! Counts that restart at zero.

use crate::beside::{Beside, Place, assert_at};
use road_detector::Totals;
use road_ends::{OutOfMemory, Stretch};
use road_plan::Settings;
use std::alloc::Global;
use std::process::Abort;
use std::test::Fail;
use tests_plans::LONG;

/// Steps before which counts restart: the first step of a span, a step in its middle, and its last step.
const RESTARTS: &[u32] = &[0, 30, 63, 64, 100, 128];

// Return whether nothing is counted.
fn is_nothing(totals: &[Totals]) -> bool {
    totals
        .iter()
        .all(|total| total.cars == 0 && total.speeds == 0)
}

// Return whether something is counted.
fn counts_something(alloc: Global, beside: &Beside) -> Result<bool, OutOfMemory> {
    let totals = beside.totals(alloc)?;
    Ok(!is_nothing(&totals))
}

// Restart all counts before a step. Return whether nothing is counted afterwards and, except before the first step,
// something was counted before.
fn check_restart(alloc: Global, beside: &mut Beside, step: u32) -> Result<bool, OutOfMemory> {
    let counted = counts_something(alloc, beside)?;
    beside.restart_counts(alloc)?;
    Ok((step == 0 || counted) && !counts_something(alloc, beside)?)
}

// Make steps of both, and restart the counts before some of them.
fn check_each_restart(rt: &impl Abort, alloc: Global, beside: &mut Beside) -> Result<(), Fail> {
    let name = "step";
    for number in 0..140u32 {
        let restarts = !RESTARTS.contains(&number) || check_restart(alloc, beside, number)?;
        beside.step(alloc)?;
        let are_same = beside.are_same(alloc)?;
        let done = 1;
        assert_at(rt, restarts && are_same, Place { name, number, done });
    }
    Ok(())
}

#[test]
fn counts_restart_at_zero(rt: HostRuntime) -> Result<(), Fail> {
    let mut beside = Beside::of_parts(rt.alloc(), &LONG)?;
    check_each_restart(&rt, rt.alloc(), &mut beside)
}

// Make this many steps of both.
fn go_on(alloc: Global, beside: &mut Beside, steps: u32) -> Result<(), Fail> {
    for _ in 0..steps {
        beside.step(alloc)?;
    }
    Ok(())
}

// Let both continue from their own road at a step.
fn restart_own(alloc: Global, beside: &mut Beside, step: u32) -> Result<(), Fail> {
    let road = beside.road().copied()?;
    let settings = Settings::of_plan(alloc, beside.plan())?;
    let stretch = Stretch {
        first: 0,
        end: beside.plan().length(),
    };
    beside.restart_on(alloc, &settings, step, stretch, &road)
}

// Return whether something is counted in a hundred steps, and nothing once both continue from the road.
fn check_restart_from_road(alloc: Global, beside: &mut Beside) -> Result<bool, Fail> {
    go_on(alloc, beside, 100)?;
    let counted = counts_something(alloc, beside)?;
    restart_own(alloc, beside, 100)?;
    Ok(counted && !counts_something(alloc, beside)?)
}

#[test]
fn counts_restart_at_zero_if_a_run_goes_on_from_a_road(rt: HostRuntime) -> Result<(), Fail> {
    let mut beside = Beside::of_parts(rt.alloc(), &LONG)?;
    assert!(rt; check_restart_from_road(rt.alloc(), &mut beside)?);
    Ok(())
}
