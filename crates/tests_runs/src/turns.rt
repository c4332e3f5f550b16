//! Settings that leave nothing to chance alternate with others in the middle of spans.

use crate::beside::{Beside, assert_same_throughout};
use road_plan::{OutOfMemory, Plan, Settings};
use std::alloc::Global;
use std::process::Abort;
use std::test::Fail;
use tests_plans::{DENSE, LONG, Parts, RANDOM};

/// The number of steps for which settings are in force, and their chances: slowing chance of moving cars, slowing
/// chance of standing cars, inflow chance. There is no chance up to the middle of the first span. Then each kind of
/// chance begins and ends, alone and with others, within a span and over the end of a span. Then come certain chances,
/// and chances that are nearly certain.
const TURNS: &[(u32, (u32, u32, u32))] = &[
    (30, (0, 0, 65_536)),
    (10, (30_000, 30_000, 65_536)),
    (40, (0, 0, 65_536)),
    (20, (0, 30_000, 65_536)),
    (9, (0, 0, 65_536)),
    (1, (30_000, 0, 65_536)),
    (12, (0, 0, 20_000)),
    (64, (0, 0, 65_536)),
    (20, (65_535, 1, 40_000)),
    (30, (65_536, 0, 65_536)),
    (5, (0, 65_536, 65_536)),
    (7, (20_000, 0, 65_536)),
    (70, (0, 0, 40_000)),
    (3, (10_000, 50_000, 0)),
    (11, (0, 0, 0)),
    (25, (1, 65_535, 65_536)),
];

// Make the plan's settings, but with these chances.
fn settings_of(
    alloc: Global,
    plan: &Plan,
    (moving, standing, inflow): (u32, u32, u32),
) -> Result<Settings, OutOfMemory> {
    let mut settings = Settings::of_plan(alloc, plan)?;
    settings.chances = vec![in alloc; moving; plan.zones().len()]?;
    settings.starts = vec![in alloc; standing; plan.zones().len()]?;
    settings.inflows = vec![in alloc; inflow; plan.inlets().len()]?;
    Ok(settings)
}

// Run both through the turns, and compare them after each step.
fn compare_turns(rt: &impl Abort, alloc: Global, beside: &mut Beside) -> Result<(), Fail> {
    for (turn, (steps, chances)) in TURNS.iter().enumerate() {
        let settings = settings_of(alloc, beside.plan(), *chances)?;
        beside.change(alloc, &settings)?;
        assert_same_throughout(rt, alloc, beside, *steps, "turn", turn as u32)?;
    }
    Ok(())
}

// Run both through the turns on the empty road of these parts.
fn compare_turns_on(rt: &impl Abort, alloc: Global, parts: &Parts) -> Result<(), Fail> {
    let mut beside = Beside::of_parts(alloc, parts)?;
    compare_turns(rt, alloc, &mut beside)
}

#[test]
fn chances_may_begin_and_end_in_the_middle_of_spans(rt: HostRuntime) -> Result<(), Fail> {
    compare_turns_on(&rt, rt.alloc(), &LONG)?;
    compare_turns_on(&rt, rt.alloc(), &RANDOM)?;
    compare_turns_on(&rt, rt.alloc(), &DENSE)
}
