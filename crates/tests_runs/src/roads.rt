//! Random roads whose settings change at, before and after multiples of 64.

use crate::beside::{Beside, assert_same_throughout};
use road_ends::Stretch;
use std::alloc::Global;
use std::process::Abort;
use std::test::Fail;
use tests_plans::{Dice, random_plan, random_road, random_settings};

/// The seeds of settings, and the number of steps for which each is in force. The settings change one step before a
/// multiple of 64, at it, one step after it, in the middle, and so on. The last step is not a multiple.
const SPANS: &[(u32, u32)] = &[
    (11, 63),
    (12, 1),
    (13, 1),
    (14, 62),
    (15, 1),
    (16, 64),
    (17, 7),
    (18, 1),
    (19, 20),
];

/// The lengths of the shortest road, the longest, and others.
const LENGTHS: &[u32] = &[8, 9, 23, 65, 300, 700, 2_500, 8_192];

// Run both through the spans, and compare them after each step.
fn compare_spans(rt: &impl Abort, alloc: Global, beside: &mut Beside) -> Result<(), Fail> {
    for (seed, steps) in SPANS {
        let settings = random_settings(alloc, beside.plan(), *seed)?;
        beside.change(alloc, &settings)?;
        assert_same_throughout(rt, alloc, beside, *steps, "settings", *seed)?;
    }
    Ok(())
}

// Run both through the spans on a road of this many cells, from the empty road.
fn compare_from_empty_road(
    rt: &impl Abort,
    alloc: Global,
    dice: &mut Dice,
    length: u32,
) -> Result<(), Fail> {
    let mut beside = Beside::of_plan(alloc, random_plan(alloc, dice, length)?)?;
    compare_spans(rt, alloc, &mut beside)
}

#[test]
fn a_run_from_the_empty_road_equals_plain_steps(rt: HostRuntime) -> Result<(), Fail> {
    let mut dice = Dice::of(1);
    for length in LENGTHS {
        compare_from_empty_road(&rt, rt.alloc(), &mut dice, *length)?;
    }
    Ok(())
}

/// Steps at which a run continues from a road: the first and second step of a span, a step in its middle, its last
/// step, and a step in the last span that the tests reach.
const STARTS: &[u32] = &[0, 1, 37, 63, 64, 1_048_300];

// Continue from a road with about this many cars at a step.
fn restart_random(
    alloc: Global,
    dice: &mut Dice,
    beside: &mut Beside,
    cars: u32,
    step: u32,
) -> Result<(), Fail> {
    let whole = Stretch {
        first: 0,
        end: beside.plan().length(),
    };
    let road = random_road(alloc, dice, beside.plan(), cars)?;
    let settings = random_settings(alloc, beside.plan(), dice.below(1_000))?;
    beside.restart_on(alloc, &settings, step, whole, &road)
}

// Continue from a road with about this many cars at each of these steps.
fn restart_each(
    rt: &impl Abort,
    alloc: Global,
    dice: &mut Dice,
    beside: &mut Beside,
    cars: u32,
) -> Result<(), Fail> {
    for step in STARTS {
        restart_random(alloc, dice, beside, cars, *step)?;
        assert_same_throughout(rt, alloc, beside, 70, "begun at step", *step)?;
    }
    Ok(())
}

/// The lengths of roads from which a run continues.
const TAKEN: &[u32] = &[8, 40, 500, 3_000];

// Continue from roads of this many cells that are full, less full and sparse.
fn restart_roads(rt: &impl Abort, alloc: Global, dice: &mut Dice, length: u32) -> Result<(), Fail> {
    let mut beside = Beside::of_plan(alloc, random_plan(alloc, dice, length)?)?;
    restart_each(rt, alloc, dice, &mut beside, length)?;
    restart_each(rt, alloc, dice, &mut beside, length / 3)?;
    restart_each(rt, alloc, dice, &mut beside, length / 20)
}

#[test]
fn a_run_goes_on_from_any_road_at_any_step(rt: HostRuntime) -> Result<(), Fail> {
    let mut dice = Dice::of(2);
    for length in TAKEN {
        restart_roads(&rt, rt.alloc(), &mut dice, *length)?;
    }
    Ok(())
}
