//! Random roads, run by few lasting workers and by many, compared with the same steps one by one.

use crate::spans::{Asked, Course, compare_crews, run_course};
use road_plan::Plan;
use std::alloc::Global;
use std::process::Abort;
use std::slice;
use std::sync::{Arc, Wait};
use std::test::Fail;
use std::thread::Threads;
use tests_plans::{Dice, random_plan};

/// The seeds of settings, and the number of steps for which each is in force. The settings change one step before a
/// multiple of 64, at it, one step after it, and so on, but not at the last step. Three of these spans are long enough
/// to be shared.
const SPANS: &[(u32, u32)] = &[
    (11, 63),
    (12, 1),
    (13, 1),
    (14, 62),
    (0, 1),
    (15, 64),
    (16, 6),
];

/// Lengths of roads; one over the largest part of a road's cells that may be free at first; and in how many spans the
/// workers get work. A second program counted the cars before each span.
type Case = (&'static [u32], u32, &'static [Asked]);

/// On the shortest road and on others, stretches with the cells near them are no less work than the whole road.
const SHORT: Case = (
    &[8, 9, 65, 700, 2_500],
    2,
    &[(1, 2, 0), (2, 2, 0), (3, 4, 0), (7, 8, 0), (16, 16, 0)],
);

/// This road is divided for many workers, but not for few.
const MIDDLE: Case = (
    &[3_200],
    2,
    &[(1, 2, 0), (2, 2, 0), (3, 4, 3), (7, 8, 3), (16, 16, 3)],
);

/// These roads are divided for any number of workers. The longest road is one of them.
const LONG: Case = (
    &[5_000, 6_501, 8_192],
    20,
    &[(1, 2, 3), (2, 2, 3), (3, 4, 3), (7, 8, 3), (16, 16, 3)],
);

// Make the expected results of these spans on a random road. At first all of its cells are taken, except at most one in
// `part`.
fn random_course(
    alloc: Global,
    dice: &mut Dice,
    plan: &Arc<Plan>,
    part: u32,
) -> Result<Course<'static>, Fail> {
    let most = plan.length().saturating_sub(plan.exit());
    let free = most.checked_div(part).unwrap_or(0);
    let cells = most.saturating_sub(dice.below(free));
    run_course(alloc, plan, cells, SPANS)
}

// Compare the results of crews on a random road of this many cells.
fn run_road<R: Threads + Wait + Abort + Clone + Drop + Send + 'static>(
    rt: &R,
    alloc: Global,
    dice: &mut Dice,
    length: u32,
    part: u32,
    crews: &[Asked],
) -> Result<(), Fail> {
    let plan = Arc::new(alloc, random_plan(alloc, dice, length)?)?;
    let course = random_course(alloc, dice, &plan, part)?;
    compare_crews(rt, alloc, crews, &plan, slice::from_ref(&course))
}

// Compare the results of crews on random roads.
fn run_roads<R: Threads + Wait + Abort + Clone + Drop + Send + 'static>(
    rt: &R,
    alloc: Global,
    (lengths, part, crews): Case,
) -> Result<(), Fail> {
    let mut dice = Dice::of(64);
    for length in lengths {
        run_road(rt, alloc, &mut dice, *length, part, crews)?;
    }
    Ok(())
}

#[test]
fn short_random_roads_run_by_lasting_workers_equal_their_steps_one_by_one(
    rt: HostRuntime,
) -> Result<(), Fail> {
    run_roads(&rt, rt.alloc(), SHORT)
}

#[test]
fn random_roads_run_by_lasting_workers_equal_their_steps_one_by_one(
    rt: HostRuntime,
) -> Result<(), Fail> {
    run_roads(&rt, rt.alloc(), MIDDLE)
}

#[test]
fn long_random_roads_run_by_lasting_workers_equal_their_steps_one_by_one(
    rt: HostRuntime,
) -> Result<(), Fail> {
    run_roads(&rt, rt.alloc(), LONG)
}
