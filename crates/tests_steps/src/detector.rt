//! Counts at any speeds, and rows. The counts of the free road are tested with the program
//! (`tests/scripts/counts.jsonl`).

use crate::assert_row;
use road_cells::{Car, Road};
use road_detector::{Totals, passes};
use road_ends::{OutOfMemory, StepInput, enter};
use road_plan::{Plan, Settings, WordKind};
use std::alloc::Global;
use std::process::Abort;
use std::sync::Arc;
use std::test::Fail;
use tests_plans::{Parts, cars, plan_of, row_of};

// Make the input of step 1 on a road.
fn input_of(alloc: Global, plan: &Arc<Plan>, road: &Road) -> Result<Arc<StepInput>, OutOfMemory> {
    let settings = Settings::of_plan(alloc, plan)?;
    enter(alloc, plan, settings, 1, road)
}

// Return the counts of a detector, if the plan has the detector and there is a speed for each car.
fn count_passing(input: &StepInput, speeds: &[u8], detector: u32) -> Option<Totals> {
    if speeds.len() == input.road().cars().len()
        && (detector as usize) < input.plan().detectors().len()
    {
        Some(passes(input, speeds, detector))
    } else {
        None
    }
}

/// A road of 400 cells where no car enters.
const LONG: Parts = Parts {
    road: (400, 1, 400),
    zones: &[(9, 0)],
    inlets: &[(0, 0)],
    detectors: &[100, 300, 1, 398],
    words: WordKind::Seeded(7),
};

/// Six cars on it.
const CARS: &[Car] = cars![
    (1, 0, 0),
    (2, 44, 0),
    (3, 45, 0),
    (4, 100, 0),
    (5, 299, 0),
    (6, 397, 0)
];

/// The speeds of the six cars, and the counts of a detector.
const PASSES: &[(&[u8], u32, u32, u32)] = &[
    (&[0, 0, 0, 0, 0, 0], 0, 0, 0),
    (&[0, 55, 54, 9, 0, 0], 0, 0, 0),
    (&[0, 56, 0, 9, 0, 0], 0, 1, 56),
    (&[0, 0, 55, 9, 0, 0], 0, 1, 55),
    (&[100, 56, 55, 9, 0, 0], 0, 3, 211),
    (&[255, 255, 254, 199, 0, 9], 1, 0, 0),
    (&[255, 255, 255, 200, 1, 9], 1, 3, 456),
    (&[0, 0, 0, 0, 1, 0], 1, 1, 1),
    (&[1, 0, 0, 0, 0, 0], 2, 1, 1),
    (&[0, 0, 0, 0, 0, 1], 3, 1, 1),
    (&[0, 0, 0, 0, 99, 9], 3, 2, 108),
    (&[0, 0, 0, 0, 98, 0], 3, 0, 0),
];

// Assert that the detectors count as each row says.
fn passes_are_counted(rt: &impl Abort, input: &StepInput) {
    for (row, (speeds, detector, cars, sum)) in PASSES.iter().enumerate() {
        let wanted = Totals {
            cars: *cars,
            speeds: *sum,
        };
        assert_row(
            rt,
            row,
            count_passing(input, speeds, *detector) == Some(wanted),
        );
    }
}

// Make the input of a step on the road of the six cars.
fn input_of_six_cars(alloc: Global, plan: &Arc<Plan>) -> Result<Arc<StepInput>, OutOfMemory> {
    let road = Road::of(CARS.to_vec(alloc)?);
    input_of(alloc, plan, &road)
}

#[test]
fn detectors_count_at_any_speeds(rt: HostRuntime) -> Result<(), Fail> {
    let plan = Arc::new(rt.alloc(), plan_of(rt.alloc(), &LONG)?)?;
    let input = input_of_six_cars(rt.alloc(), &plan)?;
    passes_are_counted(&rt, &input);
    Ok(())
}

/// Cars on a row of 12 cells, and cars past it.
const DRAWN: &[Car] = cars![(1, 0, 9), (2, 3, 0), (3, 11, 1), (4, 12, 2)];

/// Blocked cells, and how the cars are drawn with them.
const ROWS: &[(&[u32], &str)] = &[
    (&[], "9..0.......1"),
    (&[5, 3, 1, 40], "9#.0.#.....1"),
    (&[11, 10, 10, 0, 12], "9..0......#1"),
    (&[4_294_967_295], "9..0.......1"),
];

// Assert that the cars of a road are drawn as each row says.
fn rows_are_drawn(rt: &impl Abort, alloc: Global, road: &Road) -> Result<(), Fail> {
    for (row, (blocks, text)) in ROWS.iter().enumerate() {
        let drawn = row_of(alloc, road, blocks, 12)?;
        assert_row(rt, row, drawn.as_str() == *text);
    }
    Ok(())
}

#[test]
fn blocks_are_drawn_in_any_order(rt: HostRuntime) -> Result<(), Fail> {
    let road = Road::of(DRAWN.to_vec(rt.alloc())?);
    rows_are_drawn(&rt, rt.alloc(), &road)
}
