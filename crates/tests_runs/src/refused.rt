//! Roads that a run accepts or refuses to continue from.

use crate::beside::{Beside, assert_same_throughout};
use road_cells::Road;
use road_ends::{OutOfMemory, Stretch};
use std::alloc::Global;
use std::process::Abort;
use std::test::Fail;
use tests_plans::{LONG, car, random_settings, road_of};

/// A car, a stretch, and whether a run goes on from them.
type Row = ((u64, u32, u8), (u32, u32), bool);

/// The number, cell and speed of a car; the first cell of a stretch and the cell after its last cell; and whether a run
/// of the longest road goes on from them. The exit of that road begins at cell 8,189.
const CARS: &[Row] = &[
    ((0, 0, 0), (0, 8_192), true),
    ((0, 8_188, 9), (0, 8_192), true),
    ((0, 8_189, 0), (0, 8_192), false),
    ((0, 8_191, 0), (0, 8_192), false),
    ((0, 9_000, 0), (0, 8_192), false),
    ((0, 50, 0), (50, 60), true),
    ((0, 59, 0), (50, 60), true),
    ((0, 49, 0), (50, 60), false),
    ((0, 60, 0), (50, 60), false),
    ((0, 50, 0), (50, 50), false),
    ((0, 50, 9), (0, 8_192), true),
    ((0, 50, 10), (0, 8_192), false),
    ((0, 50, 255), (0, 8_192), false),
    ((4_294_967_295, 50, 0), (0, 8_192), true),
    ((4_294_967_296, 50, 0), (0, 8_192), false),
    ((18_446_744_073_709_551_615, 50, 0), (0, 8_192), false),
];

// Make the road of a car between two others, if these are on the stretch.
fn road_with(
    alloc: Global,
    (number, cell, speed): (u64, u32, u8),
    stretch: Stretch,
) -> Result<Road, OutOfMemory> {
    let mut cars = Vec::new(alloc);
    if stretch.first < cell && cell < stretch.end {
        cars.push(car(1, stretch.first, 3))?;
    }
    cars.push(car(number, cell, speed))?;
    if cell < 8_180 && cell.saturating_add(1) < stretch.end {
        cars.push(car(2, cell.saturating_add(1), 3))?;
    }
    road_of(alloc, &cars)
}

// Run both to the middle of a span, and return whether the run goes on from there with the road of a car on a stretch.
fn try_go_on(
    alloc: Global,
    beside: &mut Beside,
    car: (u64, u32, u8),
    stretch: Stretch,
) -> Result<bool, Fail> {
    for _ in 0..20 {
        beside.step(alloc)?;
    }
    let settings = random_settings(alloc, beside.plan(), 5)?;
    let road = road_with(alloc, car, stretch)?;
    beside.try_restart(alloc, &settings, 5, stretch, &road)
}

// Assert that a run goes on from a row's road, or refuses it, as expected. Assert that a refusal has changed nothing,
// neither the road nor the later steps.
fn check_row(
    rt: &impl Abort,
    alloc: Global,
    number: u32,
    (car, (first, end), wanted): Row,
) -> Result<(), Fail> {
    let mut beside = Beside::of_parts(alloc, &LONG)?;
    let taken = try_go_on(alloc, &mut beside, car, Stretch { first, end })?;
    assert!(rt; taken == wanted, "row {number}");
    if taken {
        return Ok(());
    }
    assert_same_throughout(rt, alloc, &mut beside, 50, "row", number)
}

#[test]
fn a_run_goes_on_from_a_road_only_if_it_can_have_each_car(rt: HostRuntime) -> Result<(), Fail> {
    for (number, row) in CARS.iter().enumerate() {
        check_row(&rt, rt.alloc(), number as u32, *row)?;
    }
    Ok(())
}
