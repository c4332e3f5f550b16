//! Small roads worked out by hand.

ghost use Rattle.std.specs.Prelude.{◌≡◌, IsTrue, IfOk};
ghost use Rattle.std.specs.List.Sorted.{IsNonDecreasing};
ghost use Rattle.road_cells.specs.Cars.{AreRising, cars_of};

use crate::assert_row;
use road_cells::{Car, GREATEST_SPEED, OutOfMemory, Road, reached_blocks, reached_blocks_below};
use std::alloc::Global;
use std::test::Fail;
use tests_plans::{CARS_AT_SIX, cars};

/// The three cars of the road `0..2...2....`, where each digit is a car's speed.
const CARS: &[Car] = CARS_AT_SIX;

fn road_of(alloc: Global, cars: &[Car]) -> Result<Road, OutOfMemory>
    requires { AreRising cars.now }
    ensures { IfOk result (λ road. cars_of road ≡ cars.now) }
{
    Ok(Road::of(cars.to_vec(alloc)?))
}

// Return whether a road of these cars stores them, and gives them to a copy.
fn keeps(alloc: Global, cars: &[Car]) -> Result<bool, OutOfMemory>
    requires { AreRising cars.now }
{
    let road = road_of(alloc, cars)?;
    let copied = road.copied()?.into_cars();
    Ok(road.cars() == cars && copied.as_slice() == cars)
}

#[test]
fn a_road_stores_and_copies_its_cars(rt: HostRuntime) -> Result<(), Fail> {
    assert_row(&rt, 0, keeps(rt.alloc(), CARS)?);
    assert_row(&rt, 1, keeps(rt.alloc(), &[])?);
    Ok(())
}

#[test]
fn an_empty_road_has_no_car(rt: HostRuntime) {
    let road = Road::empty(rt.alloc());
    assert_row(&rt, 0, road.cars().is_empty() && road.car_at(0).is_none());
}

/// A cell, the number of the car there, if there is one, and the number of cars before the cell.
const FOUND: &[(u32, Option<u64>, usize)] = &[
    (0, Some(80), 0),
    (1, None, 1),
    (2, None, 1),
    (3, Some(48), 1),
    (4, None, 2),
    (6, None, 2),
    (7, Some(16), 2),
    (8, None, 3),
    (4_294_967_295, None, 3),
];

// Return whether the search finds this car at the cell, and this many cars before it.
fn is_found(road: &Road, (cell, number, before): &(u32, Option<u64>, usize)) -> bool {
    let found = match road.car_at(*cell) {
        Some(car) => Some(car.number),
        None => None,
    };
    found == *number && road.cars_before(*cell) == *before
}

#[test]
fn the_car_of_a_cell_is_found(rt: HostRuntime) -> Result<(), Fail> {
    let road = road_of(rt.alloc(), CARS)?;
    for (row, found) in FOUND.iter().enumerate() {
        assert_row(&rt, row, is_found(&road, found));
    }
    Ok(())
}

/// Two cells, and the places of the cars from the first cell to before the second: the first place, and the place after
/// the last.
const BETWEEN: &[((u32, u32), (usize, usize))] = &[
    ((0, 3), (0, 1)),
    ((3, 7), (1, 2)),
    ((1, 9), (1, 3)),
    ((4, 7), (2, 2)),
];

#[test]
fn the_cars_between_two_cells_are_found(rt: HostRuntime) -> Result<(), Fail> {
    let road = road_of(rt.alloc(), CARS)?;
    for (row, ((from, to), (first, end))) in BETWEEN.iter().enumerate() {
        let between = road.between(*from, *to);
        assert_row(&rt, row, CARS.get(*first..*end) == Some(between));
    }
    Ok(())
}

/// Blocked cells, and the free cells in front of the last car, which is at cell 7. The road has no end here.
const TO_BLOCK: &[(&[u32], u8)] = &[
    (&[], GREATEST_SPEED),
    // a block in the next, the ninth and the tenth cell
    (&[8], 0),
    (&[16], 8),
    (&[17], 9),
    // blocks behind the car and under it, and the first of two blocks in front
    (&[0, 6, 7], 9),
    (&[3, 12, 15], 4),
];

/// Blocked cells, and the free cells in front of the second car, which is at cell 3.
const TO_CAR: &[(&[u32], u8)] = &[
    (&[], 3),
    // a block in front of the next car, under it and past it
    (&[5], 1),
    (&[7], 3),
    (&[9], 3),
];

// Return whether blocked cells rise.
fn rises(blocks: &[u32]) -> bool
    ensures { IsTrue result → IsNonDecreasing blocks.now }
{
    blocks.is_sorted()
}

// Return whether a car of a road has this many free cells in front of it.
fn sees(road: &Road, place: usize, (blocks, gap): &(&[u32], u8)) -> bool {
    if place >= road.cars().len() || !rises(blocks) {
        return false;
    }
    let reached = reached_blocks(blocks, road.cars()[place].cell);
    road.gap(place, blocks) == *gap && road.gap_to(place, blocks, reached) == *gap
}

#[test]
fn a_gap_ends_at_the_next_car_or_block(rt: HostRuntime) -> Result<(), Fail> {
    let road = road_of(rt.alloc(), CARS)?;
    for (row, said) in TO_BLOCK.iter().enumerate() {
        assert_row(&rt, row, sees(&road, 2, said));
    }
    for (row, said) in TO_CAR.iter().enumerate() {
        assert_row(&rt, row, sees(&road, 1, said));
    }
    Ok(())
}

/// Cars whose next car is in the next, ninth, tenth and eleventh cell.
const FAR: &[Car] = cars![(1, 5, 0), (2, 6, 0), (3, 15, 0), (4, 25, 0), (5, 36, 0)];

/// The gap of each of them except the last.
const GAPS: &[u8] = &[0, 8, 9, 9];

#[test]
fn a_gap_is_at_most_nine_cells(rt: HostRuntime) -> Result<(), Fail> {
    let road = road_of(rt.alloc(), FAR)?;
    for (place, gap) in GAPS.iter().enumerate() {
        assert_row(&rt, place, sees(&road, place, &(&[], *gap)));
    }
    Ok(())
}

/// A cell, and how many of the blocked cells 3, 12 and 15 are not in front of it.
const REACHED: &[(u32, usize)] = &[(2, 0), (3, 1), (11, 1), (12, 2), (14, 2), (15, 3), (20, 3)];

#[test]
fn blocks_that_a_cell_has_reached_are_counted(rt: HostRuntime) {
    let blocks = [3, 12, 15];
    for (row, (cell, count)) in REACHED.iter().enumerate() {
        let walked = reached_blocks_below(&blocks, *cell, 3);
        assert_row(
            &rt,
            row,
            reached_blocks(&blocks, *cell) == *count && walked == *count,
        );
    }
}
