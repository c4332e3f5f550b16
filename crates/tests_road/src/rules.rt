//! The rules on single cars and on small roads, worked out by hand.

ghost use Rattle.std.specs.Prelude.{◌≤◌, length};
ghost use Rattle.road_cells.specs.Cars.{AreRising, array_of};
ghost use Rattle.road_rules.specs.Motion.{MayMove};

use crate::assert_row;
use road_cells::{Car, OutOfMemory, Road};
use road_rules::{moved, slowed, two_rules, wanted};
use std::alloc::Global;
use std::test::Fail;
use tests_plans::car;

/// Speed, limit, gap, and the wanted speed.
const WANTED: &[(u8, u32, u8, u8)] = &[
    (0, 5, 9, 1),
    (1, 5, 9, 2),
    (4, 5, 9, 5),
    (5, 5, 9, 5),
    (5, 2, 9, 2),
    (9, 0, 9, 0),
    (3, 5, 3, 3),
    (3, 5, 1, 1),
    (3, 5, 0, 0),
    (8, 9, 9, 9),
    (9, 9, 9, 9),
    (9, 9, 8, 8),
    (255, 4_294_967_295, 255, 255),
];

#[test]
fn the_wanted_speed_is_the_least_of_three(rt: HostRuntime) {
    for (row, (speed, limit, gap, want)) in WANTED.iter().enumerate() {
        assert_row(&rt, row, wanted(*speed, *limit, *gap) == *want);
    }
}

/// Speed, maximum speed, distance to the next vehicle, and the speed after both rules.
const TWO_RULES: &[(u8, u8, u32, u8)] = &[
    (2, 5, 4, 3),
    (2, 5, 3, 2),
    (3, 5, 3, 2),
    (3, 5, 2, 1),
    (3, 5, 1, 0),
    (4, 5, 6, 5),
    (5, 5, 10, 5),
    // A speed above the maximum stays.
    (5, 3, 10, 5),
];

#[test]
fn the_two_rules_give_the_speeds_of_1992(rt: HostRuntime) {
    for (row, (speed, vmax, distance, want)) in TWO_RULES.iter().enumerate() {
        let keeps = *distance > 0 && two_rules(*speed, *vmax, *distance) == *want;
        assert_row(&rt, row, keeps);
    }
}

/// The smallest word whose upper bits are 30,011, and the largest.
const LEAST: u32 = 1_966_800_896;

const GREATEST: u32 = 1_966_866_431;

/// Speed, word, chance, and the speed after rule 3.
const SLOWED: &[(u8, u32, u32, u8)] = &[
    (3, LEAST, 30_011, 3),
    (3, GREATEST, 30_011, 3),
    (3, LEAST, 30_012, 2),
    (3, GREATEST, 30_012, 2),
    (1, LEAST, 30_012, 0),
    (0, LEAST, 30_012, 0),
    (3, 0, 0, 3),
    (3, 65_535, 1, 2),
    (3, 4_294_967_295, 65_535, 3),
    (3, 4_294_967_295, 65_536, 2),
];

#[test]
fn a_car_is_slowed_if_its_word_is_below_the_chance(rt: HostRuntime) {
    for (row, (speed, word, chance, want)) in SLOWED.iter().enumerate() {
        assert_row(&rt, row, slowed(*speed, *word, *chance) == *want);
    }
}

// Return whether these speeds move the cars to the later places, and leave the given road unchanged.
fn moves(alloc: Global, cars: &[Car], speeds: &[u8], later: &[Car]) -> Result<bool, OutOfMemory>
    requires rise { AreRising cars.now }
    requires low { length (array_of cars.now) ≤ 65536 }
    requires may { MayMove (array_of cars.now) speeds.now }
{
    let road = Road::of(cars.to_vec(alloc)?);
    let next = moved(alloc, &road, speeds)?;
    Ok(road.cars() == cars && next.cars() == later)
}

/// The first four motions of a road with limit 2, where a car enters at cell 0 whenever it is empty.
#[test]
fn each_car_moves_by_its_speed(rt: HostRuntime) -> Result<(), Fail> {
    let alloc = rt.alloc();
    let one = [car(0, 0, 0)];
    assert_row(&rt, 0, moves(alloc, &one, &[1], &[car(0, 1, 1)])?);
    let two = [car(16, 0, 0), car(0, 1, 1)];
    let later = [car(16, 0, 0), car(0, 3, 2)];
    assert_row(&rt, 1, moves(alloc, &two, &[0, 2], &later)?);
    let two = [car(16, 0, 0), car(0, 3, 2)];
    let later = [car(16, 1, 1), car(0, 5, 2)];
    assert_row(&rt, 2, moves(alloc, &two, &[1, 2], &later)?);
    let three = [car(48, 0, 0), car(16, 1, 1), car(0, 5, 2)];
    let later = [car(48, 0, 0), car(16, 3, 2), car(0, 7, 2)];
    assert_row(&rt, 3, moves(alloc, &three, &[0, 2, 2], &later)?);
    Ok(())
}

/// No car is lost at the maximum speed, nor behind a car that stays, nor on an empty road.
#[test]
fn no_car_is_lost_at_the_maximum_speed(rt: HostRuntime) -> Result<(), Fail> {
    let alloc = rt.alloc();
    let two = [car(2, 3, 4), car(1, 8, 9)];
    let later = [car(2, 7, 4), car(1, 17, 9)];
    assert_row(&rt, 0, moves(alloc, &two, &[4, 9], &later)?);
    let later = [car(2, 7, 4), car(1, 8, 0)];
    assert_row(&rt, 1, moves(alloc, &two, &[4, 0], &later)?);
    assert_row(&rt, 2, moves(alloc, &[], &[], &[])?);
    Ok(())
}
