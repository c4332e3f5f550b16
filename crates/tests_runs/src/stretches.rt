//! Runs on stretches of a road, compared with the stretch alone and with the whole road.

use crate::beside::{Beside, Place, assert_at};
use crate::plain::{cars_on, count_on};
use road_cells::{GREATEST_SPEED, Road};
use road_ends::Stretch;
use std::alloc::Global;
use std::process::Abort;
use std::test::Fail;
use tests_plans::{Dice, random_plan, random_road, random_settings};

/// How a run on a stretch begins: the seed of its settings, its first step, and the number of its steps.
#[derive(Clone, Copy)]
struct Course {
    seed: u32,
    step: u32,
    steps: u32,
}

// Return the cells of a stretch that nothing outside it can have reached after a step: 9 cells fewer at each end,
// except at an end of the road.
fn narrow(stretch: Stretch, length: u32) -> Stretch {
    let far = u32::from(GREATEST_SPEED);
    let Stretch { mut first, mut end } = stretch;
    if first > 0 {
        first = first.saturating_add(far);
    }
    if end < length {
        end = end.saturating_sub(far);
    }
    Stretch { first, end }
}

// Return the cells that the cars of a stretch can have reached after a step: the stretch ends 9 cells later, but not
// after the end of the road.
fn widen(stretch: Stretch, length: u32) -> Stretch {
    let end = stretch.end.saturating_add(u32::from(GREATEST_SPEED));
    Stretch {
        first: stretch.first,
        end: end.min(length),
    }
}

// Continue from the cars of a road on a stretch.
fn restart_on(
    alloc: Global,
    beside: &mut Beside,
    course: Course,
    stretch: Stretch,
    road: &Road,
) -> Result<(), Fail> {
    let settings = random_settings(alloc, beside.plan(), course.seed)?;
    beside.restart_on(alloc, &settings, course.step, stretch, road)
}

// Compare both on a stretch, and return the number of cars on it.
fn compare_on(
    rt: &impl Abort,
    alloc: Global,
    beside: &Beside,
    stretch: Stretch,
    place: Place<'_>,
) -> Result<usize, Fail> {
    if stretch.first >= stretch.end {
        return Ok(0);
    }
    assert_at(rt, beside.are_same_on(alloc, stretch)?, place);
    Ok(count_on(beside.road(), stretch))
}

// Run a stretch, and compare after each step the cells that nothing outside it can have reached. Return how many cars
// were compared.
fn runs_as_the_whole_road(
    rt: &impl Abort,
    alloc: Global,
    beside: &mut Beside,
    course: Course,
    mut stretch: Stretch,
    road: &Road,
) -> Result<usize, Fail> {
    restart_on(alloc, beside, course, stretch, road)?;
    let number = stretch.first;
    let length = beside.plan().length();
    let mut compared = 0_usize;
    for done in 0..course.steps {
        beside.step(alloc)?;
        stretch = narrow(stretch, length);
        let name = "in the whole road, the stretch from cell";
        let place = Place { name, number, done };
        let cars = compare_on(rt, alloc, beside, stretch, place)?;
        compared = compared.saturating_add(cars);
    }
    Ok(compared)
}

// Run a stretch, and compare the whole road after each step with plain steps in which no car enters elsewhere.
fn runs_as_alone(
    rt: &impl Abort,
    alloc: Global,
    beside: &mut Beside,
    course: Course,
    mut stretch: Stretch,
    road: &Road,
) -> Result<(), Fail> {
    let near = cars_on(alloc, road, stretch)?;
    restart_on(alloc, beside, course, stretch, &near)?;
    let settings = random_settings(alloc, beside.plan(), course.seed)?;
    let number = stretch.first;
    let length = beside.plan().length();
    for done in 0..course.steps {
        beside.close_outside(&settings, stretch)?;
        beside.step(alloc)?;
        let name = "alone, the stretch from cell";
        assert_at(rt, beside.are_same(alloc)?, Place { name, number, done });
        stretch = widen(stretch, length);
    }
    Ok(())
}

// Divide a road at a cell, and run the stretches before the cell, after it and around it. Return how many cars were
// compared.
fn runs_stretches(
    rt: &impl Abort,
    alloc: Global,
    beside: &mut Beside,
    course: Course,
    cut: u32,
    road: &Road,
) -> Result<usize, Fail> {
    let length = beside.plan().length();
    let middle = length.min(cut.saturating_add(length / 2));
    let mut compared = 0_usize;
    for (first, end) in [(0, cut), (cut, length), (cut, middle)] {
        let stretch = Stretch { first, end };
        runs_as_alone(rt, alloc, beside, course, stretch, road)?;
        let cars = runs_as_the_whole_road(rt, alloc, beside, course, stretch, road)?;
        compared = compared.saturating_add(cars);
    }
    Ok(compared)
}

// Run the stretches of a random road on both sides of a cell for this many steps.
fn cut_at(
    rt: &impl Abort,
    alloc: Global,
    dice: &mut Dice,
    beside: &mut Beside,
    cut: u32,
    steps: u32,
) -> Result<usize, Fail> {
    let cars = dice.below(beside.plan().length());
    let road = random_road(alloc, dice, beside.plan(), cars)?;
    let course = Course {
        seed: dice.below(100),
        step: dice.below(200),
        steps,
    };
    runs_stretches(rt, alloc, beside, course, cut, &road)
}

// Divide a road at every n-th cell. Return how many cars were compared.
fn cut_everywhere(
    rt: &impl Abort,
    alloc: Global,
    dice: &mut Dice,
    beside: &mut Beside,
    apart: u32,
    steps: u32,
) -> Result<usize, Fail> {
    let length = beside.plan().length();
    let mut compared = 0_usize;
    for part in 0..length.checked_div(apart).unwrap_or(0) {
        let cut = part.saturating_mul(apart);
        let cars = cut_at(rt, alloc, dice, beside, cut, steps)?;
        compared = compared.saturating_add(cars);
    }
    Ok(compared)
}

// Divide a random road of this many cells at every n-th cell.
fn cut_road(
    rt: &impl Abort,
    alloc: Global,
    dice: &mut Dice,
    length: u32,
    apart: u32,
    steps: u32,
) -> Result<usize, Fail> {
    let mut beside = Beside::of_plan(alloc, random_plan(alloc, dice, length)?)?;
    cut_everywhere(rt, alloc, dice, &mut beside, apart, steps)
}

#[test]
fn a_stretch_of_a_small_road_runs_as_it_does_alone_and_in_the_whole_road(
    rt: HostRuntime,
) -> Result<(), Fail> {
    let mut dice = Dice::of(3);
    let mut compared = 0_usize;
    for length in 8..60u32 {
        let cars = cut_road(&rt, rt.alloc(), &mut dice, length, 1, 3)?;
        compared = compared.saturating_add(cars);
    }
    assert!(rt; compared > 1_000, "{compared} cars");
    Ok(())
}

#[test]
fn a_stretch_of_a_long_road_runs_as_it_does_alone_and_in_the_whole_road(
    rt: HostRuntime,
) -> Result<(), Fail> {
    let mut dice = Dice::of(4);
    for length in [900, 3_000] {
        let compared = cut_road(&rt, rt.alloc(), &mut dice, length, 300, 40)?;
        assert!(rt;
            compared > 1_000,
            "a road of {length} cells with {compared} cars"
        );
    }
    Ok(())
}
