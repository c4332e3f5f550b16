//! Steps of a road, timed and compared with the random words that they draw.

ghost use Rattle.std.specs.Arc.{arc_value};

use anyhow::Result;
use road_cells::Road;
use road_ends::{Meter, OutOfMemory, StepInput, Stepped, step_alone};
use road_plan::limits::CERTAIN;
use road_plan::{Plan, Settings};
use road_words::{PlanWords, Words};
use std::alloc::Global;
use std::sync::Arc;
use std::time::{Clock, Instant};

/// The number of times that the same work is timed.
const RUNS: u32 = 5;

/// Time steps, and then the drawing of as many words as the steps draw. Do both `RUNS` times, and write a line each
/// time.
pub(crate) fn time<R: Clock + Print>(
    rt: &R,
    alloc: Global,
    plan: &Arc<Plan>,
    steps: u32,
) -> Result<()> {
    let words = words_of(alloc, plan, steps)?;
    let source = PlanWords::of(plan);
    for _ in 0..RUNS {
        time_once(rt, alloc, plan, steps, &source, words)?;
    }
    Ok(())
}

// Time this many steps, and the drawing of this many words of a source, and write a line.
fn time_once<R: Clock + Print>(
    rt: &R,
    alloc: Global,
    plan: &Arc<Plan>,
    steps: u32,
    source: &PlanWords,
    words: u64,
) -> Result<()> {
    let start = Instant::now(rt)?;
    let cars = cars_of(alloc, plan, steps)?;
    let stepping = start.elapsed(rt)?.as_nanos();
    let start = Instant::now(rt)?;
    let mixed = draw(source, words);
    let drawing = start.elapsed(rt)?.as_nanos();
    println!(rt; "{steps} {cars} {words} {stepping} {drawing} {mixed}")?;
    Ok(())
}

// Return a step of a road with the plan's own settings, which are made again for each step.
fn step_road(
    alloc: Global,
    plan: &Arc<Plan>,
    step: u32,
    road: &Road,
) -> Result<Stepped, OutOfMemory> {
    let settings = Settings::of_plan(alloc, plan)?;
    step_alone(alloc, plan, settings, step, road, &mut Meter::new())
}

// Take a road through a step, and return the number of cars moved.
fn cars_of_step(
    alloc: Global,
    plan: &Arc<Plan>,
    step: u32,
    road: &mut Road,
) -> Result<u64, OutOfMemory> {
    let done = step_road(alloc, plan, step, road)?;
    *road = done.road;
    Ok(done.speeds.len() as u64)
}

// Take a road through some steps, and return the number of cars moved, each counted once in each step.
fn cars_from(
    alloc: Global,
    plan: &Arc<Plan>,
    steps: u32,
    road: &mut Road,
) -> Result<u64, OutOfMemory> {
    let mut cars = 0u64;
    for step in 0..steps {
        cars = cars.saturating_add(cars_of_step(alloc, plan, step, road)?);
    }
    Ok(cars)
}

// Take the empty road through some steps, and return the same as `cars_from`.
fn cars_of(alloc: Global, plan: &Arc<Plan>, steps: u32) -> Result<u64, OutOfMemory> {
    let mut road = Road::empty(alloc);
    cars_from(alloc, plan, steps, &mut road)
}

// Take a road through a step, and return the number of words that it draws.
fn words_of_step(
    alloc: Global,
    plan: &Arc<Plan>,
    step: u32,
    road: &mut Road,
) -> Result<u64, OutOfMemory> {
    let words = words_of_entries(plan, road);
    let done = step_road(alloc, plan, step, road)?;
    *road = done.road;
    Ok(words.saturating_add(words_of_cars(&done.input)))
}

// Take a road through some steps, and return the number of words that they draw.
fn words_from(
    alloc: Global,
    plan: &Arc<Plan>,
    steps: u32,
    road: &mut Road,
) -> Result<u64, OutOfMemory> {
    let mut words = 0u64;
    for step in 0..steps {
        words = words.saturating_add(words_of_step(alloc, plan, step, road)?);
    }
    Ok(words)
}

// Take the empty road through some steps, and return the same as `words_from`.
fn words_of(alloc: Global, plan: &Arc<Plan>, steps: u32) -> Result<u64, OutOfMemory> {
    let mut road = Road::empty(alloc);
    words_from(alloc, plan, steps, &mut road)
}

// Return the number of words drawn for the inlets of a step: one for each inlet that is free and whose inflow chance is
// neither 0 nor certain.
fn words_of_entries(plan: &Plan, road: &Road) -> u64 {
    let mut words = 0u64;
    for inlet in plan.inlets() {
        if is_open(inlet.1) && road.car_at(inlet.0).is_none() {
            words = words.saturating_add(1);
        }
    }
    words
}

// Return the number of words drawn for the cars of a step: one for each car that wants to drive and whose slowing
// chance is neither 0 nor certain. The plan's own settings block no cell.
fn words_of_cars(input: &StepInput) -> u64 {
    let mut words = 0u64;
    for place in 0..input.road().cars().len() {
        let cell = input.road().cars()[place].cell;
        let zone = (cell / input.plan().width()) as usize;
        let open = match input.plan().zones().get(zone) {
            Some(zone) => zone.0 > 0 && is_open(zone.1),
            None => false,
        };
        if open && input.road().gap(place, &[]) > 0 {
            words = words.saturating_add(1);
        }
    }
    words
}

// Return whether a chance is neither 0 nor certain.
fn is_open(chance: u32) -> bool {
    0 < chance && chance < CERTAIN
}

// Draw this many words, with streams and places like those of steps, and mix them.
fn draw(source: &PlanWords, words: u64) -> u32 {
    let mut mixed = 0;
    for place in 0..words {
        mixed ^= source.word(place % 1_024 * 16, place / 1_024);
    }
    mixed
}
