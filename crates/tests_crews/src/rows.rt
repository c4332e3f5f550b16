//! Steps by a crew, drawn as rows of text.

use crate::assert_row;
use road_cells::Road;
use road_ends::{EMPTY, OutOfMemory, STANDING, StepInput, enter, finish};
use road_plan::{Plan, Settings};
use road_workers::Crew;
use std::alloc::Global;
use std::process::Abort;
use std::sync::Arc;
use std::test::Fail;
use tests_plans::{
    DENSE, DENSE_ROWS, DENSE_START, DENSE_START_ROWS, HALF_SLOWED, HALF_SLOWED_ROWS, Parts, plan_of,
};

/// Make the plan of these parts, shared by the inputs of steps.
pub(crate) fn shared_plan(alloc: Global, parts: &Parts) -> Result<Arc<Plan>, Fail> {
    Ok(Arc::new(alloc, plan_of(alloc, parts)?)?)
}

/// Make the settings of a plan of one zone: its own, with the slowing chance of standing cars if one is given.
pub(crate) fn settings_of(
    alloc: Global,
    plan: &Plan,
    start: Option<u32>,
) -> Result<Settings, OutOfMemory> {
    let mut settings = Settings::of_plan(alloc, plan)?;
    if let Some(chance) = start {
        settings.starts = vec![in alloc; chance]?;
    }
    Ok(settings)
}

/// Make the input of a step with these settings.
pub(crate) fn input_of(
    alloc: Global,
    plan: &Arc<Plan>,
    start: Option<u32>,
    step: u32,
    road: &Road,
) -> Result<Arc<StepInput>, Fail> {
    let settings = settings_of(alloc, plan, start)?;
    if !settings.fits(plan) {
        return Err(Fail::new("the settings must fit the plan"));
    }
    Ok(enter(alloc, plan, settings, step, road)?)
}

/// Make the input of the first step of a plan of these parts, on the empty road.
pub(crate) fn first_input(alloc: Global, parts: &Parts) -> Result<Arc<StepInput>, Fail> {
    let plan = shared_plan(alloc, parts)?;
    input_of(alloc, &plan, None, 0, &Road::empty(alloc))
}

// Compute the road after a step, with the speeds that a crew returns.
fn step_by<C: Crew>(
    crew: &mut C,
    alloc: Global,
    plan: &Arc<Plan>,
    start: Option<u32>,
    step: u32,
    road: &Road,
) -> Result<Road, Fail> {
    let input = input_of(alloc, plan, start, step, road)?;
    let speeds = crew.speeds(alloc, &input)?;
    Ok(finish(alloc, &input, &speeds)?)
}

// Return the letter of a cell without blocks.
fn letter_at(road: &Road, cell: u32) -> u8 {
    match road.car_at(cell) {
        Some(car) => STANDING.saturating_add(car.speed),
        None => EMPTY,
    }
}

// Return whether a road is drawn as these letters, one for each cell.
fn is_drawn_as(road: &Road, letters: &[u8]) -> bool {
    (0u32..)
        .zip(letters)
        .all(|(cell, letter)| letter_at(road, cell) == *letter)
}

// Run this plan step by step, and compare its rows.
fn compare_rows<C: Crew>(
    rt: &impl Abort,
    alloc: Global,
    crew: &mut C,
    plan: &Arc<Plan>,
    start: Option<u32>,
    rows: &[&str],
) -> Result<(), Fail> {
    let mut road = Road::empty(alloc);
    for (step, row) in (0u32..).zip(rows) {
        road = step_by(crew, alloc, plan, start, step, &road)?;
        assert_row(rt, step as usize, is_drawn_as(&road, row.as_bytes()));
    }
    Ok(())
}

/// Run a plan from the empty road step by step with a crew, and compare the row after each step. Standing cars may have
/// their own slowing chance.
pub(crate) fn compare_plan_rows<C: Crew>(
    rt: &impl Abort,
    alloc: Global,
    crew: &mut C,
    (parts, start): (&Parts, Option<u32>),
    rows: &[&str],
) -> Result<(), Fail> {
    let plan = shared_plan(alloc, parts)?;
    compare_rows(rt, alloc, crew, &plan, start, rows)
}

/// Run the dense road, the half slowed one, and the dense road with slow-to-start, and compare their worked rows.
pub(crate) fn compare_all_rows<C: Crew>(
    rt: &impl Abort,
    alloc: Global,
    crew: &mut C,
) -> Result<(), Fail> {
    compare_plan_rows(rt, alloc, crew, (&DENSE, None), DENSE_ROWS)?;
    compare_plan_rows(rt, alloc, crew, (&HALF_SLOWED, None), HALF_SLOWED_ROWS)?;
    compare_plan_rows(
        rt,
        alloc,
        crew,
        (&DENSE, Some(DENSE_START)),
        DENSE_START_ROWS,
    )
}
