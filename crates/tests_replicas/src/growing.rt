//! Crews that fail at a run while a sheet is extended beyond its horizon with a late edit. They count the steps of
//! their runs.

ghost use Rattle.std.specs.Prelude.{◌≤◌};
ghost use Rattle.road_plan.specs.declared.limits.TheConstants.{GREATEST_HORIZON};

use crate::crews::{draw, is_as};
use road_ends::Meter;
use road_rewind::{GrownFault, grown};
use road_scenario::{Edit, Scenario, Stamp, Value};
use road_sheet::Sheet;
use road_workers::{Alone, Crew, CrewFault};
use std::alloc::Global;
use std::sync::Arc;
use std::test::Fail;
use tests_plans::{BLOCK, FREE, Running, StepByStep, edit, plan_of};
use tests_portraits::Portrait;

/// The late edit that closes cell 8 from step 4 on.
const CLOSING: &[Edit] = &[edit!(BLOCK, 4, (1, 0), 1)];

/// The number of runs of a sheet at step 70 that takes this edit and advances to step 134: to step 4, and to the ends
/// of three intervals.
const RUNS: u64 = 4;

/// That step.
const END: u32 = 134;

// Return the sheet with these edits, simulated up to a step by a crew, or why the crew failed.
fn extend_by<C: Crew>(
    alloc: Global,
    sheet: &Sheet,
    scenario: &Scenario,
    to: u32,
    crew: &mut C,
    meter: &mut Meter,
) -> Result<Result<Sheet, GrownFault>, Fail>
    requires { to ≤ GREATEST_HORIZON }
{
    if scenario.fits(sheet.plan()).is_some() {
        return Err(Fail::new("the edits must fit the plan"));
    }
    match grown(alloc, sheet, scenario, to, crew, meter) {
        Ok(done) => Ok(Ok(done.sheet)),
        Err(fault) => Ok(Err(fault)),
    }
}

// Extend a sheet by some edits, and return it or why the crew failed.
fn extend<C: Crew>(
    alloc: Global,
    sheet: &Sheet,
    edits: &[Edit],
    to: u32,
    crew: &mut C,
    meter: &mut Meter,
) -> Result<Result<Sheet, GrownFault>, Fail>
    requires { to ≤ GREATEST_HORIZON }
{
    let scenario = Scenario::of_edits(alloc, edits)?;
    extend_by(alloc, sheet, &scenario, to, crew, meter)
}

// Return whether a sheet is not extended if its crew fails after this many runs. The steps of these runs must be
// counted, and the sheet must be unchanged.
fn is_refused<C: Crew>(
    alloc: Global,
    sheet: &Sheet,
    crew: &mut Running<C>,
    runs: u64,
    fault: CrewFault,
    before: &Portrait,
) -> Result<bool, Fail> {
    crew.fail_after(runs, fault);
    let (steps, mut meter) = (crew.steps, Meter::new());
    let refused = extend(alloc, sheet, CLOSING, END, crew, &mut meter)?.err();
    if refused != Some(fault) || meter.ticks() != crew.steps.saturating_sub(steps) {
        return Ok(false);
    }
    is_as(alloc, sheet, before)
}

// Extend a sheet with a crew, and draw the result.
fn draw_extended<C: Crew>(
    alloc: Global,
    sheet: &Sheet,
    crew: &mut C,
    meter: &mut Meter,
) -> Result<Portrait, Fail> {
    let made = extend(alloc, sheet, CLOSING, END, crew, meter)??;
    draw(alloc, &made)
}

// Return whether a single caller computes the same extended sheet step by step.
fn is_made_alone(alloc: Global, sheet: &Sheet, portrait: &Portrait) -> Result<bool, Fail> {
    let mut alone = StepByStep { crew: Alone };
    Ok(draw_extended(alloc, sheet, &mut alone, &mut Meter::new())?.is_same(portrait))
}

// Return whether a crew computes the same extended sheet as a single caller step by step, and all its steps are
// counted.
fn grows<C: Crew>(alloc: Global, sheet: &Sheet, crew: &mut Running<C>) -> Result<bool, Fail> {
    let (steps, mut meter) = (crew.steps, Meter::new());
    let made = draw_extended(alloc, sheet, crew, &mut meter)?;
    let is_made = is_made_alone(alloc, sheet, &made);
    let counted = (meter.ticks(), crew.steps.saturating_sub(steps));
    Ok(is_made? && counted == (u64::from(END), u64::from(END)))
}

// Return whether each run that fails in turn with a fault leaves the sheet unchanged, and there is no further run.
fn survives_any_run<C: Crew>(
    alloc: Global,
    sheet: &Sheet,
    crew: &mut Running<C>,
    fault: CrewFault,
    before: &Portrait,
) -> Result<bool, Fail> {
    for runs in 0..RUNS {
        if !is_refused(alloc, sheet, crew, runs, fault, before)? {
            return Ok(false);
        }
    }
    crew.fail_after(RUNS, fault);
    Ok(grows(alloc, sheet, crew)? && crew.fault.is_some())
}

// Return whether the sheet stays as it was drawn if any run fails with either fault.
fn survives_either_fault<C: Crew>(
    alloc: Global,
    sheet: &Sheet,
    crew: &mut Running<C>,
    before: &Portrait,
) -> Result<bool, Fail> {
    Ok(
        survives_any_run(alloc, sheet, crew, CrewFault::WorkersGone, before)?
            && survives_any_run(alloc, sheet, crew, CrewFault::OutOfMemory, before)?,
    )
}

// Draw a sheet, and return whether it survives runs that fail.
fn survives<C: Crew>(alloc: Global, sheet: &Sheet, crew: &mut Running<C>) -> Result<bool, Fail> {
    let before = draw(alloc, sheet)?;
    survives_either_fault(alloc, sheet, crew, &before)
}

// Return the sheet of the free road before any step.
fn opening(alloc: Global) -> Result<Sheet, Fail> {
    let plan = plan_of(alloc, &FREE)?;
    Ok(Sheet::opening(alloc, Arc::new(alloc, plan)?)?)
}

// Return the sheet of the free road at step 70.
fn sheet_at_70(alloc: Global) -> Result<Sheet, Fail> {
    let opening = opening(alloc)?;
    Ok(extend(alloc, &opening, &[], 70, &mut Alone, &mut Meter::new())??)
}

/// Return whether a sheet that is extended survives a crew that fails at any run, with either fault.
pub(crate) fn extension_survives<C: Crew>(
    alloc: Global,
    crew: &mut Running<C>,
) -> Result<bool, Fail> {
    let sheet = sheet_at_70(alloc)?;
    survives(alloc, &sheet, crew)
}
