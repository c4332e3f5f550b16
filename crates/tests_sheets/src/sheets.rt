//! Sheets that are extended, with a crew that counts the steps that it computes.

use road_ends::Meter;
use road_rewind::{Grown, grown};
use road_scenario::{Edit, Scenario};
use road_sheet::Sheet;
use road_workers::{Alone, Crew};
use std::alloc::Global;
use std::sync::Arc;
use std::test::Fail;
use tests_plans::{Counting, Parts, Running, plan_of};

/// Who computes the steps of an extension, and counts them.
#[derive(Clone, Copy)]
pub(crate) enum Way {
    /// A crew that computes the speeds of each step.
    StepByStep,
    /// A crew that runs many steps at once.
    ByRuns,
}

/// A sheet after an extension, and what the extension computed.
#[derive(Drop)]
pub(crate) struct Trial {
    pub(crate) sheet: Sheet,
    /// The first step at which the edits change a number that is set.
    pub(crate) touched: Option<u32>,
    /// The number of steps computed, by the meter.
    pub(crate) steps: u64,
    /// The number of steps computed, by the crew.
    pub(crate) counted: u64,
}

/// Return the opening sheet of a plan.
pub(crate) fn opening(alloc: Global, parts: &Parts) -> Result<Sheet, Fail> {
    let plan = plan_of(alloc, parts)?;
    Ok(Sheet::opening(alloc, Arc::new(alloc, plan)?)?)
}

// Extend a sheet by some edits up to a step, with a crew.
fn extend_with<C: Crew>(
    alloc: Global,
    sheet: &Sheet,
    edits: &[Edit],
    to: u32,
    crew: &mut C,
    meter: &mut Meter,
) -> Result<Grown, Fail> {
    let scenario = Scenario::of_edits(alloc, edits)?;
    if to > 1_048_576 || scenario.fits(sheet.plan()).is_some() {
        return Err(Fail::new("the step and the edits must be allowed"));
    }
    Ok(grown(alloc, sheet, &scenario, to, crew, meter)?)
}

// Extend a sheet, and return the trial.
fn trial_of(done: Grown, meter: &Meter, counted: u64) -> Trial {
    Trial {
        sheet: done.sheet,
        touched: done.touched,
        steps: meter.ticks(),
        counted,
    }
}

/// Return the sheet of a plan with some edits, simulated up to a step.
pub(crate) fn extend(
    alloc: Global,
    sheet: &Sheet,
    way: Way,
    edits: &[Edit],
    to: u32,
) -> Result<Trial, Fail> {
    let mut meter = Meter::new();
    match way {
        Way::StepByStep => {
            let mut crew = Counting { calls: 0 };
            let done = extend_with(alloc, sheet, edits, to, &mut crew, &mut meter)?;
            Ok(trial_of(done, &meter, crew.calls))
        }
        Way::ByRuns => {
            let mut crew = Running::of(Alone);
            let done = extend_with(alloc, sheet, edits, to, &mut crew, &mut meter)?;
            Ok(trial_of(done, &meter, crew.steps))
        }
    }
}
