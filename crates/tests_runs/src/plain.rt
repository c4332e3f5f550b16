//! Helpers of plain steps: copies of settings, counts, and the cars on a stretch.

ghost use Rattle.std.specs.Prelude.{◌≡◌, length};
ghost use Rattle.road_cells.specs.Cars.{cars_of};

use road_cells::Road;
use road_detector::{Totals, passes};
use road_ends::{OutOfMemory, StepInput, Stretch};
use road_plan::{Plan, Settings};
use std::alloc::Global;
use tests_plans::road_of;

/// Copy settings.
pub(crate) fn copy_of(settings: &Settings) -> Result<Settings, OutOfMemory> {
    Ok(Settings {
        limits: settings.limits.clone()?,
        chances: settings.chances.clone()?,
        inflows: settings.inflows.clone()?,
        blocks: settings.blocks.clone()?,
        watched: settings.watched.clone()?,
        starts: settings.starts.clone()?,
    })
}

/// List counts of zero for all detectors.
pub(crate) fn nothing(alloc: Global, plan: &Plan) -> Result<Vec<Totals>, OutOfMemory> {
    vec![in alloc; Totals { cars: 0, speeds: 0 }; plan.detectors().len()]
}

/// List the counts of each detector in a plain step.
pub(crate) fn counts_in(
    alloc: Global,
    input: &StepInput,
    speeds: &[u8],
) -> Result<Vec<Totals>, OutOfMemory>
    requires { length speeds.now ≡ length (cars_of input.now.road) }
{
    let mut totals = Vec::new(alloc);
    for detector in 0..input.plan().detectors().len() {
        totals.push(passes(input, speeds, detector as u32))?;
    }
    Ok(totals)
}

/// Add the counts of the detectors to totals.
pub(crate) fn add(totals: &mut [Totals], counted: &[Totals]) {
    for (total, more) in totals.iter_mut().zip(counted) {
        total.cars = total.cars.saturating_add(more.cars);
        total.speeds = total.speeds.saturating_add(more.speeds);
    }
}

/// Return whether the totals of all detectors with sites on a stretch are the same.
pub(crate) fn counts_agree(
    sites: &[u32],
    stretch: Stretch,
    totals: &[Totals],
    plain: &[Totals],
) -> bool {
    sites.iter().zip(totals.iter().zip(plain)).all(|(site, (total, plain))| *site < stretch.first
        || stretch.end <= *site
        || total == plain)
}

/// Make the road of the cars on a stretch.
pub(crate) fn cars_on(alloc: Global, road: &Road, stretch: Stretch) -> Result<Road, OutOfMemory> {
    let mut cars = Vec::new(alloc);
    for car in road.cars() {
        if stretch.first <= car.cell && car.cell < stretch.end {
            cars.push(*car)?;
        }
    }
    road_of(alloc, &cars)
}

/// Count the cars on a stretch.
pub(crate) fn count_on(road: &Road, stretch: Stretch) -> usize {
    road.cars()
        .iter()
        .filter(|car| stretch.first <= car.cell && car.cell < stretch.end)
        .count()
}
