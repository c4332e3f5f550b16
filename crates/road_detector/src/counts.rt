//! The counts of detectors in a step.

ghost use Rattle.std.specs.Prelude.{◌≡◌, ◌<◌, ◌≤◌, ◌+◌, ◌^◌, length};
ghost use Rattle.road_plan.specs.declared.limits.TheConstants.{GREATEST_LENGTH};
ghost use Rattle.road_cells.specs.Cars.{cars_of};
ghost use Rattle.road_detector.specs.Passes.{totals_of, drives, is_passing, passes_at, plus};

use road_cells::Road;
use road_ends::StepInput;

/// The counts of a detector.
#[derive(Clone, Copy, Debug, PartialEq, Eq)]
pub struct Totals {
    /// The cars that passed its site.
    pub cars: u32,
    /// The sum of their speeds, in cells per step.
    pub speeds: u32,
}

impl Totals {
    /// Add the totals of further steps. Both sums must be below 2^32, as the sums of a run are up to the maximum
    /// horizon ([`crate::laws::totals_of_the_longest_run`]). It does not allocate.
    pub fn plus(self, later: Totals) -> Totals
        requires cars { self.cars + later.cars < 2 ^ 32 }
        requires speeds { self.speeds + later.speeds < 2 ^ 32 }
        ensures { result ≡ plus self later }
    {
        Totals {
            cars: self.cars + later.cars,
            speeds: self.speeds + later.speeds,
        }
    }
}

/// Return the counts of a detector in a step: the cars before its site that arrive at it or pass it, and the sum of
/// their new speeds. Cars that are deleted in this step count too. A detector that is off counts nothing.
///
/// The plan must have the detector. `speeds` has one speed for each car, in the order of the cars, and may hold any
/// speeds. The call visits every car and does not allocate.
pub fn passes(input: &StepInput, speeds: &[u8], detector: u32) -> Totals
    requires one_each { length speeds.now ≡ length (cars_of input.now.road) }
    requires in_plan { detector < length input.now.plan.detectors }
    ensures { result ≡ passes_at input.now speeds.now detector }
{
    if !input.settings().watched()[detector as usize] {
        return Totals { cars: 0, speeds: 0 };
    }
    let site = input.plan().detectors()[detector as usize];
    count_passing(input.road(), speeds, site)
}

// Count the cars that pass a site, and sum their new speeds.
fn count_passing(road: &Road, speeds: &[u8], site: u32) -> Totals
    requires one_each { length speeds.now ≡ length (cars_of road.now) }
    requires short { length road.now ≤ GREATEST_LENGTH }
    ensures { result ≡ totals_of site (drives (cars_of road.now) speeds.now) }
{
    let cars = road.cars();
    let mut totals = Totals { cars: 0, speeds: 0 };
    for place in 0..cars.len() {
        if is_passing(site, cars[place].cell, speeds[place]) {
            totals.cars += 1;
            totals.speeds += u32::from(speeds[place]);
        }
    }
    totals
}

// Return whether a car passes a site: it is before the site, and arrives at it or past it at its new speed.
fn is_passing(site: u32, cell: u32, speed: u8) -> bool
    ensures { result ≡ is_passing site (record { cell = cell; speed = speed }) }
{
    cell < site && site - cell <= u32::from(speed)
}
