//! Laws of the detectors of every run of a plan, for every course of settings. Each law is the contract of a function
//! that does nothing when it runs.

ghost use Rattle.road_detector.specs.Laws.{PassOneByOne, BoundTotals, BoundTotalsOfLongestRun, CountCellsNearby};
ghost use Rattle.road_detector.specs.Laws.{CountCellsNearbyInSteps, HaveDigitsInRuns};

use road_ends::laws::{cars_keep_below_greatest_speed, cars_never_collide, cars_stay_on_road};
use road_plan::Plan;

/// Show that at most one car passes a site in one step.
pub fn cars_pass_one_by_one(plan: &Plan)
    ensures { PassOneByOne plan.now }
{
    cars_never_collide(plan);
    cars_keep_below_greatest_speed(plan);
}

/// Show that a total over some steps has at most one car for each step.
pub fn totals_are_bounded(plan: &Plan)
    ensures { BoundTotals plan.now }
{
    cars_never_collide(plan);
    cars_keep_below_greatest_speed(plan);
}

/// Show that a total up to the maximum horizon is at most 1,048,576 cars, and the sum of their speeds at most
/// 9,437,184.
pub fn totals_of_the_longest_run(plan: &Plan)
    ensures { BoundTotalsOfLongestRun plan.now }
{
    totals_are_bounded(plan);
}

/// Show that the speed of each car of a run is a digit, so that each state has a row of text.
pub fn cars_have_digits(plan: &Plan)
    ensures { HaveDigitsInRuns plan.now }
{
    cars_stay_on_road(plan);
}

/// Show locality in space: the counts of a detector in a step depend only on the 9 cells before its site and on the 9
/// cells from the site on.
pub fn counts_depend_on_cells_nearby(plan: &Plan)
    ensures { CountCellsNearby plan.now }
{}

/// Show locality in space for several steps: the counts depend only, for each step, on 9 cells before the site and on 9
/// cells from the site on.
pub fn totals_depend_on_cells_nearby(plan: &Plan)
    ensures { CountCellsNearbyInSteps plan.now }
{}
