//! Laws of every step of a plan, from any road that has no car past its end, and of every run, for every course of
//! settings. Each law is the contract of a function that does nothing when it runs, except for [`gap_on_road`], which
//! counts free cells.

ghost use Rattle.std.specs.Prelude.{◌≡◌, ◌<◌, ◌≤◌, length};
ghost use Rattle.road_plan.specs.Settings.{Fits};
ghost use Rattle.road_cells.specs.Cars.{cars_of, cell_at};
ghost use Rattle.road_ends.specs.Laws.{HoldsInEachStep, KeepBelowGreatestSpeed, NeverCollide, ArriveAlone, KeepOrder};
ghost use Rattle.road_ends.specs.Laws.{StopAtBlocks};
ghost use Rattle.road_ends.specs.Laws.{HaveUniqueNumbers, HaveShortNumbers, StayOnRoad, DependOnCellsNearby};
ghost use Rattle.road_ends.specs.Laws.{DependOnEarlierSettings};
ghost use Rattle.road_ends.specs.Speed.{gap};

use road_cells::Road;
use road_plan::limits::GREATEST_LENGTH;
use road_plan::{Plan, Settings};

/// Count the free cells in front of the car at a place of the road's list, by [`Road::gap`]. If the settings fit the
/// plan and the cars are on the road, this is the gap of the definition, which ignores cars and blocks past the end of
/// the road.
pub fn gap_on_road(plan: &Plan, settings: &Settings, road: &Road, place: usize) -> u8
    requires fits { Fits plan.now settings.now }
    requires on_road { length road.now ≤ plan.now.cells }
    requires car { place < length (cars_of road.now) }
    ensures { result ≡ gap plan.now settings.now road.now (cell_at (cars_of road.now) place) }
{
    road.gap(place, settings.blocks())
}

/// Show that no car is faster than the maximum speed, 9 cells per step.
pub fn cars_keep_below_greatest_speed(plan: &Plan)
    ensures { HoldsInEachStep KeepBelowGreatestSpeed plan.now }
{}

/// Show that a car stays behind the cell of the next one: no two cars share a cell, and no car passes through another.
pub fn cars_never_collide(plan: &Plan)
    ensures { HoldsInEachStep NeverCollide plan.now }
{}

/// Show that at most one car arrives at a cell.
pub fn cars_arrive_alone(plan: &Plan)
    ensures { HoldsInEachStep ArriveAlone plan.now }
{}

/// Show that cars keep their order.
pub fn cars_keep_order(plan: &Plan)
    ensures { HoldsInEachStep KeepOrder plan.now }
{}

/// Show that no car drives onto a blocked cell of the road or past it, whatever the settings.
pub fn cars_stop_at_blocks(plan: &Plan)
    ensures { HoldsInEachStep StopAtBlocks plan.now }
{}

/// Show that no two cars on the road have the same number.
pub fn car_numbers_are_unique(plan: &Plan)
    ensures { HaveUniqueNumbers plan.now }
{
    prove!(plan.length() <= GREATEST_LENGTH);
}

/// Show that each car is before the deleted zone, not faster than the maximum speed, and numbered in an earlier step.
pub fn cars_stay_on_road(plan: &Plan)
    ensures { StayOnRoad plan.now }
{
    prove!(plan.length() <= GREATEST_LENGTH);
}

/// Show that up to the maximum horizon each car's number is below 2^24.
pub fn car_numbers_are_short(plan: &Plan)
    ensures { HaveShortNumbers plan.now }
{
    cars_stay_on_road(plan);
}

/// Show locality in time: settings from a step on change no state up to that step.
pub fn runs_depend_on_earlier_settings(plan: &Plan)
    ensures { DependOnEarlierSettings plan.now }
{}

/// Show locality in space: no car drives farther in a step than 9 cells, and no car looks farther ahead. So the cars on
/// a stretch after some steps depend only on the cells of the stretch and, for each step, on 9 cells behind it and 9
/// ahead of it.
pub fn roads_depend_on_cells_nearby(plan: &Plan)
    ensures { DependOnCellsNearby plan.now }
{}
