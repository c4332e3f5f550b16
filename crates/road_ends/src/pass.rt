//! One pass over the cars, from the far end of the road to its start.

ghost use Rattle.std.specs.Prelude.{◌≡◌, ◌≤◌, ◌<◌, length, slice_range, IfOk};
ghost use Rattle.road_cells.specs.Cars.{cars_of, cell_at, vehicle_of};
ghost use Rattle.road_cells.specs.Gap.{ArePartedAt};
ghost use Rattle.road_ends.specs.Speed.{nth_car, speed, speeds};

use crate::OutOfMemory;
use crate::chance::{chance_at, slowed_by_chance};
use crate::step_settings::StepSettings;
use road_cells::{Road, reached_blocks_below};
use road_rules::wanted;
use std::alloc::Global;

// Compute the new speeds of all cars, in the order of the cars, in one allocation.
pub(crate) fn speeds(alloc: Global, at: StepSettings, road: &Road) -> Result<Vec<u8>, OutOfMemory>
    requires { length road.now ≤ at.plan.now.cells }
    ensures { IfOk result (λ new. new.items ≡ speeds at.entry.plan.now at.entry.settings.now at.entry.step road.now) }
{
    speeds_between(alloc, at, road, 0, road.cars().len())
}

// Compute the new speeds of the cars at the places from `first` to before `end`, in the order of the cars. It visits
// these cars from the last to the first, and so passes each blocked cell only once. It makes one allocation.
pub(crate) fn speeds_between(
    alloc: Global,
    at: StepSettings,
    road: &Road,
    first: usize,
    end: usize,
) -> Result<Vec<u8>, OutOfMemory>
    requires on_road { length road.now ≤ at.plan.now.cells }
    requires order { first ≤ end }
    requires within { end ≤ length (cars_of road.now) }
    ensures { IfOk result (λ new.
        new.items ≡ slice_range (speeds at.entry.plan.now at.entry.settings.now at.entry.step road.now) first end) }
{
    let cars = road.cars();
    let blocks = at.settings.blocks();
    let mut new = vec![in alloc; 0; end - first]?;
    let mut reached = blocks.len();
    for place in (first..end).rev() {
        reached = reached_blocks_below(blocks, cars[place].cell, reached);
        new[place - first] = new_speed(at, road, place, reached);
    }
    Ok(new)
}

// Compute the new speed of the car at a place, by the limit and the slowing chance of the zone where the car is. The
// first `reached` of the blocked cells are not in front of the car, and all others are.
fn new_speed(at: StepSettings, road: &Road, place: usize, reached: usize) -> u8
    requires on_road { length road.now ≤ at.plan.now.cells }
    requires car { place < length (cars_of road.now) }
    requires parted { ArePartedAt at.settings.now.blocks (cell_at (cars_of road.now) place) reached }
    ensures { let car = nth_car (cars_of road.now) place in
        result ≡ speed at.entry.plan.now at.entry.settings.now at.entry.step road.now car.cell (vehicle_of car) }
{
    let StepSettings {
        plan,
        settings,
        step,
    } = at;
    let car = road.cars()[place];
    let zone = (car.cell / plan.width()) as usize;
    let free = road.gap_to(place, settings.blocks(), reached);
    let wished = wanted(car.speed, settings.limits()[zone], free);
    let chance = chance_at(car.speed, settings.starts()[zone], settings.chances()[zone]);
    slowed_by_chance(plan, car.number, u64::from(step), wished, chance)
}
