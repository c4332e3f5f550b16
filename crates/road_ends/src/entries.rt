//! The cars that enter the road at its inlets in a step.

ghost use Rattle.std.specs.Prelude.{◌≡◌, ℕ, ◌≤◌, ◌<◌, length, nat_eq, None, IfOk};
ghost use Rattle.std.specs.List.{position};
ghost use Rattle.std.specs.Option.{option_map, option_or};
ghost use Rattle.road_plan.specs.Plan.{IsWithinLimits};
ghost use Rattle.road_cells.specs.Array.{vehicle_at};
ghost use Rattle.road_cells.specs.Cars.{car_of};
ghost use Rattle.road_ends.specs.Entries.{entry_at, road_with_entries};

use crate::OutOfMemory;
use crate::chance::has_event;
use crate::step_settings::StepSettings;
use road_cells::{Car, Road, is_blocked};
use road_plan::limits::MOST_INLETS;
use std::alloc::Global;

// The stream of the first inlet's words. The streams of the other inlets follow it.
const FIRST_INLET_STREAM: u64 = 1 << 63;

// Make the road with the cars that enter at a step: one at each inlet whose cell is empty and not blocked, if the event
// of its inflow chance happens. The new road has no car past the road's end. The cars between two inlets are copied
// unchanged. It makes one allocation.
pub(crate) fn road_with_entries(
    alloc: Global,
    at: StepSettings,
    road: &Road,
) -> Result<Road, OutOfMemory>
    ensures moving { IfOk result (λ moving.
        moving ≡ road_with_entries at.entry.plan.now at.entry.settings.now at.entry.step road.now) }
    ensures on_road { IfOk result (λ moving. length moving ≤ at.entry.plan.now.cells) }
    ensures within { IfOk result (λ _. IsWithinLimits at.entry.plan.now) }
{
    let inlets = at.plan.inlets();
    let end = at.plan.length();
    let mut cars = Vec::with_capacity(alloc, road.cars().len() + inlets.len())?;
    let mut cell = 0;
    while cell < end {
        let inlet = next_inlet(inlets, cell, end);
        cars.extend_from_slice(road.between(cell, inlet))?;
        if inlet < end {
            match car_or_entry_at(at, road, inlet) {
                Some(car) => cars.push(car)?,
                None => {}
            }
        }
        cell = inlet + 1;
    }
    Ok(Road::of(cars))
}

// Return the first cell of an inlet at `cell` or past it, or `end` if no such cell is before `end`.
fn next_inlet(inlets: &[(u32, u32)], cell: u32, end: u32) -> u32
    requires { cell ≤ end }
    ensures from { cell ≤ result }
    ensures within { result ≤ end }
    ensures first { (c : ℕ) → cell ≤ c → c < result → position (λ inlet. nat_eq c inlet.0) inlets.now ≡ None }
{
    let mut next = end;
    for inlet in inlets {
        if cell <= inlet.0 && inlet.0 < next {
            next = inlet.0;
        }
    }
    next
}

// Return the car at a cell, or else the car that enters there, if one does.
fn car_or_entry_at(at: StepSettings, road: &Road, cell: u32) -> Option<Car>
    ensures { result ≡ option_map (car_of cell)
        (option_or (vehicle_at road.now cell) (entry_at at.entry.plan.now at.entry.settings.now at.entry.step cell)) }
{
    match road.car_at(cell) {
        Some(car) => Some(car),
        None => entry_at(at, cell),
    }
}

// Return the car that enters at an empty cell, if one does. No car enters at a cell that is not an inlet's.
fn entry_at(at: StepSettings, cell: u32) -> Option<Car>
    ensures { result ≡ option_map (car_of cell)
        (entry_at at.entry.plan.now at.entry.settings.now at.entry.step cell) }
{
    let StepSettings {
        plan,
        settings,
        step,
    } = at;
    let inlet = inlet_at(plan.inlets(), cell)?;
    let stream = FIRST_INLET_STREAM + inlet as u64;
    if is_blocked(settings.blocks(), cell)
        || !has_event(plan, stream, u64::from(step), settings.inflows()[inlet])
    {
        return None;
    }
    Some(Car {
        number: u64::from(step) * MOST_INLETS as u64 + inlet as u64,
        cell,
        speed: 0,
    })
}

// Find the index of the inlet at a cell.
fn inlet_at(inlets: &[(u32, u32)], cell: u32) -> Option<usize>
    ensures { result ≡ position (λ inlet. nat_eq cell inlet.0) inlets.now }
{
    inlets.iter().position(|inlet| cell == inlet.0)
}
