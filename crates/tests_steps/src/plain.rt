//! The plain program of the definitions. It visits the road cell by cell, searches for what is in front of each car,
//! and draws every word. It is slow. Worked runs are compared with it.

ghost use Rattle.std.specs.Prelude.{◌≡◌, ◌≤◌, ◌<◌, length, nat_eq, IfOk};
ghost use Rattle.std.specs.List.{position};
ghost use Rattle.std.specs.List.Sorted.{IsNonDecreasing};
ghost use Rattle.std.specs.Option.{option_map, option_or};
ghost use Rattle.std.specs.String.{string_bytes};
ghost use Rattle.road_plan.specs.Settings.{Fits, defaults};
ghost use Rattle.road_plan.specs.Plan.{IsWithinLimits};
ghost use Rattle.road_cells.specs.Array.{vehicle_at};
ghost use Rattle.road_cells.specs.Cars.{cars_of, cell_at, car_of, vehicle_of};
ghost use Rattle.road_cells.specs.Gap.{is_blocked};
ghost use Rattle.road_ends.specs.Entries.{entry_at, road_with_entries};
ghost use Rattle.road_ends.specs.Speed.{speed, speeds, nth_car};
ghost use Rattle.road_ends.specs.Run.{road_after_step, run};
ghost use Rattle.road_ends.specs.Row.{letter, row_of, row};
ghost use Rattle.road_detector.proofs.MarkedRow.{HasDigits};

use road_cells::{Car, Road, is_blocked};
use road_ends::laws::{cars_stay_on_road, gap_on_road};
use road_ends::{BLOCKED, EMPTY, OutOfMemory, STANDING, leave};
use road_plan::limits::MOST_INLETS;
use road_plan::{Plan, Settings};
use road_rules::{moved, slowed, wanted};
use road_words::{PlanWords, Words};
use std::alloc::Global;

/// The stream of the words of the first inlet. The streams of the other inlets follow it.
const FIRST_INLET_STREAM: u64 = 1 << 63;

// Find the index of the inlet at a cell.
fn inlet_at(inlets: &[(u32, u32)], cell: u32) -> Option<usize>
    ensures { result ≡ position (λ inlet. nat_eq cell inlet.0) inlets.now }
{
    inlets.iter().position(|inlet| cell == inlet.0)
}

// Let a car enter at a cell, if the cell is an inlet's.
fn entry_at(plan: &Plan, settings: &Settings, step: u32, cell: u32) -> Option<Car>
    requires { Fits plan.now settings.now }
    ensures { result ≡ option_map (car_of cell) (entry_at plan.now settings.now step cell) }
{
    let inlet = inlet_at(plan.inlets(), cell)?;
    if is_blocked(settings.blocks(), cell) {
        return None;
    }
    let stream = FIRST_INLET_STREAM + inlet as u64;
    let word = PlanWords::of(plan).word(stream, u64::from(step));
    if word >> 16 >= settings.inflows()[inlet] {
        return None;
    }
    Some(Car {
        number: u64::from(step) * MOST_INLETS as u64 + inlet as u64,
        cell,
        speed: 0,
    })
}

// Find the car at a cell. If there is none, let a car enter there.
fn car_or_entry_at(
    plan: &Plan,
    settings: &Settings,
    step: u32,
    road: &Road,
    cell: u32,
) -> Option<Car>
    requires { Fits plan.now settings.now }
    ensures { result ≡ option_map (car_of cell)
        (option_or (vehicle_at road.now cell) (entry_at plan.now settings.now step cell)) }
{
    match road.car_at(cell) {
        Some(car) => Some(car),
        None => entry_at(plan, settings, step, cell),
    }
}

// Make the road with the cars that enter at a step, cell by cell.
fn road_with_entries(
    alloc: Global,
    plan: &Plan,
    settings: &Settings,
    step: u32,
    road: &Road,
) -> Result<Road, OutOfMemory>
    requires { Fits plan.now settings.now }
    ensures moving { IfOk result (λ moving. moving ≡ road_with_entries plan.now settings.now step road.now) }
    ensures on_road { IfOk result (λ moving. length moving ≤ plan.now.cells) }
    ensures within { IfOk result (λ _. IsWithinLimits plan.now) }
{
    let mut cars = Vec::new(alloc);
    for cell in 0..plan.length() {
        match car_or_entry_at(plan, settings, step, road, cell) {
            Some(car) => cars.push(car)?,
            None => {}
        }
    }
    Ok(Road::of(cars))
}

// Compute the new speed of the car at a place of the list, by the limit and the slowing chance of the zone where it
// stands.
fn speed(plan: &Plan, settings: &Settings, step: u32, road: &Road, place: usize) -> u8
    requires fits { Fits plan.now settings.now }
    requires on_road { length road.now ≤ plan.now.cells }
    requires car { place < length (cars_of road.now) }
    ensures { let car = nth_car (cars_of road.now) place in
        result ≡ speed plan.now settings.now step road.now car.cell (vehicle_of car) }
{
    let car = road.cars()[place];
    let zone = (car.cell / plan.width()) as usize;
    let wished = wanted(
        car.speed,
        settings.limits()[zone],
        gap_on_road(plan, settings, road, place),
    );
    let word = PlanWords::of(plan).word(car.number, u64::from(step));
    let chance = if car.speed == 0 {
        settings.starts()[zone]
    } else {
        settings.chances()[zone]
    };
    slowed(wished, word, chance)
}

// Compute the new speeds of all cars, in the order of the cars, car by car.
fn speeds(
    alloc: Global,
    plan: &Plan,
    settings: &Settings,
    step: u32,
    road: &Road,
) -> Result<Vec<u8>, OutOfMemory>
    requires fits { Fits plan.now settings.now }
    requires on_road { length road.now ≤ plan.now.cells }
    ensures { IfOk result (λ new. new.items ≡ speeds plan.now settings.now step road.now) }
{
    let mut new = Vec::with_capacity(alloc, road.cars().len())?;
    for place in 0..road.cars().len() {
        new.push(speed(plan, settings, step, road, place))?;
    }
    Ok(new)
}

/// Compute the road after a step: let cars enter, compute speeds, move the cars, delete those in the exit.
pub(crate) fn road_after_step(
    alloc: Global,
    plan: &Plan,
    settings: &Settings,
    step: u32,
    road: &Road,
) -> Result<Road, OutOfMemory>
    requires { Fits plan.now settings.now }
    ensures { IfOk result (λ later. later ≡ road_after_step plan.now settings.now step road.now) }
{
    let moving = road_with_entries(alloc, plan, settings, step, road)?;
    let speeds = speeds(alloc, plan, settings, step, &moving)?;
    Ok(leave(plan, moved(alloc, &moving, &speeds)?))
}

/// Run a plan without edits from the empty road of step 0 to a step.
pub(crate) fn run(alloc: Global, plan: &Plan, step: u32) -> Result<Road, OutOfMemory>
    ensures { IfOk result (λ road. road ≡ run plan.now (λ _. defaults plan.now) step) }
{
    let settings = Settings::of_plan(alloc, plan)?;
    let mut road = Road::empty(alloc);
    for now in 0..step {
        road = road_after_step(alloc, plan, &settings, now, &road)?;
    }
    Ok(road)
}

// Return the letter of a cell.
fn letter(blocks: &[u32], road: &Road, cell: u32) -> u8
    requires rising { IsNonDecreasing blocks.now }
    requires digits { HasDigits road.now }
    ensures letter { result ≡ letter (is_blocked blocks.now cell) (vehicle_at road.now cell) }
    ensures ascii { result < 128 }
{
    match road.car_at(cell) {
        Some(car) => STANDING + car.speed,
        None if is_blocked(blocks, cell) => BLOCKED,
        None => EMPTY,
    }
}

// Draw the road as a row of text, letter by letter.
fn row_text(alloc: Global, length: u32, blocks: &[u32], road: &Road) -> Result<String, OutOfMemory>
    requires rising { IsNonDecreasing blocks.now }
    requires digits { HasDigits road.now }
    ensures { IfOk result (λ text. string_bytes text ≡ row_of length blocks.now road.now) }
{
    let mut text = String::new(alloc);
    for cell in 0..length {
        text.push(char::from(letter(blocks, road, cell)))?;
    }
    Ok(text)
}

/// Draw the row of text of a step of a plan without edits.
pub(crate) fn row(alloc: Global, plan: &Plan, step: u32) -> Result<String, OutOfMemory>
    ensures { IfOk result (λ text. string_bytes text ≡ row plan.now (λ _. defaults plan.now) step) }
{
    cars_stay_on_road(plan);
    let road = run(alloc, plan, step)?;
    let settings = Settings::of_plan(alloc, plan)?;
    row_text(alloc, plan.length(), settings.blocks(), &road)
}
