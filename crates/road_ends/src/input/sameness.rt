//! Whether two inputs are the same.

ghost use Rattle.std.specs.Prelude.{◌≡◌, ◌↔◌, IsTrue};

use crate::input::StepInput;
use road_cells::{Car, Road};
use road_plan::{Plan, Settings};

impl StepInput {
    /// Return whether two inputs have the same step, road, plan and settings. It does not allocate.
    pub fn same(&self, other: &StepInput) -> bool
        ensures { IsTrue result ↔ (self.now ≡ other.now) }
    {
        self.step == other.step
            && is_same_road(&self.road, &other.road)
            && is_same_plan(&self.plan, &other.plan)
            && are_same_settings(&self.settings, &other.settings)
    }
}

fn is_same_road(road: &Road, other: &Road) -> bool
    ensures { IsTrue result ↔ (road.now ≡ other.now) }
{
    are_same_cars(road.cars(), other.cars())
}

/// Return whether two plans are the same. It does not allocate.
pub fn is_same_plan(plan: &Plan, other: &Plan) -> bool
    ensures { IsTrue result ↔ (plan.now ≡ other.now) }
{
    have_same_numbers(plan, other) && have_same_lists(plan, other)
}

fn have_same_numbers(plan: &Plan, other: &Plan) -> bool
    ensures { IsTrue result ↔ (
        (plan.now.cells ≡ other.now.cells)
        × (plan.now.exit ≡ other.now.exit)
        × (plan.now.width ≡ other.now.width)
        × (plan.now.words ≡ other.now.words)
        ) }
{
    plan.length() == other.length()
        && plan.exit() == other.exit()
        && plan.width() == other.width()
        && plan.words() == other.words()
}

fn have_same_lists(plan: &Plan, other: &Plan) -> bool
    ensures { IsTrue result ↔ (
        (plan.now.zones ≡ other.now.zones)
        × (plan.now.inlets ≡ other.now.inlets)
        × (plan.now.detectors ≡ other.now.detectors)
        ) }
{
    are_same_pairs(plan.zones(), other.zones())
        && are_same_pairs(plan.inlets(), other.inlets())
        && are_same_numbers(plan.detectors(), other.detectors())
}

/// Return whether two settings are the same. It does not allocate.
pub fn are_same_settings(settings: &Settings, other: &Settings) -> bool
    ensures { IsTrue result ↔ (settings.now ≡ other.now) }
{
    have_same_chances(settings, other) && have_same_places(settings, other)
}

fn have_same_chances(settings: &Settings, other: &Settings) -> bool
    ensures { IsTrue result ↔ (
        (settings.now.limits ≡ other.now.limits)
        × (settings.now.chances ≡ other.now.chances)
        × (settings.now.inflows ≡ other.now.inflows)
        × (settings.now.starts ≡ other.now.starts)
        ) }
{
    are_same_numbers(settings.limits(), other.limits())
        && are_same_numbers(settings.chances(), other.chances())
        && are_same_numbers(settings.inflows(), other.inflows())
        && are_same_numbers(settings.starts(), other.starts())
}

fn have_same_places(settings: &Settings, other: &Settings) -> bool
    ensures { IsTrue result ↔ (
        (settings.now.blocks ≡ other.now.blocks) × (settings.now.watched ≡ other.now.watched)
        ) }
{
    are_same_numbers(settings.blocks(), other.blocks())
        && are_same_flags(settings.watched(), other.watched())
}

fn are_same_numbers(numbers: &[u32], other: &[u32]) -> bool
    ensures { IsTrue result ↔ (numbers.now ≡ other.now) }
{
    numbers == other
}

fn are_same_pairs(pairs: &[(u32, u32)], other: &[(u32, u32)]) -> bool
    ensures { IsTrue result ↔ (pairs.now ≡ other.now) }
{
    pairs == other
}

fn are_same_flags(flags: &[bool], other: &[bool]) -> bool
    ensures { IsTrue result ↔ (flags.now ≡ other.now) }
{
    flags == other
}

/// Return whether two lists of cars are the same. It does not allocate.
// This loop takes less time for each car than `==` of the lists does.
pub fn are_same_cars(cars: &[Car], other: &[Car]) -> bool
    ensures { IsTrue result ↔ (cars.now ≡ other.now) }
{
    if cars.len() != other.len() {
        return false;
    }
    for place in 0..cars.len() {
        if !is_same_car(&cars[place], &other[place]) {
            return false;
        }
    }
    true
}

fn is_same_car(car: &Car, other: &Car) -> bool
    ensures { IsTrue result ↔ (car.now ≡ other.now) }
{
    car.number == other.number && car.cell == other.cell && car.speed == other.speed
}
