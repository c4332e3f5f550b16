//! Moves columns back to their first places once in each interval, since cars leave at one end and enter at the other.

ghost use Rattle.std.specs.Prelude.{◌≡◌, ◌<◌, ◌≤◌, ◌+◌, ◌-◌, ◌^◌, ℕ, List, length, slice_index};
ghost use Rattle.std.specs.List.{slice_index_or};
ghost use Rattle.road_plan.specs.Plan.{Plan};
ghost use Rattle.road_cells.specs.Array.{Array};
ghost use Rattle.road_columns.specs.Private.Cars.{AreCarsOf, ShiftsBack};
ghost use Rattle.road_columns.specs.Private.Entering.{ArePlacesFrom};
ghost use Rattle.road_columns.specs.Private.Step.{AreCarsInColumn};

use crate::cars::CarColumns;
use crate::cutting::NOWHERE;

/// The place of the car at the far end at the start of an interval.
pub const FIRST: usize = 8;

/// Move the cars, and the kept places of sites, back to the places from [`FIRST`] on.
#[inline(never)]
pub fn shift_back(cars: &mut CarColumns)
    requires places { (d : ℕ) → d < length cars.old.places.items → cars.old.head ≤ slice_index cars.old.places.items d }
    ensures shifts { ShiftsBack cars.old cars.new }
    ensures cars { (p : Plan) → p.cells ≤ 65525
        → AreCarsInColumn p cars.old.head cars.old.tail cars.old.cells.items
        → AreCarsInColumn p cars.new.head cars.new.tail cars.new.cells.items }
    ensures places { (sites : List ℕ)
        → ArePlacesFrom cars.old.cells.items cars.old.head cars.old.tail sites cars.old.places.items
        → ArePlacesFrom cars.new.cells.items cars.new.head cars.new.tail sites cars.new.places.items }
    ensures road { (a : Array) → AreCarsOf a cars.old → AreCarsOf a cars.new }
{
    let end = FIRST + (cars.tail - cars.head);
    move_back(&mut cars.cells, cars.head, cars.tail);
    move_back(&mut cars.speeds, cars.head, cars.tail);
    move_back(&mut cars.numbers, cars.head, cars.tail);
    cars.cells[FIRST - 1] = NOWHERE;
    cars.cells[end] = 0;
    places_back(&mut cars.places, (cars.head - FIRST) as u32);
    cars.head = FIRST;
    cars.tail = end;
}

// Move the values at the places from `head` to before `tail` to the places from [`FIRST`] on.
#[inline(always)]
fn move_back<T: Copy>(column: &mut Vec<T>, head: usize, tail: usize)
    requires from { FIRST ≤ head }
    requires order { head ≤ tail }
    requires inside { tail ≤ length column.old.items }
    ensures long { length column.new.items ≡ length column.old.items }
    ensures moved { (d : T) → (i : ℕ) → i < tail - head
        → slice_index_or column.new.items (FIRST + i) d ≡ slice_index_or column.old.items (head + i) d }
{
    column.copy_within(head..tail, FIRST);
}

#[inline(always)]
fn places_back(places: &mut [u32], by: u32)
    requires { (d : ℕ) → d < length places.old → by ≤ slice_index places.old d }
    ensures long { length places.new ≡ length places.old }
    ensures each { (d : ℕ) → d < length places.old → slice_index places.new d ≡ slice_index places.old d - by }
{
    for place in 0..places.len() {
        places[place] -= by;
    }
}
