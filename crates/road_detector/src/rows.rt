//! The road as a row of text.

ghost use Rattle.std.specs.Prelude.{◌≡◌, ◌<◌, ℕ, length, slice_index, IfOk};
ghost use Rattle.std.specs.String.{string_bytes};
ghost use Rattle.road_cells.specs.Cars.{AreRising, cars_of, vehicle_among};
ghost use Rattle.road_cells.specs.Gap.{is_blocked};
ghost use Rattle.road_ends.specs.Row.{row_of};
ghost use Rattle.road_detector.specs.Rows.{HaveDigits, blocked_letter, car_letter};

use crate::OutOfMemory;
use road_cells::{Car, Road};
use road_ends::{BLOCKED, EMPTY, STANDING};
use std::alloc::Global;

/// Draw the road as a row of text, with one letter for each of its `length` cells: a car's speed as a digit, else `#`
/// if the cell is blocked, else `.`. No speed may be above 9, since it would have no digit. Blocked cells and cars at
/// or past `length` are not drawn.
///
/// It visits each blocked cell once, in whatever order they are, and each car once. It makes one allocation.
///
/// # Errors
///
/// `OutOfMemory` if that allocation failed.
pub fn row_text(
    alloc: Global,
    road: &Road,
    blocks: &[u32],
    length: u32,
) -> Result<String, OutOfMemory>
    requires { HaveDigits (cars_of road.now) }
    ensures { IfOk result (λ text. string_bytes text ≡ row_of length blocks.now road.now) }
{
    let row = vec![in alloc; EMPTY; length as usize]?;
    let row = with_blocks(row, blocks);
    let row = with_cars(row, road.cars());
    Ok(String::from_utf8(row).unwrap())
}

// Mark the blocked cells.
fn with_blocks(mut row: Vec<u8>, blocks: &[u32]) -> Vec<u8>
    ensures same_length { length result.items ≡ length row.items }
    ensures marked { (c : ℕ) → c < length row.items
        → slice_index result.items c ≡ blocked_letter (is_blocked blocks.now c) (slice_index row.items c) }
{
    for block in blocks {
        if (*block as usize) < row.len() {
            row[*block as usize] = BLOCKED;
        }
    }
    row
}

// Mark the cars, each by the digit of its speed.
fn with_cars(mut row: Vec<u8>, cars: &[Car]) -> Vec<u8>
    requires rise { AreRising cars.now }
    requires digits { HaveDigits cars.now }
    ensures same_length { length result.items ≡ length row.items }
    ensures marked { (c : ℕ) → c < length row.items
        → slice_index result.items c ≡ car_letter (vehicle_among c cars.now) (slice_index row.items c) }
{
    for car in cars {
        if (car.cell as usize) < row.len() {
            row[car.cell as usize] = STANDING + car.speed;
        }
    }
    row
}
