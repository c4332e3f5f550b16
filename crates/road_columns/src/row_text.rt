//! Rows of text from the cars in columns.

ghost use Rattle.std.specs.Prelude.{◌≡◌, ◌≢◌, ◌<◌, ◌≤◌, ◌+◌, ℕ, length, slice_index, if◌then◌else◌, IfOk};
ghost use Rattle.std.specs.String.{string_bytes};
ghost use Rattle.road_cells.specs.Cars.{cars_of};
ghost use Rattle.road_cells.specs.Gap.{is_blocked};
ghost use Rattle.road_cells.specs.declared.car.TheConstants.{GREATEST_SPEED};
ghost use Rattle.road_ends.specs.Row.{row_of};
ghost use Rattle.road_ends.specs.declared.letters.TheConstants.{BLOCKED, STANDING};
ghost use Rattle.road_detector.specs.Rows.{HaveDigits};
ghost use Rattle.road_columns.specs.Private.Cars.{road_of};
ghost use Rattle.road_columns.specs.Private.LooseWords.{AreFalling};
ghost use Rattle.road_columns.specs.Private.Step.{AreCarsInColumn};

use crate::cars::CarColumns;
use road_ends::{BLOCKED, EMPTY, OutOfMemory, STANDING};
use road_plan::Plan;
use std::alloc::Global;

/// Return the road as a row of text, one character a cell: the speed of a car as a digit, else `#` if the cell is
/// blocked, else `.`.
///
/// # Errors
///
/// `OutOfMemory` if its only allocation fails.
pub fn text_of(
    alloc: Global,
    plan: &Plan,
    blocks: &[u32],
    cars: &CarColumns,
) -> Result<String, OutOfMemory>
    requires cars { AreCarsInColumn plan.now cars.now.head cars.now.tail cars.now.cells.items }
    requires speeds { length cars.now.speeds.items ≡ length cars.now.cells.items }
    requires digits { HaveDigits (cars_of (road_of cars.now)) }
    ensures { IfOk result (λ text. string_bytes text ≡ row_of plan.now.cells blocks.now (road_of cars.now)) }
{
    let row = vec![in alloc; EMPTY; plan.length() as usize]?;
    let mut row = with_blocks(row, blocks);
    mark_cars(
        &cars.cells[cars.head..cars.tail],
        &cars.speeds[cars.head..cars.tail],
        &mut row,
    );
    Ok(String::from_utf8(row).unwrap())
}

// Mark the blocked cells.
fn with_blocks(mut row: Vec<u8>, blocks: &[u32]) -> Vec<u8>
    ensures same_length { length result.items ≡ length row.items }
    ensures marked { (c : ℕ) → c < length row.items → slice_index result.items c
        ≡ (if is_blocked blocks.now c then BLOCKED else slice_index row.items c) }
{
    for block in blocks {
        if (*block as usize) < row.len() {
            row[*block as usize] = BLOCKED;
        }
    }
    row
}

// Mark each car by the digit of its speed.
fn mark_cars(cells: &[u16], speeds: &[u8], row: &mut [u8])
    requires speeds { length speeds.now ≡ length cells.now }
    requires falling { AreFalling cells.now 0 (length cells.now) }
    requires on_row { (i : ℕ) → i < length cells.now → slice_index cells.now i < length row.old }
    requires digits { (i : ℕ) → i < length speeds.now → slice_index speeds.now i ≤ GREATEST_SPEED }
    ensures long { length row.new ≡ length row.old }
    ensures cars { (i : ℕ) → i < length cells.now
        → slice_index row.new (slice_index cells.now i) ≡ STANDING + slice_index speeds.now i }
    ensures rest { (c : ℕ) → ((i : ℕ) → i < length cells.now → slice_index cells.now i ≢ c)
        → slice_index row.new c ≡ slice_index row.old c }
{
    for car in 0..cells.len() {
        row[cells[car] as usize] = STANDING + speeds[car];
    }
}
