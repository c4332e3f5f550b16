//! Roads drawn as rows of text.

ghost use Rattle.std.specs.Prelude.{◌↔◌, IsTrue};
ghost use Rattle.road_detector.specs.Rows.{HaveDigits};

use road_cells::{Car, Road};
use road_detector::row_text;
use road_plan::OutOfMemory;
use std::alloc::Global;

// Return whether each speed is a digit.
fn have_digits(cars: &[Car]) -> bool
    ensures { IsTrue result ↔ HaveDigits cars.now }
{
    cars.iter().all(|car| car.speed <= 9)
}

/// Draw the row of a road with this many cells and these blocked cells, or an empty text if a speed is not a
/// digit.
///
/// # Errors
///
/// `OutOfMemory` if an allocation failed.
pub fn row_of(
    alloc: Global,
    road: &Road,
    blocks: &[u32],
    length: u32,
) -> Result<String, OutOfMemory> {
    if have_digits(road.cars()) {
        row_text(alloc, road, blocks, length)
    } else {
        Ok(String::new(alloc))
    }
}
