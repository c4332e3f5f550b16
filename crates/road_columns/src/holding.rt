//! Which cars columns can hold.

ghost use Rattle.std.specs.Prelude.{◌↔◌, IsTrue};
ghost use Rattle.std.specs.List.{All};
ghost use Rattle.road_columns.specs.UnderWay.{CanRun};

use road_cells::{Car, GREATEST_SPEED};
use road_ends::Stretch;

/// Return whether columns can hold these cars for a stretch: each car is on the cells of the stretch and before the
/// exit, and has a speed of at most 9 cells per step and a number below 2^32.
pub fn can_hold(cars: &[Car], stretch: Stretch, exit_start: u32) -> bool
    ensures { IsTrue result ↔ All (CanRun stretch.first stretch.end exit_start) cars.now }
{
    cars.iter().all(|car| can_run(car, stretch, exit_start))
}

fn can_run(car: &Car, stretch: Stretch, exit_start: u32) -> bool
    ensures { IsTrue result ↔ CanRun stretch.first stretch.end exit_start car.now }
{
    stretch.first <= car.cell
        && car.cell < stretch.end
        && car.cell < exit_start
        && car.speed <= GREATEST_SPEED
        && car.number < 1 << 32
}
