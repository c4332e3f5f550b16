//! Rule 4, the motion of all cars.

ghost use Rattle.std.specs.Prelude.{◌≡◌, ◌≤◌, [], length, IfOk, IsOk};
ghost use Rattle.road_rules.specs.Motion.{array_after_motion_at, MayMove, car_after_motion, cars_after_motion};
ghost use Rattle.road_cells.specs.Cars.{cars_of};

use crate::OutOfMemory;
use road_cells::{Car, Road};
use std::alloc::Global;

/// Apply rule 4 of 1992, motion: all cars advance at once, each by its new speed in cells.
///
/// `speeds` has one speed for each car, in the order of [`Road::cars`]. Each is at most 9 and at most the free cells
/// before the next car. Each car's cell is at most 65,535. Cars past the end of a road are not removed. It makes one
/// pass and one allocation, or none if the road has no car.
///
/// # Errors
///
/// `OutOfMemory` if that allocation failed.
pub fn moved(alloc: Global, road: &Road, speeds: &[u8]) -> Result<Road, OutOfMemory>
    requires low { length road.now ≤ 65536 }
    requires may { MayMove road.now speeds.now }
    ensures nothing_grows { road.now ≡ [] → IsOk result }
    ensures motion { IfOk result (λ moved. moved ≡ array_after_motion_at speeds.now road.now) }
    ensures cars { IfOk result (λ moved. cars_of moved ≡ cars_after_motion speeds.now (cars_of road.now)) }
{
    if road.cars().is_empty() {
        return Ok(Road::empty(alloc));
    }
    Ok(moved_in_place(road.copied()?, speeds))
}

// Apply rule 4 as [`moved`] does, under the same conditions, but to the list of cars that the road stored. It does not
// allocate.
fn moved_in_place(road: Road, speeds: &[u8]) -> Road
    requires low { length road ≤ 65536 }
    requires may { MayMove road speeds.now }
    ensures motion { result ≡ array_after_motion_at speeds.now road }
    ensures cars { cars_of result ≡ cars_after_motion speeds.now (cars_of road) }
{
    let mut cars = road.into_cars();
    for place in 0..cars.len() {
        advance(&mut cars[place], speeds[place]);
    }
    Road::of(cars)
}

fn advance(car: &mut Car, speed: u8)
    requires { car.old.cell ≤ 65535 }
    ensures { car.new ≡ car_after_motion speed car.old }
{
    car.cell += u32::from(speed);
    car.speed = speed;
}
