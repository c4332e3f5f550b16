//! Checkpoints: roads that are stored in few bytes, and shared.

ghost use Rattle.std.specs.Prelude.{◌≡◌, [], map, IfOk};
ghost use Rattle.road_cells.specs.Cars.{cars_of};
ghost use Rattle.road_sheet.specs.Private.Checkpoints.{AreSmall, IsSmall, unpacked_car};

use road_cells::{Car, Road};
use road_plan::OutOfMemory;
use std::alloc::Global;
use std::marker::Model;
use std::sync::Arc;

// A car in 6 bytes. Its number is below 2^24, and is split into its lower 16 bits and its upper 8.
#[derive(Clone, Copy, Debug, PartialEq, Eq)]
struct PackedCar {
    low: u16,
    cell: u16,
    high: u8,
    speed: u8,
}

// A road from which a run resumes. Its copies share the cars. Contracts see the road.
#[derive(Drop)]
pub(crate) struct Checkpoint {
    cars: Arc<Vec<PackedCar>>,
}

impl Model for Checkpoint {
    ghost use Rattle.std.specs.Prelude.{map};
    ghost use Rattle.std.specs.Arc.{arc_value};
    ghost use Rattle.road_cells.specs.Array.{Array};
    ghost use Rattle.road_cells.specs.Cars.{AreRising, array_of};
    ghost use Rattle.road_sheet.specs.Private.Checkpoints.{unpacked_car};

    ghost Value = { Array };

    ghost view = { λ kept. array_of (map unpacked_car (arc_value kept.cars).items) };

    ghost invariant = { λ kept. AreRising (map unpacked_car (arc_value kept.cars).items) };
}

impl Checkpoint {
    // Make the checkpoint of the empty road.
    pub(crate) fn empty(alloc: Global) -> Result<Checkpoint, OutOfMemory>
        ensures { IfOk result (λ kept. kept ≡ []) }
    {
        let cars = Arc::new(alloc, Vec::new(alloc))?;
        Ok(Checkpoint { cars })
    }

    // Make the checkpoint of a road whose cars fit, with two allocations.
    pub(crate) fn of(alloc: Global, road: &Road) -> Result<Checkpoint, OutOfMemory>
        requires { AreSmall (cars_of road.now) }
        ensures { IfOk result (λ kept. kept ≡ road.now) }
    {
        let cars = Arc::new(alloc, packed_cars(alloc, road.cars())?)?;
        Ok(Checkpoint { cars })
    }

    // Make another checkpoint that shares the cars. It does not allocate.
    pub(crate) fn share(&self) -> Result<Checkpoint, OutOfMemory>
        ensures { IfOk result (λ kept. kept ≡ self.now) }
    {
        let cars = Arc::try_clone(&self.cars)?;
        Ok(Checkpoint { cars })
    }

    // Make the road, with one allocation.
    pub(crate) fn road(&self, alloc: Global) -> Result<Road, OutOfMemory>
        ensures { IfOk result (λ road. road ≡ self.now) }
    {
        let cars = unpacked_cars(alloc, &self.cars)?;
        Ok(Road::of(cars))
    }
}

fn packed_cars(alloc: Global, cars: &[Car]) -> Result<Vec<PackedCar>, OutOfMemory>
    requires { AreSmall cars.now }
    ensures { IfOk result (λ kept. map unpacked_car kept.items ≡ cars.now) }
{
    let mut kept = Vec::with_capacity(alloc, cars.len())?;
    for car in cars {
        kept.push(packed_car(*car))?;
    }
    Ok(kept)
}

fn packed_car(car: Car) -> PackedCar
    requires { IsSmall car }
    ensures { unpacked_car result ≡ car }
{
    PackedCar {
        low: (car.number % 65_536) as u16,
        cell: car.cell as u16,
        high: (car.number / 65_536) as u8,
        speed: car.speed,
    }
}

fn unpacked_cars(alloc: Global, kept: &[PackedCar]) -> Result<Vec<Car>, OutOfMemory>
    ensures { IfOk result (λ cars. cars.items ≡ map unpacked_car kept.now) }
{
    let mut cars = Vec::with_capacity(alloc, kept.len())?;
    for car in kept {
        cars.push(Car {
            number: u64::from(car.low) + 65_536 * u64::from(car.high),
            cell: u32::from(car.cell),
            speed: car.speed,
        })?;
    }
    Ok(cars)
}
