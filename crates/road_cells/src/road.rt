//! The road: its cars, and the free cells in front of each.

ghost use Rattle.std.specs.Prelude.{◌≡◌, ℕ, ◌+◌, ◌<◌, ◌≤◌, ◌-◌, min, [], length, map, is_some, IfOk};
ghost use Rattle.std.specs.List.{range_with_len};
ghost use Rattle.std.specs.List.Sorted.{IsNonDecreasing};
ghost use Rattle.std.specs.Option.{option_map};
ghost use Rattle.road_cells.specs.Array.{vehicle_at};
ghost use Rattle.road_cells.specs.Cars.{AreRising, cars_of, cars_from, car_of, cars_before, array_of, cell_at};
ghost use Rattle.road_cells.specs.Cars.{vehicle_among};
ghost use Rattle.road_cells.specs.Gap.{free_before, free_cells, is_blocked, ArePartedAt};

use crate::OutOfMemory;
use crate::blocks::reached_blocks;
use crate::car::{Car, GREATEST_SPEED};
use std::alloc::Global;
use std::marker::Model;

/// A road: an array of cells, each empty or occupied by a car. It stores its cars in strictly rising cells, and
/// contracts see the array.
#[derive(Drop)]
pub struct Road {
    cars: Vec<Car>,
}

impl Model for Road {
    ghost use Rattle.road_cells.specs.Array.{Array};
    ghost use Rattle.road_cells.specs.Cars.{AreRising, array_of};

    ghost Value = { Array };

    ghost view = { λ road. array_of road.cars.items };

    ghost invariant = { λ road. AreRising road.cars.items };
}

impl Road {
    /// Make the empty road. It does not allocate.
    pub fn empty(alloc: Global) -> Self
        ensures { result ≡ [] }
    {
        Road {
            cars: Vec::new(alloc),
        }
    }

    /// Make the road of these cars, whose cells must rise strictly. It keeps the list and does not allocate.
    pub fn of(cars: Vec<Car>) -> Self
        requires { AreRising cars.items }
        ensures road { result ≡ array_of cars.items }
        ensures cars { cars_of result ≡ cars.items }
    {
        Road { cars }
    }

    /// Return the cars in strictly rising cells, as the list that the road stored. It does not allocate.
    pub fn into_cars(self) -> Vec<Car>
        ensures all { result.items ≡ cars_of self }
        ensures rise { AreRising result.items }
        ensures road { array_of result.items ≡ self }
    {
        let Road { cars } = self;
        cars
    }

    /// Return the cars in strictly rising cells. A car's index here is its place.
    pub fn cars(&self) -> &[Car]
        ensures all { result.now ≡ cars_of self.now }
        ensures rise { AreRising result.now }
        ensures road { array_of result.now ≡ self.now }
    {
        self.cars.as_slice()
    }

    /// Find the car at a cell by a binary search. Return `None` if the cell is empty or past the last car.
    pub fn car_at(&self, cell: u32) -> Option<Car>
        ensures { result ≡ option_map (car_of cell) (vehicle_at self.now cell) }
    {
        match self.cars.binary_search_by_key(&cell, |car| car.cell) {
            Ok(place) => Some(self.cars[place]),
            Err(_) => None,
        }
    }

    /// Count the cars before a cell, by a binary search. The count is the place of the first car at the cell or past
    /// it.
    pub fn cars_before(&self, cell: u32) -> usize
        ensures { result ≡ cars_before cell (cars_of self.now) }
    {
        self.cars.partition_point(|car| car.cell < cell)
    }

    /// Return the cars at the cells from `from` on and before `to`. `from` must be at most `to`. The cars are found by
    /// two binary searches.
    pub fn between(&self, from: u32, to: u32) -> &[Car]
        requires { from ≤ to }
        ensures { result.now ≡ cars_from from (map (vehicle_at self.now) (range_with_len from (to - from))) }
    {
        let first = self.cars_before(from);
        let end = self.cars_before(to);
        &self.cars()[first..end]
    }

    /// Count the free cells in front of a car, up to the next car or blocked cell, at most `GREATEST_SPEED`.
    /// Nagel and Schreckenberg call this `j - 1` (J. Phys. I France 2 (1992) 2221); here blocked cells end it too.
    ///
    /// `place` is the car's place in [`Road::cars`], and `blocks` are the blocked cells, rising. A block behind the car
    /// or under it is ignored. The road has no end here: all cells past the last car that are not blocked are free.
    /// Only the next car and the next block matter. The block is found by a binary search.
    pub fn gap(&self, place: usize, blocks: &[u32]) -> u8
        requires car { place < length (cars_of self.now) }
        requires rising { IsNonDecreasing blocks.now }
        ensures { result ≡ free_cells blocks.now self.now (cell_at (cars_of self.now) place) }
    {
        let cell = self.cars()[place].cell;
        self.gap_to(place, blocks, reached_blocks(blocks, cell))
    }

    /// Count the free cells in front of a car, as [`Road::gap`] does, given that the first `reached` blocked cells are
    /// not in front of the car and all others are ([`crate::reached_blocks_below`]). It is for callers that visit the
    /// cars from the last one to the first. It searches nothing and does not allocate.
    pub fn gap_to(&self, place: usize, blocks: &[u32], reached: usize) -> u8
        requires car { place < length (cars_of self.now) }
        requires rising { IsNonDecreasing blocks.now }
        requires parted { ArePartedAt blocks.now (cell_at (cars_of self.now) place) reached }
        ensures { result ≡ free_cells blocks.now self.now (cell_at (cars_of self.now) place) }
    {
        let cars = self.cars();
        let to_car = free_to_car(cars, place);
        let to_block = free_to_block(cars[place].cell, blocks, reached);
        to_car.min(to_block)
    }

    /// Copy the road, in one allocation, or in none if the road has no car.
    ///
    /// # Errors
    ///
    /// `OutOfMemory` if that allocation failed.
    pub fn copied(&self) -> Result<Road, OutOfMemory>
        ensures { IfOk result (λ road. road ≡ self.now) }
    {
        Ok(Road {
            cars: self.cars.clone()?,
        })
    }
}

// Count the free cells in front of a car, up to the next car.
fn free_to_car(cars: &[Car], place: usize) -> u8
    requires car { place < length cars.now }
    requires rising { AreRising cars.now }
    ensures { result ≡ free_before (λ c. is_some (vehicle_among c cars.now)) (cell_at cars.now place + 1)
        GREATEST_SPEED }
{
    match cars.get(place + 1) {
        Some(next) => free_between(cars[place].cell, next.cell),
        None => GREATEST_SPEED,
    }
}

// Count the free cells in front of a cell, up to the next blocked cell.
fn free_to_block(cell: u32, blocks: &[u32], reached: usize) -> u8
    requires rising { IsNonDecreasing blocks.now }
    requires parted { ArePartedAt blocks.now cell reached }
    ensures { result ≡ free_before (is_blocked blocks.now) (cell + 1) GREATEST_SPEED }
{
    match blocks.get(reached) {
        Some(block) => free_between(cell, *block),
        None => GREATEST_SPEED,
    }
}

// Count the cells between two cells, at most `GREATEST_SPEED`.
fn free_between(cell: u32, next: u32) -> u8
    requires { cell < next }
    ensures { result ≡ min GREATEST_SPEED (next - (cell + 1)) }
{
    (next - cell - 1).min(u32::from(GREATEST_SPEED)) as u8
}
