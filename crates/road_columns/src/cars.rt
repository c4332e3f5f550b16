//! The cars of a road in columns.

ghost use Rattle.std.specs.Prelude.{◌≡◌, ◌↔◌, ◌<◌, ◌≤◌, ◌+◌, ◌-◌, ◌^◌, ℕ, length, slice_index, IfOk, IsTrue, OnOk};
ghost use Rattle.std.specs.List.{All, slice_index_or};
ghost use Rattle.road_plan.specs.Plan.{Plan, exit_start};
ghost use Rattle.road_cells.specs.Cars.{AreRising, array_of, cars_of};
ghost use Rattle.road_columns.specs.Private.CarsAt.{IsPlaceAt, from_place};
ghost use Rattle.road_columns.specs.Private.Entering.{ArePlacesFrom, IsPutIn, place_beside, place_on};
ghost use Rattle.road_columns.specs.Private.LooseWords.{AreFalling};
ghost use Rattle.road_columns.specs.Private.Step.{AreCarsInColumn, LetsLeave};

use crate::cutting::NOWHERE;
use crate::finding::cars_past;
use crate::shifting::FIRST;
use road_cells::{Car, Road};
use road_ends::OutOfMemory;
use std::alloc::Global;

/// The cars of a road in columns, with the car at the far end first. They are at the places from `head` to before
/// `tail`. The cell stored in front of them is past every road, and the cell stored behind them is 0.
#[derive(Drop)]
pub struct CarColumns {
    pub cells: Vec<u16>,
    pub speeds: Vec<u8>,
    pub numbers: Vec<u32>,
    pub head: usize,
    pub tail: usize,
    /// The place of the first car before each site.
    pub places: Vec<u32>,
    ghost short: { length cells.items < 65520 },
    ghost speeds_each: { length speeds.items ≡ length cells.items },
    ghost numbers_each: { length numbers.items ≡ length cells.items },
    ghost from: { 8 ≤ head },
    ghost order: { head ≤ tail },
    ghost inside: { tail < length cells.items },
}

impl CarColumns {
    ghost use Rattle.road_columns.specs.Private.Cars.{AreLonger, HoldsCars, PutsCar, road_of};

    /// Return the length of a row in words: one word for each place, and eight more, since eight columns are written
    /// together.
    #[inline(always)]
    pub fn width(&self) -> usize
        ensures { result ≡ length self.now.cells.items + 8 }
    {
        self.cells.len() + 8
    }

    /// Lengthen the columns to at least `long` places. The cars keep their places.
    ///
    /// # Errors
    ///
    /// `OutOfMemory` if an allocation fails. The cars keep their places then.
    pub fn lengthen(&mut self, alloc: Global, long: usize) -> Result<(), OutOfMemory>
        requires { long ≤ 65000 }
        ensures longer { AreLonger self.old self.new }
        ensures long { OnOk result (long ≤ length self.new.cells.items) }
    {
        if long <= self.cells.len() {
            return Ok(());
        }
        let long = in_odd_lines(long);
        let cells = copy_longer(alloc, &self.cells, long, 0)?;
        let speeds = copy_longer(alloc, &self.speeds, long, 0)?;
        let numbers = copy_longer(alloc, &self.numbers, long, 0)?;
        self.cells = cells;
        self.speeds = speeds;
        self.numbers = numbers;
        Ok(())
    }

    /// Write cars into the columns, the last one first, from [`FIRST`] on.
    #[inline(never)]
    pub fn hold(&mut self, cars: &[Car])
        requires rise { AreRising cars.now }
        requires cells { All (λ car. car.cell < 65525) cars.now }
        requires numbers { All (λ car. car.number < 2 ^ 32) cars.now }
        requires room { FIRST + length cars.now < length self.old.cells.items }
        ensures holds { HoldsCars cars.now self.old self.new }
        ensures cars { (p : Plan) → p.cells ≤ 65525 → All (λ car. car.cell < exit_start p) cars.now
            → AreCarsInColumn p self.new.head self.new.tail self.new.cells.items }
        ensures road { road_of self.new ≡ array_of cars.now }
    {
        for place in 0..cars.len() {
            let car = cars[cars.len() - 1 - place];
            self.cells[FIRST + place] = car.cell as u16;
            self.speeds[FIRST + place] = car.speed;
            self.numbers[FIRST + place] = car.number as u32;
        }
        let end = FIRST + cars.len();
        self.cells[FIRST - 1] = NOWHERE;
        self.cells[end] = 0;
        self.head = FIRST;
        self.tail = end;
    }

    /// Return the road of the cars.
    ///
    /// # Errors
    ///
    /// `OutOfMemory` if its only allocation fails.
    #[inline(never)]
    pub fn road(&self, alloc: Global) -> Result<Road, OutOfMemory>
        requires falling { AreFalling self.now.cells.items self.now.head self.now.tail }
        ensures { IfOk result (λ road. road ≡ road_of self.now) }
    {
        let mut cars = Vec::with_capacity(alloc, self.tail - self.head)?;
        let mut place = self.tail;
        while place > self.head {
            place -= 1;
            cars.push(Car {
                number: u64::from(self.numbers[place]),
                cell: u32::from(self.cells[place]),
                speed: self.speeds[place],
            })?;
        }
        Ok(Road::of(cars))
    }

    /// Return the number of cars.
    pub fn count(&self) -> usize
        requires falling { AreFalling self.now.cells.items self.now.head self.now.tail }
        ensures { result ≡ length (cars_of (road_of self.now)) }
    {
        self.tail - self.head
    }

    /// Find the place of the first car before each site, and write it to `places`.
    #[inline(never)]
    pub fn find_places(&self, sites: &[u16], places: &mut [u32])
        requires falling { AreFalling self.now.cells.items self.now.head self.now.tail }
        requires places { length places.old ≡ length sites.now }
        ensures long { length places.new ≡ length places.old }
        ensures places { ArePlacesFrom self.now.cells.items self.now.head self.now.tail sites.now places.new }
    {
        for site in 0..sites.len() {
            places[site] = self.place_before(sites[site]) as u32;
        }
    }

    // Return the place of the first car before a site.
    fn place_before(&self, site: u16) -> usize
        requires falling { AreFalling self.now.cells.items self.now.head self.now.tail }
        ensures from { self.now.head ≤ result }
        ensures place { IsPlaceAt (self.now.tail - self.now.head) (from_place self.now.cells.items self.now.head) site
            (result - self.now.head) }
    {
        self.head + cars_past(&self.cells[self.head..self.tail], site)
    }

    /// Insert a car with speed 0 at a place of the columns. The car is at `cell`.
    #[inline(always)]
    pub fn put(&mut self, place: usize, cell: u16, number: u32, sites: &[u16])
        requires order { place ≤ self.old.tail }
        requires room { self.old.tail + 1 < length self.old.cells.items }
        requires places { length self.old.places.items ≡ length sites.now }
        requires few { (d : ℕ) → d < length sites.now → slice_index self.old.places.items d + 1 < 2 ^ 32 }
        ensures { PutsCar sites.now self.old self.new place cell number }
    {
        insert(&mut self.cells, place, self.tail, cell);
        insert(&mut self.speeds, place, self.tail, 0);
        insert(&mut self.numbers, place, self.tail, number);
        move_places(sites, &mut self.places, cell);
        self.tail += 1;
        self.cells[self.tail] = 0;
    }
}

// Return the smallest length, `long` or more, for which a row of words ([`CarColumns::width`]) takes an odd number of
// cache lines of 64 bytes: batches are written fastest into such rows.
fn in_odd_lines(long: usize) -> usize
    requires { long < 2 ^ 62 }
    ensures enough { long ≤ result }
    ensures few { result < long + 64 }
{
    long + (88 - long % 64) % 64
}

// Copy a column into a new one of `long` places. The places that are added have `value`.
fn copy_longer<T: Copy>(
    alloc: Global,
    column: &[T],
    long: usize,
    value: T,
) -> Result<Vec<T>, OutOfMemory>
    requires { length column.now ≤ long }
    ensures long { IfOk result (λ longer. length longer.items ≡ long) }
    ensures kept { IfOk result (λ longer. (i : ℕ) (d : T) → i < length column.now
        → slice_index_or longer.items i d ≡ slice_index_or column.now i d) }
{
    let mut longer = Vec::with_capacity(alloc, long)?;
    longer.extend_from_slice(column)?;
    longer.resize(long, value)?;
    Ok(longer)
}

/// Insert a value at a place of a column. The values from that place to before `tail` move one place further.
#[inline(always)]
pub fn insert<T: Copy>(column: &mut Vec<T>, place: usize, tail: usize, value: T)
    requires order { place ≤ tail }
    requires room { tail < length column.old.items }
    ensures long { length column.new.items ≡ length column.old.items }
    ensures put_in { (d : T) → IsPutIn column.old.items column.new.items place tail value d }
{
    if place < tail {
        column.copy_within(place..tail, place + 1);
    }
    column[place] = value;
}

// Update the places of sites after a car has entered at a cell.
#[inline(always)]
fn move_places(sites: &[u16], places: &mut [u32], cell: u16)
    requires places { length places.old ≡ length sites.now }
    requires room { (d : ℕ) → d < length sites.now → slice_index places.old d + 1 < 2 ^ 32 }
    ensures long { length places.new ≡ length places.old }
    ensures places { (d : ℕ) → d < length sites.now
        → slice_index places.new d ≡ place_beside (slice_index sites.now d) cell (slice_index places.old d) }
{
    for site in 0..sites.len() {
        places[site] += u32::from(sites[site] <= cell);
    }
}

/// Update the places of sites after the motion. At most one car passes a site in a step.
#[inline(always)]
pub fn move_on(cells: &[u16], sites: &[u16], places: &mut [u32])
    requires few { length cells.now < 2 ^ 32 }
    requires places { length places.old ≡ length sites.now }
    requires within { (d : ℕ) → d < length sites.now → slice_index places.old d < length cells.now }
    ensures long { length places.new ≡ length places.old }
    ensures places { (d : ℕ) → d < length sites.now
        → slice_index places.new d ≡ place_on cells.now (slice_index sites.now d) (slice_index places.old d) }
{
    for site in 0..sites.len() {
        let place = places[site];
        let passed = cells[place as usize] >= sites[site] && sites[site] > 0;
        places[site] = place + u32::from(passed);
    }
}

/// Remove the first car if it has reached the exit, and return the new head.
#[inline(always)]
pub fn leave(cells: &mut [u16], head: usize, tail: usize, exit_start: u32) -> usize
    requires order { head ≤ tail }
    requires inside { tail < length cells.old }
    requires one { (i : ℕ) → head + 1 ≤ i → i < tail → slice_index cells.old i < exit_start }
    ensures { LetsLeave exit_start cells.old cells.new head result tail }
{
    if head < tail && u32::from(cells[head]) >= exit_start {
        cells[head] = NOWHERE;
        return head + 1;
    }
    head
}
