//! Random roads, from dice that look random and give the same numbers for the same seed.

use road_cells::{Car, Road};
use road_plan::{OutOfMemory, Plan, PlanFault, PlanParts, Settings, WordKind};
use std::alloc::Global;

/// Numbers that look random.
#[derive(Clone, Copy)]
pub struct Dice {
    seed: u64,
}

impl Dice {
    /// Make dice from a seed.
    pub fn of(seed: u64) -> Dice {
        Dice { seed }
    }

    /// Return a number below `most`, or 0 if `most` is 0.
    pub fn below(&mut self, most: u32) -> u32 {
        self.seed = self
            .seed
            .wrapping_mul(6_364_136_223_846_793_005)
            .wrapping_add(1_442_695_040_888_963_407);
        (self.seed >> 33) as u32 % most.max(1)
    }

    // Return a chance: 0, certain, or between.
    fn chance(&mut self) -> u32 {
        match self.below(4) {
            0 => 0,
            1 => 65_536,
            _ => self.below(65_537),
        }
    }

    // Return `count` chances.
    fn chances(&mut self, alloc: Global, count: usize) -> Result<Vec<u32>, OutOfMemory> {
        let mut chances = Vec::new(alloc);
        for _ in 0..count {
            chances.push(self.chance())?;
        }
        Ok(chances)
    }

    // Return about `count` rising cells below an end.
    fn cells(&mut self, alloc: Global, end: u32, count: u32) -> Result<Vec<u32>, OutOfMemory> {
        let mut cells = Vec::new(alloc);
        let apart = end.checked_div(count).unwrap_or(end).max(1);
        let mut cell = self.below(apart);
        for _ in 0..count {
            if cell >= end {
                break;
            }
            cells.push(cell)?;
            cell = cell.saturating_add(1).saturating_add(self.below(apart));
        }
        Ok(cells)
    }

    // Return words of a random kind.
    fn words(&mut self) -> WordKind {
        if self.below(4) == 0 {
            WordKind::Steady
        } else {
            WordKind::Seeded(self.seed)
        }
    }
}

// Make zones of this width for a road of this many cells.
fn zones_of(
    alloc: Global,
    dice: &mut Dice,
    length: u32,
    width: u32,
) -> Result<Vec<(u32, u32)>, OutOfMemory> {
    let mut zones = Vec::new(alloc);
    let mut first = 0_u32;
    for _ in 0..64 {
        if first < length {
            zones.push((dice.below(10), dice.chance()))?;
            first = first.saturating_add(width);
        }
    }
    Ok(zones)
}

// Make the parts of a random plan.
fn random_parts(alloc: Global, dice: &mut Dice, length: u32) -> Result<PlanParts, OutOfMemory> {
    let exit = dice.below(length.min(64) / 4).saturating_add(1);
    let open = length.saturating_sub(exit);
    let width = (length / 8)
        .saturating_add(1)
        .saturating_add(dice.below(length));
    let mut inlets = Vec::new(alloc);
    for cell in dice.cells(alloc, open, 16)?.iter() {
        inlets.push((*cell, dice.chance()))?;
    }
    let mut detectors = Vec::new(alloc);
    for _ in 0..64 {
        detectors.push(dice.below(open.saturating_sub(1)).saturating_add(1))?;
    }
    Ok(PlanParts {
        length,
        exit,
        width,
        zones: zones_of(alloc, dice, length, width)?,
        inlets,
        detectors,
        words: dice.words(),
    })
}

/// Make a random plan for a road of `length` cells: up to eight zones, up to 16 inlets, 64 detectors, and seeded or
/// steady words.
///
/// # Errors
///
/// `OutOfMemory` if an allocation failed, otherwise the fault of the plan. Roads of 8 to 8,192 cells have none.
pub fn random_plan(alloc: Global, dice: &mut Dice, length: u32) -> Result<Plan, PlanFault> {
    match random_parts(alloc, dice, length) {
        Ok(parts) => Plan::new(parts),
        Err(_) => Err(PlanFault::OutOfMemory),
    }
}

/// Make settings of a plan from a seed. All numbers are random, and a few cells are blocked.
///
/// # Errors
///
/// `OutOfMemory` if an allocation failed.
pub fn random_settings(alloc: Global, plan: &Plan, seed: u32) -> Result<Settings, OutOfMemory> {
    let mut dice = Dice::of(u64::from(seed));
    let mut settings = Settings::of_plan(alloc, plan)?;
    for limit in settings.limits.iter_mut() {
        *limit = dice.below(10);
    }
    settings.chances = dice.chances(alloc, plan.zones().len())?;
    settings.starts = dice.chances(alloc, plan.zones().len())?;
    settings.inflows = dice.chances(alloc, plan.inlets().len())?;
    settings.blocks = dice.cells(alloc, plan.length(), 5)?;
    for watched in settings.watched.iter_mut() {
        *watched = dice.below(4) > 0;
    }
    Ok(settings)
}

/// Make a road with about this many cars before the exit of a plan. Their speeds and numbers are random. If there are
/// too few cells for the cars, no cell is free.
///
/// # Errors
///
/// `OutOfMemory` if an allocation failed.
pub fn random_road(
    alloc: Global,
    dice: &mut Dice,
    plan: &Plan,
    count: u32,
) -> Result<Road, OutOfMemory> {
    let open = plan.length().saturating_sub(plan.exit());
    let mut cars = Vec::new(alloc);
    for cell in dice.cells(alloc, open, count)?.iter() {
        cars.push(Car {
            number: u64::from(dice.below(u32::MAX)),
            cell: *cell,
            speed: (dice.below(10) % 10) as u8,
        })?;
    }
    road_of(alloc, &cars)
}

/// Make a road whose first `cells` cells are taken by standing cars, except each 64th cell.
///
/// # Errors
///
/// `OutOfMemory` if an allocation failed.
pub fn queue(alloc: Global, cells: u32) -> Result<Road, OutOfMemory> {
    let mut cars = Vec::new(alloc);
    for cell in 0..cells {
        if cell % 64 != 63 {
            let number = u64::from(cell);
            cars.push(Car {
                number,
                cell,
                speed: 0,
            })?;
        }
    }
    road_of(alloc, &cars)
}

/// Make the road of these cars. A car that is not in front of all cars before it in the list is left out.
///
/// # Errors
///
/// `OutOfMemory` if an allocation failed.
pub fn road_of(alloc: Global, cars: &[Car]) -> Result<Road, OutOfMemory> {
    let mut rising = Vec::new(alloc);
    let mut end = 0_u64;
    for car in cars {
        if u64::from(car.cell) >= end {
            rising.push(*car)?;
            end = u64::from(car.cell) + 1;
        }
    }
    Ok(Road::of(rising))
}
