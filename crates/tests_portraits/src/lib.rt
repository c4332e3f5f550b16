//! Portraits: everything that a sheet shows, drawn so that it can be compared with what it shows later.
#![tactic(auto)]

use road_cells::Road;
use road_scenario::{Edit, Scenario};
use road_sheet::Sheet;
use road_sheet::simulation::{State, row_of};
use std::alloc::Global;

/// What was drawn, one thing after another: numbers, edits, and rows of text.
#[derive(Drop)]
pub struct Portrait {
    numbers: Vec<u64>,
    edits: Vec<Edit>,
    rows: String,
}

impl Portrait {
    /// Make a portrait for which nothing is drawn yet.
    pub fn new(alloc: Global) -> Portrait {
        Portrait {
            numbers: Vec::new(alloc),
            edits: Vec::new(alloc),
            rows: String::new(alloc),
        }
    }

    /// Return whether the same was drawn in both portraits.
    pub fn is_same(&self, other: &Portrait) -> bool {
        self.numbers.as_slice() == other.numbers.as_slice()
            && self.edits.as_slice() == other.edits.as_slice()
            && self.rows.as_str() == other.rows.as_str()
    }

    /// Draw a number. This and all other calls that draw return None if an allocation failed.
    pub fn draw_number(&mut self, number: u64) -> Option<()> {
        self.numbers.push(number).ok()
    }

    /// Draw edits.
    pub fn draw_edits(&mut self, edits: &[Edit]) -> Option<()> {
        self.draw_number(edits.len() as u64)?;
        for edit in edits {
            self.edits.push(*edit).ok()?;
        }
        Some(())
    }

    /// Draw the edits that a scenario holds.
    pub fn draw_scenario(&mut self, alloc: Global, scenario: &Scenario) -> Option<()> {
        let edits = scenario.edits(alloc).ok()?;
        self.draw_edits(&edits)
    }

    /// Draw the number, the cell and the speed of each car.
    pub fn draw_cars(&mut self, road: &Road) -> Option<()> {
        self.draw_number(road.cars().len() as u64)?;
        for car in road.cars() {
            self.draw_number(car.number)?;
            self.draw_number(u64::from(car.cell))?;
            self.draw_number(u64::from(car.speed))?;
        }
        Some(())
    }

    // Draw the cars and the row that a sheet shows at a step.
    fn draw_step(&mut self, alloc: Global, sheet: &Sheet, step: u32) -> Option<()> {
        let Ok(road) = sheet.state(alloc, step) else {
            return None;
        };
        self.draw_cars(&road)?;
        let state = State { step, road };
        let row = row_of(alloc, sheet.plan(), sheet.scenario(), &state).ok()?;
        self.rows.push_str(row.as_str()).ok()
    }

    // Draw the counts of a detector in the steps from one step to before another.
    fn draw_count(
        &mut self,
        alloc: Global,
        sheet: &Sheet,
        detector: u32,
        from: u32,
        to: u32,
    ) -> Option<()> {
        let totals = sheet.totals(alloc, detector, from, to).ok()?;
        self.draw_number(u64::from(totals.cars))?;
        self.draw_number(u64::from(totals.speeds))
    }

    // Draw the counts of a detector in each step, and in all of them.
    fn draw_counts(&mut self, alloc: Global, sheet: &Sheet, detector: u32) -> Option<()> {
        for step in 0..sheet.horizon() {
            self.draw_count(alloc, sheet, detector, step, step.saturating_add(1))?;
        }
        self.draw_count(alloc, sheet, detector, 0, sheet.horizon())
    }

    /// Draw a sheet: its edits with their stamps, its horizon, the cars and the row at each step, and the counts of
    /// each detector in each step and in all of them.
    pub fn draw_sheet(&mut self, alloc: Global, sheet: &Sheet) -> Option<()> {
        self.draw_scenario(alloc, sheet.scenario())?;
        for step in 0..=sheet.horizon() {
            self.draw_step(alloc, sheet, step)?;
        }
        self.draw_number(u64::from(sheet.horizon()))?;
        for detector in 0..sheet.plan().detectors().len() {
            self.draw_counts(alloc, sheet, detector as u32)?;
        }
        Some(())
    }
}
