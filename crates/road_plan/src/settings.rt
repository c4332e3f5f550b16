//! The settings of a road at one step, and whether they fit a plan.

ghost use Rattle.std.specs.Prelude.{◌≡◌, ◌<◌, ◌≤◌, ◌↔◌, IsTrue, IfOk, length, map, true};
ghost use Rattle.std.specs.List.{All};
ghost use Rattle.std.specs.List.Sorted.{IsStrictlyIncreasing};
ghost use Rattle.road_plan.specs.Plan.{IsWithinLimits};
ghost use Rattle.road_plan.specs.Settings.{defaults, Fits};

use crate::OutOfMemory;
use crate::limits::{CERTAIN, GREATEST_LIMIT};
use crate::plan::Plan;
use std::alloc::Global;
use std::marker::Model;

/// All settings of a road at one step.
#[derive(Debug, Drop)]
pub struct Settings {
    /// For each zone its speed limit, in cells per step.
    pub limits: Vec<u32>,
    /// For each zone its slowing chance, in 1/65,536.
    pub chances: Vec<u32>,
    /// For each inlet its inflow chance, in 1/65,536.
    pub inflows: Vec<u32>,
    /// The blocked cells, rising.
    pub blocks: Vec<u32>,
    /// For each detector whether it is on.
    pub watched: Vec<bool>,
    /// For each zone the slowing chance of standing cars, in 1/65,536.
    pub starts: Vec<u32>,
}

impl Model for Settings {
    ghost use Rattle.road_plan.specs.Settings.{Settings};

    ghost Value = { Settings };

    ghost view = { λ s. record {
      limits = s.limits.items;
      chances = s.chances.items;
      inflows = s.inflows.items;
      blocks = s.blocks.items;
      watched = s.watched.items;
      starts = s.starts.items;
    } };
}

impl Settings {
    /// Make the plan's own settings: its speed limits, slowing chances and inflows, no blocked cell, every detector on.
    /// Standing cars are slowed like moving ones.
    ///
    /// # Errors
    ///
    /// `OutOfMemory` if an allocation failed.
    pub fn of_plan(alloc: Global, plan: &Plan) -> Result<Settings, OutOfMemory>
        ensures made { IfOk result (λ settings. settings ≡ defaults plan.now) }
        ensures fits { IfOk result (λ settings. Fits plan.now settings) }
        ensures within { IfOk result (λ _. IsWithinLimits plan.now) }
    {
        Ok(Settings {
            limits: speed_limits_of(alloc, plan.zones())?,
            chances: chances_of(alloc, plan.zones())?,
            inflows: inflows_of(alloc, plan.inlets())?,
            blocks: Vec::new(alloc),
            watched: all_on(alloc, plan.detectors())?,
            starts: chances_of(alloc, plan.zones())?,
        })
    }

    /// Return whether these settings fit the plan: they have one allowed number for each zone, inlet and detector, and
    /// the blocked cells rise and are on the road. It does not allocate.
    pub fn fits(&self, plan: &Plan) -> bool
        ensures { IsTrue result ↔ Fits plan.now self.now }
    {
        self.have_sizes(plan) && self.are_allowed() && self.have_blocks(plan)
    }

    // Return whether each list has one entry for each zone, inlet or detector of the plan; blocked cells are not counted.
    fn have_sizes(&self, plan: &Plan) -> bool
        ensures { IsTrue result ↔ (
            (length self.now.limits ≡ length plan.now.zones)
            × (length self.now.chances ≡ length plan.now.zones)
            × (length self.now.inflows ≡ length plan.now.inlets)
            × (length self.now.watched ≡ length plan.now.detectors)
            × (length self.now.starts ≡ length plan.now.zones)
            ) }
    {
        self.limits.len() == plan.zones().len()
            && self.chances.len() == plan.zones().len()
            && self.inflows.len() == plan.inlets().len()
            && self.watched.len() == plan.detectors().len()
            && self.starts.len() == plan.zones().len()
    }

    // Return whether all speed limits, slowing chances and inflows are in range.
    fn are_allowed(&self) -> bool
        ensures { IsTrue result ↔ (
            All (λ n. n ≤ GREATEST_LIMIT) self.now.limits
            × All (λ n. n ≤ CERTAIN) self.now.chances
            × All (λ n. n ≤ CERTAIN) self.now.inflows
            × All (λ n. n ≤ CERTAIN) self.now.starts
            ) }
    {
        are_at_most(self.limits.as_slice(), GREATEST_LIMIT)
            && are_at_most(self.chances.as_slice(), CERTAIN)
            && are_at_most(self.inflows.as_slice(), CERTAIN)
            && are_at_most(self.starts.as_slice(), CERTAIN)
    }

    // Return whether the blocked cells rise and are on the road.
    fn have_blocks(&self, plan: &Plan) -> bool
        ensures { IsTrue result ↔ (
            IsStrictlyIncreasing self.now.blocks × All (λ cell. cell < plan.now.cells) self.now.blocks
            ) }
    {
        do_rise(self.blocks.as_slice()) && are_below(self.blocks.as_slice(), plan.length())
    }

    /// Return for each zone its speed limit, in cells per step.
    pub fn limits(&self) -> &[u32]
        ensures { result.now ≡ self.now.limits }
    {
        &self.limits
    }

    /// Return for each zone its slowing chance, in 1/65,536.
    pub fn chances(&self) -> &[u32]
        ensures { result.now ≡ self.now.chances }
    {
        &self.chances
    }

    /// Return for each inlet its inflow chance, in 1/65,536.
    pub fn inflows(&self) -> &[u32]
        ensures { result.now ≡ self.now.inflows }
    {
        &self.inflows
    }

    /// Return the blocked cells, rising.
    pub fn blocks(&self) -> &[u32]
        ensures { result.now ≡ self.now.blocks }
    {
        &self.blocks
    }

    /// Return for each detector whether it is on.
    pub fn watched(&self) -> &[bool]
        ensures { result.now ≡ self.now.watched }
    {
        &self.watched
    }

    /// Return for each zone the slowing chance of standing cars, in 1/65,536.
    pub fn starts(&self) -> &[u32]
        ensures { result.now ≡ self.now.starts }
    {
        &self.starts
    }
}

fn speed_limits_of(alloc: Global, zones: &[(u32, u32)]) -> Result<Vec<u32>, OutOfMemory>
    ensures { IfOk result (λ limits. limits.items ≡ map (λ zone. zone.0) zones.now) }
{
    let mut limits = Vec::with_capacity(alloc, zones.len())?;
    for zone in zones {
        limits.push(zone.0)?;
    }
    Ok(limits)
}

fn chances_of(alloc: Global, zones: &[(u32, u32)]) -> Result<Vec<u32>, OutOfMemory>
    ensures { IfOk result (λ chances. chances.items ≡ map (λ zone. zone.1) zones.now) }
{
    let mut chances = Vec::with_capacity(alloc, zones.len())?;
    for zone in zones {
        chances.push(zone.1)?;
    }
    Ok(chances)
}

fn inflows_of(alloc: Global, inlets: &[(u32, u32)]) -> Result<Vec<u32>, OutOfMemory>
    ensures { IfOk result (λ inflows. inflows.items ≡ map (λ inlet. inlet.1) inlets.now) }
{
    let mut inflows = Vec::with_capacity(alloc, inlets.len())?;
    for inlet in inlets {
        inflows.push(inlet.1)?;
    }
    Ok(inflows)
}

fn all_on(alloc: Global, detectors: &[u32]) -> Result<Vec<bool>, OutOfMemory>
    ensures { IfOk result (λ watched. watched.items ≡ map (λ site. true) detectors.now) }
{
    let mut watched = Vec::with_capacity(alloc, detectors.len())?;
    for _site in detectors {
        watched.push(true)?;
    }
    Ok(watched)
}

fn are_at_most(numbers: &[u32], most: u32) -> bool
    ensures { IsTrue result ↔ All (λ n. n ≤ most) numbers.now }
{
    numbers.iter().all(|n| *n <= most)
}

fn are_below(cells: &[u32], end: u32) -> bool
    ensures { IsTrue result ↔ All (λ cell. cell < end) cells.now }
{
    cells.iter().all(|cell| *cell < end)
}

fn do_rise(cells: &[u32]) -> bool
    ensures { IsTrue result ↔ IsStrictlyIncreasing cells.now }
{
    for place in 1..cells.len() {
        if cells[place] <= cells[place - 1] {
            return false;
        }
    }
    true
}
