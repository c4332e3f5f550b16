//! The layout of a road: regions, in which the rules are the same for all cells, and sites, for which the place of the
//! first car before them is kept.

ghost use Rattle.std.specs.Prelude.{◌≡◌, IfOk, IsFalse};
ghost use Rattle.road_plan.specs.Settings.{Fits};
ghost use Rattle.road_columns.specs.Private.Regions.{AreFree};
ghost use Rattle.road_columns.specs.Private.Step.{AreRegionsOf, AreSitesOf};

use crate::cutting::regions_of;
use crate::finding::sites_of;
use crate::regions::{Region, are_slowing};
use road_ends::OutOfMemory;
use road_plan::{Plan, Settings};
use std::alloc::Global;

/// A road under its settings: what steps read and never change.
#[derive(Clone, Copy)]
pub struct Layout<'a> {
    pub plan: &'a Plan,
    pub settings: &'a Settings,
    pub regions: &'a [Region],
    /// Whether cars are slowed in some region.
    pub slowing: bool,
    /// The sites: the cells of the inlets, then the cells of the detectors, then the first cells of the regions.
    pub sites: &'a [u16],
}

/// The part of a layout that a run computes once for its settings.
#[derive(Drop)]
pub struct Kept {
    pub regions: Vec<Region>,
    pub slowing: bool,
    pub sites: Vec<u16>,
}

impl Kept {
    /// Compute the regions and the sites of a road under its settings.
    ///
    /// # Errors
    ///
    /// `OutOfMemory` if an allocation fails.
    pub fn of(alloc: Global, plan: &Plan, settings: &Settings) -> Result<Kept, OutOfMemory>
        requires fits { Fits plan.now settings.now }
        ensures regions { IfOk result (λ kept. AreRegionsOf plan.now settings.now kept.regions.items) }
        ensures slowing { IfOk result (λ kept. IsFalse kept.slowing → AreFree kept.regions.items) }
        ensures sites { IfOk result (λ kept. AreSitesOf plan.now kept.regions.items kept.sites.items) }
    {
        let regions = regions_of(alloc, plan, settings)?;
        let sites = sites_of(alloc, plan, &regions)?;
        let slowing = are_slowing(&regions);
        Ok(Kept {
            regions,
            slowing,
            sites,
        })
    }
}
