//! Sites of a road, and a binary search for their places in columns.

ghost use Rattle.std.specs.Prelude.{◌≡◌, ◌<◌, ◌≤◌, ◌+◌, ◌-◌, ℕ, length, slice_index, IfOk};
ghost use Rattle.std.specs.List.{slice_index_or};
ghost use Rattle.road_columns.specs.Private.CarsAt.{IsPlaceAt, from_place};
ghost use Rattle.road_columns.specs.Private.Entering.{ArePlacesFrom};
ghost use Rattle.road_columns.specs.Private.LooseWords.{AreFalling};
ghost use Rattle.road_columns.specs.Private.Regions.{region_at};
ghost use Rattle.road_columns.specs.Private.Step.{AreSitesOf};

use crate::regions::Region;
use road_ends::OutOfMemory;
use road_plan::Plan;
use std::alloc::Global;

/// Return the sites of a road: the cells of the inlets, then those of the detectors, then the first cells of the
/// regions.
///
/// # Errors
///
/// `OutOfMemory` if an allocation fails.
pub fn sites_of(alloc: Global, plan: &Plan, regions: &[Region]) -> Result<Vec<u16>, OutOfMemory>
    ensures { IfOk result (λ sites. AreSitesOf plan.now regions.now sites.items) }
{
    let count = plan.inlets().len() + plan.detectors().len() + regions.len();
    let mut sites = vec![in alloc; 0u16; count]?;
    write_sites(plan, regions, &mut sites);
    Ok(sites)
}

fn write_sites(plan: &Plan, regions: &[Region], sites: &mut [u16])
    requires { length sites.old ≡ length plan.now.inlets + length plan.now.detectors + length regions.now }
    ensures { AreSitesOf plan.now regions.now sites.new }
{
    let inlets = plan.inlets().len();
    let firsts = inlets + plan.detectors().len();
    write_inlets(plan.inlets(), sites);
    write_detectors(plan.detectors(), inlets, sites);
    write_firsts(regions, firsts, sites);
}

fn write_inlets(inlets: &[(u32, u32)], sites: &mut [u16])
    requires room { length inlets.now ≤ length sites.old }
    requires short { (i : ℕ) → i < length inlets.now → (slice_index_or inlets.now i (0, 0)).0 < 65536 }
    ensures long { length sites.new ≡ length sites.old }
    ensures written { (i : ℕ) → i < length inlets.now
        → slice_index sites.new i ≡ (slice_index_or inlets.now i (0, 0)).0 }
{
    for inlet in 0..inlets.len() {
        sites[inlet] = inlets[inlet].0 as u16;
    }
}

fn write_detectors(detectors: &[u32], from: usize, sites: &mut [u16])
    requires room { from + length detectors.now ≤ length sites.old }
    requires short { (d : ℕ) → d < length detectors.now → slice_index detectors.now d < 65536 }
    ensures long { length sites.new ≡ length sites.old }
    ensures before { (i : ℕ) → i < from → slice_index sites.new i ≡ slice_index sites.old i }
    ensures written { (d : ℕ) → d < length detectors.now
        → slice_index sites.new (from + d) ≡ slice_index detectors.now d }
{
    for detector in 0..detectors.len() {
        sites[from + detector] = detectors[detector] as u16;
    }
}

fn write_firsts(regions: &[Region], from: usize, sites: &mut [u16])
    requires room { from + length regions.now ≤ length sites.old }
    ensures long { length sites.new ≡ length sites.old }
    ensures before { (i : ℕ) → i < from → slice_index sites.new i ≡ slice_index sites.old i }
    ensures written { (r : ℕ) → r < length regions.now
        → slice_index sites.new (from + r) ≡ (region_at regions.now r).first }
{
    for region in 0..regions.len() {
        sites[from + region] = regions[region].first;
    }
}

/// Return how many of these cells, which fall, are at a site or past it.
pub fn cars_past(cells: &[u16], site: u16) -> usize
    requires { (k : ℕ) → k + 1 < length cells.now → slice_index cells.now (k + 1) < slice_index cells.now k }
    ensures { IsPlaceAt (length cells.now) (slice_index cells.now) site result }
{
    cells.partition_point(|cell| *cell >= site)
}
