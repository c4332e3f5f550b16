//! Regions: a road under its settings, cut where the rules change.

ghost use Rattle.std.specs.Prelude.{◌≡◌, ◌<◌, ◌≤◌, ◌+◌, ◌-◌, ◌*◌, ◌/◌, ℕ, length, slice_index, IfOk};
ghost use Rattle.road_plan.specs.Plan.{exit_start, zone_of};
ghost use Rattle.road_plan.specs.Settings.{Fits};
ghost use Rattle.road_cells.specs.Gap.{ArePartedAt};
ghost use Rattle.road_cells.specs.declared.car.TheConstants.{GREATEST_SPEED};
ghost use Rattle.road_columns.specs.Private.Regions.{AreOfZone, IsRegionTo};
ghost use Rattle.road_columns.specs.Private.Step.{AreRegionsOf};

use crate::motion::Chances;
use crate::regions::Region;
use road_cells::reached_blocks;
use road_ends::OutOfMemory;
use road_plan::{Plan, Settings};
use std::alloc::Global;

/// A cell past every road.
pub(crate) const NOWHERE: u16 = u16::MAX;

/// Cut a road, up to its exit, into regions. A region begins at each cell where the speed limit, a slowing chance or
/// the next blocked cell changes. The settings must fit the plan.
///
/// # Errors
///
/// `OutOfMemory` if an allocation fails.
pub fn regions_of(
    alloc: Global,
    plan: &Plan,
    settings: &Settings,
) -> Result<Vec<Region>, OutOfMemory>
    requires fits { Fits plan.now settings.now }
    ensures { IfOk result (λ regions. AreRegionsOf plan.now settings.now regions.items) }
{
    let exit_start = plan.length() - plan.exit();
    let mut regions = Vec::new(alloc);
    let mut first = 0;
    while first < exit_start {
        let cut = cut_at(plan, settings, first);
        regions.push(cut.region)?;
        first = cut.end;
    }
    Ok(regions)
}

// A region, and the cell after its last cell.
#[derive(Clone, Copy)]
struct Cut {
    region: Region,
    end: u32,
}

// Return the region that begins at a cell.
fn cut_at(plan: &Plan, settings: &Settings, first: u32) -> Cut
    requires fits { Fits plan.now settings.now }
    requires on_road { first < exit_start plan.now }
    ensures first { result.region.first ≡ first }
    ensures region { IsRegionTo plan.now settings.now result.region result.end }
{
    let width = plan.width();
    let limits = settings.limits();
    let starts = settings.starts();
    let chances = settings.chances();
    let blocks = settings.blocks();
    let zone = (first / width) as usize;
    let end = alike_end(limits, starts, chances, width, zone);
    let reached = reached_blocks(blocks, first);
    let next = next_block(blocks, reached);
    Cut {
        region: Region {
            first: first as u16,
            chances: Chances {
                limit: limits[zone],
                standing: starts[zone],
                moving: chances[zone],
            },
            block: next as u16,
        },
        end: end.min(next),
    }
}

// Return the blocked cell at an index, or a cell past the end of every road if the index is too large.
fn next_block(blocks: &[u32], reached: usize) -> u32
    ensures some { reached < length blocks.now → result ≡ slice_index blocks.now reached }
    ensures none { length blocks.now ≤ reached → result ≡ 65535 }
{
    match blocks.get(reached) {
        Some(block) => *block,
        None => u32::from(NOWHERE),
    }
}

// Return the cell after the last of the zones, from `zone` on, that have the limit and the chances of `zone`.
fn alike_end(limits: &[u32], starts: &[u32], chances: &[u32], width: u32, zone: usize) -> u32
    requires zone { zone < length limits.now }
    requires starts { length starts.now ≡ length limits.now }
    requires chances { length chances.now ≡ length limits.now }
    requires wide { 0 < width }
    requires few { length limits.now < 65536 }
    ensures behind { (c : ℕ) → c < (zone + 1) * width → c < 65535 → c < result }
    ensures alike { (c : ℕ) → zone ≤ c / width → c < result → AreOfZone limits.now starts.now chances.now (c / width)
        (slice_index limits.now zone) (slice_index starts.now zone) (slice_index chances.now zone) }
{
    let mut next = zone + 1;
    while next < limits.len()
        && limits[next] == limits[zone]
        && starts[next] == starts[zone]
        && chances[next] == chances[zone]
    {
        next += 1;
    }
    (next as u32).saturating_mul(width)
}
