//! The checks of a plan's parts, one by one, and the first that fails.

ghost use Rattle.std.specs.Prelude.{◌≡◌, ◌==◌, ◌&&◌, length, map, nat_eq, nat_le, nat_lt};
ghost use Rattle.std.specs.List.{list_all, list_any};
ghost use Rattle.std.specs.Set.{distinct_count};
ghost use Rattle.road_plan.specs.Plan.{plan_of, exit_start};
ghost use Rattle.road_plan.specs.Refusals as refusals;

use crate::faults::PlanFault;
use crate::limits::{
    CERTAIN, GREATEST_EXIT, GREATEST_LENGTH, GREATEST_LIMIT, LEAST_LENGTH, MOST_DETECTORS,
    MOST_INLETS, MOST_ZONES,
};
use crate::parts::PlanParts;

// Find the first fault of these parts, in the order of `PlanFault`. It does not allocate.
pub(crate) fn first_fault(parts: &PlanParts) -> Option<PlanFault>
    ensures { result ≡ refusals.fault_of_plan (plan_of parts.now) }
{
    if !has_length(parts) {
        return Some(PlanFault::Length);
    }
    if !has_exit(parts) {
        return Some(PlanFault::Exit);
    }
    if !has_zones(parts) {
        return Some(PlanFault::Zones);
    }
    if !has_inlets(parts) {
        return Some(PlanFault::Inlets);
    }
    if !has_detectors(parts) {
        return Some(PlanFault::Detectors);
    }
    if !has_defaults(parts) {
        return Some(PlanFault::Default);
    }
    None
}

// Return whether the length of the road is within its limits.
fn has_length(parts: &PlanParts) -> bool
    ensures { result ≡ refusals.has_length (plan_of parts.now) }
{
    LEAST_LENGTH <= parts.length && parts.length <= GREATEST_LENGTH
}

// Return whether the deleted zone is within its limits and shorter than the road.
fn has_exit(parts: &PlanParts) -> bool
    ensures { result ≡ refusals.has_exit (plan_of parts.now) }
{
    0 < parts.exit && parts.exit <= GREATEST_EXIT && parts.exit < parts.length
}

// Return whether there is one entry for each zone of the road, and there are not too many zones.
fn has_zones(parts: &PlanParts) -> bool
    ensures { result ≡ refusals.has_zones (plan_of parts.now) }
{
    0 < parts.width
        && parts.zones.len() <= MOST_ZONES
        && parts.zones.len() == (parts.length.saturating_sub(1) / parts.width + 1) as usize
}

// Return whether there is an inlet, there are not too many, all are before the deleted zone, and no two are at one
// cell.
fn has_inlets(parts: &PlanParts) -> bool
    ensures { result ≡ refusals.has_inlets (plan_of parts.now) }
{
    let end = parts.length.saturating_sub(parts.exit);
    0 < parts.inlets.len()
        && parts.inlets.len() <= MOST_INLETS
        && are_before(&parts.inlets, end)
        && have_own_cells(&parts.inlets)
}

fn are_before(inlets: &[(u32, u32)], end: u32) -> bool
    ensures { result ≡ list_all (λ inlet. nat_lt inlet.0 end) inlets.now }
{
    inlets.iter().all(|inlet| inlet.0 < end)
}

fn have_own_cells(inlets: &[(u32, u32)]) -> bool
    ensures { result ≡ (distinct_count nat_eq (map (λ inlet. inlet.0) inlets.now) == length inlets.now) }
{
    match inlets.split_first() {
        None => true,
        Some((first, others)) => !has_inlet_at(first.0, others) && have_own_cells(others),
    }
}

fn has_inlet_at(cell: u32, inlets: &[(u32, u32)]) -> bool
    ensures { result ≡ list_any (λ inlet. nat_eq cell inlet.0) inlets.now }
{
    inlets.iter().any(|inlet| cell == inlet.0)
}

// Return whether there are not too many detectors, and all are past the first cell and before the deleted zone.
fn has_detectors(parts: &PlanParts) -> bool
    ensures { result ≡ refusals.has_detectors (plan_of parts.now) }
{
    let end = parts.length.saturating_sub(parts.exit);
    parts.detectors.len() <= MOST_DETECTORS && are_between(&parts.detectors, end)
}

fn are_between(sites: &[u32], end: u32) -> bool
    ensures { result ≡ list_all (λ site. nat_lt 0 site && nat_lt site end) sites.now }
{
    sites.iter().all(|&site| 0 < site && site < end)
}

// Return whether each default speed limit, slowing chance and inflow is in range.
fn has_defaults(parts: &PlanParts) -> bool
    ensures { result ≡ refusals.has_defaults (plan_of parts.now) }
{
    have_zone_defaults(&parts.zones) && have_inlet_defaults(&parts.inlets)
}

// Return whether the default limit and slowing chance of each zone are in range.
fn have_zone_defaults(zones: &[(u32, u32)]) -> bool
    ensures { result ≡ list_all (λ zone. nat_le zone.0 GREATEST_LIMIT && nat_le zone.1 CERTAIN) zones.now }
{
    zones
        .iter()
        .all(|zone| zone.0 <= GREATEST_LIMIT && zone.1 <= CERTAIN)
}

// Return whether the default inflow of each inlet is in range.
fn have_inlet_defaults(inlets: &[(u32, u32)]) -> bool
    ensures { result ≡ list_all (λ inlet. nat_le inlet.1 CERTAIN) inlets.now }
{
    inlets.iter().all(|inlet| inlet.1 <= CERTAIN)
}
