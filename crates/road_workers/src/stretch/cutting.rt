//! The result of a stretch, taken out of a run of the stretch with its margins.

ghost use Rattle.std.specs.Prelude.{◌≡◌, ℕ, ◌<◌, ◌≤◌, length, slice_index_or, if◌then◌else◌, IfOk};
ghost use Rattle.road_detector.specs.Passes.{no_totals};
ghost use Rattle.road_workers.specs.Private.RunsUnderWay.{IsAfter};
ghost use Rattle.road_workers.specs.Private.Stretches.{IsRunOf, has_site};

use crate::stretch::has_site;
use road_cells::Road;
use road_columns::UnderWay;
use road_detector::{SpanResult, Totals};
use road_ends::{OutOfMemory, Span, Stretch};
use road_plan::Plan;
use std::alloc::Global;

// Return the road and the counts of a run that has made the steps of a span, without the counts of detectors that are
// not on the stretch.
pub(crate) fn cut_out(
    alloc: Global,
    span: &Span,
    near: &Road,
    stretch: Stretch,
    run: &UnderWay,
) -> Result<SpanResult, OutOfMemory>
    requires order { stretch.first ≤ stretch.end }
    requires after { IsAfter stretch.first stretch.end span.now span.now.steps near.now run.now }
    ensures { IfOk result (IsRunOf stretch.first stretch.end span.now near.now) }
{
    let mut totals = run.totals(alloc)?;
    forget_outside(&mut totals, span.plan(), stretch);
    let road = run.road(alloc)?;
    Ok(SpanResult { road, totals })
}

// Set the counts of the detectors whose sites are not on a stretch to zero.
fn forget_outside(totals: &mut Vec<Totals>, plan: &Plan, stretch: Stretch)
    requires { length totals.old.items ≡ length plan.now.detectors }
    ensures each { length totals.new.items ≡ length totals.old.items }
    ensures totals { (d : ℕ) → d < length totals.old.items → slice_index_or totals.new.items d no_totals
        ≡ (if has_site stretch.first stretch.end plan.now d then slice_index_or totals.old.items d no_totals
        else no_totals) }
{
    for detector in 0..totals.len() {
        if !has_site(stretch, plan, detector) {
            totals[detector] = Totals { cars: 0, speeds: 0 };
        }
    }
}
