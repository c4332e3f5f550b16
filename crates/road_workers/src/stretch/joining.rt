//! Joins the results of stretches side by side to the result of the whole road.

ghost use Rattle.std.specs.Prelude.{◌≡◌, ℕ, ◌+◌, ◌<◌, ◌≤◌, ◌^◌, length, slice_index_or, IfOk};
ghost use Rattle.road_plan.specs.declared.limits.TheConstants.{GREATEST_HORIZON};
ghost use Rattle.road_plan.specs.Plan.{IsWithinLimits};
ghost use Rattle.road_cells.specs.Array.{Array};
ghost use Rattle.road_ends.specs.Span.{Span, span_road};
ghost use Rattle.road_detector.specs.Passes.{no_totals, plus, span_totals};
ghost use Rattle.road_columns.specs.RoadOrRun.{road_now};
ghost use Rattle.road_workers.specs.Private.Stretches.{IsJoined, IsRunOf};

use road_cells::{Car, Road};
use road_columns::{RoadOrRun, SpanOutcome};
use road_detector::{SpanResult, Totals};
use road_ends::{OutOfMemory, Span, Stretch};
use std::alloc::Global;

// The results of stretches side by side, from the first cell on: their cars in one list, and what each detector has
// counted. Detectors that are not on these stretches have counted nothing.
#[derive(Drop)]
pub(crate) struct Joined {
    pub cars: Vec<Car>,
    pub totals: Vec<Totals>,
}

// Make the result of no stretches: no cars, and no counts.
pub(crate) fn join_none(alloc: Global, span: &Span) -> Result<Joined, OutOfMemory>
    ensures { IfOk result (λ joined. (a : Array) → IsJoined 0 span.now a joined) }
{
    let detectors = span.plan().detectors().len();
    Ok(Joined {
        cars: Vec::new(alloc),
        totals: vec![in alloc; Totals { cars: 0, speeds: 0 }; detectors]?,
    })
}

// Begin with the result of the first stretch, which ends before cell `end`. Its list of cars becomes the list of the
// result, without the cars from that cell on.
pub(crate) fn join_first(ran: SpanResult, end: u32) -> Joined
    ensures { (span : Span) (a : Array) → IsRunOf 0 end span a ran → IsJoined end span a result }
{
    let SpanResult { road, totals } = ran;
    let there = road.cars_before(end);
    let mut cars = road.into_cars();
    cars.truncate(there);
    Joined { cars, totals }
}

// Make room for `more` cars.
pub(crate) fn with_room(joined: Joined, more: usize) -> Result<Joined, OutOfMemory>
    ensures { (end : ℕ) (span : Span) (a : Array) → IsJoined end span a joined → IfOk result (IsJoined end span a) }
{
    let Joined { mut cars, totals } = joined;
    cars.reserve(more)?;
    Ok(Joined { cars, totals })
}

// Join the result of a stretch to the result of the stretches before it. Its cars are copied.
pub(crate) fn join_next(
    span: &Span,
    road: &Road,
    stretch: Stretch,
    front: Joined,
    ran: SpanResult,
) -> Result<Joined, OutOfMemory>
    requires order { stretch.first ≤ stretch.end }
    requires within_limit { span.now.step + span.now.steps ≤ GREATEST_HORIZON }
    requires front { IsJoined stretch.first span.now road.now front }
    requires ran { IsRunOf stretch.first stretch.end span.now road.now ran }
    ensures { IfOk result (λ both. IsJoined stretch.end span.now road.now both) }
{
    let Joined {
        mut cars,
        mut totals,
    } = front;
    cars.extend_from_slice(ran.road.between(stretch.first, stretch.end))?;
    add(&mut totals, &ran.totals);
    Ok(Joined { cars, totals })
}

// Add the counts of another stretch, for each detector.
fn add(totals: &mut Vec<Totals>, others: &[Totals])
    requires each { length others.now ≡ length totals.old.items }
    requires cars { (d : ℕ) → d < length totals.old.items →
        (slice_index_or totals.old.items d no_totals).cars + (slice_index_or others.now d no_totals).cars < 2 ^ 32 }
    requires speeds { (d : ℕ) → d < length totals.old.items →
        (slice_index_or totals.old.items d no_totals).speeds + (slice_index_or others.now d no_totals).speeds < 2 ^ 32 }
    ensures each { length totals.new.items ≡ length totals.old.items }
    ensures totals { (d : ℕ) → d < length totals.old.items → slice_index_or totals.new.items d no_totals
        ≡ plus (slice_index_or totals.old.items d no_totals) (slice_index_or others.now d no_totals) }
{
    for detector in 0..others.len() {
        totals[detector] = totals[detector].plus(others[detector]);
    }
}

// Make the outcome of a span with at least one step from the results of all stretches of the road. `road` is the road
// before the span: only the contract uses it.
pub(crate) fn whole_run(span: &Span, road: &Road, cells: u32, joined: Joined) -> SpanOutcome
    requires some { 0 < span.now.steps }
    requires cells { cells ≡ span.now.plan.cells }
    requires within { IsWithinLimits span.now.plan }
    requires joined { IsJoined cells span.now road.now joined }
    ensures road { road_now result.road ≡ span_road span.now road.now }
    ensures totals { result.totals.items ≡ span_totals span.now road.now }
{
    let Joined { cars, totals } = joined;
    SpanOutcome {
        road: RoadOrRun::Road(Road::of(cars)),
        totals,
    }
}
