//! A span of the whole road, run by one thread.

ghost use Rattle.std.specs.Prelude.{◌≡◌, ◌↔◌, ◌+◌, ◌≤◌, IfOk, IfSome, IsSome, IsTrue, OnOk, Some};
ghost use Rattle.std.specs.Arc.{arc_value};
ghost use Rattle.road_plan.specs.Plan.{Plan};
ghost use Rattle.road_plan.specs.declared.limits.TheConstants.{GREATEST_HORIZON};
ghost use Rattle.road_ends.specs.Span.{span_road};
ghost use Rattle.road_detector.specs.Passes.{span_totals};
ghost use Rattle.road_columns.specs.RoadOrRun.{road_now};
ghost use Rattle.road_columns.specs.UnderWay.{IsAt, IsRunnable, UnderWay as Running};
ghost use Rattle.road_columns.specs.declared.road_or_run.RoadOrRun.TheVariants.{Run};
ghost use Rattle.road_workers.specs.Crews.{CanBeRun};
ghost use Rattle.road_workers.specs.Private.RunsUnderWay.{IsReady, IsRunAt, after_steps, uncounted};

use road_cells::Road;
use road_columns::{RoadOrRun, SpanOutcome, UnderWay};
use road_ends::{OutOfMemory, Span, Stretch};
use road_plan::limits::GREATEST_HORIZON;
use std::alloc::Global;
use std::sync::Arc;

// Run the whole road for the steps of a span. The outcome holds the run, so the next span can continue it. Return `None`
// if the span has no steps, or some car on the road cannot be held in a run.
pub(crate) fn run_alone(
    alloc: Global,
    span: &Span,
    road: RoadOrRun,
) -> Result<Option<SpanOutcome>, OutOfMemory>
    ensures road { IfOk result (λ done. IfSome done (λ ran. road_now ran.road ≡ span_road span.now (road_now road))) }
    ensures totals { IfOk result (λ done. IfSome done (λ ran. ran.totals.items
        ≡ span_totals span.now (road_now road))) }
    ensures some { IfOk result (λ done. CanBeRun span.now (road_now road) → IsSome done) }
    ensures given_on { IfOk result (λ done. IfSome done
        (λ ran. IsRunAt (span.now.step + span.now.steps) ran.road)) }
{
    if span.steps() == 0 {
        return Ok(None);
    }
    let Some(mut run) = ready_run(alloc, span, road)? else {
        return Ok(None);
    };
    make_steps(alloc, span, &mut run)?;
    let totals = run.totals(alloc)?;
    Ok(Some(SpanOutcome {
        road: RoadOrRun::Run(run),
        totals,
    }))
}

// Return the kept run, if there is one and it is of the span's plan.
pub(crate) fn reusable_run(span: &Span, kept: Option<UnderWay>) -> Option<UnderWay>
    ensures plan { IfSome result (λ run. run.plan ≡ span.now.plan) }
    ensures goes_on { IfSome kept (λ run. run.plan ≡ span.now.plan → result ≡ Some run) }
{
    match kept {
        Some(run) if run.is_of(span.plan()) => Some(run),
        _ => None,
    }
}

// Return a run on the whole road, before the steps of a span and under its settings. A run of the span's plan that has
// reached the first step is continued; otherwise a new run starts. Return `None` if some car on the road cannot be held
// in a run.
fn ready_run(alloc: Global, span: &Span, road: RoadOrRun) -> Result<Option<UnderWay>, OutOfMemory>
    ensures ready { IfOk result (λ run. IfSome run (IsReady 0 span.now.plan.cells span.now (road_now road))) }
    ensures some { IfOk result (λ run. IsRunnable 0 span.now.plan.cells span.now.plan (road_now road) → IsSome run) }
    ensures goes_on { (run : Running) → road ≡ Run run → run.plan ≡ span.now.plan → IsAt span.now.step run
        → IfOk result (λ ready. ready ≡ Some (record run { settings = span.now.settings })) }
{
    let end = span.plan().length();
    let whole = Stretch { first: 0, end };
    match road {
        RoadOrRun::Road(road) => start_run(alloc, span, whole, &road),
        RoadOrRun::Run(run) => {
            if is_before(&run, span) {
                return Ok(Some(put_under(alloc, span, run)?));
            }
            let road = run.road(alloc)?;
            start_run(alloc, span, whole, &road)
        }
    }
}

// Return whether a run is of the span's plan, and is on the whole road before the first step of the span.
fn is_before(run: &UnderWay, span: &Span) -> bool
    ensures { IsTrue result ↔ ((run.now.plan ≡ span.now.plan) × IsAt span.now.step run.now) }
{
    run.is_of(span.plan()) && run.is_at(span.step())
}

// Change the settings of a run of a span's plan to those of the span, if they are different.
fn put_under(alloc: Global, span: &Span, run: UnderWay) -> Result<UnderWay, OutOfMemory>
    requires { run.plan ≡ span.now.plan }
    ensures { IfOk result (λ under. under ≡ record run { settings = span.now.settings }) }
{
    let mut run = run;
    if !run.is_under(span.settings()) {
        run.change(alloc, Arc::try_clone(span.settings())?)?;
    }
    Ok(run)
}

// Start a run on the cells of a stretch, before the steps of a span and under its settings. Return `None` if some car on
// the road cannot be held in a run.
pub(crate) fn start_run(
    alloc: Global,
    span: &Span,
    stretch: Stretch,
    road: &Road,
) -> Result<Option<UnderWay>, OutOfMemory>
    requires { stretch.end ≤ span.now.plan.cells }
    ensures ready { IfOk result (λ run. IfSome run (IsReady stretch.first stretch.end span.now road.now)) }
    ensures some { IfOk result (λ run. IsRunnable stretch.first stretch.end span.now.plan road.now → IsSome run) }
{
    prove!(span.steps() <= GREATEST_HORIZON);
    let plan = Arc::try_clone(span.plan())?;
    let settings = Arc::try_clone(span.settings())?;
    UnderWay::start_on(alloc, plan, settings, span.step(), stretch, road)
}

// Restart a run from a road, on the cells of a stretch, before the steps of a span. Return whether it was restarted; if
// not, some car on the road cannot be held in a run.
pub(crate) fn take_up(
    alloc: Global,
    span: &Span,
    stretch: Stretch,
    road: &Road,
    run: &mut UnderWay,
) -> Result<bool, OutOfMemory>
    requires plan { run.old.plan ≡ span.now.plan }
    requires on_road { stretch.end ≤ span.now.plan.cells }
    ensures ready { IfOk result (λ is. IsTrue is → IsReady stretch.first stretch.end span.now road.now run.new) }
    ensures some { IfOk result (λ is. IsRunnable stretch.first stretch.end span.now.plan road.now → IsTrue is) }
{
    prove!(span.steps() <= GREATEST_HORIZON);
    let settings = Arc::try_clone(span.settings())?;
    run.restart_on(alloc, settings, span.step(), stretch, road)
}

// Make the steps of a span. The counts of the run are set to zero first, so afterwards they are those of the span.
pub(crate) fn make_steps(alloc: Global, span: &Span, run: &mut UnderWay) -> Result<(), OutOfMemory>
    requires { run.old.step ≡ span.now.step }
    ensures { OnOk result (run.new ≡ after_steps span.now.steps (uncounted run.old)) }
{
    run.restart_counts();
    for _ in 0..span.steps() {
        run.step(alloc, span.steps())?;
    }
    Ok(())
}
