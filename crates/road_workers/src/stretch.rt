//! Stretches of road. Each can be run by itself for the steps of a span, since no car drives or looks farther in a step
//! than 9 cells.

ghost use Rattle.std.specs.Prelude.{◌≡◌, ◌<◌, ◌≤◌, ◌+◌, ◌-◌, ◌*◌, length, min, IfOk, IfSome, IsSome, IsTrue};
ghost use Rattle.road_plan.specs.declared.limits.TheConstants.{GREATEST_HORIZON, GREATEST_LENGTH};
ghost use Rattle.road_cells.specs.Cars.{cars_of, cell_at};
ghost use Rattle.road_cells.specs.declared.car.TheConstants.{GREATEST_SPEED};
ghost use Rattle.road_ends.specs.Laws.{AgreeNear};
ghost use Rattle.road_columns.specs.UnderWay.{IsRunnable};
ghost use Rattle.road_workers.specs.Private.RunsUnderWay.{IsReady};
ghost use Rattle.road_workers.specs.Private.Stretches.{IsRunnableNear, IsRunOf, cars_between, cut, has_site};

pub(crate) mod cutting;
pub(crate) mod joining;

use crate::kept_run::KeptRun;
use crate::stretch::cutting::cut_out;
use crate::whole::{make_steps, reusable_run, start_run, take_up};
use road_cells::{Car, GREATEST_SPEED, Road};
use road_columns::UnderWay;
use road_detector::SpanResult;
use road_ends::{OutOfMemory, Span, Stretch, are_same_cars};
use road_plan::Plan;
use std::alloc::Global;

// Return stretch number `place` of the `count` stretches of a road, counted from 0. All have about as many cars.
pub(crate) fn stretch_at(road: &Road, cells: u32, count: u32, place: u32) -> Stretch
    requires there { place < count }
    ensures first { result.first ≡ cut cells (cars_of road.now) count place }
    ensures end { result.end ≡ cut cells (cars_of road.now) count (place + 1) }
    ensures order { result.first ≤ result.end }
    ensures within { result.end ≤ cells }
{
    Stretch {
        first: cut(road.cars(), cells, count, place),
        end: cut(road.cars(), cells, count, place + 1),
    }
}

// Return whether a detector's site is on a stretch.
pub(crate) fn has_site(stretch: Stretch, plan: &Plan, detector: usize) -> bool
    requires { detector < length plan.now.detectors }
    ensures { result ≡ has_site stretch.first stretch.end plan.now detector }
{
    let site = plan.detectors()[detector];
    stretch.first <= site && site < stretch.end
}

// Run a stretch for all steps of a span, in a run that is kept, from the cars on the stretch and, for each step, on 9
// cells behind it and 9 ahead of it. The road that it returns is right on the stretch, and detectors that are not on the
// stretch have counted nothing.
pub(crate) fn run_stretch(
    alloc: Global,
    span: &Span,
    road: &Road,
    stretch: Stretch,
    kept: &mut KeptRun,
) -> Result<SpanResult, OutOfMemory>
    requires order { stretch.first ≤ stretch.end }
    requires short { stretch.end ≤ GREATEST_LENGTH }
    requires runnable { IsRunnable 0 span.now.plan.cells span.now.plan road.now }
    ensures { IfOk result (λ ran. IsRunOf stretch.first stretch.end span.now road.now ran) }
{
    let near = road_near(alloc, span, road, stretch)?;
    let run = run_near(alloc, span, &near, stretch, kept)?;
    Ok(run)
}

// Run a stretch for all steps of a span, from the cars near it, in a run that is kept.
pub(crate) fn run_near(
    alloc: Global,
    span: &Span,
    near: &Road,
    stretch: Stretch,
    kept: &mut KeptRun,
) -> Result<SpanResult, OutOfMemory>
    requires order { stretch.first ≤ stretch.end }
    requires short { stretch.end ≤ GREATEST_LENGTH }
    requires runnable { IsRunnableNear stretch.first stretch.end span.now near.now }
    ensures { IfOk result (λ ran. IsRunOf stretch.first stretch.end span.now near.now ran) }
{
    let kept_run = reusable_run(span, kept.run.take());
    let Some(mut run) = run_on(alloc, span, with_margins(span, stretch), near, kept_run)? else {
        unreachable!();
    };
    make_steps(alloc, span, &mut run)?;
    let ran = cut_out(alloc, span, near, stretch, &run)?;
    kept.run = Some(run);
    Ok(ran)
}

// Return a run on the cells of a stretch, before the steps of a span and under its settings. The kept run, which is of
// the span's plan, is restarted from the road; if there is none, a new run starts. Return `None` if some car on the road
// cannot be held in a run.
fn run_on(
    alloc: Global,
    span: &Span,
    stretch: Stretch,
    near: &Road,
    kept: Option<UnderWay>,
) -> Result<Option<UnderWay>, OutOfMemory>
    requires plan { IfSome kept (λ run. run.plan ≡ span.now.plan) }
    requires on_road { stretch.end ≤ span.now.plan.cells }
    ensures ready { IfOk result (λ run. IfSome run (IsReady stretch.first stretch.end span.now near.now)) }
    ensures some { IfOk result (λ run. IsRunnable stretch.first stretch.end span.now.plan near.now → IsSome run) }
{
    let Some(mut run) = kept else {
        return start_run(alloc, span, stretch, near);
    };
    if !take_up(alloc, span, stretch, near, &mut run)? {
        return Ok(None);
    }
    Ok(Some(run))
}

// Return a stretch with the cells behind it and ahead of it that may matter on it in the steps of a span, up to the ends
// of the road.
fn with_margins(span: &Span, stretch: Stretch) -> Stretch
    requires { stretch.end ≤ GREATEST_LENGTH }
    ensures first { result.first ≡ stretch.first - GREATEST_SPEED * span.now.steps }
    ensures end { result.end ≡ min (stretch.end + GREATEST_SPEED * span.now.steps) span.now.plan.cells }
{
    let margin = margin_of(span);
    Stretch {
        first: stretch.first.saturating_sub(margin),
        end: (stretch.end + margin).min(span.plan().length()),
    }
}

// Make the road of the cars near a stretch.
pub(crate) fn road_near(
    alloc: Global,
    span: &Span,
    road: &Road,
    stretch: Stretch,
) -> Result<Road, OutOfMemory>
    requires order { stretch.first ≤ stretch.end }
    requires short { stretch.end ≤ GREATEST_LENGTH }
    ensures agrees { IfOk result (λ near. AgreeNear span.now.steps stretch.first stretch.end near road.now) }
    ensures runnable { IsRunnable 0 span.now.plan.cells span.now.plan road.now
        → IfOk result (IsRunnableNear stretch.first stretch.end span.now) }
{
    let mut cars = Vec::new(alloc);
    cars.extend_from_slice(cars_near(span, road, stretch))?;
    Ok(Road::of(cars))
}

// Return whether the cars of a road are those near a stretch.
pub(crate) fn is_near(near: &Road, span: &Span, road: &Road, stretch: Stretch) -> bool
    requires order { stretch.first ≤ stretch.end }
    requires short { stretch.end ≤ GREATEST_LENGTH }
    ensures { IsTrue result → AgreeNear span.now.steps stretch.first stretch.end near.now road.now }
{
    are_same_cars(near.cars(), cars_near(span, road, stretch))
}

// Return the cars on a stretch, and those so near that they may matter on it in the steps of a span.
fn cars_near<'a>(span: &Span, road: &'a Road, stretch: Stretch) -> &'a [Car]
    requires order { stretch.first ≤ stretch.end }
    requires short { stretch.end ≤ GREATEST_LENGTH }
    ensures { result.now ≡ cars_between (stretch.first - GREATEST_SPEED * span.now.steps)
        (stretch.end + GREATEST_SPEED * span.now.steps) road.now }
{
    let margin = margin_of(span);
    let from = stretch.first.saturating_sub(margin);
    road.between(from, stretch.end + margin)
}

// Return the cell where stretch number `place` of `count` begins; `place == count` gives the end of the road.
fn cut(cars: &[Car], cells: u32, count: u32, place: u32) -> u32
    requires some { 0 < count }
    requires there { place ≤ count }
    ensures { result ≡ cut cells cars.now count place }
{
    if place == 0 {
        return 0;
    }
    if place == count {
        return cells;
    }
    cell_at(cars, cars.len() / count as usize * place as usize).min(cells)
}

// Return the cell of the car at a place in the list, or 0 if there is no such car.
fn cell_at(cars: &[Car], place: usize) -> u32
    ensures { result ≡ cell_at cars.now place }
{
    match cars.get(place) {
        Some(car) => car.cell,
        None => 0,
    }
}

// Return how many cells behind a stretch, and how many ahead of it, may matter on it in the steps of a span.
fn margin_of(span: &Span) -> u32
    ensures margin { result ≡ GREATEST_SPEED * span.now.steps }
    ensures small { result ≤ GREATEST_SPEED * GREATEST_HORIZON }
{
    u32::from(GREATEST_SPEED) * span.steps()
}
