//! Spans of steps that lasting workers run, each worker a stretch of the road, compared with the same steps one by one.

ghost use Rattle.std.specs.Prelude.{◌<◌, ◌≤◌, IfOk};
ghost use Rattle.std.specs.Arc.{arc_value};
ghost use Rattle.road_plan.specs.Settings.{Fits};

use crate::assert_row;
use crate::rows::shared_plan;
use road_cells::Road;
use road_columns::{RoadOrRun, SpanOutcome};
use road_detector::{SpanResult, Totals, passes};
use road_ends::{Meter, Span, step_alone};
use road_plan::{Plan, Settings};
use road_workers::{Alone, Crew, Pool};
use std::alloc::Global;
use std::process::Abort;
use std::sync::{Arc, Wait};
use std::test::Fail;
use std::thread::Threads;
use tests_plans::{Counter, Counting, FREE, LONG, queue, random_settings};

/// Cells on both sides of the places where the road may be divided.
const BLOCKS: &[u32] = &[
    1_024, 2_047, 2_048, 2_731, 4_095, 4_097, 5_461, 6_143, 6_145,
];

// Make settings of a kind. 0 are the plan's own. 1 blocks cells. 2 changes limits and the chances of standing cars. 3
// changes inflows and turns detectors off. Any other kind is the seed of random settings.
fn settings_of(alloc: Global, plan: &Plan, kind: u32) -> Result<Settings, Fail>
    ensures { IfOk result (λ settings. Fits plan.now settings) }
{
    let mut settings = Settings::of_plan(alloc, plan)?;
    match kind {
        0 => {}
        1 => settings.blocks = BLOCKS.to_vec(alloc)?,
        2 => {
            settings.limits = vec![in alloc; 9; plan.zones().len()]?;
            settings.starts = vec![in alloc; 45_000; plan.zones().len()]?;
        }
        3 => {
            settings.inflows = vec![in alloc; 65_536; plan.inlets().len()]?;
            settings.watched = vec![in alloc; false; plan.detectors().len()]?;
        }
        seed => settings = random_settings(alloc, plan, seed)?,
    }
    if !settings.fits(plan) {
        return Err(Fail::new("the settings must fit the plan"));
    }
    Ok(settings)
}

/// Make a span of this number of steps with settings of this kind.
pub(crate) fn span_of(
    alloc: Global,
    plan: &Arc<Plan>,
    kind: u32,
    step: u32,
    steps: u32,
) -> Result<Span, Fail> {
    if step > 10_000 || steps > 64 {
        return Err(Fail::new("a span must not be too late or too long"));
    }
    let settings = Arc::new(alloc, settings_of(alloc, plan, kind)?)?;
    Ok(Span::new(Arc::try_clone(plan)?, settings, step, steps))
}

/// Return whether a run has the cars, and the counts of the detectors, of the run of the crew of one.
pub(crate) fn is_run_of_one(
    alloc: Global,
    span: &Span,
    road: &Road,
    ran: &Option<SpanOutcome>,
) -> Result<bool, Fail> {
    match (
        ran,
        Alone.run(alloc, span, RoadOrRun::Road(road.copied()?))?,
    ) {
        (Some(ran), Some(alone)) => {
            let SpanOutcome { road, totals } = alone;
            let road = road.into_road(alloc)?;
            is_result(alloc, ran, &SpanResult { road, totals })
        }
        (None, None) => Ok(true),
        _ => Ok(false),
    }
}

// Return whether a crew's result for a span is the expected one.
fn is_result(alloc: Global, ran: &SpanOutcome, wanted: &SpanResult) -> Result<bool, Fail> {
    let road = road_of(alloc, &ran.road)?;
    Ok(road.cars() == wanted.road.cars() && ran.totals == wanted.totals)
}

// Copy the road that a crew gives.
fn road_of(alloc: Global, given: &RoadOrRun) -> Result<Road, Fail> {
    match given {
        RoadOrRun::Road(road) => Ok(road.copied()?),
        RoadOrRun::Run(run) => Ok(run.road(alloc)?),
    }
}

// Compute one step, and add the counts of the detectors. Return the road after it.
fn run_step(
    alloc: Global,
    plan: &Arc<Plan>,
    kind: u32,
    step: u32,
    road: &Road,
    totals: &mut Vec<Totals>,
) -> Result<Road, Fail> {
    let settings = settings_of(alloc, plan, kind)?;
    let done = step_alone(alloc, plan, settings, step, road, &mut Meter::new())?;
    for detector in 0..done.input.plan().detectors().len() {
        let counted = passes(&done.input, &done.speeds, detector as u32);
        if let Some(total) = totals.get_mut(detector) {
            total.cars = total.cars.saturating_add(counted.cars);
            total.speeds = total.speeds.saturating_add(counted.speeds);
        }
    }
    Ok(done.road)
}

// Compute this number of steps one by one.
fn run_one_by_one(
    alloc: Global,
    plan: &Arc<Plan>,
    kind: u32,
    step: u32,
    steps: u32,
    road: &Road,
) -> Result<SpanResult, Fail> {
    let mut totals = vec![in alloc; Totals { cars: 0, speeds: 0 }; plan.detectors().len()]?;
    let mut road = road.copied()?;
    for done in 0..steps {
        road = run_step(
            alloc,
            plan,
            kind,
            step.saturating_add(done),
            &road,
            &mut totals,
        )?;
    }
    Ok(SpanResult { road, totals })
}

/// Spans, one after another: for each, the kind of its settings and its number of steps.
const SPANS: &[(u32, u32)] = &[(0, 64), (1, 64), (2, 63), (3, 1), (1, 21), (3, 33), (2, 64)];

/// The results of spans from a queue, one step after another.
#[derive(Drop)]
pub(crate) struct Course<'a> {
    spans: &'a [(u32, u32)],
    queue: Road,
    ran: Vec<SpanResult>,
}

// Run a span step by step, and add its results. Return the road after it.
fn run_and_add(
    alloc: Global,
    plan: &Arc<Plan>,
    (kind, steps): (u32, u32),
    step: u32,
    road: &Road,
    all: &mut Vec<SpanResult>,
) -> Result<Road, Fail> {
    let ran = run_one_by_one(alloc, plan, kind, step, steps, road)?;
    let road = ran.road.copied()?;
    all.push(ran)?;
    Ok(road)
}

// Run spans step by step, from a road.
fn run_and_add_all(
    alloc: Global,
    plan: &Arc<Plan>,
    mut road: Road,
    spans: &[(u32, u32)],
    all: &mut Vec<SpanResult>,
) -> Result<(), Fail> {
    let mut step = 0_u32;
    for span in spans {
        road = run_and_add(alloc, plan, *span, step, &road, all)?;
        step = step.saturating_add(span.1);
    }
    Ok(())
}

/// Run spans step by step, from a queue on this number of cells.
pub(crate) fn run_course<'a>(
    alloc: Global,
    plan: &Arc<Plan>,
    cells: u32,
    spans: &'a [(u32, u32)],
) -> Result<Course<'a>, Fail> {
    let mut course = Course {
        spans,
        queue: queue(alloc, cells)?,
        ran: Vec::new(alloc),
    };
    run_and_add_all(alloc, plan, course.queue.copied()?, spans, &mut course.ran)?;
    Ok(course)
}

// Compare the result of a crew for a span with the expected result. Return the road after it, as the crew gives it.
fn compare_span<C: Crew>(
    rt: &impl Abort,
    alloc: Global,
    crew: &mut C,
    span: &Span,
    road: RoadOrRun,
    wanted: &SpanResult,
) -> Result<RoadOrRun, Fail> {
    let Some(ran) = crew.run(alloc, span, road)? else {
        return Err(Fail::new("the crew must run the span"));
    };
    assert_row(rt, span.steps() as usize, is_result(alloc, &ran, wanted)?);
    let SpanOutcome { road, .. } = ran;
    Ok(road)
}

// Compare the results of a crew for these spans. Each span starts from the road that the crew gave for the span before
// it.
fn compare_course<C: Crew>(
    rt: &impl Abort,
    alloc: Global,
    crew: &mut C,
    plan: &Arc<Plan>,
    course: &Course<'_>,
) -> Result<RoadOrRun, Fail> {
    let mut road = RoadOrRun::Road(course.queue.copied()?);
    let mut step = 0_u32;
    for ((kind, steps), wanted) in course.spans.iter().zip(course.ran.iter()) {
        let span = span_of(alloc, plan, *kind, step, *steps)?;
        road = compare_span(rt, alloc, crew, &span, road, wanted)?;
        step = step.saturating_add(*steps);
    }
    Ok(road)
}

// Compare the results of a crew for courses.
fn compare_courses<C: Crew>(
    rt: &impl Abort,
    alloc: Global,
    crew: &mut C,
    plan: &Arc<Plan>,
    courses: &[Course<'_>],
) -> Result<(), Fail> {
    for course in courses {
        compare_course(rt, alloc, crew, plan, course)?;
    }
    Ok(())
}

// Compare the results of this number of lasting workers for courses, on this number of processors. Return how often a
// worker got work.
fn pool_runs<R: Threads + Wait + Abort + Clone + Drop + Send + 'static>(
    rt: &R,
    alloc: Global,
    workers: u32,
    processors: u32,
    plan: &Arc<Plan>,
    courses: &[Course<'_>],
) -> Result<u32, Fail>
    requires some { 0 < workers }
    requires few { workers ≤ 16 }
{
    let gate = Arc::new(alloc, Counter::new())?;
    let their_gate = Arc::try_clone(&gate)?;
    let mut crew = Pool::start_on(rt.clone()?, alloc, workers, their_gate, processors)?;
    let given = compare_courses(rt, alloc, &mut crew, plan, courses);
    crew.finish();
    given?;
    Ok(gate.passed())
}

/// The number of workers, the number of processors, and the number of spans in which all workers get work.
pub(crate) type Asked = (u32, u32, u32);

// Compare the results of a crew for courses. Return whether its workers get work in as many spans as expected.
fn is_run<R: Threads + Wait + Abort + Clone + Drop + Send + 'static>(
    rt: &R,
    alloc: Global,
    (workers, processors, spans): Asked,
    plan: &Arc<Plan>,
    courses: &[Course<'_>],
) -> Result<bool, Fail> {
    if workers == 0 || workers > 16 {
        return Err(Fail::new("a crew must have 1 to 16 workers"));
    }
    let asked = pool_runs(rt, alloc, workers, processors, plan, courses)?;
    Ok(asked == workers.saturating_mul(spans))
}

/// Compare the results of each crew for courses, and assert that its workers get work as expected.
pub(crate) fn compare_crews<R: Threads + Wait + Abort + Clone + Drop + Send + 'static>(
    rt: &R,
    alloc: Global,
    crews: &[Asked],
    plan: &Arc<Plan>,
    courses: &[Course<'_>],
) -> Result<(), Fail> {
    for (row, crew) in crews.iter().enumerate() {
        assert_row(rt, row, is_run(rt, alloc, *crew, plan, courses)?);
    }
    Ok(())
}

/// How many cells are taken at first, the spans that are run from there, and the workers that get work in them. A
/// second program counted the cars before each span. The road is shared if each stretch, with the cells near it and the
/// time to reach its worker, takes at most four fifths of the time of one thread.
type Case = (&'static [u32], &'static [(u32, u32)], &'static [Asked]);

/// With no car or a few at first, no worker gets work.
const FEW: Case = (
    &[0, 200],
    SPANS,
    &[(1, 1, 0), (3, 4, 0), (7, 7, 0), (16, 17, 0)],
);

/// With more cars, still no worker gets work in the first span.
const MORE: Case = (&[600], &[(0, 64)], &[(3, 4, 0)]);

/// There are 1,182 cars at first, and 1,524 before the last span. Three workers get work only in the last span, and
/// more workers in all long spans.
const SOME: Case = (
    &[1_200],
    SPANS,
    &[(1, 1, 0), (3, 4, 1), (7, 7, 4), (16, 17, 4)],
);

/// With many cars, all workers get work in each span except the one of one step, whether or not the caller has another
/// processor. No worker gets work if there are fewer processors than workers.
const MANY: Case = (
    &[8_000],
    SPANS,
    &[
        (1, 1, 0),
        (3, 2, 0),
        (1, 2, 6),
        (2, 2, 6),
        (3, 4, 6),
        (7, 7, 6),
        (16, 17, 6),
    ],
);

// Make the expected results of these spans from each queue.
fn courses_of(
    alloc: Global,
    plan: &Arc<Plan>,
    queues: &[u32],
    spans: &'static [(u32, u32)],
) -> Result<Vec<Course<'static>>, Fail> {
    let mut courses = Vec::new(alloc);
    for cells in queues {
        courses.push(run_course(alloc, plan, *cells, spans)?)?;
    }
    Ok(courses)
}

#[test]
fn spans_run_by_one_worker_equal_their_steps_one_by_one(rt: HostRuntime) -> Result<(), Fail> {
    let alloc = rt.alloc();
    let plan = shared_plan(alloc, &LONG)?;
    let courses = courses_of(alloc, &plan, &[0, 200, 8_000], SPANS)?;
    compare_courses(&rt, alloc, &mut Alone, &plan, &courses)
}

// Give a single caller a run that is before a later step, and a run of another plan. It starts from their roads.
fn start_from_the_roads_of_other_runs(
    rt: &impl Abort,
    alloc: Global,
    free: &Arc<Plan>,
    long: &Arc<Plan>,
) -> Result<(), Fail> {
    let course = run_course(alloc, free, 0, &[(0, 64), (0, 1)])?;
    for plan in [free, long] {
        let run = compare_course(rt, alloc, &mut Alone, free, &course)?;
        let road = road_of(alloc, &run)?;
        let wanted = run_one_by_one(alloc, plan, 0, 0, 64, &road)?;
        let span = span_of(alloc, plan, 0, 0, 64)?;
        compare_span(rt, alloc, &mut Alone, &span, run, &wanted)?;
    }
    Ok(())
}

#[test]
fn one_worker_starts_from_the_road_of_a_run_that_does_not_fit(rt: HostRuntime) -> Result<(), Fail> {
    let alloc = rt.alloc();
    let free = shared_plan(alloc, &FREE)?;
    let long = shared_plan(alloc, &LONG)?;
    start_from_the_roads_of_other_runs(&rt, alloc, &free, &long)
}

#[test]
fn a_crew_that_computes_speeds_runs_spans_one_step_after_another(
    rt: HostRuntime,
) -> Result<(), Fail> {
    let alloc = rt.alloc();
    let plan = shared_plan(alloc, &LONG)?;
    let course = run_course(alloc, &plan, 200, SPANS)?;
    let mut crew = Counting { calls: 0 };
    compare_course(&rt, alloc, &mut crew, &plan, &course)?;
    assert!(rt; crew.calls == 310 && crew.most_steps() == 1);
    Ok(())
}

// Let lasting workers run the courses of a case.
fn compare_workers<R: Threads + Wait + Abort + Clone + Drop + Send + 'static>(
    rt: &R,
    alloc: Global,
    plan: &Arc<Plan>,
    (queues, spans, crews): Case,
) -> Result<(), Fail> {
    let courses = courses_of(alloc, plan, queues, spans)?;
    compare_crews(rt, alloc, crews, plan, &courses)
}

#[test]
fn spans_of_few_cars_run_by_lasting_workers_equal_their_steps_one_by_one(
    rt: HostRuntime,
) -> Result<(), Fail> {
    let plan = shared_plan(rt.alloc(), &LONG)?;
    for case in [FEW, MORE, SOME] {
        compare_workers(&rt, rt.alloc(), &plan, case)?;
    }
    Ok(())
}

#[test]
fn spans_of_many_cars_run_by_lasting_workers_equal_their_steps_one_by_one(
    rt: HostRuntime,
) -> Result<(), Fail> {
    let plan = shared_plan(rt.alloc(), &LONG)?;
    compare_workers(&rt, rt.alloc(), &plan, MANY)
}

// Return whether a crew runs nothing if there is no step, or if the road has a car in the exit. No run of a plan has
// such a road.
fn runs_nothing<C: Crew>(alloc: Global, crew: &mut C, plan: &Arc<Plan>) -> Result<bool, Fail> {
    let (none, span) = (
        span_of(alloc, plan, 0, 0, 0)?,
        span_of(alloc, plan, 0, 0, 64)?,
    );
    let (road, full) = (queue(alloc, 4_096)?, queue(alloc, plan.length())?);
    let by_none = crew.run(alloc, &none, RoadOrRun::Road(road))?;
    let from_full = crew.run(alloc, &span, RoadOrRun::Road(full))?;
    Ok(by_none.is_none() && from_full.is_none())
}

#[test]
fn nothing_is_run_without_a_step_or_with_a_car_in_the_exit(rt: HostRuntime) -> Result<(), Fail> {
    let alloc = rt.alloc();
    let plan = shared_plan(alloc, &LONG)?;
    let mut crew = Pool::start(rt.clone()?, alloc, 2)?;
    let given = runs_nothing(alloc, &mut crew, &plan);
    crew.finish();
    assert!(rt; given? && runs_nothing(alloc, &mut Alone, &plan)?);
    Ok(())
}
