//! Runs by a single caller, step by step. The calls of a step are: copy and draw the road, let cars enter, compute
//! their speeds, move them, and all of that together as one step.

ghost use Rattle.std.specs.Arc.{arc_value};
ghost use Rattle.road_scenario.specs.Faults.{AreInRange};

use crate::roads::shared_plan;
use crate::verdict::{Call, Until, Verdict, both, judge};
use road_cells::Road;
use road_ends::{Meter, OutOfMemory, StepInput, Stepped, enter, finish, leave, step_alone};
use road_plan::Plan;
use road_rules::moved;
use road_scenario::{Edit, Scenario};
use std::alloc::Global;
use std::sync::Arc;
use tests_plans::{Parts, Row, row_of};
use tests_portraits::Portrait;

/// Rows of a run. The last row is the one after the last step.
#[derive(Clone, Copy)]
pub(crate) enum Rows {
    At(&'static [Row]),
    /// The row after each step, from the first step on.
    Each(&'static [&'static str]),
}

impl Rows {
    // Return the step of the last row.
    fn last(&self) -> Option<u32> {
        match self {
            Rows::At(rows) => Some(rows.last()?.0),
            Rows::Each(rows) => u32::try_from(rows.len()).ok(),
        }
    }

    // Return whether this is the row at a step, if a row is listed there.
    fn agree(&self, step: u32, row: &str) -> bool {
        match self {
            Rows::At(rows) => rows
                .iter()
                .all(|(listed, text)| *listed != step || *text == row),
            Rows::Each(rows) => match rows.get((step as usize).saturating_sub(1)) {
                Some(text) => *text == row,
                None => false,
            },
        }
    }
}

/// A run: the parts of its plan, its edits, and its rows.
#[derive(Clone, Copy)]
pub(crate) struct RunCase(
    pub(crate) Parts,
    pub(crate) &'static [Edit],
    pub(crate) Rows,
);

// The plan of a run, and the scenario of its edits.
#[derive(Drop)]
struct Run {
    plan: Arc<Plan>,
    scenario: Scenario,
    ghost fits: { AreInRange (arc_value plan) scenario },
}

// Draw the road of a run at a step.
fn draw_row(alloc: Global, run: &Run, step: u32, road: &Road) -> Result<String, OutOfMemory> {
    let settings = run.scenario.settings_at(alloc, &run.plan, step)?;
    row_of(alloc, road, settings.blocks(), run.plan.length())
}

// Make the input of a step.
fn make_input(
    alloc: Global,
    run: &Run,
    step: u32,
    road: &Road,
) -> Result<Arc<StepInput>, OutOfMemory> {
    let settings = run.scenario.settings_at(alloc, &run.plan, step)?;
    enter(alloc, &run.plan, settings, step, road)
}

// Make the road after the motion of a step.
fn motion(alloc: Global, input: &StepInput) -> Result<Road, OutOfMemory> {
    let speeds = input.speeds(alloc)?;
    moved(alloc, input.road(), &speeds)
}

// Make the road after a step.
fn road_after(alloc: Global, input: &StepInput) -> Result<Road, OutOfMemory> {
    let speeds = input.speeds(alloc)?;
    finish(alloc, input, &speeds)
}

// Compute a step as a whole.
fn compute_step(
    alloc: Global,
    run: &Run,
    step: u32,
    road: &Road,
    meter: &mut Meter,
) -> Result<Stepped, OutOfMemory> {
    let settings = run.scenario.settings_at(alloc, &run.plan, step)?;
    step_alone(alloc, &run.plan, settings, step, road, meter)
}

/// A step of a run: the road before it, what enters it, and the road after it.
#[derive(Drop)]
struct Step {
    number: u32,
    road: Road,
    input: Arc<StepInput>,
    next: Road,
}

// The calls of a step.
#[derive(Clone, Copy)]
enum Part {
    Copy,
    Draw,
    Enter,
    Move,
    Finish,
    Step,
}

/// All of these calls, as one step.
const PARTS: [Part; 6] = [
    Part::Copy,
    Part::Draw,
    Part::Enter,
    Part::Move,
    Part::Finish,
    Part::Step,
];

// A call of a step. It cannot change its arguments.
#[derive(Clone, Copy)]
struct Stepping<'a> {
    run: &'a Run,
    rows: &'a Rows,
    step: &'a Step,
    part: Part,
}

// Return whether the copy of the road after a step equals that road.
fn is_copied(step: &Step) -> Result<bool, OutOfMemory> {
    Ok(step.next.copied()?.cars() == step.next.cars())
}

// Return whether the road after a step is drawn as listed.
fn is_drawn(alloc: Global, run: &Run, rows: &Rows, step: &Step) -> Result<bool, OutOfMemory> {
    let later = step.number.saturating_add(1);
    let row = draw_row(alloc, run, later, &step.next)?;
    Ok(rows.agree(later, row.as_str()))
}

// Return whether a new input has the same cars as the input that was made before.
fn is_entered(alloc: Global, run: &Run, step: &Step) -> Result<bool, OutOfMemory> {
    let input = make_input(alloc, run, step.number, &step.road)?;
    Ok(input.step() == step.number && input.road().cars() == step.input.road().cars())
}

// Return whether the cars that have moved, and are not in the exit, are the cars after the step.
fn is_moved(alloc: Global, run: &Run, step: &Step) -> Result<bool, OutOfMemory> {
    let road = motion(alloc, &step.input)?;
    Ok(leave(&run.plan, road).cars() == step.next.cars())
}

// Return whether finishing a step gives the same road.
fn is_finished(alloc: Global, step: &Step) -> Result<bool, OutOfMemory> {
    Ok(road_after(alloc, &step.input)?.cars() == step.next.cars())
}

// Return whether a step that is computed as a whole has the same result, and the meter counts it.
fn is_stepped(alloc: Global, run: &Run, step: &Step) -> Result<bool, OutOfMemory> {
    let mut meter = Meter::new();
    let done = compute_step(alloc, run, step.number, &step.road, &mut meter)?;
    Ok(done.road.cars() == step.next.cars() && meter.ticks() == 1)
}

impl Call for Stepping<'_> {
    type Answer = bool;

    type Fault = OutOfMemory;

    fn make(&mut self, alloc: Global) -> Result<bool, OutOfMemory> {
        match self.part {
            Part::Copy => is_copied(self.step),
            Part::Draw => is_drawn(alloc, self.run, self.rows, self.step),
            Part::Enter => is_entered(alloc, self.run, self.step),
            Part::Move => is_moved(alloc, self.run, self.step),
            Part::Finish => is_finished(alloc, self.step),
            Part::Step => is_stepped(alloc, self.run, self.step),
        }
    }

    fn is_right(&mut self, _alloc: Global, is_expected: bool) -> Option<bool> {
        Some(is_expected)
    }
}

// Prepare a step from a road.
fn step_from(alloc: Global, run: &Run, number: u32, road: &Road) -> Option<Step> {
    let done = compute_step(alloc, run, number, road, &mut Meter::new()).ok()?;
    Some(Step {
        number,
        road: road.copied().ok()?,
        input: make_input(alloc, run, number, road).ok()?,
        next: done.road,
    })
}

// Prepare the steps of a run up to the last one.
fn steps_of(alloc: Global, run: &Run, last: u32) -> Option<Vec<Step>> {
    let mut steps = Vec::new(alloc);
    let mut road = Road::empty(alloc);
    for number in 0..last {
        let step = step_from(alloc, run, number, &road)?;
        road = step.next.copied().ok()?;
        steps.push(step).ok()?;
    }
    Some(steps)
}

// Try the calls of a step.
fn try_step(alloc: Global, run: &Run, rows: &Rows, step: &Step) -> Option<Verdict> {
    let mut verdict = Verdict::Right;
    for part in PARTS {
        let mut stepping = Stepping {
            run,
            rows,
            step,
            part,
        };
        let done = judge(alloc, &mut stepping, &Portrait::new(alloc))?;
        verdict = both(verdict, done);
    }
    Some(verdict)
}

// Try the steps of a run, one after the other.
fn try_steps(alloc: Global, run: &Run, rows: &Rows, steps: &[Step]) -> Option<Verdict> {
    let mut verdict = Verdict::Right;
    for step in steps {
        verdict = both(verdict, try_step(alloc, run, rows, step)?);
    }
    Some(verdict)
}

// Return a run of these parts and edit.
fn run_of(alloc: Global, case: &RunCase) -> Option<Run> {
    let plan = shared_plan(alloc, &case.0)?;
    let scenario = Scenario::of_edits(alloc, case.1).ok()?;
    if scenario.fits(&plan).is_some() {
        return None;
    }
    Some(Run { plan, scenario })
}

// Try each step of a run.
fn try_from_step(alloc: Global, until: Until, run: &Run, rows: &Rows) -> Option<Verdict> {
    let steps = steps_of(alloc, run, rows.last()?)?;
    if until == Until::Prepared {
        return Some(Verdict::Stopped);
    }
    let verdict = try_steps(alloc, run, rows, &steps)?;
    if until == Until::Called {
        return Some(Verdict::Stopped);
    }
    Some(verdict)
}

/// Try each step of a run.
pub(crate) fn try_run(alloc: Global, until: Until, case: &RunCase) -> Option<Verdict> {
    let run = run_of(alloc, case)?;
    try_from_step(alloc, until, &run, &case.2)
}
