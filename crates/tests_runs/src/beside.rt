//! A run under way, compared with plain steps of the same road.

ghost use Rattle.std.specs.Prelude.{◌≡◌, IfOk};
ghost use Rattle.std.specs.Arc.{arc_value};
ghost use Rattle.road_plan.specs.Settings.{Fits};

use crate::plain::{add, cars_on, copy_of, counts_agree, counts_in, nothing};
use road_cells::Road;
use road_columns::UnderWay;
use road_detector::Totals;
use road_ends::{Meter, OutOfMemory, Stretch, step_alone};
use road_plan::limits::GREATEST_HORIZON;
use road_plan::{Plan, Settings};
use std::alloc::Global;
use std::marker::Model;
use std::process::Abort;
use std::sync::Arc;
use std::test::Fail;
use tests_plans::{Parts, plan_of, row_of};

/// A run under way, and the road of plain steps with the counts of the detectors in these steps.
#[derive(Drop)]
pub(crate) struct Beside {
    plan: Arc<Plan>,
    settings: Settings,
    run: UnderWay,
    step: u32,
    road: Road,
    totals: Vec<Totals>,
}

impl Model for Beside {
    ghost use Rattle.std.specs.Prelude.{◌≡◌};
    ghost use Rattle.std.specs.Arc.{arc_value};
    ghost use Rattle.road_columns.specs.UnderWay.{UnderWay};

    ghost Value = { UnderWay };

    ghost view = { λ x. x.run };

    ghost invariant = { λ x. x.run.plan ≡ arc_value x.plan };
}

impl Beside {
    // Begin both at step 0 on the empty road.
    fn begin(alloc: Global, plan: Arc<Plan>, settings: &Settings) -> Result<Beside, Fail> {
        let totals = nothing(alloc, &plan)?;
        let own = copy_of(settings)?;
        let run = run_of(alloc, &plan, settings)?;
        Ok(Beside {
            plan,
            settings: own,
            run,
            step: 0,
            road: Road::empty(alloc),
            totals,
        })
    }

    /// Begin both on the empty road of a plan, with its own settings.
    pub(crate) fn of_plan(alloc: Global, plan: Plan) -> Result<Beside, Fail> {
        let plan = Arc::new(alloc, plan)?;
        let settings = Settings::of_plan(alloc, &plan)?;
        Beside::begin(alloc, plan, &settings)
    }

    /// Begin both on the empty road of the plan of these parts, with its own settings.
    pub(crate) fn of_parts(alloc: Global, parts: &Parts) -> Result<Beside, Fail> {
        let plan = plan_of(alloc, parts)?;
        Beside::of_plan(alloc, plan)
    }

    /// Return their plan.
    pub(crate) fn plan(&self) -> &Plan {
        &self.plan
    }

    /// Continue both from a road at a step. The run under way has only the cars on a stretch of the road. Fail if it
    /// cannot go on.
    pub(crate) fn restart_on(
        &mut self,
        alloc: Global,
        settings: &Settings,
        step: u32,
        stretch: Stretch,
        road: &Road,
    ) -> Result<(), Fail> {
        let near = cars_on(alloc, road, stretch)?;
        if !self.try_restart(alloc, settings, step, stretch, &near)? {
            return Err(Fail::new("the run must go on from the road"));
        }
        Ok(self.begin_plainly(alloc, settings, step, road)?)
    }

    // Let only the plain steps continue from a road at a step.
    fn begin_plainly(
        &mut self,
        alloc: Global,
        settings: &Settings,
        step: u32,
        road: &Road,
    ) -> Result<(), OutOfMemory> {
        self.totals = nothing(alloc, &self.plan)?;
        self.road = road.copied()?;
        self.settings = copy_of(settings)?;
        self.step = step;
        Ok(())
    }

    /// Let only the run under way continue from a road at a step. Return whether it can.
    pub(crate) fn try_restart(
        &mut self,
        alloc: Global,
        settings: &Settings,
        step: u32,
        stretch: Stretch,
        road: &Road,
    ) -> Result<bool, Fail> {
        let own = Arc::new(alloc, fitting(&self.plan, settings)?)?;
        if step > GREATEST_HORIZON || stretch.end > self.plan.length() {
            return Err(Fail::new("the step and the stretch must not be beyond the end"));
        }
        Ok(self.run.restart_on(alloc, own, step, stretch, road)?)
    }

    /// Use changed settings from the next step on.
    pub(crate) fn change(&mut self, alloc: Global, settings: &Settings) -> Result<(), Fail> {
        let own = Arc::new(alloc, fitting(&self.plan, settings)?)?;
        self.run.change(alloc, own)?;
        self.settings = copy_of(settings)?;
        Ok(())
    }

    /// Use these settings in plain steps, but let cars enter only on a stretch.
    pub(crate) fn close_outside(
        &mut self,
        settings: &Settings,
        stretch: Stretch,
    ) -> Result<(), OutOfMemory> {
        let mut closed = copy_of(settings)?;
        let inlets = self.plan.inlets().iter();
        for (inflow, inlet) in closed.inflows.iter_mut().zip(inlets) {
            if inlet.0 < stretch.first || stretch.end <= inlet.0 {
                *inflow = 0;
            }
        }
        self.settings = closed;
        Ok(())
    }

    /// Make one step of both. The caller announces only a few steps to the run under way, so that it allocates again
    /// and again.
    pub(crate) fn step(&mut self, alloc: Global) -> Result<(), Fail> {
        if self.run.next_step() >= GREATEST_HORIZON {
            return Err(Fail::new("no step may be beyond the maximum horizon"));
        }
        self.run.step(alloc, self.step % 4)?;
        self.step_plainly(alloc)
    }

    // Make only a plain step.
    fn step_plainly(&mut self, alloc: Global) -> Result<(), Fail> {
        let settings = fitting(&self.plan, &self.settings)?;
        let mut meter = Meter::new();
        let done = step_alone(
            alloc, &self.plan, settings, self.step, &self.road, &mut meter,
        )?;
        let counted = counts_in(alloc, &done.input, &done.speeds)?;
        add(&mut self.totals, &counted);
        self.road = done.road;
        self.step = self.step.saturating_add(1);
        Ok(())
    }

    /// Set all counts to zero.
    pub(crate) fn restart_counts(&mut self, alloc: Global) -> Result<(), OutOfMemory> {
        self.totals = nothing(alloc, &self.plan)?;
        self.run.restart_counts();
        Ok(())
    }

    /// Return whether both are at the same step, on the same road, with the same row and counts.
    pub(crate) fn are_same(&self, alloc: Global) -> Result<bool, OutOfMemory> {
        let cars_are = self.have_same_cars(alloc)?;
        let counts_are = self.have_same_counts(alloc)?;
        let rows_are = self.have_same_row(alloc)?;
        Ok(self.run.next_step() == self.step && cars_are && counts_are && rows_are)
    }

    fn have_same_cars(&self, alloc: Global) -> Result<bool, OutOfMemory> {
        let road = self.run.road(alloc)?;
        Ok(road.cars() == self.road.cars())
    }

    fn have_same_counts(&self, alloc: Global) -> Result<bool, OutOfMemory> {
        let totals = self.run.totals(alloc)?;
        Ok(totals == self.totals)
    }

    fn have_same_row(&self, alloc: Global) -> Result<bool, OutOfMemory> {
        let blocks = self.settings.blocks();
        let plain = row_of(alloc, &self.road, blocks, self.plan.length())?;
        let row = self.run.row(alloc)?;
        Ok(row == plain)
    }

    /// Return whether both have the same cars on a stretch, and have counted the same cars there.
    pub(crate) fn are_same_on(&self, alloc: Global, stretch: Stretch) -> Result<bool, OutOfMemory> {
        let cars_are = self.have_same_cars_on(alloc, stretch)?;
        let totals = self.run.totals(alloc)?;
        Ok(cars_are && counts_agree(self.plan.detectors(), stretch, &totals, &self.totals))
    }

    fn have_same_cars_on(&self, alloc: Global, stretch: Stretch) -> Result<bool, OutOfMemory> {
        let road = self.run.road(alloc)?;
        let cars = cars_on(alloc, &road, stretch)?;
        let plain = cars_on(alloc, &self.road, stretch)?;
        Ok(cars.cars() == plain.cars())
    }

    /// Return the road of the plain steps.
    pub(crate) fn road(&self) -> &Road {
        &self.road
    }

    /// Return the counts of the run under way.
    pub(crate) fn totals(&self, alloc: Global) -> Result<Vec<Totals>, OutOfMemory> {
        self.run.totals(alloc)
    }
}

// Begin a run of a plan.
fn run_of(alloc: Global, plan: &Arc<Plan>, settings: &Settings) -> Result<UnderWay, Fail>
    ensures { IfOk result (λ run. run.plan ≡ arc_value plan.now) }
{
    let own = Arc::new(alloc, fitting(plan, settings)?)?;
    let plan = Arc::try_clone(plan)?;
    Ok(UnderWay::new(alloc, plan, own)?)
}

// Copy settings that fit a plan.
fn fitting(plan: &Plan, settings: &Settings) -> Result<Settings, Fail>
    ensures { IfOk result (λ own. Fits plan.now own) }
{
    let own = copy_of(settings)?;
    if !own.fits(plan) {
        return Err(Fail::new("the settings must fit the plan"));
    }
    Ok(own)
}

/// Where two runs are compared: a name and a number for the message, and the number of steps so far.
#[derive(Clone, Copy)]
pub(crate) struct Place<'a> {
    /// The name of the case.
    pub(crate) name: &'a str,
    /// The number of the case.
    pub(crate) number: u32,
    /// The steps so far.
    pub(crate) done: u32,
}

/// Assert that a comparison at a place is right.
pub(crate) fn assert_at(rt: &impl Abort, is_right: bool, place: Place<'_>) {
    let Place { name, number, done } = place;
    assert!(rt; is_right, "{name} {number}, after {done} steps");
}

/// Make this many steps of both. Assert that they are the same before the first step and after each step.
pub(crate) fn assert_same_throughout(
    rt: &impl Abort,
    alloc: Global,
    beside: &mut Beside,
    steps: u32,
    name: &str,
    number: u32,
) -> Result<(), Fail> {
    for done in 0..steps {
        assert_at(rt, beside.are_same(alloc)?, Place { name, number, done });
        beside.step(alloc)?;
    }
    let done = steps;
    assert_at(rt, beside.are_same(alloc)?, Place { name, number, done });
    Ok(())
}
