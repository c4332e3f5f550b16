//! Sheets: the intervals of a run up to its horizon, and what is read from them.

ghost use Rattle.std.specs.Prelude.{◌≡◌, ◌≢◌, ◌<◌, ◌≤◌, ◌+◌, ◌*◌, ◌/◌, ◌%◌, IfOk, IfErr, IfSome, IsOk, OnErr, OnOk};
ghost use Rattle.std.specs.Prelude.{None, length, min, replicate, take};
ghost use Rattle.std.specs.Arc.{arc_value};
ghost use Rattle.road_plan.specs.Plan.{IsWithinLimits};
ghost use Rattle.road_plan.specs.declared.limits.TheConstants.{GREATEST_HORIZON};
ghost use Rattle.road_cells.specs.Cars.{cars_of};
ghost use Rattle.road_detector.specs.Passes.{no_totals};
ghost use Rattle.road_ends.specs.Input.{input_speeds};
ghost use Rattle.road_scenario.specs.Faults.{AreInRange};
ghost use Rattle.road_scenario.specs.Touched.{first_touched_step};
ghost use Rattle.road_scenario.specs.Winners.{AreWinners, join};
ghost use Rattle.road_sheet.specs.Drafts.{IsUpTo, draft_start};
ghost use Rattle.road_sheet.specs.Private.Checkpoints.{AreSmall};
ghost use Rattle.road_sheet.specs.Private.Intervals.{GiveSameRun, IsInterval, IsWithinInterval};
ghost use Rattle.road_sheet.specs.Sheets.{IsSheet, opening_sheet, state_of, total_of, next_input, sheet_after_step};
ghost use Rattle.road_sheet.specs.Sheets.{AreWholeIntervals, IsRefusalBy, state_fault, totals_fault};

use crate::checkpoint::Checkpoint;
use crate::draft::Draft;
use crate::faults::SheetFault;
use crate::interval::{INTERVAL_STEPS, Interval};
use crate::query_cache::QueryCache;
use crate::settings_cache::SettingsCache;
use crate::shared_intervals::SharedIntervals;
use crate::simulation::State;
use crate::span_draft::SpanDraft;
use lattice_core::both::Both;
use lattice_core::greatest::Greatest;
use road_cells::Road;
use road_detector::Totals;
use road_detector::laws::{cars_pass_one_by_one, totals_are_bounded};
use road_ends::laws::{cars_stay_on_road, runs_depend_on_earlier_settings};
use road_ends::{StepInput, enter};
use road_plan::{OutOfMemory, Plan};
use road_scenario::Scenario;
use road_scenario::laws::{scenarios_hold_winners, settings_stay_before_touched};
use std::alloc::Global;
use std::marker::Model;
use std::sync::Arc;

/// A scenario, a horizon, and the run up to the horizon. A sheet shows the road at each step up to the horizon, and
/// what the detectors count up to there. It never changes; [`Sheet::draft`] resumes its run in a new sheet.
///
/// The run is stored as intervals of 64 steps. Each has a checkpoint, which is the road at its first step, and what
/// each detector counts in it. Sheets share whole intervals, so resuming a run costs no more at a far horizon.
#[derive(Drop)]
pub struct Sheet {
    pub(crate) plan: Arc<Plan>,
    pub(crate) known: Both<Scenario, Greatest<u32>>,
    pub(crate) intervals: SharedIntervals,
    // The interval that ends at the horizon and is not whole yet.
    pub(crate) open_interval: Interval,
    // The road at the horizon.
    pub(crate) at_horizon: Road,
}

impl Model for Sheet {
    ghost use Rattle.std.specs.Arc.{arc_value};
    ghost use Rattle.std.specs.Coded.{codes};
    ghost use Rattle.road_scenario.specs.Instances.EditOrder.{edits_code};
    ghost use Rattle.road_sheet.specs.Private.Intervals.{IsRunOf};
    ghost use Rattle.road_sheet.specs.Sheets.{Sheet, horizon_of};

    ghost Value = { Sheet };

    ghost coded = { Prim.hlevel (codes, edits_code) };

    ghost view = { λ s. record {
      plan = arc_value s.plan;
      edits = s.known.first;
      horizon = horizon_of s.known.second;
    } };

    ghost invariant = { λ s. IsRunOf
        (record { plan = arc_value s.plan; edits = s.known.first; horizon = horizon_of s.known.second })
        s.intervals s.open_interval s.at_horizon };
}

impl Sheet {
    /// Make the sheet without edits and without a simulated step.
    ///
    /// # Errors
    ///
    /// `OutOfMemory` if an allocation failed.
    pub fn opening(alloc: Global, plan: Arc<Plan>) -> Result<Sheet, OutOfMemory>
        ensures sheet { IfOk result (λ sheet. sheet ≡ opening_sheet (arc_value plan)) }
        ensures within { IsWithinLimits (arc_value plan) }
    {
        let detectors = plan.detectors().len();
        let open_interval = Interval::begin(alloc, Checkpoint::empty(alloc)?, detectors)?;
        let intervals = SharedIntervals::empty(alloc)?;
        Ok(Sheet {
            plan,
            known: Both {
                first: Scenario::empty(alloc),
                second: Greatest::Nothing,
            },
            intervals,
            open_interval,
            at_horizon: Road::empty(alloc),
        })
    }

    /// Return the plan.
    pub fn plan(&self) -> &Arc<Plan>
        ensures { arc_value result.now ≡ self.now.plan }
    {
        &self.plan
    }

    /// Return the scenario: each of its edits fits the plan, and none exceeds another.
    pub fn scenario(&self) -> &Scenario
        ensures scenario { result.now ≡ self.now.edits }
        ensures is_sheet { IsSheet self.now }
    {
        &self.known.first
    }

    /// Return the number of simulated steps, at most 1,048,576. The road is known at each step from 0 to the horizon.
    pub fn horizon(&self) -> u32
        ensures horizon { result ≡ self.now.horizon }
        ensures is_sheet { IsSheet self.now }
    {
        match self.known.second {
            Greatest::Nothing => 0,
            Greatest::Of(step) => step,
        }
    }

    /// Return the road at a step, from the nearest earlier checkpoint.
    ///
    /// # Errors
    ///
    /// `NotSimulated` if the step is above the horizon, else `OutOfMemory` if an allocation failed.
    pub fn state(&self, alloc: Global, step: u32) -> Result<Road, SheetFault>
        ensures state { IfOk result (λ road. road ≡ state_of self.now step) }
        ensures accepted { IfOk result (λ _. state_fault self.now step ≡ None) }
        ensures refused { IfErr result (λ fault. IsRefusalBy (state_fault self.now step) fault) }
    {
        if step <= self.horizon() {
            let kept = self.kept_state(alloc, step)?;
            if kept.step == step {
                return Ok(kept.road);
            }
        }
        QueryCache::new().state(alloc, self, step)
    }

    /// Return what a detector counts in the steps from `from` to before `to`. The counts of whole intervals are stored,
    /// so reading them does not fail.
    ///
    /// # Errors
    ///
    /// `NoDetector` if the plan has no such detector, else `Range` if `from` is above `to`, else `NotSimulated`
    /// if `to` is above the horizon, else `OutOfMemory` if an allocation failed.
    pub fn totals(
        &self,
        alloc: Global,
        detector: u32,
        from: u32,
        to: u32,
    ) -> Result<Totals, SheetFault>
        ensures totals { IfOk result (λ totals. totals ≡ total_of self.now detector from to) }
        ensures accepted { IfOk result (λ _. totals_fault self.now detector from to ≡ None) }
        ensures refused { IfErr result (λ fault. IsRefusalBy (totals_fault self.now detector from to) fault) }
        ensures kept { totals_fault self.now detector from to ≡ None → AreWholeIntervals self.now from to
            → IsOk result }
    {
        QueryCache::new().totals(alloc, self, detector, from, to)
    }

    // Copy the last stored state that is not after a step: that at the horizon, or that at the first step of the step's
    // interval.
    pub(crate) fn kept_state(&self, alloc: Global, step: u32) -> Result<State, OutOfMemory>
        requires { step ≤ self.now.horizon }
        ensures before { IfOk result (λ state. state.step ≤ step) }
        ensures road { IfOk result (λ state. state.road ≡ state_of self.now state.step) }
    {
        if step == self.horizon() {
            let road = self.at_horizon.copied()?;
            return Ok(State { step, road });
        }
        let interval = step / INTERVAL_STEPS;
        let road = self.interval(interval as usize).start.road(alloc)?;
        Ok(State {
            step: interval * INTERVAL_STEPS,
            road,
        })
    }

    // Return what a detector counts in all simulated steps of an interval.
    pub(crate) fn interval_totals(&self, interval: u32, detector: u32) -> Totals
        requires in_plan { detector < length self.now.plan.detectors }
        requires simulated { INTERVAL_STEPS * interval ≤ self.now.horizon }
        ensures { result ≡ total_of self.now detector (INTERVAL_STEPS * interval)
            (min (INTERVAL_STEPS * interval + INTERVAL_STEPS) self.now.horizon) }
    {
        self.interval(interval as usize).totals[detector as usize]
    }

    // Return an interval, whole or open.
    fn interval(&self, interval: usize) -> &Interval
        requires { INTERVAL_STEPS * interval ≤ self.now.horizon }
        ensures { IsInterval self.now.plan self.now.edits (INTERVAL_STEPS * interval)
            (min (INTERVAL_STEPS * interval + INTERVAL_STEPS) self.now.horizon) result.now }
    {
        if interval < self.whole_intervals() {
            self.intervals.get(interval)
        } else {
            &self.open_interval
        }
    }

    fn whole_intervals(&self) -> usize
        ensures { result ≡ self.now.horizon / INTERVAL_STEPS }
    {
        (self.horizon() / INTERVAL_STEPS) as usize
    }

    /// Begin a draft of this sheet's edits with a scenario joined in. It resumes the run of this sheet at the horizon
    /// if that is `keep`, and else at the checkpoint at or before `keep`.
    ///
    /// The scenario must fit the plan. `keep` must not be above the horizon, nor above the first step at which the
    /// joined scenario sets different numbers.
    ///
    /// # Errors
    ///
    /// `OutOfMemory` if an allocation failed, or an interval already has as many owners as it can have.
    pub fn draft(&self, alloc: Global, scenario: &Scenario, keep: u32) -> Result<Draft, OutOfMemory>
        requires fits { AreInRange self.now.plan scenario.now }
        requires simulated { keep ≤ self.now.horizon }
        requires untouched { IsUpTo (first_touched_step self.now.edits (join self.now.edits scenario.now)) keep }
        ensures { IfOk result (λ draft. draft ≡ record {
          plan = self.now.plan;
          edits = join self.now.edits scenario.now;
          horizon = draft_start self.now.horizon keep;
        }) }
    {
        let joined = self.scenario().joined(scenario)?;
        self.draft_of(alloc, joined, keep)
    }

    /// Begin a draft as [`Sheet::draft`] does, but of a scenario that is joined already. It must fit the plan, and
    /// `keep` must meet the conditions stated there.
    ///
    /// # Errors
    ///
    /// `OutOfMemory` if an allocation failed, or an interval already has as many owners as it can have.
    pub fn draft_of(&self, alloc: Global, joined: Scenario, keep: u32) -> Result<Draft, OutOfMemory>
        requires fits { AreInRange self.now.plan joined }
        requires simulated { keep ≤ self.now.horizon }
        requires untouched { IsUpTo (first_touched_step self.now.edits joined) keep }
        ensures { IfOk result (λ draft. draft ≡ record {
          plan = self.now.plan;
          edits = joined;
          horizon = draft_start self.now.horizon keep;
        }) }
    {
        scenarios_hold_winners(&joined);
        settings_stay_before_touched();
        runs_depend_on_earlier_settings(&self.plan);
        let sheet = if keep == self.horizon() {
            self.resume_at_horizon(alloc, joined)?
        } else {
            self.resume_at_checkpoint(alloc, joined, keep / INTERVAL_STEPS)?
        };
        Ok(Draft { sheet })
    }

    // Make a sheet with other edits that give the same run up to the horizon.
    fn resume_at_horizon(&self, alloc: Global, scenario: Scenario) -> Result<Sheet, OutOfMemory>
        requires winners { AreWinners scenario }
        requires fits { AreInRange self.now.plan scenario }
        requires same { GiveSameRun self.now.plan self.now.edits scenario self.now.horizon }
        ensures { IfOk result (λ sheet. sheet ≡ record {
          plan = self.now.plan;
          edits = scenario;
          horizon = self.now.horizon;
        }) }
    {
        let (open_interval, at_horizon) = copy_open(&self.open_interval, &self.at_horizon)?;
        let (plan, intervals) = share_with_plan(
            alloc,
            &self.plan,
            &self.intervals,
            self.whole_intervals(),
        )?;
        let known = Both {
            first: scenario,
            second: Greatest::Of(self.horizon()),
        };
        Ok(Sheet {
            plan,
            known,
            intervals,
            open_interval,
            at_horizon,
        })
    }

    // Make a sheet with other edits that give the same run up to an interval's checkpoint. The checkpoint's step is the
    // new horizon.
    fn resume_at_checkpoint(
        &self,
        alloc: Global,
        scenario: Scenario,
        interval: u32,
    ) -> Result<Sheet, OutOfMemory>
        requires winners { AreWinners scenario }
        requires fits { AreInRange self.now.plan scenario }
        requires simulated { INTERVAL_STEPS * interval ≤ self.now.horizon }
        requires same { GiveSameRun self.now.plan self.now.edits scenario (INTERVAL_STEPS * interval) }
        ensures { IfOk result (λ sheet. sheet ≡ record {
          plan = self.now.plan;
          edits = scenario;
          horizon = INTERVAL_STEPS * interval;
        }) }
    {
        let start = &self.interval(interval as usize).start;
        let (open_interval, at_horizon) = start_from(alloc, start, self.plan.detectors().len())?;
        let (plan, intervals) = share_with_plan(
            alloc,
            &self.plan,
            &self.intervals,
            interval as usize,
        )?;
        let known = Both {
            first: scenario,
            second: Greatest::Of(interval * INTERVAL_STEPS),
        };
        Ok(Sheet {
            plan,
            known,
            intervals,
            open_interval,
            at_horizon,
        })
    }

    // Make the input of the next step.
    pub(crate) fn next_input(&self, alloc: Global) -> Result<Arc<StepInput>, OutOfMemory>
        ensures { IfOk result (λ input. arc_value input ≡ next_input self.now) }
    {
        let step = self.horizon();
        let settings = self.scenario().settings_at(alloc, &self.plan, step)?;
        enter(alloc, &self.plan, settings, step, &self.at_horizon)
    }

    // Return the road at the horizon.
    pub(crate) fn road(&self) -> &Road
        ensures { result.now ≡ state_of self.now self.now.horizon }
    {
        &self.at_horizon
    }

    // Split the sheet into a draft that grows by spans, and the road at the horizon.
    pub(crate) fn by_spans(self) -> (SpanDraft, Road)
        ensures draft { result.0 ≡ self }
        ensures road { result.1 ≡ state_of self self.horizon }
    {
        let horizon = self.horizon();
        let Sheet {
            plan,
            known,
            intervals,
            open_interval,
            at_horizon,
        } = self;
        let draft = SpanDraft {
            plan,
            scenario: known.first,
            horizon,
            intervals,
            open_interval,
            settings: SettingsCache::none(),
        };
        (draft, at_horizon)
    }

    // Add one more step, given the road after it. Everything that can fail is done before the sheet is changed.
    pub(crate) fn extend(
        &mut self,
        alloc: Global,
        input: &StepInput,
        speeds: &[u8],
        road: Road,
    ) -> Result<(), OutOfMemory>
        requires input { input.now ≡ next_input self.old }
        requires speeds { speeds.now ≡ input_speeds input.now }
        requires within_limit { self.old.horizon < GREATEST_HORIZON }
        requires road { road ≡ state_of self.old (self.old.horizon + 1) }
        ensures grown { OnOk result (self.new ≡ sheet_after_step self.old) }
        ensures unchanged { OnErr result (self.new ≡ self.old) }
    {
        if (self.horizon() + 1) % INTERVAL_STEPS == 0 {
            return self.step_to_end(alloc, input, speeds, road);
        }
        self.step_within(input, speeds, road);
        Ok(())
    }

    // Add one more step that does not end the interval.
    fn step_within(&mut self, input: &StepInput, speeds: &[u8], road: Road)
        requires input { input.now ≡ next_input self.old }
        requires speeds { speeds.now ≡ input_speeds input.now }
        requires within_limit { self.old.horizon < GREATEST_HORIZON }
        requires within_interval { (self.old.horizon + 1) % INTERVAL_STEPS ≢ 0 }
        requires road { road ≡ state_of self.old (self.old.horizon + 1) }
        ensures { self.new ≡ sheet_after_step self.old }
    {
        cars_pass_one_by_one(&self.plan);
        totals_are_bounded(&self.plan);
        let horizon = self.horizon() + 1;
        self.open_interval.count(input, speeds);
        self.at_horizon = road;
        self.known.second = Greatest::Of(horizon);
    }

    // Begin an interval at a road whose cars fit into a checkpoint.
    fn next_interval(&self, alloc: Global, road: &Road) -> Result<Interval, OutOfMemory>
        requires { AreSmall (cars_of road.now) }
        ensures start { IfOk result (λ interval. interval.start ≡ road.now) }
        ensures totals { IfOk result (λ interval. interval.totals.items
            ≡ replicate (length self.now.plan.detectors) no_totals) }
    {
        let detectors = self.plan.detectors().len();
        let kept = Checkpoint::of(alloc, road)?;
        Interval::begin(alloc, kept, detectors)
    }

    // Add one more step that ends the interval.
    fn step_to_end(
        &mut self,
        alloc: Global,
        input: &StepInput,
        speeds: &[u8],
        road: Road,
    ) -> Result<(), OutOfMemory>
        requires input { input.now ≡ next_input self.old }
        requires speeds { speeds.now ≡ input_speeds input.now }
        requires within_limit { self.old.horizon < GREATEST_HORIZON }
        requires at_end { (self.old.horizon + 1) % INTERVAL_STEPS ≡ 0 }
        requires road { road ≡ state_of self.old (self.old.horizon + 1) }
        ensures grown { OnOk result (self.new ≡ sheet_after_step self.old) }
        ensures unchanged { OnErr result (self.new ≡ self.old) }
    {
        cars_pass_one_by_one(&self.plan);
        totals_are_bounded(&self.plan);
        let mut ended = self.open_interval.copied()?;
        ended.count(input, speeds);
        self.end_interval(alloc, self.horizon() + 1, ended, road)
    }

    // End the interval at a step, given the interval up to there and the road there. Everything that can fail is done
    // before the sheet is changed.
    fn end_interval(
        &mut self,
        alloc: Global,
        end: u32,
        ended: Interval,
        road: Road,
    ) -> Result<(), OutOfMemory>
        requires within { IsWithinInterval self.old end }
        requires at_end { end % INTERVAL_STEPS ≡ 0 }
        requires road { road ≡ state_of self.old end }
        requires ended { IsInterval self.old.plan self.old.edits
            (INTERVAL_STEPS * (self.old.horizon / INTERVAL_STEPS)) end ended }
        ensures grown { OnOk result (self.new ≡ record self.old { horizon = end }) }
        ensures unchanged { OnErr result (self.new ≡ self.old) }
    {
        cars_stay_on_road(&self.plan);
        let next = self.next_interval(alloc, &road)?;
        self.intervals.push(alloc, ended)?;
        self.open_interval = next;
        self.at_horizon = road;
        self.known.second = Greatest::Of(end);
        Ok(())
    }
}

// Begin an interval at a checkpoint, and return the road there.
fn start_from(
    alloc: Global,
    start: &Checkpoint,
    detectors: usize,
) -> Result<(Interval, Road), OutOfMemory>
    ensures start { IfOk result (λ first. first.0.start ≡ start.now) }
    ensures totals { IfOk result (λ first. first.0.totals.items ≡ replicate detectors no_totals) }
    ensures road { IfOk result (λ first. first.1 ≡ start.now) }
{
    let road = start.road(alloc)?;
    let interval = Interval::begin(alloc, start.share()?, detectors)?;
    Ok((interval, road))
}

fn copy_open(interval: &Interval, road: &Road) -> Result<(Interval, Road), OutOfMemory>
    ensures start { IfOk result (λ both. both.0.start ≡ interval.now.start) }
    ensures totals { IfOk result (λ both. both.0.totals.items ≡ interval.now.totals.items) }
    ensures road { IfOk result (λ both. both.1 ≡ road.now) }
{
    let copy = interval.copied()?;
    Ok((copy, road.copied()?))
}

// Share a plan, and the first `count` of these intervals.
fn share_with_plan(
    alloc: Global,
    plan: &Arc<Plan>,
    intervals: &SharedIntervals,
    count: usize,
) -> Result<(Arc<Plan>, SharedIntervals), OutOfMemory>
    requires { count ≤ length intervals.now }
    ensures plan { IfOk result (λ shared. arc_value shared.0 ≡ arc_value plan.now) }
    ensures intervals { IfOk result (λ shared. shared.1 ≡ take count intervals.now) }
{
    let first = intervals.first(alloc, count)?;
    Ok((Arc::try_clone(plan)?, first))
}
