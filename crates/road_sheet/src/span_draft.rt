//! Drafts that grow by several steps under the same settings.

ghost use Rattle.std.specs.Prelude.{◌≡◌, ◌≢◌, ◌<◌, ◌≤◌, ◌+◌, ◌%◌, IfOk, OnErr, OnOk};
ghost use Rattle.road_plan.specs.declared.limits.TheConstants.{GREATEST_HORIZON};
ghost use Rattle.road_ends.specs.Span.{span_road};
ghost use Rattle.road_detector.specs.Passes.{span_totals};
ghost use Rattle.road_columns.specs.RoadOrRun.{road_now};
ghost use Rattle.road_sheet.specs.Private.Intervals.{AreTotals, IsWithinInterval};
ghost use Rattle.road_sheet.specs.Sheets.{state_of};
ghost use Rattle.road_sheet.specs.Spans.{IsNextSpan, sheet_after_span};

use crate::checkpoint::Checkpoint;
use crate::interval::{INTERVAL_STEPS, Interval};
use crate::settings_cache::SettingsCache;
use crate::shared_intervals::SharedIntervals;
use crate::sheet::Sheet;
use lattice_core::both::Both;
use lattice_core::greatest::Greatest;
use road_cells::Road;
use road_columns::{RoadOrRun, SpanOutcome};
use road_detector::Totals;
use road_detector::laws::totals_are_bounded;
use road_ends::Span;
use road_ends::laws::cars_stay_on_road;
use road_plan::{OutOfMemory, Plan};
use road_scenario::Scenario;
use std::alloc::Global;
use std::marker::Model;
use std::sync::Arc;

/// A draft that grows by spans. It does not hold the road at its horizon: whoever runs the spans holds it, so that one
/// run can continue from span to span. Contracts see the sheet so far.
#[derive(Drop)]
pub struct SpanDraft {
    pub(crate) plan: Arc<Plan>,
    pub(crate) scenario: Scenario,
    pub(crate) horizon: u32,
    pub(crate) intervals: SharedIntervals,
    // The interval that ends at the horizon and is not whole yet.
    pub(crate) open_interval: Interval,
    pub(crate) settings: SettingsCache,
}

impl Model for SpanDraft {
    ghost use Rattle.std.specs.Arc.{arc_value};
    ghost use Rattle.std.specs.Coded.{codes};
    ghost use Rattle.road_scenario.specs.Instances.EditOrder.{edits_code};
    ghost use Rattle.road_sheet.specs.Sheets.{Sheet};

    ghost Value = { Sheet };

    ghost coded = { Prim.hlevel (codes, edits_code) };

    ghost view = { λ d. record {
      plan = arc_value d.plan;
      edits = d.scenario;
      horizon = d.horizon;
    } };

    ghost use Rattle.road_sheet.specs.Private.Drafts.{IsDraft};

    ghost invariant = { IsDraft };
}

impl SpanDraft {
    /// Return the number of steps that are simulated so far.
    pub fn horizon(&self) -> u32
        ensures { result ≡ self.now.horizon }
    {
        let SpanDraft { horizon, .. } = self;
        *horizon
    }

    /// Find the steps that come next under the same settings: at least one, and none past the step `to` or the end of
    /// the interval of 64 steps. `to` must be above the horizon, and at most 1,048,576.
    ///
    /// # Errors
    ///
    /// `OutOfMemory` if an allocation failed, or the plan or the settings already have as many owners as they can have.
    /// The draft is then unchanged.
    pub fn next_span(&mut self, alloc: Global, to: u32) -> Result<Span, OutOfMemory>
        requires before { self.old.horizon < to }
        requires within_limit { to ≤ GREATEST_HORIZON }
        ensures next { IfOk result (λ span. IsNextSpan self.old span) }
        ensures before { IfOk result (λ span. self.old.horizon + span.steps ≤ to) }
        ensures unchanged { self.new ≡ self.old }
    {
        let first = self.horizon;
        let end = (first - first % INTERVAL_STEPS + INTERVAL_STEPS).min(to);
        let settings = self
            .settings
            .at_step(alloc, &self.plan, &self.scenario, first)?;
        let until = self.settings.until(first, end);
        let plan = Arc::try_clone(&self.plan)?;
        Ok(Span::new(plan, settings, first, until - first))
    }

    /// Add the steps of a span at once, given its outcome. The span must be of the next steps, and the outcome that of
    /// running it from the road at the horizon.
    ///
    /// # Errors
    ///
    /// `OutOfMemory` if an allocation failed. The draft is then unchanged.
    pub fn push_span(
        &mut self,
        alloc: Global,
        span: &Span,
        ran: &SpanOutcome,
    ) -> Result<(), OutOfMemory>
        requires next { IsNextSpan self.old span.now }
        requires road { road_now ran.now.road ≡ span_road span.now (state_of self.old self.old.horizon) }
        requires totals { ran.now.totals.items ≡ span_totals span.now (state_of self.old self.old.horizon) }
        ensures grown { OnOk result (self.new ≡ sheet_after_span span.now self.old) }
        ensures unchanged { OnErr result (self.new ≡ self.old) }
    {
        let end = self.horizon + span.steps();
        if end % INTERVAL_STEPS != 0 {
            self.add_within(end, &ran.totals);
            return Ok(());
        }
        match &ran.road {
            RoadOrRun::Road(road) => self.end_interval(alloc, end, &ran.totals, road),
            RoadOrRun::Run(run) => {
                let road = run.road(alloc)?;
                self.end_interval(alloc, end, &ran.totals, &road)
            }
        }
    }

    // Add the steps up to one that does not end the interval.
    fn add_within(&mut self, end: u32, totals: &[Totals])
        requires within { IsWithinInterval self.old end }
        requires within_interval { end % INTERVAL_STEPS ≢ 0 }
        requires totals { AreTotals self.old.plan self.old.edits self.old.horizon end totals.now }
        ensures { self.new ≡ record self.old { horizon = end } }
    {
        totals_are_bounded(&self.plan);
        self.open_interval.add(totals);
        self.horizon = end;
    }

    // Add the steps up to the end of the interval, given the road there. Everything that can fail is done before the
    // draft is changed.
    fn end_interval(
        &mut self,
        alloc: Global,
        end: u32,
        totals: &[Totals],
        road: &Road,
    ) -> Result<(), OutOfMemory>
        requires within { IsWithinInterval self.old end }
        requires at_end { end % INTERVAL_STEPS ≡ 0 }
        requires totals { AreTotals self.old.plan self.old.edits self.old.horizon end totals.now }
        requires road { road.now ≡ state_of self.old end }
        ensures grown { OnOk result (self.new ≡ record self.old { horizon = end }) }
        ensures unchanged { OnErr result (self.new ≡ self.old) }
    {
        totals_are_bounded(&self.plan);
        cars_stay_on_road(&self.plan);
        let mut ended = self.open_interval.copied()?;
        ended.add(totals);
        let start = Checkpoint::of(alloc, road)?;
        let next = Interval::begin(alloc, start, self.plan.detectors().len())?;
        self.intervals.push(alloc, ended)?;
        self.open_interval = next;
        self.horizon = end;
        Ok(())
    }

    /// Return the sheet, with the road at the horizon.
    ///
    /// # Errors
    ///
    /// `OutOfMemory` if an allocation failed.
    pub fn sheet(self, alloc: Global, road: RoadOrRun) -> Result<Sheet, OutOfMemory>
        requires { road_now road ≡ state_of self self.horizon }
        ensures { IfOk result (λ sheet. sheet ≡ self) }
    {
        let at_horizon = road.into_road(alloc)?;
        let SpanDraft {
            plan,
            scenario,
            horizon,
            intervals,
            open_interval,
            ..
        } = self;
        let known = Both {
            first: scenario,
            second: Greatest::Of(horizon),
        };
        Ok(Sheet {
            plan,
            known,
            intervals,
            open_interval,
            at_horizon,
        })
    }
}
