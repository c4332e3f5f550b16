//! Several steps under the same settings.

ghost use Rattle.std.specs.Prelude.{◌≡◌, ◌↔◌, ◌+◌, ◌≤◌, IfOk, IsTrue};
ghost use Rattle.std.specs.Arc.{arc_value};
ghost use Rattle.road_plan.specs.Plan.{IsWithinLimits};
ghost use Rattle.road_plan.specs.Settings.{Fits};
ghost use Rattle.road_plan.specs.declared.limits.TheConstants.{GREATEST_HORIZON};

use crate::OutOfMemory;
use crate::input::sameness::{are_same_settings, is_same_plan};
use road_plan::limits::GREATEST_LENGTH;
use road_plan::{Plan, Settings};
use std::marker::Model;
use std::sync::Arc;

/// Steps of a plan, one after another, under the same settings.
#[derive(Drop)]
pub struct Span {
    plan: Arc<Plan>,
    settings: Arc<Settings>,
    step: u32,
    steps: u32,
}

impl Model for Span {
    ghost use Rattle.std.specs.Prelude.{◌≤◌, ◌+◌};
    ghost use Rattle.std.specs.Arc.{arc_value};
    ghost use Rattle.road_plan.specs.Plan.{IsWithinLimits};
    ghost use Rattle.road_plan.specs.Settings.{Fits};
    ghost use Rattle.road_plan.specs.declared.limits.TheConstants.{GREATEST_HORIZON};
    ghost use Rattle.road_ends.specs.Span.{Span};

    ghost Value = { Span };

    ghost view = { λ span. record
        { plan = arc_value span.plan; settings = arc_value span.settings; step = span.step; steps = span.steps } };

    ghost invariant = { λ span. IsWithinLimits (arc_value span.plan)
        × Fits (arc_value span.plan) (arc_value span.settings)
        × (span.step + span.steps ≤ GREATEST_HORIZON) };
}

impl Span {
    /// Make a span of `steps` steps from `step` on. The settings must fit the plan, and the steps must end at 1,048,576
    /// or before. It does not allocate.
    pub fn new(plan: Arc<Plan>, settings: Arc<Settings>, step: u32, steps: u32) -> Span
        requires fits { Fits (arc_value plan) (arc_value settings) }
        requires within_limit { step + steps ≤ GREATEST_HORIZON }
        ensures { result ≡ record
            { plan = arc_value plan; settings = arc_value settings; step = step; steps = steps } }
    {
        prove!(plan.length() <= GREATEST_LENGTH);
        Span {
            plan,
            settings,
            step,
            steps,
        }
    }

    /// Return the plan.
    pub fn plan(&self) -> &Arc<Plan>
        ensures plan { arc_value result.now ≡ self.now.plan }
        ensures within { IsWithinLimits self.now.plan }
    {
        &self.plan
    }

    /// Return the settings.
    pub fn settings(&self) -> &Arc<Settings>
        ensures settings { arc_value result.now ≡ self.now.settings }
        ensures fits { Fits self.now.plan self.now.settings }
    {
        &self.settings
    }

    /// Return the number of the first step.
    pub fn step(&self) -> u32
        ensures { result ≡ self.now.step }
    {
        let Span { step, .. } = self;
        *step
    }

    /// Return the number of steps. They end at 1,048,576 or before.
    pub fn steps(&self) -> u32
        ensures steps { result ≡ self.now.steps }
        ensures within_limit { self.now.step + self.now.steps ≤ GREATEST_HORIZON }
    {
        let Span { steps, .. } = self;
        *steps
    }

    /// Make an equal span, which shares the plan and the settings.
    ///
    /// # Errors
    ///
    /// `OutOfMemory` if the plan or the settings can have no more owners.
    pub fn copied(&self) -> Result<Span, OutOfMemory>
        ensures { IfOk result (λ copy. copy ≡ self.now) }
    {
        let plan = Arc::try_clone(&self.plan)?;
        let settings = Arc::try_clone(&self.settings)?;
        Ok(Span {
            plan,
            settings,
            step: self.step,
            steps: self.steps,
        })
    }

    /// Return whether two spans have the same steps, plan and settings. It does not allocate.
    pub fn same(&self, other: &Span) -> bool
        ensures { IsTrue result ↔ (self.now ≡ other.now) }
    {
        self.step == other.step
            && self.steps == other.steps
            && is_same_plan(&self.plan, &other.plan)
            && are_same_settings(&self.settings, &other.settings)
    }
}
