//! The input of a step, and the speeds of its cars.

ghost use Rattle.std.specs.Prelude.{◌≡◌, ◌≤◌, ℕ, length, IfOk};
ghost use Rattle.std.specs.Arc.{arc_value};
ghost use Rattle.road_plan.specs.Plan.{IsWithinLimits};
ghost use Rattle.road_plan.specs.declared.limits.TheConstants.{GREATEST_LENGTH};
ghost use Rattle.road_plan.specs.Settings.{Fits};
ghost use Rattle.road_words.specs.Words.{word};
ghost use Rattle.road_ends.specs.Input.{input_of, input_speeds};

mod pieces;
pub(crate) mod sameness;

use crate::OutOfMemory;
use crate::entries::road_with_entries;
use crate::pass::speeds;
use crate::step_settings::StepSettings;
use road_cells::Road;
use road_plan::{Plan, Settings};
use road_words::{PlanWords, Words};
use std::alloc::Global;
use std::marker::Model;
use std::sync::Arc;

/// The input of a step: all that is needed to compute it, for one worker or for many. It never changes while it has
/// several owners.
#[derive(Drop)]
pub struct StepInput {
    plan: Arc<Plan>,
    settings: Settings,
    step: u32,
    road: Road,
}

impl Model for StepInput {
    ghost use Rattle.std.specs.Prelude.{◌≤◌, length};
    ghost use Rattle.std.specs.Arc.{arc_value};
    ghost use Rattle.road_plan.specs.Plan.{IsWithinLimits};
    ghost use Rattle.road_plan.specs.Settings.{Fits};
    ghost use Rattle.road_ends.specs.Input.{StepInput};

    ghost Value = { StepInput };

    ghost view = { λ input. record
        { plan = arc_value input.plan; settings = input.settings; step = input.step; road = input.road } };

    ghost invariant = { λ input. IsWithinLimits (arc_value input.plan)
        × Fits (arc_value input.plan) input.settings
        × (length input.road ≤ (arc_value input.plan).cells) };
}

impl StepInput {
    /// Return the number of the step.
    pub fn step(&self) -> u32
        ensures { result ≡ self.now.step }
    {
        let StepInput { step, .. } = self;
        *step
    }

    /// Return the road with the cars that have entered in this step, before they move.
    pub fn road(&self) -> &Road
        ensures road { result.now ≡ self.now.road }
        ensures on_road { length self.now.road ≤ self.now.plan.cells }
        ensures short { length self.now.road ≤ GREATEST_LENGTH }
    {
        &self.road
    }

    /// Return the plan.
    pub fn plan(&self) -> &Plan
        ensures plan { result.now ≡ self.now.plan }
        ensures within { IsWithinLimits self.now.plan }
    {
        &self.plan
    }

    /// Return the settings of the step.
    pub fn settings(&self) -> &Settings
        ensures settings { result.now ≡ self.now.settings }
        ensures fits { Fits self.now.plan self.now.settings }
    {
        &self.settings
    }

    /// Return the random words of the plan.
    pub fn words(&self) -> PlanWords
        ensures { (stream place : ℕ) →
            ⟦<PlanWords as Words>⟧.word_of result stream place ≡ word self.now.plan.words stream place }
    {
        PlanWords::of(&self.plan)
    }

    /// Compute the new speeds of all cars of the step, in their order.
    ///
    /// # Errors
    ///
    /// `OutOfMemory` if the allocation of their list failed.
    pub fn speeds(&self, alloc: Global) -> Result<Vec<u8>, OutOfMemory>
        ensures { IfOk result (λ new. new.items ≡ input_speeds self.now) }
    {
        speeds(alloc, self.at(), &self.road)
    }

    // Return the plan, the settings and the number of the step.
    fn at(&self) -> StepSettings<'_>
        ensures plan { result.plan.now ≡ self.now.plan }
        ensures settings { result.settings.now ≡ self.now.settings }
        ensures step { result.step ≡ self.now.step }
    {
        StepSettings {
            plan: &self.plan,
            settings: &self.settings,
            step: self.step,
        }
    }
}

/// Make the input of a step: the road with the cars that enter in the step, with the plan, the settings and the step.
/// The settings must fit the plan.
///
/// # Errors
///
/// `OutOfMemory` if the allocation of the new road or of the input failed, or if the plan can have no more owners.
pub fn enter(
    alloc: Global,
    plan: &Arc<Plan>,
    settings: Settings,
    step: u32,
    road: &Road,
) -> Result<Arc<StepInput>, OutOfMemory>
    requires fits { Fits (arc_value plan.now) settings }
    ensures { IfOk result (λ input. arc_value input ≡ input_of (arc_value plan.now) settings step road.now) }
{
    let at = StepSettings {
        plan,
        settings: &settings,
        step,
    };
    let road = road_with_entries(alloc, at, road)?;
    let plan = Arc::try_clone(plan)?;
    let input = StepInput {
        plan,
        settings,
        step,
        road,
    };
    Ok(Arc::new(alloc, input)?)
}
