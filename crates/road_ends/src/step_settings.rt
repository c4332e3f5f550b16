//! The settings of a step.

ghost use Rattle.road_plan.specs.Settings.{Fits};

use road_plan::{Plan, Settings};

// The settings of a step of a plan. They fit the plan.
#[derive(Clone, Copy)]
pub(crate) struct StepSettings<'a> {
    pub(crate) plan: &'a Plan,
    pub(crate) settings: &'a Settings,
    pub(crate) step: u32,
    ghost fits: { Fits plan.now settings.now },
}
