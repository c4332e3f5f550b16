//! States of a run, and their rows.

ghost use Rattle.std.specs.Prelude.{◌≡◌, IfOk, string_bytes};
ghost use Rattle.std.specs.Arc.{arc_value};
ghost use Rattle.road_scenario.specs.Faults.{AreInRange};
ghost use Rattle.road_sheet.specs.Shown.{run_at, row_at};

use road_cells::Road;
use road_detector::laws::cars_have_digits;
use road_detector::row_text;
use road_plan::{OutOfMemory, Plan};
use road_scenario::Scenario;
use std::alloc::Global;
use std::sync::Arc;

/// A road at a step.
#[derive(Drop)]
pub struct State {
    /// The step.
    pub step: u32,
    /// The road.
    pub road: Road,
}

/// Write the row of a state, with the blocks of its step.
///
/// The scenario must fit the plan, and the state must be one of the run of the scenario's edits.
///
/// # Errors
///
/// `OutOfMemory` if an allocation failed.
#[tactic(auto, unfolding(crate::specs::Shown::row_at))]
pub fn row_of(
    alloc: Global,
    plan: &Arc<Plan>,
    scenario: &Scenario,
    state: &State,
) -> Result<String, OutOfMemory>
    requires fits { AreInRange (arc_value plan.now) scenario.now }
    requires run { state.now.road ≡ run_at (arc_value plan.now) scenario.now state.now.step }
    ensures { IfOk result (λ text. string_bytes text ≡ row_at (arc_value plan.now) scenario.now state.now.step) }
{
    cars_have_digits(plan);
    let settings = scenario.settings_at(alloc, plan, state.step)?;
    row_text(alloc, &state.road, settings.blocks(), plan.length())
}
