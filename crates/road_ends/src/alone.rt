//! The whole step, computed by a single caller.

ghost use Rattle.std.specs.Prelude.{◌≡◌, ◌+◌, min, IfOk, OnOk, OnErr};
ghost use Rattle.std.specs.Arc.{arc_value};
ghost use Rattle.road_plan.specs.Settings.{Fits};
ghost use Rattle.road_ends.specs.Input.{input_of, input_speeds};
ghost use Rattle.road_ends.specs.Run.{road_after_step};

use crate::OutOfMemory;
use crate::input::{StepInput, enter};
use crate::meter::Meter;
use crate::step::finish;
use road_cells::Road;
use road_plan::{Plan, Settings};
use std::alloc::Global;
use std::sync::Arc;

/// A computed step.
#[derive(Drop)]
pub struct Stepped {
    /// The input of the step.
    pub input: Arc<StepInput>,
    /// The new speeds of the cars, in the order of the cars.
    pub speeds: Vec<u8>,
    /// The road after the step.
    pub road: Road,
}

/// Compute one whole step of the road: entries, speeds, motion, deletion. The settings must fit the plan. The meter
/// counts the step once it is computed.
///
/// # Errors
///
/// `OutOfMemory` if an allocation failed: one of [`enter`], that of the speeds, or that of the new road. The meter is
/// then unchanged.
pub fn step_alone(
    alloc: Global,
    plan: &Arc<Plan>,
    settings: Settings,
    step: u32,
    road: &Road,
    meter: &mut Meter,
) -> Result<Stepped, OutOfMemory>
    requires { Fits (arc_value plan.now) settings }
    ensures input { IfOk result (λ done. arc_value done.input ≡ input_of (arc_value plan.now) settings step road.now) }
    ensures speeds { IfOk result (λ done. done.speeds.items
        ≡ input_speeds (input_of (arc_value plan.now) settings step road.now)) }
    ensures road { IfOk result (λ done. done.road ≡ road_after_step (arc_value plan.now) settings step road.now) }
    ensures counted { OnOk result (meter.new ≡ min (meter.old + 1) u64.MAX) }
    ensures kept { OnErr result (meter.new ≡ meter.old) }
{
    let input = enter(alloc, plan, settings, step, road)?;
    let speeds = input.speeds(alloc)?;
    let road = finish(alloc, &input, &speeds)?;
    meter.tick();
    Ok(Stepped {
        input,
        speeds,
        road,
    })
}
