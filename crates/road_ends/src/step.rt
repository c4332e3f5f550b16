//! The road after a step: motion, then deletion.

ghost use Rattle.std.specs.Prelude.{◌≡◌, IfOk};
ghost use Rattle.road_rules.specs.Motion.{array_after_motion_at};
ghost use Rattle.road_ends.specs.Input.{input_next, input_speeds};
ghost use Rattle.road_ends.specs.Run.{road_before_exit};

use crate::OutOfMemory;
use crate::input::StepInput;
use road_cells::Road;
use road_plan::Plan;
use road_rules::moved;
use std::alloc::Global;

/// Delete the cars in the road's deleted zone or past it. It does not allocate.
pub fn leave(plan: &Plan, road: Road) -> Road
    ensures { result ≡ road_before_exit plan.now road }
{
    let end = plan.length() - plan.exit();
    let mut cars = road.into_cars();
    let staying = cars.partition_point(|car| car.cell < end);
    cars.truncate(staying);
    Road::of(cars)
}

/// Make the road after a step, from its input and the new speeds of its cars: motion, then deletion. The speeds must be
/// those that [`StepInput::speeds`] returns.
///
/// # Errors
///
/// `OutOfMemory` if the allocation of the new road failed.
pub fn finish(alloc: Global, input: &StepInput, speeds: &[u8]) -> Result<Road, OutOfMemory>
    requires { speeds.now ≡ input_speeds input.now }
    ensures step { IfOk result (λ later. later ≡ input_next input.now) }
    ensures parts { IfOk result (λ later. later
        ≡ road_before_exit input.now.plan (array_after_motion_at speeds.now input.now.road)) }
{
    let moved = moved(alloc, input.road(), speeds)?;
    Ok(leave(input.plan(), moved))
}
