//! Inputs of a step that are the same, and inputs that differ.

use crate::assert_row;
use crate::rows::{input_of, shared_plan};
use road_cells::Car;
use road_ends::StepInput;
use road_plan::Plan;
use std::alloc::Global;
use std::process::Abort;
use std::sync::Arc;
use std::test::Fail;
use tests_plans::{HALF_SLOWED, Parts, cars, pairs, road_of};

/// The free road with slowing chance one half, where no car enters.
const CLOSED: Parts = Parts {
    inlets: &[(0, 0)],
    ..HALF_SLOWED
};

const BOTH: &[Car] = cars![(0, 3, 2), (16, 7, 1)];

/// The parts of an input: a slowing chance of standing cars, a step, and cars.
type Made = (Option<u32>, u32, &'static [Car]);

/// Inputs, and whether each is the same as the input of step 3 with both cars. A car may be missing, or have another
/// number, cell or speed. If standing cars have the slowing chance of all cars, the input is the same.
const INPUTS: &[(Made, bool)] = pairs![
    (None, 3, BOTH) => true,
    (None, 4, BOTH) => false,
    (None, 3, cars![(0, 3, 2)]) => false,
    (None, 3, cars![(0, 3, 2), (17, 7, 1)]) => false,
    (None, 3, cars![(0, 3, 2), (16, 8, 1)]) => false,
    (None, 3, cars![(0, 3, 2), (16, 7, 2)]) => false,
    (Some(32_768), 3, BOTH) => true,
    (Some(32_767), 3, BOTH) => false,
    (Some(0), 3, BOTH) => false,
    (Some(65_536), 3, BOTH) => false,
];

// Make the input of a step.
fn input_with(alloc: Global, plan: &Arc<Plan>, made: &Made) -> Result<Arc<StepInput>, Fail> {
    let (start, step, cars) = *made;
    input_of(alloc, plan, start, step, &road_of(alloc, cars)?)
}

// Return whether two inputs are the same or different, as expected.
fn is_as_said(
    alloc: Global,
    plan: &Arc<Plan>,
    input: &StepInput,
    (made, wanted): &(Made, bool),
) -> Result<bool, Fail> {
    let other = input_with(alloc, plan, made)?;
    Ok(input.same(&other) == *wanted && other.same(input) == *wanted)
}

// Compare an input with each input of the table.
fn compare_inputs(
    rt: &impl Abort,
    alloc: Global,
    plan: &Arc<Plan>,
    input: &StepInput,
) -> Result<(), Fail> {
    for (row, said) in INPUTS.iter().enumerate() {
        assert_row(rt, row, is_as_said(alloc, plan, input, said)?);
    }
    Ok(())
}

#[test]
fn inputs_are_the_same_if_their_steps_cars_and_chances_are_equal(
    rt: HostRuntime,
) -> Result<(), Fail> {
    let plan = shared_plan(rt.alloc(), &CLOSED)?;
    let input = input_with(rt.alloc(), &plan, &(None, 3, BOTH))?;
    compare_inputs(&rt, rt.alloc(), &plan, &input)
}
