//! Plans worked out by hand: the parts of a plan, its own settings and its objects. The program shows which plans are
//! refused (`tests/line_cases.py`).

use crate::assert_row;
use road_plan::{Object, OutOfMemory, Plan, PlanFault, Settings, WordKind};
use std::alloc::Global;
use std::process::Abort;
use std::test::Fail;
use tests_plans::{FREE, Parts, has_parts, pairs, plan_of};

/// The largest values of all parts.
const GREATEST: Parts = Parts {
    road: (8_192, 64, 128),
    zones: &[(9, 65_536); 64],
    inlets: &[(8_127, 65_536)],
    detectors: &[8_127; 64],
    words: WordKind::Steady,
};

// Return whether a plan that is made of these parts has them.
fn is_read(alloc: Global, parts: &Parts) -> Result<bool, PlanFault> {
    let plan = plan_of(alloc, parts)?;
    Ok(has_parts(&plan, parts))
}

#[test]
fn a_plan_has_the_parts_that_it_is_made_of(rt: HostRuntime) -> Result<(), Fail> {
    assert_row(&rt, 0, is_read(rt.alloc(), &FREE)?);
    assert_row(&rt, 1, is_read(rt.alloc(), &GREATEST)?);
    Ok(())
}

/// Two zones, an inlet, and two detectors.
const TWO_ZONES: Parts = Parts {
    road: (12, 1, 6),
    zones: &[(2, 10), (1, 20)],
    inlets: &[(3, 30)],
    detectors: &[5, 6],
    words: WordKind::Seeded(7),
};

/// Limits, chances, inflows, blocks, the number of detectors that are on, and the chances of standing cars.
type Numbers = (
    &'static [u32],
    &'static [u32],
    &'static [u32],
    &'static [u32],
    usize,
    &'static [u32],
);

/// The own settings of the plan with two zones.
const OWN: Numbers = (&[2, 1], &[10, 20], &[30], &[], 2, &[10, 20]);

/// Settings, and whether they fit the plan with two zones.
const FITTING: &[(Numbers, bool)] = pairs![
    OWN => true,
    (&[9, 0], &[65_536, 0], &[65_536], &[0, 5, 11], 2, &[0, 65_536]) => true,
    (&[2], &[10, 20], &[30], &[], 2, &[10, 20]) => false,
    (&[2, 1], &[10, 20, 0], &[30], &[], 2, &[10, 20]) => false,
    (&[2, 1], &[10, 20], &[], &[], 2, &[10, 20]) => false,
    (&[2, 1], &[10, 20], &[30], &[], 1, &[10, 20]) => false,
    (&[2, 1], &[10, 20], &[30], &[], 2, &[10]) => false,
    (&[2, 10], &[10, 20], &[30], &[], 2, &[10, 20]) => false,
    (&[2, 1], &[65_537, 20], &[30], &[], 2, &[10, 20]) => false,
    (&[2, 1], &[10, 20], &[65_537], &[], 2, &[10, 20]) => false,
    (&[2, 1], &[10, 20], &[30], &[], 2, &[10, 65_537]) => false,
    (&[2, 1], &[10, 20], &[30], &[12], 2, &[10, 20]) => false,
    (&[2, 1], &[10, 20], &[30], &[5, 3], 2, &[10, 20]) => false,
    (&[2, 1], &[10, 20], &[30], &[3, 3], 2, &[10, 20]) => false,
    (&[2, 1], &[10, 20], &[30], &[3, 4], 2, &[10, 20]) => true,
];

// Return whether settings have these numbers, and all detectors are on.
fn have(
    settings: &Settings,
    (limits, chances, inflows, blocks, watched, starts): &Numbers,
) -> bool {
    settings.limits() == *limits
        && settings.chances() == *chances
        && settings.inflows() == *inflows
        && settings.blocks() == *blocks
        && settings.watched().len() == *watched
        && settings.watched().iter().all(|on| *on)
        && settings.starts() == *starts
}

fn settings_of(
    alloc: Global,
    (limits, chances, inflows, blocks, watched, starts): &Numbers,
) -> Result<Settings, OutOfMemory> {
    Ok(Settings {
        limits: limits.to_vec(alloc)?,
        chances: chances.to_vec(alloc)?,
        inflows: inflows.to_vec(alloc)?,
        blocks: blocks.to_vec(alloc)?,
        watched: vec![in alloc; true; *watched]?,
        starts: starts.to_vec(alloc)?,
    })
}

// Assert that the settings of each row fit the plan or not, as the row says.
fn settings_fit(rt: &impl Abort, alloc: Global, plan: &Plan) -> Result<(), Fail> {
    for (row, (numbers, fits)) in FITTING.iter().enumerate() {
        assert_row(rt, row, settings_of(alloc, numbers)?.fits(plan) == *fits);
    }
    Ok(())
}

// Return whether the own settings of a plan have these numbers.
fn own_have(alloc: Global, plan: &Plan, numbers: &Numbers) -> Result<bool, OutOfMemory> {
    let own = Settings::of_plan(alloc, plan)?;
    Ok(have(&own, numbers))
}

#[test]
fn settings_fit_a_plan_as_worked_out(rt: HostRuntime) -> Result<(), Fail> {
    let plan = plan_of(rt.alloc(), &TWO_ZONES)?;
    assert_row(&rt, 0, own_have(rt.alloc(), &plan, &OWN)?);
    settings_fit(&rt, rt.alloc(), &plan)
}

/// Objects in their order. For each, its own number in the free road's plan, if the object exists, and the largest
/// number that it allows.
const OBJECTS: &[(Object, Option<u32>, u32)] = &[
    (Object::Limit(0), Some(2), 9),
    (Object::Limit(1), None, 9),
    (Object::Slow(0), Some(0), 65_536),
    (Object::Slow(4_294_967_295), None, 65_536),
    (Object::Block(0), Some(0), 1),
    (Object::Block(11), Some(0), 1),
    (Object::Block(12), None, 1),
    (Object::Inflow(0), Some(65_536), 65_536),
    (Object::Inflow(1), None, 65_536),
    (Object::Watch(0), Some(1), 1),
    (Object::Watch(1), None, 1),
    (Object::Start(0), None, 65_536),
    (Object::Start(1), None, 65_536),
];

// Return the own number of an object, if the plan has the object and the object has a number.
fn own_number(plan: &Plan, object: Object) -> Option<u32> {
    if object.in_plan(plan) && !object.is_start() {
        Some(object.default(plan))
    } else {
        None
    }
}

// Return whether an object allows the numbers 0 and `largest`, and not the next number.
fn allows_up_to(object: Object, largest: u32) -> bool {
    object.allows(0) && object.allows(largest) && !object.allows(largest.saturating_add(1))
}

// Assert that each object is as its row says, and after the object before it.
fn objects_are_known(rt: &impl Abort, plan: &Plan) {
    let mut last = None;
    for (row, (object, own, largest)) in OBJECTS.iter().enumerate() {
        let is_own = own_number(plan, *object) == *own;
        let is_behind = last < Some(*object);
        assert_row(
            rt,
            row,
            is_own && is_behind && allows_up_to(*object, *largest),
        );
        last = Some(*object);
    }
}

#[test]
fn objects_have_their_numbers_and_ranges(rt: HostRuntime) -> Result<(), Fail> {
    let plan = plan_of(rt.alloc(), &FREE)?;
    objects_are_known(&rt, &plan);
    Ok(())
}
