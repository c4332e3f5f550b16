//! Scenarios worked out by hand, and compared with the plain program.

use crate::assert_row;
use lattice_core::lattice::Lattice;
use road_plan::{Object, Plan, Settings};
use road_scenario::{Edit, EditFault, OutOfMemory, Scenario, Stamp, Value};
use std::alloc::Global;
use std::process::Abort;
use std::test::Fail;
use tests_plans::{BLOCK, FREE, INFLOW, LIMIT, START, edit, pairs, plan_of};

mod far_steps;
mod plain;

const SLOW: Object = Object::Slow(0);

/// How a scenario is made from a list of edits.
#[derive(Clone, Copy)]
enum Way {
    OneByOne,
    AtOnce,
}

// Make a scenario of edits, one by one in this order.
fn make_one_by_one(alloc: Global, edits: &[Edit]) -> Result<Scenario, OutOfMemory> {
    let mut scenario = Scenario::empty(alloc);
    for edit in edits {
        scenario = scenario.with_edit(edit)?;
    }
    Ok(scenario)
}

// Make a scenario of edits in one of these ways.
fn make(alloc: Global, way: Way, edits: &[Edit]) -> Result<Scenario, OutOfMemory> {
    match way {
        Way::OneByOne => make_one_by_one(alloc, edits),
        Way::AtOnce => Scenario::of_edits(alloc, edits),
    }
}

/// A check of a scenario. Only [`make_and_check`] owns a scenario, so that only one function drops it on its exit
/// paths.
trait Check {
    /// Return whether a scenario passes.
    fn passes(&self, alloc: Global, made: &Scenario) -> Result<bool, OutOfMemory>;
}

// Make a scenario of edits. Return whether it passes a check.
fn make_and_check<C: Check>(
    alloc: Global,
    way: Way,
    edits: &[Edit],
    check: &C,
) -> Result<bool, OutOfMemory> {
    let made = make(alloc, way, edits)?;
    check.passes(alloc, &made)
}

/// Two imports with equal stamps: the greater number wins, whichever came first.
const TWO: Edit = edit!(LIMIT, 0, (7, 64), 2);

const THREE: Edit = edit!(LIMIT, 0, (7, 64), 3);

/// Two edits for the same object and step. The second one wins.
const ONE: Edit = edit!(LIMIT, 3, (1, 0), 1);

const NEXT: Edit = edit!(LIMIT, 3, (2, 1), 2);

/// A withdrawal stays, so that the withdrawn edit is not taken again.
const BLOCKED: Edit = edit!(BLOCK, 4, (1, 0), 1);

const FREED: Edit = edit!(BLOCK, 4, (2, 0), withdrawn);

/// Withdrawals of edits that were never made.
const NO_LIMIT: Edit = edit!(LIMIT, 3, (2, 0), withdrawn);

const NO_SLOW: Edit = edit!(SLOW, 0, (3, 0), withdrawn);

/// Edits at steps 3 and 5.
const EARLY: Edit = edit!(LIMIT, 3, (3, 1), 0);

const LATE: Edit = edit!(LIMIT, 5, (3, 0), 0);

/// Slowing chances of all cars and of standing cars.
const SLOWED: Edit = edit!(SLOW, 3, (1, 64), 9);

const SLOWED_LATER: Edit = edit!(SLOW, 5, (1, 64), 8);

const STARTED: Edit = edit!(START, 2, (1, 64), 7);

const STARTED_LATER: Edit = edit!(START, 4, (1, 64), 0);

const NO_START: Edit = edit!(START, 2, (4, 0), withdrawn);

const NO_START_LATER: Edit = edit!(START, 4, (4, 0), withdrawn);

/// Lists of edits, their object, and its number at the steps 2, 4, 5 and 1,048,575. If a later edit is withdrawn, the
/// earlier one stays in force. If no slowing chance is set for standing cars, theirs is that of all cars at that step,
/// however late that is set.
const NUMBERS: &[((Object, &[Edit]), [u32; 4])] = pairs![
    (LIMIT, &[]) => [2, 2, 2, 2],
    (LIMIT, &[ONE]) => [2, 1, 1, 1],
    (LIMIT, &[ONE, edit!(LIMIT, 5, (2, 0), 0)]) => [2, 1, 0, 0],
    (LIMIT, &[ONE, edit!(LIMIT, 5, (2, 0), 0), edit!(LIMIT, 5, (3, 0), withdrawn)]) => [2, 1, 1, 1],
    (START, &[]) => [0, 0, 0, 0],
    (START, &[SLOWED]) => [0, 9, 9, 9],
    (START, &[SLOWED_LATER, SLOWED]) => [0, 9, 8, 8],
    (START, &[STARTED]) => [7, 7, 7, 7],
    (START, &[STARTED, SLOWED]) => [7, 7, 7, 7],
    (START, &[SLOWED, SLOWED_LATER, STARTED]) => [7, 7, 7, 7],
    (START, &[SLOWED, SLOWED_LATER, STARTED_LATER]) => [0, 0, 0, 0],
    (START, &[STARTED, STARTED_LATER]) => [7, 0, 0, 0],
    (START, &[STARTED, SLOWED, NO_START]) => [0, 9, 9, 9],
    (START, &[NO_START, SLOWED, STARTED, SLOWED_LATER]) => [0, 9, 8, 8],
    (START, &[NO_SLOW, SLOWED]) => [0, 9, 9, 9],
    (START, &[STARTED, SLOWED, STARTED_LATER, NO_START_LATER]) => [7, 7, 7, 7],
    (START, &[STARTED_LATER, SLOWED_LATER, NO_START_LATER]) => [0, 0, 8, 8],
];

// Return the number of an object at a step, if the object is in the plan.
fn setting_at(made: &Scenario, plan: &Plan, object: Object, step: u32) -> Option<u32> {
    if object.in_plan(plan) {
        Some(made.setting(plan, object, step))
    } else {
        None
    }
}

/// The check of an object's numbers at the steps of the table.
#[derive(Clone, Copy)]
struct Numbers<'a> {
    plan: &'a Plan,
    object: Object,
    numbers: [u32; 4],
}

impl Check for Numbers<'_> {
    fn passes(&self, _alloc: Global, made: &Scenario) -> Result<bool, OutOfMemory> {
        for (step, number) in [2, 4, 5, 1_048_575].iter().zip(&self.numbers) {
            if setting_at(made, self.plan, self.object, *step) != Some(*number) {
                return Ok(false);
            }
        }
        Ok(true)
    }
}

// Assert that each list of edits gives its numbers.
fn numbers_are_given(rt: &impl Abort, alloc: Global, plan: &Plan) -> Result<(), Fail> {
    for (row, ((object, edits), numbers)) in NUMBERS.iter().enumerate() {
        let look = Numbers {
            plan,
            object: *object,
            numbers: *numbers,
        };
        assert_row(rt, row, make_and_check(alloc, Way::OneByOne, edits, &look)?);
    }
    Ok(())
}

#[test]
fn an_earlier_edit_stays_in_force_and_standing_cars_are_slowed_like_others(
    rt: HostRuntime,
) -> Result<(), Fail> {
    let plan = plan_of(rt.alloc(), &FREE)?;
    numbers_are_given(&rt, rt.alloc(), &plan)
}

/// One edit of each kind from step 2 on, a block that is withdrawn, and, from step 3 on, a changed limit and a changed
/// chance of standing cars.
const ALL_KINDS: &[Edit] = &[
    edit!(START, 3, (1, 0), 7),
    edit!(START, 2, (2, 0), withdrawn),
    edit!(Object::Watch(0), 2, (1, 0), 0),
    edit!(INFLOW, 2, (1, 0), 9),
    edit!(BLOCK, 2, (1, 0), 1),
    edit!(Object::Block(3), 2, (1, 0), 1),
    edit!(Object::Block(5), 2, (2, 0), withdrawn),
    edit!(SLOW, 2, (1, 0), 65_536),
    edit!(LIMIT, 2, (1, 0), 0),
    edit!(LIMIT, 3, (1, 0), 9),
];

/// A limit, a slowing chance, an inflow, the blocked cells, whether the detector is on, and the chance of standing
/// cars.
type Given = (u32, u32, u32, &'static [u32], bool, u32);

/// Steps, and the settings of the free road that these edits give.
const SETTINGS: &[(u32, Given)] = pairs![
    1 => (2, 0, 65_536, &[], true, 0),
    2 => (0, 65_536, 9, &[3, 8], false, 65_536),
    1_048_576 => (9, 65_536, 9, &[3, 8], false, 7),
];

// Return whether settings have these numbers.
fn have(settings: &Settings, (limit, chance, inflow, blocks, watched, start): &Given) -> bool {
    settings.limits() == [*limit].as_slice()
        && settings.chances() == [*chance].as_slice()
        && settings.inflows() == [*inflow].as_slice()
        && settings.blocks() == *blocks
        && settings.watched() == [*watched].as_slice()
        && settings.starts() == [*start].as_slice()
}

// Return whether a scenario gives these settings at a step, and they fit the plan.
fn gives(
    alloc: Global,
    plan: &Plan,
    made: &Scenario,
    (step, given): &(u32, Given),
) -> Result<bool, OutOfMemory> {
    if made.fits(plan).is_some() {
        return Ok(false);
    }
    let settings = made.settings_at(alloc, plan, *step)?;
    Ok(have(&settings, given) && settings.fits(plan))
}

/// The check of the settings of the table.
#[derive(Clone, Copy)]
struct AllKinds<'a>(&'a Plan);

impl Check for AllKinds<'_> {
    fn passes(&self, alloc: Global, made: &Scenario) -> Result<bool, OutOfMemory> {
        for row in SETTINGS {
            if !gives(alloc, self.0, made, row)? {
                return Ok(false);
            }
        }
        Ok(true)
    }
}

#[test]
fn every_kind_of_edit_takes_effect(rt: HostRuntime) -> Result<(), Fail> {
    let plan = plan_of(rt.alloc(), &FREE)?;
    let is_right = make_and_check(rt.alloc(), Way::OneByOne, ALL_KINDS, &AllKinds(&plan))?;
    assert_row(&rt, 0, is_right);
    Ok(())
}

/// Edits, and the fault of the first faulty edit by object and step, whichever edit came first.
const FIRST_FAULTS: &[(&[Edit], Option<EditFault>)] = pairs![
    &[] => None,
    &[edit!(LIMIT, 8, (3, 0), 1)] => None,
    &[edit!(BLOCK, 4, (1, 0), 2), edit!(LIMIT, 1_048_576, (2, 0), 1)] => Some(EditFault::Step),
    &[edit!(BLOCK, 4, (1, 0), 2), edit!(LIMIT, 1_048_576, (2, 0), 1), edit!(LIMIT, 9, (2, 0), 10), edit!(LIMIT, 8, (3, 0), 1)] =>
        Some(EditFault::ValueOutOfRange),
    &[edit!(START, 0, (1, 64), 65_537), edit!(Object::Watch(0), 1_048_576, (1, 64), 9)] => Some(EditFault::Step),
];

/// The check of the first fault of a scenario.
#[derive(Clone, Copy)]
struct FirstFault<'a> {
    plan: &'a Plan,
    fault: Option<EditFault>,
}

impl Check for FirstFault<'_> {
    fn passes(&self, _alloc: Global, made: &Scenario) -> Result<bool, OutOfMemory> {
        Ok(made.fits(self.plan) == self.fault)
    }
}

// Assert that the first fault of each row is as it says.
fn first_faults_are_named(rt: &impl Abort, alloc: Global, plan: &Plan) -> Result<(), Fail> {
    for (row, (edits, fault)) in FIRST_FAULTS.iter().enumerate() {
        let look = FirstFault {
            plan,
            fault: *fault,
        };
        assert_row(rt, row, make_and_check(alloc, Way::OneByOne, edits, &look)?);
    }
    Ok(())
}

#[test]
fn the_first_faulty_edit_is_named(rt: HostRuntime) -> Result<(), Fail> {
    let plan = plan_of(rt.alloc(), &FREE)?;
    first_faults_are_named(&rt, rt.alloc(), &plan)
}

// Join a value and a copy of it through the trait, and return whether the result is the value.
fn is_doubled<L: Lattice>(value: &L) -> Result<bool, OutOfMemory> {
    let both = value.copied()?.joined(value)?;
    Ok(both.at_most(value) && value.at_most(&both) && !both.is_bottom())
}

/// The check of a scenario through the trait.
#[derive(Clone, Copy)]
struct Doubled;

impl Check for Doubled {
    fn passes(&self, _alloc: Global, made: &Scenario) -> Result<bool, OutOfMemory> {
        is_doubled(made)
    }
}

#[test]
fn scenarios_are_a_lattice(rt: HostRuntime) -> Result<(), Fail> {
    let is_right = make_and_check(rt.alloc(), Way::OneByOne, &[ONE], &Doubled)?;
    assert_row(&rt, 0, is_right);
    Ok(())
}

/// Edits in their order: by step, then by stamp, then by value.
const RISING: &[Edit] = &[
    edit!(LIMIT, 3, (2, 0), 1),
    edit!(LIMIT, 5, (1, 0), withdrawn),
    edit!(LIMIT, 5, (1, 0), 1),
    edit!(LIMIT, 5, (1, 0), 2),
    edit!(LIMIT, 5, (2, 0), withdrawn),
];

#[test]
fn edits_are_ordered_by_step_then_stamp_then_value(rt: HostRuntime) {
    let mut last = None;
    for (row, edit) in RISING.iter().enumerate() {
        assert_row(&rt, row, last < Some(edit));
        last = Some(edit);
    }
}
