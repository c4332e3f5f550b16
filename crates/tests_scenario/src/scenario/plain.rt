//! The definitions of settings and of touched steps as a plain and slow program over a list of edits, compared with
//! scenarios.

use super::{
    BLOCKED, Check, EARLY, FREED, LATE, NEXT, NO_LIMIT, NO_SLOW, NO_START, ONE, SLOWED,
    SLOWED_LATER, STARTED, STARTED_LATER, THREE, TWO, Way, make_and_check, setting_at,
};
use crate::assert_row;
use lattice_core::lattice::Lattice;
use road_plan::{Object, Plan};
use road_scenario::{Edit, OutOfMemory, Scenario, Value};
use std::alloc::Global;
use std::process::Abort;
use std::test::Fail;
use tests_plans::{BLOCK, FREE, LIMIT, START, plan_of};

/// The objects that are compared.
const OBJECTS: &[Object] = &[LIMIT, Object::Slow(0), BLOCK, START];

/// The last step that is compared.
const LAST: u32 = 6;

/// Lists of edits. Each is merged with each.
const LISTS: &[&[Edit]] = &[
    &[],
    &[TWO],
    &[THREE],
    &[TWO, THREE],
    &[THREE, TWO],
    &[ONE],
    &[NEXT],
    &[ONE, LATE, ONE],
    &[BLOCKED],
    &[FREED],
    &[BLOCKED, LATE, ONE],
    &[NO_LIMIT, NO_SLOW, EARLY],
    &[SLOWED, SLOWED_LATER],
    &[STARTED, BLOCKED, SLOWED],
    &[STARTED_LATER, NO_START, STARTED],
];

// Return whether another edit of the same object and step has a greater stamp, or an equal stamp and a greater value.
fn exceeds(edit: &Edit, other: &Edit) -> bool {
    edit.object == other.object
        && edit.step == other.step
        && (edit.stamp, edit.value) < (other.stamp, other.value)
}

fn is_winner(edits: &[Edit], edit: &Edit) -> bool {
    !edits.iter().any(|other| exceeds(edit, other))
}

fn number(value: Value) -> Option<u32> {
    match value {
        Value::Withdrawn => None,
        Value::Put(number) => Some(number),
    }
}

// Return the number that the winner of an object and step sets, if there is one.
fn put_at(edits: &[Edit], object: Object, step: u32) -> Option<u32> {
    for edit in edits {
        if edit.object == object && edit.step == step && is_winner(edits, edit) {
            return number(edit.value);
        }
    }
    None
}

// Return the number set at the latest step, up to this one, at which a number is set.
fn put_up_to(edits: &[Edit], object: Object, step: u32) -> Option<u32> {
    for earlier in (0..=step).rev() {
        if let Some(number) = put_at(edits, object, earlier) {
            return Some(number);
        }
    }
    None
}

// Return that number, otherwise the default. For standing cars the default is the slowing chance of the zone.
fn setting(plan: &Plan, edits: &[Edit], object: Object, step: u32) -> u32 {
    let own = match object {
        Object::Start(zone) => Object::Slow(zone),
        _ => object,
    };
    let number = match put_up_to(edits, object, step) {
        Some(number) => Some(number),
        None => put_up_to(edits, own, step),
    };
    match number {
        Some(number) => number,
        None if own.in_plan(plan) && !own.is_start() => own.default(plan),
        None => 0,
    }
}

// Return the first step at which the numbers set for some object differ.
fn touched(edits: &[Edit], others: &[Edit]) -> Option<u32> {
    for step in 0..=LAST {
        for object in OBJECTS {
            if put_at(edits, *object, step) != put_at(others, *object, step) {
                return Some(step);
            }
        }
    }
    None
}

// Return the largest count of edits.
fn largest_count(edits: &[Edit]) -> u64 {
    let mut largest = 0;
    for edit in edits {
        largest = edit.stamp.count.max(largest);
    }
    largest
}

// Return whether the settings of a scenario are those of these edits.
fn settings_are(plan: &Plan, edits: &[Edit], made: &Scenario) -> bool {
    for step in 0..=LAST {
        for object in OBJECTS {
            if setting_at(made, plan, *object, step) != Some(setting(plan, edits, *object, step)) {
                return false;
            }
        }
    }
    true
}

/// The check that merges a scenario into another one.
#[derive(Clone, Copy)]
struct Come<'a> {
    plan: &'a Plan,
    before: &'a Scenario,
    /// The edits of the other scenario, and the edits of both.
    held: &'a [Edit],
    all: &'a [Edit],
}

impl Come<'_> {
    // Return whether both have merged as expected, from this step on.
    fn have_merged(&self, come: &Scenario, after: &Scenario, first: Option<u32>) -> bool {
        first == touched(self.held, self.all)
            && self.before.touched(after) == first
            && self.before.at_most(after)
            && come.at_most(after)
            && after.greatest_count() == largest_count(self.all)
            && settings_are(self.plan, self.all, after)
    }
}

impl Check for Come<'_> {
    fn passes(&self, _alloc: Global, come: &Scenario) -> Result<bool, OutOfMemory> {
        let after = self.before.joined(come)?;
        let first = self.before.touched_by(come, &after);
        Ok(self.have_merged(come, &after, first))
    }
}

/// The check that merges other scenarios into a scenario of these edits.
#[derive(Clone, Copy)]
struct Held<'a> {
    plan: &'a Plan,
    held: &'a [Edit],
    come: &'a [Edit],
}

impl Check for Held<'_> {
    fn passes(&self, alloc: Global, before: &Scenario) -> Result<bool, OutOfMemory> {
        let mut all = self.held.to_vec(alloc)?;
        all.extend_from_slice(self.come)?;
        let look = Come {
            plan: self.plan,
            before,
            held: self.held,
            all: &all,
        };
        make_and_check(alloc, Way::AtOnce, self.come, &look)
    }
}

// Merge a list with each list, and compare the results with the plain program.
fn merge_with_each(
    rt: &impl Abort,
    alloc: Global,
    plan: &Plan,
    held: &[Edit],
    lists: &[&[Edit]],
) -> Result<(), Fail> {
    for (row, come) in lists.iter().enumerate() {
        let look = Held { plan, held, come };
        assert_row(rt, row, make_and_check(alloc, Way::OneByOne, held, &look)?);
    }
    Ok(())
}

// Merge each list with each list.
fn merge_each(rt: &impl Abort, alloc: Global, plan: &Plan, lists: &[&[Edit]]) -> Result<(), Fail> {
    for held in lists {
        merge_with_each(rt, alloc, plan, held, lists)?;
    }
    Ok(())
}

#[test]
fn merges_are_those_of_the_plain_program(rt: HostRuntime) -> Result<(), Fail> {
    let plan = plan_of(rt.alloc(), &FREE)?;
    merge_each(&rt, rt.alloc(), &plan, LISTS)
}
