//! The writes that a session may ask for.

use road_plan::Object;
use road_scenario::Scenario;

/// A write that a session asks for.
#[derive(Clone, Copy)]
pub enum Wish<'a> {
    /// Take these edits.
    Take(&'a Scenario),
    /// Simulate up to this step.
    Advance(u32),
    /// Set a number for an object from a step on, in the object's units.
    Edit {
        /// The object that is set.
        object: Object,
        /// The first step at which the number takes effect.
        step: u32,
        /// The number.
        value: u32,
    },
    /// Withdraw what is set for an object at a step.
    Withdraw {
        /// The object that is no longer set.
        object: Object,
        /// The step of what is withdrawn.
        step: u32,
    },
}
