//! The edits that replicas make.

use road_plan::Object;
use road_scenario::Value;

/// An edit that a replica is to make: it sets a number for an object from a step on, or withdraws what is set there.
#[derive(Clone, Copy)]
pub struct LocalEdit {
    /// The object.
    pub object: Object,
    /// The step.
    pub step: u32,
    /// The number, or the withdrawal.
    pub value: Value,
}
