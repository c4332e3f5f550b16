//! Objects, which edits set: where they exist, which values they take, and their defaults.

ghost use Rattle.std.specs.Prelude.{◌≡◌, true, false};
ghost use Rattle.std.specs.declared.option.Option.TheVariants.{Some};
ghost use Rattle.road_plan.specs.Objects as objects;

use crate::limits::{CERTAIN, GREATEST_LIMIT};
use crate::plan::Plan;

/// What an edit sets, by the index of its zone, cell, inlet or detector, counted from 0. Objects are ordered by kind,
/// in the order below, and then by index.
#[derive(Clone, Copy, Debug, PartialEq, Eq, PartialOrd, Ord)]
pub enum Object {
    /// The speed limit of a zone, in cells per step.
    Limit(u32),
    /// The slowing chance of a zone, in 1/65,536.
    Slow(u32),
    /// Whether a cell is blocked: 0 or 1.
    Block(u32),
    /// The inflow chance of an inlet, in 1/65,536.
    Inflow(u32),
    /// Whether a detector is on: 0 or 1.
    Watch(u32),
    /// The slowing chance of a zone's standing cars, in 1/65,536 (slow-to-start). If none is set, they are slowed by
    /// the zone's slowing chance, as moving cars are.
    Start(u32),
}

impl Object {
    /// Return whether the plan has the zone, cell, inlet or detector. A blocked cell may be any cell of the road.
    pub fn in_plan(self, plan: &Plan) -> bool
        ensures { result ≡ objects.is_in_plan plan.now self }
    {
        match self {
            Object::Limit(zone) | Object::Slow(zone) | Object::Start(zone) => {
                (zone as usize) < plan.zones().len()
            }
            Object::Block(cell) => cell < plan.length(),
            Object::Inflow(inlet) => (inlet as usize) < plan.inlets().len(),
            Object::Watch(detector) => (detector as usize) < plan.detectors().len(),
        }
    }

    /// Return whether the object takes the value: speed limits from 0 to 9 cells per step, chances from 0 to 65,536 in
    /// 1/65,536, and 0 (off) or 1 (on) for blocks and detectors.
    pub fn allows(self, value: u32) -> bool
        ensures { result ≡ objects.allows self value }
    {
        match self {
            Object::Limit(_) => value <= GREATEST_LIMIT,
            Object::Slow(_) | Object::Inflow(_) | Object::Start(_) => value <= CERTAIN,
            Object::Block(_) | Object::Watch(_) => value <= 1,
        }
    }

    /// Return the object's value if no edit sets it: the plan's number, 0 (off) for a block, and 1 (on) for a detector.
    /// The plan must have the object. The object must not be a `Start`: a plan has no slowing chance of standing cars.
    pub fn default(self, plan: &Plan) -> u32
        requires in_plan { objects.is_in_plan plan.now self ≡ true }
        requires own { objects.is_start self ≡ false }
        ensures { objects.default plan.now self ≡ Some result }
    {
        match self {
            Object::Limit(zone) => plan.zones()[zone as usize].0,
            Object::Slow(zone) => plan.zones()[zone as usize].1,
            Object::Block(_) => 0,
            Object::Inflow(inlet) => plan.inlets()[inlet as usize].1,
            Object::Watch(_) => 1,
            Object::Start(_) => unreachable!(),
        }
    }

    /// Return whether the object is the slowing chance of a zone's standing cars.
    pub fn is_start(self) -> bool
        ensures { result ≡ objects.is_start self }
    {
        matches!(self, Object::Start(_))
    }
}
