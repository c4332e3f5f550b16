//! The heads of a scenario: the object, the step and the stamp of each edit that it holds.

ghost use Rattle.std.specs.Prelude.{◌≡◌, [], map, IfOk, IsOk};
ghost use Rattle.lattice_core.specs.Sets.{empty};
ghost use Rattle.road_delta.specs.Deltas.{AreRisingHeads, head_of, heads};

use road_plan::{Object, OutOfMemory};
use road_scenario::{Edit, Scenario, Stamp};
use std::alloc::Global;
use std::marker::Model;

/// An object and a step, and the stamp of the edit held there.
#[derive(Clone, Copy, Debug, PartialEq, Eq)]
pub struct Head {
    /// The edit's object.
    pub object: Object,
    /// The first step at which it takes effect.
    pub step: u32,
    /// Its time and its writer.
    pub stamp: Stamp,
}

/// The heads of a scenario, in the order of its edits: they rise by object and step. Contracts see the list.
#[derive(Drop)]
pub struct Heads {
    list: Vec<Head>,
}

impl Model for Heads {
    ghost use Rattle.std.specs.Prelude.{List};
    ghost use Rattle.road_delta.specs.Deltas.{AreRisingHeads};
    ghost use Rattle.road_delta.specs.declared.heads.Head.{Head};

    ghost Value = { List Head };

    ghost view = { λ heads. heads.list.items };

    ghost invariant = { λ heads. AreRisingHeads heads.list.items };
}

impl Heads {
    /// Return the heads, rising by object and step. It does not allocate.
    pub fn list(&self) -> &[Head]
        ensures all { result.now ≡ self.now }
        ensures rise { AreRisingHeads result.now }
    {
        &self.list
    }
}

/// List the heads of a scenario: the object, step and stamp of each winner.
///
/// # Errors
///
/// `OutOfMemory` if an allocation failed. Without edits nothing is allocated.
pub fn heads_of(alloc: Global, scenario: &Scenario) -> Result<Heads, OutOfMemory>
    ensures heads { IfOk result (λ made. made ≡ heads scenario.now) }
    ensures grows_nothing { scenario.now ≡ empty → IsOk result }
{
    let edits = scenario.edits(alloc)?;
    let list = heads_in(alloc, &edits)?;
    Ok(Heads { list })
}

// List the heads of edits, in their order.
fn heads_in(alloc: Global, edits: &[Edit]) -> Result<Vec<Head>, OutOfMemory>
    ensures heads { IfOk result (λ list. list.items ≡ map head_of edits.now) }
    ensures grows_nothing { edits.now ≡ [] → IsOk result }
{
    let mut list = Vec::with_capacity(alloc, edits.len())?;
    for edit in edits {
        list.push(head_of(*edit))?;
    }
    Ok(list)
}

fn head_of(edit: Edit) -> Head
    ensures { result ≡ head_of edit }
{
    Head {
        object: edit.object,
        step: edit.step,
        stamp: edit.stamp,
    }
}
