//! The edits of a scenario that are beyond heads, and so may be new to the sender of the heads.

ghost use Rattle.std.specs.Prelude.{◌≡◌, IfOk, IsOk};
ghost use Rattle.lattice_core.specs.Sets.{empty};
ghost use Rattle.road_plan.specs.Plan.{Plan};
ghost use Rattle.road_scenario.specs.Faults.{AreInRange};
ghost use Rattle.road_delta.specs.Deltas.{AreRisingHeads, beyond, is_beyond};

use crate::heads::{Head, Heads};
use road_plan::OutOfMemory;
use road_scenario::{Edit, Scenario};
use std::alloc::Global;

/// Return the edits of a scenario that are beyond heads: their object and step has no head, or a head with a smaller or
/// equal stamp. Joining them to the scenario that the heads are from gives the same as joining the whole scenario
/// (`laws::deltas_suffice`). They fit a plan if the scenario does. There is one binary search for each edit.
///
/// # Errors
///
/// `OutOfMemory` if an allocation failed. For a scenario without edits nothing is allocated.
pub fn beyond(alloc: Global, scenario: &Scenario, heads: &Heads) -> Result<Scenario, OutOfMemory>
    ensures delta { IfOk result (λ delta. delta ≡ beyond scenario.now heads.now) }
    ensures fits { (plan : Plan) → AreInRange plan scenario.now → IfOk result (λ delta. AreInRange plan delta) }
    ensures grows_nothing { scenario.now ≡ empty → IsOk result }
{
    let mut edits = scenario.edits(alloc)?;
    edits.retain(|edit| is_beyond(heads.list(), edit));
    Scenario::of_edits(alloc, &edits)
}

fn is_beyond(heads: &[Head], edit: &Edit) -> bool
    requires { AreRisingHeads heads.now }
    ensures { result ≡ is_beyond heads.now edit.now }
{
    let place = (edit.object, edit.step);
    match heads.binary_search_by_key(&place, |head| (head.object, head.step)) {
        Ok(found) => heads[found].stamp <= edit.stamp,
        Err(_) => true,
    }
}
