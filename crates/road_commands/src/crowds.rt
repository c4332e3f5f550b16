//! Why crowds are refused.

ghost use Rattle.std.specs.Prelude.{◌≡◌, IfNone, None};
ghost use Rattle.road_replica.specs.Crowds.{shares_fault, shares_of};
ghost use Rattle.road_format.specs.Views.{shares_view};
ghost use Rattle.road_commands.specs.Laboratory as laboratory;

use crate::translation::replica_refusal;
use road_format::Refusal;
use road_plan::Plan;
use road_replica::shares_fault;
use road_scenario::Edit;

// Return why a crowd is refused, or None if no cause applies to it.
pub(crate) fn crowd_refusal(plan: &Plan, shares: &[Vec<Edit>], to: u32) -> Option<Refusal>
    ensures refusal { result ≡ laboratory.crowd_refusal plan.now (shares_view shares.now) to }
    ensures accepted { IfNone result (shares_fault plan.now (shares_of shares.now) to ≡ None) }
{
    let fault = shares_fault(plan, shares, to)?;
    replica_refusal(fault).ok()
}
