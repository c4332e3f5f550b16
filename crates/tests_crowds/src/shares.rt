//! The shares that a crowd may have.

ghost use Rattle.std.specs.Prelude.{◌≡◌, ◌<◌, ◌≤◌, IsTrue, None, length};
ghost use Rattle.road_plan.specs.declared.limits.TheConstants.{MOST_SESSIONS};
ghost use Rattle.road_replica.specs.Crowds.{crowd_writes, shares_fault, shares_of};
ghost use Rattle.road_replica.specs.declared.crowds.TheConstants.{MOST_CROWD_WRITES};

use road_plan::Plan;
use road_plan::limits::MOST_SESSIONS;
use road_replica::{MOST_CROWD_WRITES, shares_fault, write_count};
use road_scenario::Edit;

/// Return whether a crowd may have these shares and advance to a step.
pub fn may_gather(plan: &Plan, shares: &[Vec<Edit>], to: u32) -> bool
    ensures some { IsTrue result → 0 < length shares.now }
    ensures few { IsTrue result → length shares.now ≤ MOST_SESSIONS }
    ensures within { IsTrue result → crowd_writes (shares_of shares.now) ≤ MOST_CROWD_WRITES }
    ensures accepted { IsTrue result → shares_fault plan.now (shares_of shares.now) to ≡ None }
{
    if shares.is_empty() || shares.len() > MOST_SESSIONS as usize {
        return false;
    }
    if write_count(shares) > MOST_CROWD_WRITES {
        return false;
    }
    shares_fault(plan, shares, to).is_none()
}
