//! Crowds on the free road. Each session writes on its own thread, and the allocations of these threads fail, too.

ghost use Rattle.std.specs.Prelude.{◌≡◌, ◌<◌, ◌≤◌, None, length};
ghost use Rattle.std.specs.Arc.{arc_value};
ghost use Rattle.road_plan.specs.declared.limits.TheConstants.{MOST_SESSIONS};
ghost use Rattle.road_replica.specs.Crowds.{crowd_writes, shares_fault, shares_of};
ghost use Rattle.road_replica.specs.declared.crowds.TheConstants.{MOST_CROWD_WRITES};
ghost use Rattle.tests_failures.specs.declared.crowds.TheConstants.{LAST};

use crate::roads::free_plan;
use crate::verdict::{Call, Until, Verdict, try_call};
use road_crowd::crowd;
use road_plan::Plan;
use road_replica::Crowd;
use road_scenario::Edit;
use road_workers::{CrewFault, NoGate};
use std::alloc::Global;
use std::sync::{Arc, Wait};
use std::thread::Threads;
use tests_crowds::may_gather;
use tests_portraits::Portrait;

/// The shares of a crowd that advances to step 6, and its result: the edits, the number of writes and the last row.
#[derive(Clone, Copy)]
pub(crate) struct CrowdCase(
    pub(crate) &'static [&'static [Edit]],
    pub(crate) &'static [Edit],
    pub(crate) u32,
    pub(crate) &'static str,
);

/// The step to which all sessions advance.
const LAST: u32 = 6;

// Copy the shares of a crowd.
fn shares_of_case(alloc: Global, case: &CrowdCase) -> Option<Vec<Vec<Edit>>> {
    let mut shares = Vec::new(alloc);
    for share in case.0 {
        shares.push(share.to_vec(alloc).ok()?).ok()?;
    }
    Some(shares)
}

// A crowd whose shares are accepted.
#[derive(Drop)]
struct Gathering<'a, R> {
    rt: &'a R,
    plan: Arc<Plan>,
    shares: Vec<Vec<Edit>>,
    case: CrowdCase,
    ghost few: { (0 < length shares.items) × (length shares.items ≤ MOST_SESSIONS) },
    ghost within: { crowd_writes (shares_of shares.items) ≤ MOST_CROWD_WRITES },
    ghost accepted: { shares_fault (arc_value plan) (shares_of shares.items) LAST ≡ None },
}

impl<R: Threads + Wait> Call for Gathering<'_, R> {
    type Answer = Crowd;

    type Fault = CrewFault;

    fn draw(&mut self, _alloc: Global, portrait: &mut Portrait) -> Option<()> {
        for share in &self.shares {
            portrait.draw_edits(share)?;
        }
        Some(())
    }

    fn make(&mut self, alloc: Global) -> Result<Crowd, CrewFault> {
        crowd(self.rt, alloc, &self.plan, &self.shares, LAST, &NoGate)
    }

    fn is_right(&mut self, _alloc: Global, left: Crowd) -> Option<bool> {
        let CrowdCase(_, edits, journal, row) = self.case;
        let is_written = left.edits.as_slice() == edits && left.journal == journal;
        Some(is_written && left.row.as_str() == row)
    }
}

/// Try a crowd.
pub(crate) fn try_crowd<R: Threads + Wait>(
    rt: &R,
    alloc: Global,
    until: Until,
    case: &CrowdCase,
) -> Option<Verdict> {
    let shares = shares_of_case(alloc, case)?;
    let plan = free_plan(alloc)?;
    if !may_gather(&plan, &shares, LAST) {
        return None;
    }
    let mut gathering = Gathering {
        rt,
        plan,
        shares,
        case: *case,
    };
    try_call(alloc, until, &mut gathering)
}
