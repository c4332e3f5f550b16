//! Crowds: shares of edits, one for each session of a replica, and the result of their writes.

ghost use Rattle.std.specs.Prelude.{◌≡◌, ◌<◌, ◌≤◌, ◌-◌, ◌^◌, min, IfErr, IfOk, None, length, string_bytes};
ghost use Rattle.std.specs.Arc.{arc_value};
ghost use Rattle.lattice_core.specs.Sets.{items};
ghost use Rattle.road_plan.specs.declared.limits.TheConstants.{MOST_SESSIONS};
ghost use Rattle.road_sheet.specs.Shown.{row_at};
ghost use Rattle.road_replica.specs.Crowds.{crowd_winners, crowd_writes, shares_fault, shares_of};
ghost use Rattle.road_workers.specs.declared.faults.CrewFault.{CrewFault};

use road_plan::Plan;
use road_scenario::Edit;
use road_workers::CrewFault;
use std::alloc::Global;
use std::sync::Arc;

/// The most writes that the sessions of one crowd make in total.
pub const MOST_CROWD_WRITES: u64 = 1_000_000;

/// The result of a crowd.
#[derive(Drop)]
pub struct Crowd {
    /// The winners of all edits, by object and step.
    pub edits: Vec<Edit>,
    /// The number of writes in the journal.
    pub journal: u32,
    /// The row of the step to which all sessions advanced.
    pub row: String,
}

/// Something that runs crowds. An implementation may start threads, and may block its caller.
pub trait Crowds {
    /// Whether `gather` may fail with this fault. Only contracts see this.
    ghost may_fail_with: { Self → CrewFault → Type 0 };

    /// Return the result for a replica without edits once 1 to 8 sessions have written to it, in whatever order. Each
    /// session takes the edits of its share, one after another, and then advances to the step.
    ///
    /// # Errors
    ///
    /// `WorkersGone` if a session's thread could not be started, else `OutOfMemory`.
    fn gather(
        &self,
        alloc: Global,
        plan: &Arc<Plan>,
        shares: &[Vec<Edit>],
        to: u32,
    ) -> Result<Crowd, CrewFault>
        requires some { 0 < length shares.now }
        requires few { length shares.now ≤ MOST_SESSIONS }
        requires within { crowd_writes (shares_of shares.now) ≤ MOST_CROWD_WRITES }
        requires accepted { shares_fault (arc_value plan.now) (shares_of shares.now) to ≡ None }
        ensures edits { IfOk result (λ crowd. crowd.edits.items ≡ items (crowd_winners (shares_of shares.now))) }
        ensures journal { IfOk result (λ crowd. crowd.journal ≡ crowd_writes (shares_of shares.now)) }
        ensures row { IfOk result (λ crowd. string_bytes crowd.row
            ≡ row_at (arc_value plan.now) (crowd_winners (shares_of shares.now)) to) }
        ensures fault { IfErr result (λ fault. may_fail_with self.now fault) };
}

/// Count the writes that the sessions of these shares make: one for each edit, and one advance for each session. The
/// count stays at 2^64 - 1 if there are more.
pub fn write_count(shares: &[Vec<Edit>]) -> u64
    ensures { result ≡ min (crowd_writes (shares_of shares.now)) (2 ^ 64 - 1) }
{
    let mut count = 0u64;
    for share in shares {
        count = count.saturating_add(share.len() as u64).saturating_add(1);
    }
    count
}
