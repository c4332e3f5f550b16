//! Crowds on threads, behind the trait `Crowds`.

ghost use Rattle.std.specs.Prelude.{⊤};

use crate::gathering::crowd;
use road_plan::Plan;
use road_replica::{Crowd, Crowds};
use road_scenario::Edit;
use road_workers::{CrewFault, NoGate};
use std::alloc::Global;
use std::sync::{Arc, Wait};
use std::thread::Threads;

/// Runs crowds whose sessions write on threads of their own.
#[derive(Drop)]
pub struct OnThreads<R> {
    rt: R,
}

impl<R: Threads + Wait> OnThreads<R> {
    /// Run crowds on threads of this runtime.
    pub fn new(rt: R) -> OnThreads<R> {
        OnThreads { rt }
    }
}

impl<R: Threads + Wait> Crowds for OnThreads<R> {
    // The contract of `crowd` excludes neither fault.
    ghost may_fail_with = { λ _ _. ⊤ };

    fn gather(
        &self,
        alloc: Global,
        plan: &Arc<Plan>,
        shares: &[Vec<Edit>],
        to: u32,
    ) -> Result<Crowd, CrewFault> {
        crowd(&self.rt, alloc, plan, shares, to, &NoGate)
    }
}
