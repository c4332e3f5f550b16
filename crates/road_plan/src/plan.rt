//! Plans within the limits of the laboratory.

ghost use Rattle.std.specs.Prelude.{◌≡◌, IfOk, IfErr, IsOk, Some, None};
ghost use Rattle.road_plan.specs.Plan.{plan_of, IsWithinLimits};
ghost use Rattle.road_plan.specs.Refusals.{fault_of_plan};

use crate::checks::first_fault;
use crate::faults::PlanFault;
use crate::parts::{PlanParts, WordKind};
use std::marker::Model;

/// A plan within the limits of the laboratory. It never changes.
#[derive(Debug, Drop)]
pub struct Plan {
    parts: PlanParts,
}

impl Model for Plan {
    ghost use Rattle.road_plan.specs.Plan.{Plan, plan_of, IsWithinLimits};

    ghost Value = { Plan };

    ghost view = { λ p. plan_of p.parts };

    ghost invariant = { λ p. IsWithinLimits (plan_of p.parts) };
}

impl Plan {
    /// Make a plan from these parts, if they are within the limits. It does not allocate: the parts become the plan.
    ///
    /// # Errors
    ///
    /// The first fault of the parts, in the order of `PlanFault`. It is never `OutOfMemory`.
    pub fn new(parts: PlanParts) -> Result<Plan, PlanFault>
        // Parts are accepted exactly if no fault is found, and then they are the plan.
        ensures made { IfOk result (λ plan. plan ≡ plan_of parts) }
        ensures faultless { IfOk result (λ _. fault_of_plan (plan_of parts) ≡ None) }

        // So each plan within the limits is accepted.
        ensures accepted { IsWithinLimits (plan_of parts) → IsOk result }

        // A refusal names the first fault, which is never `OutOfMemory`.
        ensures refused { IfErr result (λ fault. fault_of_plan (plan_of parts) ≡ Some fault) }
    {
        match first_fault(&parts) {
            Some(fault) => Err(fault),
            None => Ok(Plan { parts }),
        }
    }

    /// Return the number of the road's cells.
    pub fn length(&self) -> u32
        ensures cells { result ≡ self.now.cells }
        ensures within { IsWithinLimits self.now }
    {
        self.parts.length
    }

    /// Return the number of cells of the deleted zone, at the end of the road, where cars are removed.
    pub fn exit(&self) -> u32
        ensures { result ≡ self.now.exit }
    {
        self.parts.exit
    }

    /// Return the number of cells of a zone. The last zone may be shorter.
    pub fn width(&self) -> u32
        ensures width { result ≡ self.now.width }
        ensures within { IsWithinLimits self.now }
    {
        self.parts.width
    }

    /// Return the speed limit (cells per step) and the slowing chance (1/65,536) of each zone.
    pub fn zones(&self) -> &[(u32, u32)]
        ensures { result.now ≡ self.now.zones }
    {
        &self.parts.zones
    }

    /// Return the cell and the inflow chance (1/65,536) of each inlet.
    pub fn inlets(&self) -> &[(u32, u32)]
        ensures inlets { result.now ≡ self.now.inlets }
        ensures within { IsWithinLimits self.now }
    {
        &self.parts.inlets
    }

    /// Return the cell of each detector (its site).
    pub fn detectors(&self) -> &[u32]
        ensures detectors { result.now ≡ self.now.detectors }
        ensures within { IsWithinLimits self.now }
    {
        &self.parts.detectors
    }

    /// Return where the random words come from.
    pub fn words(&self) -> WordKind
        ensures { result ≡ self.now.words }
    {
        self.parts.words
    }
}
