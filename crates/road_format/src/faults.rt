//! Why a line cannot be read.

ghost use Rattle.std.specs.Prelude.{◌≡◌};
ghost use Rattle.road_format.specs.Refusals.{plan_refusal, plan_line_refusal, line_refusal};
ghost use Rattle.road_format.specs.declared.faults.LineFault.TheVariants as line_faults;
ghost use Rattle.road_format.specs.declared.faults.PlanLineFault.TheVariants as plan_line_faults;

use crate::refusal::Refusal;
use road_plan::{OutOfMemory, PlanFault};
use thiserror::Error;

/// Why a line after the first cannot be read. The causes are checked in this order, but `OutOfMemory` may replace any
/// of them.
#[derive(Clone, Copy, Debug, PartialEq, Eq, Error)]
pub enum LineFault {
    /// The line is not a JSON value.
    #[error("not json")]
    NotJson,
    /// The value is not a command.
    #[error("not a command")]
    NotACommand,
    /// The command's form is not known.
    #[error("unknown form")]
    UnknownForm,
    /// An allocation failed while the line was read.
    #[error("no memory")]
    OutOfMemory,
}

/// Why the first line cannot be read. The causes are checked in this order, but `OutOfMemory` may replace any of them.
#[derive(Clone, Copy, Debug, PartialEq, Eq, Error)]
pub enum PlanLineFault {
    /// The line is not a JSON value.
    #[error("not json")]
    NotJson,
    /// The value is not a plan line.
    #[error("not a plan")]
    NotAPlan,
    /// There is no replica, or there are more than 64; or two names are equal, or one does not have 1 to 64 bytes.
    #[error("the names are not 1 to 64 different texts of 1 to 64 bytes")]
    Names,
    /// The plan is refused.
    #[error("{0}")]
    Plan(PlanFault),
    /// An allocation failed while the line was read.
    #[error("no memory")]
    OutOfMemory,
}

impl LineFault {
    /// Return the refusal that the reply names, or None if memory ran out.
    pub fn refusal(self) -> Option<Refusal>
        ensures { result ≡ line_refusal self }
    {
        match self {
            LineFault::NotJson => Some(Refusal::NotJson),
            LineFault::NotACommand => Some(Refusal::NotACommand),
            LineFault::UnknownForm => Some(Refusal::UnknownForm),
            LineFault::OutOfMemory => None,
        }
    }
}

impl PlanLineFault {
    /// Return the refusal that the reply names, or None if memory ran out.
    pub fn refusal(self) -> Option<Refusal>
        ensures { result ≡ plan_line_refusal self }
    {
        match self {
            PlanLineFault::NotJson => Some(Refusal::NotJson),
            PlanLineFault::NotAPlan => Some(Refusal::NotAPlan),
            PlanLineFault::Names => Some(Refusal::Names),
            PlanLineFault::Plan(fault) => refusal_of_plan(fault),
            PlanLineFault::OutOfMemory => None,
        }
    }
}

// Return the refusal that names this fault of a plan.
fn refusal_of_plan(fault: PlanFault) -> Option<Refusal>
    ensures { result ≡ plan_refusal fault }
{
    match fault {
        PlanFault::Length => Some(Refusal::Length),
        PlanFault::Exit => Some(Refusal::Exit),
        PlanFault::Zones => Some(Refusal::Zones),
        PlanFault::Inlets => Some(Refusal::Inlets),
        PlanFault::Detectors => Some(Refusal::Detectors),
        PlanFault::Default => Some(Refusal::Default),
        PlanFault::OutOfMemory => None,
    }
}

impl From<OutOfMemory> for LineFault {
    ghost from_gives = { λ _ fault. fault ≡ line_faults.OutOfMemory };

    fn from(_e: OutOfMemory) -> LineFault {
        LineFault::OutOfMemory
    }
}

impl From<OutOfMemory> for PlanLineFault {
    ghost from_gives = { λ _ fault. fault ≡ plan_line_faults.OutOfMemory };

    fn from(_e: OutOfMemory) -> PlanLineFault {
        PlanLineFault::OutOfMemory
    }
}
