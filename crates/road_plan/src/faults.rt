//! Why plans are refused.

use crate::limits::{
    CERTAIN, GREATEST_EXIT, GREATEST_LENGTH, GREATEST_LIMIT, LEAST_LENGTH, MOST_DETECTORS,
    MOST_INLETS, MOST_ZONES,
};
use thiserror::Error;

/// Why a plan is refused. The causes are checked in this order, and the first one that applies is named.
#[derive(Clone, Copy, Debug, PartialEq, Eq, Error)]
pub enum PlanFault {
    /// The road is too short or too long.
    #[error("the road is not {least} to {most} cells long", least = LEAST_LENGTH, most = GREATEST_LENGTH)]
    Length,
    /// The deleted zone is empty, too long, or no shorter than the road.
    #[error("the deleted zone is not 1 to {most} cells long and shorter than the road", most = GREATEST_EXIT)]
    Exit,
    /// The zones have no width, there are too many, or the list does not have one entry for each zone.
    #[error("there are not 1 to {most} zones with a width above 0 and one entry for each", most = MOST_ZONES)]
    Zones,
    /// There is no inlet, there are too many, or one is in the deleted zone or at the cell of another inlet.
    #[error("there is no inlet, there are more than {most}, or they are not at different cells before the deleted zone", most = MOST_INLETS)]
    Inlets,
    /// There are too many detectors, or one is at the first cell or in the deleted zone.
    #[error("there are more than {most} detectors, or one is at the first cell or in the deleted zone", most = MOST_DETECTORS)]
    Detectors,
    /// A speed limit, a slowing chance or an inflow is too large.
    #[error("a speed limit is above {limit}, or a slowing chance or an inflow above {chance}", limit = GREATEST_LIMIT, chance = CERTAIN)]
    Default,
    /// An allocation failed. `Plan::new` does not allocate, so it never returns this.
    #[error("no memory")]
    OutOfMemory,
}
