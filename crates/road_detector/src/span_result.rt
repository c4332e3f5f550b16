//! The results of the steps of a span.

use crate::counts::Totals;
use road_cells::Road;

/// The results of running a span.
#[derive(Drop)]
pub struct SpanResult {
    /// The road after the span.
    pub road: Road,
    /// The counts of each detector in the span.
    pub totals: Vec<Totals>,
}
