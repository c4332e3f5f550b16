//! Queries of the published sheet.

ghost use Rattle.std.specs.Prelude.{◌≡◌};
ghost use Rattle.road_sessions.specs.Private.Queries.{query_fault};

use road_sheet::{Sheet, SheetFault};

/// A query of the published sheet.
#[derive(Clone, Copy)]
pub(crate) enum Query {
    /// The sheet itself.
    Look,
    /// The road at this step.
    State(u32),
    /// The counts of this detector in the steps from the first number to before the second.
    Totals(u32, u32, u32),
}

impl Query {
    // Return the first named cause for which a sheet refuses the query, in the order of the sheet's own calls.
    pub(crate) fn fault(&self, sheet: &Sheet) -> Option<SheetFault>
        ensures { result ≡ query_fault self.now sheet.now }
    {
        match *self {
            Query::State(step) if sheet.horizon() < step => Some(SheetFault::NotSimulated),
            Query::Totals(detector, _, _) if detector as usize >= sheet.plan().detectors().len() =>
                { Some(SheetFault::NoDetector) }
            Query::Totals(_, from, to) if from > to => Some(SheetFault::Range),
            Query::Totals(_, _, to) if sheet.horizon() < to => Some(SheetFault::NotSimulated),
            Query::Look | Query::State(_) | Query::Totals(_, _, _) => None,
        }
    }
}
