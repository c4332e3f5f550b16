//! The result of `grown`.

use road_sheet::Sheet;

/// A sheet with edits and steps added, and the first step that this touched.
#[derive(Drop)]
pub struct Grown {
    /// The sheet of the joined scenario.
    pub sheet: Sheet,
    /// The first step at which its edits set different numbers than before, or `None` if the numbers are the same.
    pub touched: Option<u32>,
}
