//! Stretches of road.

/// A stretch of road: the cells from `first` to before `end`.
#[derive(Clone, Copy, Debug, PartialEq, Eq)]
pub struct Stretch {
    /// Its first cell.
    pub first: u32,
    /// The cell after its last one.
    pub end: u32,
}
