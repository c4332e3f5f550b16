//! The parts of a plan.

/// Where random words come from.
#[derive(Clone, Copy, Debug, PartialEq, Eq)]
pub enum WordKind {
    /// The words of a seeded ChaCha8 generator.
    Seeded(u64),
    /// Words that follow a plain formula, for tests.
    Steady,
}

/// The parts of a plan, before they are checked.
#[derive(Debug, Drop, PartialEq, Eq)]
pub struct PlanParts {
    /// Cells of the road.
    pub length: u32,
    /// Cells of the deleted zone, the last cells of the road.
    pub exit: u32,
    /// Cells of a zone; the last zone may be shorter.
    pub width: u32,
    /// For each zone its speed limit, in cells per step, and its slowing chance, in 1/65,536.
    pub zones: Vec<(u32, u32)>,
    /// For each inlet its cell and its inflow chance, in 1/65,536.
    pub inlets: Vec<(u32, u32)>,
    /// For each detector its site. It counts the cars that come from a cell before the site to the site or past it.
    pub detectors: Vec<u32>,
    /// Where the random words come from.
    pub words: WordKind,
}
