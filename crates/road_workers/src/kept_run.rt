//! A run that is kept so that its memory is reused.

use road_columns::UnderWay;

// A run that is kept so that its memory is reused: each stretch restarts it. What it holds changes no result.
#[derive(Drop)]
pub(crate) struct KeptRun {
    pub run: Option<UnderWay>,
}

impl KeptRun {
    // Make a `KeptRun` that keeps no run yet. It does not allocate.
    pub fn none() -> KeptRun {
        KeptRun { run: None }
    }
}
