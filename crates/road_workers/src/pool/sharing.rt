//! How many threads run a span, and who runs which stretch of its road.

ghost use Rattle.std.specs.Prelude.{◌≡◌, ◌+◌, ◌<◌, ◌≤◌};
ghost use Rattle.road_plan.specs.declared.limits.TheConstants.{GREATEST_LENGTH, MOST_WORKERS};
ghost use Rattle.road_cells.specs.Cars.{cars_of};
ghost use Rattle.road_workers.specs.Private.Stretches.{cut};

use crate::stretch::stretch_at;
use road_cells::Road;
use road_ends::{Span, Stretch};

// The time that it takes to send stretches to workers and to get them back, in units of one step of one car.
const HAND_OVER: u64 = 40_000;

// How many cells behind a stretch and ahead of it are run with it, for each step of the span.
const MARGINS: u64 = 18;

// Return whether a span of a road is run as `stretches` stretches, for which there are processors. It is, if running a
// stretch with the cells near it, and sending it to a worker and back, takes at most four fifths of the time that one
// thread takes for the whole road. `bench/time-workers` measures these times.
pub(super) fn is_shared(cars: usize, cells: u32, steps: u32, stretches: u32) -> bool {
    let alone = u64::from(steps).saturating_mul(cars as u64);
    let count = u64::from(stretches).max(1);
    let near = u64::from(steps).saturating_mul(MARGINS.saturating_mul(count - 1));
    let cells = u64::from(cells).max(1);
    let all = alone.saturating_mul(cells.saturating_add(near)) / cells;
    let each = (all / count).saturating_add(HAND_OVER);
    each.saturating_mul(5) <= alone.saturating_mul(4)
}

// A span of a road that is run as stretches side by side: the caller's own, if it has one, and then one for each
// worker.
#[derive(Clone, Copy)]
pub(super) struct Shares<'a> {
    pub span: &'a Span,
    pub road: &'a Road,
    // The number of stretches that the caller runs: 1 if there is a processor for it, else 0.
    pub own: u32,
}

impl<'a> Shares<'a> {
    // Return the stretch of a worker among `workers` workers.
    pub(super) fn stretch_of(self, workers: u32, worker: u32) -> Stretch
        requires own { self.own ≤ 1 }
        requires few { workers ≤ MOST_WORKERS }
        requires there { worker < workers }
        ensures first { result.first
            ≡ cut self.entry.span.now.plan.cells (cars_of self.entry.road.now)
            (self.entry.own + workers) (self.entry.own + worker) }
        ensures end { result.end
            ≡ cut self.entry.span.now.plan.cells (cars_of self.entry.road.now)
            (self.entry.own + workers) (self.entry.own + worker + 1) }
        ensures order { result.first ≤ result.end }
        ensures short { result.end ≤ GREATEST_LENGTH }
    {
        let cells = self.span.plan().length();
        stretch_at(self.road, cells, self.own + workers, self.own + worker)
    }
}
