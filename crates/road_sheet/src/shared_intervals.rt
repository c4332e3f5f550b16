//! The whole intervals of a run, which sheets share.

ghost use Rattle.std.specs.Prelude.{◌≡◌, ◌<◌, ◌≤◌, ◌++◌, ◌∷◌, [], IfOk, OnErr, OnOk, Some, length, map, slice_get};
ghost use Rattle.std.specs.Prelude.{take};
ghost use Rattle.std.specs.Arc.{arc_value};

use crate::OutOfMemory;
use crate::interval::Interval;
use crate::shelf::{Shelf, share_first};
use std::alloc::Global;
use std::marker::Model;
use std::sync::Arc;

// The number of intervals on a full shelf.
const SHELF_INTERVALS: usize = 64;

// A list of intervals, on shelves of 64. The list of full shelves is shared as a whole. The open shelf has the
// intervals after those on the full shelves; it is not full. Contracts see the list of all intervals.
#[derive(Drop)]
pub(crate) struct SharedIntervals {
    full_shelves: Arc<Vec<Arc<Shelf>>>,
    open_shelf: Shelf,
}

impl Model for SharedIntervals {
    ghost use Rattle.std.specs.Prelude.{◌++◌, ◌<◌, List, length, map};
    ghost use Rattle.std.specs.Arc.{arc_value};
    ghost use Rattle.road_sheet.specs.Private.Shelves.{AreFull, intervals_on};
    ghost use Rattle.road_sheet.specs.declared.shared_intervals.TheConstants.{SHELF_INTERVALS};
    ghost use Rattle.road_sheet.specs.declared.interval.Interval.{Interval};

    ghost Value = { List Interval };

    ghost view = { λ intervals. intervals_on (map arc_value (arc_value intervals.full_shelves).items)
        ++ intervals.open_shelf };

    ghost invariant = { λ intervals. AreFull (map arc_value (arc_value intervals.full_shelves).items)
        × (length intervals.open_shelf < SHELF_INTERVALS) };
}

impl SharedIntervals {
    pub(crate) fn empty(alloc: Global) -> Result<SharedIntervals, OutOfMemory>
        ensures { IfOk result (λ intervals. intervals ≡ []) }
    {
        Ok(SharedIntervals {
            full_shelves: Arc::new(alloc, Vec::new(alloc))?,
            open_shelf: Shelf::empty(alloc),
        })
    }

    pub(crate) fn get(&self, index: usize) -> &Interval
        requires { index < length self.now }
        ensures { slice_get self.now index ≡ Some result.now }
    {
        let shelf = index / SHELF_INTERVALS;
        if shelf < self.full_shelves.len() {
            self.full_shelves[shelf].get(index % SHELF_INTERVALS)
        } else {
            self.open_shelf.get(index % SHELF_INTERVALS)
        }
    }

    // Append an interval.
    pub(crate) fn push(&mut self, alloc: Global, interval: Interval) -> Result<(), OutOfMemory>
        ensures pushed { OnOk result (self.new ≡ self.old ++ interval ∷ []) }
        ensures unchanged { OnErr result (self.new ≡ self.old) }
    {
        if self.open_shelf.len() + 1 < SHELF_INTERVALS {
            return self.open_shelf.push(alloc, interval);
        }
        let mut shelf = self.open_shelf.first(alloc, self.open_shelf.len())?;
        shelf.push(alloc, interval)?;
        self.full_shelves = with_shelf(alloc, &self.full_shelves, shelf)?;
        self.open_shelf = Shelf::empty(alloc);
        Ok(())
    }

    // Share the first `count` intervals. If these are all intervals, at most 64 `Arc`s are cloned: that of the full
    // shelves, and those of the intervals on the open shelf.
    pub(crate) fn first(&self, alloc: Global, count: usize) -> Result<SharedIntervals, OutOfMemory>
        requires { count ≤ length self.now }
        ensures { IfOk result (λ first. first ≡ take count self.now) }
    {
        let shelves = count / SHELF_INTERVALS;
        if shelves < self.full_shelves.len() {
            let last = self.full_shelves[shelves].first(alloc, count % SHELF_INTERVALS)?;
            let full = Arc::new(alloc, share_first(alloc, &self.full_shelves, shelves)?)?;
            Ok(SharedIntervals {
                full_shelves: full,
                open_shelf: last,
            })
        } else {
            let last = self.open_shelf.first(alloc, count % SHELF_INTERVALS)?;
            let full = Arc::try_clone(&self.full_shelves)?;
            Ok(SharedIntervals {
                full_shelves: full,
                open_shelf: last,
            })
        }
    }
}

// Make a list that shares these shelves and has one more.
fn with_shelf(
    alloc: Global,
    shelves: &[Arc<Shelf>],
    shelf: Shelf,
) -> Result<Arc<Vec<Arc<Shelf>>>, OutOfMemory>
    ensures { IfOk result (λ more. map arc_value (arc_value more).items ≡ map arc_value shelves.now ++ shelf ∷ []) }
{
    let mut more = share_first(alloc, shelves, shelves.len())?;
    more.push(Arc::new(alloc, shelf)?)?;
    Ok(Arc::new(alloc, more)?)
}
