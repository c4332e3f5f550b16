//! Shelves: short lists of intervals that are shared.

ghost use Rattle.std.specs.Prelude.{◌≡◌, ◌<◌, ◌≤◌, ◌++◌, ◌∷◌, [], IfOk, OnErr, OnOk, Some, length, map, slice_get};
ghost use Rattle.std.specs.Prelude.{take};
ghost use Rattle.std.specs.Arc.{arc_value};

use crate::OutOfMemory;
use crate::interval::Interval;
use std::alloc::Global;
use std::marker::Model;
use std::sync::Arc;

// Contracts see the list of intervals.
#[derive(Drop)]
pub(crate) struct Shelf {
    intervals: Vec<Arc<Interval>>,
}

impl Model for Shelf {
    ghost use Rattle.std.specs.Prelude.{List, map};
    ghost use Rattle.std.specs.Arc.{arc_value};
    ghost use Rattle.road_sheet.specs.declared.interval.Interval.{Interval};

    ghost Value = { List Interval };

    ghost view = { λ shelf. map arc_value shelf.intervals.items };
}

impl Shelf {
    // Make a shelf without intervals. It does not allocate.
    pub(crate) fn empty(alloc: Global) -> Shelf
        ensures { result ≡ [] }
    {
        Shelf {
            intervals: Vec::new(alloc),
        }
    }

    pub(crate) fn len(&self) -> usize
        ensures { result ≡ length self.now }
    {
        self.intervals.len()
    }

    pub(crate) fn get(&self, index: usize) -> &Interval
        requires { index < length self.now }
        ensures { slice_get self.now index ≡ Some result.now }
    {
        &self.intervals[index]
    }

    // Append an interval.
    pub(crate) fn push(&mut self, alloc: Global, interval: Interval) -> Result<(), OutOfMemory>
        ensures pushed { OnOk result (self.new ≡ self.old ++ interval ∷ []) }
        ensures unchanged { OnErr result (self.new ≡ self.old) }
    {
        let interval = Arc::new(alloc, interval)?;
        self.intervals.push(interval)?;
        Ok(())
    }

    // Share the first `count` intervals.
    pub(crate) fn first(&self, alloc: Global, count: usize) -> Result<Shelf, OutOfMemory>
        requires { count ≤ length self.now }
        ensures { IfOk result (λ first. first ≡ take count self.now) }
    {
        let intervals = share_first(alloc, &self.intervals, count)?;
        Ok(Shelf { intervals })
    }
}

// Share the first `count` of these values: each gets one more owner.
pub(crate) fn share_first<T: Drop>(
    alloc: Global,
    values: &[Arc<T>],
    count: usize,
) -> Result<Vec<Arc<T>>, OutOfMemory>
    requires { count ≤ length values.now }
    ensures { IfOk result (λ shared. map arc_value shared.items ≡ take count (map arc_value values.now)) }
{
    let mut shared = Vec::with_capacity(alloc, count)?;
    for value in &values[..count] {
        shared.push(Arc::try_clone(value)?)?;
    }
    Ok(shared)
}
