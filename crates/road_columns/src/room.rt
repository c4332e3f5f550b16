//! Memory for the cars that enter, and for the words of all cars.

ghost use Rattle.std.specs.Prelude.{◌≡◌, ◌<◌, ◌≤◌, ◌-◌, ℕ, length, IsTrue, OnOk};
ghost use Rattle.road_columns.specs.Private.Interval.{HaveRoom, MakesRoom};

use crate::cars::CarColumns;
use crate::interval::IntervalWords;
use crate::shifting::FIRST;
use crate::words::INTERVAL;
use road_ends::OutOfMemory;
use std::alloc::Global;

/// Make room for the cars that may enter at the inlets in the next step, if room is missing. If the words of an
/// interval are still to be drawn, make room for the cars that may enter in `ahead` steps, at most the steps of an
/// interval. A run that has used up its room within an interval gets room for a whole interval.
///
/// # Errors
///
/// `OutOfMemory` if an allocation fails.
pub fn make_room(
    alloc: Global,
    inlets: usize,
    ahead: u32,
    cars: &mut CarColumns,
    words: &mut IntervalWords,
) -> Result<(), OutOfMemory>
    requires inlets { inlets ≤ 16 }
    requires few { cars.old.tail - cars.old.head ≤ 8192 }
    ensures makes { MakesRoom cars.old cars.new words.old words.new }
    ensures room { OnOk result (HaveRoom inlets cars.new words.new) }
{
    let wanted = if words.drawn { 1 } else { ahead };
    if has_room(entries_in(inlets, wanted), cars, words) {
        return Ok(());
    }
    let steps = if words.drawn { INTERVAL as u32 } else { ahead };
    let entries = entries_in(inlets, steps);
    words.drawn = false;
    cars.lengthen(alloc, FIRST + 1 + (cars.tail - cars.head) + 2 * entries)?;
    words.make_rows(alloc, cars.width(), entries)?;
    Ok(())
}

// Return how many cars may enter at this many inlets in `steps` steps. At least one step counts, and at most those of
// an interval.
fn entries_in(inlets: usize, steps: u32) -> usize
    requires { inlets ≤ 16 }
    ensures some { inlets ≤ result }
    ensures few { result ≤ 1024 }
{
    inlets * (steps as usize).min(INTERVAL).max(1)
}

// Return whether there is room for this many cars to enter.
fn has_room(entries: usize, cars: &CarColumns, words: &IntervalWords) -> bool
    requires entries { entries ≤ 1024 }
    ensures { IsTrue result → (n : ℕ) → n ≤ entries → HaveRoom n cars.now words.now }
{
    if words.rows.len() != INTERVAL * cars.width() || words.beside.len() < entries {
        return false;
    }
    if !words.drawn {
        return cars.tail - cars.head + FIRST + entries < cars.cells.len();
    }
    cars.tail + entries < cars.cells.len() && words.entered <= words.beside.len() - entries
}
