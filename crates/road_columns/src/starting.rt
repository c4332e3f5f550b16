//! Start of an interval.

ghost use Rattle.std.specs.Prelude.{◌≡◌, ◌<◌, ◌≤◌, ◌+◌, ◌*◌, ◌/◌, ◌%◌, ◌^◌, ℕ, [], length, slice_index, IsTrue};
ghost use Rattle.road_plan.specs.declared.parts.WordKind.{WordKind};
ghost use Rattle.road_words.specs.Words.{word};
ghost use Rattle.road_cells.specs.Array.{Array};
ghost use Rattle.road_columns.specs.Private.Cars.{AreCarsOf};
ghost use Rattle.road_columns.specs.Private.Drawn.{drawn_word};
ghost use Rattle.road_columns.specs.Private.Interval.{HaveIntervalWords, HaveRoom};
ghost use Rattle.road_columns.specs.Private.LooseWords.{AreFalling, HaveLooseWords};
ghost use Rattle.road_columns.specs.Private.Running.{AreReady, AreStanding, IsLayout};

use crate::cars::CarColumns;
use crate::drawing::draw;
use crate::inlets::draw_inlets;
use crate::interval::IntervalWords;
use crate::layout::Layout;
use crate::shifting::shift_back;
use crate::words::Source;

/// Prepare a step: draw the words of its interval if they are missing, for the inlets and, if cars are slowed, for all
/// cars. Before drawing, move the cars back to the first places.
pub fn make_ready(layout: &Layout, step: u32, cars: &mut CarColumns, words: &mut IntervalWords)
    requires step { step < 2 ^ 27 }
    requires layout { IsLayout layout.now }
    requires standing { AreStanding layout.now.plan.now layout.now.sites.now cars.old words.old }
    requires words { IsTrue words.old.drawn
        → HaveIntervalWords layout.now.plan.now (64 * (step / 64)) (step % 64) cars.old words.old }
    requires room { HaveRoom (length layout.now.plan.now.inlets) cars.old words.old }
    ensures ready { AreReady layout.now (64 * (step / 64)) (step % 64) 0 cars.new words.new }
    ensures road { (a : Array) → AreCarsOf a cars.old → AreCarsOf a cars.new }
{
    if words.are_drawn(layout.slowing) {
        return;
    }
    shift_back(cars);
    draw_inlets(words.source, step / 64, &mut words.inlets);
    draw_where(
        layout.slowing,
        words.source,
        step / 64,
        cars,
        &mut words.rows,
    );
    words.entered = 0;
    words.worded = layout.slowing;
}

// Draw the words of all cars for an interval if cars are slowed. Any step of the interval may be the first one that
// uses them.
#[inline(always)]
fn draw_where(slowing: bool, source: Source, interval: u32, cars: &CarColumns, rows: &mut Vec<u16>)
    requires interval { interval < 2 ^ 26 }
    requires falling { AreFalling cars.now.cells.items cars.now.head cars.now.tail }
    requires rows { length rows.old.items ≡ 64 * (length cars.now.cells.items + 8) }
    ensures long { length rows.new.items ≡ length rows.old.items }
    ensures words { IsTrue slowing
        → (kind : WordKind) → ((stream place : ℕ) → drawn_word source stream place ≡ word kind stream place)
        → (k : ℕ) → HaveLooseWords kind (64 * interval) (length cars.now.cells.items + 8) k rows.new.items []
        cars.now.head cars.now.tail cars.now.cells.items (slice_index cars.now.numbers.items) }
{
    if !slowing {
        return;
    }
    draw(source, interval, cars, rows);
}
