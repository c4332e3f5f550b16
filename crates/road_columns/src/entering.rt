//! Entries: cars enter the road in columns.

ghost use Rattle.std.specs.Prelude.{◌≡◌, ◌<◌, ◌≤◌, ◌+◌, ◌*◌, ◌/◌, ◌%◌, ◌^◌, ◌⊎◌, ◌&&◌, ℕ, None, length, slice_index};
ghost use Rattle.std.specs.List.{slice_index_or};
ghost use Rattle.road_plan.specs.Settings.{Fits};
ghost use Rattle.road_words.specs.Words.{word};
ghost use Rattle.road_cells.specs.Array.{Array, vehicle_at};
ghost use Rattle.road_ends.specs.Entries.{inlet_stream, is_admitting};
ghost use Rattle.road_rules.specs.Speeds.{comes_about};
ghost use Rattle.road_ends.specs.EntriesBetween.{entries_between};
ghost use Rattle.road_columns.specs.Private.Cars.{AreAllOn, AreCarsOf};
ghost use Rattle.road_columns.specs.Private.CarsAt.{is_between, with_first_entries};
ghost use Rattle.road_columns.specs.Private.Running.{AreReady};

use crate::cars::CarColumns;
use crate::interval::IntervalWords;
use crate::layout::Layout;
use crate::words::index_at;
use road_cells::is_blocked;
use road_ends::Stretch;
use road_plan::limits::{CERTAIN, MOST_INLETS};
use road_plan::{Plan, Settings};

/// Let cars enter at the inlets of a stretch, one inlet after another, and keep the words of each car for the rest of
/// the interval.
#[inline(never)]
pub fn enter(
    layout: &Layout,
    step: u32,
    stretch: Stretch,
    cars: &mut CarColumns,
    words: &mut IntervalWords,
)
    requires step { step < 2 ^ 27 }
    requires ready { AreReady layout.now (64 * (step / 64)) (step % 64) 0 cars.old words.old }
    ensures ready { AreReady layout.now (64 * (step / 64)) (step % 64) (length layout.now.plan.now.inlets) cars.new
        words.new }
    ensures entries { (a : Array) → ((c : ℕ) → (c < stretch.first) ⊎ (stretch.end ≤ c) → vehicle_at a c ≡ None)
        → AreCarsOf a cars.old → AreCarsOf
        (entries_between stretch.first stretch.end layout.now.plan.now layout.now.settings.now step a) cars.new }
{
    for inlet in 0..layout.plan.inlets().len() {
        admit(layout, step, stretch, inlet, cars, words);
    }
}

// Let a car enter at an inlet if the inlet lets one in and no car is on its cell.
#[inline(always)]
fn admit(
    layout: &Layout,
    step: u32,
    stretch: Stretch,
    inlet: usize,
    cars: &mut CarColumns,
    words: &mut IntervalWords,
)
    requires step { step < 2 ^ 27 }
    requires inlet { inlet < length layout.now.plan.now.inlets }
    requires ready { AreReady layout.now (64 * (step / 64)) (step % 64) inlet cars.old words.old }
    ensures ready { AreReady layout.now (64 * (step / 64)) (step % 64) (inlet + 1) cars.new words.new }
    ensures entries { (a : Array) → AreAllOn
        (with_first_entries stretch.first stretch.end inlet layout.now.plan.now layout.now.settings.now step a) cars.old
        → AreAllOn
        (with_first_entries stretch.first stretch.end (inlet + 1) layout.now.plan.now layout.now.settings.now step a)
        cars.new }
{
    let high16 = words.inlets[inlet][index_at((step % 64) as usize)];
    if !lets_in(layout.plan, layout.settings, inlet, high16, stretch) {
        return;
    }
    let cell = layout.sites[inlet];
    let place = cars.places[inlet] as usize;
    if cars.cells[place - 1] == cell {
        return;
    }
    let number = step * MOST_INLETS as u32 + inlet as u32;
    words.keep(number, step, place, cars.tail, cars.width());
    cars.put(place, cell, number, layout.sites);
}

// Return whether an inlet of the stretch lets a car in, by the upper 16 bits of its word.
#[inline(always)]
fn lets_in(plan: &Plan, settings: &Settings, inlet: usize, high16: u16, stretch: Stretch) -> bool
    requires inlet { inlet < length plan.now.inlets }
    requires fits { Fits plan.now settings.now }
    ensures { (step : ℕ) → (0 < slice_index settings.now.inflows inlet → slice_index settings.now.inflows inlet < 65536
        → high16 ≡ word plan.now.words (inlet_stream inlet) step / 65536)
        → result ≡ (is_between stretch.first stretch.end (slice_index_or plan.now.inlets inlet (0, 0)).0
        && is_admitting plan.now settings.now step (slice_index_or plan.now.inlets inlet (0, 0)).0 inlet) }
{
    let cell = plan.inlets()[inlet].0;
    if cell < stretch.first || stretch.end <= cell {
        return false;
    }
    if is_blocked(settings.blocks(), cell) {
        return false;
    }
    comes(high16, settings.inflows()[inlet])
}

// Return whether an event of this chance happens, by the upper 16 bits of a word.
#[inline(always)]
fn comes(high16: u16, chance: u32) -> bool
    ensures { (word : ℕ) → word < 2 ^ 32 → (0 < chance → chance < 65536 → high16 ≡ word / 65536)
        → result ≡ comes_about word chance }
{
    chance >= CERTAIN || u32::from(high16) < chance
}
