//! One step of a run under way.

ghost use Rattle.std.specs.Prelude.{◌≡◌, ◌<◌, ◌≤◌, ◌+◌, ◌*◌, ◌/◌, ◌%◌, ◌^◌, ℕ, length, map, min, slice_index};
ghost use Rattle.std.specs.List.{range_with_len, slice_index_or};
ghost use Rattle.road_plan.specs.declared.limits.TheConstants.{GREATEST_HORIZON};
ghost use Rattle.road_cells.specs.Array.{Array};
ghost use Rattle.road_cells.specs.declared.car.TheConstants.{GREATEST_SPEED};
ghost use Rattle.road_ends.specs.Input.{StepInput, input_next, input_speeds};
ghost use Rattle.road_ends.specs.EntriesBetween.{input_between};
ghost use Rattle.road_detector.specs.Passes.{no_totals, passes_at, plus};
ghost use Rattle.road_columns.specs.Private.Cars.{AreCarsOf, MoveCars, road_of};
ghost use Rattle.road_columns.specs.Private.Counts.{totals_in};
ghost use Rattle.road_columns.specs.Private.Interval.{HaveRoom};
ghost use Rattle.road_columns.specs.Private.Running.{AreReady, AreRunning, IsLayout};
ghost use Rattle.road_columns.specs.Private.Sites.{IsOfSteps, totals_of_count};

use crate::cars::{CarColumns, leave, move_on};
use crate::counts::Counts;
use crate::entering::enter;
use crate::interval::IntervalWords;
use crate::layout::Layout;
use crate::passing::count;
use crate::regions::advance_regions;
use crate::starting::make_ready;
use crate::step_words::{Piece, StepWords};
use crate::words::index_at;
use road_ends::Stretch;

/// Make one step of a run on the cells of a stretch: cars enter, move and are counted, and one may leave. It does not
/// allocate.
pub(crate) fn run_step(
    layout: &Layout,
    step: u32,
    stretch: Stretch,
    cars: &mut CarColumns,
    words: &mut IntervalWords,
    counts: &mut Counts,
)
    requires step { step < GREATEST_HORIZON }
    requires layout { IsLayout layout.now }
    requires running { AreRunning layout.now.plan.now layout.now.sites.now step stretch.first stretch.end cars.old
        words.old counts.old }
    requires room { HaveRoom (length layout.now.plan.now.inlets) cars.old words.old }
    ensures running { AreRunning layout.now.plan.now layout.now.sites.now (step + 1) stretch.first
        (min (stretch.end + GREATEST_SPEED) layout.now.plan.now.cells) cars.new words.new counts.new }
    ensures road { road_of cars.new ≡ input_next
        (input_between stretch.first stretch.end layout.now.plan.now layout.now.settings.now step (road_of cars.old)) }
    ensures totals { let input = input_between stretch.first stretch.end layout.now.plan.now layout.now.settings.now
        step (road_of cars.old) in
        totals_in counts.new.passes.items counts.new.totals.items ≡ map
        (λ d. plus (slice_index_or (totals_in counts.old.passes.items counts.old.totals.items) d no_totals)
        (passes_at input (input_speeds input) d))
        (range_with_len 0 (length (totals_in counts.old.passes.items counts.old.totals.items))) }
{
    make_ready(layout, step, cars, words);
    enter(layout, step, stretch, cars, words);
    move_cars(layout, step, cars, words, counts);
    words.drawn = counts.end_step(step);
}

// Move the cars of a step after the entries, count those that pass detectors, and remove a car that reaches the exit.
#[inline(always)]
fn move_cars(
    layout: &Layout,
    step: u32,
    cars: &mut CarColumns,
    words: &IntervalWords,
    counts: &mut Counts,
)
    requires step { step < 2 ^ 27 }
    requires ready { AreReady layout.now (64 * (step / 64)) (step % 64) (length layout.now.plan.now.inlets) cars.old
        words.now }
    requires passes { length counts.old.passes.items ≡ length layout.now.plan.now.detectors }
    requires counted { (d : ℕ) → d < length counts.old.passes.items
        → IsOfSteps (step % 64) (slice_index counts.old.passes.items d) }
    ensures ready { AreReady layout.now (64 * (step / 64)) (step % 64 + 1) (length layout.now.plan.now.inlets)
        cars.new words.now }
    ensures totals { counts.new.totals ≡ counts.old.totals }
    ensures passes_each { length counts.new.passes.items ≡ length counts.old.passes.items }
    ensures counted { (d : ℕ) → d < length counts.old.passes.items
        → IsOfSteps (step % 64 + 1) (slice_index counts.new.passes.items d) }
    ensures road { (b : Array) → length b ≤ layout.now.plan.now.cells → AreCarsOf b cars.old → AreCarsOf
        (input_next (record { plan = layout.now.plan.now; settings = layout.now.settings.now; step = step; road = b }))
        cars.new }
    ensures passes { (b : Array) → length b ≤ layout.now.plan.now.cells → AreCarsOf b cars.old
        → (d : ℕ) → d < length counts.old.passes.items
        → let input : StepInput =
        record { plan = layout.now.plan.now; settings = layout.now.settings.now; step = step; road = b } in
        totals_of_count (slice_index counts.new.passes.items d)
        ≡ plus (totals_of_count (slice_index counts.old.passes.items d)) (passes_at input (input_speeds input) d) }
{
    let inlets = layout.plan.inlets().len();
    let detectors = inlets + layout.plan.detectors().len();
    advance_cars(layout, step, cars, words);
    count(
        &cars.cells,
        &cars.speeds,
        &layout.sites[inlets..detectors],
        &cars.places[inlets..detectors],
        layout.settings.watched(),
        &mut counts.passes,
    );
    move_on(&cars.cells, layout.sites, &mut cars.places);
    let exit_start = layout.plan.length() - layout.plan.exit();
    cars.head = leave(&mut cars.cells, cars.head, cars.tail, exit_start);
}

// Move the cars by their new speeds.
#[inline(always)]
fn advance_cars(layout: &Layout, step: u32, cars: &mut CarColumns, words: &IntervalWords)
    requires step { step < 2 ^ 27 }
    requires ready { AreReady layout.now (64 * (step / 64)) (step % 64) (length layout.now.plan.now.inlets) cars.old
        words.now }
    ensures { MoveCars layout.now.plan.now layout.now.settings.now step cars.old cars.new }
{
    let row = (step % 64) as usize;
    let width = cars.width();
    let firsts = layout.plan.inlets().len() + layout.plan.detectors().len();
    let now = StepWords {
        row: &words.rows[row * width..row * width + width],
        beside: &words.beside,
        batches: &words.batches,
        index: index_at(row),
    };
    let all = Piece {
        from: cars.head,
        to: cars.tail,
        first: 0,
        last: words.entered,
    };
    advance_regions(
        &mut cars.cells,
        &mut cars.speeds,
        &now,
        all,
        layout.regions,
        &cars.places[firsts..layout.sites.len()],
    );
}
