//! A run under way.

ghost use Rattle.std.specs.Prelude.{◌≡◌, ◌↔◌, ◌<◌, ◌≤◌, ◌+◌, ◌*◌, ◌^◌, ℕ, length, false};
ghost use Rattle.std.specs.Prelude.{IfOk, IfSome, IsSome, OnOk, OnErr, IsFalse, IsTrue};
ghost use Rattle.std.specs.Arc.{arc_value};
ghost use Rattle.std.specs.List.{All};
ghost use Rattle.std.specs.String.{string_bytes};
ghost use Rattle.road_plan.specs.Plan.{exit_start};
ghost use Rattle.road_plan.specs.Settings.{Fits};
ghost use Rattle.road_words.specs.Words.{word};
ghost use Rattle.road_cells.specs.Cars.{AreRising, array_of, cars_of};
ghost use Rattle.road_plan.specs.declared.limits.TheConstants.{GREATEST_HORIZON};
ghost use Rattle.road_ends.specs.Row.{row_of};
ghost use Rattle.road_detector.specs.Passes.{no_totals};
ghost use Rattle.road_columns.specs.Private.Cars.{road_of};
ghost use Rattle.road_columns.specs.Private.Drawn.{drawn_word};
ghost use Rattle.road_columns.specs.Private.Entering.{ArePlacesFrom};
ghost use Rattle.road_columns.specs.Private.Step.{AreCarsInColumn};
ghost use Rattle.road_columns.specs.UnderWay.{CanRun, IsAt, IsRunnable, new_run, run_on, zero_counts, run_after_step};

use crate::cars::CarColumns;
use crate::counts::{Counts, clear_counts, totals_now};
use crate::holding::can_hold;
use crate::interval::IntervalWords;
use crate::layout::{Kept, Layout};
use crate::room::make_room;
use crate::row_text::text_of;
use crate::shifting::FIRST;
use crate::step::run_step;
use crate::words::{INTERVAL, Source};
use road_cells::{Car, GREATEST_SPEED, Road};
use road_detector::Totals;
use road_ends::{OutOfMemory, Stretch, are_same_settings, is_same_plan};
use road_plan::limits::GREATEST_LENGTH;
use road_plan::{Plan, Settings};
use std::alloc::Global;
use std::marker::Model;
use std::sync::Arc;

/// A run under way: a road before a step, and the counts of the detectors.
#[derive(Drop)]
pub struct UnderWay {
    plan: Arc<Plan>,
    settings: Arc<Settings>,
    step: u32,
    stretch: Stretch,
    kept: Kept,
    cars: CarColumns,
    words: IntervalWords,
    counts: Counts,
}

impl Model for UnderWay {
    ghost use Rattle.road_columns.specs.UnderWay.{UnderWay};

    ghost Value = { UnderWay };

    ghost use Rattle.road_columns.specs.Private.Running.{IsRunning, run_of};

    ghost view = { run_of };

    ghost invariant = { IsRunning };
}

/// Return whether a run can start from a road on the cells of a stretch ([`UnderWay::restart_on`] says when). It does
/// not allocate.
pub fn is_runnable(plan: &Plan, stretch: Stretch, road: &Road) -> bool
    ensures { IsTrue result ↔ IsRunnable stretch.first stretch.end plan.now road.now }
{
    can_hold(road.cars(), stretch, plan.length() - plan.exit())
}

impl UnderWay {
    /// Start a run of a plan at step 0 on its whole road, which is empty. The settings must fit the plan.
    ///
    /// # Errors
    ///
    /// `OutOfMemory` if an allocation fails.
    pub fn new(
        alloc: Global,
        plan: Arc<Plan>,
        settings: Arc<Settings>,
    ) -> Result<UnderWay, OutOfMemory>
        requires fits { Fits (arc_value plan) (arc_value settings) }
        ensures { IfOk result (λ run. run ≡ new_run (arc_value plan) (arc_value settings)) }
    {
        let nobody: [Car; 0] = [];
        let end = plan.length();
        UnderWay::of_cars(alloc, plan, settings, 0, Stretch { first: 0, end }, &nobody)
    }

    /// Start a run of a plan from a road, at a step, on the cells of a stretch. Return `None` if
    /// [`UnderWay::restart_on`] would return `false`. The settings must fit the plan.
    ///
    /// # Errors
    ///
    /// `OutOfMemory` if an allocation fails.
    pub fn start_on(
        alloc: Global,
        plan: Arc<Plan>,
        settings: Arc<Settings>,
        step: u32,
        stretch: Stretch,
        road: &Road,
    ) -> Result<Option<UnderWay>, OutOfMemory>
        requires fits { Fits (arc_value plan) (arc_value settings) }
        requires up_to { step ≤ GREATEST_HORIZON }
        requires on_road { stretch.end ≤ (arc_value plan).cells }
        ensures begun { IfOk result (λ begun. IfSome begun (λ run. run
            ≡ run_on (arc_value plan) (arc_value settings) step stretch.first stretch.end road.now)) }
        ensures runnable { IfOk result (λ begun. IsSome begun
            ↔ IsRunnable stretch.first stretch.end (arc_value plan) road.now) }
    {
        if !is_runnable(&plan, stretch, road) {
            return Ok(None);
        }
        let run = UnderWay::of_cars(alloc, plan, settings, step, stretch, road.cars())?;
        Ok(Some(run))
    }

    // Start a run of a plan with these cars.
    fn of_cars(
        alloc: Global,
        plan: Arc<Plan>,
        settings: Arc<Settings>,
        step: u32,
        stretch: Stretch,
        cars: &[Car],
    ) -> Result<UnderWay, OutOfMemory>
        requires fits { Fits (arc_value plan) (arc_value settings) }
        requires up_to { step ≤ GREATEST_HORIZON }
        requires on_road { stretch.end ≤ (arc_value plan).cells }
        requires rise { AreRising cars.now }
        requires can_run { All (CanRun stretch.first stretch.end (exit_start (arc_value plan))) cars.now }
        ensures { IfOk result (λ run. run ≡ run_on (arc_value plan) (arc_value settings) step stretch.first
            stretch.end (array_of cars.now)) }
    {
        let kept = Kept::of(alloc, &plan, &settings)?;
        let columns = columns_for(alloc, &plan, &kept.sites, cars)?;
        let words = words_for(alloc, &plan)?;
        let counts = Counts::of(alloc, plan.detectors().len())?;
        Ok(UnderWay {
            plan,
            settings,
            step,
            stretch,
            kept,
            cars: columns,
            words,
            counts,
        })
    }

    /// Restart the run from another road, at a step, on the cells of a stretch, under these settings, with all counts
    /// at zero. Return `true`. Return `false` instead and change nothing if a car of the road is outside the stretch or
    /// not before the exit, is faster than 9 cells per step, or has a number of more than 32 bits. The settings must
    /// fit the plan.
    ///
    /// # Errors
    ///
    /// `OutOfMemory` if an allocation fails. Nothing changes then.
    pub fn restart_on(
        &mut self,
        alloc: Global,
        settings: Arc<Settings>,
        step: u32,
        stretch: Stretch,
        road: &Road,
    ) -> Result<bool, OutOfMemory>
        requires fits { Fits self.old.plan (arc_value settings) }
        requires up_to { step ≤ GREATEST_HORIZON }
        requires on_road { stretch.end ≤ self.old.plan.cells }
        ensures taken { IfOk result (λ taken. IsTrue taken → self.new
            ≡ run_on self.old.plan (arc_value settings) step stretch.first stretch.end road.now) }
        ensures runnable { IfOk result (λ taken. IsTrue taken
            ↔ IsRunnable stretch.first stretch.end self.old.plan road.now) }
        ensures refused { IfOk result (λ taken. IsFalse taken → self.new ≡ self.old) }
        ensures err { OnErr result (self.new ≡ self.old) }
    {
        let exit_start = self.plan.length() - self.plan.exit();
        if !can_hold(road.cars(), stretch, exit_start) {
            return Ok(false);
        }
        let kept = Kept::of(alloc, &self.plan, &settings)?;
        let mut places = vec![in alloc; 0u32; kept.sites.len()]?;
        let many = road.cars().len();
        self.words.drawn = false;
        self.cars.lengthen(alloc, FIRST + 1 + many)?;
        self.cars.hold(road.cars());
        self.cars.find_places(&kept.sites, &mut places);
        self.cars.places = places;
        clear_counts(&mut self.counts.passes, &mut self.counts.totals);
        self.step = step;
        self.stretch = stretch;
        self.settings = settings;
        self.kept = kept;
        Ok(true)
    }

    /// Change the settings from the next step on. No word is drawn. The settings must fit the plan.
    ///
    /// # Errors
    ///
    /// `OutOfMemory` if an allocation fails. Nothing changes then.
    pub fn change(&mut self, alloc: Global, later: Arc<Settings>) -> Result<(), OutOfMemory>
        requires fits { Fits self.old.plan (arc_value later) }
        ensures changed { OnOk result (self.new ≡ record self.old { settings = arc_value later }) }
        ensures err { OnErr result (self.new ≡ self.old) }
    {
        let kept = Kept::of(alloc, &self.plan, &later)?;
        let mut places = vec![in alloc; 0u32; kept.sites.len()]?;
        self.cars.find_places(&kept.sites, &mut places);
        self.settings = later;
        self.kept = kept;
        self.cars.places = places;
        Ok(())
    }

    /// Make one step: entries, motion, counting, exit. `ahead` is how many steps the caller will make from here on,
    /// this one included. Room for the cars that may enter in at most 64 of them is made in advance.
    ///
    /// # Errors
    ///
    /// `OutOfMemory` if an allocation fails. Nothing changes then, so the step can be retried later. A step allocates
    /// only if there is no room for the cars that may enter: those of `ahead` steps (at most 64) if it draws the words
    /// of an interval, else those of this step.
    pub fn step(&mut self, alloc: Global, ahead: u32) -> Result<(), OutOfMemory>
        requires { self.old.step < GREATEST_HORIZON }
        ensures run_after_step { OnOk result (self.new ≡ run_after_step self.old) }
        ensures err { OnErr result (self.new ≡ self.old) }
    {
        let inlets = self.plan.inlets().len();
        make_room(alloc, inlets, ahead, &mut self.cars, &mut self.words)?;
        let layout = Layout {
            plan: &self.plan,
            settings: &self.settings,
            regions: &self.kept.regions,
            slowing: self.kept.slowing,
            sites: &self.kept.sites,
        };
        run_step(
            &layout,
            self.step,
            self.stretch,
            &mut self.cars,
            &mut self.words,
            &mut self.counts,
        );
        self.stretch.end = (self.stretch.end + u32::from(GREATEST_SPEED)).min(self.plan.length());
        self.step += 1;
        Ok(())
    }

    /// Return the road before the next step.
    ///
    /// # Errors
    ///
    /// `OutOfMemory` if its only allocation fails.
    pub fn road(&self, alloc: Global) -> Result<Road, OutOfMemory>
        ensures { IfOk result (λ road. road ≡ self.now.road) }
    {
        self.cars.road(alloc)
    }

    /// Return the number of cars on the road before the next step.
    pub fn car_count(&self) -> usize
        ensures { result ≡ length (cars_of self.now.road) }
    {
        self.cars.count()
    }

    /// Return the road before the next step as a row of text, with the blocked cells of its settings.
    ///
    /// # Errors
    ///
    /// `OutOfMemory` if its only allocation fails.
    pub fn row(&self, alloc: Global) -> Result<String, OutOfMemory>
        ensures { IfOk result (λ text. string_bytes text
            ≡ row_of self.now.plan.cells self.now.settings.blocks self.now.road) }
    {
        text_of(alloc, &self.plan, self.settings.blocks(), &self.cars)
    }

    /// Return the totals of each detector since its counts were last zero.
    ///
    /// # Errors
    ///
    /// `OutOfMemory` if its only allocation fails.
    pub fn totals(&self, alloc: Global) -> Result<Vec<Totals>, OutOfMemory>
        ensures { IfOk result (λ totals. totals.items ≡ self.now.totals) }
    {
        totals_now(alloc, &self.counts.passes, &self.counts.totals)
    }

    /// Set all counts to zero.
    pub fn restart_counts(&mut self)
        ensures { self.new ≡ record self.old { totals = zero_counts self.old.plan } }
    {
        clear_counts(&mut self.counts.passes, &mut self.counts.totals);
    }

    /// Return whether this is a run of the plan. It does not allocate.
    pub fn is_of(&self, plan: &Plan) -> bool
        ensures { IsTrue result ↔ (self.now.plan ≡ plan.now) }
    {
        is_same_plan(&self.plan, plan)
    }

    /// Return whether the run is on the whole road of its plan, before this step. It does not allocate.
    pub fn is_at(&self, step: u32) -> bool
        ensures { IsTrue result ↔ IsAt step self.now }
    {
        self.step == step && self.stretch.first == 0 && self.stretch.end == self.plan.length()
    }

    /// Return whether the next step of the run is under these settings. It does not allocate.
    pub fn is_under(&self, settings: &Settings) -> bool
        ensures { IsTrue result ↔ (self.now.settings ≡ settings.now) }
    {
        are_same_settings(&self.settings, settings)
    }

    /// Return the number of the next step.
    pub fn next_step(&self) -> u32
        ensures { result ≡ self.now.step }
    {
        let UnderWay { step, .. } = self;
        *step
    }
}

// Make columns that hold these cars, with no room for more.
fn columns_for(
    alloc: Global,
    plan: &Plan,
    sites: &[u16],
    cars: &[Car],
) -> Result<CarColumns, OutOfMemory>
    requires rise { AreRising cars.now }
    requires before_exit { All (λ car. car.cell < exit_start plan.now) cars.now }
    requires short_numbers { All (λ car. car.number < 2 ^ 32) cars.now }
    ensures cars { IfOk result (λ columns. AreCarsInColumn plan.now columns.head columns.tail columns.cells.items) }
    ensures places { IfOk result (λ columns. ArePlacesFrom columns.cells.items columns.head columns.tail sites.now
        columns.places.items) }
    ensures road { IfOk result (λ columns. road_of columns ≡ array_of cars.now) }
{
    prove!(plan.length() <= GREATEST_LENGTH);
    let long = FIRST + 1 + cars.len();
    let cells = vec![in alloc; 0u16; long]?;
    let speeds = vec![in alloc; 0u8; long]?;
    let numbers = vec![in alloc; 0u32; long]?;
    let mut places = vec![in alloc; 0u32; sites.len()]?;
    let mut columns = CarColumns {
        cells,
        speeds,
        numbers,
        head: FIRST,
        tail: FIRST,
        places: Vec::new(alloc),
    };
    columns.hold(cars);
    columns.find_places(sites, &mut places);
    columns.places = places;
    Ok(columns)
}

// Make the words of an interval. No word is drawn yet, and there is no room for the words of any car.
fn words_for(alloc: Global, plan: &Plan) -> Result<IntervalWords, OutOfMemory>
    ensures source { IfOk result (λ words. (stream place : ℕ) → drawn_word words.source stream place
        ≡ word plan.now.words stream place) }
    ensures drawn { IfOk result (λ words. words.drawn ≡ false) }
    ensures inlets { IfOk result (λ words. length words.inlets.items ≡ length plan.now.inlets) }
{
    let inlets = vec![in alloc; [0u16; INTERVAL]; plan.inlets().len()]?;
    Ok(IntervalWords {
        source: Source::of(plan.words()),
        drawn: false,
        worded: false,
        rows: Vec::new(alloc),
        entered: 0,
        beside: Vec::new(alloc),
        batches: Vec::new(alloc),
        inlets,
    })
}
