//! A road, or a run that has reached it.

ghost use Rattle.std.specs.Prelude.{◌≡◌, length, IfOk};
ghost use Rattle.road_cells.specs.Cars.{cars_of};
ghost use Rattle.road_columns.specs.RoadOrRun.{road_now};

use crate::under_way::UnderWay;
use road_cells::Road;
use road_detector::Totals;
use road_ends::OutOfMemory;
use std::alloc::Global;

/// A road, or a run that has reached it and can continue from there.
#[derive(Drop)]
pub enum RoadOrRun {
    Road(Road),
    Run(UnderWay),
}

/// The outcome of a span: the road after it, and the counts of each detector in it.
#[derive(Drop)]
pub struct SpanOutcome {
    pub road: RoadOrRun,
    pub totals: Vec<Totals>,
}

impl RoadOrRun {
    /// Return the number of cars on the road.
    pub fn car_count(&self) -> usize
        ensures { result ≡ length (cars_of (road_now self.now)) }
    {
        match self {
            RoadOrRun::Road(road) => road.cars().len(),
            RoadOrRun::Run(run) => run.car_count(),
        }
    }

    /// Return the road. If this is a run, the road is made from its columns.
    ///
    /// # Errors
    ///
    /// `OutOfMemory` if an allocation fails.
    pub fn into_road(self, alloc: Global) -> Result<Road, OutOfMemory>
        ensures { IfOk result (λ road. road ≡ road_now self) }
    {
        match self {
            RoadOrRun::Road(road) => Ok(road),
            RoadOrRun::Run(run) => run.road(alloc),
        }
    }
}
