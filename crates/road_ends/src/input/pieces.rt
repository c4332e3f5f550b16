//! The speeds of a piece of the cars: one worker's share.

ghost use Rattle.std.specs.Prelude.{◌≡◌, ◌≤◌, length, IfOk};
ghost use Rattle.road_cells.specs.Cars.{cars_of};
ghost use Rattle.road_ends.specs.Input.{input_speeds_between};

use crate::OutOfMemory;
use crate::input::StepInput;
use crate::pass::speeds_between;
use std::alloc::Global;

impl StepInput {
    /// Compute the new speeds of the cars at the places from `first` to before `end`, in their order. `first` must be
    /// at most `end`, and `end` at most the number of cars. It visits only these cars, but it needs the whole road: the
    /// last of them may be close to a car in front that is not among them.
    ///
    /// # Errors
    ///
    /// `OutOfMemory` if the allocation of their list failed.
    pub fn speeds_between(
        &self,
        alloc: Global,
        first: usize,
        end: usize,
    ) -> Result<Vec<u8>, OutOfMemory>
        requires order { first ≤ end }
        requires within { end ≤ length (cars_of self.now.road) }
        ensures { IfOk result (λ new. new.items ≡ input_speeds_between self.now first end) }
    {
        speeds_between(alloc, self.at(), &self.road, first, end)
    }
}
