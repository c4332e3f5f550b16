//! Cars, and their maximum speed.

/// The maximum speed of a car, in cells per step. No car looks further ahead than it can drive at this speed.
pub const GREATEST_SPEED: u8 = 9;

/// A car on the road.
#[derive(Clone, Copy, Debug, PartialEq, Eq)]
pub struct Car {
    /// The car's number. In a run it never changes, and no other car has it.
    pub number: u64,
    /// The cell where the car is, counted from 0 at the start of the road.
    pub cell: u32,
    /// Its speed, in cells per step.
    pub speed: u8,
}
