//! Words of a step, and the groups of cars that move by them.

ghost use Rattle.std.specs.Prelude.{◌≡◌, ◌<◌, ◌≤◌, length};

use crate::words::Batch;

/// The words of a step.
#[derive(Clone, Copy)]
pub struct StepWords<'a> {
    /// One word for each car that has its words in the rows.
    pub row: &'a [u16],
    /// The places of the cars that have entered between others in the interval, in rising order.
    pub beside: &'a [u32],
    /// The words of these cars.
    pub batches: &'a [Batch],
    /// The index of the step in each batch.
    pub index: usize,
    ghost as_many: { length batches.now ≡ length beside.now },
    ghost in_batch: { index < 64 },
}

/// Consecutive cars, at the places from `from` to before `to`. Of the cars that have entered between others in the
/// interval, those with index `first` to before `last` are among them.
#[derive(Clone, Copy)]
pub struct Piece {
    pub from: usize,
    pub to: usize,
    pub first: usize,
    pub last: usize,
    ghost order: { from ≤ to },
    ghost cars: { first ≤ last },
}

/// A platoon: the cars at the places from `from` to before `to`. Their words are consecutive in a row, from the column
/// `at` on.
#[derive(Clone, Copy)]
pub struct Platoon {
    pub from: usize,
    pub to: usize,
    pub at: usize,
}
