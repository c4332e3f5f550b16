//! Pieces of the list of cars, one for each worker.

ghost use Rattle.std.specs.Prelude.{◌≡◌, ◌≢◌, ℕ, ◌+◌, ◌<◌, ◌≤◌, List, [], length, slice_range, take, IfOk};
ghost use Rattle.road_plan.specs.declared.limits.TheConstants.{GREATEST_LENGTH, MOST_WORKERS};
ghost use Rattle.road_cells.specs.Cars.{cars_of};
ghost use Rattle.road_workers.specs.Private.Pieces.{piece_start};

use road_ends::{OutOfMemory, StepInput};
use std::alloc::Global;

// The speeds of a piece, or out of memory.
pub(crate) type PieceAnswer = Result<Vec<u8>, OutOfMemory>;

// A piece of the list of cars: the places from `first` to before `end`.
#[derive(Clone, Copy, Debug, PartialEq, Eq)]
pub(crate) struct Piece {
    pub first: usize,
    pub end: usize,
}

impl Piece {
    // Return the piece of a worker, numbered from 0, by integer division. The piece may be empty.
    pub fn of(worker: u32, workers: u32, cars: usize) -> Piece
        requires worker { worker < workers }
        requires workers { workers ≤ MOST_WORKERS }
        requires cars { cars ≤ GREATEST_LENGTH }
        ensures first { result.first ≡ piece_start workers cars worker }
        ensures end { result.end ≡ piece_start workers cars (worker + 1) }
        ensures order { result.first ≤ result.end }
        ensures within { result.end ≤ cars }
    {
        let worker = worker as usize;
        let workers = workers as usize;
        Piece {
            first: worker * cars / workers,
            end: (worker + 1) * cars / workers,
        }
    }
}

// Return the number of cars in a step, at most the number of cells.
#[tactic(auto, using(crate::proofs::PiecesInOrder::few_cars))]
pub(crate) fn cars_in(input: &StepInput) -> usize
    ensures count { result ≡ length (cars_of input.now.road) }
    ensures few { result ≤ GREATEST_LENGTH }
{
    input.road().cars().len()
}

// Make the empty list to which the workers' speeds are appended. For one worker its capacity is 0: then `append`
// returns that worker's list, without copying it.
pub(crate) fn list_for(alloc: Global, workers: u32, cars: usize) -> Result<Vec<u8>, OutOfMemory>
    ensures { IfOk result (λ whole. whole.items ≡ []) }
{
    if workers == 1 {
        return Ok(Vec::new(alloc));
    }
    Vec::with_capacity(alloc, cars)
}

// Append the speeds of a piece to those of the pieces before it. If `whole` is empty and has capacity 0, return the list
// of the piece.
#[tactic(auto, using(crate::proofs::PiecesInOrder::take_piece))]
pub(crate) fn append(whole: PieceAnswer, piece: PieceAnswer) -> PieceAnswer
    ensures { (all : List ℕ) (first end : ℕ) → first ≤ end → IfOk whole (λ front. front.items ≡ take first all)
        → IfOk piece (λ new. new.items ≡ slice_range all first end)
        → IfOk result (λ front. front.items ≡ take end all) }
{
    let mut whole = whole?;
    let piece = piece?;
    if whole.is_empty() && whole.capacity() == 0 {
        return Ok(piece);
    }
    whole.extend_from_slice(&piece)?;
    Ok(whole)
}
