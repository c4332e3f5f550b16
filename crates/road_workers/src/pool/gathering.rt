//! The pieces of a step, gathered from the workers of a pool.

ghost use Rattle.std.specs.Prelude.{◌≡◌, ℕ, ◌+◌, ◌<◌, ◌≤◌, length, take, vec_len, [], IfOk, IfSome, IsFalse, IsTrue};
ghost use Rattle.road_plan.specs.declared.limits.TheConstants.{MOST_WORKERS, GREATEST_LENGTH};
ghost use Rattle.road_cells.specs.Cars.{cars_of};
ghost use Rattle.road_ends.specs.Input.{input_speeds};
ghost use Rattle.road_workers.specs.Private.Pieces.{piece_start};
ghost use Rattle.road_workers.specs.Private.Gathered.{AreGathered, AreThere, IsMissing, TakesOne};

use crate::piece::{Piece, PieceAnswer, append};
use crate::pool::job::PieceDone;
use road_ends::StepInput;

// Take a result if it is for this input and its piece is still missing. Drop duplicates and results of other steps.
// Return whether the result was taken. All other places stay as they were.
pub(super) fn accept(
    places: &mut Vec<Option<PieceAnswer>>,
    done: PieceDone,
    input: &StepInput,
    cars: usize,
) -> bool
    requires few { vec_len places.old ≤ MOST_WORKERS }
    requires cars { cars ≡ length (cars_of input.now.road) }
    requires short { cars ≤ GREATEST_LENGTH }
    requires gathered { AreGathered input.now places.old.items }
    ensures taken { IsTrue result → TakesOne places.old.items done.answer places.new.items }
    ensures dropped { IsFalse result → places.new ≡ places.old }
    ensures count { vec_len places.new ≡ vec_len places.old }
    ensures gathered { AreGathered input.now places.new.items }
{
    if !done.input.same(input) {
        return false;
    }
    let Some(place) = missing_place(places.as_slice(), done.piece, cars) else {
        return false;
    };
    let PieceDone { answer, .. } = done;
    places[place] = Some(answer);
    true
}

// Find the first worker that has this piece and has not answered yet.
fn missing_place(places: &[Option<PieceAnswer>], piece: Piece, cars: usize) -> Option<usize>
    requires few { length places.now ≤ MOST_WORKERS }
    requires short { cars ≤ GREATEST_LENGTH }
    ensures missing { IfSome result (IsMissing places.now) }
    ensures first { IfSome result (λ w. piece.first ≡ piece_start (length places.now) cars w) }
    ensures end { IfSome result (λ w. piece.end ≡ piece_start (length places.now) cars (w + 1)) }
{
    let workers = places.len() as u32;
    for worker in 0..workers {
        if places[worker as usize].is_none() && Piece::of(worker, workers, cars) == piece {
            return Some(worker as usize);
        }
    }
    None
}

// Append the speeds of all workers, in the order of the workers, to the empty list `whole`.
pub(super) fn put_together(
    whole: Vec<u8>,
    places: Vec<Option<PieceAnswer>>,
    input: &StepInput,
) -> PieceAnswer
    requires nothing { whole.items ≡ [] }
    requires some { 0 < vec_len places }
    requires there { AreThere (vec_len places) places.items }
    requires gathered { AreGathered input.now places.items }
    ensures { IfOk result (λ new. new.items ≡ input_speeds input.now) }
{
    let mut whole = Ok(whole);
    for place in places {
        whole = append(whole, place.unwrap());
    }
    whole
}
