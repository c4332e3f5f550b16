//! The stretches of a span, gathered from the workers of a pool.

ghost use Rattle.std.specs.Prelude.{◌≡◌, ◌+◌, ◌<◌, ◌≤◌, length, vec_len, IfOk, IfSome, IsFalse, IsTrue};
ghost use Rattle.road_plan.specs.declared.limits.TheConstants.{GREATEST_LENGTH, MOST_WORKERS};
ghost use Rattle.road_cells.specs.Cars.{cars_of};
ghost use Rattle.road_workers.specs.Private.Gathered.{AreRun, AreThere, IsMissing, TakesOne, cars_on_first};
ghost use Rattle.road_workers.specs.Private.Stretches.{IsJoined, IsRunOf, cut};

use crate::pool::job::{StretchAnswer, StretchDone};
use crate::pool::sharing::Shares;
use crate::stretch::joining::{Joined, join_next, with_room};
use crate::stretch::{is_near, stretch_at};
use road_cells::Road;
use road_ends::{OutOfMemory, Span, Stretch};
use road_plan::limits::GREATEST_HORIZON;

// Take the result of a stretch of this span if it is still missing. Drop duplicates and results of other spans. Return
// whether the result was taken. All other places stay as they were.
pub(super) fn accept_run(
    places: &mut Vec<Option<StretchAnswer>>,
    done: StretchDone,
    shares: Shares,
) -> bool
    requires few { vec_len places.old ≤ MOST_WORKERS }
    requires own { shares.own ≤ 1 }
    requires gathered { AreRun shares.span.now shares.road.now shares.own places.old.items }
    ensures taken { IsTrue result → TakesOne places.old.items done.answer places.new.items }
    ensures dropped { IsFalse result → places.new ≡ places.old }
    ensures count { vec_len places.new ≡ vec_len places.old }
    ensures gathered { AreRun shares.entry.span.now shares.entry.road.now shares.entry.own places.new.items }
{
    let Some(place) = missing_stretch(places.as_slice(), done.stretch, shares) else {
        return false;
    };
    if !is_asked(&done, shares.span, shares.road) {
        return false;
    }
    let StretchDone { answer, .. } = done;
    places[place] = Some(answer);
    true
}

// Find the first worker that has this stretch and has not answered yet.
fn missing_stretch(
    places: &[Option<StretchAnswer>],
    stretch: Stretch,
    shares: Shares,
) -> Option<usize>
    requires few { length places.now ≤ MOST_WORKERS }
    requires own { shares.own ≤ 1 }
    ensures missing { IfSome result (IsMissing places.now) }
    ensures first { IfSome result (λ w. stretch.first
        ≡ cut shares.entry.span.now.plan.cells (cars_of shares.entry.road.now)
        (shares.entry.own + length places.now) (shares.entry.own + w)) }
    ensures end { IfSome result (λ w. stretch.end
        ≡ cut shares.entry.span.now.plan.cells (cars_of shares.entry.road.now)
        (shares.entry.own + length places.now) (shares.entry.own + w + 1)) }
    ensures order { IfSome result (λ _. stretch.first ≤ stretch.end) }
    ensures short { IfSome result (λ _. stretch.end ≤ GREATEST_LENGTH) }
{
    let workers = places.len() as u32;
    for worker in 0..workers {
        if places[worker as usize].is_none() && shares.stretch_of(workers, worker) == stretch {
            return Some(worker as usize);
        }
    }
    None
}

// Return whether a stretch was run for this span of this road.
fn is_asked(done: &StretchDone, span: &Span, road: &Road) -> bool
    requires order { done.now.stretch.first ≤ done.now.stretch.end }
    requires short { done.now.stretch.end ≤ GREATEST_LENGTH }
    ensures { IsTrue result → IfOk done.now.answer
        (IsRunOf done.now.stretch.first done.now.stretch.end span.now road.now) }
{
    if !done.span.same(span) {
        return false;
    }
    is_near(&done.near, span, road, done.stretch)
}

// Join the results of the stretches in their order, those of the workers after the caller's own.
pub(super) fn put_side_by_side(
    shares: Shares,
    front: Joined,
    places: Vec<Option<StretchAnswer>>,
) -> Result<Joined, OutOfMemory>
    requires few { vec_len places ≤ MOST_WORKERS }
    requires some { 0 < vec_len places }
    requires own { shares.own ≤ 1 }
    requires there { AreThere (vec_len places) places.items }
    requires gathered { AreRun shares.span.now shares.road.now shares.own places.items }
    requires front { IsJoined (cut shares.span.now.plan.cells (cars_of shares.road.now)
        (shares.own + vec_len places) shares.own) shares.span.now shares.road.now front }
    ensures { IfOk result (IsJoined shares.entry.span.now.plan.cells shares.entry.span.now shares.entry.road.now) }
{
    let mut whole = with_room(front, cars_behind(places.as_slice(), shares));
    let Shares { span, road, own } = shares;
    let cells = span.plan().length();
    let count = own + places.len() as u32;
    let mut place = own;
    for answer in places {
        let stretch = stretch_at(road, cells, count, place);
        whole = put_behind(span, road, stretch, whole, answer.unwrap());
        place += 1;
    }
    whole
}

// Count the cars that are on the stretches of all workers after the span. Room is made for no more cars than these: an
// allocation for more might fail although one for these succeeds.
fn cars_behind(places: &[Option<StretchAnswer>], shares: Shares) -> usize
    requires few { length places.now ≤ MOST_WORKERS }
    requires own { shares.own ≤ 1 }
    ensures { result ≤ cars_on_first (length places.now)
        (cut shares.entry.span.now.plan.cells (cars_of shares.entry.road.now) (shares.entry.own + length places.now))
        shares.entry.own places.now }
{
    let workers = places.len() as u32;
    let mut cars = 0usize;
    for worker in 0..workers {
        if let Some(Ok(ran)) = &places[worker as usize] {
            let stretch = shares.stretch_of(workers, worker);
            cars = cars.saturating_add(ran.road.between(stretch.first, stretch.end).len());
        }
    }
    cars
}

// Join the result of a stretch to the results of all stretches before it.
fn put_behind(
    span: &Span,
    road: &Road,
    stretch: Stretch,
    front: Result<Joined, OutOfMemory>,
    next: StretchAnswer,
) -> Result<Joined, OutOfMemory>
    requires order { stretch.first ≤ stretch.end }
    requires front { IfOk front (IsJoined stretch.first span.now road.now) }
    requires next { IfOk next (IsRunOf stretch.first stretch.end span.now road.now) }
    ensures { IfOk result (IsJoined stretch.end span.now road.now) }
{
    prove!(span.steps() <= GREATEST_HORIZON);
    let front = front?;
    let next = next?;
    join_next(span, road, stretch, front, next)
}
