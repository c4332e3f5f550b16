//! One place for the answer of each worker of a pool.

ghost use Rattle.std.specs.Prelude.{◌≡◌, ◌≤◌, length, vec_len, IfOk, IsTrue};
ghost use Rattle.road_workers.specs.Private.Gathered.{AreMissing, AreThere};

use road_ends::OutOfMemory;
use std::alloc::Global;

// Make one place for each worker. None has answered yet.
pub(super) fn places_for<A: Drop>(
    alloc: Global,
    workers: u32,
) -> Result<Vec<Option<A>>, OutOfMemory>
    ensures count { IfOk result (λ places. vec_len places ≡ workers) }
    ensures missing { IfOk result (λ places. AreMissing places.items) }
{
    let mut places = Vec::with_capacity(alloc, workers as usize)?;
    for _ in 0..workers {
        places.push(None)?;
    }
    Ok(places)
}

// Return whether the first `workers` workers have answered.
pub(super) fn are_there<A>(places: &[Option<A>], workers: u32) -> bool
    requires { workers ≤ length places.now }
    ensures { IsTrue result → AreThere workers places.now }
{
    for worker in 0..workers {
        if places[worker as usize].is_none() {
            return false;
        }
    }
    true
}
