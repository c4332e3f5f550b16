//! Counts the cars that pass sites in a step.

ghost use Rattle.std.specs.Prelude.{◌≡◌, ◌<◌, ◌≤◌, ◌+◌, ◌-◌, ◌^◌, ◌*◌, ℕ, length, slice_index, false};
ghost use Rattle.std.specs.List.{slice_index_or};
ghost use Rattle.road_columns.specs.Private.Sites.{pass_count, passes_of};

/// Count the cars that have passed sites in a step. At most one car passes a site in a step: the first car before it,
/// whose place is in `places`. Add 65,536 plus the speed of the car, in cells per step, to the count in `passes` of
/// each watched site that a car has passed.
#[inline(always)]
pub fn count(
    cells: &[u16],
    speeds: &[u8],
    sites: &[u16],
    places: &[u32],
    watched: &[bool],
    passes: &mut [u32],
)
    requires speeds { length speeds.now ≡ length cells.now }
    requires few { length cells.now < 2 ^ 32 }
    requires places { length places.now ≡ length sites.now }
    requires watched { length watched.now ≡ length sites.now }
    requires passes { length passes.old ≡ length sites.now }
    requires within { (d : ℕ) → d < length sites.now → slice_index places.now d < length cells.now }
    requires room { (d : ℕ) → d < length sites.now → slice_index passes.old d + 65791 < 2 ^ 32 }
    ensures as_many_passes { length passes.new ≡ length passes.old }
    ensures passes { (d : ℕ) → d < length sites.now → slice_index passes.new d
        ≡ slice_index passes.old d
        + passes_of cells.now speeds.now (slice_index_or watched.now d false) (slice_index sites.now d)
        (slice_index places.now d) }
{
    for site in 0..sites.len() {
        let place = places[site] as usize;
        let hit = cells[place] >= sites[site];
        passes[site] += count_of(hit, watched[site], speeds[place]);
    }
}

#[inline(always)]
fn count_of(hit: bool, watched: bool, speed: u8) -> u32
    ensures value { result ≡ pass_count hit watched speed }
    ensures bound { result ≤ 65791 }
{
    u32::from(hit & watched) * (65_536 + u32::from(speed))
}
