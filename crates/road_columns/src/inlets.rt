//! Words of the inlets.

ghost use Rattle.std.specs.Prelude.{◌≡◌, ◌<◌, ◌≤◌, ◌+◌, ◌*◌, ◌/◌, ◌^◌, ℕ, length, slice_index};
ghost use Rattle.road_plan.specs.declared.limits.TheConstants.{MOST_INLETS};
ghost use Rattle.road_ends.specs.Entries.{inlet_stream};
ghost use Rattle.road_columns.specs.Private.Drawn.{drawn_word};
ghost use Rattle.road_columns.specs.Private.EnteredList.{high16_in};

use crate::words::{Batch, Source};

// The stream of the first inlet. The next inlets have the next streams.
const FIRST_INLET_STREAM: u64 = 1 << 63;

/// Draw the words of the inlets for an interval.
#[inline(never)]
pub fn draw_inlets(source: Source, interval: u32, batches: &mut [Batch])
    requires interval { interval < 2 ^ 26 }
    requires few { length batches.old ≤ MOST_INLETS }
    ensures long { length batches.new ≡ length batches.old }
    ensures words { (i r : ℕ) → i < length batches.old → r < 64
        → high16_in batches.new i r ≡ drawn_word source (inlet_stream i) (64 * interval + r) / 65536 }
{
    for inlet in 0..batches.len() {
        batches[inlet] = source.batch(FIRST_INLET_STREAM + inlet as u64, interval);
    }
}
