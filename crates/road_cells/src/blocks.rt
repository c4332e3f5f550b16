//! Blocked cells: whether a cell is blocked, and how many blocked cells are not in front of it.

ghost use Rattle.std.specs.Prelude.{◌≡◌, ℕ, ◌<◌, ◌≤◌, length, slice_index};
ghost use Rattle.std.specs.List.Sorted.{IsNonDecreasing};
ghost use Rattle.road_cells.specs.Gap.{is_blocked, ArePartedAt};

/// Return whether a cell is blocked, by a binary search. `blocks` are the blocked cells, in rising order. It does not
/// allocate.
pub fn is_blocked(blocks: &[u32], cell: u32) -> bool
    requires { IsNonDecreasing blocks.now }
    ensures { result ≡ is_blocked blocks.now cell }
{
    blocks.binary_search(&cell).is_ok()
}

/// Count the blocked cells that are not in front of a cell, by a binary search. `blocks` are the blocked cells, in
/// rising order. It does not allocate.
pub fn reached_blocks(blocks: &[u32], cell: u32) -> usize
    requires { IsNonDecreasing blocks.now }
    ensures bound { result ≤ length blocks.now }
    ensures parted { ArePartedAt blocks.now cell result }
{
    blocks.partition_point(|block| *block <= cell)
}

/// Count the blocked cells that are not in front of a cell, given that those from index `most` on are in front of it.
/// `blocks` are the blocked cells, in rising order, and `most` is at most their number. It walks down from `most` and
/// does not allocate. It is for callers that visit cells in falling order: `most` is the count for the last cell that
/// they visited.
pub fn reached_blocks_below(blocks: &[u32], cell: u32, most: usize) -> usize
    requires rising { IsNonDecreasing blocks.now }
    requires bound { most ≤ length blocks.now }
    requires ahead { (i : ℕ) → most ≤ i → i < length blocks.now → cell < slice_index blocks.now i }
    ensures bound { result ≤ most }
    ensures parted { ArePartedAt blocks.now cell result }
{
    let mut reached = most;
    while reached > 0 && blocks[reached - 1] > cell {
        reached -= 1;
    }
    reached
}
