//! Motion of the cars in all regions of the road.

ghost use Rattle.std.specs.Prelude.{◌≡◌, ◌<◌, ◌≤◌, ◌+◌, ◌-◌, ◌/◌, ℕ, length, min, slice_index, IsFalse};
ghost use Rattle.road_cells.specs.declared.car.TheConstants.{GREATEST_SPEED};
ghost use Rattle.road_rules.specs.Speeds.{comes_about, slowed_speed};
ghost use Rattle.road_columns.specs.Private.EnteredList.{ArePlacesRising};
ghost use Rattle.road_columns.specs.Private.LooseWords.{AreFalling};
ghost use Rattle.road_columns.specs.Private.Motion.{chance_at};
ghost use Rattle.road_columns.specs.Private.Pieces.{BeginsAt, HaveWords, IsHigh16At, MovesCars};
ghost use Rattle.road_columns.specs.Private.Regions.{AreEndsOf, AreFree, IsOfRegion, region_at, wish_at};

use crate::motion::Chances;
use crate::pieces::advance_between;
use crate::step_words::{Piece, StepWords};

/// Adjacent cells at which the rules are the same for a car, from the first cell up to the next region.
#[derive(Clone, Copy)]
pub struct Region {
    /// The first cell.
    pub first: u16,
    /// The speed limit and the slowing chances of its cells.
    pub chances: Chances,
    /// The first blocked cell in front of these cells, or a cell past every road.
    pub block: u16,
}

/// Return false only if no car is slowed in these regions.
pub fn are_slowing(regions: &[Region]) -> bool
    ensures { IsFalse result → AreFree regions.now }
{
    regions.iter().any(|region| region.chances.standing > 0 || region.chances.moving > 0)
}

/// Move the cars of a piece, region by region, from the near end of the road on. `ends` has the place of the first car
/// before each region. No car of the piece reaches the cell that is stored at the place before the piece.
#[inline(never)]
pub fn advance_regions(
    cells: &mut [u16],
    speeds: &mut [u8],
    words: &StepWords,
    piece: Piece,
    regions: &[Region],
    ends: &[u32],
)
    requires limits { (r : ℕ) → r < length regions.now → (region_at regions.now r).chances.limit ≤ GREATEST_SPEED }
    requires low { 0 < piece.from }
    requires within { piece.to ≤ length cells.old }
    requires speeds { length speeds.old ≡ length cells.old }
    requires words { HaveWords words.now piece }
    requires falling { AreFalling cells.old piece.from piece.to }
    requires front { piece.from < piece.to → slice_index cells.old piece.from < slice_index cells.old (piece.from - 1) }
    requires some { 0 < length regions.now }
    requires ends { AreEndsOf (length regions.now) piece.from piece.to ends.now }
    requires blocks { (r q : ℕ) → IsOfRegion (length regions.now) ends.now r q → piece.from ≤ q
        → slice_index cells.old q < (region_at regions.now r).block }
    ensures moves { MovesCars piece.from piece.to cells.old speeds.old cells.new speeds.new }
    ensures speeds { (r q : ℕ) → IsOfRegion (length regions.now) ends.now r q → piece.from ≤ q → (word : ℕ) →
        let region = region_at regions.now r in
        let wish = wish_at region.chances.limit region.block cells.old speeds.old q in
        (0 < wish → IsHigh16At words.now.row.now words.now.index piece.last words.now.beside.now
        words.now.batches.now q (word / 65536))
        → slice_index speeds.new q ≡ slowed_speed wish
        (comes_about word (chance_at (slice_index speeds.old q) region.chances.standing region.chances.moving)) }
{
    let mut last = piece.last;
    let mut to = piece.to;
    for place in 0..regions.len() {
        let from = region_start(ends, place, piece.from);
        let first = first_from(words.beside, last, from);
        let part = Piece {
            from,
            to,
            first,
            last,
        };
        advance_region(cells, speeds, words, part, regions[place]);
        last = first;
        to = from;
    }
}

// Move the cars of a region.
#[inline(always)]
fn advance_region(
    cells: &mut [u16],
    speeds: &mut [u8],
    words: &StepWords,
    piece: Piece,
    region: Region,
)
    requires limit { region.chances.limit ≤ GREATEST_SPEED }
    requires low { 0 < piece.from }
    requires within { piece.to ≤ length cells.old }
    requires speeds { length speeds.old ≡ length cells.old }
    requires words { HaveWords words.now piece }
    requires begins { BeginsAt words.now.beside.now piece }
    requires falling { (q : ℕ) → piece.from ≤ q → q < piece.to
        → slice_index cells.old q < slice_index cells.old (q - 1) }
    requires block { (q : ℕ) → piece.from ≤ q → q < piece.to → slice_index cells.old q < region.block }
    ensures moves { MovesCars piece.from piece.to cells.old speeds.old cells.new speeds.new }
    ensures speeds { (q : ℕ) → piece.from ≤ q → q < piece.to → (word : ℕ) →
        let wish = wish_at region.chances.limit region.block cells.old speeds.old q in
        (0 < wish → IsHigh16At words.now.row.now words.now.index piece.last words.now.beside.now
        words.now.batches.now q (word / 65536))
        → slice_index speeds.new q ≡ slowed_speed wish
        (comes_about word (chance_at (slice_index speeds.old q) region.chances.standing region.chances.moving)) }
{
    if piece.from == piece.to {
        return;
    }
    let front = cells[piece.from - 1].min(region.block);
    advance_between(cells, speeds, words, piece, region.chances, front);
}

// Return the place at which the cars of a region start: just after the last car of the regions downstream, or, for the
// last region, at `piece_from`, where the piece starts. Cars farther downstream are at earlier places, so this is the
// place of the first car before the next region.
#[inline(always)]
fn region_start(ends: &[u32], region: usize, piece_from: usize) -> usize
    requires region { region < length ends.now }
    requires from { (r : ℕ) → r < length ends.now → piece_from ≤ slice_index ends.now r }
    requires fall { (r : ℕ) → r + 1 < length ends.now → slice_index ends.now (r + 1) ≤ slice_index ends.now r }
    ensures low { piece_from ≤ result }
    ensures high { result ≤ slice_index ends.now region }
    ensures next { region + 1 < length ends.now → result ≡ slice_index ends.now (region + 1) }
    ensures last { length ends.now ≤ region + 1 → result ≡ piece_from }
{
    if region + 1 < ends.len() {
        ends[region + 1] as usize
    } else {
        piece_from
    }
}

// Return how many of the first `last` places are before a place.
#[inline(always)]
fn first_from(places: &[u32], last: usize, place: usize) -> usize
    requires within { last ≤ length places.now }
    requires rising { ArePlacesRising last places.now }
    ensures bound { result ≤ last }
    ensures before { (i : ℕ) → i < result → slice_index places.now i < place }
    ensures after { (i : ℕ) → result ≤ i → i < last → place ≤ slice_index places.now i }
{
    let mut first = last;
    while first > 0 && places[first - 1] as usize >= place {
        first -= 1;
    }
    first
}
