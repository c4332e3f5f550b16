//! Motion of the cars at some places of the columns.

ghost use Rattle.std.specs.Prelude.{◌≡◌, ◌<◌, ◌≤◌, ◌+◌, ◌-◌, ◌/◌, ℕ, length, min, slice_index};
ghost use Rattle.road_cells.specs.declared.car.TheConstants.{GREATEST_SPEED};
ghost use Rattle.road_rules.specs.Speeds.{comes_about, slowed_speed};
ghost use Rattle.road_columns.specs.Private.Motion.{chance_at};
ghost use Rattle.road_columns.specs.Private.Pieces.{ahead_at, wanted_at, BeginsAt, HaveWords, IsHigh16At, MovesCars};

use crate::motion::{Chances, advance};
use crate::step_words::{Piece, Platoon, StepWords};

/// Move the cars of a platoon.
#[inline(always)]
pub fn advance_in(
    cells: &mut [u16],
    speeds: &mut [u8],
    row: &[u16],
    cars: Platoon,
    chances: Chances,
    front: u16,
)
    requires limit { chances.limit ≤ GREATEST_SPEED }
    requires order { cars.from ≤ cars.to }
    requires within { cars.to ≤ length cells.old }
    requires speeds { length speeds.old ≡ length cells.old }
    requires row { cars.at + (cars.to - cars.from) ≤ length row.now }
    requires falling { (q : ℕ) → cars.from ≤ q → q < cars.to
        → slice_index cells.old q < ahead_at cars.from front cells.old q }
    ensures moves { MovesCars cars.from cars.to cells.old speeds.old cells.new speeds.new }
    ensures speeds { (q : ℕ) → cars.from ≤ q → q < cars.to → (word : ℕ)
        → (0 < wanted_at cars.from front chances.limit cells.old speeds.old q
        → slice_index row.now (cars.at + (q - cars.from)) ≡ word / 65536)
        → slice_index speeds.new q ≡ slowed_speed (wanted_at cars.from front chances.limit cells.old speeds.old q)
        (comes_about word (chance_at (slice_index speeds.old q) chances.standing chances.moving)) }
{
    advance(
        &mut cells[cars.from..cars.to],
        &mut speeds[cars.from..cars.to],
        &row[cars.at..cars.at + (cars.to - cars.from)],
        chances,
        front,
    );
}

/// Move the cars of a piece, from the near end of the road on. Each car has its word in the row, or in a batch beside
/// it. The first car may not reach the cell `front`.
#[inline(never)]
pub fn advance_between(
    cells: &mut [u16],
    speeds: &mut [u8],
    words: &StepWords,
    piece: Piece,
    chances: Chances,
    front: u16,
)
    requires limit { chances.limit ≤ GREATEST_SPEED }
    requires within { piece.to ≤ length cells.old }
    requires speeds { length speeds.old ≡ length cells.old }
    requires words { HaveWords words.now piece }
    requires begins { BeginsAt words.now.beside.now piece }
    requires earlier { piece.first ≤ piece.from }
    requires falling { (q : ℕ) → piece.from ≤ q → q < piece.to
        → slice_index cells.old q < ahead_at piece.from front cells.old q }
    ensures moves { MovesCars piece.from piece.to cells.old speeds.old cells.new speeds.new }
    ensures speeds { (q : ℕ) → piece.from ≤ q → q < piece.to → (word : ℕ)
        → (0 < wanted_at piece.from front chances.limit cells.old speeds.old q
        → IsHigh16At words.now.row.now words.now.index piece.last words.now.beside.now words.now.batches.now q
        (word / 65536))
        → slice_index speeds.new q ≡ slowed_speed (wanted_at piece.from front chances.limit cells.old speeds.old q)
        (comes_about word (chance_at (slice_index speeds.old q) chances.standing chances.moving)) }
{
    let mut end = piece.to;
    let mut car = piece.last;
    while car > piece.first {
        let place = words.beside[car - 1] as usize;
        let ahead = cells[place];
        let behind = Platoon {
            from: place + 1,
            to: end,
            at: place + 1 - car,
        };
        advance_in(cells, speeds, words.row, behind, chances, ahead);
        let next = if place > piece.from {
            cells[place - 1]
        } else {
            front
        };
        let alone = Platoon {
            from: place,
            to: place + 1,
            at: words.index,
        };
        advance_in(cells, speeds, &words.batches[car - 1], alone, chances, next);
        end = place;
        car -= 1;
    }
    let rest = Platoon {
        from: piece.from,
        to: end,
        at: piece.from - piece.first,
    };
    advance_in(cells, speeds, words.row, rest, chances, front);
}
