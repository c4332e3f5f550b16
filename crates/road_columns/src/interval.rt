//! Words of an interval: 64 steps, the first one a multiple of 64.

ghost use Rattle.std.specs.Prelude.{◌≡◌, ◌<◌, ◌≤◌, ◌+◌, ◌*◌, ◌/◌, ◌%◌, ◌^◌, ℕ, List, length, slice_index, IsTrue, OnOk};
ghost use Rattle.road_plan.specs.declared.parts.WordKind.{WordKind};
ghost use Rattle.road_words.specs.Words.{word};
ghost use Rattle.road_columns.specs.Private.Drawn.{drawn_word};
ghost use Rattle.road_columns.specs.Private.Entered.{number_with};
ghost use Rattle.road_columns.specs.Private.Entering.{IsPutIn};
ghost use Rattle.road_columns.specs.Private.Lanes.{place_of};
ghost use Rattle.road_columns.specs.Private.LooseWords.{AreFalling, HaveLooseWords};

use crate::cars::insert;
use crate::drawing::append;
use crate::entered::move_later;
use crate::words::{Batch, INTERVAL, Source};
use road_ends::OutOfMemory;
use std::alloc::Global;

/// The words of an interval. A car that has entered between others in the interval has its words in `batches`, beside
/// the rows, so that no row is moved. Every other car has its words in a column of the rows.
#[derive(Drop)]
pub struct IntervalWords {
    pub source: Source,
    /// Whether the words of the inlets are drawn for the interval of the next step.
    pub drawn: bool,
    /// Whether the words of the cars are drawn too. They are needed only if cars are slowed.
    pub worded: bool,
    /// One row for each step of the interval.
    pub rows: Vec<u16>,
    /// The number of cars that have entered between others.
    pub entered: usize,
    /// The places of these cars in the columns, in rising order.
    pub beside: Vec<u32>,
    /// The words of these cars.
    pub batches: Vec<Batch>,
    pub inlets: Vec<Batch>,
    ghost batches_each: { length batches.items ≡ length beside.items },
}

impl IntervalWords {
    ghost use Rattle.road_columns.specs.Private.Interval.{CanKeep, KeepsCar, MakesRows, entered_of_words};

    /// Return true only if the words that a step needs are drawn. `slowing` says whether cars are slowed.
    pub fn are_drawn(&self, slowing: bool) -> bool
        ensures drawn { IsTrue result → IsTrue self.now.drawn }
        ensures worded { IsTrue result → IsTrue slowing → IsTrue self.now.worded }
    {
        self.drawn && (self.worded || !slowing)
    }

    /// Make rows of `width` words, and room for the words of `beside` cars, unless they are there. New rows do not keep
    /// the words of the old ones.
    ///
    /// # Errors
    ///
    /// `OutOfMemory` if an allocation fails. The source, the inlets and `drawn` do not change then.
    pub fn make_rows(
        &mut self,
        alloc: Global,
        width: usize,
        beside: usize,
    ) -> Result<(), OutOfMemory>
        requires width { width < 65536 }
        requires beside { beside < 65536 }
        ensures makes { MakesRows self.old self.new }
        ensures rows { OnOk result (length self.new.rows.items ≡ 64 * width) }
        ensures beside { OnOk result (beside ≤ length self.new.beside.items) }
    {
        if self.rows.len() == INTERVAL * width && beside <= self.beside.len() {
            return Ok(());
        }
        let rows = vec![in alloc; 0u16; INTERVAL * width]?;
        let places = vec![in alloc; 0u32; beside]?;
        let batches = vec![in alloc; [0u16; INTERVAL]; beside]?;
        self.rows = rows;
        self.beside = places;
        self.batches = batches;
        Ok(())
    }

    /// Draw and keep the words of a car that enters at a step and a place, if cars have words in this interval. The
    /// columns end before `tail`, and a row has `width` words.
    #[inline(always)]
    pub fn keep(&mut self, number: u32, step: u32, place: usize, tail: usize, width: usize)
        requires step { step < 2 ^ 27 }
        requires can { CanKeep self.old place tail width }
        ensures keeps { KeepsCar self.old self.new tail }
        ensures words { IsTrue self.old.worded → (kind : WordKind)
            → ((stream place : ℕ) → drawn_word self.old.source stream place ≡ word kind stream place)
            → (head : ℕ) → (cells cells' : List ℕ) → (numbers : ℕ → ℕ) → (c : ℕ)
            → head ≤ place → AreFalling cells head tail → IsPutIn cells cells' place tail c 0
            → ((i : ℕ) → head ≤ i → i < place → c < slice_index cells i)
            → ((i : ℕ) → place ≤ i → i < tail → slice_index cells i < c)
            → HaveLooseWords kind (64 * (step / 64)) width (step % 64) self.old.rows.items (entered_of_words self.old)
            head tail cells numbers
            → HaveLooseWords kind (64 * (step / 64)) width (step % 64) self.new.rows.items (entered_of_words self.new)
            head (tail + 1) cells' (number_with place number numbers) }
    {
        if !self.worded {
            return;
        }
        let words = self.source.batch(u64::from(number), step / 64);
        self.keep_batch(&words, (step % 64) as usize, place, tail, width);
    }

    // Keep the words of a car from a step of the interval on: in the next column of the rows if the car is behind all
    // others, and beside the rows, in `batches`, if it is between others.
    #[inline(never)]
    fn keep_batch(&mut self, words: &Batch, step: usize, place: usize, tail: usize, width: usize)
        requires step { step < 64 }
        requires can { CanKeep self.old place tail width }
        ensures keeps { KeepsCar self.old self.new tail }
        ensures words { (kind : WordKind) → (first head : ℕ) → (cells cells' : List ℕ) → (number : ℕ → ℕ)
            → (new c : ℕ)
            → head ≤ place → AreFalling cells head tail → IsPutIn cells cells' place tail c 0
            → ((i : ℕ) → head ≤ i → i < place → c < slice_index cells i)
            → ((i : ℕ) → place ≤ i → i < tail → slice_index cells i < c)
            → ((i : ℕ) → i < 64 → slice_index words.now i ≡ word kind new (first + place_of i) / 65536)
            → HaveLooseWords kind first width step self.old.rows.items (entered_of_words self.old)
            head tail cells number
            → HaveLooseWords kind first width step self.new.rows.items (entered_of_words self.new)
            head (tail + 1) cells'
            (number_with place new number) }
    {
        if place == tail {
            append(words, &mut self.rows, width, step, tail - self.entered);
            return;
        }
        let before = move_later(&mut self.beside, self.entered, place as u32);
        insert(&mut self.beside, before, self.entered, place as u32);
        insert(&mut self.batches, before, self.entered, *words);
        self.entered += 1;
    }
}
