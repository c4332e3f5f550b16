//! The count of computed steps.

ghost use Rattle.std.specs.Prelude.{◌≡◌, ◌+◌, min};

use std::marker::Model;

/// A counter of computed steps.
#[derive(Debug, Drop)]
pub struct Meter {
    ticks: u64,
}

impl Model for Meter {
    ghost use Rattle.std.specs.Prelude.{ℕ};

    ghost Value = { ℕ };

    ghost view = { λ meter. meter.ticks };
}

impl Meter {
    /// Make a meter at 0.
    pub fn new() -> Self
        ensures { result ≡ 0 }
    {
        Meter { ticks: 0 }
    }

    /// Return the number of steps counted, at most 2^64 - 1.
    pub fn ticks(&self) -> u64
        ensures { result ≡ self.now }
    {
        let Meter { ticks } = self;
        *ticks
    }

    /// Count a computed step. The count does not go above 2^64 - 1.
    pub fn tick(&mut self)
        ensures { self.new ≡ min (self.old + 1) u64.MAX }
    {
        self.ticks = self.ticks.saturating_add(1);
    }

    /// Count `steps` computed steps. The count does not go above 2^64 - 1.
    pub fn count(&mut self, steps: u32)
        ensures { self.new ≡ min (self.old + steps) u64.MAX }
    {
        self.ticks = self.ticks.saturating_add(u64::from(steps));
    }
}
