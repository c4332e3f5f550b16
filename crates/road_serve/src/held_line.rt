//! The line that has not ended.

ghost use Rattle.std.specs.Prelude.{◌≡◌, ◌≤◌, ◌↔◌, ◌++◌, ℕ, List, [], IfSome, IsTrue, OnOk, Some, length, option_map};
ghost use Rattle.road_plan.specs.declared.limits.TheConstants.{LONGEST_LINE};
ghost use Rattle.road_serve.specs.Dialogue.{Holds};

use road_plan::OutOfMemory;
use road_plan::limits::LONGEST_LINE;
use std::alloc::Global;
use std::marker::Model;

// The bytes of a line that have come so far.
#[derive(Drop)]
enum Held {
    // These bytes, at most as many as a line may have.
    Bytes(Vec<u8>),
    // More bytes than a line may have. None of them is held.
    TooLong,
}

// The bytes of the line that has not ended, at most as many as a line may have.
#[derive(Drop)]
pub(crate) struct HeldLine {
    held: Held,
}

impl Model for HeldLine {
    ghost use Rattle.std.specs.Prelude.{List, Option, ℕ};

    ghost Value = { Option (List ℕ) };

    ghost use Rattle.road_serve.specs.Private.HeldLines.{bytes_held, IsShort};

    ghost view = { λ line. bytes_held line.held };

    ghost invariant = { λ line. IsShort (bytes_held line.held) };
}

impl HeldLine {
    // Make a line that has no bytes yet.
    pub fn new(alloc: Global) -> HeldLine
        ensures { result ≡ Some [] }
    {
        HeldLine {
            held: Held::Bytes(Vec::new(alloc)),
        }
    }

    // Hold more bytes of the line.
    pub fn hold(&mut self, bytes: &[u8]) -> Result<(), OutOfMemory>
        ensures { (line : List ℕ) → Holds self.old line → OnOk result (Holds self.new (line ++ bytes.now)) }
    {
        let Held::Bytes(held) = &mut self.held else {
            return Ok(());
        };
        if bytes.len() > LONGEST_LINE.saturating_sub(held.len()) {
            self.held = Held::TooLong;
            return Ok(());
        }
        held.extend_from_slice(bytes)
    }

    // Return the bytes of the line, if it is not too long.
    pub fn bytes(&self) -> Option<&[u8]>
        ensures bytes { option_map (λ bytes. bytes.now) result ≡ self.now }
        ensures few { IfSome result (λ bytes. length bytes.now ≤ LONGEST_LINE) }
    {
        match &self.held {
            Held::Bytes(bytes) => Some(bytes.as_slice()),
            Held::TooLong => None,
        }
    }

    // Return whether the line has no bytes yet.
    pub fn is_empty(&self) -> bool
        ensures { IsTrue result ↔ (self.now ≡ Some []) }
    {
        match &self.held {
            Held::Bytes(bytes) => bytes.is_empty(),
            Held::TooLong => false,
        }
    }

    // Remove all bytes of the line.
    pub fn clear(&mut self, alloc: Global)
        ensures { self.new ≡ Some [] }
    {
        if let Held::Bytes(bytes) = &mut self.held {
            bytes.clear();
            return;
        }
        self.held = Held::Bytes(Vec::new(alloc));
    }
}
