//! Sources of random words.

ghost use Rattle.std.specs.Prelude.{◌≡◌, ℕ};

/// A source of random words.
pub trait Words {
    /// The word for each stream and place.
    ghost word_of: { Self → ℕ → ℕ → ℕ };

    /// Return the word at a place of a stream. The word is the same however often it is drawn, and in whatever order.
    /// The call does not allocate.
    fn word(&self, stream: u64, place: u64) -> u32
        ensures { result ≡ word_of self.now stream place };
}
