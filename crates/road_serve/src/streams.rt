//! Sources and sinks of bytes.

ghost use Rattle.std.specs.Prelude.{◌≡◌, ℕ, ◌≤◌, ◌<◌, ◌==◌, List, Option, Bool, false, is_ok, length, IfOk, OnOk};
ghost use Rattle.std.specs.Prelude.{OnErr};
ghost use Rattle.std.specs.Io.KnownBytes.{Keeps, ReadConsumes, WriteAppends};
ghost use Rattle.road_serve.specs.Failures.{RisesByOne};

use crate::faults::{ReadFailed, WriteFailed};

/// A source of bytes. Contracts see the bytes that are left, if they are known.
pub trait Source {
    /// The bytes that later reads will give, if they are known.
    ghost remaining: { Self → Option (List ℕ) };

    /// Whether the last read returned the end of input.
    ghost at_end: { Self → Bool };

    /// The number of reads that failed, at most 2^64 - 1.
    ghost failures: { Self → ℕ };

    /// Read the next bytes into the front of the piece, which must not be empty, and return their number. 0 means the
    /// end of input.
    ///
    /// # Errors
    ///
    /// `ReadFailed` if the source could not be read. It then keeps all bytes that are left.
    fn read(&mut self, piece: &mut [u8]) -> Result<usize, ReadFailed>
        requires { 0 < length piece.old }
        ensures within { IfOk result (λ n. n ≤ length piece.new) }
        ensures bytes { ReadConsumes (remaining self.old) (remaining self.new) result piece.new }
        ensures ended { IfOk result (λ n. at_end self.new ≡ (n == 0)) }
        ensures well { OnOk result (failures self.new ≡ failures self.old) }

        ensures not_ended { OnErr result (at_end self.new ≡ false) }
        ensures failed { OnErr result (RisesByOne (failures self.old) (failures self.new)) };
}

/// A sink of bytes. Contracts see its contents, if they are known.
pub trait Sink {
    /// The bytes that it holds, if they are known.
    ghost contents: { Self → Option (List ℕ) };

    /// Whether the last call was a flush that succeeded.
    ghost flushed: { Self → Bool };

    /// The number of calls that failed, at most 2^64 - 1.
    ghost failures: { Self → ℕ };

    /// Take bytes from the front of the piece, which must not be empty, and return their number.
    ///
    /// # Errors
    ///
    /// `WriteFailed` if the sink takes none of them.
    fn write(&mut self, piece: &[u8]) -> Result<usize, WriteFailed>
        requires { 0 < length piece.now }
        ensures some { IfOk result (λ n. 0 < n) }
        ensures within { IfOk result (λ n. n ≤ length piece.now) }
        ensures bytes { WriteAppends (contents self.old) (contents self.new) result piece.now }
        ensures unflushed { flushed self.new ≡ false }
        ensures well { OnOk result (failures self.new ≡ failures self.old) }
        ensures failed { OnErr result (RisesByOne (failures self.old) (failures self.new)) };

    /// Pass on all bytes that were taken.
    ///
    /// # Errors
    ///
    /// `WriteFailed` if they could not be passed on. The sink still holds them.
    fn flush(&mut self) -> Result<(), WriteFailed>
        ensures bytes { Keeps (contents self.old) (contents self.new) }
        ensures flushed { flushed self.new ≡ is_ok result }
        ensures well { OnOk result (failures self.new ≡ failures self.old) }
        ensures failed { OnErr result (RisesByOne (failures self.old) (failures self.new)) };
}
