//! A source and a sink over memory, which know their bytes and can be made to fail.

ghost use Rattle.std.specs.Prelude.{◌≡◌, ◌≤◌, ◌<◌, ◌-◌, ◌==◌, Some, drop, false, is_err, is_ok, length, min, IfOk};
ghost use Rattle.std.specs.Prelude.{OnOk, OnErr, MatchResult};
ghost use Rattle.std.specs.Io.KnownBytes.{Keeps, ReadConsumes, WriteAppends};
ghost use Rattle.road_serve.specs.Failures.{RisesByOne};
ghost use Rattle.road_serve.specs.MemoryStreams.{is_failing};

use crate::faults::{ReadFailed, WriteFailed};
use crate::streams::{Sink, Source};

/// Which calls fail. Calls are counted from 0.
#[derive(Clone, Copy, Debug)]
pub enum Failing {
    /// No call is made to fail.
    Never,
    /// Only the call with this number is made to fail.
    Once(u64),
    /// The call with this number and all later calls are made to fail.
    From(u64),
}

impl Failing {
    // Return whether this call fails.
    fn fails(self, call: u64) -> bool
        ensures { result ≡ is_failing self call }
    {
        match self {
            Failing::Never => false,
            Failing::Once(failed) => call == failed,
            Failing::From(first) => call >= first,
        }
    }
}

// A counter of the calls of one kind, which decides which of them fail.
#[derive(Drop)]
struct Calls {
    made: u64,
    failing: Failing,
}

impl Calls {
    // Count the next call. Return whether it fails.
    fn count_call(&mut self) -> bool
        ensures fails { result ≡ is_failing self.old.failing self.old.made }
        ensures counted { RisesByOne self.old.made self.new.made }
        ensures unchanged { self.new.failing ≡ self.old.failing }
    {
        let fails = self.failing.fails(self.made);
        self.made = self.made.saturating_add(1);
        fails
    }
}

/// A source that gives these bytes, at most `step` of them in each call.
#[derive(Drop)]
pub struct MemorySource<'a> {
    bytes: &'a [u8],
    place: usize,
    step: usize,
    reads: Calls,
    at_end: bool,
    failures: u64,
    ghost inside: { place ≤ length bytes.now },
    ghost moves: { 0 < step },
}

impl<'a> MemorySource<'a> {
    /// Make a source of these bytes. `step` must be above 0.
    pub fn new(bytes: &'a [u8], step: usize, failing: Failing) -> MemorySource<'a>
        requires { 0 < step }
        ensures remaining { ⟦<MemorySource<'a> as Source>⟧.remaining result ≡ Some bytes.now }
        ensures failures { ⟦<MemorySource<'a> as Source>⟧.failures result ≡ 0 }
        ensures going { ⟦<MemorySource<'a> as Source>⟧.at_end result ≡ false }
        ensures step { result.step ≡ step }
        ensures failing { result.reads.failing ≡ failing }
        ensures none_made { result.reads.made ≡ 0 }
    {
        MemorySource {
            bytes,
            place: 0,
            step,
            reads: Calls { made: 0, failing },
            at_end: false,
            failures: 0,
        }
    }
}

impl<'a> Source for MemorySource<'a> {
    ghost remaining = { λ source. Some (drop source.place source.bytes.now) };

    ghost at_end = { λ source. source.at_end };

    ghost failures = { λ source. source.failures };

    fn read(&mut self, piece: &mut [u8]) -> Result<usize, ReadFailed>
        requires { 0 < length piece.old }
        ensures within { IfOk result (λ n. n ≤ length piece.new) }
        ensures bytes { ReadConsumes (⟦<MemorySource<'a> as Source>⟧.remaining self.old)
            (⟦<MemorySource<'a> as Source>⟧.remaining self.new) result piece.new }
        ensures ended { IfOk result (λ n. ⟦<MemorySource<'a> as Source>⟧.at_end self.new ≡ (n == 0)) }
        ensures well { OnOk result (self.new.failures ≡ self.old.failures) }
        ensures not_ended { OnErr result (⟦<MemorySource<'a> as Source>⟧.at_end self.new ≡ false) }
        ensures failed { OnErr result (RisesByOne self.old.failures self.new.failures) }
        // The call fails if it must fail. Otherwise it gives as many bytes as it may.
        ensures fails { is_err result ≡ is_failing self.old.reads.failing self.old.reads.made }
        ensures count { IfOk result (λ n. n
            ≡ min (min (length self.old.bytes.now - self.old.place) self.old.step) (length piece.old)) }
        ensures call { RisesByOne self.old.reads.made self.new.reads.made }
        ensures same_calls { self.new.reads.failing ≡ self.old.reads.failing }
        ensures same_step { self.new.step ≡ self.old.step }
        ensures same_bytes { self.new.bytes ≡ self.old.bytes }
    {
        if self.reads.count_call() {
            self.at_end = false;
            self.failures = self.failures.saturating_add(1);
            return Err(ReadFailed);
        }
        let left = self.bytes.len() - self.place;
        let count = left.min(self.step).min(piece.len());
        let next = &self.bytes[self.place..self.place + count];
        piece[..count].copy_from_slice(next);
        self.place += count;
        self.at_end = count == 0;
        Ok(count)
    }
}

/// A sink that stores the bytes that it takes, at most `room` bytes in all. A write to a full sink fails. The sink
/// takes at most `step` bytes in each call.
#[derive(Drop)]
pub struct MemorySink {
    bytes: Vec<u8>,
    room: usize,
    step: usize,
    writes: Calls,
    flushes: Calls,
    flushed: bool,
    failures: u64,
}

impl MemorySink {
    /// Make a sink that begins with these bytes, and takes as many bytes in each call as it has room for. Its writes
    /// and its flushes are counted separately.
    pub fn new(bytes: Vec<u8>, room: usize, writes: Failing, flushes: Failing) -> MemorySink
        ensures contents { ⟦<MemorySink as Sink>⟧.contents result ≡ Some bytes.items }
        ensures failures { ⟦<MemorySink as Sink>⟧.failures result ≡ 0 }
        ensures unflushed { ⟦<MemorySink as Sink>⟧.flushed result ≡ false }
        ensures room { result.room ≡ room }
        ensures step { result.step ≡ usize.MAX }
        ensures writes { result.writes.failing ≡ writes }
        ensures flushes { result.flushes.failing ≡ flushes }
        ensures none_made { (result.writes.made ≡ 0) × (result.flushes.made ≡ 0) }
    {
        MemorySink {
            bytes,
            room,
            step: usize::MAX,
            writes: Calls {
                made: 0,
                failing: writes,
            },
            flushes: Calls {
                made: 0,
                failing: flushes,
            },
            flushed: false,
            failures: 0,
        }
    }

    /// Return this sink, but let it take at most `step` bytes in each call. If `step` is 0, each write fails.
    pub fn with_step(self, step: usize) -> MemorySink
        ensures { result ≡ record self { step = step } }
    {
        MemorySink { step, ..self }
    }

    /// Return the bytes with which the sink began, followed by those that it took.
    pub fn bytes(&self) -> &[u8]
        ensures { ⟦<MemorySink as Sink>⟧.contents self.now ≡ Some result.now }
    {
        self.bytes.as_slice()
    }
}

impl Sink for MemorySink {
    ghost contents = { λ sink. Some sink.bytes.items };

    ghost flushed = { λ sink. sink.flushed };

    ghost failures = { λ sink. sink.failures };

    fn write(&mut self, piece: &[u8]) -> Result<usize, WriteFailed>
        requires { 0 < length piece.now }
        ensures some { IfOk result (λ n. 0 < n) }
        ensures within { IfOk result (λ n. n ≤ length piece.now) }
        ensures bytes { WriteAppends (⟦<MemorySink as Sink>⟧.contents self.old)
            (⟦<MemorySink as Sink>⟧.contents self.new) result piece.now }
        ensures unflushed { ⟦<MemorySink as Sink>⟧.flushed self.new ≡ false }
        ensures well { OnOk result (self.new.failures ≡ self.old.failures) }
        ensures failed { OnErr result (RisesByOne self.old.failures self.new.failures) }
        // Unless the call must fail, it takes as many bytes as the sink's step and its room allow.
        ensures fails { OnOk result (is_failing self.old.writes.failing self.old.writes.made ≡ false) }
        ensures count { IfOk result (λ n. n ≡ min (min (length piece.now) self.old.room) self.old.step) }
        ensures room { MatchResult result
            (λ n. self.new.room ≡ self.old.room - n) (λ _. self.new.room ≡ self.old.room) }
        ensures call { RisesByOne self.old.writes.made self.new.writes.made }
        ensures same_calls { self.new.writes.failing ≡ self.old.writes.failing }
        ensures same_flushes { self.new.flushes ≡ self.old.flushes }
        ensures same_step { self.new.step ≡ self.old.step }
    {
        self.flushed = false;
        let count = piece.len().min(self.room).min(self.step);
        if self.writes.count_call()
            || count == 0
            || self.bytes.extend_from_slice(&piece[..count]).is_err()
        {
            self.failures = self.failures.saturating_add(1);
            return Err(WriteFailed);
        }
        self.room -= count;
        Ok(count)
    }

    fn flush(&mut self) -> Result<(), WriteFailed>
        ensures bytes { Keeps (⟦<MemorySink as Sink>⟧.contents self.old) (⟦<MemorySink as Sink>⟧.contents self.new) }
        ensures flushed { ⟦<MemorySink as Sink>⟧.flushed self.new ≡ is_ok result }
        ensures well { OnOk result (self.new.failures ≡ self.old.failures) }
        ensures failed { OnErr result (RisesByOne self.old.failures self.new.failures) }
        // The call fails if and only if it must fail.
        ensures fails { is_err result ≡ is_failing self.old.flushes.failing self.old.flushes.made }
        ensures call { RisesByOne self.old.flushes.made self.new.flushes.made }
        ensures same_calls { self.new.flushes.failing ≡ self.old.flushes.failing }
        ensures same_writes { self.new.writes ≡ self.old.writes }
        ensures same_room { self.new.room ≡ self.old.room }
    {
        self.flushed = !self.flushes.count_call();
        if !self.flushed {
            self.failures = self.failures.saturating_add(1);
            return Err(WriteFailed);
        }
        Ok(())
    }
}
