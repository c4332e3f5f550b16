//! Readers and writers of std as sources and sinks.

ghost use Rattle.std.specs.Prelude.{◌≡◌, false};

use crate::faults::{ReadFailed, WriteFailed};
use crate::streams::{Sink, Source};
use std::io;

/// A source that reads from a reader of std. It stores no bytes: its remaining bytes are those of the reader, if the
/// reader knows them.
#[derive(Drop)]
pub struct StdSource<R: io::Read + Drop> {
    reader: R,
    at_end: bool,
    failures: u64,
}

impl<R: io::Read + Drop> StdSource<R> {
    /// Make the source that reads from this reader.
    pub fn new(reader: R) -> StdSource<R>
        ensures remaining { ⟦<StdSource<R> as Source>⟧.remaining result ≡ R.remaining reader }
        ensures going { ⟦<StdSource<R> as Source>⟧.at_end result ≡ false }
        ensures failures { ⟦<StdSource<R> as Source>⟧.failures result ≡ 0 }
    {
        StdSource {
            reader,
            at_end: false,
            failures: 0,
        }
    }
}

impl<R: io::Read + Drop> Source for StdSource<R> {
    ghost remaining = { λ source. R.remaining source.reader };

    ghost at_end = { λ source. source.at_end };

    ghost failures = { λ source. source.failures };

    fn read(&mut self, piece: &mut [u8]) -> Result<usize, ReadFailed> {
        match self.reader.read(piece) {
            Ok(count) => {
                self.at_end = count == 0;
                Ok(count)
            }
            Err(_) => {
                self.at_end = false;
                self.failures = self.failures.saturating_add(1);
                Err(ReadFailed)
            }
        }
    }
}

/// A sink that writes to a writer of std. Its contents are those of the writer, if the writer knows them.
#[derive(Drop)]
pub struct StdSink<W: io::Write + Drop> {
    writer: W,
    flushed: bool,
    failures: u64,
}

impl<W: io::Write + Drop> StdSink<W> {
    /// Make the sink that writes to this writer.
    pub fn new(writer: W) -> StdSink<W>
        ensures contents { ⟦<StdSink<W> as Sink>⟧.contents result ≡ W.contents writer }
        ensures unflushed { ⟦<StdSink<W> as Sink>⟧.flushed result ≡ false }
        ensures failures { ⟦<StdSink<W> as Sink>⟧.failures result ≡ 0 }
    {
        StdSink {
            writer,
            flushed: false,
            failures: 0,
        }
    }
}

impl<W: io::Write + Drop> Sink for StdSink<W> {
    ghost contents = { λ sink. W.contents sink.writer };

    ghost flushed = { λ sink. sink.flushed };

    ghost failures = { λ sink. sink.failures };

    fn write(&mut self, piece: &[u8]) -> Result<usize, WriteFailed> {
        self.flushed = false;
        match self.writer.write(piece) {
            Ok(0) | Err(_) => {
                self.failures = self.failures.saturating_add(1);
                Err(WriteFailed)
            }
            Ok(count) => Ok(count),
        }
    }

    fn flush(&mut self) -> Result<(), WriteFailed> {
        match self.writer.flush() {
            Ok(()) => {
                self.flushed = true;
                Ok(())
            }
            Err(_) => {
                self.flushed = false;
                self.failures = self.failures.saturating_add(1);
                Err(WriteFailed)
            }
        }
    }
}
