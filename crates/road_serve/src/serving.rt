//! Reading an input, and writing its replies.

ghost use Rattle.std.specs.Prelude.{◌≡◌, [], min, None};
ghost use Rattle.road_serve.specs.Dialogue.{HasAnswered};
ghost use Rattle.road_serve.specs.Serving.{AnswersInput, program_serving};
ghost use Rattle.road_serve.specs.StreamViews.{SinkView, source_view, sink_view};

use crate::dialogue::Dialogue;
use crate::faults::ServeFault;
use crate::streams::{Sink, Source};
use road_plan::limits::{MOST_BYTES, MOST_LINES};
use road_replica::Crowds;
use road_workers::Crew;
use std::alloc::Global;
use std::hash::BuildHasher;

// The maximum number of bytes that are read at once.
const PIECE: usize = 16_384;

/// The result of a successful run of `serve`.
#[derive(Debug, Drop)]
pub struct Served {
    /// The number of replies, without the reply to the plan line.
    pub lines: u32,
}

// How much of an input is answered.
#[derive(Clone, Copy, Debug)]
struct Limits {
    // The maximum number of lines after the plan line.
    lines: u32,
    // The maximum number of bytes in all.
    bytes: u64,
}

/// Read an input to its end, and write the reply to each of its lines. At most 1,000,000 lines after the plan line are
/// answered, and those of at most 2^32 bytes. The crew runs the road for everything that changes a replica, and
/// `crowds` gathers crowds. The hasher hashes names to find them, and no reply depends on it. If no crowd is read, only
/// calls of the source, the sink and the crew may block.
///
/// # Errors
///
/// - `BadPlan`: the plan line is refused. `TooMany`: it is not refused, and there is a byte past the limits. In both
///   cases all replies have been written.
/// - `Read`: the source failed. The replies to all lines that were read completely have been written.
/// - `Write`: the sink failed. `WorkersGone`: the crew or a crowd returned it.
///   `OutOfMemory`: an allocation failed. In these cases a prefix of the replies has been written.
pub fn serve<R: Source, W: Sink, C: Crew, K: Crowds, S: BuildHasher + Copy>(
    alloc: Global,
    reader: &mut R,
    writer: &mut W,
    crew: &mut C,
    crowds: &K,
    hasher: S,
) -> Result<Served, ServeFault>
    ensures { AnswersInput (program_serving (source_view R.Source reader.old) (source_view R.Source reader.new)
        (sink_view W.Sink writer.old) (sink_view W.Sink writer.new) (C.times_gone crew.old) (C.times_gone crew.new)
        result) }
{
    serve_within(
        alloc, reader, writer, crew, crowds, hasher, MOST_LINES, MOST_BYTES,
    )
}

/// Serve as `serve` does, with at most `lines` lines after the plan line, and at most `bytes` bytes.
///
/// # Errors
///
/// As for `serve`.
pub fn serve_within<R: Source, W: Sink, C: Crew, K: Crowds, S: BuildHasher + Copy>(
    alloc: Global,
    reader: &mut R,
    writer: &mut W,
    crew: &mut C,
    crowds: &K,
    hasher: S,
    lines: u32,
    bytes: u64,
) -> Result<Served, ServeFault>
    ensures { AnswersInput (record {
      most_lines = lines;
      most_bytes = bytes;
      source_before = source_view R.Source reader.old;
      source_after = source_view R.Source reader.new;
      sink_before = sink_view W.Sink writer.old;
      sink_after = sink_view W.Sink writer.new;
      gone_before = C.times_gone crew.old;
      gone_after = C.times_gone crew.new;
      result = result;
    }) }
{
    let limits = Limits { lines, bytes };
    let mut dialogue = Dialogue::new(alloc, lines, hasher);
    answer_input(reader, writer, crew, crowds, &mut dialogue, limits)
}

// Read an input to its end into a new dialogue, and write the replies.
//
// The dialogue is borrowed: each way out of a function that owns it would drop it, and for each drop the prover visits
// everything that a laboratory holds.
fn answer_input<R: Source, W: Sink, C: Crew, K: Crowds, S: BuildHasher + Copy>(
    reader: &mut R,
    writer: &mut W,
    crew: &mut C,
    crowds: &K,
    dialogue: &mut Dialogue<S>,
    limits: Limits,
) -> Result<Served, ServeFault>
    requires none_came { (first : SinkView) → HasAnswered limits.lines [] first first dialogue.old }
    requires going { dialogue.old.over ≡ None }
    requires none_wait { dialogue.old.waiting ≡ [] }
    ensures { AnswersInput (record {
      most_lines = limits.lines;
      most_bytes = limits.bytes;
      source_before = source_view R.Source reader.old;
      source_after = source_view R.Source reader.new;
      sink_before = sink_view W.Sink writer.old;
      sink_after = sink_view W.Sink writer.new;
      gone_before = C.times_gone crew.old;
      gone_after = C.times_gone crew.new;
      result = result;
    }) }
{
    let mut buffer = [0u8; PIECE];
    let mut room = limits.bytes;
    loop {
        let count = reader.read(&mut buffer)?;
        if count == 0 {
            dialogue.finish(writer, crew, crowds)?;
            if let Some(end) = dialogue.early_end() {
                return Err(end.fault());
            }
            return Ok(Served {
                lines: limits.lines.saturating_sub(dialogue.lines_left()),
            });
        }
        let within = bytes_within(room, count);
        dialogue.take(writer, &buffer[..within], crew, crowds)?;
        if let Some(end) = dialogue.early_end() {
            return Err(end.fault());
        }
        if within < count {
            return Err(ServeFault::TooMany);
        }
        room -= count as u64;
    }
}

// Return how many of this number of bytes may still be answered, if there is room for `room` bytes.
fn bytes_within(room: u64, bytes: usize) -> usize
    ensures { result ≡ min room bytes }
{
    room.min(bytes as u64) as usize
}
