//! Replies that wait to be written.

ghost use Rattle.std.specs.Prelude.{◌≡◌, ◌++◌, ℕ, [], true, OnOk, OnErr, IfErr};
ghost use Rattle.std.specs.Io.KnownBytes.{Appends};
ghost use Rattle.road_serve.specs.Failures.{RisesByOne};
ghost use Rattle.road_serve.specs.Faults.{gone_after_call};
ghost use Rattle.road_serve.specs.StreamViews.{sink_view, TakesAllBut, TakesFront, Stops};

use crate::faults::{ServeFault, WriteFailed};
use crate::streams::Sink;

// The maximum number of bytes of replies that wait.
const MOST_WAITING: usize = 65_536;

// Write all these bytes.
fn write_all<W: Sink>(writer: &mut W, bytes: &[u8]) -> Result<(), WriteFailed>
    ensures all { OnOk result (Appends (W.contents writer.old) (W.contents writer.new) bytes.now) }
    ensures well { OnOk result (W.failures writer.new ≡ W.failures writer.old) }

    ensures front { OnErr result (TakesFront (sink_view W.Sink writer.old) (sink_view W.Sink writer.new) bytes.now) }
    ensures failed { OnErr result (RisesByOne (W.failures writer.old) (W.failures writer.new)) }
{
    let mut done = 0;
    while done < bytes.len() {
        let count = writer.write(&bytes[done..])?;
        done += count;
    }
    Ok(())
}

// Append a reply to the waiting replies. If they would then be too long, write them instead, and then the reply.
// `Write` if the sink failed, `OutOfMemory` if an allocation failed: a prefix of the waiting replies and this reply has
// then been written.
pub(crate) fn append_reply<W: Sink>(
    waiting: &mut Vec<u8>,
    writer: &mut W,
    reply: &[u8],
) -> Result<(), ServeFault>
    ensures ok { OnOk result (TakesAllBut (sink_view W.Sink writer.old) (sink_view W.Sink writer.new)
        (waiting.old.items ++ reply.now) waiting.new.items) }
    ensures well { OnOk result (W.failures writer.new ≡ W.failures writer.old) }
    ensures err { IfErr result (λ fault. Stops (sink_view W.Sink writer.old) (sink_view W.Sink writer.new)
        (waiting.old.items ++ reply.now) fault) }
    ensures no_crew { (n : ℕ) → gone_after_call result n ≡ n }
{
    if reply.len() <= MOST_WAITING.saturating_sub(waiting.len()) {
        waiting.extend_from_slice(reply)?;
        return Ok(());
    }
    write_all(writer, waiting.as_slice())?;
    waiting.clear();
    write_all(writer, reply)?;
    Ok(())
}

// Write the waiting replies, and flush. `WriteFailed` if a write or the flush failed: a prefix of the waiting replies
// has then been written.
pub(crate) fn flush<W: Sink>(waiting: &mut Vec<u8>, writer: &mut W) -> Result<(), WriteFailed>
    ensures all { OnOk result (Appends (W.contents writer.old) (W.contents writer.new) waiting.old.items) }
    ensures flushed { OnOk result (W.flushed writer.new ≡ true) }
    ensures none_wait { OnOk result (waiting.new.items ≡ []) }
    ensures well { OnOk result (W.failures writer.new ≡ W.failures writer.old) }

    ensures front { OnErr result (TakesFront (sink_view W.Sink writer.old) (sink_view W.Sink writer.new)
        waiting.old.items) }
    ensures failed { OnErr result (RisesByOne (W.failures writer.old) (W.failures writer.new)) }
{
    write_all(writer, waiting.as_slice())?;
    waiting.clear();
    writer.flush()
}
