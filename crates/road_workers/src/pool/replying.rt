//! The replies of a worker of a pool.

ghost use Rattle.std.specs.Prelude.{◌≡◌, Ok, Err, IsFalse, IsTrue};
ghost use Rattle.crossbeam_channel.specs.Err.{send_message};
ghost use Rattle.crossbeam_channel.specs.declared.err.SendError.{SendError};
ghost use Rattle.crossbeam_channel.specs.declared.err.SendError.TheVariants.{Disconnected};
ghost use Rattle.road_workers.specs.declared.pool.job.Reply.{Reply};

use crate::pool::job::Reply;
use crossbeam_channel::{SendError, Sender};
use std::sync::Wait;

// What a worker returns: it has said that it has gone, or nobody takes replies. Only `say_gone` makes this value.
#[derive(Drop)]
pub(crate) struct SaidGone {
    said: (),
}

// Say that a worker has gone.
pub(crate) fn say_gone<R: Wait>(rt: &R, replies: &Sender<Reply>) -> SaidGone {
    deliver(rt, Reply::Gone, |reply: Reply| replies.send(rt, reply));
    SaidGone { said: () }
}

// Send a reply, and send it again if there was no memory for the message. Return whether it was taken; if not, nobody
// takes replies.
pub(super) fn deliver<R: Wait, F: Fn(Reply) -> Result<(), SendError<Reply>>>(
    rt: &R,
    reply: Reply,
    send: F,
) -> bool
    requires may_send { F.IsAlwaysCallable send }
    requires handed_back { (given : Reply) → (fault : SendError Reply) → F.post send given (Err fault)
        → send_message fault ≡ given }
    ensures taken { IsTrue result → F.post send reply (Ok tt) }
    ensures nobody { IsFalse result → F.post send reply (Err (Disconnected reply)) }
{
    let mut again = reply;
    for _ in rt.forever() {
        match send(again) {
            Ok(()) => return true,
            Err(SendError::Disconnected(_)) => return false,
            Err(SendError::OutOfMemory(back)) => again = back,
        }
    }
    unreachable!()
}
