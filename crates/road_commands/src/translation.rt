//! Translation of the world's replies and faults to the answers and faults of the program.

ghost use Rattle.std.specs.Prelude.{◌≡◌, IfErr, IfOk, Some, false, string_bytes};
ghost use Rattle.std.specs.Result.{result_ok};
ghost use Rattle.road_scenario.specs.Faults.{FitsSomePlan};
ghost use Rattle.road_replica.specs.Refusals.{growth_fault};
ghost use Rattle.road_world.specs.Events.{carried_edits};
ghost use Rattle.road_world.specs.declared.faults.WorldFault.TheVariants as world_faults;
ghost use Rattle.road_format.specs.Views.{answer_view};
ghost use Rattle.road_commands.specs.Laboratory as laboratory;
ghost use Rattle.road_commands.specs.Private.Changes as changes;

use road_format::{Answer, Refusal};
use road_plan::OutOfMemory;
use road_replica::{ReplicaFault, Reply};
use road_workers::CrewFault;
use road_world::{Event, Message, WorldFault};
use std::alloc::Global;

// Return whether an event leaves the edits of its replica unchanged.
pub(crate) fn keeps_edits(event: &Event) -> bool
    ensures { result ≡ changes.keeps_edits event.now }
{
    match event {
        Event::Edit { .. } => false,
        Event::Withdraw { .. } => false,
        Event::Import { .. } => false,
        Event::Send { .. } => true,
        Event::Heads { .. } => true,
        Event::Beyond { .. } => true,
        Event::Take { .. } => false,
        Event::Advance { .. } => true,
    }
}

// Translate the world's reply to an event that makes no message.
pub(crate) fn answer_of(reply: Reply) -> Answer
    requires { changes.names_message reply ≡ false }
    ensures { answer_view result ≡ changes.reply_answer reply }
{
    match reply {
        Reply::Stamped(stamp) => Answer::Stamped(stamp),
        Reply::Touched(step) => Answer::Touched(step),
        Reply::Message(_) => unreachable!(),
        Reply::Horizon(to) => Answer::Horizon(to),
    }
}

// Translate a refusal of the world to its answer, or to a crew's fault if it has no answer.
pub(crate) fn answer_of_fault(fault: WorldFault) -> Result<Answer, CrewFault>
    ensures answered { changes.AnswersRefusal (laboratory.world_refusal fault) result }
    ensures lost { IfErr result (λ lost. fault ≡ world_faults.Replica (growth_fault lost)) }
{
    match fault {
        WorldFault::NoReplica => Ok(Answer::Refused(Refusal::NoReplica)),
        WorldFault::NoMessage => Ok(Answer::Refused(Refusal::NoMessage)),
        WorldFault::Replica(fault) => answer_of_replica_fault(fault),
    }
}

// Translate a refusal of a replica to its answer, or to a crew's fault if it has no answer.
pub(crate) fn answer_of_replica_fault(fault: ReplicaFault) -> Result<Answer, CrewFault>
    ensures answered { changes.AnswersRefusal (laboratory.replica_refusal fault) result }
    ensures lost { IfErr result (λ lost. fault ≡ growth_fault lost) }
{
    match replica_refusal(fault) {
        Ok(refusal) => Ok(Answer::Refused(refusal)),
        Err(lost) => Err(lost),
    }
}

// Translate a refusal of a replica. `WorkersGone` and `OutOfMemory` have no answer.
pub(crate) fn replica_refusal(fault: ReplicaFault) -> Result<Refusal, CrewFault>
    ensures refusal { result_ok result ≡ laboratory.replica_refusal fault }
    ensures lost { IfErr result (λ lost. fault ≡ growth_fault lost) }
{
    match fault {
        ReplicaFault::NoObject => Ok(Refusal::NoObject),
        ReplicaFault::Step => Ok(Refusal::Step),
        ReplicaFault::ValueOutOfRange => Ok(Refusal::ValueOutOfRange),
        ReplicaFault::Count => Ok(Refusal::Count),
        ReplicaFault::Insider => Ok(Refusal::Insider),
        ReplicaFault::CountsSpent => Ok(Refusal::CountsSpent),
        ReplicaFault::Horizon => Ok(Refusal::Horizon),
        ReplicaFault::NoDetector => Ok(Refusal::NoDetector),
        ReplicaFault::Range => Ok(Refusal::Range),
        ReplicaFault::NotSimulated => Ok(Refusal::NotSimulated),
        ReplicaFault::WorkersGone => Err(CrewFault::WorkersGone),
        ReplicaFault::OutOfMemory => Err(CrewFault::OutOfMemory),
    }
}

// Make the answer for a message with this name, from what the message carries.
pub(crate) fn answer_of_message(
    alloc: Global,
    message: &Message,
    name: String,
) -> Result<Answer, OutOfMemory>
    requires { FitsSomePlan (carried_edits (Some message.now)) }
    ensures { IfOk result (λ answer. answer_view answer ≡ changes.message_answer (string_bytes name) message.now) }
{
    match message {
        Message::Whole(edits) => Ok(Answer::Sent {
            message: name,
            size: edits.len() as u64,
        }),
        Message::Asked(heads) => Ok(Answer::Heads {
            message: name,
            heads: heads.list().to_vec(alloc)?,
        }),
        Message::Answer(edits) => Ok(Answer::Delta {
            message: name,
            edits: edits.edits(alloc)?,
        }),
    }
}
