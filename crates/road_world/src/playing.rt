//! Playing a list of events, one after another, from the opening world on.

ghost use Rattle.std.specs.Prelude.{◌≡◌, ◌≤◌, ◌++◌, ◌∷◌, [], IfOk, OnErr, OnOk, map};
ghost use Rattle.std.specs.Prelude.{vec_capacity, vec_len};
ghost use Rattle.std.specs.Arc.{arc_value};
ghost use Rattle.road_plan.specs.declared.limits.TheConstants.{MOST_REPLICAS};
ghost use Rattle.road_rewind.specs.Growth.{TicksAtMost, meter_after};
ghost use Rattle.road_world.specs.Answers.{AreAnswers, gone_after_answers};
ghost use Rattle.road_world.specs.Events.{accepted_events, message_of_winners, opening_world, world_of_events};
ghost use Rattle.road_world.specs.Events.{world_of_winners};
ghost use Rattle.road_world.specs.Headline.{Headline};
ghost use Rattle.road_world.specs.Stamps.{AreFresh, imported_stamps, issued_stamps};
ghost use Rattle.road_world.specs.Steps.{most_wasted_steps_of_events, steps_of_events};

use crate::event::Event;
use crate::faults::{PlayFault, WorldFault};
use crate::world::World;
use road_ends::Meter;
use road_plan::{OutOfMemory, Plan};
use road_replica::Reply;
use road_workers::Crew;
use std::alloc::Global;
use std::sync::Arc;

/// A world after some events, and the reply to each of them.
#[derive(Drop)]
pub struct Played {
    /// The world.
    pub world: World,
    /// One reply for each event, in order.
    pub replies: Vec<Result<Reply, WorldFault>>,
}

/// Play some events, one after another, in the world of a plan and `replicas` replicas, at most 64. A refused event
/// does nothing, and the events after it are still played. If an event fails for out of memory, that is its reply. The
/// meter counts the steps of the accepted events. For events that are refused because memory ran out or a worker was
/// lost, it also counts at most the steps that they may cost.
///
/// # Errors
///
/// `OutOfMemory` if there was no memory to open the world or for the list of replies. The meter has counted no step
/// then.
pub fn play<C: Crew>(
    alloc: Global,
    plan: Arc<Plan>,
    replicas: u32,
    events: &[Event],
    crew: &mut C,
    meter: &mut Meter,
) -> Result<Played, PlayFault>
    requires { replicas ≤ MOST_REPLICAS }
    ensures headline { IfOk result (λ played.
        Headline (arc_value plan) replicas events.now played.replies.items played.world) }
    // The world is what the accepted events have made (of edits, only the winners).
    ensures world { IfOk result (λ played. played.world
        ≡ world_of_winners (world_of_events (arc_value plan) replicas events.now played.replies.items)) }
    // Each event has its answer.
    ensures answers { IfOk result (λ played.
        AreAnswers (opening_world (arc_value plan) replicas) events.now played.replies.items) }
    // Each message is what its event put into it (of edits, only the winners).
    ensures messages { IfOk result (λ played. played.world.messages
        ≡ map message_of_winners (world_of_events (arc_value plan) replicas events.now played.replies.items).messages) }
    // No stamp is issued twice, and no issued stamp is that of an import.
    ensures stamps { IfOk result (λ played. AreFresh (issued_stamps played.replies.items)
        (imported_stamps (accepted_events events.now played.replies.items))) }
    // The meter counts the sum of the steps of the accepted events. For events refused because memory ran out or a
    // worker was lost, it also counts at most the steps that they may cost.
    ensures steps { IfOk result (λ played. TicksAtMost
        (most_wasted_steps_of_events (opening_world (arc_value plan) replicas) events.now played.replies.items)
        (meter_after meter.old
        (steps_of_events (opening_world (arc_value plan) replicas) events.now played.replies.items))
        meter.new) }
    ensures no_steps { OnErr result (meter.new ≡ meter.old) }
    ensures gone { IfOk result (λ played.
        C.times_gone crew.new ≡ gone_after_answers played.replies.items (C.times_gone crew.old)) }
    ensures not_gone { OnErr result (C.times_gone crew.new ≡ C.times_gone crew.old) }
{
    let mut world = World::open(alloc, plan, replicas)?;
    let mut replies = Vec::with_capacity(alloc, events.len())?;
    for event in events {
        let reply = world.apply(alloc, event, crew, meter);
        add(&mut replies, reply)?;
    }
    Ok(Played { world, replies })
}

// Append a reply.
fn add(
    replies: &mut Vec<Result<Reply, WorldFault>>,
    reply: Result<Reply, WorldFault>,
) -> Result<(), OutOfMemory>
    ensures added { OnOk result (replies.new.items ≡ replies.old.items ++ reply ∷ []) }
    ensures capacity { vec_capacity replies.old ≤ vec_capacity replies.new }
    ensures full { OnErr result (vec_capacity replies.old ≤ vec_len replies.old) }
{
    Ok(replies.push(reply)?)
}
