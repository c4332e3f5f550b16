//! A world: its replicas, the messages that were sent, and the effect of each event on them.

ghost use Rattle.std.specs.Prelude.{◌≡◌, ◌<◌, ◌≤◌, ◌↔◌, ℕ, IfErr, IfOk, IfSome, IsOk, IsSome, OnErr, OnOk, length};
ghost use Rattle.std.specs.Prelude.{Err, MatchOption, None, Some, map, string_bytes, true};
ghost use Rattle.std.specs.Arc.{arc_value};
ghost use Rattle.std.specs.List.{slice_get};
ghost use Rattle.road_plan.specs.Plan.{IsWithinLimits};
ghost use Rattle.road_plan.specs.declared.limits.TheConstants.{MOST_REPLICAS};
ghost use Rattle.road_scenario.specs.Faults.{AreInRange, FitsSomePlan};
ghost use Rattle.road_scenario.specs.Winners.{AreWinners, winners};
ghost use Rattle.road_sheet.specs.Sheets.{IsSheet, opening_sheet};
ghost use Rattle.road_sheet.specs.Shown.{rows_at, run_at, total_at};
ghost use Rattle.road_replica.specs.Refusals.{rows_fault, state_fault, totals_fault};
ghost use Rattle.road_replica.specs.declared.reply.Reply.TheVariants as replies;
ghost use Rattle.road_world.specs.Answers.{IsQueryRefusal, edits_wanted_fault, fault_of_event, gone_after_answer};
ghost use Rattle.road_world.specs.Answers.{heads_wanted_fault, query_fault, replica_number, sheet_at};
ghost use Rattle.road_world.specs.Applied.{IsApplied, IsMade, posted_answer};
ghost use Rattle.road_world.specs.Events as worlds;
ghost use Rattle.road_world.specs.Events.{asked_heads, carried_edits, message_of_event, messages_with, sending_event};
ghost use Rattle.road_world.specs.Events.{opening_world, replica_at, world_of_winners};
ghost use Rattle.road_world.specs.Stamps.{IsNew, issued_stamp};
ghost use Rattle.road_world.specs.Private.LocalEvents.{local_event};
ghost use Rattle.road_world.specs.declared.event.Event.TheVariants as events;
ghost use Rattle.road_world.specs.declared.faults.WorldFault.TheVariants.{NoMessage};

use crate::event::Event;
use crate::faults::WorldFault;
use crate::message::Message;
use crate::sending::Sending;
use road_cells::Road;
use road_delta::Heads;
use road_detector::Totals;
use road_ends::Meter;
use road_plan::{OutOfMemory, Plan};
use road_replica::{LocalEdit, Replica, Reply};
use road_scenario::{Edit, Scenario, Value};
use road_workers::Crew;
use std::alloc::Global;
use std::marker::Model;
use std::sync::Arc;

/// The replicas of a plan, numbered from 0, and the messages between them, numbered from 0 in the order in which they
/// were made. Messages are never removed.
#[derive(Drop)]
pub struct World {
    plan: Arc<Plan>,
    replicas: Vec<Replica>,
    messages: Vec<Message>,
}

impl Model for World {
    ghost use Rattle.std.specs.Prelude.{map};
    ghost use Rattle.std.specs.Arc.{arc_value};
    ghost use Rattle.std.specs.Coded.{codes};
    ghost use Rattle.road_scenario.specs.Instances.EditOrder.{edits_code};
    ghost use Rattle.road_world.specs.Events.{World};
    ghost use Rattle.road_world.specs.Private.Worlds.{IsWorldKept, world_replica};

    ghost Value = { World };

    ghost coded = { Prim.hlevel (codes, edits_code) };

    ghost view = { λ world. record {
      plan = arc_value world.plan;
      replicas = map world_replica world.replicas.items;
      messages = world.messages.items;
    } };

    ghost invariant = { λ world. IsWorldKept (arc_value world.plan) world.replicas.items world.messages.items };
}

impl World {
    /// Open the world of a plan and `replicas` replicas, at most 64, before any event.
    ///
    /// # Errors
    ///
    /// `OutOfMemory` if an allocation failed. Without replicas it does not fail.
    pub fn open(alloc: Global, plan: Arc<Plan>, replicas: u32) -> Result<World, OutOfMemory>
        requires { replicas ≤ MOST_REPLICAS }
        ensures world { IfOk result (λ world. world ≡ opening_world (arc_value plan) replicas) }
        ensures of_none { replicas ≡ 0 → IsOk result }
    {
        let mut opened = Vec::with_capacity(alloc, replicas as usize)?;
        for number in 0..replicas {
            opened.push(opening_replica(alloc, &plan, number)?)?;
        }
        Ok(World {
            plan,
            replicas: opened,
            messages: Vec::new(alloc),
        })
    }

    /// Return the plan. The world's replicas and messages hold only winners.
    pub fn plan(&self) -> &Arc<Plan>
        ensures plan { arc_value result.now ≡ self.now.plan }
        ensures winners { world_of_winners self.now ≡ self.now }
    {
        &self.plan
    }

    /// Return the replica with a number, or `None` if the world has no such replica.
    pub fn replica(&self, number: u32) -> Option<&Replica>
        ensures there { IsSome result ↔ (number < length self.now.replicas) }
        ensures number { IfSome result (λ replica. replica.now.number ≡ number) }
        ensures sheet { IfSome result (λ replica. replica.now.sheet ≡ sheet_at self.now number) }
        ensures is_sheet { IfSome result (λ replica. IsSheet replica.now.sheet) }
    {
        self.replicas.get(number as usize)
    }

    /// Return the message with a number, or `None` if the world has no such message. Its edits are winners and fit the
    /// plan.
    pub fn message(&self, number: u64) -> Option<&Message>
        ensures there { IsSome result ↔ (number < length self.now.messages) }
        ensures message { IfSome result (λ message. slice_get self.now.messages number ≡ Some message.now) }
        ensures winners { AreWinners (carried_edits (slice_get self.now.messages number)) }
        ensures fits { AreInRange self.now.plan (carried_edits (slice_get self.now.messages number)) }
    {
        self.messages.get(number as usize)
    }

    /// Make a message of a replica. The world stays unchanged: [`World::post`] appends the message.
    ///
    /// # Errors
    ///
    /// The errors of [`World::apply`].
    pub fn message_by(
        &self,
        alloc: Global,
        at: u32,
        sending: Sending,
    ) -> Result<Message, WorldFault>
        ensures made { IsMade self.now (sending_event at sending) result }
        ensures fits { IfOk result (λ message. FitsSomePlan (carried_edits (Some message))) }
        ensures no_crew { IfErr result (λ fault. (n : ℕ) → gone_after_answer (Err fault) n ≡ n) }
    {
        if self.replicas.len() <= at as usize {
            return Err(WorldFault::NoReplica);
        }
        match sending {
            Sending::Whole => self.whole_message(at),
            Sending::Asked => self.heads_message(alloc, at),
            Sending::Answer { asked } => self.delta_message(alloc, at, asked),
        }
    }

    /// Apply an event whose message is already made: append the message, and return its number. It must be the message
    /// that the event makes in this world, and [`World::apply`] must not refuse the event for a named cause.
    ///
    /// # Errors
    ///
    /// `OutOfMemory` if an allocation failed. The world is then unchanged.
    pub fn post(&mut self, event: &Event, message: Message) -> Result<u64, OutOfMemory>
        requires accepted { fault_of_event self.old event.now ≡ None }
        requires made { message_of_event self.old event.now ≡ Some message }
        ensures applied { (meter : ℕ) → IsApplied event.now (posted_answer result) self.old self.new meter meter }
    {
        let number = self.messages.len() as u64;
        self.messages.push(message)?;
        Ok(number)
    }

    // ---- queries

    /// Return the road of a replica at a step. Whatever edits reached the replica, it is the road of the run of their
    /// winners from step zero.
    ///
    /// # Errors
    ///
    /// `NoReplica` if the world has no replica of the number, else as [`Replica::state`].
    pub fn state(&self, alloc: Global, replica: u32, step: u32) -> Result<Road, WorldFault>
        ensures state { IfOk result (λ road. (reached : worlds.World) → self.now ≡ world_of_winners reached →
            road ≡ run_at self.now.plan (winners (replica_at reached replica).edits) step) }
        ensures accepted { IfOk result (λ _.
            query_fault self.now replica (state_fault (sheet_at self.now replica) step) ≡ None) }
        ensures refused { IfErr result
            (IsQueryRefusal (query_fault self.now replica (state_fault (sheet_at self.now replica) step))) }
    {
        let Some(shown) = self.replica(replica) else {
            return Err(WorldFault::NoReplica);
        };
        Ok(shown.state(alloc, step)?)
    }

    /// Return the rows of a replica's space-time diagram. Whatever edits reached the replica, they are the rows of the
    /// run of their winners from step zero, each with the blocks of its step.
    ///
    /// # Errors
    ///
    /// `NoReplica` if the world has no replica of the number, else as [`Replica::rows`].
    pub fn rows(
        &self,
        alloc: Global,
        replica: u32,
        from: u32,
        to: u32,
    ) -> Result<Vec<String>, WorldFault>
        ensures rows { IfOk result (λ rows. (reached : worlds.World) → self.now ≡ world_of_winners reached →
            map string_bytes rows.items ≡ rows_at self.now.plan (winners (replica_at reached replica).edits) from to) }
        ensures accepted { IfOk result (λ _.
            query_fault self.now replica (rows_fault (sheet_at self.now replica) from to) ≡ None) }
        ensures refused { IfErr result
            (IsQueryRefusal (query_fault self.now replica (rows_fault (sheet_at self.now replica) from to))) }
    {
        let Some(shown) = self.replica(replica) else {
            return Err(WorldFault::NoReplica);
        };
        Ok(shown.rows(alloc, from, to)?)
    }

    /// Return the counts of a detector at a replica, in the steps from `from` to before `to`. Whatever edits reached
    /// the replica, they are the counts of the run of their winners from step zero.
    ///
    /// # Errors
    ///
    /// `NoReplica` if the world has no replica of the number, else as [`Replica::totals`].
    pub fn totals(
        &self,
        alloc: Global,
        replica: u32,
        detector: u32,
        from: u32,
        to: u32,
    ) -> Result<Totals, WorldFault>
        ensures totals { IfOk result (λ totals. (reached : worlds.World) → self.now ≡ world_of_winners reached →
            totals ≡ total_at self.now.plan (winners (replica_at reached replica).edits) detector from to) }
        ensures accepted { IfOk result (λ _.
            query_fault self.now replica (totals_fault (sheet_at self.now replica) detector from to) ≡ None) }
        ensures refused { IfErr result
            (IsQueryRefusal (query_fault self.now replica
            (totals_fault (sheet_at self.now replica) detector from to))) }
    {
        let Some(shown) = self.replica(replica) else {
            return Err(WorldFault::NoReplica);
        };
        Ok(shown.totals(alloc, detector, from, to)?)
    }

    // ---- events

    /// Apply an event: its replica writes, or makes a message. Before an accepted write returns, every simulated step
    /// shows its edits. The meter counts exactly these steps: for edits those from the last checkpoint at or before the
    /// touched step up to the horizon, or none if no simulated step is touched; for an advance the new steps; none for
    /// a message, or for an event that is refused for a named cause.
    ///
    /// # Errors
    ///
    /// `NoReplica` if the world has no replica of the event's number. Else `NoMessage` if the message that the event
    /// takes or answers is missing or of the wrong kind. Else the error of the replica. The event has then done
    /// nothing.
    pub fn apply<C: Crew>(
        &mut self,
        alloc: Global,
        event: &Event,
        crew: &mut C,
        meter: &mut Meter,
    ) -> Result<Reply, WorldFault>
        ensures applied { IsApplied event.now result self.old self.new meter.old meter.new }
        // An issued stamp is new at the event's replica.
        ensures stamp { IfSome (issued_stamp result) (IsNew self.old (replica_number event.now)) }
        // The messages are those before, followed by the one that the event makes, if it makes one.
        ensures messages { OnOk result (self.new.messages
            ≡ messages_with (message_of_event self.old event.now) self.old.messages) }
        ensures gone { C.times_gone crew.new ≡ gone_after_answer result (C.times_gone crew.old) }
    {
        if event.replica() as usize >= self.replicas.len() {
            return Err(WorldFault::NoReplica);
        }
        self.apply_there(alloc, event, crew, meter)
    }

    // Apply an event at an existing replica.
    fn apply_there<C: Crew>(
        &mut self,
        alloc: Global,
        event: &Event,
        crew: &mut C,
        meter: &mut Meter,
    ) -> Result<Reply, WorldFault>
        requires { replica_number event.now < length self.old.replicas }
        ensures applied { IsApplied event.now result self.old self.new meter.old meter.new }
        ensures gone { C.times_gone crew.new ≡ gone_after_answer result (C.times_gone crew.old) }
    {
        match event {
            Event::Edit {
                at,
                object,
                step,
                value,
            } => {
                let local = LocalEdit {
                    object: *object,
                    step: *step,
                    value: Value::Put(*value),
                };
                self.make_edit(alloc, *at, local, crew, meter)
            }
            Event::Withdraw { at, object, step } => {
                let local = LocalEdit {
                    object: *object,
                    step: *step,
                    value: Value::Withdrawn,
                };
                self.make_edit(alloc, *at, local, crew, meter)
            }
            Event::Import { at, edits } => self.import(alloc, *at, edits, crew, meter),
            Event::Send { at } => self.send(alloc, *at, Sending::Whole),
            Event::Heads { at } => self.send(alloc, *at, Sending::Asked),
            Event::Beyond { at, message } => {
                self.send(alloc, *at, Sending::Answer { asked: *message })
            }
            Event::Take { at, message } => self.take(alloc, *at, *message, crew, meter),
            Event::Advance { at, to } => self.advance(alloc, *at, *to, crew, meter),
        }
    }

    // ---- writes

    // Make an edit at a replica: set a number, or withdraw what is set.
    fn make_edit<C: Crew>(
        &mut self,
        alloc: Global,
        at: u32,
        local: LocalEdit,
        crew: &mut C,
        meter: &mut Meter,
    ) -> Result<Reply, WorldFault>
        requires { at < length self.old.replicas }
        ensures applied { IsApplied (local_event at local.object local.step local.value) result self.old self.new
            meter.old meter.new }
        ensures gone { C.times_gone crew.new ≡ gone_after_answer result (C.times_gone crew.old) }
    {
        let replica = &mut self.replicas[at as usize];
        let stamp = replica.make_edit(alloc, local, crew, meter)?;
        Ok(Reply::Stamped(stamp))
    }

    // Import edits at a replica.
    fn import<C: Crew>(
        &mut self,
        alloc: Global,
        at: u32,
        edits: &Vec<Edit>,
        crew: &mut C,
        meter: &mut Meter,
    ) -> Result<Reply, WorldFault>
        requires { at < length self.old.replicas }
        ensures applied { IsApplied (events.Import at edits.now) result self.old self.new meter.old meter.new }
        ensures gone { C.times_gone crew.new ≡ gone_after_answer result (C.times_gone crew.old) }
    {
        let replica = &mut self.replicas[at as usize];
        let touched = replica.import(alloc, edits, crew, meter)?;
        Ok(Reply::Touched(touched))
    }

    // Take a message at a replica.
    fn take<C: Crew>(
        &mut self,
        alloc: Global,
        at: u32,
        message: u64,
        crew: &mut C,
        meter: &mut Meter,
    ) -> Result<Reply, WorldFault>
        requires { at < length self.old.replicas }
        ensures applied { IsApplied (events.Take at message) result self.old self.new meter.old meter.new }
        ensures gone { C.times_gone crew.new ≡ gone_after_answer result (C.times_gone crew.old) }
    {
        let Some(scenario) = carried_edits(&self.messages, message) else {
            return Err(WorldFault::NoMessage);
        };
        let replica = &mut self.replicas[at as usize];
        let touched = replica.join(alloc, scenario, crew, meter)?;
        Ok(Reply::Touched(touched))
    }

    // Advance a replica to a step.
    fn advance<C: Crew>(
        &mut self,
        alloc: Global,
        at: u32,
        to: u32,
        crew: &mut C,
        meter: &mut Meter,
    ) -> Result<Reply, WorldFault>
        requires { at < length self.old.replicas }
        ensures applied { IsApplied (events.Advance at to) result self.old self.new meter.old meter.new }
        ensures gone { C.times_gone crew.new ≡ gone_after_answer result (C.times_gone crew.old) }
    {
        let replica = &mut self.replicas[at as usize];
        let horizon = replica.advance(alloc, to, crew, meter)?;
        Ok(Reply::Horizon(horizon))
    }

    // ---- messages, which need no meter and no crew

    // Make a message of a replica, and append it.
    fn send(&mut self, alloc: Global, at: u32, sending: Sending) -> Result<Reply, WorldFault>
        ensures applied { (meter : ℕ) → IsApplied (sending_event at sending) result self.old self.new meter meter }
        ensures no_crew { (n : ℕ) → gone_after_answer result n ≡ n }
    {
        let message = self.message_by(alloc, at, sending)?;
        let number = self.post(&sending.event(at), message)?;
        Ok(Reply::Message(number))
    }

    // Make a message of all edits that a replica holds.
    fn whole_message(&self, at: u32) -> Result<Message, WorldFault>
        requires { at < length self.now.replicas }
        ensures made { IsMade self.now (events.Send at) result }
        ensures no_crew { IfErr result (λ fault. (n : ℕ) → gone_after_answer (Err fault) n ≡ n) }
    {
        let scenario = self.replicas[at as usize].message()?;
        Ok(Message::Whole(scenario))
    }

    // Make a message of a replica's heads.
    fn heads_message(&self, alloc: Global, at: u32) -> Result<Message, WorldFault>
        requires { at < length self.now.replicas }
        ensures made { IsMade self.now (events.Heads at) result }
        ensures no_crew { IfErr result (λ fault. (n : ℕ) → gone_after_answer (Err fault) n ≡ n) }
    {
        let heads = self.replicas[at as usize].heads(alloc)?;
        Ok(Message::Asked(heads))
    }

    // Make a message of the edits that a replica holds beyond the heads of another message.
    fn delta_message(&self, alloc: Global, at: u32, message: u64) -> Result<Message, WorldFault>
        requires { at < length self.now.replicas }
        ensures made { IsMade self.now (events.Beyond at message) result }
        ensures no_crew { IfErr result (λ fault. (n : ℕ) → gone_after_answer (Err fault) n ≡ n) }
    {
        let Some(heads) = asked_heads(&self.messages, message) else {
            return Err(WorldFault::NoMessage);
        };
        let delta = self.replicas[at as usize].beyond(alloc, heads)?;
        Ok(Message::Answer(delta))
    }
}

// Open a replica of a world.
fn opening_replica(alloc: Global, plan: &Arc<Plan>, number: u32) -> Result<Replica, OutOfMemory>
    requires { number < MOST_REPLICAS }
    ensures replica { IfOk result (λ replica. replica
        ≡ record { number = number; sheet = opening_sheet (arc_value plan.now) }) }
    ensures within { IfOk result (λ _. IsWithinLimits (arc_value plan.now)) }
{
    Replica::open(alloc, Arc::try_clone(plan)?, number)
}

// Return the edits of a message, if there is such a message and it carries edits.
fn carried_edits(messages: &[Message], number: u64) -> Option<&Scenario>
    ensures edits { IfSome result (λ edits. edits.now ≡ carried_edits (slice_get messages.now number)) }
    ensures wanted { MatchOption result (edits_wanted_fault (slice_get messages.now number) ≡ Some NoMessage)
        (λ _. edits_wanted_fault (slice_get messages.now number) ≡ None) }
{
    match messages.get(number as usize) {
        Some(Message::Whole(edits)) => Some(edits),
        Some(Message::Answer(edits)) => Some(edits),
        Some(Message::Asked(_)) => None,
        None => None,
    }
}

// Return the heads of a message, if there is such a message and it carries heads.
fn asked_heads(messages: &[Message], number: u64) -> Option<&Heads>
    ensures heads { IfSome result (λ heads. heads.now ≡ asked_heads (slice_get messages.now number)) }
    ensures wanted { MatchOption result (heads_wanted_fault (slice_get messages.now number) ≡ Some NoMessage)
        (λ _. heads_wanted_fault (slice_get messages.now number) ≡ None) }
{
    match messages.get(number as usize) {
        Some(Message::Asked(heads)) => Some(heads),
        Some(Message::Whole(_)) => None,
        Some(Message::Answer(_)) => None,
        None => None,
    }
}
