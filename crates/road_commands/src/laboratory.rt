//! A world with names, and its answers to commands.

ghost use Rattle.std.specs.Prelude.{◌≡◌, ◌<◌, ◌≤◌, ◌++◌, ◌∷◌, [], Err, IfErr, IfOk, IfSome, IsSome, None, OnErr, OnOk, Some};
ghost use Rattle.std.specs.Prelude.{false, is_none, length, string_bytes, true, ℕ};
ghost use Rattle.std.specs.Arc.{arc_value};
ghost use Rattle.std.specs.List.{All, IsDistinct};
ghost use Rattle.std.specs.Str.{bytes_eq};
ghost use Rattle.road_plan.specs.declared.limits.TheConstants.{MOST_REPLICAS, MOST_SESSIONS};
ghost use Rattle.road_scenario.specs.Faults.{FitsSomePlan};
ghost use Rattle.road_sheet.specs.Sheets.{Sheet};
ghost use Rattle.road_sheet.specs.QueryCaches.{IsCacheOf};
ghost use Rattle.road_replica.specs.Crowds.{crowd_writes, shares_of};
ghost use Rattle.road_replica.specs.declared.crowds.TheConstants.{MOST_CROWD_WRITES};
ghost use Rattle.road_world.specs.Answers.{IsAnswer, fault_of_event, gone_after_answer, replica_number};
ghost use Rattle.road_world.specs.Answers.{reply_to_event, sheet_at};
ghost use Rattle.road_world.specs.Applied.{IsMade};
ghost use Rattle.road_world.specs.Events.{carried_edits, makes_message, message_of_event, sending_event, world_after_event};
ghost use Rattle.road_format.specs.CommandGrammar.{HasFewWrites, query_of};
ghost use Rattle.road_format.specs.Views.{answer_view, command_view, plan_line_view, shares_view, texts};
ghost use Rattle.road_commands.specs.Laboratory.{answer_to, beyond_outcome, change_outcome, crowd_outcome};
ghost use Rattle.road_commands.specs.Laboratory.{gone_after_command, is_gathered, laboratory_after};
ghost use Rattle.road_commands.specs.Laboratory.{laboratory_of_winners, message_outcome, number_of, opening_laboratory};
ghost use Rattle.road_commands.specs.Laboratory.{outcome_at, query_outcome, take_outcome};
ghost use Rattle.road_commands.specs.Laboratory as laboratory;
ghost use Rattle.road_commands.specs.Private.Changes.{made_answer, reply_answer};
ghost use Rattle.road_commands.specs.Private.Outcomes.{IsAnswered, IsOutcome};
ghost use Rattle.road_commands.specs.Private.Queries.{answer_to_query};

use crate::crowds::crowd_refusal;
use crate::names::Names;
use crate::queries::ask_sheet;
use crate::translation::{
    answer_of, answer_of_fault, answer_of_message, answer_of_replica_fault, keeps_edits,
};
use road_ends::Meter;
use road_format::{Answer, Command, PlanLine, Refusal};
use road_plan::{OutOfMemory, Plan};
use road_replica::{Crowd, Crowds, Reply};
use road_scenario::Edit;
use road_sheet::QueryCache;
use road_workers::{Crew, CrewFault};
use road_world::{Event, Message, Sending, World, WorldFault};
use std::alloc::Global;
use std::hash::BuildHasher;
use std::marker::Model;
use std::sync::Arc;

/// A world, the names of its replicas and messages, and for each replica a cache of its queries.
#[derive(Drop)]
pub struct Laboratory<S: BuildHasher> {
    replicas: Names<S>,
    messages: Names<S>,
    world: World,
    caches: Vec<QueryCache>,
    meter: Meter,
}

impl<S: BuildHasher> Model for Laboratory<S> {
    ghost use Rattle.std.specs.Coded.{codes};
    ghost use Rattle.road_scenario.specs.Instances.EditOrder.{edits_code};
    ghost use Rattle.road_commands.specs.Private.Caching.{IsCached};
    ghost use Rattle.road_commands.specs.Laboratory.{Laboratory};

    ghost Value = { Laboratory };

    ghost coded = { Prim.hlevel (codes, edits_code) };

    ghost view = { λ lab. record {
      replica_names = lab.replicas;
      message_names = lab.messages;
      world = lab.world;
    } };

    ghost invariant = { λ lab. IsCached lab.replicas lab.world lab.caches.items };
}

impl<S: BuildHasher + Copy> Laboratory<S> {
    /// Open the laboratory of a plan line, before any command. No step is simulated. The line must have at most 64
    /// names, all different, as has every line that `read_plan` accepts.
    ///
    /// # Errors
    ///
    /// `OutOfMemory` if an allocation failed.
    pub fn open(alloc: Global, line: PlanLine, hasher: S) -> Result<Laboratory<S>, OutOfMemory>
        requires few { length line.names.items ≤ MOST_REPLICAS }
        requires apart { IsDistinct bytes_eq (texts line.names.items) }
        ensures { IfOk result (λ lab. lab ≡ opening_laboratory (plan_line_view line)) }
    {
        let replicas = Names::of(alloc, line.names, hasher)?;
        let count = replicas.len();
        let plan = Arc::new(alloc, line.plan)?;
        let caches = opening_caches(alloc, count)?;
        let world = World::open(alloc, plan, count as u32)?;
        Ok(Laboratory {
            replicas,
            messages: Names::empty(alloc, hasher),
            world,
            caches,
            meter: Meter::new(),
        })
    }

    /// Answer a command. After a write every simulated step shows it. A crowd must have 1 to 8 shares, with at most
    /// 1,000,000 writes together. If it is not refused, it is passed to `crowds`. A refused command changes nothing,
    /// and neither does a crowd.
    ///
    /// # Errors
    ///
    /// For a crowd that is not refused, the fault that `crowds` returned. For any other command `WorkersGone` if the
    /// crew returned it, else `OutOfMemory` if an allocation failed. The laboratory is then unchanged.
    pub fn answer<C: Crew, K: Crowds>(
        &mut self,
        alloc: Global,
        command: Command,
        crew: &mut C,
        crowds: &K,
    ) -> Result<Answer, CrewFault>
        requires shares { HasFewWrites MOST_CROWD_WRITES (command_view command) }
        ensures answer { IfOk result (λ answer. answer_view answer ≡ answer_to self.old (command_view command)) }
        ensures after { OnOk result (self.new
            ≡ laboratory_of_winners (laboratory_after self.old (command_view command))) }
        ensures unchanged { OnErr result (self.new ≡ self.old) }
        ensures gone { C.times_gone crew.new ≡ gone_after_command result
            (is_gathered self.old.world.plan (command_view command)) (C.times_gone crew.old) }
        ensures crowd_fault { is_gathered self.old.world.plan (command_view command) ≡ true
            → IfErr result (λ fault. K.may_fail_with crowds.now fault) }
    {
        self.answer_by_name(alloc, command, crew, crowds)
    }

    // Answer a crowd.
    fn gather<K: Crowds>(
        &self,
        alloc: Global,
        shares: &[Vec<Edit>],
        to: u32,
        crowds: &K,
    ) -> Result<Answer, CrewFault>
        requires some { 0 < length shares.now }
        requires few { length shares.now ≤ MOST_SESSIONS }
        requires within { crowd_writes (shares_of shares.now) ≤ MOST_CROWD_WRITES }
        ensures answer { IfOk result (λ answer. answer_view answer
            ≡ (crowd_outcome self.now (shares_view shares.now) to).answer) }
        ensures winners { laboratory_of_winners self.now ≡ self.now }
        ensures no_crew { (n : ℕ) → gone_after_command result
            (is_none (laboratory.crowd_refusal self.now.world.plan (shares_view shares.now) to)) n ≡ n }
        ensures crowd_fault { IfErr result (λ fault. K.may_fail_with crowds.now fault) }
    {
        let plan = self.world.plan();
        if let Some(refusal) = crowd_refusal(plan, shares, to) {
            return Ok(Answer::Refused(refusal));
        }
        let Crowd {
            edits,
            journal,
            row,
        } = crowds.gather(alloc, plan, shares, to)?;
        Ok(Answer::Crowd {
            edits,
            journal,
            row,
        })
    }

    // Answer a command, after looking up its replica. A crowd names no replica: it has a road of its own.
    fn answer_by_name<C: Crew, K: Crowds>(
        &mut self,
        alloc: Global,
        command: Command,
        crew: &mut C,
        crowds: &K,
    ) -> Result<Answer, CrewFault>
        requires { HasFewWrites MOST_CROWD_WRITES (command_view command) }
        ensures { IsAnswered (is_gathered self.old.world.plan (command_view command)) (K.may_fail_with crowds.now)
            (laboratory.outcome self.old (command_view command)) result self.old self.new
            (C.times_gone crew.old) (C.times_gone crew.new) }
    {
        let Some(name) = command.replica() else {
            return self.answer_at(alloc, 0, command, crew, crowds);
        };
        let Some(at) = self.replica_of(name) else {
            return Ok(Answer::Refused(Refusal::NoReplica));
        };
        self.answer_at(alloc, at, command, crew, crowds)
    }

    // Return the number of the replica with this name.
    fn replica_of(&self, name: &str) -> Option<u32>
        ensures number { result ≡ number_of self.now.replica_names name.now }
        ensures within { IfSome result (λ at. at < length self.now.replica_names) }
        ensures winners { laboratory_of_winners self.now ≡ self.now }
    {
        let number = self.replicas.number_of(name)?;
        Some(number as u32)
    }

    // Answer a command at replica `at`. For a crowd, `at` has no effect.
    fn answer_at<C: Crew, K: Crowds>(
        &mut self,
        alloc: Global,
        at: u32,
        command: Command,
        crew: &mut C,
        crowds: &K,
    ) -> Result<Answer, CrewFault>
        requires there { laboratory.crowd_of (command_view command) ≡ None → at < length self.old.replica_names }
        requires shares { HasFewWrites MOST_CROWD_WRITES (command_view command) }
        ensures { IsAnswered (is_gathered self.old.world.plan (command_view command)) (K.may_fail_with crowds.now)
            (outcome_at self.old at (command_view command)) result self.old self.new
            (C.times_gone crew.old) (C.times_gone crew.new) }
    {
        match command {
            Command::Edit {
                object,
                step,
                value,
                ..
            } => {
                let event = Event::Edit {
                    at,
                    object,
                    step,
                    value,
                };
                self.change(alloc, &event, crew)
            }
            Command::Withdraw { object, step, .. } => {
                let event = Event::Withdraw { at, object, step };
                self.change(alloc, &event, crew)
            }
            Command::Import { edits, .. } => self.change(alloc, &Event::Import { at, edits }, crew),
            Command::Send { name, .. } => self.make(alloc, at, Sending::Whole, name),
            Command::Heads { name, .. } => self.make(alloc, at, Sending::Asked, name),
            Command::Beyond { heads, name, .. } => self.beyond(alloc, at, &heads, name),
            Command::Take { message, .. } => self.take(alloc, at, &message, crew),
            Command::Advance { to, .. } => self.change(alloc, &Event::Advance { at, to }, crew),
            Command::Crowd { shares, to } => self.gather(alloc, shares.as_slice(), to, crowds),
            query => self.ask(alloc, at, &query),
        }
    }

    // Answer a query from the sheet of its replica. No crew is needed.
    fn ask(&mut self, alloc: Global, at: u32, command: &Command) -> Result<Answer, CrewFault>
        requires there { at < length self.old.replica_names }
        requires query { IsSome (query_of (command_view command.now)) }
        ensures { (gone : ℕ) → IsOutcome
            (query_outcome self.old (answer_to_query (sheet_at self.old.world at) (command_view command.now)))
            result self.old self.new gone gone }
    {
        let Some(replica) = self.world.replica(at) else {
            return Ok(Answer::Refused(Refusal::NoReplica));
        };
        let cache = &mut self.caches[at as usize];
        match ask_sheet(alloc, replica.sheet(), cache, command) {
            Ok(answer) => Ok(answer),
            Err(fault) => answer_of_replica_fault(fault),
        }
    }

    // ---- changes

    // Apply an event that makes no message.
    fn change<C: Crew>(
        &mut self,
        alloc: Global,
        event: &Event,
        crew: &mut C,
    ) -> Result<Answer, CrewFault>
        requires there { replica_number event.now < length self.old.replica_names }
        requires no_message { makes_message event.now ≡ false }
        ensures { IsOutcome (change_outcome self.old event.now (reply_answer (reply_to_event self.old.world event.now)))
            result self.old self.new (C.times_gone crew.old) (C.times_gone crew.new) }
    {
        match self.apply(alloc, event, crew) {
            Ok(reply) => Ok(answer_of(reply)),
            Err(fault) => answer_of_fault(fault),
        }
    }

    // Return the number of the message with this name.
    fn message_of(&self, name: &str) -> Option<u64>
        ensures number { result ≡ number_of self.now.message_names name.now }
        ensures winners { laboratory_of_winners self.now ≡ self.now }
    {
        let number = self.messages.number_of(name)?;
        Some(number as u64)
    }

    // Let a replica take a message.
    fn take<C: Crew>(
        &mut self,
        alloc: Global,
        at: u32,
        name: &str,
        crew: &mut C,
    ) -> Result<Answer, CrewFault>
        requires { at < length self.old.replica_names }
        ensures { IsOutcome (take_outcome self.old at name.now) result self.old self.new
            (C.times_gone crew.old) (C.times_gone crew.new) }
    {
        match self.message_of(name) {
            Some(message) => self.change(alloc, &Event::Take { at, message }, crew),
            None => Ok(Answer::Refused(Refusal::NoMessage)),
        }
    }

    // ---- messages

    // Make a message of the edits that a replica holds beyond the heads of another message.
    fn beyond(
        &mut self,
        alloc: Global,
        at: u32,
        asked: &str,
        name: String,
    ) -> Result<Answer, CrewFault>
        requires { at < length self.old.replica_names }
        ensures { (gone : ℕ) → IsOutcome (beyond_outcome self.old at asked.now (string_bytes name))
            result self.old self.new gone gone }
    {
        match self.message_of(asked) {
            Some(asked) => self.make(alloc, at, Sending::Answer { asked }, name),
            None => Ok(Answer::Refused(Refusal::NoMessage)),
        }
    }

    // Let a replica make a message, post it, and give it this name.
    fn make(
        &mut self,
        alloc: Global,
        at: u32,
        sending: Sending,
        name: String,
    ) -> Result<Answer, CrewFault>
        requires there { at < length self.old.replica_names }
        ensures { (gone : ℕ) → IsOutcome (message_outcome self.old (sending_event at sending) (string_bytes name)
            (made_answer self.old.world (sending_event at sending) (string_bytes name)))
            result self.old self.new gone gone }
    {
        let message = match self.make_message(alloc, at, sending) {
            Ok(message) => message,
            Err(fault) => return answer_of_fault(fault),
        };
        if self.message_of(&name).is_some() {
            return Ok(Answer::Refused(Refusal::NameTaken));
        }
        let answer = answer_of_message(alloc, &message, String::from_str(alloc, &name)?)?;
        self.post(&sending.event(at), message, name)?;
        Ok(answer)
    }

    // Let an existing replica make a message. It is not posted yet.
    fn make_message(&self, alloc: Global, at: u32, sending: Sending) -> Result<Message, WorldFault>
        requires there { at < length self.now.replica_names }
        ensures made { IsMade self.now.world (sending_event at sending) result }
        ensures fits { IfOk result (λ message. FitsSomePlan (carried_edits (Some message))) }
        ensures no_crew { IfErr result (λ fault. (n : ℕ) → gone_after_answer (Err fault) n ≡ n) }
        ensures winners { laboratory_of_winners self.now ≡ self.now }
        ensures replicas { length self.now.world.replicas ≡ length self.now.replica_names }
    {
        self.world.message_by(alloc, at, sending)
    }

    // Apply an event whose message is already made, and give the message this name. No message may have the name yet.
    fn post(&mut self, event: &Event, message: Message, name: String) -> Result<(), OutOfMemory>
        requires accepted { fault_of_event self.old.world event.now ≡ None }
        requires made { message_of_event self.old.world event.now ≡ Some message }
        requires free { number_of self.old.message_names (string_bytes name) ≡ None }
        ensures after { OnOk result (self.new ≡ laboratory_of_winners (record self.old {
          message_names = self.old.message_names ++ string_bytes name ∷ [];
          world = world_after_event event.now self.old.world;
        })) }
        ensures unchanged { OnErr result (self.new ≡ self.old) }
    {
        let count = self.messages.len();
        self.messages.add(name)?;
        match self.world.post(event, message) {
            Ok(_) => Ok(()),
            Err(fault) => {
                self.messages.truncate(count);
                Err(fault)
            }
        }
    }

    // Apply an event to the world. If it may change its replica's edits, the replica's cache starts again.
    fn apply<C: Crew>(
        &mut self,
        alloc: Global,
        event: &Event,
        crew: &mut C,
    ) -> Result<Reply, WorldFault>
        requires { replica_number event.now < length self.old.replica_names }
        ensures winners { laboratory_of_winners self.old ≡ self.old }
        ensures replicas { length self.old.world.replicas ≡ length self.old.replica_names }
        ensures answer { IsAnswer self.old.world event.now result }
        ensures after { OnOk result (self.new
            ≡ laboratory_of_winners (record self.old { world = world_after_event event.now self.old.world })) }
        ensures unchanged { OnErr result (self.new ≡ self.old) }
        ensures gone { C.times_gone crew.new ≡ gone_after_answer result (C.times_gone crew.old) }
    {
        let reply = self.world.apply(alloc, event, crew, &mut self.meter)?;
        if !keeps_edits(event) {
            self.caches[event.replica() as usize].restart();
        }
        Ok(reply)
    }
}

// Make a cache for each replica, before any command.
fn opening_caches(alloc: Global, count: usize) -> Result<Vec<QueryCache>, OutOfMemory>
    ensures each { IfOk result (λ caches. length caches.items ≡ count) }
    ensures cached { IfOk result (λ caches. (sheet : Sheet) → All (IsCacheOf sheet) caches.items) }
{
    let mut caches = Vec::with_capacity(alloc, count)?;
    for made in 0..count {
        caches.push(QueryCache::new())?;
    }
    Ok(caches)
}
