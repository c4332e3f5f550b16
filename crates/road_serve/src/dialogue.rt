//! Dialogues, which turn bytes into lines and lines into replies.

ghost use Rattle.std.specs.Prelude.{◌≡◌, ◌↔◌, ◌==◌, ◌++◌, ◌∷◌, ◌<◌, ◌≤◌, ℕ, List, [], IfOk, OnOk, MatchResult};
ghost use Rattle.std.specs.Prelude.{IsTrue, IsSome, is_some, length, vec_len, take, false, true, None, Ok, Some, string_bytes};
ghost use Rattle.std.specs.List.{position};
ghost use Rattle.road_format.specs.Cut.{newline};
ghost use Rattle.road_replica.specs.declared.crowds.TheConstants.{MOST_CROWD_WRITES};
ghost use Rattle.road_format.specs.CommandGrammar.{HasFewWrites, command_of};
ghost use Rattle.std.specs.List.{IsDistinct};
ghost use Rattle.std.specs.Str.{bytes_eq};
ghost use Rattle.road_format.specs.PlanGrammar.{plan_line_of};
ghost use Rattle.road_format.specs.Replies.{Refused, reply};
ghost use Rattle.road_format.specs.Views.{texts, plan_line_view, command_view};
ghost use Rattle.road_commands.specs.Laboratory.{answer_to, gone_after_command, is_gathered};
ghost use Rattle.road_commands.specs.Laboratory.{laboratory_after, laboratory_of_winners};
ghost use Rattle.road_serve.specs.Answers.{opening_answer, line_answer, gathers};
ghost use Rattle.road_serve.specs.Answers.{answers, has_more_lines};
ghost use Rattle.road_serve.specs.Dialogue.{Holds, GoesOn, IsAfterBytes, HasAnswered, HasFinished, IsStopped};
ghost use Rattle.road_serve.specs.Private.KeptLaboratory.{holds_crowd, kept_after_line, opened_laboratory};
ghost use Rattle.road_serve.specs.Private.Readings.{IfAccepted, IsRead, read_held};
ghost use Rattle.road_serve.specs.StreamViews.{SinkView, sink_view};

use crate::faults::{EarlyEnd, ServeFault};
use crate::held_line::HeldLine;
use crate::reply_buffer::{append_reply, flush};
use crate::streams::Sink;
use road_commands::Laboratory;
use road_format::{Answer, Command, PlanLine, Refusal, read_command, read_plan, reply_line};
use road_plan::OutOfMemory;
use road_replica::Crowds;
use road_workers::{Crew, CrewFault};
use std::alloc::Global;
use std::hash::BuildHasher;
use std::marker::Model;

// The result of reading a line.
#[derive(Drop)]
enum LineRead<T: Drop> {
    // The content of the line.
    Accepted(T),
    // Why the line is refused.
    Refused(Refusal),
}

// Read the held line as the plan line.
fn first_line(alloc: Global, held: &HeldLine) -> Result<LineRead<PlanLine>, OutOfMemory>
    ensures read { IfOk result (λ read. IsRead plan_line_view read (read_held plan_line_of held.now)) }
    ensures few { IfOk result (λ read. IfAccepted read (λ line. vec_len line.names ≤ 64)) }
    ensures apart { IfOk result (λ read. IfAccepted read (λ line. IsDistinct bytes_eq (texts line.names.items))) }
{
    let Some(bytes) = held.bytes() else {
        return Ok(LineRead::Refused(Refusal::LineTooLong));
    };
    match read_plan(alloc, bytes) {
        Ok(line) => Ok(LineRead::Accepted(line)),
        Err(fault) => match fault.refusal() {
            Some(refusal) => Ok(LineRead::Refused(refusal)),
            None => Err(OutOfMemory),
        },
    }
}

// Read the held line as a command.
fn later_line(alloc: Global, held: &HeldLine) -> Result<LineRead<Command>, OutOfMemory>
    ensures shares { IfOk result (λ read. IfAccepted read (λ command.
        HasFewWrites MOST_CROWD_WRITES (command_view command))) }
    ensures read { IfOk result (λ read. IsRead command_view read (read_held command_of held.now)) }
{
    let Some(bytes) = held.bytes() else {
        return Ok(LineRead::Refused(Refusal::LineTooLong));
    };
    match read_command(alloc, bytes) {
        Ok(command) => Ok(LineRead::Accepted(command)),
        Err(fault) => match fault.refusal() {
            Some(refusal) => Ok(LineRead::Refused(refusal)),
            None => Err(OutOfMemory),
        },
    }
}

// Return the reply to the plan line, and the laboratory if the line is accepted.
fn first_reply<S: BuildHasher + Copy>(
    alloc: Global,
    held: &HeldLine,
    hasher: S,
) -> Result<(String, Option<Laboratory<S>>), OutOfMemory>
    ensures text { IfOk result (λ opened. string_bytes opened.0
        ≡ reply (opening_answer (read_held plan_line_of held.now))) }
    ensures laboratory { IfOk result (λ opened. opened.1
        ≡ opened_laboratory (read_held plan_line_of held.now)) }
{
    match first_line(alloc, held)? {
        LineRead::Accepted(line) => {
            let (reply, laboratory) = open_laboratory(alloc, line, hasher)?;
            Ok((reply, Some(laboratory)))
        }
        LineRead::Refused(refusal) => Ok((refusal_reply(alloc, refusal)?, None)),
    }
}

// Open the laboratory of an accepted plan line, and return it with the reply.
fn open_laboratory<S: BuildHasher + Copy>(
    alloc: Global,
    line: PlanLine,
    hasher: S,
) -> Result<(String, Laboratory<S>), OutOfMemory>
    requires few { vec_len line.names ≤ 64 }
    requires apart { IsDistinct bytes_eq (texts line.names.items) }
    ensures text { IfOk result (λ opened. string_bytes opened.0 ≡ reply (opening_answer (Ok (plan_line_view line)))) }
    ensures laboratory { IfOk result (λ opened. Some opened.1 ≡ opened_laboratory (Ok (plan_line_view line))) }
{
    let replicas = line.names.len() as u32;
    let laboratory = Laboratory::open(alloc, line, hasher)?;
    let reply = reply_line(alloc, &Answer::Open { replicas })?;
    Ok((reply, laboratory))
}

// Return the reply to a line that is refused.
fn refusal_reply(alloc: Global, refusal: Refusal) -> Result<String, OutOfMemory>
    ensures { IfOk result (λ text. string_bytes text ≡ reply (Refused refusal)) }
{
    reply_line(alloc, &Answer::Refused(refusal))
}

// Return the reply to a line after the first.
fn later_reply<S: BuildHasher + Copy, C: Crew, K: Crowds>(
    alloc: Global,
    laboratory: &mut Laboratory<S>,
    held: &HeldLine,
    crew: &mut C,
    crowds: &K,
) -> Result<String, CrewFault>
    ensures text { IfOk result (λ text. string_bytes text
        ≡ reply (line_answer laboratory.old (read_held command_of held.now))) }
    ensures after { OnOk result (laboratory.new
        ≡ kept_after_line laboratory.old (read_held command_of held.now)) }
    ensures gone { C.times_gone crew.new ≡ gone_after_command result
        (gathers laboratory.old.world.plan (read_held command_of held.now)) (C.times_gone crew.old) }
{
    match later_line(alloc, held)? {
        LineRead::Accepted(command) => command_reply(alloc, laboratory, command, crew, crowds),
        LineRead::Refused(refusal) => Ok(refusal_reply(alloc, refusal)?),
    }
}

// Return the reply to a command.
fn command_reply<S: BuildHasher + Copy, C: Crew, K: Crowds>(
    alloc: Global,
    laboratory: &mut Laboratory<S>,
    command: Command,
    crew: &mut C,
    crowds: &K,
) -> Result<String, CrewFault>
    requires { HasFewWrites MOST_CROWD_WRITES (command_view command) }
    ensures text { IfOk result (λ text. string_bytes text
        ≡ reply (answer_to laboratory.old (command_view command))) }
    ensures after { OnOk result (laboratory.new
        ≡ laboratory_of_winners (laboratory_after laboratory.old (command_view command))) }
    ensures gone { C.times_gone crew.new ≡ gone_after_command result
        (is_gathered laboratory.old.world.plan (command_view command)) (C.times_gone crew.old) }
{
    let answer = laboratory.answer(alloc, command, crew, crowds)?;
    Ok(reply_line(alloc, &answer)?)
}

// Return the place of the first newline in these bytes, if there is one.
fn line_end(bytes: &[u8]) -> Option<usize>
    ensures { result ≡ position (λ x. x == newline) bytes.now }
{
    bytes.iter().position(|x| *x == b'\n')
}

/// A dialogue answers each line that has ended, and holds the bytes of the next line, at most as many as a line may
/// have. No reply waits to be written after a call that succeeds.
#[derive(Drop)]
pub struct Dialogue<S: BuildHasher> {
    // The allocator of the replies.
    alloc: Global,
    // The hasher of names.
    hasher: S,
    // The laboratory, once the plan line is accepted.
    laboratory: Option<Laboratory<S>>,
    // The line that has not ended.
    line: HeldLine,
    // The number of lines that may still come after the plan line.
    left: u32,
    // The replies that are not written yet.
    waiting: Vec<u8>,
    // Why no further line is answered, or None while the dialogue goes on.
    over: Option<EarlyEnd>,
}

impl<S: BuildHasher> Model for Dialogue<S> {
    ghost use Rattle.std.specs.Coded.{codes};
    ghost use Rattle.road_scenario.specs.Instances.EditOrder.{edits_code};
    ghost use Rattle.road_serve.specs.Dialogue.{Dialogue};

    ghost Value = { Dialogue };

    ghost coded = { Prim.hlevel (codes, edits_code) };

    ghost view = { λ dialogue. record {
      laboratory = dialogue.laboratory;
      line = dialogue.line;
      left = dialogue.left;
      waiting = dialogue.waiting.items;
      over = dialogue.over;
    } };
}

impl<S: BuildHasher + Copy> Dialogue<S> {
    /// Make a dialogue to which no byte has come. At most `lines` lines may come after the plan line, and names are
    /// found by hashes that this hasher makes.
    pub fn new(alloc: Global, lines: u32, hasher: S) -> Dialogue<S>
        ensures none_came { (first : SinkView) → HasAnswered lines [] first first result }
        ensures going { result.over ≡ None }
        ensures none_wait { result.waiting ≡ [] }
    {
        Dialogue {
            alloc,
            hasher,
            laboratory: None,
            line: HeldLine::new(alloc),
            left: lines,
            waiting: Vec::new(alloc),
            over: None,
        }
    }

    /// Return why no further line is answered, or None while the dialogue goes on.
    pub fn early_end(&self) -> Option<EarlyEnd>
        ensures { result ≡ self.now.over }
    {
        self.over
    }

    /// Return the number of lines that may still come after the plan line.
    pub fn lines_left(&self) -> u32
        ensures { result ≡ self.now.left }
    {
        self.left
    }

    // Hold more bytes of the line that has not ended.
    fn hold(&mut self, bytes: &[u8]) -> Result<(), OutOfMemory>
        ensures holds { (line : List ℕ) → Holds self.old.line line
            → OnOk result (Holds self.new.line (line ++ bytes.now)) }
        ensures laboratory { self.new.laboratory ≡ self.old.laboratory }
        ensures left { self.new.left ≡ self.old.left }
        ensures waiting { self.new.waiting ≡ self.old.waiting }
        ensures over { self.new.over ≡ self.old.over }
    {
        self.line.hold(bytes)
    }

    // Return whether the plan line is accepted.
    fn is_open(&self) -> bool
        ensures { result ≡ is_some self.now.laboratory }
    {
        self.laboratory.is_some()
    }

    // Return whether no further line may come.
    fn is_spent(&self) -> bool
        ensures { IsTrue result ↔ (IsSome self.now.laboratory × (self.now.left ≡ 0)) }
    {
        self.is_open() && self.left == 0
    }

    // Return whether the next line has no bytes yet.
    fn is_clear(&self) -> bool
        ensures { IsTrue result ↔ (self.now.line ≡ Some []) }
    {
        self.line.is_empty()
    }

    // Return the reply to the held line. The line must have ended.
    fn reply<C: Crew, K: Crowds>(&mut self, crew: &mut C, crowds: &K) -> Result<String, CrewFault>
        requires { self.old.over ≡ None }
        ensures answered { (lines : ℕ) (bytes : List ℕ) → GoesOn lines bytes self.old
            → has_more_lines lines (bytes ++ newline ∷ []) ≡ false
            → IfOk result (λ text.
            (answers lines (bytes ++ newline ∷ []) false ≡ answers lines bytes false ++ string_bytes text)
            × IsAfterBytes lines (bytes ++ newline ∷ []) self.new self.new.over) }
        ensures waiting { self.new.waiting ≡ self.old.waiting }
        ensures gone { C.times_gone crew.new
            ≡ gone_after_command result (holds_crowd self.old) (C.times_gone crew.old) }
    {
        if let Some(laboratory) = &mut self.laboratory {
            let reply = later_reply(self.alloc, laboratory, &self.line, crew, crowds)?;
            self.left = self.left.saturating_sub(1);
            self.line.clear(self.alloc);
            return Ok(reply);
        }
        let (reply, laboratory) = first_reply(self.alloc, &self.line, self.hasher)?;
        self.laboratory = laboratory;
        if self.laboratory.is_none() {
            self.over = Some(EarlyEnd::BadPlan);
            return Ok(reply);
        }
        self.line.clear(self.alloc);
        Ok(reply)
    }

    // Answer the held line. The line must have ended.
    fn answer<W: Sink, C: Crew, K: Crowds>(
        &mut self,
        writer: &mut W,
        crew: &mut C,
        crowds: &K,
    ) -> Result<(), ServeFault>
        requires { self.old.over ≡ None }
        ensures answered { (lines : ℕ) (bytes : List ℕ) (first : SinkView)
            → HasAnswered lines bytes first (sink_view W.Sink writer.old) self.old
            → has_more_lines lines (bytes ++ newline ∷ []) ≡ false
            → MatchResult result
            (λ _. HasAnswered lines (bytes ++ newline ∷ []) first (sink_view W.Sink writer.new) self.new)
            (λ fault. IsStopped lines (bytes ++ newline ∷ []) false first (sink_view W.Sink writer.new) fault
            (C.times_gone crew.old) (C.times_gone crew.new)) }
        ensures kept { OnOk result (C.times_gone crew.new ≡ C.times_gone crew.old) }
    {
        let reply = self.reply(crew, crowds)?;
        append_reply(&mut self.waiting, writer, reply.as_bytes())
    }

    // Take bytes from the front of these: up to and with the first newline, or all. Return how many were taken.
    fn take_line<W: Sink, C: Crew, K: Crowds>(
        &mut self,
        writer: &mut W,
        bytes: &[u8],
        crew: &mut C,
        crowds: &K,
    ) -> Result<usize, ServeFault>
        requires { 0 < length bytes.now }
        ensures taken { IfOk result (λ n. (0 < n) × (n ≤ length bytes.now)) }
        ensures answered { (lines : ℕ) (before : List ℕ) (first : SinkView)
            → HasAnswered lines before first (sink_view W.Sink writer.old) self.old
            → MatchResult result
            (λ n. HasAnswered lines (before ++ take n bytes.now) first (sink_view W.Sink writer.new) self.new)
            (λ fault. IsStopped lines (before ++ bytes.now) false first (sink_view W.Sink writer.new) fault
            (C.times_gone crew.old) (C.times_gone crew.new)) }
        ensures kept { OnOk result (C.times_gone crew.new ≡ C.times_gone crew.old) }
    {
        if self.early_end().is_some() {
            return Ok(bytes.len());
        }
        if self.is_spent() {
            self.over = Some(EarlyEnd::TooMany);
            return Ok(bytes.len());
        }
        match line_end(bytes) {
            Some(end) => {
                self.hold(&bytes[..end])?;
                self.answer(writer, crew, crowds)?;
                Ok(end + 1)
            }
            None => {
                self.hold(bytes)?;
                Ok(bytes.len())
            }
        }
    }

    /// Take the next bytes of the input. Write the reply to each line that they end, and flush. A dialogue that is over
    /// answers nothing more.
    ///
    /// # Errors
    ///
    /// `Write` if the sink failed, `WorkersGone` if the crew or a crowd returned it,
    /// `OutOfMemory` if an allocation failed. A prefix of the replies has then been written. The line that the dialogue
    /// held may have been answered or not, so the dialogue must not be called again.
    pub fn take<W: Sink, C: Crew, K: Crowds>(
        &mut self,
        writer: &mut W,
        bytes: &[u8],
        crew: &mut C,
        crowds: &K,
    ) -> Result<(), ServeFault>
        ensures answered { (lines : ℕ) (before : List ℕ) (first : SinkView)
            → HasAnswered lines before first (sink_view W.Sink writer.old) self.old
            → MatchResult result
            (λ _. HasAnswered lines (before ++ bytes.now) first (sink_view W.Sink writer.new) self.new)
            (λ fault. IsStopped lines (before ++ bytes.now) false first (sink_view W.Sink writer.new) fault
            (C.times_gone crew.old) (C.times_gone crew.new)) }
        ensures none_wait { OnOk result (self.new.waiting ≡ []) }
        ensures flushed { OnOk result (W.flushed writer.new ≡ true) }
        ensures kept { OnOk result (C.times_gone crew.new ≡ C.times_gone crew.old) }
    {
        let mut done = 0;
        while done < bytes.len() {
            done += self.take_line(writer, &bytes[done..], crew, crowds)?;
        }
        flush(&mut self.waiting, writer)?;
        Ok(())
    }

    // After the input has ended, answer a last line without a newline, or an input without a line.
    fn answer_last<W: Sink, C: Crew, K: Crowds>(
        &mut self,
        writer: &mut W,
        crew: &mut C,
        crowds: &K,
    ) -> Result<(), ServeFault>
        requires { self.old.over ≡ None }
        ensures answered { (lines : ℕ) (bytes : List ℕ) (first : SinkView)
            → HasAnswered lines bytes first (sink_view W.Sink writer.old) self.old
            → MatchResult result
            (λ _. HasFinished lines bytes first (sink_view W.Sink writer.new) self.new)
            (λ fault. IsStopped lines bytes true first (sink_view W.Sink writer.new) fault
            (C.times_gone crew.old) (C.times_gone crew.new)) }
        ensures kept { OnOk result (C.times_gone crew.new ≡ C.times_gone crew.old) }
    {
        if !self.is_clear() {
            return self.answer(writer, crew, crowds);
        }
        if self.is_open() {
            return Ok(());
        }
        let reply = refusal_reply(self.alloc, Refusal::NoPlan)?;
        self.over = Some(EarlyEnd::BadPlan);
        append_reply(&mut self.waiting, writer, reply.as_bytes())
    }

    /// After the input has ended, write the reply to a last line without a newline, or to an input without a line, and
    /// flush. The dialogue must not be over.
    ///
    /// # Errors
    ///
    /// As for `take`.
    pub fn finish<W: Sink, C: Crew, K: Crowds>(
        &mut self,
        writer: &mut W,
        crew: &mut C,
        crowds: &K,
    ) -> Result<(), ServeFault>
        requires { self.old.over ≡ None }
        ensures answered { (lines : ℕ) (bytes : List ℕ) (first : SinkView)
            → HasAnswered lines bytes first (sink_view W.Sink writer.old) self.old
            → MatchResult result
            (λ _. HasFinished lines bytes first (sink_view W.Sink writer.new) self.new)
            (λ fault. IsStopped lines bytes true first (sink_view W.Sink writer.new) fault
            (C.times_gone crew.old) (C.times_gone crew.new)) }
        ensures none_wait { OnOk result (self.new.waiting ≡ []) }
        ensures flushed { OnOk result (W.flushed writer.new ≡ true) }
        ensures kept { OnOk result (C.times_gone crew.new ≡ C.times_gone crew.old) }
    {
        self.answer_last(writer, crew, crowds)?;
        flush(&mut self.waiting, writer)?;
        Ok(())
    }
}
