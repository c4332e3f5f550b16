//! Lines that are read, and replies that are written.

use crate::roads::{BLOCKED, LESS, OPENED};
use crate::verdict::{Call, Until, Verdict, try_call};
use road_format::{
    Answer, Command, LineFault, PlanLine, PlanLineFault, read_command, read_plan, reply_line,
};
use road_plan::{OutOfMemory, Plan, PlanFault};
use std::alloc::Global;
use tests_plans::{BLOCK, FREE, has_parts, plan_of};
use tests_portraits::Portrait;

/// What is read or written.
#[derive(Clone, Copy, PartialEq, Eq)]
pub(crate) enum LineCase {
    /// A plan is made from its parts.
    Plan,
    PlanLine,
    Import,
    Edit,
    Edits,
    Rows,
}

const PLAN_LINE: &str =
    r#"{"detectors":[5],"exit":1,"inlets":[[0,65536]],"length":12,"replicas":["A","B","C"],"words":7,"zone":12,"zones":[[2,0]]}"#;

const IMPORT_LINE: &str =
    r#"{"import":{"at":"A","edits":[["limit",0,0,7,64,2],["block",8,4,2,0,null]],"form":1}}"#;

const EDIT_LINE: &str = r#"{"edit":{"at":"A","object":["block",8],"step":4,"value":1}}"#;

const EDITS_REPLY: &str =
    "{\"edits\":[[\"block\",8,4,1,0,1],[\"block\",8,4,2,0,null]],\"form\":2}\n";

const ROWS_REPLY: &str = "{\"rows\":[\"0..2...2#...\",\".1...2.0#...\"]}\n";

// Making a plan from its parts.
#[derive(Clone, Copy)]
struct Planning;

impl Call for Planning {
    type Answer = Plan;

    type Fault = PlanFault;

    fn make(&mut self, alloc: Global) -> Result<Plan, PlanFault> {
        plan_of(alloc, &FREE)
    }

    fn is_right(&mut self, _alloc: Global, plan: Plan) -> Option<bool> {
        Some(has_parts(&plan, &FREE))
    }
}

// Reading a plan line.
#[derive(Clone, Copy)]
struct ReadingPlan;

// Return whether names are those of the three replicas.
fn are_names(names: &[String]) -> bool {
    names.len() == 3
        && names
            .iter()
            .zip(["A", "B", "C"].as_slice())
            .all(|(name, wanted)| name.as_str() == *wanted)
}

impl Call for ReadingPlan {
    type Answer = PlanLine;

    type Fault = PlanLineFault;

    fn make(&mut self, alloc: Global) -> Result<PlanLine, PlanLineFault> {
        read_plan(alloc, PLAN_LINE.as_bytes())
    }

    fn is_right(&mut self, _alloc: Global, line: PlanLine) -> Option<bool> {
        Some(are_names(&line.names) && has_parts(&line.plan, &FREE))
    }
}

// Reading a command.
#[derive(Clone, Copy)]
struct Reading(&'static str);

// Return whether a command is that of one of the two lines.
fn is_command(command: &Command, line: &str) -> bool {
    match command {
        Command::Import { at, edits } => {
            line == IMPORT_LINE
                && at.as_str() == "A"
                && edits.as_slice() == [LESS, OPENED].as_slice()
        }
        Command::Edit {
            at,
            object,
            step,
            value,
        } => line == EDIT_LINE && at.as_str() == "A" && (*object, *step, *value) == (BLOCK, 4, 1),
        _ => false,
    }
}

impl Call for Reading {
    type Answer = Command;

    type Fault = LineFault;

    fn make(&mut self, alloc: Global) -> Result<Command, LineFault> {
        read_command(alloc, self.0.as_bytes())
    }

    fn is_right(&mut self, _alloc: Global, command: Command) -> Option<bool> {
        Some(is_command(&command, self.0))
    }
}

// Writing a reply.
#[derive(Drop)]
struct Replying {
    answer: Answer,
    case: LineCase,
}

// Return the line of a reply.
fn reply_of(case: LineCase) -> &'static str {
    match case {
        LineCase::Edits => EDITS_REPLY,
        _ => ROWS_REPLY,
    }
}

impl Call for Replying {
    type Answer = String;

    type Fault = OutOfMemory;

    fn draw(&mut self, _alloc: Global, portrait: &mut Portrait) -> Option<()> {
        match &self.answer {
            Answer::Edits(edits) => portrait.draw_edits(edits),
            _ => Some(()),
        }
    }

    fn make(&mut self, alloc: Global) -> Result<String, OutOfMemory> {
        reply_line(alloc, &self.answer)
    }

    fn is_right(&mut self, _alloc: Global, text: String) -> Option<bool> {
        Some(text.as_str() == reply_of(self.case))
    }
}

// Judge the call that writes a reply.
fn try_reply(alloc: Global, until: Until, answer: Answer, case: LineCase) -> Option<Verdict> {
    try_call(alloc, until, &mut Replying { answer, case })
}

// Return an answer that lists two edits.
fn edits(alloc: Global) -> Option<Answer> {
    Some(Answer::Edits([BLOCKED, OPENED].to_vec(alloc).ok()?))
}

// Return an answer that lists two rows.
fn rows(alloc: Global) -> Option<Answer> {
    let mut rows = Vec::new(alloc);
    for row in ["0..2...2#...", ".1...2.0#..."] {
        rows.push(String::from_str(alloc, row).ok()?).ok()?;
    }
    Some(Answer::Rows(rows))
}

/// Try a line.
pub(crate) fn try_line(alloc: Global, until: Until, case: LineCase) -> Option<Verdict> {
    match case {
        LineCase::Plan => try_call(alloc, until, &mut Planning),
        LineCase::PlanLine => try_call(alloc, until, &mut ReadingPlan),
        LineCase::Import => try_call(alloc, until, &mut Reading(IMPORT_LINE)),
        LineCase::Edit => try_call(alloc, until, &mut Reading(EDIT_LINE)),
        LineCase::Edits => try_reply(alloc, until, edits(alloc)?, case),
        LineCase::Rows => try_reply(alloc, until, rows(alloc)?, case),
    }
}
