//! Writes to a replica, and queries of it.

use crate::roads::{OPENING, Shown, free_plan, holds, shows};
use crate::verdict::{Call, Until, Verdict, try_call};
use road_cells::Car;
use road_delta::{Head, Heads, heads_of};
use road_detector::Totals;
use road_ends::Meter;
use road_plan::{Object, Plan};
use road_replica::{OutOfMemory, Replica, ReplicaFault, Reply};
use road_scenario::{Edit, Scenario};
use road_workers::Alone;
use std::alloc::Global;
use std::sync::Arc;
use tests_portraits::Portrait;

/// A write to a replica.
#[derive(Clone, Copy)]
pub(crate) enum Write {
    Edit(Object, u32, u32),
    Withdraw(Object, u32),
    Import(&'static [Edit]),
    Take(&'static [Edit]),
    Advance(u32),
}

impl Write {
    // Return the edits that a write takes or imports.
    fn edits(&self) -> &'static [Edit] {
        match self {
            Write::Import(edits) => edits,
            Write::Take(edits) => edits,
            _ => &[],
        }
    }

    /// Make the scenario of the edits that a write takes or imports.
    pub(crate) fn scenario(&self, alloc: Global) -> Option<Scenario> {
        Scenario::of_edits(alloc, self.edits()).ok()
    }
}

/// A case: the writes before a write, the write, its answer, and what the replica shows after it.
#[derive(Clone, Copy)]
pub(crate) struct WriteCase(
    pub(crate) &'static [Write],
    pub(crate) Write,
    pub(crate) Reply,
    pub(crate) Shown,
);

// ---- writes

// Write to a replica.
fn apply_write(
    alloc: Global,
    replica: &mut Replica,
    write: &Write,
    given: &Scenario,
) -> Result<Reply, ReplicaFault> {
    let (crew, meter) = (&mut Alone, &mut Meter::new());
    match write {
        Write::Edit(object, step, value) => Ok(Reply::Stamped(replica.edit(
            alloc, *object, *step, *value, crew, meter,
        )?)),
        Write::Withdraw(object, step) => Ok(Reply::Stamped(replica.withdraw(
            alloc, *object, *step, crew, meter,
        )?)),
        Write::Import(edits) => Ok(Reply::Touched(replica.import(alloc, edits, crew, meter)?)),
        Write::Take(_) => Ok(Reply::Touched(replica.take(alloc, given, crew, meter)?)),
        Write::Advance(to) => Ok(Reply::Horizon(replica.advance(alloc, *to, crew, meter)?)),
    }
}

// Make a write that the replica must accept.
fn accept(alloc: Global, replica: &mut Replica, write: &Write) -> Option<()> {
    let given = write.scenario(alloc)?;
    apply_write(alloc, replica, write, &given).ok()?;
    Some(())
}

// Make writes that the replica must accept, one after another.
fn accept_all(alloc: Global, replica: &mut Replica, writes: &[Write]) -> Option<()> {
    for write in writes {
        accept(alloc, replica, write)?;
    }
    Some(())
}

// A write to a replica, as a call.
#[derive(Drop)]
struct Writing {
    replica: Replica,
    given: Scenario,
    case: WriteCase,
}

impl Call for Writing {
    type Answer = Reply;

    type Fault = ReplicaFault;

    fn draw(&mut self, alloc: Global, portrait: &mut Portrait) -> Option<()> {
        portrait.draw_sheet(alloc, self.replica.sheet())
    }

    fn writes(&self) -> bool {
        true
    }

    fn make(&mut self, alloc: Global) -> Result<Reply, ReplicaFault> {
        apply_write(alloc, &mut self.replica, &self.case.1, &self.given)
    }

    fn is_right(&mut self, alloc: Global, reply: Reply) -> Option<bool> {
        Some(reply == self.case.2 && shows(alloc, self.replica.sheet(), &self.case.3)?)
    }
}

// Return a replica of the free road before any write.
fn new_replica(alloc: Global) -> Option<Replica> {
    Replica::open(alloc, free_plan(alloc)?, 0).ok()
}

/// Try a write.
pub(crate) fn try_write(alloc: Global, until: Until, case: &WriteCase) -> Option<Verdict> {
    let given = case.1.scenario(alloc)?;
    let replica = new_replica(alloc)?;
    let mut writing = Writing {
        replica,
        given,
        case: *case,
    };
    accept_all(alloc, &mut writing.replica, case.0)?;
    try_call(alloc, until, &mut writing)
}

// Return whether this is replica 0 and shows the expected state.
fn is_replica(alloc: Global, replica: &Replica, shown: &Shown) -> Option<bool> {
    Some(replica.number() == 0 && shows(alloc, replica.sheet(), shown)?)
}

// ---- questions

/// A query of a replica, and the expected answer.
#[derive(Clone, Copy)]
pub(crate) enum Question {
    Copied(Shown),
    Message(&'static [Edit]),
    Heads(&'static [Head]),
    /// The edits beyond the heads of some edits.
    Beyond(&'static [Edit], &'static [Edit]),
    State(u32, &'static [Car]),
    Totals(u32, u32, Totals),
    Rows(u32, u32, &'static [&'static str]),
}

// The answer to a query: a copy of the replica, edits, or whether the answer was the expected one.
#[derive(Drop)]
enum QueryAnswer {
    Copy(Replica),
    Edits(Scenario),
    Expected(bool),
}

// Return whether two lists of rows are the same.
fn are_rows(rows: &[String], wanted: &[&str]) -> bool {
    rows.len() == wanted.len()
        && rows
            .iter()
            .zip(wanted)
            .all(|(row, text)| row.as_str() == *text)
}

// Ask a replica for the cars of a step.
fn has_cars(
    alloc: Global,
    replica: &Replica,
    step: u32,
    cars: &[Car],
) -> Result<QueryAnswer, ReplicaFault> {
    let road = replica.state(alloc, step)?;
    Ok(QueryAnswer::Expected(road.cars() == cars))
}

// Ask a replica for rows.
fn has_rows(
    alloc: Global,
    replica: &Replica,
    steps: (u32, u32),
    rows: &[&str],
) -> Result<QueryAnswer, ReplicaFault> {
    let answer = replica.rows(alloc, steps.0, steps.1)?;
    Ok(QueryAnswer::Expected(are_rows(&answer, rows)))
}

// Ask a replica for its heads.
fn has_heads(
    alloc: Global,
    replica: &Replica,
    heads: &[Head],
) -> Result<QueryAnswer, ReplicaFault> {
    let answer = replica.heads(alloc)?;
    Ok(QueryAnswer::Expected(answer.list() == heads))
}

// Query a replica.
fn query(
    alloc: Global,
    replica: &Replica,
    question: &Question,
    heads: &Heads,
) -> Result<QueryAnswer, ReplicaFault> {
    match *question {
        Question::Copied(_) => Ok(QueryAnswer::Copy(replica.copied()?)),
        Question::Message(_) => Ok(QueryAnswer::Edits(replica.message()?)),
        Question::Beyond(_, _) => Ok(QueryAnswer::Edits(replica.beyond(alloc, heads)?)),
        Question::Heads(heads) => has_heads(alloc, replica, heads),
        Question::State(step, cars) => has_cars(alloc, replica, step, cars),
        Question::Rows(from, to, rows) => has_rows(alloc, replica, (from, to), rows),
        Question::Totals(from, to, totals) => {
            Ok(QueryAnswer::Expected(replica.totals(alloc, 0, from, to)? == totals))
        }
    }
}

// Return whether a replica gave the answer that a query expects.
fn is_answered(alloc: Global, question: &Question, answer: &QueryAnswer) -> Option<bool> {
    match (answer, question) {
        (QueryAnswer::Expected(is_expected), _) => Some(*is_expected),
        (QueryAnswer::Copy(copy), Question::Copied(shown)) => is_replica(alloc, copy, shown),
        (QueryAnswer::Edits(held), Question::Message(edits)) => holds(alloc, held, edits),
        (QueryAnswer::Edits(held), Question::Beyond(_, edits)) => holds(alloc, held, edits),
        _ => Some(false),
    }
}

// A query of a replica, with the heads that the query contains, as a call.
#[derive(Drop)]
struct Asking {
    replica: Replica,
    heads: Heads,
    question: Question,
}

impl Call for Asking {
    type Answer = QueryAnswer;

    type Fault = ReplicaFault;

    fn draw(&mut self, alloc: Global, portrait: &mut Portrait) -> Option<()> {
        portrait.draw_sheet(alloc, self.replica.sheet())
    }

    fn make(&mut self, alloc: Global) -> Result<QueryAnswer, ReplicaFault> {
        query(alloc, &self.replica, &self.question, &self.heads)
    }

    fn is_right(&mut self, alloc: Global, answer: QueryAnswer) -> Option<bool> {
        is_answered(alloc, &self.question, &answer)
    }
}

// Return the heads that a query contains.
fn heads_with(alloc: Global, question: &Question) -> Option<Heads> {
    let held: &[Edit] = match question {
        Question::Beyond(held, _) => held,
        _ => &[],
    };
    let scenario = Scenario::of_edits(alloc, held).ok()?;
    heads_of(alloc, &scenario).ok()
}

/// Try a query after some writes.
pub(crate) fn try_question(
    alloc: Global,
    until: Until,
    writes: &[Write],
    question: &Question,
) -> Option<Verdict> {
    let heads = heads_with(alloc, question)?;
    let replica = new_replica(alloc)?;
    let mut asking = Asking {
        replica,
        heads,
        question: *question,
    };
    accept_all(alloc, &mut asking.replica, writes)?;
    try_call(alloc, until, &mut asking)
}

// ---- openings

// The opening of a replica, as a call.
#[derive(Drop)]
struct Opening {
    plan: Arc<Plan>,
}

impl Call for Opening {
    type Answer = Replica;

    type Fault = OutOfMemory;

    fn make(&mut self, alloc: Global) -> Result<Replica, OutOfMemory> {
        Replica::open(alloc, Arc::try_clone(&self.plan)?, 0)
    }

    fn is_right(&mut self, alloc: Global, replica: Replica) -> Option<bool> {
        is_replica(alloc, &replica, &OPENING)
    }
}

/// Try the opening of a replica.
pub(crate) fn try_opening(alloc: Global, until: Until) -> Option<Verdict> {
    let plan = free_plan(alloc)?;
    try_call(alloc, until, &mut Opening { plan })
}
