//! The calls, listed by their names.

use crate::crews::{self, CrewCase};
use crate::crowds::{self, CrowdCase};
use crate::lines::{self, LineCase};
use crate::replicas::{self, Question, Write, WriteCase};
use crate::roads::{
    BLOCKED, BLOCKED_SECOND, CLOSED, CLOSED_ELSEWHERE, GREATER, HELD, HELD_ELSEWHERE, LESS, OPENED,
    OPENING, SLOW, SLOWED, Shown, TO_SIX, WITH_BLOCK, WITHDRAWN,
};
use crate::scenarios::{self, Making, MapCase};
use crate::sessions::{self, Act, Closing, Command, SessionCase};
use crate::sheets::{self, GrowthCase};
use crate::steps::{self, Rows, RunCase};
use crate::verdict::{Until, Verdict};
use crate::worlds::{self, ListEvent};
use road_cells::Car;
use road_delta::Head;
use road_detector::Totals;
use road_plan::Object;
use road_replica::Reply;
use road_scenario::{Edit, Stamp, Value};
use std::alloc::Global;
use std::sync::Wait;
use std::thread::Threads;
use tests_plans::{
    BLOCK, BLOCKED_ROWS, BLOCKED_UNDER_ROWS, CARS_AT_SIX, DENSE, DENSE_ROWS, FREE, FREE_ROWS,
    HALF_SLOWED, HALF_SLOWED_ROWS, LIMIT, LOWERED_ROWS, RANDOM, RANDOM_ROWS, cars, edit, head,
    pairs, stamp,
};

/// A call that is tried.
#[derive(Clone, Copy)]
pub(crate) enum Case {
    Line(LineCase),
    Map(MapCase),
    Run(RunCase),
    Crew(CrewCase),
    Scenario(Making),
    ReplicaOpening,
    Write(WriteCase),
    /// A query after some writes.
    Question(&'static [Write], Question),
    SheetOpening,
    /// A query of a sheet with some edits.
    SheetQuestion(&'static [Edit], sheets::Question),
    /// A draft that keeps the run up to a step, and what its sheet shows in the end.
    Draft(u32, Shown),
    /// The input of the step after this many steps, and the speeds of its cars.
    Input(u32, &'static [u8]),
    /// The step after this many steps, and the row after it.
    Push(u32, &'static str),
    Growth(GrowthCase),
    WorldOpening,
    /// The event at a place in the exchange.
    Event(usize),
    /// A list of events.
    List(&'static [ListEvent]),
    StorePrepare,
    StoreOpen,
    /// A call of a session, and when its store is closed.
    Session(SessionCase, Closing),
    Crowd(CrowdCase),
}

const TO_HORIZON_SIX: Write = Write::Advance(6);

const BLOCKS: Write = Write::Edit(BLOCK, 4, 1);

const OPENS: Write = Write::Withdraw(BLOCK, 4);

/// Writes, after which a replica holds edits that another replica has in part.
const EXCHANGE: &[Write] = &[Write::Edit(LIMIT, 3, 1), BLOCKS, Write::Edit(LIMIT, 5, 0)];

/// Imports that slow all cars, and imports that stop them.
const IMPORTED: &[Edit] = &[edit!(LIMIT, 3, (1, 64), 1), edit!(LIMIT, 5, (2, 64), 0)];

/// Rows of the free road: the row at step 6, and the row if all cars are slow in the end.
const LATE_ROW: &str = "0..2...2....";

const SLOW_ROW: &str = "0.1.1.1.1.1.";

/// The first session advances to step 6.
const TO_SIX_FIRST: (u32, Command) = (0, Command::Advance(6));

/// The second session blocks a cell.
const BLOCKING: SessionCase = SessionCase(
    &[TO_HORIZON_SIX],
    Act::Write(BLOCKS, 1, Reply::Stamped(stamp!(1, 0))),
    TO_SIX,
    WITH_BLOCK,
    &[TO_SIX_FIRST, (1, Command::Take(&[BLOCKED]))],
);

/// The first session advances, withdraws what blocks a cell, and takes a message.
const ADVANCING: SessionCase = SessionCase(
    &[],
    Act::Write(TO_HORIZON_SIX, 0, Reply::Horizon(6)),
    OPENING,
    TO_SIX,
    &[(1, Command::Advance(6))],
);

const WITHDRAWING: SessionCase = SessionCase(
    &[TO_HORIZON_SIX, BLOCKS],
    Act::Write(OPENS, 2, Reply::Stamped(stamp!(2, 0))),
    WITH_BLOCK,
    WITHDRAWN,
    &[
        TO_SIX_FIRST,
        (0, Command::Take(&[BLOCKED])),
        (1, Command::Take(&[OPENED])),
    ],
);

const TAKING: SessionCase = SessionCase(
    &[TO_HORIZON_SIX],
    Act::Write(Write::Take(&[SLOW]), 1, Reply::Touched(Some(3))),
    TO_SIX,
    SLOWED,
    &[TO_SIX_FIRST, (1, Command::Take(&[SLOW]))],
);

/// An import that blocks a cell, and an import that withdraws that with a greater stamp.
const BLOCK_IMPORTED: Edit = edit!(BLOCK, 4, (1, 64), 1);

const OPENING_IMPORTED: Edit = edit!(BLOCK, 4, (2, 64), withdrawn);

// The calls of plans, roads, steps and crews.
const ROADS: &[(&str, Case)] = pairs![
    "plan-new" => Case::Line(LineCase::Plan),
    // Each step of a run.
    "step-free" => Case::Run(RunCase(FREE, &[], Rows::At(FREE_ROWS))),
    "step-blocked" => Case::Run(RunCase(FREE, &[BLOCKED], Rows::At(BLOCKED_ROWS))),
    "step-blocked-under" => Case::Run(RunCase(
        FREE, &[edit!(Object::Block(7), 4, (1, 0), 1)], Rows::At(BLOCKED_UNDER_ROWS))),
    "step-lowered" => Case::Run(RunCase(FREE, &[SLOW, edit!(LIMIT, 5, (2, 0), 0)], Rows::At(LOWERED_ROWS))),
    "step-slowed" => Case::Run(RunCase(HALF_SLOWED, &[], Rows::Each(HALF_SLOWED_ROWS))),
    "step-dense" => Case::Run(RunCase(DENSE, &[], Rows::Each(DENSE_ROWS))),
    "step-seeded" => Case::Run(RunCase(RANDOM, &[], Rows::At(RANDOM_ROWS))),
    "crew-alone" => Case::Crew(CrewCase::Alone),
    "crew-scoped" => Case::Crew(CrewCase::Scoped),
    "crew-pool" => Case::Crew(CrewCase::Pool),
    "crew-run" => Case::Crew(CrewCase::Run),
    "pool-start" => Case::Crew(CrewCase::Start),
    "pool-start-gated" => Case::Crew(CrewCase::StartGated),
];

// The calls of maps, scenarios and deltas.
const SCENARIOS: &[(&str, Case)] = pairs![
    "map-with" => Case::Map(MapCase::With),
    "map-with-split" => Case::Map(MapCase::WithSplit),
    "map-joined" => Case::Map(MapCase::Joined),
    "map-copied" => Case::Map(MapCase::Copied),
    "map-pages-joined" => Case::Map(MapCase::PagesJoined),
    "scenario-with-edit" => Case::Scenario(Making::WithEdit(&[SLOW, BLOCKED], OPENED, &[SLOW, OPENED])),
    "scenario-with-greater" => Case::Scenario(Making::WithEdit(&[LESS], GREATER, &[GREATER])),
    "greatest-joined" => Case::Scenario(Making::GreatestJoined),
    "greatest-copied" => Case::Scenario(Making::GreatestCopied),
    "scenario-joined" => Case::Scenario(Making::Joined),
    "scenario-copied" => Case::Scenario(Making::Copied),
    "scenario-pair-joined" => Case::Scenario(Making::PairJoined),
    "scenario-pair-copied" => Case::Scenario(Making::PairCopied),
    "scenario-edits" => Case::Scenario(Making::Edits),
    "scenario-settings" => Case::Scenario(Making::Settings),
    "scenario-heads" => Case::Scenario(Making::Heads),
    "scenario-beyond" => Case::Scenario(Making::Beyond),
];

// The calls of sheets and drafts.
const SHEETS: &[(&str, Case)] = pairs![
    "sheet-open" => Case::SheetOpening,
    "sheet-state" => Case::SheetQuestion(
        &[BLOCKED], sheets::Question::State(6, cars![(80, 0, 0), (48, 3, 2), (16, 6, 1), (0, 7, 0)])),
    // The sheet is recomputed from the first checkpoint.
    "sheet-earlier-state" => Case::SheetQuestion(&[], sheets::Question::State(3, cars![(16, 1, 1), (0, 5, 2)])),
    "sheet-totals" => Case::SheetQuestion(&[], sheets::Question::Totals(2, 5, Totals { cars: 2, speeds: 4 })),
    "sheet-kept-totals" => Case::SheetQuestion(&[], sheets::Question::Totals(0, 6, Totals { cars: 2, speeds: 4 })),
    "sheet-draft" => Case::Draft(4, WITH_BLOCK),
    "sheet-draft-resumed" => Case::Draft(6, TO_SIX),
    // The draft begins at the second checkpoint.
    "sheet-draft-late" => Case::Draft(64, Shown(
        &[(64, LATE_ROW), (66, "0.1..1...1.."), (70, "0.1.1.1..1..")], &[edit!(LIMIT, 64, (1, 0), 1)])),
    "draft-input" => Case::Input(5, &[0, 2, 2, 2]),
    "draft-input-of-interval" => Case::Input(64, &[1, 2, 2]),
    "draft-push" => Case::Push(5, LATE_ROW),
    "draft-push-ends-interval" => Case::Push(63, LATE_ROW),
    "grown-block" => Case::Growth(GrowthCase(6, 6, Some(4), 6, WITH_BLOCK)),
    // Edits at step 0, around the end of an interval, at the last step and at the horizon, in a run of 130 steps.
    "grown-from-first" => Case::Growth(GrowthCase(130, 0, Some(0), 130, Shown(
        &[(4, "0.1.1......."), (130, SLOW_ROW)], &[edit!(LIMIT, 0, (1, 0), 1)]))),
    "grown-from-early" => Case::Growth(GrowthCase(130, 0, Some(63), 130, Shown(
        &[(63, ".1...2...2.."), (64, "0.1...1...1."), (130, SLOW_ROW)], &[edit!(LIMIT, 63, (1, 0), 1)]))),
    "grown-from-late" => Case::Growth(GrowthCase(130, 0, Some(64), 66, Shown(
        &[(64, LATE_ROW), (66, "0.1..1...1.."), (130, SLOW_ROW)], &[edit!(LIMIT, 64, (1, 0), 1)]))),
    "grown-from-last" => Case::Growth(GrowthCase(130, 0, Some(129), 2, Shown(
        &[(129, ".1...2...2.."), (130, "0.1...1...1.")], &[edit!(LIMIT, 129, (1, 0), 1)]))),
    "grown-beyond" => Case::Growth(GrowthCase(130, 0, Some(130), 0, Shown(
        &[(130, LATE_ROW)], &[edit!(LIMIT, 130, (1, 0), 1)]))),
    "grown-longer" => Case::Growth(GrowthCase(60, 70, None, 10, Shown(
        &[(60, LATE_ROW), (65, ".1...2...2.."), (70, LATE_ROW)], &[]))),
];

// The calls of replicas.
const REPLICAS: &[(&str, Case)] = pairs![
    "replica-open" => Case::ReplicaOpening,
    "replica-edit" =>
        Case::Write(WriteCase(&[TO_HORIZON_SIX], BLOCKS, Reply::Stamped(stamp!(1, 0)), WITH_BLOCK)),
    "replica-withdraw" =>
        Case::Write(WriteCase(&[TO_HORIZON_SIX, BLOCKS], OPENS, Reply::Stamped(stamp!(2, 0)), WITHDRAWN)),
    "replica-take" =>
        Case::Write(WriteCase(&[TO_HORIZON_SIX], Write::Take(&[SLOW]), Reply::Touched(Some(3)), SLOWED)),
    // A block that was withdrawn reaches the replica again with an older message, and nothing changes.
    "replica-take-old" => Case::Write(WriteCase(
        &[TO_HORIZON_SIX, BLOCKS, OPENS], Write::Take(&[BLOCKED]), Reply::Touched(None), WITHDRAWN)),
    "replica-import" => Case::Write(WriteCase(
        &[TO_HORIZON_SIX], Write::Import(IMPORTED), Reply::Touched(Some(3)),
        Shown(&[(5, ".1.1...1...."), (6, "00.0...0....")], IMPORTED))),
    "replica-import-again" => Case::Write(WriteCase(
        &[Write::Import(&[LESS])], Write::Import(&[GREATER]), Reply::Touched(Some(0)),
        Shown(&[(0, "............")], &[GREATER]))),
    "replica-advance" => Case::Write(WriteCase(&[], TO_HORIZON_SIX, Reply::Horizon(6), TO_SIX)),
    "replica-advance-less" =>
        Case::Write(WriteCase(&[TO_HORIZON_SIX], Write::Advance(3), Reply::Horizon(6), TO_SIX)),
    "replica-copied" => Case::Question(&[TO_HORIZON_SIX], Question::Copied(TO_SIX)),
    "replica-message" => Case::Question(EXCHANGE, Question::Message(HELD)),
    "replica-heads" => Case::Question(EXCHANGE, Question::Heads(
        &[head!(LIMIT, 3, (1, 0)), head!(LIMIT, 5, (3, 0)), head!(BLOCK, 4, (2, 0))])),
    "replica-beyond" => Case::Question(EXCHANGE, Question::Beyond(HELD_ELSEWHERE, &[CLOSED, BLOCKED_SECOND])),
    "replica-message-of-none" => Case::Question(&[], Question::Message(&[])),
    "replica-heads-of-none" => Case::Question(&[], Question::Heads(&[])),
    "replica-beyond-of-none" => Case::Question(&[], Question::Beyond(&[CLOSED_ELSEWHERE], &[])),
    "replica-state" => Case::Question(&[TO_HORIZON_SIX], Question::State(6, CARS_AT_SIX)),
    "replica-earlier-state" =>
        Case::Question(&[TO_HORIZON_SIX], Question::State(4, cars![(48, 0, 0), (16, 3, 2), (0, 7, 2)])),
    "replica-totals" =>
        Case::Question(&[TO_HORIZON_SIX], Question::Totals(0, 3, Totals { cars: 1, speeds: 2 })),
    // The totals of a whole interval are stored in the sheet.
    "replica-kept-totals" =>
        Case::Question(&[TO_HORIZON_SIX], Question::Totals(0, 6, Totals { cars: 2, speeds: 4 })),
    "replica-rows" => Case::Question(
        &[TO_HORIZON_SIX, BLOCKS], Question::Rows(4, 6, &["0..2...2#...", ".1...2.0#...", "0..2..10#..."])),
];

// The calls of worlds.
const WORLDS: &[(&str, Case)] = pairs![
    "world-open" => Case::WorldOpening,
    "world-advance" => Case::Event(0),
    "world-edit" => Case::Event(1),
    "world-second-edit" => Case::Event(2),
    "world-send" => Case::Event(3),
    "world-advance-elsewhere" => Case::Event(4),
    "world-take" => Case::Event(5),
    "world-edit-elsewhere" => Case::Event(6),
    "world-third-edit" => Case::Event(7),
    "world-heads" => Case::Event(8),
    "world-beyond" => Case::Event(9),
    "world-take-answer" => Case::Event(11),
    "world-take-answer-late" => Case::Event(12),
    "world-take-again" => Case::Event(13),
    "world-withdraw" => Case::Event(14),
    "world-import" => Case::Event(15),
    "world-play" => Case::List(worlds::EXCHANGE),
    "world-play-crossed" => Case::List(worlds::CROSSED),
];

// The calls of stores, sessions and crowds.
const SESSIONS: &[(&str, Case)] = pairs![
    "store-prepare" => Case::StorePrepare,
    "store-open" => Case::StoreOpen,
    "store-close" => Case::Session(BLOCKING, Closing::Tried),
    "session-advance" => Case::Session(ADVANCING, Closing::Judged),
    "session-edit" => Case::Session(BLOCKING, Closing::Judged),
    "session-withdraw" => Case::Session(WITHDRAWING, Closing::Judged),
    "session-take" => Case::Session(TAKING, Closing::Judged),
    // The journal is checked as soon as the write is refused.
    "session-advance-journal" => Case::Session(ADVANCING, Closing::Refused),
    "session-edit-journal" => Case::Session(BLOCKING, Closing::Refused),
    "session-withdraw-journal" => Case::Session(WITHDRAWING, Closing::Refused),
    "session-take-journal" => Case::Session(TAKING, Closing::Refused),
    "session-look" => Case::Session(
        SessionCase(&[TO_HORIZON_SIX], Act::Look, TO_SIX, TO_SIX, &[TO_SIX_FIRST]), Closing::Judged),
    "session-state" => Case::Session(SessionCase(
        &[TO_HORIZON_SIX], Act::State(3, cars![(16, 1, 1), (0, 5, 2)]), TO_SIX, TO_SIX, &[TO_SIX_FIRST]), Closing::Judged),
    "session-totals" => Case::Session(SessionCase(
        &[TO_HORIZON_SIX], Act::Totals(0, 3, Totals { cars: 1, speeds: 2 }), TO_SIX, TO_SIX, &[TO_SIX_FIRST]),
        Closing::Judged),
    // A crowd of one session that only advances, and a crowd of two sessions.
    "crowd-of-one" => Case::Crowd(CrowdCase(&[&[]], &[], 1, LATE_ROW)),
    "crowd-of-two" =>
        Case::Crowd(CrowdCase(&[&[BLOCK_IMPORTED], &[OPENING_IMPORTED]], &[OPENING_IMPORTED], 4, LATE_ROW)),
];

// The calls of lines of text.
const LINES: &[(&str, Case)] = pairs![
    "read-plan" => Case::Line(LineCase::PlanLine),
    "read-import" => Case::Line(LineCase::Import),
    "read-edit" => Case::Line(LineCase::Edit),
    "write-edits" => Case::Line(LineCase::Edits),
    "write-rows" => Case::Line(LineCase::Rows),
];

/// The number of layers of calls.
pub(crate) const LAYERS: u32 = 7;

/// Return the calls of a layer. Layer 0 is the lowest.
pub(crate) fn cases_of(layer: u32) -> &'static [(&'static str, Case)] {
    match layer {
        0 => roads_cases(),
        1 => scenarios_cases(),
        2 => sheets_cases(),
        3 => replicas_cases(),
        4 => worlds_cases(),
        5 => sessions_cases(),
        _ => lines_cases(),
    }
}

fn roads_cases() -> &'static [(&'static str, Case)] {
    ROADS
}

fn scenarios_cases() -> &'static [(&'static str, Case)] {
    SCENARIOS
}

fn sheets_cases() -> &'static [(&'static str, Case)] {
    SHEETS
}

fn replicas_cases() -> &'static [(&'static str, Case)] {
    REPLICAS
}

fn worlds_cases() -> &'static [(&'static str, Case)] {
    WORLDS
}

fn sessions_cases() -> &'static [(&'static str, Case)] {
    SESSIONS
}

fn lines_cases() -> &'static [(&'static str, Case)] {
    LINES
}

/// Try a call up to a stage. Return `None` if an allocation failed before the call or while it was judged.
pub(crate) fn try_case<R: Threads + Wait + Clone + Drop + Send + 'static>(
    rt: &R,
    alloc: Global,
    until: Until,
    case: Case,
) -> Option<Verdict> {
    match case {
        Case::Line(case) => lines::try_line(alloc, until, case),
        Case::Map(case) => scenarios::try_map(alloc, until, case),
        Case::Run(case) => steps::try_run(alloc, until, &case),
        Case::Crew(case) => crews::try_crew(rt, alloc, until, case),
        Case::Scenario(making) => scenarios::try_making(alloc, until, making),
        Case::ReplicaOpening => replicas::try_opening(alloc, until),
        Case::Write(case) => replicas::try_write(alloc, until, &case),
        Case::Question(writes, question) => {
            replicas::try_question(alloc, until, writes, &question)
        }
        Case::SheetOpening => sheets::try_opening(alloc, until),
        Case::SheetQuestion(edits, question) => {
            sheets::try_question(alloc, until, edits, &question)
        }
        Case::Draft(keep, shown) => sheets::try_draft(alloc, until, keep, &shown),
        Case::Input(steps, speeds) => sheets::try_input(alloc, until, steps, speeds),
        Case::Push(steps, row) => sheets::try_push(alloc, until, steps, row),
        Case::Growth(case) => sheets::try_growth(alloc, until, &case),
        Case::WorldOpening => worlds::try_opening(alloc, until),
        Case::Event(place) => worlds::try_event(alloc, until, place),
        Case::List(list) => worlds::try_list(alloc, until, list),
        Case::StorePrepare => sessions::try_prepare(rt, alloc, until),
        Case::StoreOpen => sessions::try_open(rt, alloc, until),
        Case::Session(case, closing) => sessions::try_session_call(
            rt, alloc, until, closing, &case,
        ),
        Case::Crowd(case) => crowds::try_crowd(rt, alloc, until, &case),
    }
}
