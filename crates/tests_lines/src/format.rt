//! Lines and replies worked out by hand.

use road_cells::Car;
use road_delta::Head;
use road_format::{
    Answer, Command, LineFault, OutOfMemory, Refusal, read_command, read_plan, reply_line,
};
use road_plan::{Object, WordKind};
use road_scenario::{Edit, Stamp, Value};
use std::alloc::Global;
use std::test::Fail;
use tests_plans::{FREE, Parts, cars, edit, has_parts, head, pairs, parts, stamp};

/// A plan of 12 cells with three replicas.
const PLAN: &str =
    r#"{"detectors":[5],"exit":1,"inlets":[[0,65536]],"length":12,"replicas":["A","B","C"],"words":7,"zone":12,"zones":[[2,0]]}"#;

// Return whether these are the names.
fn are_named(names: &[String], wanted: &[&str]) -> bool {
    names.len() == wanted.len()
        && names
            .iter()
            .zip(wanted)
            .all(|(name, want)| name.as_str() == *want)
}

/// The names of `PLAN`.
const NAMES: &[&str] = &["A", "B", "C"];

/// A part of `PLAN`, its replacement, and the names and parts that are then read.
const PLANS: &[((&str, &str), (&[&str], Parts))] = pairs![
    ("[5]", "[5]") => (NAMES, FREE),
    ("[5]", "[]") => (NAMES, parts!(detectors: &[])),
    ("\"words\":7", "\"words\":\"steady\"") => (NAMES, parts!(words: WordKind::Steady)),
    ("\"words\":7", "\"words\":0") => (NAMES, parts!(words: WordKind::Seeded(0))),
    ("\"words\":7", "\"words\":18446744073709551615") =>
        (NAMES, parts!(words: WordKind::Seeded(18_446_744_073_709_551_615))),
    // a name may have 64 bytes
    ("\"B\",\"C\"", "\"éééééééééééééééééééééééééééééééé\"") => (&["A", "éééééééééééééééééééééééééééééééé"], FREE),
];

// Return whether these names and parts are read from `PLAN` after a part of it is replaced.
fn is_plan(
    alloc: Global,
    ((old, new), (names, parts)): &((&str, &str), (&[&str], Parts)),
) -> Result<bool, Fail> {
    let line = PLAN.replacen(alloc, old, new, 1)?;
    let read = read_plan(alloc, line.as_bytes())?;
    Ok(are_named(&read.names, names) && has_parts(&read.plan, parts))
}

#[test]
fn plan_lines_are_read_as_worked_out(rt: HostRuntime) -> Result<(), Fail> {
    for row in PLANS {
        assert!(rt; is_plan(rt.alloc(), row)?, "{}", row.0.1);
    }
    Ok(())
}

/// Lines, and what is read from each: commands, edits from outside and messages, and crowds.
const COMMANDS: &[(&str, &str)] = pairs![
    r#"{"advance":{"at":"A","to":6}}"# => r#"Ok(Advance { at: "A", to: 6 })"#,
    r#"{"advance":{"to":6,"at":"A"}}"# => r#"Ok(Advance { at: "A", to: 6 })"#,
    " \t{\"advance\" : {\"to\":6, \"at\":\"\\u0041\"}} \r" => r#"Ok(Advance { at: "A", to: 6 })"#,
    r#"{"advance":{"at":"B","to":6,"at":"A"}}"# => r#"Ok(Advance { at: "A", to: 6 })"#,
    r#"{"advance":0,"advance":{"at":"A","to":6}}"# => r#"Ok(Advance { at: "A", to: 6 })"#,
    r#"{"cells":{"at":"A","step":4294967295}}"# => r#"Ok(Cells { at: "A", step: 4294967295 })"#,
    r#"{"cars":{"at":"A","step":6}}"# => r#"Ok(Cars { at: "A", step: 6 })"#,
    r#"{"count":{"to":6,"at":"A","detector":2,"from":4294967295}}"# =>
        r#"Ok(Count { at: "A", detector: 2, from: 4294967295, to: 6 })"#,
    r#"{"diagram":{"at":"B","from":0,"to":60}}"# => r#"Ok(Diagram { at: "B", from: 0, to: 60 })"#,
    r#"{"scenario":{"at":"A"}}"# => r#"Ok(Scenario { at: "A" })"#,
    // a name may have at most 64 bytes
    r#"{"scenario":{"at":"éééééééééééééééééééééééééééééééé"}}"# =>
        r#"Ok(Scenario { at: "éééééééééééééééééééééééééééééééé" })"#,
    r#"{"send":{"at":"A","name":"éééééééééééééééééééééééééééééééé"}}"# =>
        r#"Ok(Send { at: "A", name: "éééééééééééééééééééééééééééééééé" })"#,
    r#"{"edit":{"at":"A","object":["limit",2],"step":3,"value":1}}"# =>
        r#"Ok(Edit { at: "A", object: Limit(2), step: 3, value: 1 })"#,
    r#"{"withdraw":{"at":"A","object":["limit",2],"step":1048576}}"# =>
        r#"Ok(Withdraw { at: "A", object: Limit(2), step: 1048576 })"#,
    r#"{"withdraw":{"at":"A","object":["slow",2],"step":1048576}}"# =>
        r#"Ok(Withdraw { at: "A", object: Slow(2), step: 1048576 })"#,
    r#"{"withdraw":{"at":"A","object":["block",2],"step":1048576}}"# =>
        r#"Ok(Withdraw { at: "A", object: Block(2), step: 1048576 })"#,
    r#"{"withdraw":{"at":"A","object":["inflow",2],"step":1048576}}"# =>
        r#"Ok(Withdraw { at: "A", object: Inflow(2), step: 1048576 })"#,
    r#"{"withdraw":{"at":"A","object":["watch",2],"step":1048576}}"# =>
        r#"Ok(Withdraw { at: "A", object: Watch(2), step: 1048576 })"#,
    r#"{"withdraw":{"at":"A","object":["start",2],"step":1048576}}"# =>
        r#"Ok(Withdraw { at: "A", object: Start(2), step: 1048576 })"#,
    r#"{"edit":{"at":"A","object":["start",63],"step":1048576,"value":65537}}"# =>
        r#"Ok(Edit { at: "A", object: Start(63), step: 1048576, value: 65537 })"#,
    r#"{"import":{"at":"A","edits":[["limit",0,0,7,64,2]],"form":1}}"# =>
        r#"Ok(Import { at: "A", edits: [Edit { object: Limit(0), step: 0, stamp: Stamp { count: 7, number: 64 }, value: Put(2) }] })"#,
    r#"{"import":{"form":1,"edits":[["watch",4294967295,4294967295,18446744073709551615,65535,4294967295],["slow",0,0,0,0,null]],"at":"A"}}"# =>
        r#"Ok(Import { at: "A", edits: [Edit { object: Watch(4294967295), step: 4294967295, stamp: Stamp { count: 18446744073709551615, number: 65535 }, value: Put(4294967295) }, Edit { object: Slow(0), step: 0, stamp: Stamp { count: 0, number: 0 }, value: Withdrawn }] })"#,
    r#"{"import":{"at":"A","edits":[],"form":1}}"# => r#"Ok(Import { at: "A", edits: [] })"#,
    r#"{"import":{"at":"A","edits":[],"form":3,"form":1}}"# => r#"Ok(Import { at: "A", edits: [] })"#,
    r#"{"import":{"at":"A","edits":[],"form":2}}"# => r#"Ok(Import { at: "A", edits: [] })"#,
    // slowing chances of standing cars: in the second form they are allowed in any command
    r#"{"import":{"at":"A","edits":[["start",0,0,1,64,5]],"form":2}}"# =>
        r#"Ok(Import { at: "A", edits: [Edit { object: Start(0), step: 0, stamp: Stamp { count: 1, number: 64 }, value: Put(5) }] })"#,
    r#"{"import":{"at":"A","edits":[["watch",0,0,1,64,0],["start",63,1048576,0,3,null]],"form":2}}"# =>
        r#"Ok(Import { at: "A", edits: [Edit { object: Watch(0), step: 0, stamp: Stamp { count: 1, number: 64 }, value: Put(0) }, Edit { object: Start(63), step: 1048576, stamp: Stamp { count: 0, number: 3 }, value: Withdrawn }] })"#,
    r#"{"send":{"at":"A","name":"m1"}}"# => r#"Ok(Send { at: "A", name: "m1" })"#,
    r#"{"heads":{"name":"h","at":"A"}}"# => r#"Ok(Heads { at: "A", name: "h" })"#,
    r#"{"beyond":{"at":"B","heads":"h","name":"d"}}"# => r#"Ok(Beyond { at: "B", heads: "h", name: "d" })"#,
    r#"{"take":{"at":"B","message":"m1"}}"# => r#"Ok(Take { at: "B", message: "m1" })"#,
    r#"{"crowd":{"form":1,"shares":[[["limit",0,0,7,64,2]],[]],"to":6}}"# =>
        "Ok(Crowd { shares: [[Edit { object: Limit(0), step: 0, stamp: Stamp { count: 7, number: 64 }, value: Put(2) }], []], to: 6 })",
    r#"{"crowd":{"to":4294967295,"shares":[[["watch",0,1,2,3,null],["limit",0,0,7,64,2]],[["start",1,0,7,64,2]]],"form":2}}"# =>
        "Ok(Crowd { shares: [[Edit { object: Watch(0), step: 1, stamp: Stamp { count: 2, number: 3 }, value: Withdrawn }, Edit { object: Limit(0), step: 0, stamp: Stamp { count: 7, number: 64 }, value: Put(2) }], [Edit { object: Start(1), step: 0, stamp: Stamp { count: 7, number: 64 }, value: Put(2) }]], to: 4294967295 })",
    r#"{"crowd":{"form":1,"shares":[[]],"to":0}}"# => "Ok(Crowd { shares: [[]], to: 0 })",
    r#"{"crowd":{"form":1,"shares":[[],[],[],[],[],[],[],[]],"to":6}}"# =>
        "Ok(Crowd { shares: [[], [], [], [], [], [], [], []], to: 6 })",
    r#"{"crowd":{"form":3,"shares":[],"to":6,"form":1,"shares":[[]]}}"# => "Ok(Crowd { shares: [[]], to: 6 })",
];

// Return what is read from a command line, as text. `OutOfMemory` is returned as an error.
fn text_of(alloc: Global, read: &Result<Command, LineFault>) -> Result<String, OutOfMemory> {
    if matches!(read, Err(LineFault::OutOfMemory)) {
        return Err(OutOfMemory);
    }
    format!(in alloc; "{read:?}")
}

// Return what is read from a command line, as text.
fn read_text(alloc: Global, line: &str) -> Result<String, OutOfMemory> {
    let read = read_command(alloc, line.as_bytes());
    text_of(alloc, &read)
}

#[test]
fn commands_are_read_as_worked_out(rt: HostRuntime) -> Result<(), Fail> {
    for (line, want) in COMMANDS {
        let said = read_text(rt.alloc(), line)?;
        assert!(rt; said.as_str() == *want, "{line}");
    }
    Ok(())
}

// Commands, and the names of their replicas.
const REPLICAS: &[(&str, Option<&str>)] = pairs![
    r#"{"edit":{"at":"A","object":["limit",2],"step":3,"value":1}}"# => Some("A"),
    r#"{"withdraw":{"at":"B","object":["limit",2],"step":3}}"# => Some("B"),
    r#"{"advance":{"at":"C","to":6}}"# => Some("C"),
    r#"{"cells":{"at":"D","step":6}}"# => Some("D"),
    r#"{"cars":{"at":"E","step":6}}"# => Some("E"),
    r#"{"count":{"at":"F","detector":2,"from":0,"to":6}}"# => Some("F"),
    r#"{"diagram":{"at":"G","from":0,"to":6}}"# => Some("G"),
    r#"{"scenario":{"at":"H"}}"# => Some("H"),
    r#"{"import":{"at":"I","edits":[],"form":1}}"# => Some("I"),
    r#"{"send":{"at":"J","name":"m1"}}"# => Some("J"),
    r#"{"heads":{"at":"K","name":"h"}}"# => Some("K"),
    r#"{"beyond":{"at":"L","heads":"h","name":"d"}}"# => Some("L"),
    r#"{"take":{"at":"M","message":"m1"}}"# => Some("M"),
    r#"{"crowd":{"form":1,"shares":[[]],"to":6}}"# => None,
];

#[test]
fn each_command_has_the_name_of_its_replica(rt: HostRuntime) -> Result<(), Fail> {
    for (line, replica) in REPLICAS {
        let command = read_command(rt.alloc(), line.as_bytes())?;
        assert!(rt; command.replica() == *replica, "{line}");
    }
    Ok(())
}

/// An answer as tables write it, with borrowed names and lists.
enum Said {
    Open(u32),
    Horizon(u32),
    Counted(u32, u32),
    Stamped(Stamp),
    Touched(Option<u32>),
    Cells(&'static str),
    Rows(&'static [&'static str]),
    Cars(&'static [Car]),
    Edits(&'static [Edit]),
    Sent(&'static str, u64),
    Heads(&'static str, &'static [Head]),
    Delta(&'static str, &'static [Edit]),
    Crowd(&'static [Edit], u32, &'static str),
}

// Copy these rows to new strings.
fn rows_of(alloc: Global, rows: &[&str]) -> Result<Vec<String>, OutOfMemory> {
    let mut own = Vec::new(alloc);
    for row in rows {
        own.push(String::from_str(alloc, row)?)?;
    }
    Ok(own)
}

// Make an answer from its form in a table.
fn answer_of(alloc: Global, said: &Said) -> Result<Answer, OutOfMemory> {
    Ok(match *said {
        Said::Open(replicas) => Answer::Open { replicas },
        Said::Horizon(steps) => Answer::Horizon(steps),
        Said::Counted(cars, speeds) => Answer::Counted { cars, speeds },
        Said::Stamped(stamp) => Answer::Stamped(stamp),
        Said::Touched(step) => Answer::Touched(step),
        Said::Cells(row) => Answer::Cells(String::from_str(alloc, row)?),
        Said::Rows(rows) => Answer::Rows(rows_of(alloc, rows)?),
        Said::Cars(cars) => Answer::Cars(cars.to_vec(alloc)?),
        Said::Edits(edits) => Answer::Edits(edits.to_vec(alloc)?),
        Said::Sent(name, size) => Answer::Sent {
            message: String::from_str(alloc, name)?,
            size,
        },
        Said::Heads(name, heads) => Answer::Heads {
            message: String::from_str(alloc, name)?,
            heads: heads.to_vec(alloc)?,
        },
        Said::Delta(name, edits) => Answer::Delta {
            message: String::from_str(alloc, name)?,
            edits: edits.to_vec(alloc)?,
        },
        Said::Crowd(edits, journal, row) => Answer::Crowd {
            edits: edits.to_vec(alloc)?,
            journal,
            row: String::from_str(alloc, row)?,
        },
    })
}

// Return the reply line of an answer of a table.
fn line_of(alloc: Global, said: &Said) -> Result<String, OutOfMemory> {
    let answer = answer_of(alloc, said)?;
    reply_line(alloc, &answer)
}

/// Edits with the largest numbers, and withdrawals.
const EDITS: &[Edit] = &[
    edit!(
        Object::Limit(0),
        1_048_575,
        (281_474_976_710_656, 65_535),
        4_294_967_295
    ),
    edit!(Object::Watch(63), 0, (1, 0), withdrawn),
    edit!(Object::Start(0), 0, (1, 64), 65_536),
    edit!(Object::Start(63), 1_048_575, (2, 0), withdrawn),
];

/// Heads with the smallest and the largest numbers.
const HEADS: &[Head] = &[
    head!(Object::Slow(0), 0, (1, 0)),
    head!(Object::Inflow(15), 1_048_575, (281_474_976_710_656, 65_535)),
    head!(Object::Start(63), 0, (1, 64)),
];

/// Cars with the smallest and the largest numbers.
const CARS: &[Car] = cars![(0, 3, 1), (18_446_744_073_709_551_615, 1_048_575, 9)];

/// Answers, and how each is written.
const ANSWERS: &[(Said, &str)] = pairs![
    // numbers
    Said::Open(3) => "{\"open\":3}\n",
    Said::Horizon(1_048_576) => "{\"horizon\":1048576}\n",
    Said::Counted(1_048_576, 9_437_184) => "{\"cars\":1048576,\"speeds\":9437184}\n",
    // empty lists
    Said::Cars(&[]) => "{\"cars\":[]}\n",
    Said::Rows(&[]) => "{\"rows\":[]}\n",
    Said::Edits(&[]) => "{\"edits\":[],\"form\":2}\n",
    // edits
    Said::Stamped(stamp!(281_474_976_710_656, 63)) => "{\"stamp\":[281474976710656,63]}\n",
    Said::Edits(EDITS) =>
        "{\"edits\":[[\"limit\",0,1048575,281474976710656,65535,4294967295],[\"watch\",63,0,1,0,null],[\"start\",0,0,1,64,65536],[\"start\",63,1048575,2,0,null]],\"form\":2}\n",
    // messages
    Said::Sent("m\"1", 18_446_744_073_709_551_615) => "{\"message\":\"m\\\"1\",\"size\":18446744073709551615}\n",
    Said::Heads("h", HEADS) =>
        "{\"form\":2,\"heads\":[[\"slow\",0,0,1,0],[\"inflow\",15,1048575,281474976710656,65535],[\"start\",63,0,1,64]],\"message\":\"h\"}\n",
    Said::Delta("d", EDITS) =>
        "{\"edits\":[[\"limit\",0,1048575,281474976710656,65535,4294967295],[\"watch\",63,0,1,0,null],[\"start\",0,0,1,64,65536],[\"start\",63,1048575,2,0,null]],\"form\":2,\"message\":\"d\"}\n",
    // crowds
    Said::Crowd(EDITS, 4_294_967_295, "0..2..10#...") =>
        "{\"edits\":[[\"limit\",0,1048575,281474976710656,65535,4294967295],[\"watch\",63,0,1,0,null],[\"start\",0,0,1,64,65536],[\"start\",63,1048575,2,0,null]],\"form\":2,\"journal\":4294967295,\"row\":\"0..2..10#...\"}\n",
    Said::Crowd(&[], 1, "............") => "{\"edits\":[],\"form\":2,\"journal\":1,\"row\":\"............\"}\n",
    // touched steps
    Said::Touched(Some(1_048_575)) => "{\"touched\":1048575}\n",
    Said::Touched(None) => "{\"touched\":null}\n",
    // rows and cars
    Said::Cells("0..2..10#...") => "{\"cells\":\"0..2..10#...\"}\n",
    Said::Rows(&["0..2..10#...", "............"]) => "{\"rows\":[\"0..2..10#...\",\"............\"]}\n",
    Said::Cars(CARS) => "{\"cars\":[[0,3,1],[18446744073709551615,1048575,9]]}\n",
];

/// Refusals, and how each is named.
const REFUSALS: &[(Refusal, &str)] = &[
    (Refusal::NoPlan, "no plan"),
    (Refusal::LineTooLong, "line too long"),
    (Refusal::NotJson, "not json"),
    (Refusal::NotAPlan, "not a plan"),
    (Refusal::Names, "Names"),
    (Refusal::Length, "Length"),
    (Refusal::Exit, "Exit"),
    (Refusal::Zones, "Zones"),
    (Refusal::Inlets, "Inlets"),
    (Refusal::Detectors, "Detectors"),
    (Refusal::Default, "Default"),
    (Refusal::NotACommand, "not a command"),
    (Refusal::UnknownForm, "unknown form"),
    (Refusal::NoReplica, "NoReplica"),
    (Refusal::NoMessage, "NoMessage"),
    (Refusal::NameTaken, "NameTaken"),
    (Refusal::NoObject, "NoObject"),
    (Refusal::Step, "Step"),
    (Refusal::ValueOutOfRange, "ValueOutOfRange"),
    (Refusal::CountsSpent, "CountsSpent"),
    (Refusal::Count, "Count"),
    (Refusal::Insider, "Insider"),
    (Refusal::Horizon, "Horizon"),
    (Refusal::NoDetector, "NoDetector"),
    (Refusal::Range, "Range"),
    (Refusal::NotSimulated, "NotSimulated"),
];

// Return an `import` line with the edits of an answer to `scenario`. The answer has all fields of the command but `at`.
fn import_of(alloc: Global, said: &Said) -> Result<String, OutOfMemory> {
    let reply = line_of(alloc, said)?;
    let opened = reply.replacen(alloc, "{", "{\"import\":{\"at\":\"A\",", 1)?;
    opened.replacen(alloc, "}\n", "}}", 1)
}

// Return whether a command is the import of these edits.
fn imports(command: &Command, wanted: &[Edit]) -> bool {
    match command {
        Command::Import { edits, .. } => edits.as_slice() == wanted,
        _ => false,
    }
}

#[test]
fn edits_that_are_written_are_read_back(rt: HostRuntime) -> Result<(), Fail> {
    let line = import_of(rt.alloc(), &Said::Edits(EDITS))?;
    let command = read_command(rt.alloc(), line.as_bytes())?;
    assert!(rt; imports(&command, EDITS));
    Ok(())
}

#[test]
fn answers_are_written_as_worked_out(rt: HostRuntime) -> Result<(), Fail> {
    for (said, want) in ANSWERS {
        let line = line_of(rt.alloc(), said)?;
        assert!(rt; line.as_str() == *want);
    }
    Ok(())
}

// Return the reply line of a refusal, and the expected line.
fn refusal_lines(
    alloc: Global,
    refusal: Refusal,
    name: &str,
) -> Result<(String, String), OutOfMemory> {
    let line = reply_line(alloc, &Answer::Refused(refusal))?;
    Ok((line, format!(in alloc; "{{\"refused\":\"{name}\"}}\n")?))
}

#[test]
fn refusals_are_written_as_worked_out(rt: HostRuntime) -> Result<(), Fail> {
    for (refusal, name) in REFUSALS {
        let (line, want) = refusal_lines(rt.alloc(), *refusal, name)?;
        assert!(rt; line.as_str() == want.as_str());
    }
    Ok(())
}
