//! The stored run with a crew that fails at each of its calls in turn.

use crate::runs::{EqualHashes, NoThreads, sink_for};
use road_serve::{Failing, MemorySource, run_by};
use std::alloc::Global;
use std::test::Fail;
use tests_plans::FailingCrew;

/// The stored run: a late edit, its withdrawal, and an older message that brings it back.
pub(crate) const STORED: &str =
    r##"{"detectors":[5],"exit":1,"inlets":[[0,65536]],"length":12,"replicas":["A","B","C"],"words":7,"zone":12,"zones":[[2,0]]}
{"advance":{"at":"A","to":6}}
{"cells":{"at":"A","step":6}}
{"edit":{"at":"A","object":["block",8],"step":4,"value":1}}
{"cells":{"at":"A","step":6}}
{"send":{"at":"A","name":"m1"}}
{"withdraw":{"at":"A","object":["block",8],"step":4}}
{"take":{"at":"A","message":"m1"}}
{"cars":{"at":"A","step":6}}
{"count":{"at":"A","detector":0,"from":0,"to":6}}
{"take":{"at":"B","message":"m1"}}
{"advance":{"at":"B","to":6}}
{"diagram":{"at":"B","from":4,"to":6}}
{"scenario":{"at":"A"}}
"##;

/// The answers to the stored run.
pub(crate) const ANSWERS: &str = r##"{"open":3}
{"horizon":6}
{"cells":"0..2...2...."}
{"stamp":[1,0]}
{"cells":"0..2..10#..."}
{"message":"m1","size":1}
{"stamp":[2,0]}
{"touched":null}
{"cars":[[80,0,0],[48,3,2],[16,7,2]]}
{"cars":2,"speeds":4}
{"touched":4}
{"horizon":6}
{"rows":["0..2...2#...",".1...2.0#...","0..2..10#..."]}
{"edits":[["block",8,4,2,0,null]],"form":2}
"##;

// For each command that computes six steps (an advance, an edit or a withdrawal): the number of its first call of the
// crew, and how many bytes are written before it. The last row is for a crew that does not fail.
const BYTES_BEFORE: &[(u64, usize)] = &[(0, 11), (6, 50), (12, 117), (18, 224), (CALLS, 338)];

// The number of calls of the crew in all.
const CALLS: u64 = 24;

// Return how many bytes are written if the crew fails after this many calls.
fn bytes_after(calls: u64) -> usize {
    let mut written = 0;
    for (first, bytes) in BYTES_BEFORE {
        if calls >= *first {
            written = *bytes;
        }
    }
    written
}

// Return whether the stored run ends as expected with a crew that fails after this many calls. A reader of one byte
// at a time lets each reply be written before the next line is read.
fn ends_as_expected(alloc: Global, calls: u64) -> Result<bool, Fail> {
    let mut writer = sink_for(alloc, 1000)?;
    let mut reader = MemorySource::new(STORED.as_bytes(), 1, Failing::Never);
    let mut crew = FailingCrew::after(calls);
    let ended = run_by(
        alloc,
        &mut reader,
        &mut writer,
        &mut crew,
        &NoThreads,
        EqualHashes,
    );
    let is_ended = if calls < CALLS {
        ended.status == 7 && ended.line == Some("workers gone") && crew.gone == 1
    } else {
        ended.status == 0 && ended.line.is_none() && crew.gone == 0
    };
    let front = ANSWERS.as_bytes().get(..bytes_after(calls));
    Ok(is_ended && crew.calls_left == 0 && front == Some(writer.bytes()))
}

#[test]
fn the_stored_run_ends_at_the_call_at_which_its_crew_fails(rt: HostRuntime) -> Result<(), Fail> {
    for calls in 0..=CALLS {
        assert!(rt; ends_as_expected(rt.alloc(), calls)?, "after {calls} calls");
    }
    Ok(())
}
