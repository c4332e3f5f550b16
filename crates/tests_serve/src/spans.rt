//! Crews that run spans: a crew that fails at a run, and lasting workers that a gate counts.

ghost use Rattle.std.specs.Prelude.{◌<◌, ◌≤◌};

use crate::runs::{EqualHashes, NoThreads, sink_for};
use crate::sweeps::{ANSWERS, STORED};
use road_serve::{Failing, MemorySource, run_by};
use road_workers::{Alone, Crew, CrewFault, Pool};
use std::alloc::Global;
use std::sync::{Arc, Wait};
use std::test::Fail;
use std::thread::Threads;
use tests_plans::{Counter, Running, StepByStep};

/// The bytes that are written before each command of the stored run that uses the crew: an advance, an edit, a
/// withdrawal, and an advance of another replica.
const FRONTS: &[usize] = &[11, 50, 117, 224];

/// A number that is larger than the number of runs of the stored run.
const MANY: u64 = 24;

// Return the status with which the stored run ends with a crew, and how many bytes of the answers it writes.
fn run_stored<C: Crew>(alloc: Global, crew: &mut C) -> Result<(u8, usize), Fail> {
    let mut writer = sink_for(alloc, 1000)?;
    let mut reader = MemorySource::new(STORED.as_bytes(), 1, Failing::Never);
    let ended = run_by(
        alloc,
        &mut reader,
        &mut writer,
        crew,
        &NoThreads,
        EqualHashes,
    );
    let written = writer.bytes().len();
    if ANSWERS.as_bytes().get(..written) != Some(writer.bytes()) {
        return Err(Fail::new("the bytes written must be a prefix of the answers"));
    }
    Ok((ended.status, written))
}

// Return whether the stored run ends with a fault if each run in turn fails with the same crew. The answers to the
// commands before must be written, and each command that uses the crew must fail at least once.
fn fails_at_each_run<C: Crew>(
    alloc: Global,
    crew: &mut Running<C>,
    fault: CrewFault,
    status: u8,
) -> Result<bool, Fail> {
    let mut failed = 0;
    let mut front = 0;
    for runs in 0..MANY {
        crew.fail_after(runs, fault);
        let (ended, written) = run_stored(alloc, crew)?;
        if ended == 0 {
            return Ok(written == ANSWERS.len() && failed == FRONTS.len());
        }
        if FRONTS.get(failed) == Some(&written) {
            failed = failed.saturating_add(1);
            front = written;
        }
        if ended != status || written != front {
            return Ok(false);
        }
    }
    Ok(false)
}

// Return whether the stored run ends with the right fault, for either fault of its crew.
fn fails_with_either_fault<C: Crew>(alloc: Global, crew: &mut Running<C>) -> Result<bool, Fail> {
    Ok(
        fails_at_each_run(alloc, crew, CrewFault::WorkersGone, 7)?
            && fails_at_each_run(alloc, crew, CrewFault::OutOfMemory, 3)?,
    )
}

#[test]
fn the_stored_run_ends_at_the_run_at_which_its_crew_fails(rt: HostRuntime) -> Result<(), Fail> {
    let alloc = rt.alloc();
    let mut running = Running::of(Pool::start(rt.clone()?, alloc, 1)?);
    let fails = fails_with_either_fault(alloc, &mut running);
    let Running { crew, .. } = running;
    crew.finish();
    assert!(rt; fails?);
    Ok(())
}

/// The long road of the scripts: six intervals of 64 steps. The first four begin with too few cars to be shared.
const LONG: &str =
    r##"{"detectors":[520,2730,4095,4096,4100,5461,7700],"exit":3,"inlets":[[0,65536],[512,65536],[1024,65536],[1536,65536],[2048,65536],[2560,65536],[3072,65536],[3584,65536],[4096,65536],[4608,65536],[5120,65536],[5632,65536],[6144,65536],[6656,65536],[7168,65536],[7680,65536]],"length":8192,"replicas":["A"],"words":7,"zone":1024,"zones":[[9,0],[5,16384],[9,1000],[3,0],[9,32768],[7,8192],[9,0],[5,20000]]}
{"advance":{"at":"A","to":64}}
{"advance":{"at":"A","to":384}}
{"diagram":{"at":"A","from":383,"to":384}}
{"count":{"at":"A","detector":0,"from":0,"to":384}}
{"count":{"at":"A","detector":4,"from":320,"to":384}}
{"count":{"at":"A","detector":6,"from":0,"to":384}}
"##;

// Return the answers to a script with a crew.
fn answers_by<C: Crew>(alloc: Global, crew: &mut C, script: &str) -> Result<Vec<u8>, Fail> {
    let mut writer = sink_for(alloc, 20_000)?;
    let mut reader = MemorySource::new(script.as_bytes(), usize::MAX, Failing::Never);
    let ended = run_by(
        alloc,
        &mut reader,
        &mut writer,
        crew,
        &NoThreads,
        EqualHashes,
    );
    if ended.status != 0 {
        return Err(Fail::new("the script must be answered"));
    }
    Ok(writer.bytes().to_vec(alloc)?)
}

// Return how often lasting workers, each with its own processor, get work in a script with these answers.
fn count_requests<R: Threads + Wait + Clone + Drop + Send + 'static>(
    rt: &R,
    alloc: Global,
    script: &str,
    answers: &[u8],
) -> Result<u32, Fail> {
    let gate = Arc::new(alloc, Counter::new())?;
    let their_gate = Arc::try_clone(&gate)?;
    let mut crew = Pool::start_on(rt.clone()?, alloc, 3, their_gate, 3)?;
    let given = answers_by(alloc, &mut crew, script);
    crew.finish();
    if given?.as_slice() != answers {
        return Err(Fail::new("the script must have these answers"));
    }
    Ok(gate.passed())
}

/// Three workers share the last two intervals. Their rows and counts are those of a single caller, step by step.
#[test]
fn workers_share_the_long_road(rt: HostRuntime) -> Result<(), Fail> {
    let alloc = rt.alloc();
    let answers = answers_by(alloc, &mut StepByStep { crew: Alone }, LONG)?;
    assert!(rt;
        answers.starts_with(b"{\"open\":1}\n{\"horizon\":64}\n{\"horizon\":384}\n{\"rows\":[\"")
    );
    assert!(rt; count_requests(&rt, alloc, LONG, &answers)? == 6);
    Ok(())
}

/// The caller computes the stored run alone.
#[test]
fn no_worker_gets_work_in_the_stored_run(rt: HostRuntime) -> Result<(), Fail> {
    assert!(rt; count_requests(&rt, rt.alloc(), STORED, ANSWERS.as_bytes())? == 0);
    Ok(())
}
