//! Runs over memory that end at a limit or with a fault, and runs over a writer of std. Their ends are worked out by
//! hand.

ghost use Rattle.std.specs.Prelude.{◌≡◌};
ghost use Rattle.road_workers.specs.declared.faults.CrewFault.TheVariants.{WorkersGone};

use road_plan::{OutOfMemory, Plan};
use road_replica::{Crowd, Crowds};
use road_scenario::Edit;
use road_serve::{
    Failing, MemorySink, MemorySource, ServeFault, Served, StdSink, serve, serve_within,
};
use road_workers::{Alone, CrewFault};
use std::alloc::Global;
use std::hash::{BuildHasher, Hasher};
use std::io;
use std::sync::Arc;
use std::test::Fail;
use tests_plans::{FailingCrew, pairs};

// A road of 12 cells without slowing, and three replicas.
const FREE_ROAD: &str =
    r#"{"detectors":[5],"exit":1,"inlets":[[0,65536]],"length":12,"replicas":["A","B","C"],"words":7,"zone":12,"zones":[[2,0]]}
"#;

/// Return a sink that has allocated room for this many bytes, so that none of its writes allocates.
pub(crate) fn sink_for(alloc: Global, room: usize) -> Result<MemorySink, OutOfMemory> {
    let bytes = Vec::with_capacity(alloc, room)?;
    Ok(MemorySink::new(bytes, room, Failing::Never, Failing::Never))
}

/// A hasher with one hash for all names, so that each look-up compares names.
#[derive(Clone, Copy, Debug)]
pub(crate) struct EqualHashes;

impl BuildHasher for EqualHashes {
    type Hasher = EqualHashes;

    ghost build_hasher = { λ builder. builder };

    fn build_hasher(&self) -> EqualHashes {
        EqualHashes
    }
}

impl Hasher for EqualHashes {
    ghost write = { λ hasher bytes. hasher };

    ghost finish = { λ hasher. 0 };

    fn write(&mut self, _bytes: &[u8]) {}

    fn finish(&self) -> u64 {
        0
    }
}

/// A gatherer that fails to run any crowd: the thread of the first session cannot be started.
pub(crate) struct NoThreads;

impl Crowds for NoThreads {
    ghost may_fail_with = { λ _ fault. fault ≡ WorkersGone };

    fn gather(
        &self,
        _alloc: Global,
        _plan: &Arc<Plan>,
        _shares: &[Vec<Edit>],
        _to: u32,
    ) -> Result<Crowd, CrewFault> {
        Err(CrewFault::WorkersGone)
    }
}

// Three commands on the free road, in 90 bytes.
const COMMANDS: &str = r#"{"advance":{"at":"A","to":1}}
{"advance":{"at":"A","to":1}}
{"advance":{"at":"A","to":1}}
"#;

const REPLIES: &str = "{\"open\":3}\n{\"horizon\":1}\n{\"horizon\":1}\n{\"horizon\":1}\n";

/// How a run ends.
#[derive(Clone, Copy)]
enum End {
    /// Three lines are answered.
    Whole,
    TooMany,
    Write,
    Read,
}

// The limits of lines and bytes; how many bytes a read gives, and which reads fail; how many bytes the writer takes,
// and which of its writes and flushes fail. Then how the run ends, and how many bytes of the replies it has written, if
// that is known.
type Run = (
    ((u32, u64), (usize, Failing), (usize, Failing, Failing)),
    (End, Option<usize>),
);

const ALL: Failing = Failing::Never;

// The plan line has 121 bytes, and the whole input has 211.
const RUNS: &[Run] = pairs![
    ((3, 1000), (7, ALL), (1000, ALL, ALL)) => (End::Whole, Some(53)),
    ((3, 211), (7, ALL), (1000, ALL, ALL)) => (End::Whole, Some(53)),
    ((2, 1000), (7, ALL), (1000, ALL, ALL)) => (End::TooMany, Some(39)),
    ((3, 210), (7, ALL), (1000, ALL, ALL)) => (End::TooMany, Some(39)),
    // A limit within the plan line, right before its newline, and right behind it.
    ((3, 100), (7, ALL), (1000, ALL, ALL)) => (End::TooMany, Some(0)),
    ((3, 120), (7, ALL), (1000, ALL, ALL)) => (End::TooMany, Some(0)),
    ((3, 121), (7, ALL), (1000, ALL, ALL)) => (End::TooMany, Some(11)),
    ((0, 1000), (7, ALL), (1000, ALL, ALL)) => (End::TooMany, Some(11)),
    ((3, 1000), (7, ALL), (14, ALL, ALL)) => (End::Write, Some(14)),
    ((3, 1000), (7, ALL), (1000, Failing::Once(1), ALL)) => (End::Write, Some(11)),
    ((3, 1000), (7, ALL), (1000, Failing::From(1), ALL)) => (End::Write, Some(11)),
    ((3, 1000), (7, ALL), (1000, ALL, Failing::Once(0))) => (End::Write, None),
    ((3, 1000), (7, ALL), (1000, ALL, Failing::From(0))) => (End::Write, None),
    ((3, 1000), (121, Failing::Once(1)), (1000, ALL, ALL)) => (End::Read, Some(11)),
    ((3, 1000), (121, Failing::From(1)), (1000, ALL, ALL)) => (End::Read, Some(11)),
    ((3, 1000), (7, Failing::Once(0)), (1000, ALL, ALL)) => (End::Read, Some(0)),
    // Nothing is read past a limit, because that read would fail.
    ((2, 1000), (1000, Failing::From(1)), (1000, ALL, ALL)) => (End::TooMany, Some(39)),
    ((3, 210), (1000, Failing::From(1)), (1000, ALL, ALL)) => (End::TooMany, Some(39)),
    // The read at the end of the input fails.
    ((3, 1000), (1000, Failing::Once(1)), (1000, ALL, ALL)) => (End::Read, Some(53)),
];

// Return whether a run has ended as expected.
fn is_end(ended: &Result<Served, ServeFault>, end: End) -> bool {
    match end {
        End::Whole => matches!(ended, Ok(Served { lines: 3 })),
        End::TooMany => matches!(ended, Err(ServeFault::TooMany)),
        End::Write => matches!(ended, Err(ServeFault::Write)),
        End::Read => matches!(ended, Err(ServeFault::Read)),
    }
}

// Return whether a run over an input ends as expected, and writes this many bytes of the replies. The sink takes at
// most `step` bytes in each call.
fn ends(alloc: Global, input: &str, run: &Run, step: usize) -> Result<bool, Fail> {
    let &(((lines, bytes), (piece, reads), (room, writes, flushes)), (end, written)) = run;
    if piece == 0 {
        return Ok(false);
    }
    let taken = Vec::with_capacity(alloc, 1000)?;
    let mut writer = MemorySink::new(taken, room, writes, flushes).with_step(step);
    let mut reader = MemorySource::new(input.as_bytes(), piece, reads);
    let ended = serve_within(
        alloc,
        &mut reader,
        &mut writer,
        &mut Alone,
        &NoThreads,
        EqualHashes,
        lines,
        bytes,
    );
    Ok(
        is_end(&ended, end)
            && REPLIES.as_bytes().starts_with(writer.bytes())
            && (written.is_none() || written == Some(writer.bytes().len())),
    )
}

#[test]
fn a_run_ends_at_a_limit_or_with_a_fault(rt: HostRuntime) -> Result<(), Fail> {
    let input = format!(in rt.alloc(); "{FREE_ROAD}{COMMANDS}")?;
    for (number, run) in RUNS.iter().enumerate() {
        assert!(rt; ends(rt.alloc(), &input, run, usize::MAX)?, "run {number}");
    }
    Ok(())
}

// A run, the maximum number of bytes that its sink takes in one call, and its end.
const SHORT_WRITES: &[(usize, Run)] = pairs![
    1 => (((3, 1000), (7, ALL), (1000, ALL, ALL)), (End::Whole, Some(53))),
    5 => (((3, 1000), (1000, ALL), (1000, ALL, ALL)), (End::Whole, Some(53))),
    5 => (((3, 1000), (1000, ALL), (14, ALL, ALL)), (End::Write, Some(14))),
    // The third call fails, after two of five bytes.
    5 => (((3, 1000), (1000, ALL), (1000, Failing::Once(2), ALL)), (End::Write, Some(10))),
    // A sink that takes nothing fails.
    0 => (((3, 1000), (7, ALL), (1000, ALL, ALL)), (End::Write, Some(0))),
];

// After a short write, the rest is written.
#[test]
fn a_short_write_is_continued(rt: HostRuntime) -> Result<(), Fail> {
    let input = format!(in rt.alloc(); "{FREE_ROAD}{COMMANDS}")?;
    for (number, (step, run)) in SHORT_WRITES.iter().enumerate() {
        assert!(rt; ends(rt.alloc(), &input, run, *step)?, "run {number}");
    }
    Ok(())
}

// Nothing is read after a plan line that is refused, because that read would fail.
#[test]
fn a_refused_plan_ends_the_run(rt: HostRuntime) -> Result<(), Fail> {
    let mut writer = sink_for(rt.alloc(), 1000)?;
    let mut reader = MemorySource::new(b"{}\n", 3, Failing::From(1));
    let crew = &mut Alone;
    let ended = serve(
        rt.alloc(),
        &mut reader,
        &mut writer,
        crew,
        &NoThreads,
        EqualHashes,
    );
    assert!(rt; matches!(ended, Err(ServeFault::BadPlan)));
    Ok(())
}

// A crowd that is refused, a crowd that is not refused, and an advance.
const CROWDS: &str = r#"{"crowd":{"form":2,"shares":[[["limit",0,0,1,3,1]]],"to":6}}
{"crowd":{"form":2,"shares":[[["block",8,4,1,64,1]],[["block",8,4,2,64,null]]],"to":6}}
{"advance":{"at":"A","to":1}}
"#;

// A crowd that cannot be run ends the run. The crew was not used, and has not failed. A refused crowd starts
// nothing.
#[test]
fn a_crowd_without_threads_ends_the_run(rt: HostRuntime) -> Result<(), Fail> {
    let input = format!(in rt.alloc(); "{FREE_ROAD}{CROWDS}")?;
    let mut writer = sink_for(rt.alloc(), 1000)?;
    let mut reader = MemorySource::new(input.as_bytes(), 1, ALL);
    let mut crew = FailingCrew::after(0);
    let ended = serve(
        rt.alloc(),
        &mut reader,
        &mut writer,
        &mut crew,
        &NoThreads,
        EqualHashes,
    );
    assert!(rt; matches!(ended, Err(ServeFault::WorkersGone)) && crew.gone == 0);
    let replies = "{\"open\":3}\n{\"refused\":\"Insider\"}\n";
    assert!(rt; writer.bytes() == replies.as_bytes());
    Ok(())
}

// A writer that holds what it took until it is flushed, counts its flushes and fails one of them.
#[derive(Clone, Copy)]
struct Holding {
    held: usize,
    passed_on: usize,
    flushes: u32,
    fails_at: u32,
}

impl io::Write for Holding {
    fn write(&mut self, bytes: &[u8]) -> io::Result<usize> {
        self.held = self.held.saturating_add(bytes.len());
        Ok(bytes.len())
    }

    fn flush(&mut self) -> io::Result<()> {
        let flush = self.flushes;
        self.flushes = flush.saturating_add(1);
        if flush == self.fails_at {
            return Err(io::Error::from(io::ErrorKind::BrokenPipe));
        }
        self.passed_on = self.passed_on.saturating_add(self.held);
        self.held = 0;
        Ok(())
    }
}

// Return whether a run over a writer ends well and the writer then holds nothing back, or the run ends at the flush
// that fails, which is not retried.
fn flushes(alloc: Global, mut holding: Holding) -> bool {
    let mut writer = StdSink::new(&mut holding);
    let mut reader = MemorySource::new(FREE_ROAD.as_bytes(), usize::MAX, ALL);
    let ended = serve(
        alloc,
        &mut reader,
        &mut writer,
        &mut Alone,
        &NoThreads,
        EqualHashes,
    );
    drop(writer);
    match ended {
        Ok(_) => holding.fails_at == u32::MAX && (holding.passed_on, holding.held) == (11, 0),
        Err(ServeFault::Write) => holding.flushes == holding.fails_at.saturating_add(1),
        Err(_) => false,
    }
}

// Over a writer of std, all replies of a run are passed on, or the run ends at the flush that fails.
#[test]
fn a_writer_of_std_gets_all_replies_or_fails(rt: HostRuntime) {
    for fails_at in [u32::MAX, 0, 1] {
        let holding = Holding {
            held: 0,
            passed_on: 0,
            flushes: 0,
            fails_at,
        };
        assert!(rt; flushes(rt.alloc(), holding), "flush {fails_at}");
    }
}
