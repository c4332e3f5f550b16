//! The program, apart from its process.

ghost use Rattle.std.specs.Prelude.{◌≡◌, ◌<◌, ◌≤◌, ℕ, IfNone, IfOk, IfSome, IsSome, codes, true, false, None, Option};
ghost use Rattle.std.specs.Prelude.{Some, Result};
ghost use Rattle.road_format.specs.Views.{texts};
ghost use Rattle.road_plan.specs.declared.limits.TheConstants.{MOST_WORKERS};
ghost use Rattle.road_serve.specs.Arguments.{are_accepted, script_of, workers_of};
ghost use Rattle.road_serve.specs.Serving.{program_serving};
ghost use Rattle.road_serve.specs.Statuses.{status_of, line_of, fault_status, fault_line, EndsAfter, EndsReader, EndsScript};
ghost use Rattle.road_serve.specs.Statuses.{HasStatus, IsRefused};
ghost use Rattle.road_serve.specs.StreamViews.{SourceView, source_view, sink_view};
ghost use Rattle.road_serve.specs.declared.serving.Served.{Served};
ghost use Rattle.road_serve.specs.declared.faults.ServeFault.{ServeFault};
ghost use Rattle.road_serve.specs.declared.faults.ServeFault.TheVariants.{Read};

use crate::arguments::{ArgumentFault, arguments_in};
use crate::faults::ServeFault;
use crate::serving::{Served, serve};
use crate::std_streams::StdSource;
use crate::streams::{Sink, Source};
use road_crowd::OnThreads;
use road_replica::Crowds;
use road_workers::{Alone, Crew, CrewFault, Pool};
use std::alloc::Global;
use std::fs;
use std::hash::{BuildHasher, RandomState};
use std::random::RandomSource;
use std::rt::Files;
use std::sync::Wait;
use std::thread::Threads;

/// How the program has ended, as its process reports it to its caller.
#[derive(Clone, Copy, Debug)]
pub struct Ended {
    /// The exit status.
    pub status: u8,
    /// The line for standard error, if the status is not 0.
    pub line: Option<&'static str>,
}

impl Ended {
    /// Return the end of the program if its arguments are refused.
    pub fn bad_arguments() -> Ended
        ensures { HasStatus result 2 (Some (codes "bad arguments")) }
    {
        Ended {
            status: 2,
            line: Some("bad arguments"),
        }
    }

    /// Return the end of the program if an allocation for its arguments failed.
    pub fn no_memory() -> Ended
        ensures { HasStatus result 3 (Some (codes "no memory")) }
    {
        Ended {
            status: 3,
            line: Some("no memory"),
        }
    }
}

/// Run the program with these arguments. It reads the script that they name, or the reader if they name none. It uses
/// the workers that they request, or only this thread if they request none. Names are found by hashes with keys from
/// the system's random bytes. A run without a script may end as after a failed read, before it reads a line.
pub fn run<
    F: Files + Threads + Wait + RandomSource + AllocGlobal + Clone + Drop + Send + 'static,
    R: Source,
    W: Sink,
>(rt: &F, words: &[String], reader: &mut R, writer: &mut W) -> Ended
    ensures refused { are_accepted (texts words.now) ≡ false → IsRefused result
        × (reader.new ≡ reader.old) × (writer.new ≡ writer.old) }
    ensures served { are_accepted (texts words.now) ≡ true → script_of (texts words.now) ≡ None
        → (served : Result Served ServeFault) × (gone : ℕ) × (workers_of (texts words.now) ≡ None → gone ≡ 0)
        × (after : SourceView)
        × EndsReader (source_view R.Source reader.old) (source_view R.Source reader.new) result
        (program_serving (source_view R.Source reader.old) after
        (sink_view W.Sink writer.old) (sink_view W.Sink writer.new) 0 gone served) }
    // No contract says which file a path opens, or which bytes a file holds.
    ensures script { are_accepted (texts words.now) ≡ true → IsSome (script_of (texts words.now))
        → (reader.new ≡ reader.old)
        × (served : Result Served ServeFault) × (gone : ℕ) × (workers_of (texts words.now) ≡ None → gone ≡ 0)
        × (before : SourceView) × (after : SourceView) × (opened : Option F.File)
        × EndsScript F.File.remaining opened result (program_serving before after
        (sink_view W.Sink writer.old) (sink_view W.Sink writer.new) 0 gone served) }
{
    match arguments_in(rt.alloc(), words) {
        Ok(asked) => match asked.script {
            None => run_reader(rt, asked.workers, reader, writer),
            Some(path) => run_opened(rt, fs::open(rt, path).ok(), asked.workers, writer),
        },
        Err(ArgumentFault::Refused) => Ended::bad_arguments(),
        Err(ArgumentFault::OutOfMemory) => Ended::no_memory(),
    }
}

// Run the program on a script, from its first byte. If the script could not be opened, report a read error.
fn run_opened<
    F: Files + Threads + Wait + RandomSource + AllocGlobal + Clone + Drop + Send + 'static,
    W: Sink,
>(rt: &F, opened: Option<F::File>, workers: Option<u32>, writer: &mut W) -> Ended
    requires { IfSome workers (λ count. (0 < count) × (count ≤ MOST_WORKERS)) }
    ensures script { (served : Result Served ServeFault) × (gone : ℕ) × (workers ≡ None → gone ≡ 0)
        × (before : SourceView) × (after : SourceView)
        × EndsScript F.File.remaining opened result (program_serving before after
        (sink_view W.Sink writer.old) (sink_view W.Sink writer.new) 0 gone served) }
    ensures unopened { IfNone opened (HasStatus result (fault_status Read) (Some (fault_line Read))) }
{
    match opened {
        Some(file) => {
            let mut reader = StdSource::new(file);
            run_reader(rt, workers, &mut reader, writer)
        }
        None => end_after_fault(&ServeFault::Read),
    }
}

// Run the program from a reader to a writer, with `workers` workers or alone. Names are found by hashes with random
// keys. If the system has no entropy for the keys, report a read error.
fn run_reader<
    F: Threads + Wait + RandomSource + AllocGlobal + Clone + Drop + Send + 'static,
    R: Source,
    W: Sink,
>(rt: &F, workers: Option<u32>, reader: &mut R, writer: &mut W) -> Ended
    requires { IfSome workers (λ count. (0 < count) × (count ≤ MOST_WORKERS)) }
    ensures { (served : Result Served ServeFault) × (gone : ℕ) × (workers ≡ None → gone ≡ 0) × (after : SourceView)
        × EndsReader (source_view R.Source reader.old) (source_view R.Source reader.new) result
        (program_serving (source_view R.Source reader.old) after
        (sink_view W.Sink writer.old) (sink_view W.Sink writer.new) 0 gone served) }
{
    match RandomState::new(rt) {
        Ok(hasher) => run_hashed(rt, workers, reader, writer, hasher),
        Err(_) => end_after_fault(&ServeFault::Read),
    }
}

// Run the program from a reader to a writer, with `workers` workers or alone, and find names by this hasher. Workers
// are stopped before the program ends.
fn run_hashed<F: Threads + Wait + AllocGlobal + Clone + Drop + Send + 'static, R: Source, W: Sink>(
    rt: &F,
    workers: Option<u32>,
    reader: &mut R,
    writer: &mut W,
    hasher: RandomState,
) -> Ended
    requires { IfSome workers (λ count. (0 < count) × (count ≤ MOST_WORKERS)) }
    ensures { (served : Result Served ServeFault) × (gone : ℕ) × (workers ≡ None → gone ≡ 0)
        × EndsAfter result (program_serving (source_view R.Source reader.old) (source_view R.Source reader.new)
        (sink_view W.Sink writer.old) (sink_view W.Sink writer.new) 0 gone served) }
{
    let crowds = OnThreads::new(rt);
    let Some(count) = workers else {
        return run_by(rt.alloc(), reader, writer, &mut Alone, &crowds, hasher);
    };
    match crew_of(rt, count) {
        Ok(mut crew) => {
            let ended = run_by(rt.alloc(), reader, writer, &mut crew, &crowds, hasher);
            crew.finish();
            ended
        }
        Err(fault) => end_after_fault(&ServeFault::from(fault)),
    }
}

// Start a crew of this many lasting workers.
fn crew_of<F: Threads + Wait + AllocGlobal + Clone + Drop + Send + 'static>(
    rt: &F,
    count: u32,
) -> Result<Pool<F>, CrewFault>
    requires some { 0 < count }
    requires few { count ≤ MOST_WORKERS }
    ensures workers { IfOk result (λ crew. crew.workers ≡ count) }
    ensures gone { IfOk result (λ crew. ⟦<Pool<F> as Crew>⟧.times_gone crew ≡ 0) }
{
    Pool::start(rt.clone()?, rt.alloc(), count)
}

/// Run the program from a reader to a writer, with a crew and a gatherer of crowds, and find names by this hasher.
pub fn run_by<R: Source, W: Sink, C: Crew, K: Crowds, S: BuildHasher + Copy>(
    alloc: Global,
    reader: &mut R,
    writer: &mut W,
    crew: &mut C,
    crowds: &K,
    hasher: S,
) -> Ended
    ensures { (served : Result Served ServeFault)
        × EndsAfter result (program_serving (source_view R.Source reader.old) (source_view R.Source reader.new)
        (sink_view W.Sink writer.old) (sink_view W.Sink writer.new) (C.times_gone crew.old) (C.times_gone crew.new)
        served) }
{
    end_after_run(&serve(alloc, reader, writer, crew, crowds, hasher))
}

// Return the end of the program after a run.
fn end_after_run(served: &Result<Served, ServeFault>) -> Ended
    ensures { HasStatus result (status_of served.now) (line_of served.now) }
{
    match served {
        Ok(_) => Ended {
            status: 0,
            line: None,
        },
        Err(fault) => end_after_fault(fault),
    }
}

// Return the end of the program after a run that failed.
fn end_after_fault(fault: &ServeFault) -> Ended
    ensures { HasStatus result (fault_status fault.now) (Some (fault_line fault.now)) }
{
    let (status, line) = match fault {
        ServeFault::BadPlan => (2, "bad plan"),
        ServeFault::OutOfMemory => (3, "no memory"),
        ServeFault::Write => (4, "write fault"),
        ServeFault::Read => (5, "read fault"),
        ServeFault::TooMany => (6, "too many lines"),
        ServeFault::WorkersGone => (7, "workers gone"),
    };
    Ended {
        status,
        line: Some(line),
    }
}
