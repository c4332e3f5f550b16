//! Timings of a road: its steps compared with the random words that they draw, its crews, and the sessions that share a
//! replica. `steps` and `crews` read a plan line from standard input. Without arguments the program does nothing.
//!
//! `road_bench steps STEPS` computes STEPS steps with the plan's own settings, and then draws as many words as these
//! steps drew. It writes five lines. Each has the steps, the cars moved, the words drawn, the nanoseconds of the steps,
//! the nanoseconds of the words, and a mix of the words.
//!
//! `road_bench crews STEPS TURNS` simulates a replica of the plan from step zero to STEPS, step by step, TURNS times
//! with each crew: one thread alone, 1, 2 and 4 threads made for each step, and 1, 2 and 4 lasting workers. It writes a
//! line for each run: the crew, its workers, the steps, the cars on the road after them, and the nanoseconds.
//!
//! `road_bench runs WORKERS RUNS` takes the dense road of 32 cells through its worked rows, RUNS times with threads
//! made for each step, and RUNS times with lasting workers. Each time it starts from step zero with a new crew of 1 to
//! 16 workers. It prints how many runs gave these rows.
//!
//! `road_bench meetings WORKERS RUNS` runs a long road to step 1,152, RUNS times, each time with a new crew of 1 to 16
//! lasting workers. By its own measure, the crew divides this road into a stretch for each worker. The workers wait for
//! each other before they run. It prints in how many runs they all met.
//!
//! `road_bench checks WORKERS RUNS WRITES TIMES` is `runs WORKERS RUNS`, `meetings` of 2, of 4 and of WORKERS workers,
//! RUNS times each, and then `sessions merge WRITES TIMES`. The gate runs it.
//!
//! `road_bench sessions merge WRITES RUNS` does RUNS runs. In each, eight sessions make WRITES writes each, alternately
//! an edit and an advance, and look after each write. It prints in how many runs the journal was the merge of their
//! writes, and each look showed the session's own writes.
//!
//! `road_bench sessions looks READERS LOOKS WRITES`: 1 to 7 sessions make LOOKS looks each, while another session
//! publishes the same road again and again, at most WRITES times. It prints for each session, the writer first, how
//! often it looked or published, and the nanoseconds that this took. With `advances` in place of `looks` each write
//! advances the road by one step. `steps` is the same as `advances`, but on 8,192 cells with random slowing instead of
//! the free road of 12 cells.
//!
//! `road_bench sessions bare LOOKS WRITES` is the baseline: one reader, and one writer that publishes a number, use
//! `left_right` directly, with nothing of this repository between them.
#![tactic(auto)]

mod crews;
mod dense;
mod meetings;
mod sessions;
mod stepping;

use anyhow::{Context, Result};
use road_format::read_plan;
use road_plan::Plan;
use std::alloc::Global;
use std::io::Input;
use std::sync::{Arc, Wait};
use std::thread::Threads;
use std::time::Clock;
use std::{env, io};

// Read the plan from the first line of a text.
fn plan_in(alloc: Global, text: &str) -> Result<Arc<Plan>> {
    let line = text.lines().next().context("there is no plan line")?;
    let read = read_plan(alloc, line.as_bytes())?;
    Ok(Arc::new(alloc, read.plan)?)
}

// Read the plan from the first line of standard input.
fn plan<R: Input>(rt: &R, alloc: Global) -> Result<Arc<Plan>> {
    let text = io::read_to_string(alloc, rt.reader())?;
    plan_in(alloc, &text)
}

// Do a kind of work with these numbers, or nothing if there is no work of that kind.
fn work<R: Threads + Wait + Clock + Input + Print + Clone + Drop + Send + Sync + 'static>(
    rt: &R,
    alloc: Global,
    kind: &str,
    numbers: &[u32],
) -> Result<()> {
    match (kind, numbers) {
        ("steps", [steps]) => stepping::time(rt, alloc, &plan(rt, alloc)?, *steps),
        ("crews", [steps, turns]) => crews::time_all(rt, alloc, &plan(rt, alloc)?, *steps, *turns),
        ("runs", [workers, runs]) => dense::run(rt, alloc, *workers, *runs),
        ("meetings", [workers, runs]) => meetings::run(rt, alloc, *workers, *runs),
        ("checks", [workers, runs, writes, times]) => {
            dense::run(rt, alloc, *workers, *runs)?;
            for met in [2, 4, *workers] {
                meetings::run(rt, alloc, met, *runs)?;
            }
            sessions::work(rt, alloc, "merge", &[*writes, *times])
        }
        _ => Ok(()),
    }
}

// Parse each string as a number.
fn numbers_of(alloc: Global, words: &[String]) -> Result<Vec<u32>> {
    let mut numbers = Vec::new(alloc);
    for word in words {
        numbers.push(word.parse::<u32>().context("an argument is not a number")?)?;
    }
    Ok(numbers)
}

// Do what the arguments request. The first argument is the program's name.
fn run_command<R: Threads + Wait + Clock + Input + Print + Clone + Drop + Send + Sync + 'static>(
    rt: &R,
    alloc: Global,
    words: &[String],
) -> Result<()> {
    match words {
        [_, sessions, kind, words @ ..] if sessions.as_str() == "sessions" => {
            sessions::work(rt, alloc, kind, &numbers_of(alloc, words)?)
        }
        [_, kind, words @ ..] => work(rt, alloc, kind, &numbers_of(alloc, words)?),
        _ => Ok(()),
    }
}

// Return the program's arguments, with its name.
fn words_of(rt: &HostRuntime) -> io::Result<Vec<String>> {
    let mut words = Vec::new(rt.alloc());
    for word in env::args(rt)? {
        words.push(word)?;
    }
    Ok(words)
}

fn main(rt: HostRuntime) -> Result<()> {
    let words = words_of(&rt)?;
    run_command(&rt, rt.alloc(), &words)
}
