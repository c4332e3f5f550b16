//! Sessions at work on their own threads, on the free road of 12 cells unless another road is named.

mod bare;
mod crowd;
mod looking;
mod merge;

use crate::sessions::crowd::merges;
use crate::sessions::looking::{Done, Work, time};
use anyhow::{Context, Result};
use road_plan::{Plan, WordKind};
use std::alloc::Global;
use std::sync::{Arc, Wait};
use std::thread::Threads;
use std::time::Clock;
use tests_plans::{FREE, Parts, plan_of};

/// 8,192 cells with limit 5 and slowing chance one half, and an inlet at the first cell that is always open.
const LONG: Parts = Parts {
    road: (8_192, 1, 8_192),
    zones: &[(5, 32_768)],
    inlets: &[(0, 65_536)],
    detectors: &[],
    words: WordKind::Seeded(7),
};

// Return the plan with which a kind of work is timed.
fn plan_for(alloc: Global, kind: &str) -> Result<Arc<Plan>> {
    let plan = if kind == "steps" {
        plan_of(alloc, &LONG)
    } else {
        plan_of(alloc, &FREE)
    };
    Ok(Arc::new(alloc, plan?)?)
}

// Do this many runs. Return in how many the journal is the merge of all writes.
fn count_merged_runs<R: Threads + Wait + Sync>(
    rt: &R,
    alloc: Global,
    plan: &Arc<Plan>,
    writes: u32,
    runs: u32,
) -> Result<u32> {
    let mut good = 0u32;
    for _ in 0..runs {
        if merges(rt, alloc, plan, writes)? {
            good = good.saturating_add(1);
        }
    }
    Ok(good)
}

// Print how many of these runs end with a journal that is the merge of all writes.
fn merge_all<R: Threads + Wait + Print + Sync>(
    rt: &R,
    alloc: Global,
    plan: &Arc<Plan>,
    writes: u32,
    runs: u32,
) -> Result<()> {
    let good = count_merged_runs(rt, alloc, plan, writes, runs)?;
    println!(rt; "{good} of {runs} journals are the merge of all writes")?;
    Ok(())
}

// Time the looks of sessions while another session writes, and print a line for each session.
fn time_looks<R: Threads + Wait + Clock + Print + Sync>(
    rt: &R,
    alloc: Global,
    plan: &Arc<Plan>,
    readers: u32,
    work: Work,
) -> Result<()> {
    let all = time(rt, alloc, plan, readers, work)?;
    print_all(rt, all.as_slice())
}

// Time the entries into a store of `left_right` alone, and print a line for each thread.
fn time_left_right_alone<R: Threads + Wait + Clock + Print + Clone + Drop + Sync>(
    rt: &R,
    alloc: Global,
    looks: u32,
    writes: u32,
) -> Result<()> {
    let all = bare::time(rt, alloc, looks, writes)?;
    print_all(rt, all.as_slice())
}

// Write a line for each result.
fn print_all<R: Print>(rt: &R, all: &[Option<Done>]) -> Result<()> {
    for done in all {
        let done = (*done).context("the clock cannot be read")?;
        println!(rt; "{} {}", done.times, done.nanoseconds)?;
    }
    Ok(())
}

/// Do a kind of work with these numbers, or nothing if there is no work of that kind.
pub(crate) fn work<R: Threads + Wait + Clock + Print + Clone + Drop + Sync>(
    rt: &R,
    alloc: Global,
    kind: &str,
    numbers: &[u32],
) -> Result<()> {
    let plan = plan_for(alloc, kind)?;
    match (kind, numbers) {
        ("merge", [writes, runs]) => merge_all(rt, alloc, &plan, *writes, *runs),
        ("bare", [looks, writes]) => time_left_right_alone(rt, alloc, *looks, *writes),
        ("looks" | "advances" | "steps", [readers, looks, writes]) => {
            let work = Work {
                looks: *looks,
                writes: *writes,
                steps: if kind == "looks" { 0 } else { 1 },
            };
            time_looks(rt, alloc, &plan, *readers, work)
        }
        _ => Ok(()),
    }
}
