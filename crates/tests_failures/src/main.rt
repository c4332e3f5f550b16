//! Try one call and judge it: prepare the state, make the call, and compare the answer and the state afterwards with
//! worked results. If the call is refused because memory ran out, the state must be unchanged, and the same call must
//! then answer as if it had not been refused. `tools/fail-in-turn` runs this with each allocation failing in turn, and
//! no run may find something wrong.
//!
//! `tests_failures NAME` tries the call with this name. It prints `right` if the call answered at once, `right again`
//! if it was refused first, `right with new threads` if it was refused because a thread could not be started, `right
//! behind a refused event` if one event of a list was refused and skipped, `wrong: ..`, or `not met` if an allocation
//! failed before the call or while it was judged.
//! `tests_failures NAME prepared` ends before the call, and `tests_failures NAME called` before the judging.
//! `tests_failures list` prints all names, and `tests_failures all` tries them one after another.
#![tactic(auto)]

mod cases;
mod crews;
mod crowds;
mod lines;
mod refusals;
mod replicas;
mod roads;
mod scenarios;
mod sessions;
mod sheets;
mod steps;
mod verdict;
mod worlds;

use crate::cases::{Case, LAYERS, cases_of, try_case};
use crate::verdict::{Until, Verdict};
use std::alloc::Global;
use std::sync::Wait;
use std::thread::Threads;
use std::{env, io};

// Print the verdict on a call, if it was judged.
fn print_verdict<R: Print>(rt: &R, verdict: Option<Verdict>) -> io::Result<()> {
    match verdict {
        Some(Verdict::Stopped) => Ok(()),
        Some(Verdict::Right) => println!(rt; "right"),
        Some(Verdict::Again) => println!(rt; "right again"),
        Some(Verdict::Restarted) => println!(rt; "right with new threads"),
        Some(Verdict::Skipped) => println!(rt; "right behind a refused event"),
        Some(Verdict::Refused) => println!(rt; "wrong: it was not made again"),
        Some(Verdict::Wrong(wrong)) => println!(rt; "wrong: {}", wrong.text()),
        None => println!(rt; "not met"),
    }
}

// Return the case with this name.
fn case_named(name: &str) -> Option<Case> {
    for layer in 0..LAYERS {
        for (other, case) in cases_of(layer) {
            if *other == name {
                return Some(*case);
            }
        }
    }
    None
}

// Return the stage that a word names.
fn until(word: &str) -> Until {
    match word {
        "prepared" => Until::Prepared,
        "called" => Until::Called,
        _ => Until::Judged,
    }
}

// Try the call with this name up to a stage, and print the verdict.
fn try_one<R: Print + Threads + Wait + Clone + Drop + Send + 'static>(
    rt: &R,
    alloc: Global,
    name: &str,
    until: Until,
) -> io::Result<()> {
    match case_named(name) {
        Some(case) => print_verdict(rt, try_case(rt, alloc, until, case)),
        None => println!(rt; "wrong: there is no such call"),
    }
}

// Print all names.
fn list<R: Print>(rt: &R) -> io::Result<()> {
    for layer in 0..LAYERS {
        for (name, _) in cases_of(layer) {
            println!(rt; "{name}")?;
        }
    }
    Ok(())
}

// Try all calls, and print each verdict other than `right`.
fn try_all<R: Print + Threads + Wait + Clone + Drop + Send + 'static>(
    rt: &R,
    alloc: Global,
) -> io::Result<()> {
    for layer in 0..LAYERS {
        for (name, case) in cases_of(layer) {
            let verdict = try_case(rt, alloc, Until::Judged, *case);
            if verdict != Some(Verdict::Right) {
                println!(rt; "{name}")?;
                print_verdict(rt, verdict)?;
            }
        }
    }
    println!(rt; "all calls are tried")
}

// Do what the arguments request. The first argument is the program's name.
fn run_command<R: Print + Threads + Wait + Clone + Drop + Send + 'static>(
    rt: &R,
    alloc: Global,
    words: &[String],
) -> io::Result<()> {
    match words {
        [_, name] if name.as_str() == "list" => list(rt),
        [_, name] if name.as_str() == "all" => try_all(rt, alloc),
        [_, name] => try_one(rt, alloc, name, Until::Judged),
        [_, name, word] => try_one(rt, alloc, name, until(word)),
        _ => Ok(()),
    }
}

// Return the program's arguments, with its name.
fn words_of(rt: &HostRuntime) -> io::Result<Vec<String>> {
    let mut words = Vec::new(rt.alloc());
    for word in env::args(rt)? {
        words.push(word)?;
    }
    Ok(words)
}

fn main(rt: HostRuntime) -> io::Result<()> {
    let words = words_of(&rt)?;
    run_command(&rt, rt.alloc(), &words)
}
