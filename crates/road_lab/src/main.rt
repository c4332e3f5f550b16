//! The program `road_lab`: it reads a plan line and then commands, one JSON object on each line, and writes a reply for
//! each.
#![tactic(auto)]

use road_serve::{Ended, StdSink, StdSource, run};
use std::process::ExitCode;
use std::{env, io};

// Return the arguments of the program, without its name.
fn words(rt: &HostRuntime) -> io::Result<Vec<String>> {
    let mut words = Vec::new(rt.alloc());
    for word in env::args(rt)?.skip(1) {
        words.push(word)?;
    }
    Ok(words)
}

fn main(rt: HostRuntime) -> ExitCode {
    let ended = match words(&rt) {
        Ok(words) => {
            let mut reader = StdSource::new(rt.stdin());
            let mut writer = StdSink::new(rt.stdout());
            run(&rt, &words, &mut reader, &mut writer)
        }
        Err(fault) if fault.kind() == io::ErrorKind::OutOfMemory => Ended::no_memory(),
        // The program accepts no argument that is not UTF-8.
        Err(_) => Ended::bad_arguments(),
    };
    if let Some(line) = ended.line {
        let _ = eprintln!(&rt; "{line}");
    }
    ExitCode::from(ended.status)
}
