//! Serves standard input with lower limits than the program, so that `tools/fail-in-turn` can try a run that ends at a
//! limit, with each of its allocations failing in turn. It ends as the program does.
#![tactic(auto)]

use road_crowd::OnThreads;
use road_serve::{ServeFault, StdSink, StdSource, serve_within};
use road_workers::Alone;
use std::hash::RandomState;
use std::process::ExitCode;

/// The maximum number of lines after the plan line.
const LINES: u32 = 9;

/// The maximum number of bytes.
const BYTES: u64 = 1_000_000;

// Return the exit status of a run that failed.
fn status_of(fault: &ServeFault) -> u8 {
    match fault {
        ServeFault::BadPlan => 2,
        ServeFault::OutOfMemory => 3,
        ServeFault::Write => 4,
        ServeFault::Read => 5,
        ServeFault::TooMany => 6,
        ServeFault::WorkersGone => 7,
    }
}

fn main(rt: HostRuntime) -> ExitCode {
    let mut reader = StdSource::new(rt.stdin());
    let mut writer = StdSink::new(rt.stdout());
    let crowds = OnThreads::new(&rt);
    let served = match RandomState::new(&rt) {
        Ok(hasher) => serve_within(
            rt.alloc(),
            &mut reader,
            &mut writer,
            &mut Alone,
            &crowds,
            hasher,
            LINES,
            BYTES,
        ),
        Err(_) => Err(ServeFault::Read),
    };
    match served {
        Ok(_) => ExitCode::from(0),
        Err(fault) => {
            let _ = eprintln!(&rt; "{fault}");
            ExitCode::from(status_of(&fault))
        }
    }
}
