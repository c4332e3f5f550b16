//! Worked runs of sessions, one after another in one thread.

use crate::acts::{Script, run_script};
use crate::scripts::{
    ALONE, CLOSINGS, EIGHT, FIRST_MISSING, KEPT, LAST_MISSING, RECEIPT, THREE, WITHDRAWN,
};
use road_sessions::{OpenFault, Prepared, prepare};
use std::alloc::Global;
use std::marker::Brand;
use std::sync::{Arc, Wait};
use tests_plans::{FREE, plan_of};

/// Prepare a replica of the free road, with this number, for `sessions` sessions and at most `limit` writes.
pub(crate) fn prepare_free_road<R: Wait + Drop>(
    rt: R,
    alloc: Global,
    number: u32,
    sessions: u32,
    limit: u64,
) -> Result<Prepared<R>, OpenFault> {
    let Ok(plan) = plan_of(alloc, &FREE) else {
        return Err(OpenFault::OutOfMemory);
    };
    let Ok(plan) = Arc::new(alloc, plan) else {
        return Err(OpenFault::OutOfMemory);
    };
    let sessions = sessions.max(1).min(8);
    let limit = limit.max(1).min(1_000_000);
    prepare(rt, alloc, plan, number % 64, sessions, limit)
}

// Return whether a new store does what its script says.
fn open_and_run_script<R: Wait + Drop + Copy>(rt: R, alloc: Global, script: &Script) -> bool {
    match prepare_free_road(rt, alloc, script.number, script.sessions, script.limit) {
        Ok(prepared) => run_script::<Brand, R, R>(&rt, alloc, prepared, script),
        Err(_) => false,
    }
}

#[test]
fn a_session_sees_the_write_that_it_is_told_of(rt: HostRuntime) {
    for closing in CLOSINGS {
        let script = Script { closing, ..RECEIPT };
        assert!(rt; open_and_run_script(&rt, rt.alloc(), &script));
    }
}

#[test]
fn scripts_have_their_worked_results(rt: HostRuntime) {
    for script in [ALONE, WITHDRAWN, THREE, EIGHT] {
        assert!(rt; open_and_run_script(&rt, rt.alloc(), &script));
    }
}

#[test]
fn sessions_that_a_refused_closing_hands_back_go_on(rt: HostRuntime) {
    for script in [LAST_MISSING, FIRST_MISSING] {
        assert!(rt; open_and_run_script(&rt, rt.alloc(), &script));
    }
}

#[test]
fn a_kept_sheet_stays_unchanged(rt: HostRuntime) {
    assert!(rt; open_and_run_script(&rt, rt.alloc(), &KEPT));
}
