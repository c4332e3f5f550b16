//! Two sessions of a crowd are at their gate at once.

use crate::crowds::{block_and_withdrawal, run_crowd};
use std::slice;
use std::test::Fail;
use tests_plans::Meeting;

/// The maximum number of times that a session looks for the other one.
const TURNS: u32 = 1_000_000;

#[test]
fn two_sessions_meet(rt: HostRuntime) -> Result<(), Fail> {
    let alloc = rt.alloc();
    let shares = block_and_withdrawal(alloc)?;
    let meeting = Meeting::new(rt.clone()?, 2, TURNS);
    let crowd = run_crowd(&rt, alloc, shares.as_slice(), 6, &meeting)?;
    let was_held = meeting.was_held(1);
    assert!(rt; was_held && crowd.journal == 4);
    Ok(())
}

/// Two crowds of one session each, one after the other, pass the gate without meeting. So the gate distinguishes them
/// from two sessions at once.
#[test]
fn sessions_one_after_another_do_not_meet(rt: HostRuntime) -> Result<(), Fail> {
    let alloc = rt.alloc();
    let shares = block_and_withdrawal(alloc)?;
    let meeting = Meeting::new(rt.clone()?, 2, 100);
    for share in &shares {
        let _ = run_crowd(&rt, alloc, slice::from_ref(share), 6, &meeting)?;
    }
    let was_held = meeting.was_held(1);
    assert!(rt; !was_held);
    Ok(())
}
