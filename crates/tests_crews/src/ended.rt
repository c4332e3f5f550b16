//! Lasting workers have ended when the crew is finished: each thread owns the crew's gate until it has ended.

use road_workers::{NoGate, Pool};
use std::alloc::Global;
use std::sync::{Arc, Wait};
use std::test::Fail;
use std::thread::Threads;

// Return whether the workers own their gate until the crew is finished, and no worker owns it afterwards.
fn have_ended<R: Threads + Wait + Clone + Drop + Send + 'static>(
    rt: R,
    alloc: Global,
) -> Result<bool, Fail> {
    let mut gate = Arc::new(alloc, NoGate)?;
    let pool = Pool::start_gated(rt, alloc, 16, Arc::try_clone(&gate)?)?;
    let is_shared = Arc::get_mut(&mut gate).is_none();
    pool.finish();
    Ok(is_shared && Arc::get_mut(&mut gate).is_some())
}

#[test]
fn lasting_workers_have_ended(rt: HostRuntime) -> Result<(), Fail> {
    let alloc = rt.alloc();
    for _ in 0..20 {
        let have_ended = have_ended(rt.clone()?, alloc)?;
        assert!(rt; have_ended);
    }
    Ok(())
}
