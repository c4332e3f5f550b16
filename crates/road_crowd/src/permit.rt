//! The permit to wait, for other threads.

use std::snapshot::Snapshot;
use std::sync::Wait;

/// The permit to wait, taken from a runtime that has it. It contains nothing else of the runtime, so it may move to any
/// thread, whatever the runtime is.
pub(crate) struct Permit<W> {
    of: Snapshot<W>,
}

impl<W: Wait> Permit<W> {
    // Take the permit of this runtime.
    pub(crate) fn of(rt: &W) -> Permit<W> {
        Permit {
            of: Snapshot::of(rt),
        }
    }
}

impl<W> Drop for Permit<W> {
    fn drop(self) {
        let Permit { of: _of } = self;
    }
}

impl<W: Wait> Wait for Permit<W> {}
