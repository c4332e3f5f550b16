//! Gates, which workers pass before they compute.

/// What each worker calls before it computes its piece or runs its stretch, for a program that watches its workers.
/// Tests see that all workers are at their gate at the same time. No test sees whether a piece was computed before or
/// after the gate.
pub trait Gate {
    /// Let worker number `worker` pass, counted from 0, which is about to compute its piece or run its stretch. Either
    /// may be empty. The worker waits until this returns.
    fn arrive(&self, worker: u32);
}

/// The gate that does nothing.
#[derive(Clone, Copy, Debug, PartialEq, Eq)]
pub struct NoGate;

impl Gate for NoGate {
    fn arrive(&self, _worker: u32) {}
}
