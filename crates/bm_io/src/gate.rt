//! What may make the workers of a threaded run wait.

/// A place at which a worker can be made to wait. `at` returns, and touches nothing of the run's
/// state.
pub trait Gate: Sync {
    /// Worker m + 1 is about to deliver its packet number `step` of the whole run; worker 0 is
    /// about to carry out command number `step`. Both count from 1.
    fn at(&self, worker: u16, step: u32);
}

/// The gate at which no worker waits.
#[derive(Clone, Copy)]
pub struct OpenGate;

impl Gate for OpenGate {
    fn at(&self, _worker: u16, _step: u32) {}
}
